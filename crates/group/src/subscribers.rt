// Tests over the columns of the members: who subscribes to a topic, and whom a sweep removes.
ghost use Rattle.std.specs.Prelude.{◌≡◌, map, slice_index_or};
ghost use Rattle.std.proofs.Math.Option.{none};
ghost use Rattle.rules.specs.Basics.{any};
ghost use Rattle.rules.specs.Effects.{due};
ghost use Rattle.rules.specs.Group.{includes_topic, subscribes};
ghost use Rattle.group.specs.Columns.{view_members};
ghost use Rattle.group.specs.Entries.{subscription_of};

use crate::members::{HEARD, Members, REVOKED_AT};
use crate::ticks;
use rules::{MEMBERS, Place, SESSION_TIMEOUT, TOPIC_END};

// Whether a subscription has a topic.
#[tactic(auto, using(crate::proofs::Installing::past_topics), unfolding(rules::specs::Group::includes_topic))]
pub(crate) fn includes_topic(subscription: u16, topic: u32) -> bool
    ensures { result ≡ includes_topic topic subscription }
{
    topic < TOPIC_END && (subscription >> topic) % 2 == 1
}

impl Members {
    // The subscription at a place, 0 where nobody is.
    #[tactic(auto, using(crate::proofs::PlaceTests::nobody, crate::proofs::PlaceTests::somebody), unfolding(crate::specs::Entries::subscription_of))]
    pub fn subscribed_at(&self, p: Place) -> u16
        ensures { result ≡ subscription_of (slice_index_or (view_members self.now.cells) p.0 none) }
    {
        if self.is_vacant(p) {
            return 0;
        }
        self.subscription_at(p)
    }

    // The subscription at each place, 0 where no member is.
    pub fn subscriptions(&self) -> [u16; MEMBERS]
        ensures { result ≡ map subscription_of (view_members self.now.cells) }
    {
        let mut all = [0u16; MEMBERS];
        for k in 0..MEMBERS {
            all[k] = self.subscribed_at(Place(k as u8));
        }
        all
    }

    // Whether some member subscribes to a topic. One column says no at most places; who is there is looked at last.
    pub fn any_subscribes(&self, topic: u32) -> bool
        ensures { result ≡ any (subscribes topic) (view_members self.now.cells) }
    {
        (0..MEMBERS as u8).any(|k| {
            includes_topic(self.subscription_at(Place(k)), topic) && !self.is_vacant(Place(k))
        })
    }

    // Whether a sweep at a tick removes the member at a place; `revokes`: its P is not empty.
    // Most members were heard lately, so that one column says no; who is at the place is looked at last.
    #[tactic(auto, using(crate::proofs::PlaceTests::due_is, crate::proofs::Columns::heard_number, crate::proofs::Columns::revoked_number))]
    pub fn is_due(&self, p: Place, revokes: bool, tick: u32) -> bool
        ensures { result ≡ due tick revokes (slice_index_or (view_members self.now.cells) p.0 none) }
    {
        let late = SESSION_TIMEOUT <= ticks::elapsed(tick, self.number_at(HEARD, p))
            || revokes && self.timeout_at(p) <= ticks::elapsed(tick, self.number_at(REVOKED_AT, p));
        late && !self.is_vacant(p)
    }
}
