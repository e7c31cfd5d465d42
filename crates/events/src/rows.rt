// What more than one kind of heartbeat asks of its request: the first row 42, and the subscription that it may leave out.
ghost use Rattle.std.specs.Prelude.{◌≡◌, ◌||◌};
ghost use Rattle.rules.specs.Basics.{default};
ghost use Rattle.rules.specs.Refusals.{zero_id, bad_timeout, malformed};
ghost use Rattle.events.specs.Outcomes.{given_subscription, request_of};

use crate::Request;
use group::{ids, requests};

impl Request {
    // The first row 42 but for the list: whether the ID is all zero or the timeout is out of range.
    pub fn is_malformed_beside_list(self) -> bool
        ensures { result ≡ (zero_id self.id || bad_timeout self.timeout) }
    {
        ids::is_zero(self.id) || requests::is_bad_timeout(self.timeout)
    }

    // The first row 42 of a join or an ordinary heartbeat: whether its ID is all zero, its timeout is out of range, or its list is no set of slots.
    #[tactic(auto, unfolding(rules::specs::Refusals::malformed, rules::specs::Refusals::bad_list, rules::specs::Refusals::is_slot_set, crate::specs::Outcomes::request_of))]
    pub fn is_malformed(self, owned: &[u16]) -> bool
        ensures { result ≡ malformed (request_of self owned.now) }
    {
        self.is_malformed_beside_list() || self.has_list && requests::is_bad_list(owned)
    }

    // The subscription that is given, or else the one there was.
    pub fn subscription_or(self, had: u16) -> u16
        ensures { result ≡ default had (given_subscription self.has_subscription self.subscription) }
    {
        if self.has_subscription {
            self.subscription
        } else {
            had
        }
    }
}
