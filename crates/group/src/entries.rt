// The entries of an install: the first slot whose entry row 1006 refuses.
// The entries are tried against the topics' counts, the subscription at each place and the union of these, gathered once, so that the loop over 1,024 slots
// copies nothing.
ghost use Rattle.std.specs.Prelude.{◌≡◌};
ghost use Rattle.std.specs.List.{position_from, enumerate_from};
ghost use Rattle.group.specs.Entries.{Wanted, entry_bad, FirstBad};
ghost use Rattle.group.specs.View.{view};

use crate::Group;
use crate::subscribers::includes_topic;
use rules::{MEMBERS, NO_PLACE, PARTITIONS, TOPICS};

// What the entries are tried against: the count of each topic, the subscription at each place, and the topics whose slots may not be left with none.
#[derive(Drop)]
struct Trial<'a> {
    counts: &'a [u8; TOPICS],
    subscriptions: [u16; MEMBERS],
    wanted: u16,
}

// The topics whose slots may not be left with none: those that some member subscribes to, and none without the rule.
fn wanted_topics(rule: bool, subscriptions: &[u16; MEMBERS]) -> u16
    ensures { Wanted rule subscriptions.now result }
{
    if !rule {
        return 0;
    }
    subscriptions
        .iter()
        .fold(0, |all, subscription| all | *subscription)
}

impl<'a> Trial<'a> {
    // Whether an entry may not stand at a slot: it is a place, and the slot does not exist or no member there subscribes to its topic; or it is none, and the
    // slot exists and its topic is wanted.
    #[tactic(auto, using(crate::proofs::Installing::none_subscribed), unfolding(rules::specs::Group::includes_topic, crate::specs::Entries::entry_bad, crate::specs::Entries::slot_exists))]
    fn is_bad(&self, slot: usize, entry: u8) -> bool
        ensures { result ≡ entry_bad self.now.counts.now self.now.subscriptions self.now.wanted slot entry }
    {
        let topic = slot / PARTITIONS;
        let partition = (slot % PARTITIONS) as u8;
        let counts = self.counts;
        if counts.get(topic).copied().unwrap_or(0) <= partition {
            return entry != NO_PLACE;
        }
        if entry == NO_PLACE {
            return includes_topic(self.wanted, topic as u32);
        }
        let place = entry as usize;
        MEMBERS <= place || !includes_topic(self.subscriptions[place], topic as u32)
    }

    // The first slot whose entry may not stand.
    fn first_bad(&self, entries: &[u8]) -> Option<usize>
        ensures { result ≡ position_from (λ e. entry_bad self.now.counts.now self.now.subscriptions self.now.wanted e.0 e.1) 0 (enumerate_from 0 entries.now) }
    {
        // As it is: a search by `position` is proved only where its answer is handed on unchanged, so that a wrong order would be refused for its form alone.
        for (slot, entry) in entries.iter().enumerate() {
            if self.is_bad(slot, *entry) {
                return Some(slot);
            }
        }
        None
    }
}

impl Group {
    // Row 1006: the first slot whose entry may not stand; with the rule 'No slot left over' or without.
    pub fn first_bad(&self, rule: bool, entries: &[u8]) -> Option<usize>
        ensures { FirstBad rule (view self.now) entries.now result }
    {
        let subscriptions = self.members.subscriptions();
        let trial = Trial {
            counts: &self.topics.counts,
            subscriptions: subscriptions,
            wanted: wanted_topics(rule, &subscriptions),
        };
        trial.first_bad(entries)
    }
}
