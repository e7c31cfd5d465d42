// What one pass over the tables tells of a place, as sets of slots.
ghost use Rattle.tables.specs.View.{slots_in, Whole};
ghost use Rattle.tables.specs.Gathers.{Gathers};

use crate::Tables;
use rules::{NO_PLACE, Place};
use slots::{SlotSet, WORDS};

// A, P and M of a place, and the slots of M that nobody holds.
#[derive(Clone, Copy)]
pub struct PlaceSets {
    pub assigned: SlotSet,
    pub revoking: SlotSet,
    pub target: SlotSet,
    pub claimable: SlotSet,
}

impl Tables {
    // The sets of the place p, by one pass over the tables.
    pub fn gather(&self, p: Place) -> PlaceSets
        ensures sets { Gathers p.0 (slots_in self.now) result }
        ensures whole { Whole self.now }
    {
        let mut assigned = [0u64; WORDS];
        let mut revoking = [0u64; WORDS];
        let mut target = [0u64; WORDS];
        let mut claimable = [0u64; WORDS];
        for s in self.slots_near(p) {
            let k = s / 64;
            let h = self.holder[s];
            let w = self.waiting[s];
            let t = self.target[s];
            assigned[k] = slots::mark(assigned[k], s, (h == p.0) & !w);
            revoking[k] = slots::mark(revoking[k], s, (h == p.0) & w);
            target[k] = slots::mark(target[k], s, t == p.0);
            claimable[k] = slots::mark(claimable[k], s, (t == p.0) & (h == NO_PLACE));
        }
        PlaceSets {
            assigned: SlotSet { words: assigned },
            revoking: SlotSet { words: revoking },
            target: SlotSet { words: target },
            claimable: SlotSet { words: claimable },
        }
    }
}
