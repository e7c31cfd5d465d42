// Steps 2 and 3 of an ordinary heartbeat, on the sets of a place.
ghost use Rattle.std.specs.Prelude.{◌≡◌, false, not, MatchOption};
ghost use Rattle.rules.specs.Basics.{any};
ghost use Rattle.slots.specs.Set.{has};
ghost use Rattle.tables.specs.Advances.{listed, moves_in, FreesSet, AdvancesSets};

use crate::gathering::PlaceSets;
use rules::Slot;
use slots::SlotSet;

// What becomes of the slots of a place. `frees`: P is freed before.
#[derive(Clone, Copy)]
pub enum Change {
    // nothing: the place waits for slots of P to be given back
    Waits,
    // nothing: P is empty, and A is all of M that can be had
    Stays,
    // slots of A move to P
    Revokes { frees: bool },
    // A or P changes: slots of M enter A, and P is empty
    Claims { frees: bool },
}

impl Change {
    // Whether A or P changes.
    pub fn moves(self) -> bool
        ensures { result ≡ moves_in self }
    {
        match self {
            Change::Waits | Change::Stays => false,
            Change::Revokes { .. } | Change::Claims { .. } => true,
        }
    }
}

// What steps 2 and 3 come to: A and P after them, and what becomes of the slots.
#[derive(Clone, Copy)]
pub struct Advance {
    pub assigned: SlotSet,
    pub revoking: SlotSet,
    pub change: Change,
}

// Whether some slot of the list is in the set.
fn meets(set: SlotSet, list: &[u16]) -> bool
    ensures { result ≡ any (has set.words) list.now }
{
    list.iter().any(|s| set.contains(Slot(*s)))
}

// Whether a list is given that has no slot of the set.
fn lists_none(set: SlotSet, owned: Option<&[u16]>) -> bool
    ensures { MatchOption owned.entry (result ≡ false) (λ list. result ≡ not (any (has set.words) list.now)) }
{
    owned.is_some_and(|list| !meets(set, list))
}

impl PlaceSets {
    // Step 2: whether P is freed, or `None` where the place waits for slots of P to be given back.
    fn frees(self, owned: Option<&[u16]>) -> Option<bool>
        ensures { FreesSet self (listed owned.entry) result }
    {
        if self.revoking.is_empty() {
            return Some(false);
        }
        if lists_none(self.revoking, owned) {
            return Some(true);
        }
        None
    }

    // Steps 2 and 3 on the sets of a place, by the list that may be given.
    pub fn advance(self, owned: Option<&[u16]>) -> Advance
        ensures { AdvancesSets self (listed owned.entry) result }
    {
        let Some(frees) = self.frees(owned) else {
            return Advance {
                assigned: self.assigned,
                revoking: self.revoking,
                change: Change::Waits,
            };
        };
        let strays = self.assigned.difference(self.target);
        if strays.is_empty() {
            let outside = self.revoking.difference(self.target);
            let regained = self.revoking.difference(outside);
            let claimed = self.claimable.union(regained);
            let moves = frees | !claimed.is_empty();
            return Advance {
                assigned: self.assigned.union(claimed),
                revoking: SlotSet::empty(),
                change: if moves {
                    Change::Claims { frees }
                } else {
                    Change::Stays
                },
            };
        }
        Advance {
            assigned: self.assigned.difference(strays),
            revoking: strays,
            change: Change::Revokes { frees },
        }
    }
}
