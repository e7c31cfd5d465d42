// A record 7 laid over a target: its place gets its slots and no other.
ghost use Rattle.std.specs.Prelude.{◌≡◌, eqb, if◌then◌else◌};
ghost use Rattle.rules.specs.Basics.{any};
ghost use Rattle.rules.specs.Constants.{no_place};
ghost use Rattle.rules.specs.Batches.{laid};
ghost use Rattle.slots.specs.Set.{slots_of};
ghost use Rattle.batches.specs.Laying.{Replaces};

use rules::{NO_PLACE, SLOTS};
use slots::SlotSet;

// No entry is p.
fn clear(entries: &mut [u8; SLOTS], p: u8)
    ensures { Replaces (λ k x. if eqb x p then no_place else x) entries.old entries.new }
{
    for entry in entries.iter_mut() {
        *entry = if *entry == p { NO_PLACE } else { *entry };
    }
}

// The entry of each slot of the set is p.
#[tactic(auto, using(crate::proofs::Entries::by_slots))]
fn give(entries: &mut [u8; SLOTS], p: u8, slots: SlotSet)
    ensures { Replaces (λ k x. if any (eqb k) (slots_of slots.words) then p else x) entries.old entries.new }
{
    for slot in slots.slots() {
        entries[slot as usize] = p;
    }
}

#[tactic(auto, using(crate::proofs::Entries::laid_is))]
pub fn lay(entries: &mut [u8; SLOTS], p: u8, slots: SlotSet)
    ensures { entries.new ≡ laid p (slots_of slots.words) 0 entries.old }
{
    clear(entries, p);
    give(entries, p, slots);
}
