// The three tables of a group, with an entry for each slot, and what is done on them for one place. Nothing here knows members or epochs.
// A slot's target and its holder are places, or 255 for none. A held slot that is `waiting` is to be given back.
// A place that is passed is below 255, which means no place; a law that needs that says so.
#![tactic(auto)]

ghost use Rattle.std.specs.Prelude.{◌≡◌};
ghost use Rattle.rules.specs.Group.{fresh};
ghost use Rattle.tables.specs.View.{slots_in};

use rules::{NO_PLACE, SLOTS};

mod advancing; // advancing.rt: steps 2 and 3 of an ordinary heartbeat, on the sets of a place
mod changing; // changing.rt: slots moved, freed or vacated
mod gathering; // gathering.rt: the sets of a place, by one pass
mod searching; // searching.rt: from one slot of a place to the next
mod testing; // testing.rt: tests of a place
mod walking; // walking.rt: the slots of a place, one after another

pub use advancing::{Advance, Change};
pub use gathering::PlaceSets;

// The tables of a group, an entry of each for a slot.
// As it is: the C interface, whose group has an array for each table; a pass over one table goes by as many slots as a vector has bytes.
#[repr(C)]
#[derive(Clone, Copy)]
pub struct Tables {
    pub target: [u8; SLOTS],
    pub holder: [u8; SLOTS],
    pub waiting: [bool; SLOTS],
}

impl Tables {
    // No slot has a target or a holder. 01: 'holder and target tables as [255; 1024]'.
    pub fn empty() -> Tables
        ensures { slots_in result ≡ (fresh 0).slots }
    {
        Tables {
            target: [NO_PLACE; SLOTS],
            holder: [NO_PLACE; SLOTS],
            waiting: [false; SLOTS],
        }
    }
    // The tables become those of `empty`, where they lie.
    pub fn clear(&mut self)
        ensures { slots_in self.new ≡ (fresh 0).slots }
    {
        self.target.fill(NO_PLACE);
        self.holder.fill(NO_PLACE);
        self.waiting.fill(false);
    }
}
