// The search for the slots that concern a place: those that it holds and those of its target. It steps over eight slots at a time by a test without
// branches, so that a pass over the tables costs little where few slots are the place's.
ghost use Rattle.std.specs.Prelude.{◌≡◌, false, ◌+◌, ◌≤◌, ◌<◌};
ghost use Rattle.rules.specs.Constants.{slot_count};
ghost use Rattle.tables.specs.View.{slot_at, Whole};
ghost use Rattle.tables.specs.Places.{near, NoneNear, NextNear};

use crate::Tables;
use rules::{Place, SLOTS};

// So many slots are stepped over at a time.
const STRIDE: usize = 8;

impl Tables {
    // Whether the slot is near p. Both tables are looked at, without a branch.
    #[tactic(auto, unfolding(crate::specs::Places::near))]
    pub fn is_near(&self, p: Place, slot: usize) -> bool
        requires { slot < slot_count }
        ensures tells { result ≡ near p.0 (slot_at self.now slot) }
        ensures whole { Whole self.now }
    {
        (self.holder[slot] == p.0) | (self.target[slot] == p.0)
    }

    // Whether some of the eight slots from `from` on is near p.
    fn some_near(&self, p: Place, from: usize) -> bool
        requires { from + 8 ≤ slot_count }
        ensures { result ≡ false → NoneNear p.0 self.now from (from + 8) }
    {
        let mut some = false;
        for i in 0..STRIDE {
            some |= self.is_near(p, from + i);
        }
        some
    }

    // The slot that is reached by stepping over eights of which none is near p: which one is the program's choice, none before it is near.
    fn skip_far(&self, p: Place, from: usize) -> usize
        requires { from ≤ slot_count }
        ensures { (from ≤ result) × (result ≤ slot_count) × NoneNear p.0 self.now from result }
    {
        // As it is: the new form is no plainer: a `for` by eights, or `find` over `step_by`, does not say where it stopped if it found none.
        let mut i = from;
        while i + STRIDE <= SLOTS && !self.some_near(p, i) {
            i += STRIDE;
        }
        i
    }

    // The first slot from `from` on that is near p.
    pub(crate) fn next_near(&self, p: Place, from: usize) -> Option<usize>
        requires { from ≤ slot_count }
        ensures { NextNear p.0 self.now from result }
    {
        (self.skip_far(p, from)..SLOTS).find(|slot| self.is_near(p, *slot))
    }
}
