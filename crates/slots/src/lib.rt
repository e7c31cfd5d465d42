// Sets of slots, kept as words: slot s is bit s % 64 of word s / 64. What each function does is said slot by slot, by `has`, or of the rising list of
// the slots, `slots_of`.
#![tactic(auto)]

ghost use Rattle.std.specs.Prelude.{◌≡◌, false, not, ◌&&◌, ◌||◌, ℕ, ◌%◌, ◌≤◌, eqb, length, get_or};
ghost use Rattle.rules.specs.Constants.{no_place};
ghost use Rattle.numbers.specs.Buffer.{Wrote};
ghost use Rattle.slots.specs.Set.{bit, has, slots_of, TellsEmpty, TellsSubset};

use rules::{NO_PLACE, Slot};

mod walking; // walking.rt: from one slot of a set to the next

pub use walking::Slots;

// A set takes so many words of 64 slots.
pub const WORDS: usize = 16;

#[derive(Clone, Copy)]
pub struct SlotSet {
    pub words: [u64; WORDS],
}

impl SlotSet {
    // The set of no slot.
    pub fn empty() -> SlotSet
        ensures { (s : ℕ) → has result.words s ≡ false }
    {
        SlotSet { words: [0; WORDS] }
    }

    // Whether the slot is in the set; a number of 1024 or more is in none.
    pub fn contains(self, slot: Slot) -> bool
        ensures { result ≡ has self.words slot.0 }
    {
        let n = slot.0;
        self.words
            .get((n / 64) as usize)
            .is_some_and(|word| (*word >> (n % 64)) % 2 == 1)
    }

    // The slots of either set.
    pub fn union(self, other: SlotSet) -> SlotSet
        ensures { (s : ℕ) → has result.words s ≡ (has self.words s || has other.words s) }
    {
        let mut r = self;
        for i in 0..WORDS {
            r.words[i] |= other.words[i];
        }
        r
    }

    // The slots that `other` has not.
    pub fn difference(self, other: SlotSet) -> SlotSet
        ensures { (s : ℕ) → has result.words s ≡ (has self.words s && not (has other.words s)) }
    {
        let mut r = self;
        for i in 0..WORDS {
            r.words[i] &= !other.words[i];
        }
        r
    }

    pub fn is_empty(self) -> bool
        ensures { TellsEmpty self.words result }
    {
        self.words == [0; WORDS]
    }

    // Whether each slot of the set is in `other`.
    pub fn is_subset(self, other: SlotSet) -> bool
        ensures { TellsSubset self.words other.words result }
    {
        self.difference(other).is_empty()
    }

    // The number of slots: the machine's counts of ones, over the words.
    pub fn count(self) -> u32
        ensures { result ≡ length (slots_of self.words) }
    {
        let mut n: u32 = 0;
        for word in self.words {
            n += word.count_ones();
        }
        n
    }
}

// A word with the bit of number n put in where `on`.
pub fn mark(word: u64, n: usize, on: bool) -> u64
    ensures { (i : ℕ) → bit result i ≡ (bit word i || (eqb i (n % 64) && on)) }
{
    if on {
        return word | (1u64 << (n % 64));
    }
    word
}

// Writes the slots of the set, in rising order, at the start of `out`, and leaves the rest of it alone. Returns how many there are.
pub fn list_slots(out: &mut [u16], a: SlotSet) -> usize
    requires { length (slots_of a.words) ≤ length out.old }
    ensures { Wrote (slots_of a.words) out.old out.new result }
{
    // As it is: `enumerate` is no plainer, since how many there are is the answer too.
    let mut at: usize = 0;
    for slot in a.slots() {
        out[at] = slot;
        at += 1;
    }
    at
}

// The entry that a table has for a slot; 255 past its end.
// As it is: the C interface; in the tables of a host 255 stands for nobody, and that is what the rules' `no_place` promises past the end.
pub fn entry_at(table: &[u8], slot: Slot) -> u8
    ensures { result ≡ get_or table.now slot.0 no_place }
{
    table.get(slot.0 as usize).copied().unwrap_or(NO_PLACE)
}
