// The slots of a set one after another, in rising order. What is left of a word is kept, so that the next slot of the same word is a count of trailing
// zeros away.
ghost use Rattle.std.specs.Prelude.{◌<◌};
ghost use Rattle.slots.specs.Set.{word_count};

use crate::SlotSet;

// The slots of a set that are still to come.
#[derive(Clone, Copy)]
pub struct Slots {
    set: SlotSet,
    // the word that the next slot is looked for in first
    word: usize,
    // the bits of it whose slots are still to come
    left: u64,
    ghost within: { word < word_count },
}

impl SlotSet {
    ghost use Rattle.std.specs.Prelude.{◌≡◌};
    ghost use Rattle.slots.specs.Set.{slots_of};
    ghost use Rattle.slots.specs.Walk.{rest};

    // The slots of the set, in rising order.
    pub fn slots(self) -> Slots
        ensures { rest result ≡ slots_of self.words }
    {
        Slots {
            set: self,
            word: 0,
            left: self.words[0],
        }
    }
}

impl Iterator for Slots {
    ghost use Rattle.std.specs.Iterator.{YieldsFirst, item_count};
    ghost use Rattle.slots.specs.Walk.{rest};

    type Item = u16;

    ghost next_gives = { YieldsFirst rest };

    ghost remaining = { item_count rest };

    fn next(&mut self) -> Option<u16> {
        // As it is: the place in the set is kept from call to call, and a `for` over the words that are left would have to be made anew in each.
        while self.left == 0 {
            let word = self.word + 1;
            self.left = *self.set.words.get(word)?;
            self.word = word;
        }
        let left = self.left;
        self.left = left & (left - 1);
        Some(self.word as u16 * 64 + left.trailing_zeros() as u16)
    }
}
