// A set of slots as it stands in a record: its size, then its lowest slot, then each difference from the one before. It is written from slot to slot, and
// its length is found word by word.
ghost use Rattle.std.specs.Prelude.{◌≡◌, ◌+◌, ◌*◌, ◌≤◌, length};
ghost use Rattle.rules.specs.Constants.{slot_count};
ghost use Rattle.rules.specs.Records.{differences, set_bytes};
ghost use Rattle.numbers.specs.Buffer.{Wrote};
ghost use Rattle.slots.specs.Set.{slots_of, word_count};

use crate::{Encode, put_at};
use slots::SlotSet;

impl Encode for SlotSet {
    ghost bytes = { λ set. set_bytes (slots_of set.words) };

    ghost most = { 2 * slot_count + 5 };

    #[tactic(auto, using(crate::proofs::Differences::counted_length))]
    fn put(self, buf: &mut [u8]) -> usize {
        if self.is_empty() {
            return 0u32.put(buf);
        }
        let at = self.count().put(buf);
        at + put_differences(&mut buf[at..], self)
    }

    fn size(self) -> usize {
        if self.is_empty() {
            return 1; // a size of 0 takes one byte
        }
        let count = self.count();
        count.size() + count as usize + extra_len(self)
    }
}

// Writes the lowest slot and then each difference at the start of `buf`, and returns how many bytes that took.
pub fn put_differences(buf: &mut [u8], set: SlotSet) -> usize
    requires { length (differences 0 (slots_of set.words)) ≤ length buf.old }
    ensures { Wrote (differences 0 (slots_of set.words)) buf.old buf.new result }
{
    let mut at: usize = 0;
    let mut last: u16 = 0;
    for slot in set.slots() {
        at = put_at(buf, at, (slot - last) as u32);
        last = slot;
    }
    at
}

// How many bytes the lowest slot and the differences take beyond one for each. Slots of one word are less than 64 apart, so that only the first of a word
// can take more than one byte.
fn extra_len(set: SlotSet) -> usize
    ensures { (length (differences 0 (slots_of set.words)) ≡ length (slots_of set.words) + result) × (result ≤ 4 * word_count) }
{
    let mut extra: usize = 0;
    let mut last: u32 = 0;
    for (i, &word) in set.words.iter().enumerate() {
        if word != 0 {
            let start = (i * 64) as u32;
            let first = start + word.trailing_zeros();
            extra += (first - last).size() - 1;
            last = start + (63 - word.leading_zeros());
        }
    }
    extra
}
