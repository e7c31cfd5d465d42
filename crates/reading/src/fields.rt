// The fields of a record, each read at the cursor: a number in groups of seven bits, a byte, an ID, a set of slots.
ghost use Rattle.std.specs.Prelude.{◌≡◌, ◌+◌, None, Some, if◌then◌else◌};
ghost use Rattle.rules.specs.Constants.{id_length};
ghost use Rattle.rules.specs.Reader.{byte, read_bytes};
ghost use Rattle.slots.specs.Set.{slots_of};
ghost use Rattle.reading.specs.Narrow.{number32, slot_from, set32};
ghost use Rattle.reading.specs.Places.{Finds};

use rules::{ID_LENGTH, Id, SLOTS};
use slots::SlotSet;

// A group of this weight that another follows is of a number that is out of range: it is 2^32 / 128.
const LARGE_WEIGHT: u64 = 33554432;

// Slots are below this.
const SLOT_RANGE: u32 = SLOTS as u32;

// A place in the bytes: where the next field is read. A field that is found is passed over.
#[derive(Clone, Copy)]
pub struct Cursor<'a> {
    pub bytes: &'a [u8],
    pub at: usize,
}

impl<'a> Cursor<'a> {
    // A number, in the fewest groups.
    #[tactic(auto, using(crate::proofs::Groups::by_groups))]
    pub fn number(&mut self) -> Option<u32>
        ensures { Finds number32 (λ n. n) self.old result self.new }
    {
        // what the groups so far come to, and what the next one counts
        let mut low: u64 = 0;
        let mut weight: u64 = 1;
        for i in self.at..self.bytes.len() {
            let b = self.bytes[i] as u64;
            if b < 128 {
                // a last group of 0 is there for nothing
                if b == 0 && 1 < weight {
                    return None;
                }
                let n = u32::try_from(b * weight + low).ok()?;
                self.at = i + 1;
                return Some(n);
            }
            if LARGE_WEIGHT <= weight {
                return None;
            }
            low += (b - 128) * weight;
            weight *= 128;
        }
        None
    }

    // A byte, as it is.
    #[tactic(auto, using(crate::proofs::Bytes::byte_here, crate::proofs::Bytes::byte_past))]
    pub fn byte(&mut self) -> Option<u8>
        ensures { Finds byte (λ b. b) self.old result self.new }
    {
        let b = *self.bytes.get(self.at)?;
        self.at += 1;
        Some(b)
    }

    // An ID: sixteen bytes.
    #[tactic(auto, using(crate::proofs::Bytes::bytes_past))]
    pub fn id(&mut self) -> Option<Id>
        ensures { Finds (read_bytes id_length) (λ id. id) self.old result self.new }
    {
        let id = self.bytes.get(self.at..)?.first_chunk()?;
        self.at += ID_LENGTH;
        Some(*id)
    }

    // A set of slots: their number, and the difference of each from the one before.
    #[tactic(auto, using(crate::proofs::Rising::by_slots))]
    pub fn set(&mut self) -> Option<SlotSet>
        ensures { Finds set32 (λ set. slots_of set.words) self.old result self.new }
    {
        let n = self.number()?;
        let mut set = SlotSet::empty();
        let mut low = 0;
        let mut from = 0;
        for _ in 0..n {
            let d = self.number()?;
            let slot = slot_after(low, from, d)?;
            let word = (slot / 64) as usize;
            set.words[word] |= 1 << (slot % 64);
            low = slot + 1;
            from = slot;
        }
        Some(set)
    }
}

// The slot that comes `d` after `from`, where it is one and not below `low`.
fn slot_after(low: u32, from: u32, d: u32) -> Option<u32>
    ensures { result ≡ (if slot_from low (from + d) then Some (from + d) else None) }
{
    let slot = from.checked_add(d)?;
    (low <= slot && slot < SLOT_RANGE).then_some(slot)
}
