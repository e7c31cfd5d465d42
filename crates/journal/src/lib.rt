// A journal read back, into a group that the caller lends: the group that wrote it, with the tick of reading for every tick of it, and whether the file is whole,
// refused or torn. Any bytes get an answer, and whatever the group held before is forgotten. What holds of every reading is `JournalTheorems` of the rules: a batch is
// refused exactly when no event would write it, a file cut at any byte gives the group after the events that count, and demand 3 goes on over the reading.
// A caller that has not the whole file in memory reads it batch by batch: `frames::read_heading`, then for each batch `frames::read_extent` and `judging::read_batch`.
#![tactic(auto)]

ghost use Rattle.std.specs.Prelude.{◌≡◌, suc, length, drop};
ghost use Rattle.rules.specs.Journal.{read_batches, read_journal};
ghost use Rattle.rules.specs.Brokers.{JournalTheorems};
ghost use Rattle.group.specs.View.{view};
ghost use Rattle.journal.specs.Readings.{reading_as};

use frames::{Damage, HEADING_LENGTH, NoBatch};
use group::Group;
use rules::{BATCH_LIMIT, SLOTS};

// The batches from the place `start` on, for the group so far.
fn read_batches(group: &mut Group, tick: u32, bytes: &[u8], start: usize) -> Result<(), Damage>
    ensures { reading_as result group.new ≡ read_batches (suc (length (drop start bytes.now))) tick start (view group.old) (drop start bytes.now) }
{
    let mut scratch = [0u8; BATCH_LIMIT];
    let mut list = [0u16; SLOTS];
    let mut at = start;
    // As it is: a `for` over an iterator of batches is no plainer, since its `next` would be this `match` over again, made to end behind a bad batch, and each
    // batch would have to carry the place that a refusal names.
    loop {
        match frames::read_extent(bytes, at) {
            Ok((first, end)) => {
                let batch = &bytes[first..end];
                let good = judging::read_batch_with(group, tick, batch, &mut scratch, &mut list);
                if !good {
                    return Err(Damage::RefusedAt(at));
                }
                at = end;
            }
            Err(NoBatch::End) => return Ok(()),
            Err(NoBatch::Torn) => return Err(Damage::TornFrom(at)),
            Err(NoBatch::Bad) => return Err(Damage::RefusedAt(at)),
        }
    }
}

// Reads a journal at a tick: whether it is whole, or what is wrong with it.
pub fn read(group: &mut Group, tick: u32, bytes: &[u8]) -> Result<(), Damage>
    ensures { (reading_as result group.new ≡ read_journal tick bytes.now) × JournalTheorems }
{
    group.renew(tick);
    frames::read_heading(bytes)?;
    read_batches(group, tick, bytes, HEADING_LENGTH)
}
