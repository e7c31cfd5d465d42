// A batch judged for the group so far: the one event that it can be of is made from its records and run by the coordinator's own function, on the group in
// place, and what that wrote is compared with the batch. A batch that is refused leaves the group as it was.
#![tactic(auto)]

ghost use Rattle.judging.specs.Choices.{Attempts};
ghost use Rattle.judging.specs.Reads.{Reads};

mod asking; // asking.rt: the heartbeat that a batch can only be of
mod choosing; // choosing.rt: the event that a batch can only be of, run
mod comparing; // comparing.rt: what an event wrote, compared with the batch
mod retiming; // retiming.rt: the ticks that an event is tried with, and the tick of reading

use batches::Gathered;
use comparing::is_batch;
use group::Group;
use rules::{BATCH_LIMIT, MEMBERS, SLOTS};

// The event that the records of a batch say is run on the group with the tick of reading; if it did not write the batch, the group is put back.
fn attempt(
    group: &mut Group,
    said: Gathered,
    gone: &[bool; MEMBERS],
    entries: &[u8; SLOTS],
    tick: u32,
    batch: &[u8],
    scratch: &mut [u8; BATCH_LIMIT],
    list: &mut [u16; SLOTS],
) -> bool
    ensures { Attempts result group.old group.new tick batch.now said gone.now entries.now }
{
    let old = *group;
    retiming::retime(group, tick);
    let ran = choosing::run_candidate(group, said, gone, entries, tick, scratch, list);
    if is_batch(scratch, ran, batch) {
        return true;
    }
    *group = old;
    false
}

// Reads a batch at a tick: whether it is good; if so the group is the one after it. The scratch buffer and the list are the caller's, so that many batches are
// read with one of each; what they hold does not count.
pub fn read_batch_with(
    group: &mut Group,
    tick: u32,
    batch: &[u8],
    scratch: &mut [u8; BATCH_LIMIT],
    list: &mut [u16; SLOTS],
) -> bool
    ensures { Reads result group.old group.new tick batch.now }
{
    if batch.is_empty() {
        return false;
    }
    if BATCH_LIMIT < batch.len() {
        return false;
    }
    let mut gone = [false; MEMBERS];
    let mut entries = group.tables.target;
    let Some(said) = batches::gather(batch, &mut gone, &mut entries) else {
        return false;
    };
    attempt(group, said, &gone, &entries, tick, batch, scratch, list)
}

// The same, with a buffer and a list of its own.
pub fn read_batch(group: &mut Group, tick: u32, batch: &[u8]) -> bool
    ensures { Reads result group.old group.new tick batch.now }
{
    let mut scratch = [0u8; BATCH_LIMIT];
    let mut list = [0u16; SLOTS];
    read_batch_with(group, tick, batch, &mut scratch, &mut list)
}
