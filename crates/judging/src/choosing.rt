// The event that a batch can only be of, by what its records say, in the order of the rules: an install, a sweep, a topic event or a heartbeat. The
// coordinator's own function runs it on the group in place; an install is run without the rule 'No slot left over'.
ghost use Rattle.judging.specs.Choices.{Runs};

use crate::asking::ask;
use crate::retiming::silence;
use batches::Gathered;
use events::Outcome;
use group::Group;
use rules::{BATCH_LIMIT, MEMBERS, NO_PLACE, SLOTS};

// Runs the first that the records can be of. Nothing is run if the records are of none, or if its numbers do not fit: such an event was never accepted.
// As it is: tried with `said`, `gone` and `entries` as one struct, and the proof didn't close: lent, it tells no length of the ID in a record 4, and by value
// its parts are of two moments.
pub fn run_candidate(
    group: &mut Group,
    said: Gathered,
    gone: &[bool; MEMBERS],
    entries: &[u8; SLOTS],
    tick: u32,
    scratch: &mut [u8; BATCH_LIMIT],
    list: &mut [u16; SLOTS],
) -> Option<Outcome>
    ensures { Runs result group.old group.new tick scratch.old scratch.new list.old said gone.now entries.now }
{
    // No code: the prover is told how long the tables are of which an entry is read.
    // As it is: tried without it, and the proof didn't close, since no length of the group's tables is known where no entry of them is read.
    prove!(group.tables.target[0] <= NO_PLACE);
    if let Some(n) = said.target_epoch {
        let epoch = i32::try_from(n).ok()?;
        return Some(installing::install(group, false, epoch, entries, scratch).into());
    }
    if said.any_gone {
        silence(&mut group.members, gone, tick);
        return Some(coordinator::sweep(group, tick, scratch));
    }
    if let Some(t) = said.topic {
        return Some(coordinator::topic(group, t.number, t.id, t.count, scratch));
    }
    let request = ask(&group.members, said, tick)?;
    Some(coordinator::heartbeat(group, request, &[], scratch, list))
}
