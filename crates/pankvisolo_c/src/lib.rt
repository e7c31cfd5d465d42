// The static library for hosts in Rust or C: each function of the crate pankvisolo that a host calls, exported under its own name and with the same clauses.
#![tactic(auto)]

ghost use Rattle.std.specs.Prelude.{◌≡◌, List, ℕ};
ghost use Rattle.rules.specs.Group.{fresh};
ghost use Rattle.rules.specs.Event as E;
ghost use Rattle.rules.specs.Journal.{heading};
ghost use Rattle.rules.specs.Brokers.{JournalTheorems};
ghost use Rattle.rules.specs.Assignor.{range_target};
ghost use Rattle.numbers.specs.Buffer.{Wrote};
ghost use Rattle.frames.specs.Forms.{framed, if_room};
ghost use Rattle.group.specs.View.{view};
ghost use Rattle.events.specs.Outcomes.{request_of};
ghost use Rattle.pankvisolo.specs.Replies.{Serves};
ghost use Rattle.judging.specs.Reads.{Reads};
ghost use Rattle.pankvisolo.specs.Decoding.{Decodes};
ghost use Rattle.pankvisolo.specs.Recovery.{Recovers, Stands};
ghost use Rattle.pankvisolo.specs.Runs.{LibrarySingleHolder, LibrarySettles};
ghost use Rattle.pankvisolo.specs.Lives.{LibraryContinues};

use events::Request;
use group::Group;
use pankvisolo::{Extent, Id, Reading, Reply};
use rules::SLOTS;

// A group with no topics and no members. A host reads every answer off its numbers, and demand 3 holds of every run of the library from this group: no slot is
// ever with two members, and three rounds of heartbeats settle every member on the target in force.
#[unsafe(no_mangle)]
pub extern "C" fn pankvisolo_fresh(tick: u32) -> Group
    ensures { (view result ≡ fresh tick) × Decodes × LibrarySingleHolder result × LibrarySettles result }
{
    pankvisolo::pankvisolo_fresh(tick)
}

// A heartbeat. `owned` is the list that came with it, if it has one; the records go to the front of `records`, and the slots that an answer carries to the front
// of `list`; what lies beyond them in either stays.
#[unsafe(no_mangle)]
pub extern "C" fn pankvisolo_heartbeat(
    group: &mut Group,
    request: &Request,
    owned: &[u16],
    records: &mut [u8],
    list: &mut [u16],
) -> Reply
    ensures { Serves (E.heartbeat (request_of request.now owned.now)) group.old group.new result records.old records.new list.old list.new }
{
    pankvisolo::pankvisolo_heartbeat(group, request, owned, records, list)
}

// Removes each member that has not been heard for the session timeout, or has slots to give back for longer than its rebalance timeout.
#[unsafe(no_mangle)]
pub extern "C" fn pankvisolo_sweep(group: &mut Group, tick: u32, records: &mut [u8]) -> Reply
    ensures { (l : List ℕ) → Serves (E.sweep tick) group.old group.new result records.old records.new l l }
{
    pankvisolo::pankvisolo_sweep(group, tick, records)
}

// Makes a topic, or raises its count.
#[unsafe(no_mangle)]
pub extern "C" fn pankvisolo_set_topic(
    group: &mut Group,
    number: u32,
    id: Id,
    count: u32,
    records: &mut [u8],
) -> Reply
    ensures { (l : List ℕ) → Serves (E.topic number id.bytes count) group.old group.new result records.old records.new l l }
{
    pankvisolo::pankvisolo_set_topic(group, number, id, count, records)
}

// Installs a target: for each slot a place, or 255 for none.
#[unsafe(no_mangle)]
pub extern "C" fn pankvisolo_install(
    group: &mut Group,
    epoch: i32,
    entries: &[u8],
    records: &mut [u8],
) -> Reply
    ensures { (l : List ℕ) → Serves (E.install E.with_rule epoch entries.now) group.old group.new result records.old records.new l l }
{
    pankvisolo::pankvisolo_install(group, epoch, entries, records)
}

// Writes the target of the range assignor for the group as it is: for each slot a place, or 255 for none. It changes nothing of the group.
#[unsafe(no_mangle)]
pub extern "C" fn pankvisolo_range_target(group: &Group, entries: &mut [u8; SLOTS])
    ensures { entries.new ≡ range_target (view group.now) }
{
    pankvisolo::pankvisolo_range_target(group, entries)
}

// Reads a journal at a tick into the group, whatever that held. What holds of every reading is `JournalTheorems`; and brokers that run on this library, one after
// another, have the group and the file that the rules say (`LibraryContinues`), so that demand 3 goes on over the reading.
#[unsafe(no_mangle)]
pub extern "C" fn pankvisolo_read_journal(group: &mut Group, tick: u32, bytes: &[u8]) -> Reading
    ensures { Recovers tick bytes.now group.new result × JournalTheorems × LibraryContinues }
{
    pankvisolo::pankvisolo_read_journal(group, tick, bytes)
}

// Reads one batch for the group so far. A batch that is refused leaves every byte of the group as it was.
#[unsafe(no_mangle)]
pub extern "C" fn pankvisolo_read_batch(group: &mut Group, tick: u32, batch: &[u8]) -> bool
    ensures { Reads result group.old group.new tick batch.now }
{
    pankvisolo::pankvisolo_read_batch(group, tick, batch)
}

// What stands at a place of a journal, where a length would.
#[unsafe(no_mangle)]
pub extern "C" fn pankvisolo_next_batch(bytes: &[u8], at: usize) -> Extent
    ensures { Stands bytes.now at result }
{
    pankvisolo::pankvisolo_next_batch(bytes, at)
}

// Writes what a journal stores of an event, the length of its records and the records, and returns how many bytes that is: 0, and nothing is written, if there are
// no records, or more than any event writes, or there is no room.
#[unsafe(no_mangle)]
pub extern "C" fn pankvisolo_frame(records: &[u8], journal: &mut [u8]) -> usize
    ensures { Wrote (if_room (framed records.now) journal.old) journal.old journal.new result }
{
    pankvisolo::pankvisolo_frame(records, journal)
}

// Writes the heading of a journal and returns how many bytes that is: 0, and nothing is written, if there is no room.
#[unsafe(no_mangle)]
pub extern "C" fn pankvisolo_put_heading(journal: &mut [u8]) -> usize
    ensures { Wrote (if_room heading journal.old) journal.old journal.new result }
{
    pankvisolo::pankvisolo_put_heading(journal)
}
