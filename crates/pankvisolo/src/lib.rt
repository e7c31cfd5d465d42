// The functions that hosts call. A group is the host's, and an event changes it where it lies; buffers and lists are lent too; an answer comes as plain numbers.
// No function asks anything of its caller: the contracts settle every value of every parameter. With a number that is not 0 every byte of the group is as it was.
// The static library pankvisolo_c exports each function under its name.
#![tactic(auto)]

ghost use Rattle.std.specs.Prelude.{◌≡◌, List, ℕ};
ghost use Rattle.rules.specs.Group.{fresh};
ghost use Rattle.rules.specs.Event as E;
ghost use Rattle.rules.specs.Journal.{heading};
ghost use Rattle.rules.specs.Brokers.{JournalTheorems};
ghost use Rattle.rules.specs.Assignor.{range_target};
ghost use Rattle.numbers.specs.Buffer.{Wrote};
ghost use Rattle.frames.specs.Forms.{framed, if_room};
ghost use Rattle.group.specs.View.{view};
ghost use Rattle.events.specs.Outcomes.{request_of};
ghost use Rattle.pankvisolo.specs.Replies.{Serves};
ghost use Rattle.judging.specs.Reads.{Reads};
ghost use Rattle.pankvisolo.specs.Decoding.{Decodes};
ghost use Rattle.pankvisolo.specs.Recovery.{Recovers, Stands};
ghost use Rattle.pankvisolo.specs.Runs.{LibrarySingleHolder, LibrarySettles};
ghost use Rattle.pankvisolo.specs.Lives.{LibraryContinues};

mod plain; // plain.rt: answers, verdicts and extents as plain numbers

use events::Request;
use group::Group;
use rules::{ID_LENGTH, SLOTS};

// The 16 bytes of a topic's ID.
// As it is: the C interface has no array by value, and `rules::Id` is one.
#[repr(C)]
#[derive(Clone, Copy)]
pub struct Id {
    pub bytes: [u8; ID_LENGTH],
}

// An answer: 01's number (0: accepted); the heartbeat interval; the epoch, -1 for a leave; how many slots the answer carries or members a sweep removed;
// the slot that is reported, or 65,535; how many bytes of records were written.
// As it is: the C interface; `Decodes` is about these numbers.
#[repr(C)]
#[derive(Clone, Copy)]
pub struct Reply {
    pub number: u32,
    pub interval: u32,
    pub epoch: i64,
    pub count: u32,
    pub slot: u16,
    pub written: usize,
}

// What a reading says of a journal: WHOLE, TORN or REFUSED; and where its good part ends, and the next batch is to stand: where a torn tail begins, or the offset of
// the refusal.
// As it is: the C interface has a number for a verdict, and a field for the end.
#[repr(C)]
#[derive(Clone, Copy)]
pub struct Reading {
    pub verdict: u32,
    pub end: usize,
}

pub const WHOLE: u32 = 0;

pub const TORN: u32 = 1;

pub const REFUSED: u32 = 2;

// What stands at a place of a journal, where a length would: BATCH, and the batch from `start` to `end`; or WHOLE, if the bytes end there, TORN, if they end inside a
// length or a batch, REFUSED, if that is no length. Then `start` and `end` are the place.
// As it is: the C interface, as in `Reading`.
#[repr(C)]
#[derive(Clone, Copy)]
pub struct Extent {
    pub verdict: u32,
    pub start: usize,
    pub end: usize,
}

pub const BATCH: u32 = 3;

// A group with no topics and no members. A host reads every answer off its numbers, and demand 3 holds of every run of the library from this group: no slot is
// ever with two members, and three rounds of heartbeats settle every member on the target in force.
pub fn pankvisolo_fresh(tick: u32) -> Group
    ensures { (view result ≡ fresh tick) × Decodes × LibrarySingleHolder result × LibrarySettles result }
{
    coordinator::fresh(tick)
}

// A heartbeat. `owned` is the list that came with it, if it has one; the records go to the front of `records`, and the slots that an answer carries to the front
// of `list`; what lies beyond them in either stays.
pub fn pankvisolo_heartbeat(
    group: &mut Group,
    request: &Request,
    owned: &[u16],
    records: &mut [u8],
    list: &mut [u16],
) -> Reply
    ensures { Serves (E.heartbeat (request_of request.now owned.now)) group.old group.new result records.old records.new list.old list.new }
{
    coordinator::heartbeat(group, *request, owned, records, list).into()
}

// Removes each member that has not been heard for the session timeout, or has slots to give back for longer than its rebalance timeout.
pub fn pankvisolo_sweep(group: &mut Group, tick: u32, records: &mut [u8]) -> Reply
    ensures { (l : List ℕ) → Serves (E.sweep tick) group.old group.new result records.old records.new l l }
{
    coordinator::sweep(group, tick, records).into()
}

// Makes a topic, or raises its count.
pub fn pankvisolo_set_topic(
    group: &mut Group,
    number: u32,
    id: Id,
    count: u32,
    records: &mut [u8],
) -> Reply
    ensures { (l : List ℕ) → Serves (E.topic number id.bytes count) group.old group.new result records.old records.new l l }
{
    coordinator::topic(group, number, id.bytes, count, records).into()
}

// Installs a target: for each slot a place, or 255 for none.
pub fn pankvisolo_install(
    group: &mut Group,
    epoch: i32,
    entries: &[u8],
    records: &mut [u8],
) -> Reply
    ensures { (l : List ℕ) → Serves (E.install E.with_rule epoch entries.now) group.old group.new result records.old records.new l l }
{
    coordinator::install(group, epoch, entries, records).into()
}

// Writes the target of the range assignor for the group as it is: for each slot a place, or 255 for none. It changes nothing of the group.
pub fn pankvisolo_range_target(group: &Group, entries: &mut [u8; SLOTS])
    ensures { entries.new ≡ range_target (view group.now) }
{
    assignor::range_target(&group.members, &group.topics, entries)
}

// Reads a journal at a tick into the group, whatever that held. What holds of every reading is `JournalTheorems`; and brokers that run on this library, one after
// another, have the group and the file that the rules say (`LibraryContinues`), so that demand 3 goes on over the reading.
pub fn pankvisolo_read_journal(group: &mut Group, tick: u32, bytes: &[u8]) -> Reading
    ensures { Recovers tick bytes.now group.new result × JournalTheorems × LibraryContinues }
{
    plain::reading(journal::read(group, tick, bytes), bytes.len())
}

// Reads one batch for the group so far. A batch that is refused leaves every byte of the group as it was.
pub fn pankvisolo_read_batch(group: &mut Group, tick: u32, batch: &[u8]) -> bool
    ensures { Reads result group.old group.new tick batch.now }
{
    judging::read_batch(group, tick, batch)
}

// What stands at a place of a journal, where a length would.
pub fn pankvisolo_next_batch(bytes: &[u8], at: usize) -> Extent
    ensures { Stands bytes.now at result }
{
    plain::extent(frames::read_extent(bytes, at), at)
}

// Writes what a journal stores of an event, the length of its records and the records, and returns how many bytes that is: 0, and nothing is written, if there are
// no records, or more than any event writes, or there is no room.
pub fn pankvisolo_frame(records: &[u8], journal: &mut [u8]) -> usize
    ensures { Wrote (if_room (framed records.now) journal.old) journal.old journal.new result }
{
    frames::frame(records, journal)
}

// Writes the heading of a journal and returns how many bytes that is: 0, and nothing is written, if there is no room.
pub fn pankvisolo_put_heading(journal: &mut [u8]) -> usize
    ensures { Wrote (if_room heading journal.old) journal.old journal.new result }
{
    frames::put_heading(journal)
}
