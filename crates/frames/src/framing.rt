// What is stored: the heading, and of one event the length of its records, and the records.
ghost use Rattle.std.specs.Prelude.{◌≡◌, ◌≤◌, length};
ghost use Rattle.rules.specs.Constants.{batch_limit};
ghost use Rattle.rules.specs.Journal.{entry, heading};
ghost use Rattle.numbers.specs.Buffer.{Wrote};
ghost use Rattle.frames.specs.Forms.{framed, if_room};

use crate::headings::{HEADING, HEADING_LENGTH};
use numbers::{number_len, put_all, put_number};
use rules::BATCH_LIMIT;

// Writes the length of a batch and the batch.
fn put_entry(buf: &mut [u8], records: &[u8]) -> usize
    requires { (1 ≤ length records.now) × (length records.now ≤ batch_limit) × (length (entry records.now) ≤ length buf.old) }
    ensures { Wrote (entry records.now) buf.old buf.new result }
{
    let at = put_number(buf, records.len() as u32);
    at + put_all(&mut buf[at..], records)
}

// Writes what a journal stores of an event, the length of its records and the records, and returns how many bytes that is: 0, and nothing is written, if there are
// no records, or more than any event writes, or there is no room.
// As it is: `Wrote` promises the count of what was written, which is 0 where nothing is; hosts get that count by the C interface.
pub fn frame(records: &[u8], journal: &mut [u8]) -> usize
    ensures { Wrote (if_room (framed records.now) journal.old) journal.old journal.new result }
{
    let n = records.len();
    if BATCH_LIMIT < n {
        return 0;
    }
    if n == 0 {
        return 0;
    }
    let size = number_len(n as u32) + n;
    if journal.len() < size {
        return 0;
    }
    put_entry(journal, records)
}

// Writes the heading and returns how many bytes that is: 0, and nothing is written, if there is no room.
// As it is: as in `frame`.
pub fn put_heading(journal: &mut [u8]) -> usize
    ensures { Wrote (if_room heading journal.old) journal.old journal.new result }
{
    if journal.len() < HEADING_LENGTH {
        return 0;
    }
    put_all(journal, &HEADING)
}
