// Runs a table of events through the coordinator, row after row on one group, and writes a line for each row that has a name: the name, the answer, the slots
// told, the bytes stored, and G and T after it. The table, in the file `stdin`, has document 01's worked example, P1 to P12, its 'Run' cases and refusals that they
// do not reach; the lines expected, in the file `stdout`, are 01's.
//
// A row: EVENT|ID|EPOCH|TICK|TIMEOUT|N|ROOM|NAME. Of the event the first letter counts, and a number stands right before the next bar. The ID is sixteen times
// the byte. N is a topic's count, how many slots are listed (from 0 up), or the places for slots 0, 1 and 2 of an install, a digit each, 9 for nobody. ROOM is
// the length of the buffer lent, 64 at most. The topic is topic 0, and a joiner subscribes to it.
#![tactic(auto)]

use events::{Outcome, Request, Said};
use group::{Group, Head};
use rules::{Answer, NO_PLACE, NO_SLOT, SLOTS};
use std::io::{Read, Write};
use std::{fmt, io};

const COLUMNS: usize = 7;

// What a row asks for.
#[derive(Clone, Copy, PartialEq, Eq)]
enum Event {
    Fresh,
    Topic,
    Sweep,
    Install,
    Join,
    // a heartbeat with a list, and one without
    List,
    Beat,
}

impl Event {
    // The event that begins with a letter; any other letter is of a heartbeat with a list.
    fn of(letter: u8) -> Event {
        match letter {
            b'f' => Event::Fresh,
            b't' => Event::Topic,
            b's' => Event::Sweep,
            b'i' => Event::Install,
            b'j' => Event::Join,
            b'b' => Event::Beat,
            _ => Event::List,
        }
    }
}

// A column's number: its digits, of which a space is a 0.
fn number(column: &[u8]) -> u32 {
    let mut n: u32 = 0;
    for digit in column {
        n = n.wrapping_mul(10).wrapping_add((*digit % 16) as u32);
    }
    n
}

// A row's event, its columns as numbers, and its name, if it has one.
#[derive(Clone, Copy)]
struct Row<'a> {
    event: Event,
    numbers: [u32; COLUMNS],
    name: Option<&'a [u8]>,
}

impl<'a> Row<'a> {
    fn read(text: &'a [u8]) -> Row<'a> {
        let mut parts = text.splitn(COLUMNS + 1, |b| *b == b'|');
        let mut letter: Option<u8> = None;
        let mut numbers = [0; COLUMNS];
        for n in &mut numbers {
            let column = parts.next().unwrap_or(&[]);
            letter = letter.or(column.iter().find(|b| **b != 0).copied());
            *n = number(column);
        }
        Row {
            event: Event::of(letter.unwrap_or(0)),
            numbers,
            name: parts.next().filter(|name| !name.is_empty()),
        }
    }

    fn write_name<W: Write>(&self, out: &mut W) -> io::Result<()> {
        match self.name {
            Some(name) => out.write_all(name),
            None => Ok(()),
        }
    }
}

// As it is: tried as a plain cast in `fmt`, and the proof didn't close, since no range is known there of a number that an answer holds.
fn wide(n: u32) -> usize {
    n as usize
}

// What follows the name: the answer, the slots told, the bytes stored, and G and T.
#[derive(Drop)]
struct Shown<'a> {
    outcome: Outcome,
    list: &'a [u16],
    records: &'a [u8],
    head: Head,
}

impl<'a> fmt::Display for Shown<'a> {
    fn fmt<W: fmt::Write>(&self, f: &mut fmt::Formatter<W>) -> fmt::Result {
        match self.outcome.answer {
            Answer::Assigned(x) => {
                write!(f, "epoch {}, interval {}, slots", x.epoch, x.interval)?;
                for slot in self.list.iter().take(wide(x.count)) {
                    write!(f, " {slot}")?;
                }
            }
            Answer::Left => write!(f, "epoch -1")?,
            Answer::Swept(n) => write!(f, "removed {n}")?,
            Answer::Done => write!(f, "accepted")?,
            Answer::Refused(why) => {
                let said = Said::from(Answer::Refused(why));
                write!(f, "refused {}", said.number)?;
                if said.slot != NO_SLOT {
                    write!(f, " at slot {}", said.slot)?;
                }
            }
        }
        write!(f, "; bytes")?;
        for byte in self.records.iter().take(self.outcome.written) {
            write!(f, " {byte:02x}")?;
        }
        write!(f, "; G {}, T {}", self.head.epoch, self.head.target_epoch)
    }
}

fn id(n: u32) -> [u8; 16] {
    [(n % 256) as u8; 16]
}

fn signed(n: u32) -> i32 {
    (n % 2147483648) as i32
}

// A timeout that is not given is 0 in the table.
fn timeout(n: u32) -> i32 {
    match n {
        0 => -1,
        _ => signed(n),
    }
}

// The place that the last digit says.
fn place(n: u32) -> u8 {
    match n % 10 {
        9 => NO_PLACE,
        p => p as u8,
    }
}

// For slots 0, 1 and 2 the places that the three digits say.
fn entries(n: u32) -> [u8; SLOTS] {
    let mut entries = [NO_PLACE; SLOTS];
    entries[0] = place(n / 100);
    entries[1] = place(n / 10);
    entries[2] = place(n);
    entries
}

fn request(row: &Row<'_>) -> Request {
    let n = row.numbers;
    Request {
        id: id(n[1]),
        epoch: signed(n[2]),
        tick: n[3],
        timeout: timeout(n[4]),
        has_subscription: row.event == Event::Join,
        subscription: 1,
        has_list: row.event != Event::Beat,
    }
}

// Runs a row on the group; a heartbeat lists the first N of the slots 0, 1 and 2. A fresh group has no outcome, and an event that is lent more than there
// is isn't run.
fn serve(group: &mut Group, row: &Row<'_>, buffer: &mut [u8], list: &mut [u16]) -> Option<Outcome> {
    let n = row.numbers;
    let held = [0u16, 1, 2];
    let owned = &held[..n[5] as usize % 4];
    let records = buffer.get_mut(..n[6] as usize);
    match row.event {
        Event::Fresh => {
            *group = coordinator::fresh(n[3]);
            None
        }
        Event::Topic => Some(coordinator::topic(group, 0, id(n[1]), n[5], records?)),
        Event::Sweep => Some(coordinator::sweep(group, n[3], records?)),
        Event::Install => {
            let entries = entries(n[5]);
            Some(coordinator::install(group, signed(n[2]), &entries, records?))
        }
        Event::Join | Event::List | Event::Beat => {
            let request = request(row);
            Some(coordinator::heartbeat(group, request, owned, records?, list))
        }
    }
}

// Runs a row, and writes what follows its name.
fn run<W: Write>(out: &mut W, group: &mut Group, row: &Row<'_>) -> io::Result<()> {
    let mut records = [0u8; 64];
    let mut list = [0u16; 8];
    let Some(outcome) = serve(group, row, &mut records, &mut list) else {
        return Ok(());
    };
    if row.name.is_some() {
        let shown = Shown {
            outcome,
            list: &list,
            records: &records,
            head: group.head,
        };
        writeln!(out, ": {shown}")?;
    }
    Ok(())
}

// What follows the last row is no row, but its name is written.
fn run_table<W: Write>(out: &mut W, table: &[u8]) -> io::Result<()> {
    let mut group = coordinator::fresh(0);
    for line in table.split_inclusive(|b| *b == b'\n') {
        let whole = line.strip_suffix(b"\n");
        let row = Row::read(whole.unwrap_or(line));
        row.write_name(out)?;
        if whole.is_some() {
            run(out, &mut group, &row)?;
        }
    }
    Ok(())
}

// Reads until the table is full or the input ends.
fn fill<R: Read>(input: &mut R, table: &mut [u8]) -> io::Result<()> {
    let mut at: usize = 0;
    // As it is: a `for` is no plainer, since each turn goes as far as was read.
    while at < table.len() {
        let n = input.read(&mut table[at..])?;
        if n == 0 {
            break;
        }
        at += n;
    }
    Ok(())
}

fn main(rt: HostRuntime) -> io::Result<()> {
    let mut table = [0u8; 8192];
    fill(&mut rt.reader(), &mut table)?;
    run_table(&mut io::writer(&rt), &table)
}
