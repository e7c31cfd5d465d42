// The records of an install: 7 for each place whose set of target slots changes, then 6.
// One pass over both targets marks the places whose sets change; a second links the slots of the new one place by place, so that the record of a place is
// written from its own slots alone.
ghost use Rattle.std.specs.Prelude.{◌≡◌, false, ◌||◌, ℕ, ◌≤◌, ◌<◌, eqb, length, get_or};
ghost use Rattle.rules.specs.Constants.{max_members};
ghost use Rattle.rules.specs.Group.{set_m};
ghost use Rattle.rules.specs.Records.{bytes_of, all_bytes, differences};
ghost use Rattle.rules.specs.Effects.{retargeted, install_records};
ghost use Rattle.numbers.specs.Buffer.{Wrote};
ghost use Rattle.tables.specs.View.{slots_in};
ghost use Rattle.records.specs.Storing.{Stores};
ghost use Rattle.installing.specs.Targets.{unheld, target_of, marked_records, marked_install, install_most, Marked};
ghost use Rattle.installing.specs.Links.{Linked};

use records::kinds::TargetEpoch;
use rules::{MEMBERS, Place, Refusal, SLOT_END, SLOTS};
use tables::Tables;

// No install needs more bytes: record 6 takes 6 at most, and a record 7 takes 4 and for each of its slots 2.
const MOST: usize = 2 * SLOTS + 4 * MEMBERS + 6;

// The slots of a target, linked: the first slot of each place and how many it has; and for each slot of a place the next one of that place. 1024 where there is
// none.
#[derive(Clone, Copy)]
struct Links<'a> {
    target: &'a [u8; SLOTS],
    firsts: [u16; MEMBERS],
    counts: [u16; MEMBERS],
    nexts: &'a [u16; SLOTS],

    ghost linked: { Linked target.now firsts counts nexts.now },
}

// An install: the places whose sets of slots it changes are marked, and the slots of its target linked.
#[derive(Clone, Copy)]
struct Install<'a> {
    marks: [bool; MEMBERS],
    links: Links<'a>,
    epoch: u32,
}

// Marks the place of a target's entry; an entry that is no place marks nothing.
fn mark(marks: &mut [bool; MEMBERS], entry: u8)
    ensures { (p : ℕ) → p < max_members → get_or marks.new p false ≡ (get_or marks.old p false || eqb p entry) }
{
    let i = entry as usize;
    if i < MEMBERS {
        marks[i] = true;
    }
}

// The places whose sets of slots are not the same in both targets.
fn changed_places(before: &[u8; SLOTS], after: &[u8; SLOTS]) -> [bool; MEMBERS]
    ensures { Marked result before.now after.now }
{
    let mut marks = [false; MEMBERS];
    for s in 0..SLOTS {
        let old = before[s];
        let new = after[s];
        if old != new {
            mark(&mut marks, old);
            mark(&mut marks, new);
        }
    }
    marks
}

impl<'a> Links<'a> {
    // Links the slots of a target, in an array that the caller lends: it is too large to be handed on by value.
    fn of(target: &'a [u8; SLOTS], nexts: &'a mut [u16; SLOTS]) -> Links<'a>
        ensures { result.target.now ≡ target.now }
    {
        let mut firsts = [SLOT_END; MEMBERS];
        let mut counts = [0u16; MEMBERS];
        for s in (0..SLOTS).rev() {
            let p = target[s] as usize;
            if p < MEMBERS {
                nexts[s] = firsts[p];
                firsts[p] = s as u16;
                counts[p] += 1;
            }
        }
        Links {
            target,
            firsts,
            counts,
            nexts,
        }
    }

    // Writes the lowest slot of the place p and then each difference at the start of `buf`, and returns how many bytes that took.
    fn put_differences(&self, buf: &mut [u8], p: Place) -> usize
        requires { (p.0 < max_members) × (length (differences 0 (set_m p.0 (unheld self.now.target.now))) ≤ length buf.old) }
        ensures { Wrote (differences 0 (set_m p.0 (unheld self.now.target.now))) buf.old buf.new result }
    {
        let mut at = 0;
        let mut last: u16 = 0;
        let mut slot = self.firsts[p.0 as usize];
        // As it is: a `for` over an iterator is no plainer, since its `next` would be this walk along the links, and is made for this loop alone.
        while slot < SLOT_END {
            at = records::put_at(buf, at, (slot - last) as u32);
            last = slot;
            slot = self.nexts[slot as usize];
        }
        at
    }

    // Record 7 of the place p: its target.
    fn put_target(&self, buf: &mut [u8], p: Place) -> usize
        requires { (p.0 < max_members) × (length (bytes_of (target_of self.now.target.now p.0)) ≤ length buf.old) }
        ensures { Wrote (bytes_of (target_of self.now.target.now p.0)) buf.old buf.new result }
    {
        let count = self.counts[p.0 as usize];
        let at = records::kinds::put_target_front(buf, p, count as u32);
        at + self.put_differences(&mut buf[at..], p)
    }
}

impl<'a> Install<'a> {
    // Record 7 for each place that is marked, rising.
    fn put_targets(&self, buf: &mut [u8]) -> usize
        requires { length (all_bytes (marked_records self.now.marks self.now.links.target.now)) ≤ length buf.old }
        ensures { Wrote (all_bytes (marked_records self.now.marks self.now.links.target.now)) buf.old buf.new result }
    {
        let mut at = 0;
        for (i, mark) in self.marks.iter().enumerate() {
            if *mark {
                at += self.links.put_target(&mut buf[at..], Place(i as u8));
            }
        }
        at
    }

    // Writes the records to the start of the buffer, and leaves the rest of it alone. Returns how many bytes they take.
    fn put_install(&self, buf: &mut [u8]) -> usize
        requires { length (all_bytes (marked_install self.now.marks self.now.links.target.now self.now.epoch)) ≤ length buf.old }
        ensures { Wrote (all_bytes (marked_install self.now.marks self.now.links.target.now self.now.epoch)) buf.old buf.new result }
    {
        let at = self.put_targets(buf);
        records::put_at(buf, at, TargetEpoch(self.epoch))
    }

    // Stores the records in a buffer that may be too short: they are written elsewhere first.
    fn store_tight(&self, buf: &mut [u8]) -> Result<usize, Refusal>
        requires { length (all_bytes (marked_install self.now.marks self.now.links.target.now self.now.epoch)) ≤ install_most }
        ensures { Stores (all_bytes (marked_install self.now.marks self.now.links.target.now self.now.epoch)) buf.old buf.new result }
    {
        let mut elsewhere = [0u8; MOST];
        let size = self.put_install(&mut elsewhere);
        if buf.len() < size {
            return Err(Refusal::Room);
        }
        Ok(numbers::put_all(buf, &elsewhere[..size]))
    }
}

// Stores the records of an install of the target at the start of the buffer if it has room for them.
pub fn store_install(
    buf: &mut [u8],
    tables: &Tables,
    target: &[u8; SLOTS],
    epoch: u32,
) -> Result<usize, Refusal>
    ensures { Stores (all_bytes (install_records (slots_in tables.now) (retargeted (slots_in tables.now) target.now) epoch)) buf.old buf.new result }
{
    let marks = changed_places(&tables.target, target);
    let mut nexts = [SLOT_END; SLOTS];
    let links = Links::of(target, &mut nexts);
    let install = Install {
        marks,
        links,
        epoch,
    };
    if buf.len() < MOST {
        return install.store_tight(buf);
    }
    Ok(install.put_install(buf))
}
