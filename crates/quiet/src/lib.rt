// Whether the list of a heartbeat is all that its place has and is to have, so that the heartbeat moves no slot: the test in front of the commonest one.
// No set is gathered.
#![tactic(auto)]

ghost use Rattle.std.specs.Prelude.{◌≡◌, true, ◌+◌, ◌<◌, ◌≤◌, length};
ghost use Rattle.rules.specs.Constants.{slot_count};
ghost use Rattle.rules.specs.Refusals.{is_slot_set};
ghost use Rattle.tables.specs.View.{slots_in, slot_at, Whole};
ghost use Rattle.quiet.specs.Settling.{part_length, near_count, settled, AllSettled, Quiet};

use rules::{Place, SLOTS};
use search::rising;
use tables::Tables;

// The slots that are counted by one byte.
const PART: usize = 128;

// How many slots are near p, which holds them or is to have them, of the part that begins at `from`. The sum is a byte, so that the loop goes by as many
// slots as a vector has bytes.
fn count_part(tables: &Tables, from: usize, p: Place) -> u8
    requires { from + part_length ≤ slot_count }
    ensures counts { near_count tables.now p.0 (from + part_length) ≡ near_count tables.now p.0 from + result }
    ensures few { result ≤ part_length }
    ensures whole { Whole tables.now }
{
    let mut n: u8 = 0;
    for i in 0..PART {
        n += u8::from(tables.is_near(p, from + i));
    }
    n
}

// How many slots are near p.
fn count(tables: &Tables, p: Place) -> usize
    ensures whole { Whole tables.now }
    ensures counts { result ≡ near_count tables.now p.0 slot_count }
{
    let mut n: usize = 0;
    for part in 0..SLOTS / PART {
        n += count_part(tables, part * PART, p) as usize;
    }
    n
}

// Whether p holds the slot, is to have it, and need not give it back.
#[tactic(auto, unfolding(crate::specs::Settling::settled))]
fn is_settled(tables: &Tables, p: Place, slot: usize) -> bool
    requires { slot < slot_count }
    ensures { result ≡ settled p.0 (slot_at tables.now slot) }
{
    (tables.holder[slot] == p.0) & (tables.target[slot] == p.0) & !tables.waiting[slot]
}

// Whether each slot of a list is held by p, is to be, and is not to be given back; `true` says so, `false` says nothing. No slot is branched on.
fn all_settled(tables: &Tables, p: Place, list: &[u16]) -> bool
    requires { is_slot_set list.now ≡ true }
    ensures { result ≡ true → AllSettled tables.now p.0 list.now }
{
    let mut all = true;
    for s in list {
        all &= is_settled(tables, p, *s as usize);
    }
    all
}

// Whether the list is A of the place p, and steps 2 and 3 change nothing for it; `true` says so, `false` says nothing.
pub fn is_quiet(tables: &Tables, p: Place, list: &[u16]) -> bool
    ensures quiet { result ≡ true → Quiet p.0 (slots_in tables.now) list.now }
    ensures whole { result ≡ true → length (slots_in tables.now) ≡ slot_count }
{
    if !rising::is_slot_set(list) {
        return false;
    }
    all_settled(tables, p, list) && count(tables, p) == list.len()
}
