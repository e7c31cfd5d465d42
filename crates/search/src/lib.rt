// The place of an ID, from the members' columns: 16 places at a time without a branch, by the first of its four words; then place by place.
#![tactic(auto)]

ghost use Rattle.std.specs.Prelude.{◌≡◌, ◌+◌, ◌≤◌, ◌<◌, eqb, count_by, slice_range};
ghost use Rattle.rules.specs.Constants.{max_members};
ghost use Rattle.search.specs.Places.{cell_count, step, matches, FirstIn, FirstPlace};

use rules::MEMBERS;

pub mod free; // free.rt: the lowest free place
pub mod rising; // rising.rt: whether a list is a set of slots

// The columns of the members, each with an entry for each place: the four words of the ID come first. Column c of place k is entry k + c * MEMBERS.
pub const COLUMNS: usize = 9;

pub const CELLS: usize = COLUMNS * MEMBERS;

// Where the columns of the ID's words after the first begin.
pub const SECOND: usize = MEMBERS;

pub const THIRD: usize = 2 * MEMBERS;

pub const FOURTH: usize = 3 * MEMBERS;

// How many places are tried at a time, and how many times that takes.
const STEP: usize = 16;

const PARTS: usize = MEMBERS / STEP;

// The four words that an ID lies in.
#[derive(Clone, Copy, Debug, PartialEq, Eq)]
pub struct Words {
    pub a: u32,
    pub b: u32,
    pub c: u32,
    pub d: u32,
}

impl Words {
    // The words of nobody's ID: where they stand, the place is free.
    pub const NOBODY: Words = Words {
        a: 0,
        b: 0,
        c: 0,
        d: 0,
    };
}

// How often a word stands among a step's entries.
// As it is: `filter` and `count` sum in 64 bits, by 32 instructions where this takes 16.
fn count_words(ids: &[u32; CELLS], from: usize, a: u32) -> u32
    requires { from + step ≤ cell_count }
    ensures { result ≡ count_by (λ x. eqb x a) (slice_range ids.now from (from + step)) }
{
    let mut n: u32 = 0;
    for id in &ids[from..from + STEP] {
        if *id == a {
            n += 1;
        }
    }
    n
}

// Whether the four words of the place are these; no word is branched on.
fn is_at(ids: &[u32; CELLS], k: usize, w: Words) -> bool
    requires { k < max_members }
    ensures { result ≡ matches ids.now w.a w.b w.c w.d k }
{
    (ids[k] == w.a)
        & ((ids[k + SECOND] == w.b) & ((ids[k + THIRD] == w.c) & (ids[k + FOURTH] == w.d)))
}

// The first place with these words, of a step that begins at `from`.
fn find_in(ids: &[u32; CELLS], from: usize, w: Words) -> Option<usize>
    requires { from + step ≤ max_members }
    ensures { FirstIn (matches ids.now w.a w.b w.c w.d) from result }
{
    for k in from..from + STEP {
        if is_at(ids, k, w) {
            return Some(k);
        }
    }
    None
}

// The first place with these words.
pub fn find(ids: &[u32; CELLS], w: Words) -> Option<usize>
    ensures { FirstPlace (matches ids.now w.a w.b w.c w.d) result }
{
    for part in 0..PARTS {
        let from = part * STEP;
        let n = count_words(ids, from, w.a);
        if n != 0 {
            if let Some(k) = find_in(ids, from, w) {
                return Some(k);
            }
        }
    }
    None
}
