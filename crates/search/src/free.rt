// The lowest free place: a word is gathered with a one for each free place, and its trailing zeros are the lowest. A place is free where the four words of
// its ID are nobody's.
ghost use Rattle.std.specs.Prelude.{◌+◌, ◌≤◌};
ghost use Rattle.rules.specs.Constants.{max_members};
ghost use Rattle.search.specs.Places.{word_places, matches, FirstPlace, Marks};

use crate::{CELLS, Words, is_at};
use rules::MEMBERS;

// The places take so many words of 64 bits.
const PLACE_WORDS: usize = (MEMBERS + 63) / 64;

// How many places a word has.
const WORD_PLACES: usize = MEMBERS / PLACE_WORDS;

// The word of the places from `from` on: a one for each that is free, without a branch.
fn free_places(ids: &[u32; CELLS], from: usize) -> u64
    requires { from + word_places ≤ max_members }
    ensures { Marks (matches ids.now 0 0 0 0) from result }
{
    let mut word: u64 = 0;
    for i in 0..WORD_PLACES {
        word = slots::mark(word, i, is_at(ids, from + i, Words::NOBODY));
    }
    word
}

// The lowest free place.
pub fn find(ids: &[u32; CELLS]) -> Option<usize>
    ensures { FirstPlace (matches ids.now 0 0 0 0) result }
{
    for part in 0..PLACE_WORDS {
        let from = part * WORD_PLACES;
        let word = free_places(ids, from);
        if word != 0 {
            return Some(from + word.trailing_zeros() as usize);
        }
    }
    None
}
