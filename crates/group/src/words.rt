// An ID as four words, as the columns have it: the first is the sum of the four, so that IDs which share words seldom share it.
ghost use Rattle.std.specs.Prelude.{◌≡◌, ◌+◌, ◌<◌, ◌≤◌};
ghost use Rattle.rules.specs.Constants.{id_length};
ghost use Rattle.search.specs.Places.{id_of, first_word};
ghost use Rattle.group.specs.Words.{word_at, all_zero};

use rules::{ID_LENGTH, Id};
use search::Words;

// Four bytes as a word, the lowest first.
#[tactic(auto, unfolding(crate::specs::Words::word_at))]
fn word(id: Id, k: usize) -> u32
    requires { k + 4 ≤ id_length }
    ensures { result ≡ word_at k id }
{
    u32::from_le_bytes([id[k], id[k + 1], id[k + 2], id[k + 3]])
}

pub fn words_of(id: Id) -> Words
    ensures { id_of result.a result.b result.c result.d ≡ id }
{
    let w = word(id, 0);
    let b = word(id, 4);
    let c = word(id, 8);
    let d = word(id, 12);
    let two = w.wrapping_add(b);
    let three = two.wrapping_add(c);
    Words {
        a: three.wrapping_add(d),
        b: b,
        c: c,
        d: d,
    }
}

// Whether they are the words of no ID.
pub fn all_zero(w: Words) -> bool
    ensures { result ≡ all_zero w.a w.b w.c w.d }
{
    w == Words::NOBODY
}

// The first of the four words of an ID.
#[tactic(auto, using(crate::proofs::Spelling::first_is))]
fn first_word(w: Words) -> u32
    ensures { result ≡ first_word w.a w.b w.c w.d }
{
    let two = w.a.wrapping_sub(w.b);
    let three = two.wrapping_sub(w.c);
    three.wrapping_sub(w.d)
}

pub fn id_of(w: Words) -> Id
    ensures { result ≡ id_of w.a w.b w.c w.d }
{
    let mut id = [0; ID_LENGTH];
    id[..4].copy_from_slice(&first_word(w).to_le_bytes());
    id[4..8].copy_from_slice(&w.b.to_le_bytes());
    id[8..12].copy_from_slice(&w.c.to_le_bytes());
    id[12..].copy_from_slice(&w.d.to_le_bytes());
    id
}
