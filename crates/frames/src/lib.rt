// The form of a journal file: its heading, and for each event that wrote records their length and the records. Written into a buffer that the caller lends, and
// read at a place of the caller's bytes. Any bytes get an answer.
#![tactic(auto)]

ghost use Rattle.std.specs.Prelude.{◌≡◌};
ghost use Rattle.frames.specs.Forms.{damage_of};

mod extents; // extents.rt: where a batch stands, and the torn tail
mod framing; // framing.rt: what is stored: the heading, and of each event its records
mod headings; // headings.rt: the heading, compared
mod lengths; // lengths.rt: the length of a batch

pub use extents::{read_extent, torn_tail};
pub use framing::{frame, put_heading};
pub use headings::{HEADING_LENGTH, read_heading};

// No heading: the file begins with something else, or it ends inside the heading.
#[derive(Clone, Copy, Debug, PartialEq, Eq)]
pub enum NoHeading {
    Wrong,
    Cut,
}

// No batch, or no length of one: the end of the file, its end inside the length or the batch, or something else than a length.
#[derive(Clone, Copy, Debug, PartialEq, Eq)]
pub enum NoBatch {
    End,
    Torn,
    Bad,
}

// What is wrong with a file: it is refused at an offset, or its torn tail starts there.
#[derive(Clone, Copy, Debug, PartialEq, Eq)]
pub enum Damage {
    RefusedAt(usize),
    TornFrom(usize),
}

// A file that begins with something else is refused, and one that ends inside the heading is torn, each from its first byte on.
impl From<NoHeading> for Damage {
    ghost from_gives = { λ why damage. damage ≡ damage_of why };

    fn from(why: NoHeading) -> Damage {
        match why {
            NoHeading::Wrong => Damage::RefusedAt(0),
            NoHeading::Cut => Damage::TornFrom(0),
        }
    }
}
