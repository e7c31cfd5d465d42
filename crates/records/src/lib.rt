// The records to be stored, written into a buffer that the caller lends. Each writer leaves the rest of the buffer as it was.
#![tactic(auto)]

ghost use Rattle.std.specs.Prelude.{◌≡◌, [], ◌∷◌, ◌+◌, ◌≤◌, List, ℕ, length};
ghost use Rattle.rules.specs.Records.{number};
ghost use Rattle.numbers.specs.Buffer.{Wrote, WroteAt};
ghost use Rattle.records.specs.Storing.{optional_bytes, Stores};

use rules::{ID_LENGTH, Id, Refusal};

mod pairs; // one thing after another
pub mod sets; // a set of slots inside a record
pub mod kinds; // a record of each kind
pub mod batches; // what an event stores

// Something with bytes of its own.
// As it is: each record has a `put` and a `size` of one line. Tried: an `impl<T: Fields> Encode for T` says them once, and the prover takes no impl for a type
// that others of the trait might fit too. A second trait of which they are default methods is no plainer: it needs a wrapper to be an `Encode` and one for
// what may be missing, and each record would be told as `Of(record)` or `If(record)` wherever it is stored.
pub trait Encode: Copy {
    // Its bytes.
    ghost bytes: { Self → List ℕ };

    // They are never more.
    ghost most: { ℕ };

    // Writes them at the start of the buffer, and returns how many they are.
    fn put(self, buf: &mut [u8]) -> usize
        requires { length (bytes self) ≤ length buf.old }
        ensures { Wrote (bytes self) buf.old buf.new result };

    // How many they are.
    fn size(self) -> usize
        ensures { (result ≡ length (bytes self)) × (result ≤ most) };
}

// Writes the bytes at the place `at`, and returns the place after them.
pub fn put_at<T: Encode>(buf: &mut [u8], at: usize, x: T) -> usize
    requires { at + length (T.bytes x) ≤ length buf.old }
    ensures { WroteAt (T.bytes x) at buf.old buf.new result }
{
    at + x.put(&mut buf[at..])
}

// Row 1003: writes the bytes at the start of the buffer if there is room for them; otherwise nothing.
pub fn store<T: Encode>(buf: &mut [u8], x: T) -> Result<usize, Refusal>
    ensures { Stores (T.bytes x) buf.old buf.new result }
{
    if buf.len() < x.size() {
        return Err(Refusal::Room);
    }
    Ok(x.put(buf))
}

// A byte, as it is.
impl Encode for u8 {
    ghost bytes = { λ b. b ∷ [] };

    ghost most = { 1 };

    fn put(self, buf: &mut [u8]) -> usize {
        buf[0] = self;
        1
    }

    fn size(self) -> usize {
        1 // from 128 on too
    }
}

// A number, in groups of seven bits.
impl Encode for u32 {
    ghost bytes = { number };

    ghost most = { 5 };

    fn put(self, buf: &mut [u8]) -> usize {
        numbers::put_number(buf, self)
    }

    fn size(self) -> usize {
        numbers::number_len(self)
    }
}

// Nothing is stored of what is not there.
impl<T: Encode> Encode for Option<T> {
    ghost bytes = { optional_bytes T.bytes };

    ghost most = { T.most };

    fn put(self, buf: &mut [u8]) -> usize {
        match self {
            Some(x) => x.put(buf),
            None => 0,
        }
    }

    fn size(self) -> usize {
        self.map_or(0, |x| x.size())
    }
}

impl Encode for Id {
    ghost bytes = { λ id. id };

    ghost most = { 16 };

    fn put(self, buf: &mut [u8]) -> usize {
        numbers::put_id(buf, self)
    }

    fn size(self) -> usize {
        ID_LENGTH
    }
}
