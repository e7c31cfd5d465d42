// Lists, numbers in groups of seven bits, and IDs, written into a buffer that the caller lends. Each writer leaves the rest of the buffer as it was.
// What a writer promises is in specs/Buffer.antt; the laws by which writers are put together are in proofs/Writing.antt.
#![tactic(auto)]

ghost use Rattle.std.specs.Prelude.{◌≡◌, ◌≤◌, length};
ghost use Rattle.rules.specs.Records.{number};
ghost use Rattle.numbers.specs.Buffer.{Wrote};

use rules::{ID_LENGTH, Id};

// Writes a list at the start of `buf` and returns how many elements it has.
// As it is: the form is a loop, since `copy_from_slice` needs `memmove` of a host, and the header says that `memcpy` and `memset` are enough.
pub fn put_all<T: Copy>(buf: &mut [T], all: &[T]) -> usize
    requires { length all.now ≤ length buf.old }
    ensures { Wrote all.now buf.old buf.new result }
{
    for i in 0..all.len() {
        buf[i] = all[i];
    }
    all.len()
}

// Writes `x` at the start of `buf` and returns how many bytes that took.
pub fn put_number(buf: &mut [u8], x: u32) -> usize
    requires { length (number x) ≤ length buf.old }
    ensures { Wrote (number x) buf.old buf.new result }
{
    let mut at: usize = 0;
    let mut rest = x;
    // As it is: no plainer as a `for`, which would need a bound on the number's groups, and a way out at the last
    while rest >= 128 {
        buf[at] = (rest % 128 + 128) as u8;
        at += 1;
        rest = rest / 128;
    }
    buf[at] = rest as u8;
    at + 1
}

// How many bytes `x` takes.
pub fn number_len(x: u32) -> usize
    ensures { (result ≡ length (number x)) × (result ≤ 5) }
{
    let mut n: usize = 1;
    let mut rest = x;
    // As it is: no plainer as a `for`, as in `put_number`
    while rest >= 128 {
        rest = rest / 128;
        n += 1;
    }
    n
}

// Writes the 16 bytes of an ID at the start of `buf` and returns 16.
pub fn put_id(buf: &mut [u8], id: Id) -> usize
    requires { length id ≤ length buf.old }
    ensures { Wrote id buf.old buf.new result }
{
    buf[..ID_LENGTH].copy_from_slice(&id);
    ID_LENGTH
}
