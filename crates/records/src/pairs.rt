// One thing after another: a record is its fields, from the first on.
ghost use Rattle.std.specs.Prelude.{◌≡◌, ◌+◌, ◌++◌, ◌≤◌};

use crate::Encode;
use std::alloc::AllocError;

pub(crate) struct Pair<A: Encode, B: Encode> {
    first: A,
    rest: B,
    // so that their sizes can be added
    ghost small: { A.most + B.most ≤ 65536 },
}

// As it is: tried, and beside a ghost field `Clone` cannot be derived for a struct that has type parameters.
impl<A: Encode, B: Encode> Clone for Pair<A, B> {
    fn clone(&self) -> Result<Pair<A, B>, AllocError> {
        Ok(*self)
    }
}

impl<A: Encode, B: Encode> Copy for Pair<A, B> {}

// The first and then the rest.
pub(crate) fn then<A: Encode, B: Encode>(first: A, rest: B) -> Pair<A, B>
    requires { A.most + B.most ≤ 65536 }
    ensures { (result.first ≡ first) × (result.rest ≡ rest) }
{
    Pair {
        first: first,
        rest: rest,
    }
}

impl<A: Encode, B: Encode> Encode for Pair<A, B> {
    ghost bytes = { λ p. A.bytes p.first ++ B.bytes p.rest };

    ghost most = { A.most + B.most };

    fn put(self, buf: &mut [u8]) -> usize {
        let at = self.first.put(buf);
        at + self.rest.put(&mut buf[at..])
    }

    fn size(self) -> usize {
        self.first.size() + self.rest.size()
    }
}
