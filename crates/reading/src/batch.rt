// The records of a batch one after another, as far as they can be read.
use crate::{Record, read_record};

// The records that are still to come.
#[derive(Clone, Copy)]
pub struct Records<'a> {
    bytes: &'a [u8],
    at: usize,
}

impl<'a> Records<'a> {
    ghost use Rattle.std.specs.Prelude.{◌≡◌};
    ghost use Rattle.reading.specs.Walk.{rest};

    // The records of a batch, from the first on.
    pub fn new(batch: &'a [u8]) -> Records<'a>
        ensures { rest result ≡ batch.now }
    {
        Records {
            bytes: batch,
            at: 0,
        }
    }
}

// Bytes that are no record are the last item, `None`.
impl<'a> Iterator for Records<'a> {
    ghost use Rattle.std.specs.Prelude.{◌-◌, length};
    ghost use Rattle.std.specs.Iterator.{at_most};
    ghost use Rattle.reading.specs.Walk.{YieldsRecord};

    type Item = Option<Record>;

    ghost next_gives = { YieldsRecord };

    ghost remaining = { λ w. at_most (length w.bytes.now - w.at) };

    fn next(&mut self) -> Option<Option<Record>> {
        if self.bytes.len() <= self.at {
            return None;
        }
        let Some((record, next)) = read_record(self.bytes, self.at) else {
            self.at = self.bytes.len();
            return Some(None);
        };
        self.at = next;
        Some(Some(record))
    }
}
