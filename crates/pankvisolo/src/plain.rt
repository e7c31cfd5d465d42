// What the coordinator and the readers of a journal answer, as the plain numbers that a host gets.
ghost use Rattle.std.specs.Prelude.{◌≡◌};
ghost use Rattle.rules.specs.Answers.{said};
ghost use Rattle.journal.specs.Readings.{verdict_as};
ghost use Rattle.pankvisolo.specs.Replies.{said_by, Tells};
ghost use Rattle.pankvisolo.specs.Recovery.{good_end, numbers_of, verdict_number};

use crate::{BATCH, Extent, REFUSED, Reading, Reply, TORN, WHOLE};
use events::{Outcome, Said};
use frames::{Damage, NoBatch};

// The reply that an outcome comes to.
impl From<Outcome> for Reply {
    ghost from_gives = { Tells };

    fn from(o: Outcome) -> Reply {
        let said = Said::from(o.answer);
        Reply {
            number: said.number,
            interval: said.interval,
            epoch: said.epoch,
            count: said.count,
            slot: said.slot,
            written: o.written,
        }
    }
}

// What a host is told of a file of so many bytes: the number of its verdict, and where its good part ends.
pub fn reading(read: Result<(), Damage>, length: usize) -> Reading
    ensures { (result.verdict ≡ verdict_number (verdict_as read)) × (result.end ≡ good_end (verdict_as read) length) }
{
    let (verdict, end) = match read {
        Ok(()) => (WHOLE, length),
        Err(Damage::TornFrom(at)) => (TORN, at),
        Err(Damage::RefusedAt(at)) => (REFUSED, at),
    };
    Reading { verdict, end }
}

// The numbers of what stands at a place.
pub fn extent(found: Result<(usize, usize), NoBatch>, at: usize) -> Extent
    ensures { result ≡ numbers_of at found }
{
    let (verdict, start, end) = match found {
        Ok((start, end)) => (BATCH, start, end),
        Err(NoBatch::End) => (WHOLE, at, at),
        Err(NoBatch::Torn) => (TORN, at, at),
        Err(NoBatch::Bad) => (REFUSED, at, at),
    };
    Extent {
        verdict,
        start,
        end,
    }
}
