// What an event wrote, compared with the batch.
ghost use Rattle.std.specs.Prelude.{◌≡◌};
ghost use Rattle.judging.specs.Reads.{wrote};

use events::Outcome;

// Whether an event was run, and the bytes that it says it wrote are there, at the front of the buffer, and are the batch.
pub fn is_batch(buffer: &[u8], ran: Option<Outcome>, batch: &[u8]) -> bool
    ensures { result ≡ wrote buffer.now ran batch.now }
{
    let Some(outcome) = ran else {
        return false;
    };
    let n = outcome.written;
    if buffer.len() < n {
        return false;
    }
    &buffer[..n] == batch
}
