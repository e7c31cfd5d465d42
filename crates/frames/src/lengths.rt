// The length of a batch: a number of at most two groups of seven bits, in the fewest, from 1 to 4,096.
ghost use Rattle.std.specs.Prelude.{◌≡◌, ◌<◌, drop};
ghost use Rattle.rules.specs.Journal.{read_length, second_group};
ghost use Rattle.frames.specs.Forms.{LengthAt};

use crate::NoBatch;
use rules::BATCH_LIMIT;

// The second group, after a first whose value is `low`.
fn second_group(s: &[u8], at: usize, low: usize) -> Result<(usize, usize), NoBatch>
    requires { low < 128 }
    ensures { LengthAt s.now at (second_group low (drop at s.now)) result }
{
    let Some(b) = s.get(at) else {
        return Err(NoBatch::Torn);
    };
    let n = *b as usize * 128 + low;
    if 128 <= *b || *b == 0 || BATCH_LIMIT < n {
        return Err(NoBatch::Bad);
    }
    Ok((n, at + 1))
}

// The length at the place `at`, and the place after it.
pub fn read_length(s: &[u8], at: usize) -> Result<(usize, usize), NoBatch>
    ensures { LengthAt s.now at (read_length (drop at s.now)) result }
{
    let Some(b) = s.get(at) else {
        return Err(NoBatch::End);
    };
    let first = *b as usize;
    if 128 <= first {
        return second_group(s, at + 1, first - 128);
    }
    if first == 0 {
        return Err(NoBatch::Bad);
    }
    Ok((first, at + 1))
}
