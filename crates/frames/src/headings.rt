// The fixed bytes that a journal of this edition begins with.
ghost use Rattle.std.specs.Prelude.{◌≡◌, List, ℕ};
ghost use Rattle.rules.specs.Journal.{Reading, heading, read_heading};
ghost use Rattle.frames.specs.Forms.{headed};

use crate::NoHeading;

// The heading, `GRJ1`.
pub const HEADING_LENGTH: usize = 4;

pub const HEADING: [u8; HEADING_LENGTH] = *b"GRJ1";

// Whether the bytes begin with the heading.
pub fn read_heading(s: &[u8]) -> Result<(), NoHeading>
    ensures { (t : ℕ) (more : List ℕ → Reading) → headed result s.now t more ≡ read_heading heading s.now t more }
{
    if s.starts_with(&HEADING) {
        return Ok(());
    }
    if HEADING.starts_with(s) {
        return Err(NoHeading::Cut);
    }
    Err(NoHeading::Wrong)
}
