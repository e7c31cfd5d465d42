// Ticks are milliseconds in 32 bits that wrap, so two of them are compared only by the wrapped difference.
ghost use Rattle.std.specs.Prelude.{◌≡◌, nat_le};
ghost use Rattle.rules.specs.Constants.{clock_limit};
ghost use Rattle.rules.specs.Group.{elapsed};

use rules::CLOCK_LIMIT;

// The time from the tick `since` to `tick`.
#[tactic(auto, unfolding(rules::specs::Group::elapsed))]
pub fn elapsed(tick: u32, since: u32) -> u32
    ensures { result ≡ elapsed tick since }
{
    tick.wrapping_sub(since)
}

// Row 1001: whether `tick` lies before the last tick seen.
pub fn goes_back(last: u32, tick: u32) -> bool
    ensures { result ≡ nat_le clock_limit (elapsed tick last) }
{
    CLOCK_LIMIT <= elapsed(tick, last)
}
