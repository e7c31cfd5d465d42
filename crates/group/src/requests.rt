// The timeout and the list of a heartbeat, as rows 42 try them.
// As it is: the C interface has -1 for no timeout, and `timeout_or` of the rules takes it so.
ghost use Rattle.std.specs.Prelude.{◌≡◌};
ghost use Rattle.rules.specs.Refusals.{bad_timeout, no_timeout, timeout_or, bad_list};

use rules::MAX_TIMEOUT;
use search::rising;

// Whether a timeout is neither -1 nor 1 to 1,800,000.
#[tactic(auto, unfolding(rules::specs::Refusals::bad_timeout))]
pub fn is_bad_timeout(t: i32) -> bool
    ensures { result ≡ bad_timeout t }
{
    t != -1 && (t < 1 || MAX_TIMEOUT < t)
}

// Whether no timeout is given.
#[tactic(auto, unfolding(rules::specs::Refusals::no_timeout))]
pub fn has_no_timeout(t: i32) -> bool
    ensures { result ≡ no_timeout t }
{
    t < 0
}

// The timeout that is given, or else the one there was.
pub fn timeout_or(t: i32, had: u32) -> u32
    ensures { result ≡ timeout_or t had }
{
    if t < 0 { had } else { t as u32 }
}

// Whether a list of slots is not strictly rising or has a number above 1,023.
#[tactic(auto, unfolding(rules::specs::Refusals::bad_list))]
pub fn is_bad_list(list: &[u16]) -> bool
    ensures { result ≡ bad_list list.now }
{
    !rising::is_slot_set(list)
}
