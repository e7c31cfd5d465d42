// A heartbeat is what its epoch says: a join, a leave or an ordinary heartbeat. No other epoch is taken.
ghost use Rattle.std.specs.Prelude.{◌≡◌, List, ℕ, Err};
ghost use Rattle.rules.specs.Event.{heartbeat};
ghost use Rattle.rules.specs.Refusals.{invalid};
ghost use Rattle.rules.specs.Step.{step};
ghost use Rattle.group.specs.View.{view};
ghost use Rattle.events.specs.Outcomes.{Becomes, outcome_of, request_of, step_as, took, topics_of};

use events::{Outcome, Request};
use group::{Group, Kind, ticks};
use rules::Refusal;

// A heartbeat with an epoch below -1 is refused: the row.
fn refusal(group: &Group, b: Request) -> Refusal
    ensures { (owned buffer l : List ℕ) → took (outcome_of (Err result)) (view group.now) buffer l ≡ step_as invalid (view group.now) (request_of b owned) buffer l }
{
    if ticks::goes_back(group.head.tick, b.tick) {
        return Refusal::Clock;
    }
    Refusal::InvalidRequest
}

// A heartbeat. `owned` is the list that came with it, if it has one; the records go to the front of `records`, and the slots that an answer carries to
// the front of `list`; what lies beyond them in either stays, and a refusal leaves both alone.
pub fn heartbeat(
    group: &mut Group,
    b: Request,
    owned: &[u16],
    records: &mut [u8],
    list: &mut [u16],
) -> Outcome
    ensures { Becomes topics_of result group.old group.new records.new list.new (λ g. step g (heartbeat (request_of b owned.now)) records.old list.old) }
{
    match Kind::from(b.epoch) {
        Kind::Joins => joining::join(group, b, owned, records).into(),
        Kind::Leaves => leaving::leave(group, b, records).into(),
        Kind::Invalid => Err(refusal(group, b)).into(),
        Kind::Ordinary(e) => ordinary::ordinary(group, b, e, owned, records, list).into(),
    }
}
