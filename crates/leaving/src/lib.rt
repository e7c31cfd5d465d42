// A heartbeat that leaves: the member goes, and with it all that its place holds and is to hold.
#![tactic(auto)]

ghost use Rattle.std.specs.Prelude.{List, ℕ};
ghost use Rattle.rules.specs.Refusals.{leaves};
ghost use Rattle.rules.specs.Effects.{leave_at};
ghost use Rattle.events.specs.Outcomes.{Becomes, carried, outcome_of, topics_of, request_of, step_as};

use events::{Outcome, Request};
use group::{Group, epochs, ids, ticks};
use records::batches::{GoneBatch, LeaveBatch};
use records::kinds::GroupEpoch;
use rules::{Answer, Place, Refusal};

// The member at a place leaves.
fn leave_at(group: &mut Group, p: Place, tick: u32, records: &mut [u8]) -> Result<Outcome, Refusal>
    ensures { (l : List ℕ) → Becomes topics_of (outcome_of result) group.old group.new records.new l (λ g. carried g (leave_at g p.0 tick) records.old l) }
{
    let had = group.head.epoch;
    let epoch = epochs::raised_epoch(had);
    let raises = !epochs::at_end(had);
    let batch = LeaveBatch {
        gone: GoneBatch {
            place: p,
            retargets: group.tables.has_target(p),
        },
        epoch: raises.then_some(GroupEpoch(epoch)),
    };
    let written = records::store(records, batch)?;
    group.members.vacate(p);
    group.tables.vacate(p);
    group.head.epoch = epoch;
    group.head.tick = tick;
    Ok(Outcome {
        answer: Answer::Left,
        written,
    })
}

// The member with the request's ID leaves; of the request only its ID and its tick are looked at.
pub fn leave(group: &mut Group, b: Request, records: &mut [u8]) -> Result<Outcome, Refusal>
    ensures { (owned l : List ℕ) → Becomes topics_of (outcome_of result) group.old group.new records.new l (λ g. step_as leaves g (request_of b owned) records.old l) }
{
    if ticks::goes_back(group.head.tick, b.tick) {
        return Err(Refusal::Clock);
    }
    if ids::is_zero(b.id) {
        return Err(Refusal::InvalidRequest);
    }
    let p = group.members.find(b.id).ok_or(Refusal::UnknownMemberId)?;
    leave_at(group, p, b.tick, records)
}
