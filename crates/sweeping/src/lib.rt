// Sweeps: the members that were not heard of in time, or did not give slots back in time, are removed as if they left, and G rises once for all of them.
// Who goes is decided on the group as it comes in. Refused are a tick that goes back and a buffer too small; a refusal changes nothing.
#![tactic(auto)]

ghost use Rattle.std.specs.Prelude.{◌≡◌, List, ℕ, length};
ghost use Rattle.rules.specs.Event as E;
ghost use Rattle.rules.specs.Effects.{sweep_of};
ghost use Rattle.rules.specs.Step.{step};
ghost use Rattle.events.specs.Outcomes.{Becomes, carried, outcome_of, topics_of};
ghost use Rattle.sweeping.specs.Marks.{marked};
ghost use Rattle.sweeping.specs.Leavers.{places_of, Removes};

mod overdue; // overdue.rt: which places a sweep removes
mod storing; // storing.rt: what is stored of the members that go

use events::Outcome;
use group::{Group, epochs, ticks};
use records::batches::GoneBatch;
use records::kinds::GroupEpoch;
use rules::{Answer, MEMBERS, Refusal};
use storing::SweepBatch;

// How many places are marked. The sum is a byte, so that the loop is vectorised by bytes.
// As it is: `filter` and `count` sum in 64 bits, by 39 instructions where this takes 9.
fn count_marks(gone: &[bool; MEMBERS]) -> u32
    ensures { result ≡ length (marked gone.now) }
{
    let mut n: u8 = 0;
    for goes in gone {
        if *goes {
            n += 1;
        }
    }
    u32::from(n)
}

// The members that go are removed, with all that their places hold and are to hold.
fn remove_all(group: &mut Group, going: &[Option<GoneBatch>; MEMBERS])
    ensures { Removes (places_of going.now) group.old group.new }
{
    for leaver in going {
        if let Some(gone) = leaver {
            group.members.vacate(gone.place);
            group.tables.vacate(gone.place);
        }
    }
}

// The members at the marked places go. Where there is none, only the tick changes.
fn sweep_marked(
    group: &mut Group,
    gone: &[bool; MEMBERS],
    tick: u32,
    records: &mut [u8],
) -> Result<Outcome, Refusal>
    ensures { (l : List ℕ) → Becomes topics_of (outcome_of result) group.old group.new records.new l (λ g. carried g (sweep_of g (marked gone.now) tick) records.old l) }
{
    let count = count_marks(gone);
    if count == 0 {
        group.head.tick = tick;
        return Ok(Outcome {
            answer: Answer::Swept(0),
            written: 0,
        });
    }
    let had = group.head.epoch;
    let epoch = epochs::raised_epoch(had);
    let raises = !epochs::at_end(had);
    let going = storing::gone_batches(&group.tables, gone);
    let batch = SweepBatch {
        going,
        epoch: raises.then_some(GroupEpoch(epoch)),
    };
    let written = records::store(records, batch)?;
    remove_all(group, &going);
    group.head.epoch = epoch;
    group.head.tick = tick;
    Ok(Outcome {
        answer: Answer::Swept(count),
        written,
    })
}

// A sweep at a tick. The records go to the start of the buffer.
pub fn sweep(group: &mut Group, tick: u32, records: &mut [u8]) -> Result<Outcome, Refusal>
    ensures { (l : List ℕ) → Becomes topics_of (outcome_of result) group.old group.new records.new l (λ g. step g (E.sweep tick) records.old l) }
{
    if ticks::goes_back(group.head.tick, tick) {
        return Err(Refusal::Clock);
    }
    let gone = overdue::overdue_places(&group.members, &group.tables, tick);
    sweep_marked(group, &gone, tick, records)
}
