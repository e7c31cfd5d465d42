// Topic events: a topic is made, or its count raised. Refused are row 1007, an epoch that cannot rise, and a buffer too small.
#![tactic(auto)]

ghost use Rattle.std.specs.Prelude.{List, ℕ};
ghost use Rattle.rules.specs.Event as E;
ghost use Rattle.rules.specs.Step.{step};
ghost use Rattle.events.specs.Outcomes.{Becomes, outcome_of, members_and_tables};

use events::Outcome;
use group::{Group, epochs};
use records::batches::TopicBatch;
use records::kinds::{GroupEpoch, TopicMetadata};
use rules::{Answer, Id, Refusal};

// The topic of a number, with its ID and its count. The records go to the start of the buffer.
pub fn topic(
    group: &mut Group,
    number: u32,
    id: Id,
    count: u32,
    records: &mut [u8],
) -> Result<Outcome, Refusal>
    ensures { (l : List ℕ) → Becomes members_and_tables (outcome_of result) group.old group.new records.new l (λ g. step g (E.topic number id count) records.old l) }
{
    if group.is_bad_topic(number, id, count) {
        return Err(Refusal::BadTopic);
    }
    let had = group.head.epoch;
    let raises = group.topic_raises(number, count);
    if epochs::past_end(raises, had) {
        return Err(Refusal::EpochEnd);
    }
    let changes = group.topic_changes(number, count);
    let epoch = epochs::epoch_after(had, raises);
    let batch = TopicBatch {
        topic: changes.then_some(TopicMetadata { number, id, count }),
        epoch: raises.then_some(GroupEpoch(epoch)),
    };
    let written = records::store(records, batch)?;
    group.topics.put(number, id, count as u8);
    group.head.epoch = epoch;
    Ok(Outcome {
        answer: Answer::Done,
        written,
    })
}
