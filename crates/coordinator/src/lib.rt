// The coordinator of one consumer group: a fresh group, heartbeats, sweeps, topics and installs. An event is lent the group, and its
// contract says what of it stays.
// The answer, the group after it, and what the buffer and the list then hold, are `step` of the rules, on all inputs: the answer or the refusal, the whole group,
// every byte. A refusal changes nothing anywhere: what was lent is the very value that it was.
// With 4,096 bytes and 1,024 entries lent, 1003 is never given (`NeverRoom` of the rules).
#![tactic(auto)]

ghost use Rattle.std.specs.Prelude.{◌≡◌, List, ℕ};
ghost use Rattle.rules.specs.Group.{fresh};
ghost use Rattle.rules.specs.Event as E;
ghost use Rattle.rules.specs.Step.{step};
ghost use Rattle.rules.specs.Course.{SingleHolder};
ghost use Rattle.rules.specs.Rounds.{ThreeRounds};
ghost use Rattle.rules.specs.Theorems.{Theorems};
ghost use Rattle.group.specs.View.{view};
ghost use Rattle.events.specs.Outcomes.{Becomes, topics_of, members_and_tables, all_but_target};
ghost use Rattle.coordinator.specs.Runs.{RunsSingleHolder, RunsSettle};

mod heartbeats; // heartbeats.rt: a heartbeat taken as what its epoch says

use events::Outcome;
use group::Group;
pub use heartbeats::heartbeat;
use rules::Id;

// A group with no topics and no members, made at a tick. Demand 3 holds of every run from it: no slot is ever with two members, and three rounds of
// heartbeats settle every member on the target in force.
pub fn fresh(tick: u32) -> Group
    ensures { (view result ≡ fresh tick) × SingleHolder (view result) × ThreeRounds (view result) × RunsSingleHolder result × RunsSettle result × Theorems }
{
    group::fresh(tick)
}

// Removes each member that has not been heard for the session timeout, or has slots to give back for longer than its rebalance timeout.
pub fn sweep(group: &mut Group, tick: u32, records: &mut [u8]) -> Outcome
    ensures { (l : List ℕ) → Becomes topics_of result group.old group.new records.new l (λ g. step g (E.sweep tick) records.old l) }
{
    sweeping::sweep(group, tick, records).into()
}

// Makes a topic, or raises its count.
pub fn topic(group: &mut Group, number: u32, id: Id, count: u32, records: &mut [u8]) -> Outcome
    ensures { (l : List ℕ) → Becomes members_and_tables result group.old group.new records.new l (λ g. step g (E.topic number id count) records.old l) }
{
    topics::topic(group, number, id, count, records).into()
}

// Installs a target: for each slot a place, or 255 for none, which is refused at an existing slot whose topic some member subscribes to.
pub fn install(group: &mut Group, epoch: i32, entries: &[u8], records: &mut [u8]) -> Outcome
    ensures { (l : List ℕ) → Becomes all_but_target result group.old group.new records.new l (λ g. step g (E.install E.with_rule epoch entries.now) records.old l) }
{
    installing::install(group, true, epoch, entries, records).into()
}
