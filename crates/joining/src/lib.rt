// A join: a heartbeat with epoch 0. A known member keeps its place, another takes the lowest free one; either starts there with no slots and no target,
// at the group epoch that its join raises.
#![tactic(auto)]

ghost use Rattle.std.specs.Prelude.{◌≡◌, ◌||◌, List, map, ℕ, is_some};
ghost use Rattle.rules.specs.Basics.{any};
ghost use Rattle.rules.specs.Group.{targeted};
ghost use Rattle.group.specs.Columns.{view_members, seat_at};
ghost use Rattle.group.specs.Searches.{Finds};
ghost use Rattle.rules.specs.Refusals.{joins, malformed, lacking};
ghost use Rattle.rules.specs.Effects.{join_at, vacated};
ghost use Rattle.tables.specs.View.{slots_in};
ghost use Rattle.group.specs.Members.{joined_as};
ghost use Rattle.events.specs.Outcomes.{Becomes, outcome_of, topics_of, request_of, carried, step_as};
ghost use Rattle.joining.specs.Joining.{has_place, place_for, IsOf, Ready, metadata_in};

use events::{Outcome, Request};
use group::member::Member;
use group::members::Members;
use group::{Group, Seat, epochs, requests, ticks};
use records::batches::JoinBatch;
use records::kinds::MemberMetadata;
use rules::{Answer, Assignment, HEARTBEAT_INTERVAL, Id, Place, Refusal};
use slots::SlotSet;
use tables::Tables;

// The second part of row 42: whether a join lacks a subscription, a timeout or an empty list.
fn is_lacking(b: Request, owned: &[u16]) -> bool
    ensures { result ≡ lacking (request_of b owned.now) }
{
    !b.has_subscription | requests::has_no_timeout(b.timeout) | !b.has_list | !owned.is_empty()
}

// Row 42 of a join.
fn is_bad_join(b: Request, owned: &[u16]) -> bool
    ensures { result ≡ (malformed (request_of b owned.now) || lacking (request_of b owned.now)) }
{
    b.is_malformed(owned) || is_lacking(b, owned)
}

// The place at which a member with an ID joins: its own, or else the lowest free one.
fn choose_place(members: &Members, id: Id) -> Option<Place>
    ensures { Finds (has_place (view_members members.now.cells) id) (place_for (view_members members.now.cells) id) result }
{
    members.find(id).or_else(|| members.find_vacant())
}

// Record 5 of a member that joins at a place.
fn metadata_of(b: Request, p: Place) -> MemberMetadata
    ensures { result ≡ metadata_in b p }
{
    let id = b.id;
    MemberMetadata {
        place: p,
        id,
        timeout: requests::timeout_or(b.timeout, 0),
        subscription: b.subscription_or(0),
    }
}

// The seat of a member that joins at a tick, where it may have had one: a known member joins again, another is new. Which slots a known one has is not
// gathered, since it keeps none.
fn seat_of(had: Option<Seat>, m: MemberMetadata, epoch: u32, tick: u32) -> Seat
    ensures { IsOf m.id had → result ≡ joined_as m.id epoch m.subscription m.timeout tick }
{
    match had {
        Some(seat) => {
            let none = SlotSet::empty();
            Member::gathered(seat, none, none)
                .rejoin(epoch, m.subscription, m.timeout, tick)
                .seat()
        }
        None => Seat::joined(m.id, epoch, m.subscription, m.timeout, tick),
    }
}

// The place is vacated in the tables; `aimed`: it is the target of some slot. Most joiners hold nothing and have no target, and a test of each table tells it.
fn vacate(tables: &mut Tables, p: Place, aimed: bool)
    ensures { aimed ≡ any (targeted p.0) (slots_in tables.old) → slots_in tables.new ≡ map (vacated p.0) (slots_in tables.old) }
{
    if aimed | tables.is_holder(p) {
        tables.vacate(p);
    }
}

// The join at a place: only the last row, 1003, is left to try. If the records do not fit the buffer, nothing changes.
fn join_at(group: &mut Group, p: Place, b: Request, records: &mut [u8]) -> Result<Outcome, Refusal>
    ensures { (owned l : List ℕ) → Ready group.old p.0 b.id → Becomes topics_of (outcome_of result) group.old group.new records.new l (λ g. carried g (join_at g p.0 (is_some (seat_at group.old.members.cells p.0)) (request_of b owned)) records.old l) }
{
    let before = group.head.epoch;
    let epoch = epochs::raised_epoch(before);
    let had = group.members.seat_at(p);
    let member = metadata_of(b, p);
    let aimed = group.tables.has_target(p);
    let retargets = had.is_some() & aimed;
    let batch = JoinBatch {
        retargets,
        member,
        epoch,
    };
    let written = records::store(records, batch)?;
    group.members.put(p, seat_of(had, member, epoch, b.tick));
    vacate(&mut group.tables, p, aimed);
    group.head.epoch = epoch;
    group.head.tick = b.tick;
    Ok(Outcome {
        answer: Answer::Assigned(Assignment {
            epoch: epoch,
            interval: HEARTBEAT_INTERVAL,
            count: 0,
        }),
        written,
    })
}

// A heartbeat taken as a join. The answer carries no slots, so that no list is lent.
pub fn join(
    group: &mut Group,
    b: Request,
    owned: &[u16],
    records: &mut [u8],
) -> Result<Outcome, Refusal>
    ensures { (l : List ℕ) → Becomes topics_of (outcome_of result) group.old group.new records.new l (λ g. step_as joins g (request_of b owned.now) records.old l) }
{
    if ticks::goes_back(group.head.tick, b.tick) {
        return Err(Refusal::Clock);
    }
    if is_bad_join(b, owned) {
        return Err(Refusal::InvalidRequest);
    }
    let Some(p) = choose_place(&group.members, b.id) else {
        return Err(Refusal::GroupMaxSizeReached);
    };
    if epochs::at_end(group.head.epoch) {
        return Err(Refusal::EpochEnd);
    }
    join_at(group, p, b, records)
}
