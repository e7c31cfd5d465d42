// The ordinary heartbeat: of a known member, at its own epoch.
#![tactic(auto)]

ghost use Rattle.std.specs.Prelude.{◌≡◌, false, []};
ghost use Rattle.rules.specs.Basics.{any, default};
ghost use Rattle.rules.specs.Refusals.{ordinary, zero_id};
ghost use Rattle.tables.specs.Advances.{listed, owned_of};
ghost use Rattle.tables.specs.Places.{holder_not};
ghost use Rattle.tables.specs.View.{slots_in};
ghost use Rattle.events.specs.Outcomes.{Becomes, outcome_of, topics_of, request_of, carried, step_as};
ghost use Rattle.ordinary.specs.Plans.{asked, view_sender, sender_at, Sends, planned, ordinary_step};

mod plan; // plan.rt: the sender, and what becomes of it
mod quick; // quick.rt: the heartbeat that changes nothing
mod rows; // rows.rt: the list of the first row 42

use crate::plan::{Plan, Sender};
use events::{Outcome, Request};
use group::{Group, epochs, ticks};
use rules::{Answer, Assignment, HEARTBEAT_INTERVAL, Place, Refusal};

// Carries a plan for place p out if there is room for its records and its slots; otherwise nothing changes. The list's room is tried first, since nothing may
// be written where either is too short.
fn carry(
    group: &mut Group,
    p: Place,
    tick: u32,
    k: &Plan,
    records: &mut [u8],
    list: &mut [u16],
) -> Result<Outcome, Refusal>
    ensures { zero_id k.now.member.seat.id ≡ false → Becomes topics_of (outcome_of result) group.old group.new records.new list.new (λ g. carried g (planned g p tick k.now) records.old list.old) }
{
    let count = k.member.assigned.count();
    if list.len() < count as usize {
        return Err(Refusal::Room);
    }
    let epoch = epochs::epoch_after(group.head.epoch, k.raises);
    let batch = plan::batch(k, p, epoch);
    let written = records::store(records, batch)?;
    slots::list_slots(list, k.member.assigned);
    group.members.put(p, k.member.seat());
    group.tables.follow(p, k.change);
    group.head.epoch = epoch;
    group.head.tick = tick;
    Ok(Outcome {
        answer: Answer::Assigned(Assignment {
            epoch: k.member.seat.epoch,
            interval: HEARTBEAT_INTERVAL,
            count: count,
        }),
        written: written,
    })
}

// The second row 42: whether a list is given that has a slot which the place does not hold.
fn lists_unheld(group: &Group, p: Place, owned: Option<&[u16]>) -> bool
    ensures { result ≡ any (holder_not (slots_in group.now.tables) p.0) (default [] (listed owned.entry)) }
{
    match owned {
        Some(list) => group.tables.lists_unheld(p, list),
        None => false,
    }
}

// An ordinary heartbeat of the member at place p, past the rows that need no table.
// As it is: the new form is no plainer: the request and its list come from the caller apart, the rows of the list take it alone, `is_calm` takes one that is
// given, and `carry` the tick alone; one struct of both would be taken apart again in each.
fn ordinary_at(
    group: &mut Group,
    p: Place,
    b: Request,
    owned: Option<&[u16]>,
    records: &mut [u8],
    list: &mut [u16],
) -> Result<Outcome, Refusal>
    ensures { Sends group.old.members.cells p b → Becomes topics_of (outcome_of result) group.old group.new records.new list.new (λ g. ordinary_step g (view_sender (sender_at group.old.members.cells p)) (asked b (listed owned.entry)) records.old list.old) }
{
    if lists_unheld(group, p, owned) {
        return Err(Refusal::InvalidRequest);
    }
    let Some(seat) = group.members.seat_at(p) else {
        // never: the member was found there
        return Err(Refusal::UnknownMemberId);
    };
    let s = Sender {
        place: p,
        seat: seat,
    };
    let k = plan::make_plan(group, s, b, owned);
    if epochs::past_end(k.raises, group.head.epoch) {
        return Err(Refusal::EpochEnd);
    }
    carry(group, p, b.tick, &k, records, list)
}

// The list of owned slots, where the request has one.
fn given_list<'a>(b: Request, owned: &'a [u16]) -> Option<&'a [u16]>
    ensures { listed result ≡ owned_of b.has_list owned.now }
{
    b.has_list.then_some(owned)
}

// A heartbeat taken as an ordinary one at the epoch e. The list of owned slots counts only where the request has one.
pub fn ordinary(
    group: &mut Group,
    b: Request,
    e: u32,
    owned: &[u16],
    records: &mut [u8],
    list: &mut [u16],
) -> Result<Outcome, Refusal>
    ensures { Becomes topics_of (outcome_of result) group.old group.new records.new list.new (λ g. step_as (ordinary e) g (request_of b owned.now) records.old list.old) }
{
    if ticks::goes_back(group.head.tick, b.tick) {
        return Err(Refusal::Clock);
    }
    if b.is_malformed_beside_list() {
        return Err(Refusal::InvalidRequest);
    }
    let given = given_list(b, owned);
    let Some(p) = group.members.find(b.id) else {
        return Err(rows::after_list(given, Refusal::UnknownMemberId));
    };
    if e != group.members.epoch_at(p) {
        return Err(rows::after_list(given, Refusal::FencedMemberEpoch));
    }
    if let Some(slots) = given {
        if quick::is_calm(group, p, e, b, slots, list.len()) {
            return Ok(quick::hear(group, p, b.tick, e, slots, list));
        }
    }
    if rows::lists_badly(given) {
        return Err(Refusal::InvalidRequest);
    }
    ordinary_at(group, p, b, given, records, list)
}
