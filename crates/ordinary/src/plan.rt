// What an ordinary heartbeat comes to, decided before anything is written. The tables are gathered once, by one pass.
ghost use Rattle.std.specs.Prelude.{◌≡◌};
ghost use Rattle.tables.specs.Advances.{listed};
ghost use Rattle.group.specs.View.{view};
ghost use Rattle.ordinary.specs.Plans.{stepped_by, member_next, batch_of, Plans};

use events::Request;
use group::member::Member;
use group::{Group, Seat, requests};
use records::batches::OrdinaryBatch;
use records::kinds::{CurrentAssignment, GroupEpoch, MemberMetadata};
use rules::Place;
use tables::{Advance, Change, PlaceSets};

// Who sends a heartbeat, found once: its place and its seat.
#[derive(Clone, Copy)]
pub struct Sender {
    pub place: Place,
    pub seat: Seat,
}

// The member after the heartbeat; what becomes of the slots; and which records are stored: 5 if the subscription or the timeout is updated, 3 if the group
// epoch rises, 8 if E, A or P moves.
#[derive(Clone, Copy)]
pub struct Plan {
    pub member: Member,
    pub change: Change,
    pub updates: bool,
    pub raises: bool,
    pub moves: bool,
}

// The member after steps 2 and 3. Where it does not wait its P is freed, or was empty already.
#[tactic(auto, unfolding(crate::specs::Plans::stepped_by))]
fn stepped(m: Member, step: &Advance, target_epoch: u32, tick: u32) -> Member
    ensures { result ≡ stepped_by step.now target_epoch tick m }
{
    match step.change {
        Change::Waits => m,
        Change::Revokes { .. } => m.free().revoke(step.assigned, step.revoking, tick),
        Change::Stays | Change::Claims { .. } => m.free().advance(target_epoch, step.assigned),
    }
}

// The member at a seat after steps 1 to 3, by the sets of its place and what steps 2 and 3 came to.
#[tactic(auto, unfolding(crate::specs::Plans::member_next))]
fn next_member(
    seat: Seat,
    sets: &PlaceSets,
    step: &Advance,
    b: Request,
    target_epoch: u32,
) -> Member
    ensures { result ≡ member_next seat sets.now step.now b target_epoch }
{
    let subscription = b.subscription_or(seat.subscription);
    let timeout = requests::timeout_or(b.timeout, seat.timeout);
    let had = Member::gathered(seat, sets.assigned, sets.revoking);
    let heard = had.store(subscription, timeout).hear(b.tick);
    stepped(heard, step, target_epoch, b.tick)
}

// The plan for a sender.
pub fn make_plan(group: &Group, s: Sender, b: Request, owned: Option<&[u16]>) -> Plan
    ensures { Plans (view group.now) s b (listed owned.entry) result }
{
    let seat = s.seat;
    let sets = group.tables.gather(s.place);
    let step = sets.advance(owned);
    let next = next_member(seat, &sets, &step, b, group.head.target_epoch);
    let raises = next.seat.subscription != seat.subscription;
    Plan {
        member: next,
        change: step.change,
        updates: raises | (next.seat.timeout != seat.timeout),
        raises: raises,
        moves: (next.seat.epoch != seat.epoch) | step.change.moves(),
    }
}

// The records of a plan for place p, with the group epoch after it.
pub fn batch(k: &Plan, p: Place, epoch: u32) -> OrdinaryBatch
    ensures { result ≡ batch_of k.now p epoch }
{
    let m = &k.member;
    let id = m.seat.id;
    let metadata = MemberMetadata {
        place: p,
        id: id,
        timeout: m.seat.timeout,
        subscription: m.seat.subscription,
    };
    let current = CurrentAssignment {
        place: p,
        epoch: m.seat.epoch,
        assigned: m.assigned,
        revoking: m.revoking,
    };
    OrdinaryBatch {
        member: k.updates.then_some(metadata),
        epoch: k.raises.then_some(GroupEpoch(epoch)),
        current: k.moves.then_some(current),
    }
}
