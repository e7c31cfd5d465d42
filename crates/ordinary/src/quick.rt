// The heartbeat that changes nothing but the two ticks: the commonest, told from the group without a set or a copy.
ghost use Rattle.std.specs.Prelude.{◌≡◌, true};
ghost use Rattle.ordinary.specs.Plans.{Calm, Heard};

use events::{Outcome, Request};
use group::{Group, requests};
use rules::{Answer, Assignment, HEARTBEAT_INTERVAL, Place, SLOTS};

// Whether it is sure that the heartbeat b of the member at place p, at its epoch e, which gives a list, changes nothing, and that its list fits. One direction:
// where it is not sure the answer is false.
pub fn is_calm(group: &Group, p: Place, e: u32, b: Request, owned: &[u16], room: usize) -> bool
    ensures { result ≡ true → Calm group.now p.0 e b owned.now room }
{
    let subscription = group.members.subscription_at(p);
    let timeout = group.members.timeout_at(p);
    b.has_list
        && owned.len() <= SLOTS
        && owned.len() <= room
        && group.head.target_epoch <= e
        && b.subscription_or(subscription) == subscription
        && requests::timeout_or(b.timeout, timeout) == timeout
        && quiet::is_quiet(&group.tables, p, owned)
}

// The member at place p is heard at a tick and told its slots, which it listed; a list that does not fit is not told.
#[tactic(auto, unfolding(rules::specs::Step::overlay))]
pub fn hear(
    group: &mut Group,
    p: Place,
    tick: u32,
    epoch: u32,
    owned: &[u16],
    list: &mut [u16],
) -> Outcome
    ensures { Heard group.old p.0 tick epoch owned.now list.old result group.new list.new }
{
    if owned.len() <= list.len() {
        numbers::put_all(list, owned);
    }
    group.members.hear(p, tick);
    group.head.tick = tick;
    Outcome {
        answer: Answer::Assigned(Assignment {
            epoch: epoch,
            interval: HEARTBEAT_INTERVAL,
            count: u32::try_from(owned.len()).unwrap_or(0),
        }),
        written: 0,
    }
}
