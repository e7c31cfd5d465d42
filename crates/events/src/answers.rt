// An answer as plain numbers, for hosts and for programs that print it.
ghost use Rattle.std.specs.Prelude.{◌≡◌};
ghost use Rattle.rules.specs.Answers.{number_of, slot_reported, said};
ghost use Rattle.events.specs.Answering.{view_said};

use rules::{Answer, NO_SLOT, Refusal};

// 01's number (0: accepted); the epoch, -1 for a leave; the heartbeat interval; how many slots the answer carries or members a sweep removed; the slot
// that is reported, or 65,535.
// As it is: the C interface has numbers for the answers and 65,535 for no slot.
#[repr(C)]
#[derive(Clone, Copy)]
pub struct Said {
    pub number: u32,
    pub interval: u32,
    pub epoch: i64,
    pub count: u32,
    pub slot: u16,
}

// An event that was accepted, with nothing else to say.
const DONE: Said = Said {
    number: 0,
    interval: 0,
    epoch: 0,
    count: 0,
    slot: NO_SLOT,
};

// 01's number of a refusal.
pub fn number_of(r: Refusal) -> u32
    ensures { result ≡ number_of r }
{
    match r {
        Refusal::Clock => 1001,
        Refusal::InvalidRequest => 42,
        Refusal::UnknownMemberId => 25,
        Refusal::GroupMaxSizeReached => 81,
        Refusal::FencedMemberEpoch => 110,
        Refusal::BadTarget(_) => 1006,
        Refusal::Stale => 1004,
        Refusal::Already => 1005,
        Refusal::BadTopic => 1007,
        Refusal::EpochEnd => 1002,
        Refusal::Room => 1003,
    }
}

// The slot that a refusal reports, or 65,535.
pub fn slot_reported(r: Refusal) -> u16
    ensures { result ≡ slot_reported r }
{
    match r {
        Refusal::BadTarget(slot) => slot.0,
        _ => NO_SLOT,
    }
}

// What an answer says.
impl From<Answer> for Said {
    ghost from_gives = { λ a s. view_said s ≡ said a };

    fn from(a: Answer) -> Said {
        match a {
            Answer::Assigned(x) => Said {
                interval: x.interval,
                epoch: x.epoch as i64,
                count: x.count,
                ..DONE
            },
            Answer::Left => Said { epoch: -1, ..DONE },
            Answer::Swept(n) => Said { count: n, ..DONE },
            Answer::Done => DONE,
            Answer::Refused(r) => Said {
                number: number_of(r),
                slot: slot_reported(r),
                ..DONE
            },
        }
    }
}
