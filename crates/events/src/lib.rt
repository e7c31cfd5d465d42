// What the events have in common: a heartbeat's request, an event's outcome, and answers as plain numbers.
#![tactic(auto)]

ghost use Rattle.std.specs.Prelude.{◌≡◌};
ghost use Rattle.events.specs.Outcomes.{outcome_of};

mod answers; // answers.rt: answers as plain numbers
mod rows; // rows.rt: what more than one kind of heartbeat asks of its request

pub use answers::{Said, number_of};
use rules::{Answer, Id, Refusal};

// What an event comes to: the answer, and how many bytes of records were written to the buffer. The group is where it was.
#[derive(Clone, Copy)]
pub struct Outcome {
    pub answer: Answer,
    pub written: usize,
}

// A heartbeat, but for its list of owned slots, which is lent beside it and counts only where `has_list`.
// As it is: the C interface has a flag beside a subscription and beside a list, and -1 for no timeout.
#[repr(C)]
#[derive(Clone, Copy)]
pub struct Request {
    pub id: Id,
    pub epoch: i32,
    pub tick: u32,
    pub timeout: i32,
    pub has_subscription: bool,
    pub subscription: u16,
    pub has_list: bool,
}

// A refusal wrote nothing.
impl From<Result<Outcome, Refusal>> for Outcome {
    ghost from_gives = { λ r o. o ≡ outcome_of r };

    fn from(r: Result<Outcome, Refusal>) -> Outcome {
        match r {
            Ok(o) => o,
            Err(why) => Outcome {
                answer: Answer::Refused(why),
                written: 0,
            },
        }
    }
}
