// What the records of a batch say, gathered in one pass over its bytes: the first record of each kind, the places gone, and the target that records 7 leave.
#![tactic(auto)]

ghost use Rattle.batches.specs.Gathered.{Gathers};

use reading::{Member, Records, Topic};
use rules::{MEMBERS, SLOTS};

mod adding; // adding.rt: one record more
mod laying; // laying.rt: a record 7 laid over a target

// The first record of each kind, where there is one.
#[derive(Clone, Copy)]
pub struct Gathered {
    // 3
    pub epoch: Option<u32>,
    // 4
    pub topic: Option<Topic>,
    // 5, of a member that is there
    pub member: Option<Member>,
    // 5, of one that is gone
    pub any_gone: bool,
    // 6
    pub target_epoch: Option<u32>,
    // 8: its place and epoch
    pub current: Option<(u32, u32)>,
}

// What the records of a batch say, if every byte belongs to one, whose numbers are of 32 bits and whose place there is. `gone` is left marking the places gone,
// whatever it held; `entries` comes as a target, and each record 7 is laid over it.
#[tactic(auto, using(crate::proofs::Going::by_records))]
pub fn gather(
    batch: &[u8],
    gone: &mut [bool; MEMBERS],
    entries: &mut [u8; SLOTS],
) -> Option<Gathered>
    ensures { Gathers batch.now result gone.new entries.old entries.new }
{
    *gone = [false; MEMBERS];
    let mut found = Gathered {
        epoch: None,
        topic: None,
        member: None,
        any_gone: false,
        target_epoch: None,
        current: None,
    };
    for record in Records::new(batch) {
        found = found.take(&record?, gone, entries)?;
    }
    Some(found)
}
