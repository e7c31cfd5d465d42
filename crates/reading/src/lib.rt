// Records read back from bytes. At a place of the caller's bytes stands a record whose numbers are of 32 bits, or none: any bytes and any place get an answer.
// What is read is `read_fitting` of specs/Fitting, the rules' reader of a record.
#![tactic(auto)]

ghost use Rattle.reading.specs.Views.{ReadsRecord};

use fields::Cursor;
use rules::Id;
use slots::SlotSet;

mod batch; // batch.rt: the records of a batch, one after another
mod fields; // fields.rt: a number, a byte, an ID, a set of slots
mod kinds; // kinds.rt: a record of each kind

pub use batch::Records;

// As it is: these are not the types that records writes. A place and a subscription are read as any number of 32 bits (`Finds` with `record32`), and written as
// a place and as 16 bits; only the three fields of a topic are the same, and one type of four from there is no plainer.
// 4: topic, ID, count.
#[derive(Clone, Copy)]
pub struct Topic {
    pub number: u32,
    pub id: Id,
    pub count: u32,
}

// 5 of a member that is there: place, ID, timeout, subscription.
#[derive(Clone, Copy)]
pub struct Member {
    pub place: u32,
    pub id: Id,
    pub timeout: u32,
    pub subscription: u32,
}

// 7: place, and the slots of its target.
#[derive(Clone, Copy)]
pub struct Target {
    pub place: u32,
    pub slots: SlotSet,
}

// 8 of a member that is there: place, epoch, A and P.
#[derive(Clone, Copy)]
pub struct Current {
    pub place: u32,
    pub epoch: u32,
    pub assigned: SlotSet,
    pub revoking: SlotSet,
}

// A record of each kind.
#[derive(Clone, Copy)]
pub enum Record {
    // 3: the group epoch.
    GroupEpoch(u32),
    Topic(Topic),
    Member(Member),
    // 5 of a member that is gone: its place.
    MemberGone(u32),
    // 6: the target epoch.
    TargetEpoch(u32),
    Target(Target),
    Current(Current),
    // 8 of a member that is gone: its place.
    CurrentGone(u32),
}

// The record at the place `at`, and the place after it.
#[tactic(auto, using(crate::proofs::Narrowing::record_narrow))]
pub fn read_record(s: &[u8], at: usize) -> Option<(Record, usize)>
    ensures { ReadsRecord s.now at result }
{
    let mut cursor = Cursor { bytes: s, at };
    let record = cursor.record()?;
    Some((record, cursor.at))
}
