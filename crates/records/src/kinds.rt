// A record of each kind: a function says what its fields are, one after another, and so what is written and how many bytes that takes.
ghost use Rattle.std.specs.Prelude.{◌≡◌, ◌+◌, ◌*◌, ◌≤◌, length};
ghost use Rattle.rules.specs.Constants.{slot_count};
ghost use Rattle.rules.specs.Records.{bytes_of, group_epoch, topic_is, member_is, member_gone, target_epoch, target_is, current_is, current_gone};
ghost use Rattle.numbers.specs.Buffer.{Wrote};
ghost use Rattle.records.specs.Fields.{target_front};
ghost use Rattle.records.specs.Views.{view_topic_metadata, view_member_metadata, view_target, view_current};

use crate::Encode;
use crate::pairs::{Pair, then};
use rules::{Id, Place};
use slots::SlotSet;

// Record 3: the group epoch.
#[derive(Clone, Copy)]
pub struct GroupEpoch(pub u32);

// Record 4: what it says of a topic.
#[derive(Clone, Copy)]
pub struct TopicMetadata {
    pub number: u32,
    pub id: Id,
    pub count: u32,
}

// Record 5: what it says of a member.
#[derive(Clone, Copy)]
pub struct MemberMetadata {
    pub place: Place,
    pub id: Id,
    pub timeout: u32,
    pub subscription: u16,
}

// Record 5 of a member that is gone.
#[derive(Clone, Copy)]
pub struct MemberGone(pub Place);

// Record 6: the target epoch.
#[derive(Clone, Copy)]
pub struct TargetEpoch(pub u32);

// Record 7: the target of a place.
#[derive(Clone, Copy)]
pub struct TargetAssignment {
    pub place: Place,
    pub slots: SlotSet,
}

// Record 8: the epoch E of a member, its A (assigned) and its P (revoking).
#[derive(Clone, Copy)]
pub struct CurrentAssignment {
    pub place: Place,
    pub epoch: u32,
    pub assigned: SlotSet,
    pub revoking: SlotSet,
}

// Record 8 of a member that is gone.
#[derive(Clone, Copy)]
pub struct CurrentGone(pub Place);

type EpochFields = Pair<u8, u32>;

#[tactic(auto, unfolding(rules::specs::Records::bytes_of))]
fn group_epoch_fields(e: GroupEpoch) -> EpochFields
    ensures { ⟦<EpochFields as Encode>⟧.bytes result ≡ bytes_of (group_epoch e.0) }
{
    then(3, e.0)
}

impl Encode for GroupEpoch {
    ghost bytes = { λ e. bytes_of (group_epoch e.0) };

    ghost most = { 6 };

    fn put(self, buf: &mut [u8]) -> usize {
        group_epoch_fields(self).put(buf)
    }

    fn size(self) -> usize {
        group_epoch_fields(self).size()
    }
}

type TopicFields = Pair<u8, Pair<u32, Pair<Id, u32>>>;

#[tactic(auto, unfolding(rules::specs::Records::bytes_of, crate::specs::Views::view_topic_metadata))]
fn topic_fields(t: TopicMetadata) -> TopicFields
    ensures { ⟦<TopicFields as Encode>⟧.bytes result ≡ bytes_of (topic_is (view_topic_metadata t)) }
{
    then(4, then(t.number, then(t.id, t.count)))
}

impl Encode for TopicMetadata {
    ghost bytes = { λ t. bytes_of (topic_is (view_topic_metadata t)) };

    ghost most = { 27 };

    fn put(self, buf: &mut [u8]) -> usize {
        topic_fields(self).put(buf)
    }

    fn size(self) -> usize {
        topic_fields(self).size()
    }
}

type MemberFields = Pair<u8, Pair<u32, Pair<u8, Pair<Id, Pair<u32, u32>>>>>;

#[tactic(auto, unfolding(rules::specs::Records::bytes_of, crate::specs::Views::view_member_metadata))]
fn member_fields(m: MemberMetadata) -> MemberFields
    ensures { ⟦<MemberFields as Encode>⟧.bytes result ≡ bytes_of (member_is (view_member_metadata m)) }
{
    let rest = then(m.id, then(m.timeout, m.subscription as u32));
    then(5, then(m.place.0 as u32, then(1, rest)))
}

impl Encode for MemberMetadata {
    ghost bytes = { λ m. bytes_of (member_is (view_member_metadata m)) };

    ghost most = { 33 };

    fn put(self, buf: &mut [u8]) -> usize {
        member_fields(self).put(buf)
    }

    fn size(self) -> usize {
        member_fields(self).size()
    }
}

type GoneFields = Pair<u8, Pair<u32, u8>>;

#[tactic(auto, unfolding(rules::specs::Records::bytes_of))]
fn member_gone_fields(m: MemberGone) -> GoneFields
    ensures { ⟦<GoneFields as Encode>⟧.bytes result ≡ bytes_of (member_gone m.0.0) }
{
    then(5, then(m.0.0 as u32, 0))
}

impl Encode for MemberGone {
    ghost bytes = { λ m. bytes_of (member_gone m.0.0) };

    ghost most = { 7 };

    fn put(self, buf: &mut [u8]) -> usize {
        member_gone_fields(self).put(buf)
    }

    fn size(self) -> usize {
        member_gone_fields(self).size()
    }
}

#[tactic(auto, unfolding(rules::specs::Records::bytes_of))]
fn target_epoch_fields(e: TargetEpoch) -> EpochFields
    ensures { ⟦<EpochFields as Encode>⟧.bytes result ≡ bytes_of (target_epoch e.0) }
{
    then(6, e.0)
}

impl Encode for TargetEpoch {
    ghost bytes = { λ e. bytes_of (target_epoch e.0) };

    ghost most = { 6 };

    fn put(self, buf: &mut [u8]) -> usize {
        target_epoch_fields(self).put(buf)
    }

    fn size(self) -> usize {
        target_epoch_fields(self).size()
    }
}

type TargetFields = Pair<u8, Pair<u32, SlotSet>>;

#[tactic(auto, unfolding(rules::specs::Records::bytes_of, crate::specs::Views::view_target))]
fn target_fields(t: TargetAssignment) -> TargetFields
    ensures { ⟦<TargetFields as Encode>⟧.bytes result ≡ bytes_of (target_is (view_target t)) }
{
    then(7, then(t.place.0 as u32, t.slots))
}

impl Encode for TargetAssignment {
    ghost bytes = { λ t. bytes_of (target_is (view_target t)) };

    ghost most = { 2 * slot_count + 11 };

    fn put(self, buf: &mut [u8]) -> usize {
        target_fields(self).put(buf)
    }

    fn size(self) -> usize {
        target_fields(self).size()
    }
}

type CurrentFields = Pair<u8, Pair<u32, Pair<u32, Pair<SlotSet, SlotSet>>>>;

#[tactic(auto, unfolding(rules::specs::Records::bytes_of, crate::specs::Views::view_current))]
fn current_fields(c: CurrentAssignment) -> CurrentFields
    ensures { ⟦<CurrentFields as Encode>⟧.bytes result ≡ bytes_of (current_is (view_current c)) }
{
    let sets = then(c.assigned, c.revoking);
    then(8, then(c.place.0 as u32, then(c.epoch, sets)))
}

impl Encode for CurrentAssignment {
    ghost bytes = { λ c. bytes_of (current_is (view_current c)) };

    ghost most = { 4 * slot_count + 21 };

    fn put(self, buf: &mut [u8]) -> usize {
        current_fields(self).put(buf)
    }

    fn size(self) -> usize {
        current_fields(self).size()
    }
}

#[tactic(auto, unfolding(rules::specs::Records::bytes_of))]
fn current_gone_fields(m: CurrentGone) -> GoneFields
    ensures { ⟦<GoneFields as Encode>⟧.bytes result ≡ bytes_of (current_gone m.0.0) }
{
    then(8, then(m.0.0 as u32, 0))
}

impl Encode for CurrentGone {
    ghost bytes = { λ m. bytes_of (current_gone m.0.0) };

    ghost most = { 7 };

    fn put(self, buf: &mut [u8]) -> usize {
        current_gone_fields(self).put(buf)
    }

    fn size(self) -> usize {
        current_gone_fields(self).size()
    }
}

type FrontFields = Pair<u8, Pair<u32, u32>>;

fn front_fields(place: Place, count: u32) -> FrontFields
    ensures { ⟦<FrontFields as Encode>⟧.bytes result ≡ target_front place.0 count }
{
    then(7, then(place.0 as u32, count))
}

// The front of record 7: the kind, the place and how many slots it has. The slots follow, by their differences.
pub fn put_target_front(buf: &mut [u8], place: Place, count: u32) -> usize
    requires { length (target_front place.0 count) ≤ length buf.old }
    ensures { Wrote (target_front place.0 count) buf.old buf.new result }
{
    front_fields(place, count).put(buf)
}
