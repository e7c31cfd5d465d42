// What an event stores: its records in their order, those that only some events have being options.
ghost use Rattle.std.specs.Prelude.{◌≡◌, ◌+◌, ◌*◌};
ghost use Rattle.rules.specs.Constants.{slot_count};
ghost use Rattle.rules.specs.Records.{all_bytes, target_is};
ghost use Rattle.rules.specs.Effects.{no_target, joined_at};
ghost use Rattle.records.specs.Storing.{topic_batch, gone_batch, leave_batch, join_batch, ordinary_batch};
ghost use Rattle.records.specs.Views.{view_target, view_current};

use crate::Encode;
use crate::kinds::{
    CurrentAssignment, CurrentGone, GroupEpoch, MemberGone, MemberMetadata, TargetAssignment,
    TopicMetadata,
};
use crate::pairs::{Pair, then};
use rules::Place;
use slots::SlotSet;

// Topic: record 4 if the topic changes, 3 if G rises.
#[derive(Clone, Copy)]
pub struct TopicBatch {
    pub topic: Option<TopicMetadata>,
    pub epoch: Option<GroupEpoch>,
}

// A member that goes: record 8 gone, 7 empty if its target was not, 5 gone.
#[derive(Clone, Copy)]
pub struct GoneBatch {
    pub place: Place,
    pub retargets: bool,
}

// Leave: a member that goes, and record 3 if G rises.
#[derive(Clone, Copy)]
pub struct LeaveBatch {
    pub gone: GoneBatch,
    pub epoch: Option<GroupEpoch>,
}

// Join: record 7 empty if a known member's target was not, 5, 3, 8.
#[derive(Clone, Copy)]
pub struct JoinBatch {
    pub retargets: bool,
    pub member: MemberMetadata,
    pub epoch: u32,
}

// Ordinary heartbeat: record 5 if the member updates its subscription or timeout, 3 if G rises, 8 if E, A or P moves.
#[derive(Clone, Copy)]
pub struct OrdinaryBatch {
    pub member: Option<MemberMetadata>,
    pub epoch: Option<GroupEpoch>,
    pub current: Option<CurrentAssignment>,
}

type TopicRecords = Pair<Option<TopicMetadata>, Option<GroupEpoch>>;

fn topic_records(b: TopicBatch) -> TopicRecords
    ensures { ⟦<TopicRecords as Encode>⟧.bytes result ≡ all_bytes (topic_batch b) }
{
    then(b.topic, b.epoch)
}

impl Encode for TopicBatch {
    ghost bytes = { λ b. all_bytes (topic_batch b) };

    ghost most = { 33 };

    fn put(self, buf: &mut [u8]) -> usize {
        topic_records(self).put(buf)
    }

    fn size(self) -> usize {
        topic_records(self).size()
    }
}

type GoneRecords = Pair<CurrentGone, Pair<Option<TargetAssignment>, MemberGone>>;

fn gone_records(b: GoneBatch) -> GoneRecords
    ensures { ⟦<GoneRecords as Encode>⟧.bytes result ≡ all_bytes (gone_batch b) }
{
    let target = b.retargets.then_some(no_target(b.place));
    then(CurrentGone(b.place), then(target, MemberGone(b.place)))
}

impl Encode for GoneBatch {
    ghost bytes = { λ b. all_bytes (gone_batch b) };

    ghost most = { 2 * slot_count + 25 };

    fn put(self, buf: &mut [u8]) -> usize {
        gone_records(self).put(buf)
    }

    fn size(self) -> usize {
        gone_records(self).size()
    }
}

type LeaveRecords = Pair<GoneBatch, Option<GroupEpoch>>;

fn leave_records(b: LeaveBatch) -> LeaveRecords
    ensures { ⟦<LeaveRecords as Encode>⟧.bytes result ≡ all_bytes (leave_batch b) }
{
    then(b.gone, b.epoch)
}

impl Encode for LeaveBatch {
    ghost bytes = { λ b. all_bytes (leave_batch b) };

    ghost most = { 2 * slot_count + 31 };

    fn put(self, buf: &mut [u8]) -> usize {
        leave_records(self).put(buf)
    }

    fn size(self) -> usize {
        leave_records(self).size()
    }
}

type JoinRecords = Pair<
    Option<TargetAssignment>,
    Pair<MemberMetadata, Pair<GroupEpoch, CurrentAssignment>>,
>;

fn join_records(b: JoinBatch) -> JoinRecords
    ensures { ⟦<JoinRecords as Encode>⟧.bytes result ≡ all_bytes (join_batch b) }
{
    let place = b.member.place;
    let target = b.retargets.then_some(no_target(place));
    let rest = then(GroupEpoch(b.epoch), joined(place, b.epoch));
    then(target, then(b.member, rest))
}

impl Encode for JoinBatch {
    ghost bytes = { λ b. all_bytes (join_batch b) };

    ghost most = { 6 * slot_count + 71 };

    fn put(self, buf: &mut [u8]) -> usize {
        join_records(self).put(buf)
    }

    fn size(self) -> usize {
        join_records(self).size()
    }
}

type OrdinaryRecords = Pair<
    Option<MemberMetadata>,
    Pair<Option<GroupEpoch>, Option<CurrentAssignment>>,
>;

fn ordinary_records(b: OrdinaryBatch) -> OrdinaryRecords
    ensures { ⟦<OrdinaryRecords as Encode>⟧.bytes result ≡ all_bytes (ordinary_batch b) }
{
    then(b.member, then(b.epoch, b.current))
}

impl Encode for OrdinaryBatch {
    ghost bytes = { λ b. all_bytes (ordinary_batch b) };

    ghost most = { 4 * slot_count + 60 };

    fn put(self, buf: &mut [u8]) -> usize {
        ordinary_records(self).put(buf)
    }

    fn size(self) -> usize {
        ordinary_records(self).size()
    }
}

// A target that has become empty.
fn no_target(place: Place) -> TargetAssignment
    ensures { target_is (view_target result) ≡ no_target place.0 }
{
    TargetAssignment {
        place: place,
        slots: SlotSet::empty(),
    }
}

// What a member has that has joined: no slots.
fn joined(place: Place, epoch: u32) -> CurrentAssignment
    ensures { view_current result ≡ joined_at place.0 epoch }
{
    let none = SlotSet::empty();
    CurrentAssignment {
        place: place,
        epoch: epoch,
        assigned: none,
        revoking: none,
    }
}
