// One record more: of each kind the first counts.
#![tactic(auto, using(crate::proofs::More::adding), unfolding(rules::specs::Records::parts_of, crate::specs::Gathered::standing))]

ghost use Rattle.std.specs.Prelude.{List, ℕ};
ghost use Rattle.rules.specs.Records.{group_epoch, topic_is, member_is, member_gone, target_epoch, current_is};
ghost use Rattle.reading.specs.Views.{view_record};
ghost use Rattle.batches.specs.Adding.{Adds, Takes};

use crate::{Gathered, laying};
use reading::{Member, Record, Topic};
use rules::{MEMBERS, Place, SLOTS};

impl Gathered {
    pub fn with_epoch(self, n: u32) -> Gathered
        ensures { Adds (group_epoch n) self result }
    {
        Gathered {
            epoch: self.epoch.or(Some(n)),
            ..self
        }
    }

    pub fn with_topic(self, t: Topic) -> Gathered
        ensures { Adds (topic_is (record { number = t.number; id = t.id; count = t.count })) self result }
    {
        Gathered {
            topic: self.topic.or(Some(t)),
            ..self
        }
    }

    pub fn with_member(self, m: Member) -> Gathered
        ensures { Adds (member_is (record { place = m.place; id = m.id; timeout = m.timeout; subscription = m.subscription })) self result }
    {
        Gathered {
            member: self.member.or(Some(m)),
            ..self
        }
    }

    pub fn with_gone(self) -> Gathered
        ensures { (p : ℕ) → Adds (member_gone p) self result }
    {
        Gathered {
            any_gone: true,
            ..self
        }
    }

    pub fn with_target_epoch(self, n: u32) -> Gathered
        ensures { Adds (target_epoch n) self result }
    {
        Gathered {
            target_epoch: self.target_epoch.or(Some(n)),
            ..self
        }
    }

    pub fn with_current(self, place: u32, epoch: u32) -> Gathered
        ensures { (a q : List ℕ) → Adds (current_is (record { place = place; epoch = epoch; assigned = a; revoking = q })) self result }
    {
        Gathered {
            current: self.current.or(Some((place, epoch))),
            ..self
        }
    }

    // What the record says is added, a place gone is marked, a target is laid over. Nothing is said with a record whose place there is not.
    #[tactic(auto, using(crate::proofs::More::nowhere), unfolding(rules::specs::Records::placed, rules::specs::Records::places_of))]
    pub fn take(
        self,
        read: &Record,
        gone: &mut [bool; MEMBERS],
        entries: &mut [u8; SLOTS],
    ) -> Option<Gathered>
        ensures { Takes (view_record read.now) self result gone.old gone.new entries.old entries.new }
    {
        match *read {
            Record::GroupEpoch(n) => Some(self.with_epoch(n)),
            Record::Topic(t) => Some(self.with_topic(t)),
            Record::Member(m) => {
                Place::try_from(m.place).ok()?;
                Some(self.with_member(m))
            }
            Record::MemberGone(p) => {
                let place = Place::try_from(p).ok()?;
                gone[place.0 as usize] = true;
                Some(self.with_gone())
            }
            Record::TargetEpoch(n) => Some(self.with_target_epoch(n)),
            Record::Target(t) => {
                let place = Place::try_from(t.place).ok()?;
                laying::lay(entries, place.0, t.slots);
                Some(self)
            }
            Record::Current(c) => {
                Place::try_from(c.place).ok()?;
                Some(self.with_current(c.place, c.epoch))
            }
            Record::CurrentGone(p) => {
                Place::try_from(p).ok()?;
                Some(self)
            }
        }
    }
}
