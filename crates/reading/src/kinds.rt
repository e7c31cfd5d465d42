// A record: the byte of its kind, and what follows by the kind. The laws `read_on` say what the fields of a record, one after another, make of it.
#![tactic(auto, using(crate::proofs::Places::read_on))]

ghost use Rattle.reading.specs.Narrow.{epoch32, topic32, present32, member32, target_epoch32, target32, sets32, current32, record32};
ghost use Rattle.reading.specs.Places.{Finds};
ghost use Rattle.reading.specs.Views.{view_record};

use crate::fields::Cursor;
use crate::{Current, Member, Record, Target, Topic};

impl<'a> Cursor<'a> {
    // A record: its kind and what follows.
    pub fn record(&mut self) -> Option<Record>
        ensures { Finds record32 view_record self.old result self.new }
    {
        let kind = self.byte()?;
        match kind {
            3 => self.group_epoch(),
            4 => self.topic(),
            5 => self.member(),
            6 => self.target_epoch(),
            7 => self.target(),
            8 => self.current(),
            _ => None,
        }
    }

    // 3: G.
    fn group_epoch(&mut self) -> Option<Record>
        ensures { Finds epoch32 view_record self.old result self.new }
    {
        Some(Record::GroupEpoch(self.number()?))
    }

    // 4: topic, ID, count.
    fn topic(&mut self) -> Option<Record>
        ensures { Finds topic32 view_record self.old result self.new }
    {
        let topic = Topic {
            number: self.number()?,
            id: self.id()?,
            count: self.number()?,
        };
        Some(Record::Topic(topic))
    }

    // 5, after the place and a 1: ID, timeout, subscription.
    fn present(&mut self, place: u32) -> Option<Record>
        ensures { Finds (present32 place) view_record self.old result self.new }
    {
        let member = Member {
            place,
            id: self.id()?,
            timeout: self.number()?,
            subscription: self.number()?,
        };
        Some(Record::Member(member))
    }

    // 5: place, and 1 with what follows, or 0 for gone.
    fn member(&mut self) -> Option<Record>
        ensures { Finds member32 view_record self.old result self.new }
    {
        let place = self.number()?;
        match self.byte()? {
            0 => Some(Record::MemberGone(place)),
            1 => self.present(place),
            _ => None,
        }
    }

    // 6: T.
    fn target_epoch(&mut self) -> Option<Record>
        ensures { Finds target_epoch32 view_record self.old result self.new }
    {
        Some(Record::TargetEpoch(self.number()?))
    }

    // 7: place, set.
    fn target(&mut self) -> Option<Record>
        ensures { Finds target32 view_record self.old result self.new }
    {
        let target = Target {
            place: self.number()?,
            slots: self.set()?,
        };
        Some(Record::Target(target))
    }

    // 8, after place and E: set A, set P.
    fn sets(&mut self, place: u32, epoch: u32) -> Option<Record>
        ensures { Finds (sets32 place epoch) view_record self.old result self.new }
    {
        let current = Current {
            place,
            epoch,
            assigned: self.set()?,
            revoking: self.set()?,
        };
        Some(Record::Current(current))
    }

    // 8: place, E and the sets, or 0 for gone.
    fn current(&mut self) -> Option<Record>
        ensures { Finds current32 view_record self.old result self.new }
    {
        let place = self.number()?;
        let epoch = self.number()?;
        if epoch == 0 {
            return Some(Record::CurrentGone(place));
        }
        self.sets(place, epoch)
    }
}
