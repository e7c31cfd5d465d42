// What is stored of the members that a sweep removes: at each place that of the member that goes from there, or nothing.
ghost use Rattle.std.specs.Prelude.{◌+◌, ◌*◌};
ghost use Rattle.rules.specs.Constants.{slot_count, max_members};
ghost use Rattle.rules.specs.Records.{all_bytes};
ghost use Rattle.tables.specs.View.{slots_in};
ghost use Rattle.sweeping.specs.Marks.{marked};
ghost use Rattle.sweeping.specs.Leavers.{sweep_batch, Leaving};

use records::Encode;
use records::batches::GoneBatch;
use records::kinds::GroupEpoch;
use rules::{MEMBERS, Place};
use tables::Tables;

// Sweep: the members that go, place by place, and record 3 if G rises.
#[derive(Clone, Copy)]
pub struct SweepBatch {
    pub going: [Option<GoneBatch>; MEMBERS],
    pub epoch: Option<GroupEpoch>,
}

// The members at the marked places, each with whether it is the target of some slot.
pub fn gone_batches(tables: &Tables, gone: &[bool; MEMBERS]) -> [Option<GoneBatch>; MEMBERS]
    ensures { Leaving (slots_in tables.now) (marked gone.now) result }
{
    let mut going = [None; MEMBERS];
    for (i, goes) in gone.iter().enumerate() {
        if *goes {
            let place = Place(i as u8);
            going[i] = Some(GoneBatch {
                place,
                retargets: tables.has_target(place),
            });
        }
    }
    going
}

impl Encode for SweepBatch {
    ghost bytes = { λ b. all_bytes (sweep_batch b.going b.epoch) };

    ghost most = { (2 * slot_count + 25) * max_members + 6 };

    fn put(self, buf: &mut [u8]) -> usize {
        let mut at = 0;
        for leaver in &self.going {
            at = records::put_at(buf, at, *leaver);
        }
        records::put_at(buf, at, self.epoch)
    }

    fn size(self) -> usize {
        let mut n = 0;
        for leaver in &self.going {
            n += leaver.size();
        }
        n + self.epoch.size()
    }
}
