// The slots that concern a place, one after another, in rising order.
ghost use Rattle.std.specs.Prelude.{◌≤◌, ◌<◌, IfSome};
ghost use Rattle.rules.specs.Constants.{slot_count};

use crate::Tables;
use rules::Place;

// The slots near a place that are still to come.
#[derive(Clone, Copy)]
pub struct SlotsNear<'a> {
    tables: &'a Tables,
    place: Place,
    // the slot at which the next one is looked for first
    from: usize,
    ghost within: { from ≤ slot_count },
}

impl Tables {
    ghost use Rattle.std.specs.Prelude.{◌≡◌};
    ghost use Rattle.tables.specs.Walk.{near_from, rest};

    // The slots that are near p, in rising order.
    #[tactic(auto, unfolding(crate::specs::Walk::rest))]
    pub(crate) fn slots_near(&self, p: Place) -> SlotsNear
        ensures { rest result ≡ near_from self.now p.0 0 }
    {
        SlotsNear {
            tables: self,
            place: p,
            from: 0,
        }
    }
}

impl Iterator for SlotsNear<'_> {
    ghost use Rattle.std.specs.Iterator.{YieldsFirst, item_count};
    ghost use Rattle.tables.specs.Walk.{rest};

    type Item = usize;

    ghost next_gives = { λ w r w'. YieldsFirst rest w r w' × IfSome r (λ s. s < slot_count) };

    ghost remaining = { item_count rest };

    fn next(&mut self) -> Option<usize> {
        let slot = self.tables.next_near(self.place, self.from)?;
        self.from = slot + 1;
        Some(slot)
    }
}
