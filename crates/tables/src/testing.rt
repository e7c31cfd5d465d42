// Tests of a place.
ghost use Rattle.std.specs.Prelude.{◌≡◌};
ghost use Rattle.rules.specs.Basics.{any};
ghost use Rattle.rules.specs.Group.{targeted};
ghost use Rattle.tables.specs.Places.{is_place, held_by, holder_not};
ghost use Rattle.tables.specs.View.{slots_in};

use crate::Tables;
use rules::{Place, SLOTS, Slot};

// Whether p stands in some entry of a table. Every entry is looked at, by a test without branches.
fn names(entries: &[u8; SLOTS], p: Place) -> bool
    ensures { result ≡ any (is_place p.0) entries.now }
{
    entries.iter().fold(false, |found, e| found | (*e == p.0))
}

impl Tables {
    // Whether some slot of the list is not held by p; numbers that are no slots are held by nobody.
    pub fn lists_unheld(&self, p: Place, list: &[u16]) -> bool
        ensures { result ≡ any (holder_not (slots_in self.now) p.0) list.now }
    {
        list.iter()
            .any(|s| slots::entry_at(&self.holder, Slot(*s)) != p.0)
    }

    // Whether p is the target of some slot.
    pub fn has_target(&self, p: Place) -> bool
        ensures { result ≡ any (targeted p.0) (slots_in self.now) }
    {
        names(&self.target, p)
    }

    // Whether p is the holder of some slot.
    pub fn is_holder(&self, p: Place) -> bool
        ensures { result ≡ any (held_by p.0) (slots_in self.now) }
    {
        names(&self.holder, p)
    }
}
