// Changes of the tables. Only the slots that are near the place change.
ghost use Rattle.std.specs.Prelude.{◌≡◌, ℕ, ◌<◌, map};
ghost use Rattle.rules.specs.Constants.{slot_count};
ghost use Rattle.rules.specs.Effects.{vacated, freed, revoked, claimed};
ghost use Rattle.tables.specs.View.{slots_in, Whole};
ghost use Rattle.tables.specs.Changes.{view_entry, entry_of, moved_by, followed_by};

use crate::Tables;
use crate::advancing::Change;
use rules::{NO_PLACE, Place, SLOTS};

// The entries of the tables for one slot.
#[derive(Clone, Copy)]
pub struct Entry {
    pub target: u8,
    pub holder: u8,
    pub waiting: bool,
}

impl Entry {
    // What is p's becomes nobody's.
    #[tactic(auto, unfolding(rules::specs::Effects::vacated))]
    fn vacate(self, p: Place) -> Entry
        ensures { view_entry result ≡ vacated p.0 (view_entry self) }
    {
        let aimed = self.target == p.0;
        let held = self.holder == p.0;
        Entry {
            target: if aimed { NO_PLACE } else { self.target },
            holder: if held { NO_PLACE } else { self.holder },
            waiting: self.waiting & !held,
        }
    }

    // A slot of P is freed.
    #[tactic(auto, unfolding(rules::specs::Effects::freed, rules::specs::Group::revoking))]
    fn free(self, p: Place) -> Entry
        ensures { view_entry result ≡ freed p.0 (view_entry self) }
    {
        if (self.holder == p.0) & self.waiting {
            return Entry {
                holder: NO_PLACE,
                waiting: false,
                ..self
            };
        }
        self
    }

    // A stray moves to P.
    #[tactic(auto, unfolding(rules::specs::Effects::revoked, rules::specs::Effects::stray, rules::specs::Group::assigned, rules::specs::Group::targeted))]
    fn revoke(self, p: Place) -> Entry
        ensures { view_entry result ≡ revoked p.0 (view_entry self) }
    {
        let stray = (self.holder == p.0) & !self.waiting & (self.target != p.0);
        Entry {
            waiting: self.waiting | stray,
            ..self
        }
    }

    // A slot of the target that nobody holds enters A.
    #[tactic(auto, unfolding(rules::specs::Effects::claimed, rules::specs::Group::targeted))]
    fn claim(self, p: Place) -> Entry
        ensures { view_entry result ≡ claimed p.0 (view_entry self) }
    {
        if (self.target == p.0) & (self.holder == NO_PLACE) {
            return Entry {
                holder: p.0,
                waiting: false,
                ..self
            };
        }
        self
    }

    // The slot moves as steps 2 and 3 say: P freed first or not, then a stray revoked or a free slot of the target claimed.
    #[tactic(auto, unfolding(crate::specs::Changes::moved_by))]
    fn moved(self, frees: bool, revokes: bool, p: Place) -> Entry
        ensures { view_entry result ≡ moved_by frees revokes p.0 (view_entry self) }
    {
        let e = if frees { self.free(p) } else { self };
        if revokes {
            return e.revoke(p);
        }
        e.claim(p)
    }
}

impl Tables {
    // Each slot is changed. Every slot is looked at, without branches: that is quicker than a search for those of a place.
    fn change_each<F: Fn(Entry) -> Entry>(&mut self, change: F)
        requires { F.IsAlwaysCallable change }
        ensures whole { Whole self.new }
        ensures each { (s : ℕ) → s < slot_count → F.post change (entry_of self.old s) (entry_of self.new s) }
    {
        for i in 0..SLOTS {
            let e = change(Entry {
                target: self.target[i],
                holder: self.holder[i],
                waiting: self.waiting[i],
            });
            self.target[i] = e.target;
            self.holder[i] = e.holder;
            self.waiting[i] = e.waiting;
        }
    }

    // The place p holds nothing and is nobody's target; all other entries stay.
    pub fn vacate(&mut self, p: Place)
        ensures { slots_in self.new ≡ map (vacated p.0) (slots_in self.old) }
    {
        self.change_each(|e| e.vacate(p));
    }

    // What steps 2 and 3 of place p came to is carried out; the tables are written only if A or P changes.
    pub fn follow(&mut self, p: Place, change: Change)
        ensures { slots_in self.new ≡ followed_by change p.0 (slots_in self.old) }
    {
        match change {
            Change::Waits | Change::Stays => {}
            Change::Revokes { frees } => self.change_each(|e| e.moved(frees, true, p)),
            Change::Claims { frees } => self.change_each(|e| e.moved(frees, false, p)),
        }
    }
}
