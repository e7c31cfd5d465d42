// Members in columns: found by ID, gathered at a place as a seat, and put back. A place whose four words of an ID are zero has no member: no ID is zero.
// A place past the last has nobody, and what is put there is put nowhere.
ghost use Rattle.std.specs.Prelude.{◌≡◌, ◌+◌, ◌<◌, ◌≤◌, false, nat_lt, slice_index, slice_index_or, slice_set, if◌then◌else◌};
ghost use Rattle.std.proofs.Math.Option.{none, some};
ghost use Rattle.rules.specs.Basics.{any, find};
ghost use Rattle.rules.specs.Constants.{max_members};
ghost use Rattle.rules.specs.Group.{is_member, vacant, fresh};
ghost use Rattle.rules.specs.Refusals.{zero_id};
ghost use Rattle.group.specs.Columns.{cell_count, view_members, words_at, no_numbers, numbers_at, seat_at, cells_of, put_at, Vacated};
ghost use Rattle.group.specs.Members.{joined_as, heard_at};
ghost use Rattle.group.specs.Searches.{Finds};
ghost use Rattle.group.specs.View.{seated};

use crate::{SUBSCRIPTIONS, Seat, words};
use rules::{ID_LENGTH, Id, MEMBERS, Place};
use search::{CELLS, FOURTH, SECOND, THIRD, Words};

// Where the columns after the ID's begin.
pub const EPOCH: usize = 4 * MEMBERS;

pub const SUBSCRIPTION: usize = 5 * MEMBERS;

pub const TIMEOUT: usize = 6 * MEMBERS;

pub const HEARD: usize = 7 * MEMBERS;

pub const REVOKED_AT: usize = 8 * MEMBERS;

// Nine columns, one after another.
// As it is: the C interface, whose `struct pankvisolo_group` of include/pankvisolo.h has these columns, `member_ids` to `revoked_at`, for hosts to read.
#[repr(C)]
#[derive(Clone, Copy)]
pub struct Members {
    pub cells: [u32; CELLS],
}

impl Seat {
    // Nobody's numbers.
    fn empty() -> Seat
        ensures { result ≡ no_numbers }
    {
        Seat {
            id: [0; ID_LENGTH],
            epoch: 0,
            subscription: 0,
            timeout: 0,
            heard: 0,
            revoked_at: 0,
        }
    }

    // A member that joins at a tick.
    pub fn joined(id: Id, epoch: u32, subscription: u16, timeout: u32, tick: u32) -> Seat
        ensures { result ≡ joined_as id epoch subscription timeout tick }
    {
        Seat {
            id: id,
            epoch: epoch,
            subscription: subscription,
            timeout: timeout,
            heard: tick,
            revoked_at: tick,
        }
    }
}

impl Members {
    // Nobody.
    #[tactic(auto, unfolding(rules::specs::Group::fresh, rules::specs::Basics::up_to, crate::specs::Columns::view_members, crate::specs::Columns::view_place, crate::specs::Columns::member_of))]
    pub fn empty() -> Members
        ensures { view_members result.cells ≡ (fresh 0).members }
    {
        Members { cells: [0; CELLS] }
    }

    // The members become those of `empty`, where they lie.
    #[tactic(auto, unfolding(rules::specs::Group::fresh, rules::specs::Basics::up_to, crate::specs::Columns::view_members, crate::specs::Columns::view_place, crate::specs::Columns::member_of))]
    pub fn clear(&mut self)
        ensures { view_members self.new.cells ≡ (fresh 0).members }
    {
        self.cells.fill(0);
    }

    // The place of the member with an ID.
    pub fn find(&self, id: Id) -> Option<Place>
        ensures { Finds (any (is_member id) (view_members self.now.cells)) (find (is_member id) (view_members self.now.cells)) result }
    {
        // The prover learns here that every entry is a word of 32 bits.
        prove!(self.cells[0] <= u32::MAX);
        let w = words::words_of(id);
        if words::all_zero(w) {
            return None;
        }
        let k = search::find(&self.cells, w)?;
        Some(Place(k as u8))
    }

    // The first place without a member.
    pub fn find_vacant(&self) -> Option<Place>
        ensures { Finds (any vacant (view_members self.now.cells)) (find vacant (view_members self.now.cells)) result }
    {
        let k = search::free::find(&self.cells)?;
        Some(Place(k as u8))
    }

    // The four words at a place.
    fn words_at(&self, k: usize) -> Words
        requires { k < max_members }
        ensures { result ≡ words_at self.now.cells k }
    {
        Words {
            a: self.cells[k],
            b: self.cells[k + SECOND],
            c: self.cells[k + THIRD],
            d: self.cells[k + FOURTH],
        }
    }

    // Whether nobody is at a place.
    #[tactic(auto, using(crate::proofs::PlaceTests::vacant_is, crate::proofs::Columns::past_members), unfolding(rules::specs::Group::vacant))]
    pub(crate) fn is_vacant(&self, p: Place) -> bool
        ensures { result ≡ vacant (slice_index_or (view_members self.now.cells) p.0 none) }
    {
        let k = p.0 as usize;
        if MEMBERS <= k {
            return true;
        }
        words::all_zero(self.words_at(k))
    }

    // What stands at a place in the column that begins at `from`; 0 past the last place.
    pub(crate) fn number_at(&self, from: usize, p: Place) -> u32
        requires { from + max_members ≤ cell_count }
        ensures { result ≡ (if nat_lt p.0 max_members then slice_index self.now.cells (p.0 + from) else 0) }
    {
        let k = p.0 as usize;
        if k < MEMBERS {
            return self.cells[k + from];
        }
        0
    }

    // The member at a place.
    #[tactic(auto, using(crate::proofs::PlaceTests::seat_none, crate::proofs::PlaceTests::seat_some, crate::proofs::Columns::heard_number, crate::proofs::Columns::revoked_number))]
    pub fn seat_at(&self, p: Place) -> Option<Seat>
        ensures { result ≡ seat_at self.now.cells p.0 }
    {
        if self.is_vacant(p) {
            return None;
        }
        let id = self.id_at(p);
        Some(Seat {
            id: id,
            epoch: self.epoch_at(p),
            subscription: self.subscription_at(p),
            timeout: self.timeout_at(p),
            heard: self.number_at(HEARD, p),
            revoked_at: self.number_at(REVOKED_AT, p),
        })
    }

    // Single numbers of the member at a place, without a look at who is there; 0 past the last place.
    #[tactic(auto, unfolding(crate::specs::Columns::numbers_at))]
    pub fn id_at(&self, p: Place) -> Id
        ensures { result ≡ (numbers_at self.now.cells p.0).id }
    {
        let k = p.0 as usize;
        if k < MEMBERS {
            return words::id_of(self.words_at(k));
        }
        [0; ID_LENGTH]
    }

    #[tactic(auto, unfolding(crate::specs::Columns::numbers_at))]
    pub fn epoch_at(&self, p: Place) -> u32
        ensures { result ≡ (numbers_at self.now.cells p.0).epoch }
    {
        self.number_at(EPOCH, p)
    }

    #[tactic(auto, unfolding(crate::specs::Columns::numbers_at))]
    pub fn subscription_at(&self, p: Place) -> u16
        ensures { result ≡ (numbers_at self.now.cells p.0).subscription }
    {
        (self.number_at(SUBSCRIPTION, p) % SUBSCRIPTIONS) as u16
    }

    #[tactic(auto, unfolding(crate::specs::Columns::numbers_at))]
    pub fn timeout_at(&self, p: Place) -> u32
        ensures { result ≡ (numbers_at self.now.cells p.0).timeout }
    {
        self.number_at(TIMEOUT, p)
    }

    // What a place has in the columns: the words of an ID, and the numbers of a seat.
    #[tactic(auto, unfolding(crate::specs::Columns::put_at))]
    fn put_cells(&mut self, p: Place, w: Words, seat: Seat)
        ensures { self.new.cells ≡ put_at self.old.cells p.0 (cells_of w.a w.b w.c w.d seat) }
    {
        let k = p.0 as usize;
        if MEMBERS <= k {
            return;
        }
        self.cells[k] = w.a;
        self.cells[k + SECOND] = w.b;
        self.cells[k + THIRD] = w.c;
        self.cells[k + FOURTH] = w.d;
        self.cells[k + EPOCH] = seat.epoch;
        self.cells[k + SUBSCRIPTION] = seat.subscription as u32;
        self.cells[k + TIMEOUT] = seat.timeout;
        self.cells[k + HEARD] = seat.heard;
        self.cells[k + REVOKED_AT] = seat.revoked_at;
    }

    // The member of a seat takes a place.
    #[tactic(auto, using(crate::proofs::Columns::put_is))]
    pub fn put(&mut self, p: Place, seat: Seat)
        ensures { zero_id seat.id ≡ false → view_members self.new.cells ≡ slice_set (view_members self.old.cells) p.0 (some (seated seat)) }
    {
        let id = seat.id;
        let w = words::words_of(id);
        self.put_cells(p, w, seat);
    }

    // Nobody is at a place: nothing of its member stays.
    #[tactic(auto, using(crate::proofs::Columns::vacated_is))]
    pub fn vacate(&mut self, p: Place)
        ensures { Vacated self.old.cells p.0 self.new.cells }
    {
        self.put_cells(p, Words::NOBODY, Seat::empty());
    }

    // The member at a place is heard at a tick.
    #[tactic(auto, using(crate::proofs::Columns::heard_is, crate::proofs::Columns::heard_past))]
    pub fn hear(&mut self, p: Place, tick: u32)
        ensures { view_members self.new.cells ≡ slice_set (view_members self.old.cells) p.0 (heard_at tick (slice_index_or (view_members self.old.cells) p.0 none)) }
    {
        let k = p.0 as usize;
        if MEMBERS <= k {
            return;
        }
        self.cells[k + HEARD] = tick;
    }
}
