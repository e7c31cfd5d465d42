// The member of 01, with its sets A and P: gathered from its seat and the tables, changed by methods that take it and hand it back changed,
// and put back as a seat and tables.
ghost use Rattle.std.specs.Prelude.{◌≡◌, max};
ghost use Rattle.group.specs.Transitions.{member_of, seat_of, member_rejoined, member_freed, member_revoked, member_advanced, member_stored, member_heard};

use crate::Seat;
use slots::{SlotSet, WORDS};

// A member: its seat; `assigned` is 01's A and `revoking` its P.
#[derive(Clone, Copy)]
pub struct Member {
    pub seat: Seat,
    pub assigned: SlotSet,
    pub revoking: SlotSet,
}

impl Member {
    // The member at a seat, with the sets of its place.
    pub fn gathered(seat: Seat, assigned: SlotSet, revoking: SlotSet) -> Member
        ensures { result ≡ member_of seat assigned revoking }
    {
        Member {
            seat,
            assigned,
            revoking,
        }
    }

    // The seat that the member takes, without its sets.
    pub fn seat(self) -> Seat
        ensures { result ≡ seat_of self }
    {
        self.seat
    }

    // The member joins again: another epoch, subscription and timeout, no slots, and both ticks those of the join.
    pub fn rejoin(self, epoch: u32, subscription: u16, timeout: u32, tick: u32) -> Member
        ensures { result ≡ member_rejoined self epoch subscription timeout tick }
    {
        let none = SlotSet { words: [0; WORDS] };
        let seat = Seat::joined(self.seat.id, epoch, subscription, timeout, tick);
        Member::gathered(seat, none, none)
    }

    // P is freed; the tick at which it was set stays.
    pub fn free(self) -> Member
        ensures { result ≡ member_freed self }
    {
        let none = SlotSet { words: [0; WORDS] };
        let mut freed = self;
        freed.revoking = none;
        freed
    }

    // The strays move to P at a tick, and A keeps the rest.
    pub fn revoke(self, kept: SlotSet, strays: SlotSet, tick: u32) -> Member
        ensures { result ≡ member_revoked self kept strays tick }
    {
        let mut next = self;
        next.assigned = kept;
        next.revoking = strays;
        next.seat.revoked_at = tick;
        next
    }

    // The epoch becomes the larger of E and the target epoch, and A what is assigned now.
    pub fn advance(self, target_epoch: u32, assigned: SlotSet) -> Member
        ensures { result ≡ member_advanced self target_epoch assigned }
    {
        let mut next = self;
        next.seat.epoch = self.seat.epoch.max(target_epoch);
        next.assigned = assigned;
        next
    }

    // What a heartbeat stores.
    pub fn store(self, subscription: u16, timeout: u32) -> Member
        ensures { result ≡ member_stored self subscription timeout }
    {
        let mut stored = self;
        stored.seat.subscription = subscription;
        stored.seat.timeout = timeout;
        stored
    }

    // The member is heard at a tick.
    pub fn hear(self, tick: u32) -> Member
        ensures { result ≡ member_heard self tick }
    {
        let mut later = self;
        later.seat.heard = tick;
        later
    }
}
