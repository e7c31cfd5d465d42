// The heartbeat that the records of a batch can only be of, as data: with a record 5 a join or an ordinary heartbeat, with a record 8 alone an ordinary one.
ghost use Rattle.std.specs.Prelude.{◌≡◌, get_or};
ghost use Rattle.std.proofs.Math.Option.{Option, none, some};
ghost use Rattle.rules.specs.Batches.{is_join, joining};
ghost use Rattle.rules.specs.Records.{CurrentAssignment};
ghost use Rattle.group.specs.Columns.{view_members};
ghost use Rattle.group.specs.View.{seated, view_seat};
ghost use Rattle.batches.specs.Gathered.{current_as, epoch_as, standing};
ghost use Rattle.judging.specs.Asks.{Asks, AsksFor, Gives, beating_as, metadata_as, timeout_given};

use batches::Gathered;
use events::Request;
use group::Seat;
use group::members::Members;
use reading::Member;
use rules::Place;

// Whether a record 8 has the epoch of a record 3: then its member has joined.
fn is_join(said: Gathered) -> bool
    ensures { (c : Option CurrentAssignment) → current_as said ≡ standing c → result ≡ is_join (epoch_as said) c }
{
    match (said.epoch, said.current) {
        (Some(raised), Some((_, epoch))) => raised == epoch,
        _ => false,
    }
}

// A join with an empty list of owned slots, if its numbers fit.
fn join(m: Member, tick: u32) -> Option<Request>
    ensures { Asks result (some (joining tick (metadata_as m))) }
{
    let timeout = i32::try_from(m.timeout).ok()?;
    let subscription = u16::try_from(m.subscription).ok()?;
    let id = m.id;
    Some(Request {
        id,
        epoch: 0,
        tick,
        timeout,
        has_subscription: true,
        subscription,
        has_list: true,
    })
}

// What a seat's member says: with an empty list of owned slots if it `moves`, that is with a record 8, or without one.
#[derive(Clone, Copy)]
struct Beat {
    seat: Seat,
    timeout: u32,
    subscription: u32,
    moves: bool,
}

impl Beat {
    // The timeout that it gives, -1 if it is the member's own, if that fits.
    fn given_timeout(self) -> Option<i32>
        ensures { Gives (timeout_given self.timeout self.seat.timeout) result }
    {
        if self.timeout == self.seat.timeout {
            return Some(-1);
        }
        i32::try_from(self.timeout).ok()
    }

    // Its heartbeat, with what is new to the member, if its numbers fit.
    fn request(self, tick: u32) -> Option<Request>
        ensures { Asks result (some (beating_as tick (seated self.seat) self.timeout self.subscription self.moves)) }
    {
        let seat = self.seat;
        let epoch = i32::try_from(seat.epoch).ok()?;
        let timeout = self.given_timeout()?;
        let subscription = u16::try_from(self.subscription).ok()?;
        let id = seat.id;
        Some(Request {
            id,
            epoch,
            tick,
            timeout,
            has_subscription: subscription != seat.subscription,
            subscription,
            has_list: self.moves,
        })
    }
}

// The seat at a place of a record.
fn seat_of(members: &Members, place: u32) -> Option<Seat>
    ensures { view_seat result ≡ get_or (view_members members.now.cells) place none }
{
    members.seat_at(Place::try_from(place).ok()?)
}

// The heartbeat that the records say, if its numbers fit; records without a 5 and an 8 are of none.
pub fn ask(members: &Members, said: Gathered, tick: u32) -> Option<Request>
    ensures { AsksFor result members.now.cells said tick }
{
    if let Some(m) = said.member {
        if is_join(said) {
            return join(m, tick);
        }
        let seat = seat_of(members, m.place)?;
        let beat = Beat {
            seat,
            timeout: m.timeout,
            subscription: m.subscription,
            moves: said.current.is_some(),
        };
        return beat.request(tick);
    }
    let (place, _) = said.current?;
    let seat = seat_of(members, place)?;
    let beat = Beat {
        seat,
        timeout: seat.timeout,
        subscription: seat.subscription as u32,
        moves: true,
    };
    beat.request(tick)
}
