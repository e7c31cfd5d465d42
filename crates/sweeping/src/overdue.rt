// Which places a sweep removes, as a mark for each place. Mostly no slot waits to be given back: one pass without branches says so, and then a second one over
// the columns says who was not heard of in time.
ghost use Rattle.std.specs.Prelude.{◌≡◌, false, not, ◌&&◌, nat_le};
ghost use Rattle.std.specs.List.{list_any};
ghost use Rattle.rules.specs.Constants.{session_timeout};
ghost use Rattle.rules.specs.Group.{elapsed};
ghost use Rattle.tables.specs.View.{slots_in};
ghost use Rattle.group.specs.Columns.{view_members};
ghost use Rattle.group.specs.Words.{all_zero};
ghost use Rattle.sweeping.specs.Marks.{mark, MarksDue, MarksRevoking, MarksOverdue};

use group::members::{HEARD, Members};
use group::{ticks, words};
use rules::{MEMBERS, Place, SESSION_TIMEOUT, SLOTS};
use search::{FOURTH, SECOND, THIRD, Words};
use tables::Tables;

// Whether some slot waits to be given back. Without a branch in the loop.
fn any_waits(waiting: &[bool; SLOTS]) -> bool
    ensures { result ≡ list_any (λ w. w) waiting.now }
{
    waiting.iter().fold(false, |some, waits| some | *waits)
}

// The places that hold some slot which they are to give back, slot by slot.
fn revoking_places(tables: &Tables) -> [bool; MEMBERS]
    ensures { MarksRevoking (slots_in tables.now) result }
{
    let mut marks = [false; MEMBERS];
    for (s, waits) in tables.waiting.iter().enumerate() {
        if *waits {
            let p = tables.holder[s] as usize;
            if p < MEMBERS {
                marks[p] = true;
            }
        }
    }
    marks
}

// The places whose members are due at a tick, by the marks of those with slots to give back.
fn due_places(members: &Members, revoking: &[bool; MEMBERS], tick: u32) -> [bool; MEMBERS]
    ensures { MarksDue (view_members members.now.cells) (mark revoking.now) tick result }
{
    let mut gone = [false; MEMBERS];
    for (p, goes) in gone.iter_mut().enumerate() {
        *goes = members.is_due(Place(p as u8), revoking[p], tick);
    }
    gone
}

// Whether words and a last tick are those of a member that was not heard for the session timeout.
fn is_silent(w: Words, heard: u32, tick: u32) -> bool
    ensures { result ≡ (nat_le session_timeout (elapsed tick heard) && not (all_zero w.a w.b w.c w.d)) }
{
    (SESSION_TIMEOUT <= ticks::elapsed(tick, heard)) & !words::all_zero(w)
}

// The places whose members are due at a tick where no slot waits to be given back. Without a branch in the loop.
fn silent_places(members: &Members, tick: u32) -> [bool; MEMBERS]
    ensures { MarksDue (view_members members.now.cells) (λ p. false) tick result }
{
    let mut gone = [false; MEMBERS];
    for (p, goes) in gone.iter_mut().enumerate() {
        let w = Words {
            a: members.cells[p],
            b: members.cells[p + SECOND],
            c: members.cells[p + THIRD],
            d: members.cells[p + FOURTH],
        };
        *goes = is_silent(w, members.cells[p + HEARD], tick);
    }
    gone
}

// The places that a sweep at a tick removes.
pub fn overdue_places(members: &Members, tables: &Tables, tick: u32) -> [bool; MEMBERS]
    ensures { MarksOverdue (view_members members.now.cells) (slots_in tables.now) tick result }
{
    if any_waits(&tables.waiting) {
        let revoking = revoking_places(tables);
        return due_places(members, &revoking, tick);
    }
    silent_places(members, tick)
}
