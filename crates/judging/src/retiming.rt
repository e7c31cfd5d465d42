// The tick of reading for every tick of a group, and the ticks for which a sweep removes the places that are gone.
ghost use Rattle.std.specs.Prelude.{◌≡◌, List, map, ℕ};
ghost use Rattle.rules.specs.Batches.{retimed, retimed_member, session_before, silent};
ghost use Rattle.group.specs.Columns.{view_members};
ghost use Rattle.group.specs.View.{view};
ghost use Rattle.batches.specs.Gathered.{Marks};

use group::members::{HEARD, Members, REVOKED_AT};
use group::{Group, ticks};
use rules::{MEMBERS, Place, SESSION_TIMEOUT};

// Two columns of ticks.
fn retime_members(members: &mut Members, tick: u32)
    ensures { view_members members.new.cells ≡ map (retimed_member tick) (view_members members.old.cells) }
{
    for p in 0..MEMBERS {
        members.cells[p + HEARD] = tick;
        members.cells[p + REVOKED_AT] = tick;
    }
}

// A tick for every tick of a group.
pub fn retime(group: &mut Group, tick: u32)
    ensures { (view group.new ≡ retimed tick (view group.old)) × (group.new.topics ≡ group.old.topics) × (group.new.tables ≡ group.old.tables) }
{
    retime_members(&mut group.members, tick);
    group.head.tick = tick;
}

// The members at the places that are gone last heard a session timeout before a tick, so that a sweep removes them.
pub fn silence(members: &mut Members, gone: &[bool; MEMBERS], tick: u32)
    ensures { (ps : List ℕ) → Marks gone.now ps → view_members members.new.cells ≡ silent (session_before tick) ps 0 (view_members members.old.cells) }
{
    let since = ticks::elapsed(tick, SESSION_TIMEOUT);
    for p in 0..MEMBERS {
        if gone[p] {
            members.hear(Place(p as u8), since);
        }
    }
}
