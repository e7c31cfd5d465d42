// Whether a list is a set of slots: strictly rising, and its last entry a slot. It steps over eight entries at a time by a test without branches.
ghost use Rattle.std.specs.Prelude.{◌≡◌, ◌+◌, ◌-◌, ◌<◌, length};
ghost use Rattle.rules.specs.Refusals.{is_slot_set};
ghost use Rattle.search.specs.Rising.{stride, TellsRising};

use rules::SLOT_END;

// How many entries are held to the one before them at a time.
const STRIDE: usize = 8;

// Whether each entry of a stride is above the one before it; the stride begins after entry `from`.
fn rises_from(list: &[u16], from: usize) -> bool
    requires { from + stride < length list.now }
    ensures { TellsRising list.now from (from + stride) result }
{
    let mut rises = true;
    for i in 0..STRIDE {
        let here = from + i;
        rises = rises & (list[here] < list[here + 1]);
    }
    rises
}

// Whether each entry of a list is above the one before it, entry by entry.
fn rises_by_one(list: &[u16]) -> bool
    requires { 0 < length list.now }
    ensures { TellsRising list.now 0 (length list.now - 1) result }
{
    for here in 1..list.len() {
        if list[here] <= list[here - 1] {
            return false;
        }
    }
    true
}

// Whether each entry of a list is above the one before it. The last stride ends with the list, and may overlap the one before.
fn rises(list: &[u16]) -> bool
    requires { 0 < length list.now }
    ensures { TellsRising list.now 0 (length list.now - 1) result }
{
    let last = list.len() - 1;
    if last < STRIDE {
        return rises_by_one(list);
    }
    for stride in 0..(last - 1) / STRIDE {
        if !rises_from(list, stride * STRIDE) {
            return false;
        }
    }
    rises_from(list, last - STRIDE)
}

// Whether a list is strictly rising and has no number above 1,023.
pub fn is_slot_set(list: &[u16]) -> bool
    ensures { result ≡ is_slot_set list.now }
{
    match list.last() {
        Some(last) => rises(list) && *last < SLOT_END,
        None => true,
    }
}
