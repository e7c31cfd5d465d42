// The list of the first row 42 of an ordinary heartbeat: it is looked at last, since the quick path needs no look at it.
ghost use Rattle.std.specs.Prelude.{◌≡◌, [], if◌then◌else◌};
ghost use Rattle.rules.specs.Basics.{default};
ghost use Rattle.rules.specs.Refusals.{bad_list};
ghost use Rattle.tables.specs.Advances.{listed};

use group::requests;
use rules::Refusal;

// Whether a list is given that is no set of slots.
#[tactic(auto, unfolding(rules::specs::Refusals::bad_list, rules::specs::Refusals::is_slot_set))]
pub fn lists_badly(owned: Option<&[u16]>) -> bool
    ensures { result ≡ bad_list (default [] (listed owned.entry)) }
{
    match owned {
        Some(list) => requests::is_bad_list(list),
        None => false,
    }
}

// What a row below the first row 42 refuses with: a bad list comes before.
pub fn after_list(owned: Option<&[u16]>, why: Refusal) -> Refusal
    ensures { result ≡ (if bad_list (default [] (listed owned.entry)) then Refusal.InvalidRequest else why) }
{
    if lists_badly(owned) {
        return Refusal::InvalidRequest;
    }
    why
}
