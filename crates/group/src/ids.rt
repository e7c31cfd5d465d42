// IDs of members and topics: sixteen bytes, never all zero.
ghost use Rattle.std.specs.Prelude.{◌≡◌};
ghost use Rattle.rules.specs.Refusals.{zero_id};

use rules::Id;

// Whether an ID is all zero, which no member or topic may have.
pub fn is_zero(id: Id) -> bool
    ensures { result ≡ zero_id id }
{
    id.iter().all(|byte| *byte == 0)
}
