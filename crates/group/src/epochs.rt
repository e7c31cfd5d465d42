// The group epoch and its largest value, 2,147,483,647. Inside the group an epoch is never negative; one that comes in may be.
ghost use Rattle.std.specs.Prelude.{◌≡◌, ◌&&◌, nat_le, if◌then◌else◌};
ghost use Rattle.rules.specs.Constants.{last_epoch};
ghost use Rattle.rules.specs.Group.{raised};
ghost use Rattle.rules.specs.Refusals.{is_epoch, kind_of};
ghost use Rattle.group.specs.Kinds.{view_kind};

use crate::Kind;
use rules::LAST_EPOCH;

// Whether a group epoch has its largest value.
pub fn at_end(epoch: u32) -> bool
    ensures { result ≡ nat_le last_epoch epoch }
{
    LAST_EPOCH <= epoch
}

// Row 1002: whether an epoch that is to rise cannot.
pub fn past_end(raises: bool, epoch: u32) -> bool
    ensures { result ≡ (raises && nat_le last_epoch epoch) }
{
    raises && at_end(epoch)
}

// The epoch one higher, or the same at the largest value.
#[tactic(auto, unfolding(rules::specs::Group::raised))]
pub fn raised_epoch(epoch: u32) -> u32
    ensures { result ≡ raised epoch }
{
    if epoch < LAST_EPOCH { epoch + 1 } else { epoch }
}

// The epoch raised if it is to rise, and the same otherwise.
pub fn epoch_after(epoch: u32, raises: bool) -> u32
    ensures { result ≡ (if raises then raised epoch else epoch) }
{
    if raises { raised_epoch(epoch) } else { epoch }
}

// Row 1004, the other way round: whether the epoch that came in is the group's.
#[tactic(auto, unfolding(rules::specs::Refusals::is_epoch))]
pub fn is_epoch(e: i32, epoch: u32) -> bool
    ensures { result ≡ is_epoch e epoch }
{
    0 <= e && e as u32 == epoch
}

// What the epoch of a heartbeat says: 0 joins, -1 leaves, above 0 is ordinary.
impl From<i32> for Kind {
    ghost from_gives = { λ e kind. view_kind kind ≡ kind_of e };

    #[tactic(auto, unfolding(rules::specs::Refusals::kind_of, crate::specs::Kinds::view_kind))]
    fn from(e: i32) -> Kind {
        match e {
            0 => Kind::Joins,
            -1 => Kind::Leaves,
            1.. => Kind::Ordinary(e as u32),
            _ => Kind::Invalid,
        }
    }
}
