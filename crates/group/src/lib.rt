// The group as it lies in memory: numbers and arrays of numbers alone. What it stands for is `view` of specs/, and every value of it stands for a group of the rules.
#![tactic(auto)]

ghost use Rattle.std.specs.Prelude.{◌≡◌};
ghost use Rattle.rules.specs.Group.{fresh};
ghost use Rattle.group.specs.View.{view};

use members::Members;
use rules::{ID_LENGTH, Id, TOPICS};
use tables::Tables;
use topics::Topics;

pub mod entries; // entries.rt: the entries of an install, tried against topics and members
pub mod epochs; // epochs.rt: group epochs and their largest value
pub mod ids; // ids.rt: the zero ID
pub mod member; // member.rt: the member of 01 with its sets, and its transitions
pub mod members; // members.rt: members in columns; a seat gathered at a place and put back
pub mod requests; // requests.rt: the timeout and the list of a heartbeat
pub mod subscribers; // subscribers.rt: tests over the columns: who subscribes, and whom a sweep removes
pub mod ticks; // ticks.rt: elapsed time
pub mod topics; // topics.rt: topics and row 1007
pub mod words; // words.rt: an ID as four words, as the columns have it

// How many subscriptions there are: sets of topics.
pub const SUBSCRIPTIONS: u32 = 1 << TOPICS;

// The bytes of the topics' IDs, one ID after another.
pub const TOPIC_BYTES: usize = TOPICS * ID_LENGTH;

// The group epoch, the target epoch and the last tick.
#[repr(C)]
#[derive(Clone, Copy)]
pub struct Head {
    pub epoch: u32,
    pub target_epoch: u32,
    pub tick: u32,
}

#[repr(C)]
#[derive(Clone, Copy)]
pub struct Group {
    pub head: Head,
    pub members: Members,
    pub topics: Topics,
    pub tables: Tables,
}

// A member at a place, without its slots, which stand in the tables.
#[derive(Clone, Copy)]
pub struct Seat {
    pub id: Id,
    pub epoch: u32,
    pub subscription: u16,
    pub timeout: u32,
    pub heard: u32,
    pub revoked_at: u32,
}

// What a heartbeat with some epoch asks for.
#[derive(Clone, Copy)]
pub enum Kind {
    Joins,
    Leaves,
    Invalid,
    Ordinary(u32),
}

// A group with no topics and no members, made at a tick.
#[tactic(auto, unfolding(rules::specs::Group::fresh, crate::specs::View::view))]
pub fn fresh(tick: u32) -> Group
    ensures { view result ≡ fresh tick }
{
    Group {
        head: Head {
            epoch: 0,
            target_epoch: 0,
            tick: tick,
        },
        members: Members::empty(),
        topics: Topics::empty(),
        tables: Tables::empty(),
    }
}

impl Group {
    ghost use Rattle.std.specs.Prelude.{◌≡◌};
    ghost use Rattle.rules.specs.Group.{fresh};
    ghost use Rattle.group.specs.View.{view};

    // The group becomes the one that `fresh` makes, where it lies: a second one would take stack.
    #[tactic(auto, unfolding(rules::specs::Group::fresh, crate::specs::View::view))]
    pub fn renew(&mut self, tick: u32)
        ensures { view self.new ≡ fresh tick }
    {
        self.head = Head {
            epoch: 0,
            target_epoch: 0,
            tick,
        };
        self.members.clear();
        self.topics.clear();
        self.tables.clear();
    }
}
