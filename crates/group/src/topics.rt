// Topics by number, and what a topic event is tried for: row 1007, whether it changes anything, whether it raises the group epoch.
// With count 0 there is no topic of a number, and past the last number there is none.
ghost use Rattle.std.specs.Prelude.{◌≡◌, ◌==◌, not, ◌&&◌, slice_index, slice_index_or, slice_set};
ghost use Rattle.std.specs.List.{list_any, range_with_len};
ghost use Rattle.std.proofs.Math.Option.{none};
ghost use Rattle.rules.specs.Basics.{same};
ghost use Rattle.rules.specs.Constants.{topic_count};
ghost use Rattle.rules.specs.Group.{fresh};
ghost use Rattle.rules.specs.Refusals.{has_id, allows, topic_bad, topic_changes, topic_raises};
ghost use Rattle.group.specs.Topics.{id_at, topic_of};
ghost use Rattle.group.specs.View.{view, topics_in};

use crate::{Group, TOPIC_BYTES, ids};
use rules::{ID_LENGTH, Id, MAX_COUNT, TOPIC_END, TOPICS};

// With count 0 there is no topic of the number.
// As it is: the C interface, whose `struct pankvisolo_group` of include/pankvisolo.h has these arrays, `topic_ids` and `topic_counts`, for hosts to read.
#[repr(C)]
#[derive(Clone, Copy)]
pub struct Topics {
    pub ids: [u8; TOPIC_BYTES],
    pub counts: [u8; TOPICS],
}

impl Topics {
    // No topic.
    #[tactic(auto, unfolding(rules::specs::Group::fresh, rules::specs::Basics::up_to, crate::specs::View::view_topics, crate::specs::View::view_topic))]
    pub fn empty() -> Topics
        ensures { topics_in result ≡ (fresh 0).topics }
    {
        Topics {
            ids: [0; TOPIC_BYTES],
            counts: [0; TOPICS],
        }
    }

    // The topics become those of `empty`, where they lie.
    #[tactic(auto, unfolding(rules::specs::Group::fresh, rules::specs::Basics::up_to, crate::specs::View::view_topics, crate::specs::View::view_topic))]
    pub fn clear(&mut self)
        ensures { topics_in self.new ≡ (fresh 0).topics }
    {
        self.ids.fill(0);
        self.counts.fill(0);
    }

    // The count of a number.
    fn count_at(&self, number: u32) -> u8
        ensures { result ≡ slice_index self.now.counts number }
    {
        let n = number as usize;
        if n < TOPICS {
            return self.counts[n];
        }
        0
    }

    // Whether the ID of a number is this one.
    #[tactic(auto, using(crate::proofs::Bytes::same_is, crate::proofs::Bytes::past_id))]
    fn is_id_at(&self, number: u32, id: Id) -> bool
        ensures { result ≡ same (id_at self.now.ids number) id }
    {
        let n = number as usize;
        if TOPICS <= n {
            return false;
        }
        let from = n * ID_LENGTH;
        &self.ids[from..from + ID_LENGTH] == id.as_slice()
    }

    // Whether there is a topic of a number, with an ID.
    #[tactic(auto, using(crate::proofs::Numbering::topic_at), unfolding(rules::specs::Refusals::has_id, crate::specs::Topics::topic_of))]
    fn has_id(&self, number: u32, id: Id) -> bool
        ensures { result ≡ has_id id (slice_index_or (topics_in self.now) number none) }
    {
        self.count_at(number) != 0 && self.is_id_at(number, id)
    }

    // Whether a topic of another number has an ID.
    fn other_has_id(&self, number: u32, id: Id) -> bool
        ensures { result ≡ list_any (λ k. not (k == number) && has_id id (slice_index_or (topics_in self.now) k none)) (range_with_len 0 topic_count) }
    {
        (0..TOPIC_END).any(|i| i != number && self.has_id(i, id))
    }

    // Whether there is no topic of a number yet, or it has this ID and no higher count.
    #[tactic(auto, using(crate::proofs::Numbering::topic_at, crate::proofs::Numbering::own_number), unfolding(rules::specs::Refusals::allows, crate::specs::Topics::topic_of))]
    fn allows_count(&self, number: u32, id: Id, count: u32) -> bool
        ensures { result ≡ allows id count (slice_index_or (topics_in self.now) number none) }
    {
        let had = self.count_at(number);
        had == 0 || (self.is_id_at(number, id) && had as u32 <= count)
    }

    // The topic of a number is set; with count 0 there is none. A number past the last sets nothing.
    pub fn put(&mut self, number: u32, id: Id, count: u8)
        ensures { topics_in self.new ≡ slice_set (topics_in self.old) number (topic_of id count) }
    {
        let n = number as usize;
        if TOPICS <= n {
            return;
        }
        let from = n * ID_LENGTH;
        self.ids[from..from + ID_LENGTH].copy_from_slice(&id);
        self.counts[n] = count;
    }
}

impl Group {
    // Row 1007.
    #[tactic(auto, using(crate::proofs::Numbering::any_other), unfolding(rules::specs::Refusals::topic_bad, crate::specs::View::view))]
    pub fn is_bad_topic(&self, number: u32, id: Id, count: u32) -> bool
        ensures { result ≡ topic_bad (view self.now) number id count }
    {
        TOPIC_END <= number
            || count == 0
            || MAX_COUNT < count
            || ids::is_zero(id)
            || self.topics.other_has_id(number, id)
            || !self.topics.allows_count(number, id, count)
    }

    // Whether a topic is made, or its count is raised.
    #[tactic(auto, using(crate::proofs::Numbering::topic_at), unfolding(rules::specs::Refusals::topic_changes, rules::specs::Refusals::count_changes, crate::specs::Topics::topic_of, crate::specs::View::view))]
    pub fn topic_changes(&self, number: u32, count: u32) -> bool
        ensures { result ≡ topic_changes (view self.now) number count }
    {
        let had = self.topics.count_at(number);
        had == 0 || had as u32 != count
    }

    // Whether that raises the group epoch: some member subscribes to the topic.
    #[tactic(auto, unfolding(rules::specs::Refusals::topic_raises, crate::specs::View::view))]
    pub fn topic_raises(&self, number: u32, count: u32) -> bool
        ensures { result ≡ topic_raises (view self.now) number count }
    {
        self.topic_changes(number, count) && self.members.any_subscribes(number)
    }
}
