// The range assignor: a target from the group's own members. Each topic's partitions go to its subscribers in runs of neighbours, in rising order of the
// subscribers' IDs. The places are sorted once, by their IDs as numbers; each topic then takes one pass over them.
#![tactic(auto)]

ghost use Rattle.std.specs.Prelude.{◌≡◌, List, ℕ, suc, ◌≤◌, ◌<◌, min, ltb, length, replicate, if◌then◌else◌};
ghost use Rattle.rules.specs.Constants.{max_partitions, slot_count, topic_count};
ghost use Rattle.rules.specs.Group.{Group};
ghost use Rattle.rules.specs.Assignor.{padded, range_target, runs};
ghost use Rattle.numbers.specs.Buffer.{Wrote};
ghost use Rattle.group.specs.Columns.{view_members};
ghost use Rattle.group.specs.View.{view_topics};
ghost use Rattle.assignor.specs.Keys.{Places};
ghost use Rattle.assignor.specs.Shares.{among, all_entries, Lists};

mod keys; // keys.rt: the ID at each place as a number
mod order; // order.rt: the places in rising order of ID

use group::members::Members;
use group::topics::Topics;
use rules::{MEMBERS, NO_PLACE, PARTITIONS, SLOTS, TOPICS};

// Writes an entry so many times at the start of `out`, and returns how many.
fn put_times(out: &mut [u8], count: usize, entry: u8) -> usize
    requires { count ≤ length out.old }
    ensures { Wrote (replicate count entry) out.old out.new result }
{
    out[..count].fill(entry);
    count
}

// How many partitions go to the subscriber that comes after i others: the first get one more than the rest.
fn share_of(each: usize, more: usize, i: usize) -> usize
    requires { each ≤ max_partitions }
    ensures { result ≡ (if ltb i more then suc each else each) }
{
    if i < more {
        return each + 1;
    }
    each
}

// Writes the runs of n partitions over the subscribers, and returns how many entries they take.
fn put_runs(out: &mut [u8], subscribers: &[u8], n: usize) -> usize
    requires { (n ≤ max_partitions) × (n ≤ length out.old) }
    ensures { Wrote (runs n (length subscribers.now) 0 subscribers.now) out.old out.new result }
{
    let k = subscribers.len();
    if k == 0 {
        return 0;
    }
    let each = n / k;
    let more = n % k;
    let mut at: usize = 0;
    for (i, p) in subscribers.iter().enumerate() {
        at += put_times(&mut out[at..], share_of(each, more, i), *p);
    }
    at
}

// Writes the entries of a topic of n partitions, and returns how many: one for each partition that a topic may have.
fn put_topic(out: &mut [u8], subscribers: &[u8], n: usize) -> usize
    requires { (n ≤ max_partitions) × (max_partitions ≤ length out.old) }
    ensures { Wrote (padded (runs n (length subscribers.now) 0 subscribers.now)) out.old out.new result }
{
    let at = put_runs(out, subscribers, n);
    at + put_times(&mut out[at..], PARTITIONS - at, NO_PLACE)
}

// Lists those of the places that subscribe to a topic, in their order, and returns how many. Each is stored, and the next is stored over one that does not.
fn list_subscribers(
    list: &mut [u8; MEMBERS],
    order: &[u8; MEMBERS],
    subscriptions: &[u16; MEMBERS],
    topic: usize,
) -> usize
    requires { Places order.now × (topic < topic_count) }
    ensures { Lists (among order.now subscriptions.now topic) list.new result }
{
    let mut n: usize = 0;
    for p in order.iter() {
        list[n] = *p;
        n += ((subscriptions[*p as usize] >> topic) % 2) as usize;
    }
    n
}

// The partitions of a topic that are slots.
fn partitions_of(count: u8) -> usize
    ensures { result ≡ min count max_partitions }
{
    (count as usize).min(PARTITIONS)
}

// Writes the entries of all topics, one after another.
fn put_topics(
    out: &mut [u8],
    order: &[u8; MEMBERS],
    subscriptions: &[u16; MEMBERS],
    counts: &[u8; TOPICS],
)
    requires { Places order.now × (length out.old ≡ slot_count) }
    ensures { out.new ≡ all_entries order.now subscriptions.now counts.now }
{
    let mut list = [0u8; MEMBERS];
    let mut at: usize = 0;
    for (t, count) in counts.iter().enumerate() {
        let k = list_subscribers(&mut list, order, subscriptions, t);
        let n = partitions_of(*count);
        at += put_topic(&mut out[at..], &list[..k], n);
    }
}

// For each slot the place that it goes to, or 255 for none.
pub fn range_target(members: &Members, topics: &Topics, entries: &mut [u8; SLOTS])
    ensures { (g : Group) (ids : List ℕ) → g.topics ≡ view_topics ids topics.now.counts → g.members ≡ view_members members.now.cells → entries.new ≡ range_target g }
{
    let keys = keys::of(members);
    let order = order::sorted(&keys);
    let subscriptions = members.subscriptions();
    put_topics(entries, &order, &subscriptions, &topics.counts);
}
