ghost use Rattle.std.specs.Prelude.{◌≡◌, find};
ghost use Rattle.std.specs.Option.{option_copied};
ghost use Rattle.head_codec.specs.Slot.{slot_of};
ghost use Rattle.route_plan.specs.Queue.{first_queue, is_counter_of, is_pending_of, last_pending, number_of_queue, queue_name};

use db_base::change::Change;
use db_base::ids::{PageId, TreeId};
use db_base::names::QueueName;
use head_codec::entry::Entry;
use head_codec::lists::QueueCount;
use head_codec::slot::slot_of;

/// The counter of a queue. The page is 0 for the tree queue.
fn find_counter(counters: &[QueueCount], tree: TreeId, page: u64) -> Option<&QueueCount>
    ensures { option_copied result ≡ find (is_counter_of tree page) counters.now }
{
    counters.iter().find(|counter| counter.tree.get() == tree.get() && counter.page == page)
}

/// The last number that was used in a queue, 0 where none was. The page is 0 for the tree queue.
pub fn number_of_queue(counters: &[QueueCount], tree: TreeId, page: u64) -> u64
    ensures { result ≡ number_of_queue counters.now tree page }
{
    match find_counter(counters, tree, page) {
        Some(counter) => counter.number,
        None => 0,
    }
}

/// Whether an entry is of a tree and of the key of this slot. The bytes of keys of other slots are not looked at.
pub(crate) fn is_of(entry: &Entry, tree: TreeId, key: &[u8], slot: usize) -> bool
    requires { slot ≡ slot_of key.now }
    ensures { result ≡ is_pending_of tree key.now entry.now }
{
    if entry.slot() != slot {
        return false;
    }
    let entry = entry.get();
    entry.tree.get() == tree.get() && entry.change.key().as_slice() == key
}

/// The last pending entry of a tree and key.
pub(crate) fn last_pending<'a>(pending: &'a [Entry], tree: TreeId, key: &[u8]) -> Option<&'a Entry>
    ensures { option_copied result ≡ last_pending pending.now tree key.now }
{
    let slot = slot_of(key);
    pending
        .iter()
        .rev()
        .find(|entry| is_of(entry, tree, key, slot))
}

/// The page of the queue of a change whose key has no pending entry.
pub(crate) fn first_queue(change: &Change, leaf: PageId) -> u64
    ensures { result ≡ first_queue change.now leaf }
{
    if change.goes_to_leaf() { leaf.get() } else { 0 }
}

/// The name of the queue of a page, and for page 0 of the tree's queue.
pub fn queue_name(tree: TreeId, page: u64) -> QueueName
    ensures { result ≡ queue_name tree page }
{
    match PageId::new(page) {
        Ok(page) => QueueName::PagePu(tree, page),
        Err(_) => QueueName::TreePu(tree),
    }
}
