pub use crate::pending_list::PendingList;
use db_base::change::Change;
use db_base::ids::TreeId;
use db_base::sequence::Sequence;

/// The last number that a client used in a queue.
#[derive(Clone, Copy, Debug, PartialEq, Eq)]
pub struct QueueCount {
    /// The tree of the queue.
    pub tree: TreeId,
    /// The leaf of the queue, 0 for the tree queue.
    pub page: u64,
    /// The last number, at least 1.
    pub number: u64,
}

/// A committed record that its client does not know applied.
#[derive(Debug)]
pub struct Pending {
    /// The tree of the record's queue.
    pub tree: TreeId,
    /// The leaf of the queue, 0 for the tree queue.
    pub page: u64,
    /// The number of the record in the queue, at least 1.
    pub number: u64,
    /// What it changes.
    pub change: Change,
}

impl Drop for Pending {
    fn drop(self) {
        let Pending {
            tree: _,
            page: _,
            number: _,
            change: _,
        } = self;
    }
}

/// The counters of a head, ascending by tree and page.
pub type CounterList = Sequence<QueueCount>;
