use crate::blob::Blob;
use crate::ids::PageId;
use crate::names::{Lock, Place};

/// A counter that can stand at its last value.
#[derive(Clone, Copy, Debug, PartialEq, Eq)]
pub enum Counter {
    /// A client's epoch.
    Epoch,
    /// A client's transaction number.
    Txn,
    /// The number of a record in its queue.
    Number,
    /// The version of an object.
    Version,
    /// The next free page of a tree.
    Pages,
}

/// Why an operation stopped.
#[derive(Debug, Drop)]
pub enum Trouble {
    /// A service call failed.
    Failed,
    /// A named lease was over: its end and the clock, in ticks.
    Late {
        end: u64,
        now: u64,
    },
    /// A lock was held, until a moment in ticks.
    Busy {
        lock: Lock,
        until: u64,
    },
    /// Records of an open commit were not received: how many are there, and how many it has.
    Waiting {
        have: u64,
        need: u64,
    },
    /// A page was absent (got 0) or older than this session has seen: versions.
    Stale {
        page: PageId,
        least: u64,
        got: u64,
    },
    /// A held read of a page above 1 found none.
    Absent {
        page: PageId,
    },
    /// The page that the caller named is an inner node.
    NotALeaf {
        page: PageId,
    },
    /// Bytes are in no spelling; the offset in bytes.
    Damaged {
        place: Place,
        offset: u64,
    },
    /// A low key differs from what led to it.
    BadFence {
        page: PageId,
        expected: Blob,
        found: Blob,
    },
    /// A walk came to a page that it had visited.
    Loop {
        page: PageId,
    },
    /// The counter stands at its last value or would have to pass it.
    Exhausted {
        what: Counter,
    },
    /// Memory ran out.
    Memory,
}

/// How a commit ended.
#[derive(Debug, Drop)]
pub enum CommitAnswer {
    /// It is committed under this transaction number; 0 for an empty one.
    Committed { txn: u64 },
    /// It is not committed.
    NotCommitted(Trouble),
    /// The put that commits failed, and may have landed.
    InDoubt,
    /// It is committed, and its records may not all be in their queues.
    CommittedOpen(Trouble),
}
