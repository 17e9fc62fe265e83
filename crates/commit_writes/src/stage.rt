use head_codec::head::Phase;
use head_codec::lists::QueueCount;

/// Where a commit stands with what it writes.
#[derive(Clone, Copy, Debug, PartialEq, Eq)]
pub enum Stage {
    /// Nothing is written yet.
    Waiting,
    /// A record is sent to the ATOMIC queue next.
    Logging,
    /// The head that commits is put next.
    Opening,
    /// A record is sent to its pending update queue next.
    Sending,
    /// The head that settles is put next.
    Settling,
    /// An ATOMIC message is deleted next.
    Deleting,
    /// No call is left.
    Finished,
}

/// What the put that commits changes in a head.
pub(crate) struct Saved {
    pub(crate) txn: u64,
    pub(crate) phase: Phase,
    pub(crate) counters: Vec<QueueCount>,
}

impl Drop for Saved {
    fn drop(self) {
        let Saved {
            txn: _,
            phase: _,
            counters: _,
        } = self;
    }
}
