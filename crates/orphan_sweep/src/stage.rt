/// Where a sweep stands.
#[derive(Clone, Copy, Debug, PartialEq, Eq)]
pub enum Stage {
    /// The tree's lease is taken next.
    TakingTree,
    /// The tree object is read next.
    GettingTree,
    /// A page is read next.
    Reading,
    /// The tree's pages are listed next.
    Listing,
    /// An orphan is removed next.
    Removing,
    /// The lease is given back next, and the sweep ends or stops with it.
    Releasing,
    /// No call is left.
    Finished,
}
