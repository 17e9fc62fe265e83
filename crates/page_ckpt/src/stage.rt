/// Where a page checkpoint stands.
#[derive(Clone, Copy, Debug, PartialEq, Eq)]
pub enum Stage {
    /// The page's lease is taken next.
    TakingHome,
    /// The page is read next.
    GettingHome,
    /// The page's queue is received from next.
    Receiving,
    /// The lease of a right page is taken next.
    TakingRight,
    /// The right page is read next.
    GettingRight,
    /// The right page is put next.
    PuttingRight,
    /// The right page's lease is given back next.
    ReleasingRight,
    /// The page is put next.
    PuttingHome,
    /// A message is deleted next.
    Deleting,
    /// The newest lease is given back next, and the checkpoint ends or stops with the last one.
    Releasing,
    /// No call is left.
    Finished,
}
