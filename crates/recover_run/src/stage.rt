/// What a recovery is for.
#[derive(Clone, Copy, Debug, PartialEq, Eq)]
pub enum Aim {
    /// A session opens the client: at its end it holds the client's lease.
    Opening,
    /// The client is left settled, and its lease is given back.
    Settling,
}

/// Where a recovery stands.
#[derive(Clone, Copy, Debug, PartialEq, Eq)]
pub enum Stage {
    /// The lease that was handed in is given back next.
    ReleasingOld,
    /// The client's lease is taken next.
    Taking,
    /// The head is read next.
    Getting,
    /// Records of the open head are received next.
    Receiving,
    /// A lost record is deleted next.
    Deleting,
    /// A kept record is sent on next.
    Sending,
    /// The head of the next epoch is put next.
    Putting,
    /// A message of a past epoch is deleted next.
    Clearing,
    /// Messages of past epochs are received next.
    Sweeping,
    /// The client's lease is given back next, and the recovery ends or stops.
    Releasing,
    /// No call is left.
    Finished,
}

/// How a recovery ends.
#[derive(Clone, Copy, Debug, PartialEq, Eq)]
pub enum RecoverAnswer {
    /// The client is settled in this epoch, and an opening has opened it.
    Opened { epoch: u64 },
    /// The client has no head, so a settling has nothing to do.
    Nothing,
}
