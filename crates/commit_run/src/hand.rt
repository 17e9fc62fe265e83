use tree_walk::Walk;

/// What a commit has in hand.
#[derive(Drop)]
pub enum Hand {
    /// What it writes.
    Writes,
    /// The walk to the first of a long list of pending entries.
    First(Walk),
    /// The walk to the next change.
    Change(Walk),
}
