//! What a leaf has applied.

use db_base::ids::ClientId;

/// The records of a queue and client up to a number are applied.
#[derive(Clone, Copy, Debug, PartialEq, Eq)]
pub struct Done {
    /// 0 for the tree's queue, p for that of page p.
    pub queue: u64,
    /// The client whose records they are.
    pub client: ClientId,
    /// The number of the last record that is applied, at least 1.
    pub number: u64,
}
