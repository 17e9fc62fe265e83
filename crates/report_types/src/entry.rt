use db_base::change::Change;
use db_base::ids::{ClientId, TreeId};

/// A change that a transaction committed, or that was applied to a page.
pub struct Entry {
    /// The client that committed it.
    pub client: ClientId,
    /// The epoch in which it was committed.
    pub epoch: u64,
    /// The transaction of that epoch.
    pub txn: u64,
    /// The tree of the record.
    pub tree: TreeId,
    /// The change.
    pub change: Change,
}

impl Drop for Entry {
    fn drop(self) {
        let Entry {
            client: _,
            epoch: _,
            txn: _,
            tree: _,
            change: _,
        } = self;
    }
}
