use crate::entry_log::EntryLog;
use crate::stored_list::StoredList;
use db_base::ids::TreeId;

/// What is committed, applied and left in a tree.
pub struct Report {
    /// The tree.
    pub tree: TreeId,
    /// What is committed, in the order of commit.
    pub committed: EntryLog,
    /// What is applied to pages, in the order of application.
    pub order: EntryLog,
    /// The records of its leaves, in the order of their keys.
    pub contents: StoredList,
    /// How many heads are open with a committed entry of this tree.
    pub heads: u64,
    /// How many messages of its queues are not deleted.
    pub messages: u64,
}

impl Drop for Report {
    fn drop(self) {
        let Report {
            tree: _,
            committed: _,
            order: _,
            contents: _,
            heads: _,
            messages: _,
        } = self;
    }
}
