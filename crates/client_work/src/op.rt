use db_base::attr::Attr;
use db_base::ids::{ClientId, PageId, TreeId};
use db_base::key::Key;

/// An operation that a session can begin.
#[derive(Drop)]
pub enum Op {
    /// Opens a client.
    Open(ClientId),
    /// Closes the client.
    Close,
    /// Renews the client's lease.
    Renew,
    /// Commits the noted changes.
    Commit,
    /// Reads a record of a tree.
    Read(TreeId, Key),
    /// Scans the records of a tree from a key on, or from its left end, and below a key, or to its right end.
    Scan(TreeId, Option<Key>, Option<Key>),
    /// Looks up the records of a tree that have an attribute, through the tree's index.
    Lookup(TreeId, Attr),
    /// Checkpoints a page of a tree.
    Page(TreeId, PageId),
    /// Checkpoints a tree.
    Tree(TreeId),
}
