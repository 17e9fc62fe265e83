use crate::ids::{ClientId, MsgId, PageId, TreeId};

/// What a lease locks.
#[derive(Clone, Copy, Debug, PartialEq, Eq, PartialOrd, Ord, Hash)]
pub enum Lock {
    /// A client's head.
    Client(ClientId),
    /// A tree's root.
    Tree(TreeId),
    /// A leaf.
    Page(TreeId, PageId),
}

/// An object of the store.
#[derive(Clone, Copy, Debug, PartialEq, Eq, PartialOrd, Ord, Hash)]
pub enum ObjName {
    /// The head of a client.
    Head(ClientId),
    /// The root of a tree.
    Tree(TreeId),
    /// A leaf or an inner node of a tree.
    Page(TreeId, PageId),
}

/// A queue.
#[derive(Clone, Copy, Debug, PartialEq, Eq, PartialOrd, Ord, Hash)]
pub enum QueueName {
    /// The ATOMIC queue of a client.
    Atomic(ClientId),
    /// The pending update queue of a tree.
    TreePu(TreeId),
    /// The pending update queue of a leaf.
    PagePu(TreeId, PageId),
}

/// Where damaged bytes were found.
#[derive(Clone, Copy, Debug, PartialEq, Eq, PartialOrd, Ord, Hash)]
pub enum Place {
    /// An object.
    Object(ObjName),
    /// A message of a queue.
    Message(QueueName, MsgId),
}
