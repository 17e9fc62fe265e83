use crate::spelled::NodeBytes;
use db_base::blob::Blob;
use db_base::ids::PageId;
use std::alloc::{AllocError, Global};
use std::marker::Model;

/// An inner node that was got: where it stands, and its bytes.
pub struct KeptNode {
    /// Its page.
    pub page: PageId,
    /// Its level above the leaves, from 1.
    pub level: u8,
    /// Its low key.
    pub low: Blob,
    /// The bytes that were got.
    pub bytes: NodeBytes,
}

impl Drop for KeptNode {
    fn drop(self) {
        let KeptNode {
            page: _,
            level: _,
            low: _,
            bytes: _,
        } = self;
    }
}

/// Inner nodes that were got, by level and then by low key. Seen as the list of them.
pub struct KeptList {
    nodes: Vec<KeptNode>,
}

impl Drop for KeptList {
    fn drop(self) {
        let KeptList { nodes: _ } = self;
    }
}

impl Model for KeptList {
    ghost use Rattle.std.specs.Prelude.{List};
    ghost use Rattle.tree_phases.specs.declared.kept.KeptNode.{KeptNode};

    ghost Value = { List KeptNode };

    ghost view = { λ l. l.nodes.items };
}

impl KeptList {
    ghost use Rattle.std.specs.Prelude.{◌≡◌, [], ◌==◌, find, drop, length, slice_get, OnOk, OnErr};
    ghost use Rattle.std.specs.Option.{option_copied};
    ghost use Rattle.tree_phases.specs.Kept.{with_kept};

    /// No node. Takes no memory.
    pub fn new(alloc: Global) -> KeptList
        ensures { result ≡ [] }
    {
        KeptList {
            nodes: Vec::new(alloc),
        }
    }

    /// The node of a page, where it was got.
    pub fn find(&self, page: PageId) -> Option<&KeptNode>
        ensures { option_copied result ≡ find (λ n. n.page == page) self.now }
    {
        self.nodes.iter().find(|node| node.page.get() == page.get())
    }

    /// The node at a place, from 0.
    pub fn at(&self, place: usize) -> Option<&KeptNode>
        ensures { option_copied result ≡ slice_get self.now place }
    {
        self.nodes.as_slice().get(place)
    }

    /// How many nodes.
    pub fn len(&self) -> usize
        ensures { result ≡ length self.now }
    {
        self.nodes.len()
    }

    /// The nodes.
    pub fn as_slice(&self) -> &[KeptNode]
        ensures { result.now ≡ self.now }
    {
        self.nodes.as_slice()
    }

    /// Adds a node in its place, by level and then by low key. Where memory runs out nothing changes.
    pub fn insert(&mut self, node: KeptNode) -> Result<(), AllocError>
        ensures ok { OnOk result (self.new ≡ with_kept node self.old) }
        ensures err { OnErr result (self.new ≡ self.old) }
    {
        let place = place_of(self.nodes.as_slice(), &node);
        match self.nodes.insert(place, node) {
            Ok(()) => Ok(()),
            Err(_) => Err(AllocError),
        }
    }

    /// Leaves the first node out, where there is one. Takes no memory.
    pub fn drop_first(&mut self)
        ensures { self.new ≡ drop 1 self.old }
    {
        if !self.nodes.as_slice().is_empty() {
            let _first = self.nodes.remove(0);
        }
    }
}

ghost use Rattle.std.specs.Prelude.{◌≡◌, ◌≤◌, length};
ghost use Rattle.tree_phases.specs.Kept.{stands_before, place_of};

use byte_format::is_below;

/// Whether a node stands before another, by level and then by low key.
fn stands_before(node: &KeptNode, other: &KeptNode) -> bool
    ensures { result ≡ stands_before node.now other.now }
{
    node.level < other.level
        || (node.level == other.level && is_below(node.low.as_slice(), other.low.as_slice()))
}

/// How many of the nodes stand before the new one.
fn place_of(nodes: &[KeptNode], node: &KeptNode) -> usize
    ensures place { result ≡ place_of node.now nodes.now }
    ensures within { result ≤ length nodes.now }
{
    let mut place = 0;
    let mut left = nodes;
    while let Some((other, rest)) = left.split_first() {
        if stands_before(node, other) {
            return place;
        }
        place += 1;
        left = rest;
    }
    place
}
