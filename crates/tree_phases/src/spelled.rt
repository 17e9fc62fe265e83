//! Bytes that were found to spell an object, so that they are not looked through again.

use db_base::blob::Blob;
use node_codec::{InnerView, NotTree, TreeView};
use std::marker::Model;

/// The bytes of an inner node, seen as the list of them.
pub struct NodeBytes {
    bytes: Blob,
}

impl Drop for NodeBytes {
    fn drop(self) {
        let NodeBytes { bytes: _ } = self;
    }
}

impl Model for NodeBytes {
    ghost use Rattle.std.specs.Prelude.{List, ℕ};
    ghost use Rattle.node_codec.specs.Inner.{Inner, IsInner};

    ghost Value = { List ℕ };

    ghost view = { λ b. b.bytes };

    ghost invariant = { λ b. (n : Inner) × IsInner b.bytes n };
}

impl NodeBytes {
    ghost use Rattle.std.specs.Prelude.{◌≡◌, ℕ, Ok};
    ghost use Rattle.node_codec.specs.Inner.{Inner, IsInner};
    ghost use Rattle.tree_phases.specs.Read.{inner_read};

    /// The bytes of a node that was read.
    pub(crate) fn of(bytes: Blob) -> NodeBytes
        requires { (n : Inner) × IsInner bytes n }
        ensures { result ≡ bytes }
    {
        NodeBytes { bytes }
    }

    /// The node.
    pub fn view(&self) -> InnerView<'_>
        ensures { (tree page : ℕ) → inner_read tree page self.now ≡ Ok result }
    {
        InnerView::known(self.bytes.as_slice())
    }
}

/// The bytes of a tree object, seen as the list of them.
pub struct TreeBytes {
    bytes: Blob,
}

impl Drop for TreeBytes {
    fn drop(self) {
        let TreeBytes { bytes: _ } = self;
    }
}

impl Model for TreeBytes {
    ghost use Rattle.std.specs.Prelude.{List, ℕ};
    ghost use Rattle.node_codec.specs.Tree.{Tree, IsTree};

    ghost Value = { List ℕ };

    ghost view = { λ b. b.bytes };

    ghost invariant = { λ b. (t : Tree) × IsTree b.bytes t };
}

ghost use Rattle.std.specs.Prelude.{◌≡◌, None, IfOk, IfErr};
ghost use Rattle.byte_format.specs.Whole.{offset};
ghost use Rattle.node_codec.specs.Tree.{Tree, IsTree, tree_format, tree_of};

/// Looks through bytes that are to spell a tree object.
fn check_tree(bytes: &[u8]) -> Result<(), NotTree>
    ensures found { IfOk result (λ _. (t : Tree) × IsTree bytes.now t) }
    ensures none { IfErr result (λ _. tree_of bytes.now ≡ None) }
    ensures offset { IfErr result (λ e. e.offset ≡ offset tree_format bytes.now) }
{
    match TreeView::read(bytes) {
        Ok(_) => Ok(()),
        Err(fault) => Err(fault),
    }
}

impl TreeBytes {
    ghost use Rattle.std.specs.Prelude.{◌≡◌, Some, None, IfOk, IfErr};
    ghost use Rattle.byte_format.specs.Whole.{offset};
    ghost use Rattle.node_codec.specs.Tree.{Tree, IsTree, tree_format, tree_of};
    ghost use Rattle.tree_phases.specs.Read.{tree_held};

    /// The bytes, where all of them spell a tree object. Takes no memory.
    pub fn read(bytes: Blob) -> Result<TreeBytes, NotTree>
        ensures same { IfOk result (λ b. b ≡ bytes) }
        ensures read { IfOk result (λ _. (t : Tree) × (tree_of bytes ≡ Some t)) }
        ensures none { IfErr result (λ _. tree_of bytes ≡ None) }
        ensures offset { IfErr result (λ e. e.offset ≡ offset tree_format bytes) }
    {
        check_tree(bytes.as_slice())?;
        Ok(TreeBytes { bytes })
    }

    /// The bytes of a tree object that was written.
    pub(crate) fn of(bytes: Blob) -> TreeBytes
        requires { (t : Tree) × IsTree bytes t }
        ensures { result ≡ bytes }
    {
        TreeBytes { bytes }
    }

    /// The bytes.
    pub fn as_slice(&self) -> &[u8]
        ensures { result.now ≡ self.now }
    {
        self.bytes.as_slice()
    }

    /// The tree object.
    pub fn view(&self) -> TreeView<'_>
        ensures { result ≡ tree_held (Some self.now) }
    {
        TreeView::known(self.bytes.as_slice())
    }
}
