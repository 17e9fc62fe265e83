//! Objects as they are read from their bytes.

ghost use Rattle.std.specs.Prelude.{◌≡◌, IfOk, IfErr, Err};
ghost use Rattle.node_codec.specs.Inner.{IsInner};
ghost use Rattle.tree_phases.specs.Read.{tree_held, damaged, inner_read, leaf_read};

use crate::spelled::{NodeBytes, TreeBytes};
use db_base::blob::Blob;
use db_base::ids::{PageId, TreeId};
use db_base::names::{ObjName, Place};
use db_base::trouble::Trouble;
use leaf_view::LeafView;
use node_codec::{InnerView, TreeView};

/// The tree object of these bytes, and the empty tree where there are none.
pub fn tree_view(held: &Option<TreeBytes>) -> TreeView<'_>
    ensures { result ≡ tree_held held.now }
{
    match held {
        None => TreeView::empty(),
        Some(bytes) => bytes.view(),
    }
}

/// Bytes of a page that are in no spelling of its kind.
pub fn damaged(tree: TreeId, page: PageId, offset: u64) -> Trouble
    ensures { result ≡ damaged tree page offset }
{
    Trouble::Damaged {
        place: Place::Object(ObjName::Page(tree, page)),
        offset,
    }
}

/// The inner node that the bytes of a page spell.
pub fn inner_view(tree: TreeId, page: PageId, bytes: &[u8]) -> Result<InnerView<'_>, Trouble>
    ensures read { result ≡ inner_read tree page bytes.now }
    ensures found { IfOk result (λ v. IsInner bytes.now v) }
{
    match InnerView::read(bytes) {
        Ok(view) => Ok(view),
        Err(fault) => Err(damaged(tree, page, fault.offset)),
    }
}

/// The bytes of a page that spell an inner node.
pub(crate) fn node_bytes(tree: TreeId, page: PageId, bytes: Blob) -> Result<NodeBytes, Trouble>
    ensures ok { IfOk result (λ b. b ≡ bytes) }
    ensures err { IfErr result (λ t. inner_read tree page bytes ≡ Err t) }
{
    match inner_view(tree, page, bytes.as_slice()) {
        Ok(_) => Ok(NodeBytes::of(bytes)),
        Err(trouble) => Err(trouble),
    }
}

/// The leaf that the bytes of a page spell.
pub fn leaf_view(tree: TreeId, page: PageId, bytes: &[u8]) -> Result<LeafView<'_>, Trouble>
    ensures { result ≡ leaf_read tree page bytes.now }
{
    match LeafView::read(bytes) {
        Ok(view) => Ok(view),
        Err(fault) => Err(damaged(tree, page, fault.offset)),
    }
}
