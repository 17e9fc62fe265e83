//! The bytes of objects as what they spell.

ghost use Rattle.std.specs.Prelude.{◌≡◌, Some, Ok, IfOk, IfSome};
ghost use Rattle.leaf_view.specs.Leaf.{Leaf, IsLeaf};
ghost use Rattle.node_codec.specs.Inner.{Inner, IsInner, inner_of};
ghost use Rattle.node_codec.specs.Tree.{Tree as Root, IsTree, tree_of};
ghost use Rattle.page_cache.specs.Held.{leaf_in};
ghost use Rattle.page_cache.specs.Spelled.{leaf_version, inner_version, root_version, version_read, IsSpelled, IsPageSpelled, is_marked};

use byte_format::mark_at;
use db_base::names::ObjName;
use leaf_view::LeafView;
use node_codec::{InnerView, TreeView};

// The byte that a leaf begins with, and no other page.
const LEAF_MARK: u8 = 0x4c;

/// Whether bytes begin as those of a leaf do.
fn is_marked(bytes: &[u8]) -> bool
    ensures { result ≡ is_marked bytes.now }
{
    mark_at(bytes, LEAF_MARK).is_ok()
}

/// The leaf that the bytes of a page spell, where they spell one.
pub(crate) fn leaf_of(bytes: &[u8]) -> Option<LeafView<'_>>
    requires { IsPageSpelled bytes.now }
    ensures { result ≡ leaf_in bytes.now }
{
    if is_marked(bytes) {
        Some(LeafView::known(bytes))
    } else {
        None
    }
}

/// The inner node that the bytes of a page spell, where they spell one.
pub(crate) fn inner_of(bytes: &[u8]) -> Option<InnerView<'_>>
    requires { IsPageSpelled bytes.now }
    ensures { result ≡ inner_of bytes.now }
{
    if is_marked(bytes) {
        None
    } else {
        Some(InnerView::known(bytes))
    }
}

/// The root that the bytes spell.
pub(crate) fn root_of(bytes: &[u8]) -> TreeView<'_>
    requires { (t : Root) × IsTree bytes.now t }
    ensures { tree_of bytes.now ≡ Some result }
{
    TreeView::known(bytes)
}

/// The version of the leaf that the bytes spell, or the offset of their first fault.
fn leaf_version(bytes: &[u8]) -> Result<u64, u64>
    ensures version { result ≡ leaf_version bytes.now }
    ensures spelled { IfOk result (λ _. (v : Leaf) × IsLeaf bytes.now v) }
{
    match LeafView::read(bytes) {
        Ok(view) => Ok(view.version()),
        Err(fault) => Err(fault.offset),
    }
}

/// The version of the inner node that the bytes spell, or the offset of their first fault.
fn inner_version(bytes: &[u8]) -> Result<u64, u64>
    ensures version { result ≡ inner_version bytes.now }
    ensures spelled { IfOk result (λ _. (v : Inner) × IsInner bytes.now v) }
{
    match InnerView::read(bytes) {
        Ok(view) => Ok(view.version()),
        Err(fault) => Err(fault.offset),
    }
}

/// The version of the root that the bytes spell, or the offset of their first fault.
fn root_version(bytes: &[u8]) -> Result<u64, u64>
    ensures version { result ≡ root_version bytes.now }
    ensures spelled { IfOk result (λ _. (v : Root) × IsTree bytes.now v) }
{
    match TreeView::read(bytes) {
        Ok(view) => Ok(view.version()),
        Err(fault) => Err(fault.offset),
    }
}

/// The version in the bytes of an object, or the offset of their first fault: a page is read as a leaf
/// or as an inner node, all else as a root.
pub(crate) fn version_of(name: &ObjName, leaf: bool, bytes: &[u8]) -> Result<u64, u64>
    ensures version { result ≡ version_read name.now leaf bytes.now }
    ensures spelled { IfOk result (λ _. IsSpelled name.now (Some bytes.now)) }
{
    match name {
        ObjName::Page(_, _) => {
            if leaf {
                leaf_version(bytes)
            } else {
                inner_version(bytes)
            }
        }
        ObjName::Tree(_) => root_version(bytes),
        ObjName::Head(_) => root_version(bytes),
    }
}

/// The version in the bytes of an object that are in a spelling of its kind, where they are of what they are read as. The records
/// of a leaf and the entries of a node are not read.
pub(crate) fn known_version(name: &ObjName, leaf: bool, bytes: &[u8]) -> Option<u64>
    requires { IsSpelled name.now (Some bytes.now) }
    ensures { IfSome result (λ version. version_read name.now leaf bytes.now ≡ Ok version) }
{
    match name {
        ObjName::Page(_, _) => {
            if leaf {
                known_leaf_version(bytes)
            } else {
                known_node_version(bytes)
            }
        }
        ObjName::Tree(_) => Some(known_root_version(bytes)),
        ObjName::Head(_) => Some(known_root_version(bytes)),
    }
}

/// The version of the leaf that the bytes of a page spell, where they spell one.
fn known_leaf_version(bytes: &[u8]) -> Option<u64>
    requires { IsPageSpelled bytes.now }
    ensures { IfSome result (λ version. leaf_version bytes.now ≡ Ok version) }
{
    match leaf_of(bytes) {
        Some(view) => Some(view.version()),
        None => None,
    }
}

/// The version of the inner node that the bytes of a page spell, where they spell one.
fn known_node_version(bytes: &[u8]) -> Option<u64>
    requires { IsPageSpelled bytes.now }
    ensures { IfSome result (λ version. inner_version bytes.now ≡ Ok version) }
{
    match inner_of(bytes) {
        Some(view) => Some(view.version()),
        None => None,
    }
}

/// The version of the root that the bytes spell.
fn known_root_version(bytes: &[u8]) -> u64
    requires { (t : Root) × IsTree bytes.now t }
    ensures { root_version bytes.now ≡ Ok result }
{
    root_of(bytes).version()
}
