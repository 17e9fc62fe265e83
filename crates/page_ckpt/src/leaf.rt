//! Leaves as they are read and made.

ghost use Rattle.std.specs.Prelude.{◌≡◌};
ghost use Rattle.std.specs.Option.{option_copied};
ghost use Rattle.log_codec.specs.Order.{IsOrdered};
ghost use Rattle.ckpt_parts.specs.Leaves.{ReadsLeaf};
ghost use Rattle.page_ckpt.specs.Paging.{ReadsNamed, HoldsNamed, MakesLeaf, found_home};

use crate::home::Home;
use ckpt_parts::page_damage;
use db_base::blob::Blob;
use db_base::ids::{PageId, TreeId};
use db_base::pair::EditFault;
use db_base::trouble::Trouble;
use leaf_edit::apply;
use leaf_view::LeafView;
use log_codec::record::PuItem;
use node_codec::InnerView;
use std::alloc::Global;

/// What comes of the next version of a leaf.
#[derive(Drop)]
pub enum Made {
    /// Its spelling.
    Leaf(Blob),
    /// The leaf has no next version.
    Exhausted,
    /// Memory ran out.
    Memory,
}

/// The next version of a leaf, with a run applied.
pub(crate) fn made_leaf(alloc: Global, leaf: &LeafView<'_>, queue: u64, run: &[PuItem]) -> Made
    requires { IsOrdered run.now }
    ensures { MakesLeaf leaf.now queue run.now result }
{
    match apply(alloc, leaf, queue, run) {
        Ok(made) => Made::Leaf(made.into_blob()),
        Err(EditFault::Exhausted) => Made::Exhausted,
        Err(EditFault::Memory) => Made::Memory,
    }
}

/// The bytes that a get brought.
pub(crate) fn held_bytes(got: &Option<Blob>) -> Option<&[u8]>
    ensures { option_copied result ≡ got.now }
{
    match got {
        Some(bytes) => Some(bytes.as_slice()),
        None => None,
    }
}

/// The leaf of bytes of the named page.
fn read_named(tree: TreeId, page: PageId, bytes: Blob) -> Result<Home, Trouble>
    ensures { ReadsNamed tree page bytes result }
{
    match InnerView::read(bytes.as_slice()) {
        Ok(_) => Err(Trouble::NotALeaf { page }),
        Err(_) => read_leaf(tree, page, bytes),
    }
}

/// The leaf of bytes that spell no inner node.
fn read_leaf(tree: TreeId, page: PageId, bytes: Blob) -> Result<Home, Trouble>
    ensures { ReadsLeaf tree page bytes result }
{
    match Home::read(bytes) {
        Ok(leaf) => Ok(leaf),
        Err(fault) => Err(page_damage(tree, page, fault.offset)),
    }
}

/// The leaf that the held get of the named page brought, none for the empty leaf of an absent page 1. Absent, NotALeaf where
/// it is an inner node, Damaged where the bytes spell neither. Takes no memory.
pub(crate) fn named_leaf(
    tree: TreeId,
    page: PageId,
    got: Option<Blob>,
) -> Result<Option<Home>, Trouble>
    ensures { HoldsNamed tree page got (found_home result) }
{
    match got {
        Some(bytes) => match read_named(tree, page, bytes) {
            Ok(leaf) => Ok(Some(leaf)),
            Err(trouble) => Err(trouble),
        },
        None if page == PageId::first() => Ok(None),
        None => Err(Trouble::Absent { page }),
    }
}
