//! What the held get of a leaf brings.

ghost use Rattle.std.specs.Prelude.{◌≡◌, Ok, IfOk};
ghost use Rattle.std.specs.Option.{option_copied};
ghost use Rattle.byte_format.specs.Order.{bytes_same};
ghost use Rattle.ckpt_parts.specs.Unless.{UnlessMemory};
ghost use Rattle.ckpt_parts.specs.Leaves.{page_damage, HoldsLeaf, bad_fence, fenced, HoldsLinked};

use crate::fault::Fault;
use byte_format::is_same;
use db_base::blob::Blob;
use db_base::ids::{PageId, TreeId};
use db_base::names::{ObjName, Place};
use db_base::trouble::Trouble;
use leaf_view::LeafView;
use std::alloc::{AllocError, Global};

/// Bytes of a page that are in no spelling asked for, from this offset in bytes on.
pub fn page_damage(tree: TreeId, page: PageId, offset: u64) -> Trouble
    ensures { result ≡ page_damage tree page offset }
{
    Trouble::Damaged {
        place: Place::Object(ObjName::Page(tree, page)),
        offset,
    }
}

/// The leaf that the held get of a page brought: an absent page 1 is the empty leaf. Absent, or Damaged where the bytes
/// spell no leaf. Takes no memory.
pub fn held_leaf<'a>(
    tree: TreeId,
    page: PageId,
    got: Option<&'a [u8]>,
) -> Result<LeafView<'a>, Trouble>
    ensures { HoldsLeaf tree page (option_copied got.entry) result }
{
    match got {
        Some(bytes) => match LeafView::read(bytes) {
            Ok(leaf) => Ok(leaf),
            Err(fault) => Err(page_damage(tree, page, fault.offset)),
        },
        None if page == PageId::first() => Ok(LeafView::empty()),
        None => Err(Trouble::Absent { page }),
    }
}

/// Whether the leaf's low key is the one that led to it.
fn is_fenced(low: &[u8], leaf: &LeafView<'_>) -> bool
    ensures { result ≡ bytes_same low.now leaf.now.low }
{
    is_same(low, leaf.low())
}

/// The trouble that a page's low key is not the one that led to it.
fn bad_fence(
    alloc: Global,
    page: PageId,
    low: &[u8],
    leaf: &LeafView<'_>,
) -> Result<Trouble, AllocError>
    ensures { IfOk result (λ t. t ≡ bad_fence page low.now leaf.now) }
{
    Ok(Trouble::BadFence {
        page,
        expected: Blob::copy_of(alloc, low)?,
        found: Blob::copy_of(alloc, leaf.low())?,
    })
}

/// The leaf, where its low key is the one that led to it; else BadFence.
fn fenced<'a>(
    alloc: Global,
    page: PageId,
    low: &[u8],
    leaf: LeafView<'a>,
) -> Result<LeafView<'a>, Fault>
    ensures { UnlessMemory (λ found. found ≡ fenced page low.now (Ok leaf.entry)) result }
{
    if is_fenced(low, &leaf) {
        return Ok(leaf);
    }
    match bad_fence(alloc, page, low, &leaf) {
        Ok(trouble) => Err(Fault::Stops(trouble)),
        Err(_) => Err(Fault::Memory),
    }
}

/// The leaf that the held get of a page brought to which a link led that promised this low key: as `held_leaf`, and then
/// BadFence where the low key is another.
pub fn linked_leaf<'a>(
    alloc: Global,
    tree: TreeId,
    page: PageId,
    low: &[u8],
    got: Option<&'a [u8]>,
) -> Result<LeafView<'a>, Fault>
    ensures { UnlessMemory (HoldsLinked tree page low.now (option_copied got.entry)) result }
{
    match held_leaf(tree, page, got) {
        Ok(leaf) => fenced(alloc, page, low, leaf),
        Err(trouble) => Err(Fault::Stops(trouble)),
    }
}
