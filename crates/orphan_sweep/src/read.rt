//! What held gets bring.

ghost use Rattle.std.specs.Prelude.{◌≡◌, Err};
ghost use Rattle.db_base.specs.declared.trouble.Trouble.TheVariants.{BadFence};
ghost use Rattle.tree_phases.specs.Going.{Finds};
ghost use Rattle.orphan_sweep.specs.Pages.{root_read, root_held, leaf_paths, inner_paths, leaf_held, absent_inner, inner_held, fenced, leaf_at, levelled, inner_at, paths_of};

use crate::paths::{Paths, inner_paths, leaf_paths};
use crate::spot::Spot;
use byte_format::is_same;
use ckpt_parts::Fault;
use db_base::blob::Blob;
use db_base::ids::{PageId, TreeId};
use db_base::names::{ObjName, Place};
use db_base::trouble::Trouble;
use leaf_view::LeafView;
use node_codec::{InnerView, TreeView};
use std::alloc::Global;
use tree_phases::read::{damaged, inner_view, leaf_view};

/// The tree object that bytes spell. Takes no memory.
fn root_read(tree: TreeId, bytes: &[u8]) -> Result<TreeView<'_>, Trouble>
    ensures { result ≡ root_read tree bytes.now }
{
    match TreeView::read(bytes) {
        Ok(view) => Ok(view),
        Err(fault) => Err(Trouble::Damaged {
            place: Place::Object(ObjName::Tree(tree)),
            offset: fault.offset,
        }),
    }
}

/// The tree object that a held get brought, the empty tree's where it is absent. Takes no memory.
pub(crate) fn root_held(tree: TreeId, got: &Option<Blob>) -> Result<TreeView<'_>, Trouble>
    ensures { result ≡ root_held tree got.now }
{
    match got {
        Some(bytes) => root_read(tree, bytes.as_slice()),
        None => Ok(TreeView::empty()),
    }
}

/// The leaf that a held get brought, the empty one where page 1 is absent. Takes no memory.
fn leaf_held(tree: TreeId, page: PageId, got: &Option<Blob>) -> Result<LeafView<'_>, Trouble>
    ensures { result ≡ leaf_held tree page got.now }
{
    match got {
        Some(bytes) => leaf_view(tree, page, bytes.as_slice()),
        None if page == PageId::first() => Ok(LeafView::empty()),
        None => Err(Trouble::Absent { page }),
    }
}

/// An inner node that is absent: page 1 is a leaf, and so it is none.
fn absent_inner(tree: TreeId, page: PageId) -> Trouble
    ensures { result ≡ absent_inner tree page }
{
    if page.get() == 1 {
        return damaged(tree, page, 0);
    }
    Trouble::Absent { page }
}

/// The inner node that a held get brought. Takes no memory.
fn inner_held(tree: TreeId, page: PageId, got: &Option<Blob>) -> Result<InnerView<'_>, Trouble>
    ensures { result ≡ inner_held tree page got.now }
{
    match got {
        Some(bytes) => inner_view(tree, page, bytes.as_slice()),
        None => Err(absent_inner(tree, page)),
    }
}

/// A page whose low key is not the one that led to it.
fn bad_fence(alloc: Global, at: &Spot, found: &[u8]) -> Result<Paths, Fault>
    ensures { Finds result (Err (BadFence at.now.page at.now.low found.now)) }
{
    let Ok(expected) = Blob::copy_of(alloc, at.low.as_slice()) else {
        return Err(Fault::Memory);
    };
    let Ok(found) = Blob::copy_of(alloc, found) else {
        return Err(Fault::Memory);
    };
    Err(Fault::Stops(Trouble::BadFence {
        page: at.page,
        expected,
        found,
    }))
}

/// Where a leaf leads, if its low key is the one that led to it.
fn fenced_leaf(alloc: Global, at: &Spot, leaf: &LeafView<'_>) -> Result<Paths, Fault>
    ensures { Finds result (fenced at.now leaf.now.low (leaf_paths leaf.now)) }
{
    if !is_same(at.low.as_slice(), leaf.low()) {
        return bad_fence(alloc, at, leaf.low());
    }
    match leaf_paths(alloc, leaf) {
        Ok(paths) => Ok(paths),
        Err(_) => Err(Fault::Memory),
    }
}

/// Where an inner node leads, if its low key is the one that led to it.
fn fenced_inner(alloc: Global, at: &Spot, node: &InnerView<'_>) -> Result<Paths, Fault>
    ensures { Finds result (fenced at.now node.now.low (inner_paths node.now)) }
{
    if !is_same(at.low.as_slice(), node.low()) {
        return bad_fence(alloc, at, node.low());
    }
    match inner_paths(alloc, node) {
        Ok(paths) => Ok(paths),
        Err(_) => Err(Fault::Memory),
    }
}

/// Where an inner node leads, if its level is the one that was promised.
fn levelled(alloc: Global, tree: TreeId, at: &Spot, node: &InnerView<'_>) -> Result<Paths, Fault>
    ensures { Finds result (levelled tree at.now node.now) }
{
    if node.level() != at.level {
        return Err(Fault::Stops(damaged(tree, at.page, 10)));
    }
    fenced_inner(alloc, at, node)
}

/// Where the leaf at hand leads that a held get brought.
fn leaf_at(alloc: Global, tree: TreeId, at: &Spot, got: &Option<Blob>) -> Result<Paths, Fault>
    ensures { Finds result (leaf_at at.now (leaf_held tree at.now.page got.now)) }
{
    match leaf_held(tree, at.page, got) {
        Ok(leaf) => fenced_leaf(alloc, at, &leaf),
        Err(trouble) => Err(Fault::Stops(trouble)),
    }
}

/// Where the inner node at hand leads that a held get brought.
fn inner_at(alloc: Global, tree: TreeId, at: &Spot, got: &Option<Blob>) -> Result<Paths, Fault>
    ensures { Finds result (inner_at tree at.now (inner_held tree at.now.page got.now)) }
{
    match inner_held(tree, at.page, got) {
        Ok(node) => levelled(alloc, tree, at, &node),
        Err(trouble) => Err(Fault::Stops(trouble)),
    }
}

/// Where the page at hand leads that a held get brought.
pub(crate) fn paths_of(
    alloc: Global,
    tree: TreeId,
    at: &Spot,
    got: &Option<Blob>,
) -> Result<Paths, Fault>
    ensures { Finds result (paths_of tree at.now got.now) }
{
    if at.level == 0 {
        return leaf_at(alloc, tree, at, got);
    }
    inner_at(alloc, tree, at, got)
}
