ghost use Rattle.std.specs.Prelude.{◌≡◌, IfOk, find};
ghost use Rattle.std.specs.Option.{option_copied, option_map};
ghost use Rattle.commit_run.specs.Ended.{ended_of, spans, page_at};

use byte_format::{is_below, is_below_bound};
use db_base::blob::Blob;
use db_base::ids::{PageId, TreeId};
use leaf_view::LeafView;
use std::alloc::{AllocError, Global};
use std::marker::Model;

/// A leaf at which a walk ended, with the range of the version that the walk was served.
#[derive(Debug)]
pub struct EndedLeaf {
    tree: TreeId,
    page: PageId,
    low: Blob,
    high: Option<Blob>,
}

impl Drop for EndedLeaf {
    fn drop(self) {
        let EndedLeaf {
            tree: _,
            page: _,
            low: _,
            high: _,
        } = self;
    }
}

impl Model for EndedLeaf {
    ghost use Rattle.commit_run.specs.Ended.{Ended};

    ghost Value = { Ended };

    ghost view = { λ e. record { tree = e.tree; page = e.page; low = e.low; high = e.high } };
}

/// A copy of a bound.
fn bound_of(alloc: Global, bound: Option<&[u8]>) -> Result<Option<Blob>, AllocError>
    ensures { IfOk result (λ b. b ≡ option_copied bound.entry) }
{
    match bound {
        Some(bytes) => Ok(Some(Blob::copy_of(alloc, bytes)?)),
        None => Ok(None),
    }
}

/// The leaf of a tree with the range of this version. Fails for memory alone.
pub(crate) fn ended_of(
    alloc: Global,
    tree: TreeId,
    page: PageId,
    view: &LeafView<'_>,
) -> Result<EndedLeaf, AllocError>
    ensures { IfOk result (λ e. e ≡ ended_of tree page view.now) }
{
    Ok(EndedLeaf {
        tree,
        page,
        low: Blob::copy_of(alloc, view.low())?,
        high: bound_of(alloc, view.high())?,
    })
}

/// The bytes of a bound.
fn bytes_of(bound: &Option<Blob>) -> Option<&[u8]>
    ensures { option_copied result ≡ bound.now }
{
    match bound {
        Some(bytes) => Some(bytes.as_slice()),
        None => None,
    }
}

impl EndedLeaf {
    ghost use Rattle.std.specs.Prelude.{◌≡◌};
    ghost use Rattle.commit_run.specs.Ended.{spans};

    /// Whether a key of a tree lies in the range of the leaf.
    fn spans(&self, tree: TreeId, key: &[u8]) -> bool
        ensures { result ≡ spans tree key.now self.now }
    {
        self.tree.get() == tree.get()
            && !is_below(key, self.low.as_slice())
            && is_below_bound(key, bytes_of(&self.high))
    }
}

/// The page of the first of the leaves in whose range the key lies.
pub(crate) fn page_at(leaves: &[EndedLeaf], tree: TreeId, key: &[u8]) -> Option<PageId>
    ensures { result ≡ page_at leaves.now tree key.now }
{
    let leaf = leaves.iter().find(|leaf| leaf.spans(tree, key))?;
    Some(leaf.page)
}
