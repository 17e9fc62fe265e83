//! Pages that were not come to.

ghost use Rattle.std.specs.Prelude.{◌≡◌, IfOk};
ghost use Rattle.orphan_sweep.specs.Sweeping.{is_among, strays};

use db_base::ids::PageId;
use std::alloc::{AllocError, Global};

/// Whether a page is among these.
pub(crate) fn is_among(pages: &[PageId], page: PageId) -> bool
    ensures { result ≡ is_among pages.now page }
{
    pages.iter().any(|other| other.get() == page.get())
}

/// The listed pages that are not among those, in their order. Refused for memory alone.
pub(crate) fn strays(
    alloc: Global,
    visited: &[PageId],
    listed: &[PageId],
) -> Result<Vec<PageId>, AllocError>
    ensures { IfOk result (λ pages. pages.items ≡ strays visited.now listed.now) }
{
    let mut pages = Vec::new(alloc);
    let mut left = listed;
    while let Some((page, rest)) = left.split_first() {
        if !is_among(visited, *page) {
            pages.push(*page)?;
        }
        left = rest;
    }
    Ok(pages)
}
