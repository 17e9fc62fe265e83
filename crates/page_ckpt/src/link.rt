//! Links to right pages.

ghost use Rattle.std.specs.Prelude.{◌≡◌, Some, IfOk};
ghost use Rattle.page_ckpt.specs.Paging.{reaches_beyond, link_of};

use byte_format::is_below;
use db_base::blob::Blob;
use db_base::ids::PageId;
use leaf_view::LeafView;
use log_codec::record::PuItem;
use std::alloc::{AllocError, Global};

/// A link to a right page, with the low key that it promises (Lehman and Yao, 1981).
pub struct Link {
    /// The page.
    pub page: PageId,
    /// The low key of the page: the high key of the page on its left.
    pub low: Blob,
}

impl Drop for Link {
    fn drop(self) {
        let Link { page: _, low: _ } = self;
    }
}

/// Whether items have keys not below this one.
fn reaches_beyond(high: &[u8], run: &[PuItem]) -> bool
    ensures { result ≡ reaches_beyond (Some high.now) run.now }
{
    run.iter()
        .any(|x| !is_below(x.rec.change.key().as_slice(), high))
}

/// The link from a leaf to its right page, where items of the run have keys not below the high key.
pub(crate) fn link_of(
    alloc: Global,
    leaf: &LeafView<'_>,
    run: &[PuItem],
) -> Result<Option<Link>, AllocError>
    ensures { IfOk result (λ link. link ≡ link_of leaf.now run.now) }
{
    match (leaf.right(), leaf.high()) {
        (Some(page), Some(high)) => {
            if !reaches_beyond(high, run) {
                return Ok(None);
            }
            let low = Blob::copy_of(alloc, high)?;
            Ok(Some(Link { page, low }))
        }
        _ => Ok(None),
    }
}
