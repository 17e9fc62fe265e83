ghost use Rattle.std.specs.Prelude.{◌≡◌};
ghost use Rattle.orphan_sweep.specs.Pages.{leftmost};

use db_base::blob::Blob;
use db_base::ids::PageId;
use std::alloc::Global;

/// A page that is to be read.
pub struct Spot {
    /// Its level above the leaves, 0 for a leaf.
    pub level: u8,
    /// The page.
    pub page: PageId,
    /// The low key that leads to it.
    pub low: Blob,
    /// The page that begins the level below, once the leftmost page of this level was read.
    pub below: Option<PageId>,
}

// Written out, so that what holds a spot need not look into it to let it go.
impl Drop for Spot {
    fn drop(self) {
        let Spot {
            level: _,
            page: _,
            low: _,
            below: _,
        } = self;
    }
}

impl Spot {
    /// The first page of a level. Takes no memory.
    pub(crate) fn leftmost(alloc: Global, level: u8, page: PageId) -> Spot
        ensures { result ≡ leftmost level page }
    {
        Spot {
            level,
            page,
            low: Blob::new(alloc),
            below: None,
        }
    }
}
