//! Pages in ascending order.

use db_base::ids::PageId;
use std::alloc::{AllocError, Global};
use std::marker::Model;

/// Pages that ascend, each once, with the number of the last one, which is 0 before the first.
#[derive(Drop)]
pub(crate) struct Ascending {
    pages: Vec<PageId>,
    last: u64,
}

impl Model for Ascending {
    ghost use Rattle.std.specs.Prelude.{List, ℕ, ◌+◌, ◌++◌, [], ◌∷◌};
    ghost use Rattle.cloud_trait.specs.Listing.{AscendAbove};

    ghost Value = { List ℕ };

    ghost view = { λ p. p.pages.items };

    // Behind them another one may come that is above the last.
    ghost invariant = { λ p. AscendAbove 0 (p.pages.items ++ (p.last + 1) ∷ []) };
}

impl Ascending {
    ghost use Rattle.cloud_trait.specs.Listing.{AscendAbove};

    /// No pages. Takes no memory.
    pub(crate) fn new(alloc: Global) -> Ascending {
        Ascending {
            pages: Vec::new(alloc),
            last: 0,
        }
    }

    /// Adds a page, where it is above the last one. Fails for memory alone.
    pub(crate) fn add(&mut self, page: PageId) -> Result<(), AllocError> {
        let number = page.get();
        if number > self.last {
            self.pages.push(page)?;
            self.last = number;
        }
        Ok(())
    }

    /// The pages.
    pub(crate) fn into_pages(self) -> Vec<PageId>
        ensures ascending { AscendAbove 0 result.items }
    {
        self.pages
    }
}
