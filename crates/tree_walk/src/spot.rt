use db_base::blob::Blob;
use db_base::ids::PageId;
use std::marker::Model;

/// A page that a link led to.
#[derive(Debug)]
pub struct Spot {
    /// The page.
    pub page: PageId,
    /// Its level above the leaves, 0 for a leaf.
    pub level: u8,
    /// The low key that the link promised.
    pub low: Blob,
}

impl Drop for Spot {
    fn drop(self) {
        let Spot {
            page: _,
            level: _,
            low: _,
        } = self;
    }
}

impl Model for Spot {
    ghost use Rattle.tree_walk.specs.Walk.{Spot as State};

    ghost Value = { State };

    ghost view = { λ s. record { page = s.page; level = s.level; low = s.low } };
}
