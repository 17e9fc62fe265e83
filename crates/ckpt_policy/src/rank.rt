//! Places by how often they were checkpointed.

ghost use Rattle.std.specs.Prelude.{◌≡◌};
ghost use Rattle.ckpt_policy.specs.Due.{place_of_rank};

use crate::place::Place;
use db_base::ids::TreeId;

/// By how often its queue was checkpointed, then by tree, then by page.
#[derive(Clone, Copy, Debug, PartialEq, Eq, PartialOrd, Ord)]
pub struct Rank {
    pub kept: u64,
    pub tree: TreeId,
    pub page: u64,
}

impl Rank {
    /// Where its queue stands.
    pub fn place(&self) -> Place
        ensures { result ≡ place_of_rank self.now }
    {
        Place {
            tree: self.tree,
            page: self.page,
        }
    }
}
