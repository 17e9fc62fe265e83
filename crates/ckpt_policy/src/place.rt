//! Where a pending update queue stands among all.

ghost use Rattle.std.specs.Prelude.{◌≡◌};
ghost use Rattle.ckpt_policy.specs.Notes.{place_of, queue_at};

use db_base::ids::{PageId, TreeId};
use db_base::names::QueueName;

/// By its tree, and then by its page, 0 for the tree's own queue.
#[derive(Clone, Copy, Debug, PartialEq, Eq, PartialOrd, Ord)]
pub struct Place {
    pub tree: TreeId,
    pub page: u64,
}

impl Place {
    /// That of a pending update queue; no other has one.
    pub fn of(queue: QueueName) -> Option<Place>
        ensures { result ≡ place_of queue }
    {
        match queue {
            QueueName::Atomic(_) => None,
            QueueName::TreePu(tree) => Some(Place { tree, page: 0 }),
            QueueName::PagePu(tree, page) => Some(Place {
                tree,
                page: page.get(),
            }),
        }
    }

    /// The queue that stands here.
    pub fn queue(&self) -> QueueName
        ensures { result ≡ queue_at self.now }
    {
        match PageId::new(self.page) {
            Ok(page) => QueueName::PagePu(self.tree, page),
            Err(_) => QueueName::TreePu(self.tree),
        }
    }
}
