//! Deletions under way.

use db_base::ids::MsgId;
use std::alloc::Global;
use std::marker::Model;

/// The messages that are still to be deleted, and how many deletions went and how many failed.
pub struct Deletions {
    ids: Vec<MsgId>,
    deleted: usize,
    left: usize,
}

impl Drop for Deletions {
    fn drop(self) {
        let Deletions {
            ids: _,
            deleted: _,
            left: _,
        } = self;
    }
}

impl Model for Deletions {
    ghost use Rattle.std.specs.Prelude.{◌+◌, ◌≤◌, drop, length};
    ghost use Rattle.ckpt_parts.specs.Deleting.{Deleting};

    ghost Value = { Deleting };

    ghost view = { λ d. record { ids = drop (d.deleted + d.left) d.ids.items; deleted = d.deleted; left = d.left } };

    ghost invariant = { λ d. d.deleted + d.left ≤ length d.ids.items };
}

impl Deletions {
    ghost use Rattle.std.specs.Prelude.{◌≡◌, []};
    ghost use Rattle.ckpt_parts.specs.Deleting.{to_delete, next_id, tried};

    /// Nothing is to be deleted. Takes no memory.
    pub fn none(alloc: Global) -> Deletions
        ensures { result ≡ to_delete [] }
    {
        Deletions::of(Vec::new(alloc))
    }

    /// All of these messages are to be deleted, in this order. Takes no memory.
    pub fn of(ids: Vec<MsgId>) -> Deletions
        ensures { result ≡ to_delete ids.items }
    {
        Deletions {
            ids,
            deleted: 0,
            left: 0,
        }
    }

    /// The message that is deleted next.
    pub fn next(&self) -> Option<MsgId>
        ensures { result ≡ next_id self.now.ids }
    {
        self.ids.as_slice().get(self.deleted + self.left).copied()
    }

    /// The next deletion went, or it failed.
    pub fn note(&mut self, went: bool)
        ensures { self.new ≡ tried self.old went }
    {
        if self.deleted + self.left >= self.ids.len() {
            return;
        }
        if went {
            self.deleted += 1;
            return;
        }
        self.left += 1;
    }

    /// How many deletions went.
    pub fn deleted(&self) -> u64
        ensures { result ≡ self.now.deleted }
    {
        self.deleted as u64
    }

    /// How many deletions failed.
    pub fn left(&self) -> u64
        ensures { result ≡ self.now.left }
    {
        self.left as u64
    }
}
