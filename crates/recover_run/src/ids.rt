ghost use Rattle.std.specs.Prelude.{◌≡◌, ◌<◌, ◌^◌, [], ◌++◌, ◌∷◌, length, not, IfOk, if◌then◌else◌};
ghost use Rattle.recover_run.specs.Ids.{has_id, new_ids};

use db_base::ids::MsgId;
use std::alloc::{AllocError, Global};
use std::collections::VecDeque;
use std::marker::Model;

/// A set of message ids, in the order in which they were added. Seen as the list of them.
pub(crate) struct IdSet {
    ids: Vec<MsgId>,
}

impl Drop for IdSet {
    fn drop(self) {
        let IdSet { ids: _ } = self;
    }
}

impl Model for IdSet {
    ghost use Rattle.std.specs.Prelude.{ℕ, List};

    ghost Value = { List ℕ };

    ghost view = { λ s. s.ids.items };
}

impl IdSet {
    /// The empty set. Takes no memory.
    pub fn new(alloc: Global) -> IdSet
        ensures { result ≡ [] }
    {
        IdSet {
            ids: Vec::new(alloc),
        }
    }

    /// Leaves all ids out. Takes no memory.
    pub fn clear(&mut self)
        ensures { self.new ≡ [] }
    {
        self.ids.clear();
    }

    /// No more ids than memory has places.
    pub fn few(&self)
        ensures { length self.now < 2 ^ 64 }
    {
        let _ = self.ids.len();
    }

    /// Whether an id is in the set.
    fn has(&self, id: MsgId) -> bool
        ensures { result ≡ has_id self.now id }
    {
        self.ids.iter().any(|other| other.get() == id.get())
    }

    /// Adds an id that is not in the set yet, and answers whether it was new.
    fn add(&mut self, id: MsgId) -> Result<bool, AllocError>
        ensures fresh { IfOk result (λ fresh. fresh ≡ not (has_id self.old id)) }
        ensures added { IfOk result (λ _. self.new ≡ (if has_id self.old id then self.old else self.old ++ id ∷ [])) }
    {
        if self.has(id) {
            return Ok(false);
        }
        self.ids.push(id)?;
        Ok(true)
    }

    /// Adds ids, and answers those that were new, in their order.
    pub fn add_all(&mut self, alloc: Global, ids: &[MsgId]) -> Result<VecDeque<MsgId>, AllocError>
        ensures new { IfOk result (λ fresh. fresh.items ≡ new_ids self.old ids.now) }
        ensures all { IfOk result (λ _. self.new ≡ self.old ++ new_ids self.old ids.now) }
    {
        let mut fresh = VecDeque::new(alloc);
        let mut left = ids;
        while let Some((id, rest)) = left.split_first() {
            if self.add(*id)? {
                fresh.push_back(*id)?;
            }
            left = rest;
        }
        Ok(fresh)
    }
}
