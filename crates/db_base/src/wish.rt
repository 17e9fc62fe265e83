ghost use Rattle.std.specs.Prelude.{◌≡◌, ℕ, List, IfOk, IfErr, ◌⊎◌, ◌↔◌, length};
ghost use Rattle.db_base.specs.Wish.{ArePositions};

use crate::refusal::{Refusal, Refused};
use std::alloc::Global;
use std::marker::Model;

/// The most positions that a wish names.
pub const MAX_POSITIONS: usize = 256;

/// The positions of messages of a queue, 1 to 256 of them. They have no range.
#[derive(Debug)]
pub struct Positions {
    list: Vec<u64>,
}

impl Drop for Positions {
    fn drop(self) {
        let Positions { list: _ } = self;
    }
}

impl Model for Positions {
    ghost use Rattle.std.specs.Prelude.{List, ℕ};
    ghost use Rattle.db_base.specs.Wish.{ArePositions};

    ghost Value = { List ℕ };

    ghost view = { λ p. p.list.items };

    ghost invariant = { λ p. ArePositions p.list.items };
}

impl Positions {
    /// A copy of the list; BadNumber exactly for a length that is not in 1 to 256.
    pub fn new(alloc: Global, list: &[u64]) -> Result<Positions, Refused>
        ensures ok { IfOk result (λ p. (p ≡ list.now) × ArePositions list.now) }
        ensures bad { (result ≡ Err (Refused.Rule Refusal.BadNumber)) ↔ (ArePositions list.now → ⊥) }
        ensures only { IfErr result (λ e. (e ≡ Refused.Rule Refusal.BadNumber) ⊎ ((e ≡ Refused.Memory) × ArePositions list.now)) }
    {
        if list.is_empty() || list.len() > MAX_POSITIONS {
            return Err(Refused::Rule(Refusal::BadNumber));
        }
        match list.to_vec(alloc) {
            Ok(list) => Ok(Positions { list }),
            Err(_) => Err(Refused::Memory),
        }
    }

    /// The positions.
    pub fn as_slice(&self) -> &[u64]
        ensures list { result.now ≡ self.now }
        ensures valid { ArePositions self.now }
    {
        self.list.as_slice()
    }
}

/// What a schedule wishes of the next service call. One that does not fit the call is Plain.
#[derive(Debug)]
pub enum Wish {
    /// The call as it should be.
    Plain,
    /// It fails, and nothing lands.
    Fail,
    /// Its effect lands, and it answers that it failed.
    Lost,
    /// A receive that brings no message; a take that finds the lock held.
    Hide,
    /// A get of the n-th landed version, 0 for none.
    Old(u64),
    /// A receive of the messages at these positions.
    Give(Positions),
}

impl Drop for Wish {
    fn drop(self) {
        match self {
            Wish::Plain => {}
            Wish::Fail => {}
            Wish::Lost => {}
            Wish::Hide => {}
            Wish::Old(_) => {}
            Wish::Give(_) => {}
        }
    }
}
