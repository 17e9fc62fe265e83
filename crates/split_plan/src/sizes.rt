//! How long the pieces of a page are.

use crate::count::pieces;
use std::marker::Model;

/// The sizes of the pieces that are still to be cut off, from left to right. The last piece has what is left behind them.
#[derive(Drop)]
pub(crate) struct Sizes {
    size: usize,
    // How many pieces have one item more.
    longer: usize,
    others: usize,
}

impl Model for Sizes {
    ghost use Rattle.std.specs.Prelude.{ℕ, ◌+◌, ◌^◌, ◌<◌, List, ◌++◌, replicate};

    ghost Value = { List ℕ };

    ghost view = { λ s. replicate s.longer (s.size + 1) ++ replicate s.others s.size };

    ghost invariant = { λ s. 0 < s.longer → s.size + 1 < 2 ^ 64 };
}

impl Sizes {
    ghost use Rattle.std.specs.Prelude.{◌≡◌, [], ◌∷◌, ◌/◌, MatchOption};
    ghost use Rattle.split_plan.specs.Sizes.{count_of, cuts_of, CanCut};

    /// The sizes of the pieces before the last one of so many items.
    pub(crate) fn of(len: usize) -> Sizes
        ensures sizes { result ≡ cuts_of len }
        ensures room { CanCut result (len / count_of len) len }
    {
        let count = pieces(len as u64) as usize;
        let longer = len % count;
        Sizes {
            size: len / count,
            longer,
            others: count - 1 - longer,
        }
    }

    /// Takes the first of them.
    pub(crate) fn next(&mut self) -> Option<usize>
        ensures { MatchOption result (self.old ≡ []) (λ n. self.old ≡ n ∷ self.new) }
    {
        if self.longer > 0 {
            self.longer -= 1;
            return Some(self.size + 1);
        }
        if self.others > 0 {
            self.others -= 1;
            return Some(self.size);
        }
        None
    }
}
