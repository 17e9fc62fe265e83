//! The records of a dump that are not taken yet.

use dump_text::dump::DumpedTree;
use report_types::stored::Stored;
use std::marker::Model;

/// The records of a dump from one on, each with the number of its tree.
pub struct Remaining<'d> {
    // The tree of `records`.
    tree: u64,
    records: &'d [Stored],
    // The trees behind it.
    trees: &'d [DumpedTree],
}

impl Drop for Remaining<'_> {
    fn drop(self) {
        let Remaining {
            tree: _,
            records: _,
            trees: _,
        } = self;
    }
}

impl<'d> Model for Remaining<'d> {
    ghost use Rattle.std.specs.Prelude.{List, ◌++◌};
    ghost use Rattle.load_plan.specs.Events.{Placed, placed_in, records_of};

    ghost Value = { List Placed };

    ghost view = { λ r. placed_in r.tree r.records.now ++ records_of r.trees.now };
}

impl<'d> Remaining<'d> {
    ghost use Rattle.std.specs.Prelude.{◌≡◌, [], ◌∷◌, MatchOption};
    ghost use Rattle.load_plan.specs.Events.{records_of};

    /// All records of trees.
    pub fn of(trees: &'d [DumpedTree]) -> Remaining<'d>
        ensures { result ≡ records_of trees.now }
    {
        Remaining {
            tree: 0,
            records: &[],
            trees,
        }
    }

    /// The same records from here on.
    pub fn again(&self) -> Remaining<'d>
        ensures { result ≡ self.now }
    {
        Remaining {
            tree: self.tree,
            records: self.records,
            trees: self.trees,
        }
    }

    /// Takes the next record, where one is left: its tree, and the record.
    pub fn next(&mut self) -> Option<(u64, &'d Stored)>
        ensures { MatchOption result ((self.old ≡ []) × (self.new ≡ [])) (λ x. self.old ≡ record { tree = x.0; stored = x.1.now } ∷ self.new) }
    {
        while self.records.is_empty() {
            let (first, behind) = self.trees.split_first()?;
            self.tree = first.tree.get();
            self.records = first.records.as_slice();
            self.trees = behind;
        }
        let (first, behind) = self.records.split_first()?;
        self.records = behind;
        Some((self.tree, first))
    }
}
