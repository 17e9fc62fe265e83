//! Committed changes, the order in which they were applied, and what they come to.
#![tactic(auto)]

ghost use Rattle.std.specs.Prelude.{◌≡◌, ℕ, List, ◌++◌};
ghost use Rattle.history.specs.Fold.{fold, fold_onto, of_tree};
ghost use Rattle.report_types.specs.declared.entry.Entry.{Entry};

/// What entries come to goes on from what the earlier ones of them come to.
pub fn fold_goes_on()
    ensures { (earlier later : List Entry) (tree : ℕ) (key : List ℕ) →
        fold (earlier ++ later) tree key ≡ fold_onto (fold earlier tree) later tree key }
{}

/// What entries come to in a tree depends on the entries of that tree alone.
pub fn fold_is_of_the_tree()
    ensures { (entries : List Entry) (tree : ℕ) (key : List ℕ) → fold (of_tree tree entries) tree key ≡ fold entries tree key }
{}
