//! Laws of edited records.

ghost use Rattle.std.specs.Prelude.{◌≡◌, ℕ, List, None};
ghost use Rattle.db_base.specs.declared.change.Change.{Change};
ghost use Rattle.leaf_view.specs.Leaf.{Entry};
ghost use Rattle.leaf_view.specs.Fits.{Ascend, entry_below};
ghost use Rattle.leaf_view.specs.Lookup.{value_of};
ghost use Rattle.log_codec.specs.declared.record.PuItem.{PuItem};
ghost use Rattle.leaf_edit.specs.Acted.{acted_at, acted_by};
ghost use Rattle.leaf_edit.specs.Edited.{edited, edited_by};

/// Records in key order stay so, and the value at each key is what the changes make of the old one.
pub fn values_follow_changes()
    ensures ascend { (es : List Entry) (xs : List PuItem) → Ascend entry_below None es → Ascend entry_below None (edited_by es xs) }
    ensures change { (key : List ℕ) (es : List Entry) (c : Change) → Ascend entry_below None es →
        value_of key (edited es c) ≡ acted_at key (value_of key es) c }
    ensures run { (key : List ℕ) (es : List Entry) (xs : List PuItem) → Ascend entry_below None es →
        value_of key (edited_by es xs) ≡ acted_by key (value_of key es) xs }
{}
