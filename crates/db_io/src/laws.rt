//! What writes come to as a whole.

ghost use Rattle.std.specs.Prelude.{ℕ, List};
ghost use Rattle.std.specs.List.{concat};
ghost use Rattle.db_io.specs.Writes.{Written, AddsEach, AddsPart, Adds, AddsPrefix};

/// Texts that are written one by one are written as the whole of them, and of a text whose write failed a first part is.
pub fn writes_join()
    ensures each { (old new : Written) (texts : List (List ℕ)) → AddsEach old new texts → Adds old new (concat texts) }
    ensures part { (old new : Written) (text : List ℕ) → AddsPart old new text → AddsPrefix old new text }
{}
