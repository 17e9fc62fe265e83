//! What holds of the format of a change.

ghost use Rattle.std.specs.Prelude.{◌≡◌, true, ◌↔◌};
ghost use Rattle.db_base.specs.Change.{IsChange};
ghost use Rattle.db_base.specs.declared.change.Change.{Change};
ghost use Rattle.byte_format.specs.Whole.{IsExact};
ghost use Rattle.change_codec.specs.Change.{change, change_fits};

/// What is read is spelled so, and what is spelled so is read; what fits is a change.
pub fn change_is_exact()
    ensures exact { IsExact change }
    ensures fits { (c : Change) → (change_fits c ≡ true) ↔ IsChange c }
{}
