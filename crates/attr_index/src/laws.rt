//! Laws of the entries of an attribute.

ghost use Rattle.std.specs.Prelude.{◌≡◌, ◌↔◌, ℕ, List, true, false};
ghost use Rattle.byte_format.specs.Order.{below_bound, bytes_below};
ghost use Rattle.byte_format.specs.Whole.{IsBytes};
ghost use Rattle.attr_index.specs.Prefix.{BeginsWith, next_of};

/// Where the bytes that begin with others stand in the order of bytes.
pub fn prefix_laws()
    // Bytes begin with a prefix exactly where they stand from it on and below the least bytes above all that begin so.
    ensures together { (prefix bytes : List ℕ) → IsBytes bytes → BeginsWith prefix bytes ↔ ((bytes_below bytes prefix ≡ false) × (below_bound bytes (next_of prefix) ≡ true)) }
{}
