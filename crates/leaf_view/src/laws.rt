//! Laws of leaves.

ghost use Rattle.std.specs.Prelude.{ℕ, List};
ghost use Rattle.leaf_view.specs.Leaf.{Leaf, IsLeaf};
ghost use Rattle.leaf_view.specs.Parts.{PartsLieIn};

/// Every key, payload, attribute and fence of a leaf is a piece of the bytes that spell it.
pub fn parts_lie_in_the_bytes()
    ensures { (bytes : List ℕ) (l : Leaf) → IsLeaf bytes l → PartsLieIn bytes l }
{}
