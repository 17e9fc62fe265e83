//! What holds of the format of a head.

ghost use Rattle.std.specs.Prelude.{◌≡◌, ◌↔◌, ℕ, true, List, Some};
ghost use Rattle.byte_format.specs.Whole.{IsExact};
ghost use Rattle.head_codec.specs.Head.{empty_head, next_head};
ghost use Rattle.head_codec.specs.Spelling.{head, head_of, head_bytes, HasSpelling, FitsTypes};
ghost use Rattle.head_codec.specs.declared.head.Head.{Head};

/// A head that is written is read again, what is decoded is spelled so, and the next epoch has a spelling.
/// What `HasSpelling` says is all that the format asks of a head beside what its types say.
pub fn heads_are_exact()
    ensures exact { IsExact head }
    ensures whole { (h : Head) → (head.fits h ≡ true) ↔ (HasSpelling h × FitsTypes h) }
    ensures again { (h : Head) → HasSpelling h → FitsTypes h → head_of (head_bytes h) ≡ Some h }
    ensures spelled { (bytes : List ℕ) (h : Head) → head_of bytes ≡ Some h
        → HasSpelling h × FitsTypes h × (bytes ≡ head_bytes h) }
    ensures first { HasSpelling (next_head empty_head) }
    ensures next { (h : Head) → HasSpelling h → HasSpelling (next_head h) }
{}
