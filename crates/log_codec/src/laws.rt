//! What holds of the formats of log records.

ghost use Rattle.std.specs.Prelude.{◌≡◌, ℕ, List, Some};
ghost use Rattle.byte_format.specs.Whole.{IsExact};
ghost use Rattle.log_codec.specs.Atomic.{atomic_record, atomic_of, atomic_bytes, IsAtomicRecord};
ghost use Rattle.log_codec.specs.Pu.{pu_record, pu_of, pu_bytes, IsPuRecord};
ghost use Rattle.log_codec.specs.declared.record.AtomicRec.{AtomicRec};
ghost use Rattle.log_codec.specs.declared.record.PuRec.{PuRec};

/// A pending update record that is written is read again, and what is decoded is spelled so.
pub fn pu_records_are_exact()
    ensures exact { IsExact pu_record }
    ensures again { (r : PuRec) → IsPuRecord r → pu_of (pu_bytes r) ≡ Some r }
    ensures spelled { (bytes : List ℕ) (r : PuRec) → pu_of bytes ≡ Some r → IsPuRecord r × (bytes ≡ pu_bytes r) }
{}

/// An ATOMIC record that is written is read again, and what is decoded is spelled so.
pub fn atomic_records_are_exact()
    ensures exact { IsExact atomic_record }
    ensures again { (r : AtomicRec) → IsAtomicRecord r → atomic_of (atomic_bytes r) ≡ Some r }
    ensures spelled { (bytes : List ℕ) (r : AtomicRec) → atomic_of bytes ≡ Some r
        → IsAtomicRecord r × (bytes ≡ atomic_bytes r) }
{}
