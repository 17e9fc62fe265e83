//! The bytes of what a commit sends and puts.

ghost use Rattle.std.specs.Prelude.{◌≡◌, ◌≤◌, length, Some, IfOk, IfSome, OnOk};
ghost use Rattle.std.specs.List.{AllByRecursion};
ghost use Rattle.db_base.specs.Limits.{most_changes};
ghost use Rattle.head_codec.specs.Spelling.{HasSpelling, WasOpen, head_bytes, head_of};
ghost use Rattle.log_codec.specs.Atomic.{HasPlace, atomic_bytes, atomic_of};
ghost use Rattle.log_codec.specs.Pu.{pu_bytes, pu_of};
ghost use Rattle.log_codec.specs.declared.record.AtomicRec.{AtomicRec};
ghost use Rattle.route_plan.specs.Record.{pu_record_of};
ghost use Rattle.commit_writes.specs.Sound.{IsSpelled};
ghost use Rattle.commit_writes.specs.Homes.{opened_home, settled_home};
ghost use Rattle.commit_writes.specs.Writing.{with_head};

use crate::stage::Saved;
use db_base::blob::Blob;
use head_codec::head::Head;
use log_codec::record::AtomicRec;
use recover_run::home::Home;
use route_plan::heads::{open_head, settle_head};
use std::alloc::{AllocError, Global};

/// The bytes of a record as it stands in the ATOMIC queue.
pub(crate) fn log_bytes(alloc: Global, record: &AtomicRec) -> Result<Blob, AllocError>
    requires { HasPlace «record».now }
    ensures bytes { IfOk result (λ b. b ≡ atomic_bytes «record».now) }
    ensures decoded { IfOk result (λ b. atomic_of b ≡ Some «record».now) }
{
    match record.write(alloc) {
        Ok(out) => Ok(out),
        Err(_) => Err(AllocError),
    }
}

/// The bytes of a record as it stands in its pending update queue.
pub(crate) fn queue_bytes(alloc: Global, sent: &AtomicRec) -> Result<Blob, AllocError>
    requires { HasPlace sent.now }
    ensures bytes { IfOk result (λ b. b ≡ pu_bytes (pu_record_of sent.now)) }
    ensures decoded { IfOk result (λ b. pu_of b ≡ Some (pu_record_of sent.now)) }
{
    match sent.write_pending(alloc) {
        Ok(out) => Ok(out),
        Err(_) => Err(AllocError),
    }
}

/// What the put that commits changes in a head.
pub(crate) fn what_changes(alloc: Global, head: &Head) -> Result<Saved, AllocError>
    ensures txn { IfOk result (λ b. b.txn ≡ head.now.txn) }
    ensures phase { IfOk result (λ b. b.phase ≡ head.now.phase) }
    ensures counters { IfOk result (λ b. b.counters.items ≡ head.now.counters) }
{
    let counters = Vec::from_slice(alloc, head.counters.as_slice())?;
    Ok(Saved {
        txn: head.txn,
        phase: head.phase,
        counters,
    })
}

/// Makes the home's head the one that commits the records, and gives its bytes. After an `Err` the head may be either.
#[tactic(auto, using(crate::proofs::Spelled::opened_spelled))]
pub(crate) fn open_home(
    alloc: Global,
    home: &mut Home,
    records: &[AtomicRec],
) -> Result<Blob, AllocError>
    requires some { 1 ≤ length records.now }
    requires few { length records.now ≤ most_changes }
    requires placed { AllByRecursion HasPlace records.now }
    ensures home { OnOk result (home.new ≡ opened_home home.old records.now) }
    ensures kept { home.new ≡ with_head home.old home.new.head }
    ensures out { IfOk result (λ out. out ≡ head_bytes home.new.head) }
    ensures decoded { IfOk result (λ out. head_of out ≡ Some home.new.head) }
{
    open_head(alloc, &mut home.head, home.attempt, records)?;
    bytes_of(alloc, &home.head)
}

/// A copy of a head's bytes; none where memory runs out.
pub(crate) fn copy_of(alloc: Global, bytes: &Blob) -> Option<Blob>
    ensures { IfSome result (λ copy. copy ≡ bytes.now) }
{
    match Blob::copy_of(alloc, bytes.as_slice()) {
        Ok(copy) => Some(copy),
        Err(_) => None,
    }
}

/// Makes the home's head the one that settles the records, and gives its bytes; `before` are those of the head as it was, where they
/// are kept. After an `Err` the head may be either.
#[tactic(auto, using(crate::proofs::Spelled::settled_spelled, crate::proofs::Spelled::was_open))]
pub(crate) fn settle_home(
    alloc: Global,
    home: &mut Home,
    records: &[AtomicRec],
    before: Option<Blob>,
) -> Result<Blob, AllocError>
    requires before { IsSpelled home.old.head records.now before }
    requires placed { AllByRecursion HasPlace records.now }
    ensures home { OnOk result (home.new ≡ settled_home home.old records.now) }
    ensures kept { home.new ≡ with_head home.old home.new.head }
    ensures out { IfOk result (λ out. out ≡ head_bytes home.new.head) }
    ensures decoded { IfOk result (λ out. head_of out ≡ Some home.new.head) }
{
    settle_head(alloc, &mut home.head, records)?;
    match before {
        Some(before) => settled_bytes(alloc, &home.head, before.as_slice(), records.len()),
        None => bytes_of(alloc, &home.head),
    }
}

/// The spelling of a head.
fn bytes_of(alloc: Global, head: &Head) -> Result<Blob, AllocError>
    requires { HasSpelling head.now }
    ensures bytes { IfOk result (λ out. out ≡ head_bytes head.now) }
    ensures decoded { IfOk result (λ out. head_of out ≡ Some head.now) }
{
    match head.write(alloc) {
        Ok(out) => Ok(out),
        Err(_) => Err(AllocError),
    }
}

/// The spelling of a settled head, from that of the head under way.
fn settled_bytes(
    alloc: Global,
    head: &Head,
    before: &[u8],
    count: usize,
) -> Result<Blob, AllocError>
    requires spelling { HasSpelling head.now }
    requires before { WasOpen head.now before.now count }
    ensures bytes { IfOk result (λ out. out ≡ head_bytes head.now) }
    ensures decoded { IfOk result (λ out. head_of out ≡ Some head.now) }
{
    match head.write_settled(alloc, before, count) {
        Ok(out) => Ok(out),
        Err(_) => Err(AllocError),
    }
}
