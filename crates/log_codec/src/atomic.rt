ghost use Rattle.std.specs.Prelude.{◌≡◌, ◌++◌, OnOk, IfOk, IfErr};
ghost use Rattle.byte_format.specs.Gives.{Gives, GivesOwned};
ghost use Rattle.byte_format.specs.Whole.{whole, IsSpelling};
ghost use Rattle.log_codec.specs.Fault.{Answers, Decodes, IsAt};
ghost use Rattle.log_codec.specs.Atomic.{position, atomic_at, atomic_record, atomic_of, atomic_offset, atomic_bytes, IsAtomicRecord, HasPlace};
ghost use Rattle.log_codec.specs.declared.record.AtomicRec.{AtomicRec};

use crate::fault::RecFault;
use crate::pu::USUAL_LEN;
use crate::record::AtomicRec;
use byte_format::{ReadFault, Stop, mark_at, try_add, try_add_u64, u8_at, u64_at};
use change_codec::{add_change, client_of, read_change, tree_of};
use db_base::blob::Blob;
use std::alloc::{AllocError, Global};

/// The byte that an ATOMIC record begins with.
const MARK: u8 = 0x41;

/// The byte of its format.
const FORMAT: u8 = 1;

/// The index and the count at the front of bytes, and the bytes behind them.
fn position_at(bytes: &[u8]) -> Result<((u8, u8), &[u8]), Stop>
    ensures { Gives (λ x. (x.0, x.1.now)) result (position.reading bytes.now) }
{
    let (index, rest) = u8_at(bytes, 1, 255)?;
    let (count, rest) = u8_at(rest, index, 200)?;
    Ok(((index, count), rest))
}

/// The record at the front of bytes, and the bytes behind it.
#[tactic(auto, unfolding(crate::specs::Atomic::atomic_at))]
fn front_record(alloc: Global, bytes: &[u8]) -> Result<(AtomicRec, &[u8]), ReadFault>
    ensures { GivesOwned (λ x. (x.0, x.1.now)) result (atomic_at bytes.now) }
{
    let rest = mark_at(bytes, MARK)?;
    let rest = mark_at(rest, FORMAT)?;
    let (client, rest) = u8_at(rest, 1, 64)?;
    let (epoch, rest) = u64_at(rest, 1, u64::MAX)?;
    let (txn, rest) = u64_at(rest, 1, u64::MAX)?;
    let (position, rest) = position_at(rest)?;
    let (tree, rest) = u8_at(rest, 1, 16)?;
    let (page, rest) = u64_at(rest, 0, u64::MAX)?;
    let (number, rest) = u64_at(rest, 1, u64::MAX)?;
    let (change, rest) = read_change(alloc, rest)?;
    Ok((
        AtomicRec {
            client: client_of(client),
            epoch,
            txn,
            index: position.0,
            count: position.1,
            tree: tree_of(tree),
            page,
            number,
            change,
        },
        rest,
    ))
}

/// The record that all of the bytes spell.
fn whole_record(alloc: Global, bytes: &[u8]) -> Result<AtomicRec, ReadFault>
    ensures { GivesOwned (λ r. r) result (whole atomic_record bytes.now) }
{
    let (rec, rest) = front_record(alloc, bytes)?;
    if !rest.is_empty() {
        return Err(ReadFault::Stopped(Stop::at(rest)));
    }
    Ok(rec)
}

/// Appends the spelling of the record.
fn add_record(out: &mut Vec<u8>, rec: &AtomicRec) -> Result<(), AllocError>
    requires { HasPlace rec.now }
    ensures spelling { OnOk result (out.new.items ≡ out.old.items ++ atomic_bytes rec.now) }
    ensures valid { OnOk result (IsAtomicRecord rec.now) }
{
    try_add(out, &[MARK, FORMAT, rec.client.get() as u8])?;
    try_add_u64(out, rec.epoch)?;
    try_add_u64(out, rec.txn)?;
    try_add(out, &[rec.index, rec.count, rec.tree.get() as u8])?;
    try_add_u64(out, rec.page)?;
    try_add_u64(out, rec.number)?;
    add_change(out, &rec.change)?;
    Ok(())
}

impl AtomicRec {
    /// The record that the bytes spell, all of them.
    pub fn read(alloc: Global, bytes: &[u8]) -> Result<AtomicRec, RecFault>
        // What is read is spelled so.
        ensures found { IfOk result (λ r. IsAtomicRecord r × IsSpelling atomic_record bytes.now r) }
        // What is spelled so is read, unless memory runs out.
        ensures only { (r : AtomicRec) → IsSpelling atomic_record bytes.now r → Answers result r }
        // Other bytes are refused at the first field that fails.
        ensures offset { IfErr result (λ e. IsAt e (atomic_offset bytes.now)) }
        ensures decoded { Decodes result (atomic_of bytes.now) }
    {
        match whole_record(alloc, bytes) {
            Ok(rec) => Ok(rec),
            Err(ReadFault::Stopped(stop)) => Err(RecFault::NotRecord {
                offset: stop.offset(bytes),
            }),
            Err(ReadFault::Memory) => Err(RecFault::Memory),
        }
    }

    /// The one spelling of the record.
    pub fn write(&self, alloc: Global) -> Result<Blob, RecFault>
        requires { HasPlace self.now }
        ensures spelling { IfOk result (λ b. IsAtomicRecord self.now × IsSpelling atomic_record b self.now) }
        ensures decoded { IfOk result (λ b. atomic_of b ≡ Some self.now) }
        ensures memory { IfErr result (λ e. e ≡ RecFault.Memory) }
    {
        let mut out = Vec::with_capacity(alloc, USUAL_LEN)?;
        add_record(&mut out, self)?;
        Ok(Blob::of(out))
    }
}
