ghost use Rattle.std.specs.Prelude.{◌≡◌, ◌++◌, OnOk, IfOk, IfErr, Some};
ghost use Rattle.byte_format.specs.Gives.{GivesOwned};
ghost use Rattle.byte_format.specs.Whole.{whole, IsSpelling};
ghost use Rattle.log_codec.specs.Fault.{Answers, Decodes, IsAt};
ghost use Rattle.log_codec.specs.Pu.{pu_at, pu_record, pu_of, pu_offset, pu_bytes, pu_fits, IsPuRecord, CountsFromOne, pu_with};

use crate::fault::RecFault;
use crate::record::{AtomicRec, PuRec};
use byte_format::{ReadFault, Stop, mark_at, try_add, try_add_u64, u8_at, u64_at};
use change_codec::{add_change, client_of, read_change};
use db_base::blob::Blob;
use db_base::change::Change;
use db_base::ids::ClientId;
use std::alloc::{AllocError, Global};

/// The byte that a pending update record begins with.
const MARK: u8 = 0x50;

/// The byte of its format.
const FORMAT: u8 = 1;

/// Room for the bytes of most records, so that few grow while they are written.
pub(crate) const USUAL_LEN: usize = 128;

/// The record at the front of bytes, and the bytes behind it.
#[tactic(auto, unfolding(crate::specs::Pu::pu_at))]
fn front_record(alloc: Global, bytes: &[u8]) -> Result<(PuRec, &[u8]), ReadFault>
    ensures { GivesOwned (λ x. (x.0, x.1.now)) result (pu_at bytes.now) }
{
    let rest = mark_at(bytes, MARK)?;
    let rest = mark_at(rest, FORMAT)?;
    let (client, rest) = u8_at(rest, 1, 64)?;
    let (epoch, rest) = u64_at(rest, 1, u64::MAX)?;
    let (txn, rest) = u64_at(rest, 1, u64::MAX)?;
    let (number, rest) = u64_at(rest, 1, u64::MAX)?;
    let (change, rest) = read_change(alloc, rest)?;
    Ok((
        PuRec {
            client: client_of(client),
            epoch,
            txn,
            number,
            change,
        },
        rest,
    ))
}

/// The record that all of the bytes spell.
fn whole_record(alloc: Global, bytes: &[u8]) -> Result<PuRec, ReadFault>
    ensures { GivesOwned (λ r. r) result (whole pu_record bytes.now) }
{
    let (rec, rest) = front_record(alloc, bytes)?;
    if !rest.is_empty() {
        return Err(ReadFault::Stopped(Stop::at(rest)));
    }
    Ok(rec)
}

/// Appends the spelling of the record of these parts.
#[tactic(auto, unfolding(crate::specs::Pu::pu_bytes))]
fn add_parts(
    out: &mut Vec<u8>,
    client: ClientId,
    epoch: u64,
    txn: u64,
    number: u64,
    change: &Change,
) -> Result<(), AllocError>
    requires { CountsFromOne (pu_with client epoch txn number change.now) }
    ensures spelling { OnOk result (out.new.items ≡ out.old.items ++ pu_bytes (pu_with client epoch txn number change.now)) }
    ensures valid { OnOk result (IsPuRecord (pu_with client epoch txn number change.now)) }
{
    try_add(out, &[MARK, FORMAT, client.get() as u8])?;
    try_add_u64(out, epoch)?;
    try_add_u64(out, txn)?;
    try_add_u64(out, number)?;
    add_change(out, change)?;
    Ok(())
}

/// Appends the spelling of the record.
fn add_record(out: &mut Vec<u8>, rec: &PuRec) -> Result<(), AllocError>
    requires { CountsFromOne rec.now }
    ensures spelling { OnOk result (out.new.items ≡ out.old.items ++ pu_bytes rec.now) }
    ensures valid { OnOk result (IsPuRecord rec.now) }
{
    add_parts(out, rec.client, rec.epoch, rec.txn, rec.number, &rec.change)
}

impl AtomicRec {
    /// The one spelling of the record as it stands in its pending update queue, which takes no copy of the change.
    pub fn write_pending(&self, alloc: Global) -> Result<Blob, RecFault>
        requires { CountsFromOne (pu_with self.now.client self.now.epoch self.now.txn self.now.number self.now.change) }
        ensures bytes { IfOk result (λ b. b ≡ pu_bytes (pu_with self.now.client self.now.epoch self.now.txn self.now.number self.now.change)) }
        ensures decoded { IfOk result (λ b. pu_of b ≡ Some (pu_with self.now.client self.now.epoch self.now.txn self.now.number self.now.change)) }
        ensures memory { IfErr result (λ e. e ≡ RecFault.Memory) }
    {
        let mut out = Vec::with_capacity(alloc, USUAL_LEN)?;
        add_parts(
            &mut out,
            self.client,
            self.epoch,
            self.txn,
            self.number,
            &self.change,
        )?;
        Ok(Blob::of(out))
    }
}

impl PuRec {
    /// The record that the bytes spell, all of them.
    pub fn read(alloc: Global, bytes: &[u8]) -> Result<PuRec, RecFault>
        // What is read is spelled so.
        ensures found { IfOk result (λ r. IsPuRecord r × IsSpelling pu_record bytes.now r) }
        // What is spelled so is read, unless memory runs out.
        ensures only { (r : PuRec) → IsSpelling pu_record bytes.now r → Answers result r }
        // Other bytes are refused at the first field that fails.
        ensures offset { IfErr result (λ e. IsAt e (pu_offset bytes.now)) }
        ensures decoded { Decodes result (pu_of bytes.now) }
    {
        match whole_record(alloc, bytes) {
            Ok(rec) => Ok(rec),
            Err(ReadFault::Stopped(stop)) => Err(RecFault::NotRecord {
                offset: stop.offset(bytes),
            }),
            Err(ReadFault::Memory) => Err(RecFault::Memory),
        }
    }

    /// The one spelling of the record.
    pub fn write(&self, alloc: Global) -> Result<Blob, RecFault>
        requires { CountsFromOne self.now }
        ensures spelling { IfOk result (λ b. IsPuRecord self.now × IsSpelling pu_record b self.now) }
        ensures decoded { IfOk result (λ b. pu_of b ≡ Some self.now) }
        ensures memory { IfErr result (λ e. e ≡ RecFault.Memory) }
    {
        let mut out = Vec::with_capacity(alloc, USUAL_LEN)?;
        add_record(&mut out, self)?;
        Ok(Blob::of(out))
    }
}
