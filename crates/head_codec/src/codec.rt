//! Heads read from bytes and written to them.

ghost use Rattle.std.specs.Prelude.{◌≡◌, ◌++◌, OnOk, IfOk, IfErr};
ghost use Rattle.byte_format.specs.Gives.{Gives, GivesOwned};
ghost use Rattle.byte_format.specs.Whole.{whole, IsSpelling};
ghost use Rattle.head_codec.specs.Fault.{Answers, Decodes, IsAt};
ghost use Rattle.head_codec.specs.Spelling.{phase, head, head_at, head_bytes, head_of, head_offset, IsPhase, HasSpelling, FitsTypes, WasOpen};
ghost use Rattle.head_codec.specs.declared.head.Head.{Head};

use crate::counters::{CounterRules, add_counters};
use crate::head::{Head, HeadFault, Phase};
use crate::lists::{CounterList, PendingList};
use crate::pending::{PendingRules, add_pending};
use byte_format::{
    ReadFault, Stop, mark_at, owned_list, try_add, try_add_u8, try_add_u64, u8_at, u64_at,
};
use db_base::blob::Blob;
use std::alloc::{AllocError, Global};

/// The byte that a head begins with.
const MARK: u8 = 0x48;

/// The byte of its format.
const FORMAT: u8 = 1;

// Bytes that make room for the fields of a head at once, for a counter, and for a pending entry whose key and payload are short.
const HEAD_ROOM: usize = 32;

const COUNTER_ROOM: usize = 18;

const ENTRY_ROOM: usize = 48;

// Where the phase stands in a head's spelling, and how many bytes one under way takes.
const PHASE_AT: usize = 18;

const OPEN_PHASE: usize = 2;

/// The phase at the front of bytes, and the bytes behind it.
fn phase_at(bytes: &[u8]) -> Result<(Phase, &[u8]), Stop>
    ensures { Gives (λ x. (x.0, x.1.now)) result (phase.reading bytes.now) }
{
    let (kind, rest) = u8_at(bytes, 0, 1)?;
    if kind == 0 {
        return Ok((Phase::Settled, rest));
    }
    let (count, rest) = u8_at(rest, 1, 200)?;
    Ok((Phase::Open(count), rest))
}

/// The head at the front of bytes, and the bytes behind it.
#[tactic(auto, unfolding(crate::specs::Spelling::head_at))]
fn front_head(alloc: Global, bytes: &[u8]) -> Result<(Head, &[u8]), ReadFault>
    ensures { GivesOwned (λ x. (x.0, x.1.now)) result (head_at bytes.now) }
{
    let rest = mark_at(bytes, MARK)?;
    let rest = mark_at(rest, FORMAT)?;
    let (epoch, rest) = u64_at(rest, 1, u64::MAX)?;
    let (txn, rest) = u64_at(rest, 0, u64::MAX)?;
    let (phase, rest) = phase_at(rest)?;
    let (counters, rest) = owned_list(alloc, &CounterRules, true, rest)?;
    let (pending, rest) = owned_list(alloc, &PendingRules, true, rest)?;
    Ok((
        Head {
            epoch,
            txn,
            phase,
            counters: CounterList::of(counters),
            pending: PendingList::of(alloc, pending),
        },
        rest,
    ))
}

/// The head that all of the bytes spell.
fn whole_head(alloc: Global, bytes: &[u8]) -> Result<Head, ReadFault>
    ensures { GivesOwned (λ h. h) result (whole head bytes.now) }
{
    let (head, rest) = front_head(alloc, bytes)?;
    if !rest.is_empty() {
        return Err(ReadFault::Stopped(Stop::at(rest)));
    }
    Ok(head)
}

/// Appends the spelling of a phase.
fn add_phase(out: &mut Vec<u8>, of: Phase) -> Result<(), AllocError>
    ensures { OnOk result (out.new.items ≡ out.old.items ++ phase.spelling of) }
{
    match of {
        Phase::Settled => try_add(out, &[0]),
        Phase::Open(count) => try_add(out, &[1, count]),
    }
}

/// Appends the spelling of a head.
#[tactic(auto, unfolding(crate::specs::Spelling::head_bytes))]
fn add_head(out: &mut Vec<u8>, of: &Head) -> Result<(), AllocError>
    ensures spelling { OnOk result (out.new.items ≡ out.old.items ++ head_bytes of.now) }
    ensures valid { OnOk result (FitsTypes of.now) }
{
    try_add(out, &[MARK, FORMAT])?;
    try_add_u64(out, of.epoch)?;
    try_add_u64(out, of.txn)?;
    add_phase(out, of.phase)?;
    add_counters(out, of.counters.as_slice())?;
    of.pending.add_to(out)?;
    Ok(())
}

/// Appends the spelling of a settled head, made of the one that it had while its commit of so many records was under way.
#[tactic(auto, using(crate::proofs::Settling::long_enough))]
fn add_settled(out: &mut Vec<u8>, of: &Head, before: &[u8], count: usize) -> Result<(), AllocError>
    requires { WasOpen of.now before.now count }
    ensures spelling { OnOk result (out.new.items ≡ out.old.items ++ head_bytes of.now) }
    ensures valid { OnOk result (FitsTypes of.now) }
{
    let (front, rest) = before.split_at(PHASE_AT);
    let (_, rest) = rest.split_at(OPEN_PHASE);
    let (lists, _) = rest.split_at(rest.len() - 1);
    let pending = of.pending.as_slice();
    let (_, more) = pending.split_at(pending.len() - count);
    try_add(out, front)?;
    try_add_u8(out, 0)?;
    try_add(out, lists)?;
    add_pending(out, more)?;
    Ok(())
}

/// Room for most spellings of a head, so that its writer seldom asks for more.
fn room_for(head: &Head) -> usize {
    let counters = head.counters.as_slice().len();
    let entries = head.pending.as_slice().len();
    HEAD_ROOM
        .saturating_add(counters.saturating_mul(COUNTER_ROOM))
        .saturating_add(entries.saturating_mul(ENTRY_ROOM))
}

impl Head {
    /// The head that the bytes spell, all of them.
    pub fn read(alloc: Global, bytes: &[u8]) -> Result<Head, HeadFault>
        // What is read is spelled so.
        ensures found { IfOk result (λ h. HasSpelling h × FitsTypes h × IsSpelling head bytes.now h) }
        // What is spelled so is read, unless memory runs out.
        ensures only { (h : Head) → IsSpelling head bytes.now h → Answers result h }
        // Other bytes are refused at the first field that fails.
        ensures offset { IfErr result (λ e. IsAt e (head_offset bytes.now)) }
        ensures decoded { Decodes result (head_of bytes.now) }
    {
        match whole_head(alloc, bytes) {
            Ok(head) => Ok(head),
            Err(ReadFault::Stopped(stop)) => Err(HeadFault::NotHead {
                offset: stop.offset(bytes),
            }),
            Err(ReadFault::Memory) => Err(HeadFault::Memory),
        }
    }

    /// The one spelling of the head.
    pub fn write(&self, alloc: Global) -> Result<Blob, HeadFault>
        requires { HasSpelling self.now }
        ensures spelling { IfOk result (λ b. FitsTypes self.now × IsSpelling head b self.now) }
        ensures decoded { IfOk result (λ b. head_of b ≡ Some self.now) }
        ensures memory { IfErr result (λ e. e ≡ HeadFault.Memory) }
    {
        let mut out = Vec::with_capacity(alloc, room_for(self))?;
        add_head(&mut out, self)?;
        Ok(Blob::of(out))
    }

    /// The one spelling of a settled head, from the bytes that it had while its commit of so many records was under way.
    pub fn write_settled(
        &self,
        alloc: Global,
        before: &[u8],
        count: usize,
    ) -> Result<Blob, HeadFault>
        requires spelling { HasSpelling self.now }
        requires before { WasOpen self.now before.now count }
        ensures spelling { IfOk result (λ b. FitsTypes self.now × IsSpelling head b self.now) }
        ensures decoded { IfOk result (λ b. head_of b ≡ Some self.now) }
        ensures memory { IfErr result (λ e. e ≡ HeadFault.Memory) }
    {
        let room = count.saturating_mul(ENTRY_ROOM);
        let mut out = Vec::with_capacity(alloc, before.len().saturating_add(room))?;
        add_settled(&mut out, self, before, count)?;
        Ok(Blob::of(out))
    }
}
