//! Changes read from bytes.

ghost use Rattle.std.specs.Prelude.{◌≡◌};
ghost use Rattle.std.specs.Int.{w8, w16};
ghost use Rattle.db_base.specs.Limits.{longest_key, longest_payload};
ghost use Rattle.byte_format.specs.Format.{text_at};
ghost use Rattle.byte_format.specs.Gives.{GivesOwned};
ghost use Rattle.change_codec.specs.Change.{change_at};

use byte_format::{ReadFault, text8_at, text16_at, u8_at, u64_at};
use db_base::attr::Attr;
use db_base::change::Change;
use db_base::key::{Key, Payload};
use db_base::refusal::Refused;
use std::alloc::Global;

/// The key at the front of bytes, behind its length, and the bytes behind it.
fn key_at(alloc: Global, bytes: &[u8]) -> Result<(Key, &[u8]), ReadFault>
    ensures { GivesOwned (λ x. (x.0, x.1.now)) result (text_at w8 1 longest_key bytes.now) }
{
    let (text, rest) = text8_at(bytes, 1, 64)?;
    match Key::new(alloc, text) {
        Ok(key) => Ok((key, rest)),
        Err(Refused::Memory) => Err(ReadFault::Memory),
        Err(Refused::Rule(_)) => unreachable!(),
    }
}

/// The payload at the front of bytes, behind its length, and the bytes behind it.
fn payload_at(alloc: Global, bytes: &[u8]) -> Result<(Payload, &[u8]), ReadFault>
    ensures { GivesOwned (λ x. (x.0, x.1.now)) result (text_at w16 0 longest_payload bytes.now) }
{
    let (text, rest) = text16_at(bytes, 0, 1024)?;
    match Payload::new(alloc, text) {
        Ok(payload) => Ok((payload, rest)),
        Err(Refused::Memory) => Err(ReadFault::Memory),
        Err(Refused::Rule(_)) => unreachable!(),
    }
}

/// The attribute at the front of bytes, behind its length, and the bytes behind it.
fn attr_at(alloc: Global, bytes: &[u8]) -> Result<(Attr, &[u8]), ReadFault>
    ensures { GivesOwned (λ x. (x.0, x.1.now)) result (text_at w8 1 32 bytes.now) }
{
    let (text, rest) = text8_at(bytes, 1, 32)?;
    match Attr::new(alloc, text) {
        Ok(attr) => Ok((attr, rest)),
        Err(Refused::Memory) => Err(ReadFault::Memory),
        Err(Refused::Rule(_)) => unreachable!(),
    }
}

/// The change at the front of bytes, and the bytes behind it.
#[tactic(auto, unfolding(crate::specs::Change::change_at))]
pub fn read_change(alloc: Global, bytes: &[u8]) -> Result<(Change, &[u8]), ReadFault>
    ensures { GivesOwned (λ x. (x.0, x.1.now)) result (change_at bytes.now) }
{
    let (kind, rest) = u8_at(bytes, 1, 5)?;
    let (key, rest) = key_at(alloc, rest)?;
    if kind == 3 {
        return Ok((Change::Delete { key }, rest));
    }
    if kind == 4 {
        let (amount, rest) = u64_at(rest, 0, u64::MAX)?;
        return Ok((Change::Add { key, amount }, rest));
    }
    let (payload, rest) = payload_at(alloc, rest)?;
    if kind == 2 {
        return Ok((Change::Update { key, payload }, rest));
    }
    let (attr, rest) = if kind == 5 {
        let (attr, rest) = attr_at(alloc, rest)?;
        (Some(attr), rest)
    } else {
        (None, rest)
    };
    Ok((Change::Insert { key, payload, attr }, rest))
}
