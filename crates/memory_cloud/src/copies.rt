ghost use Rattle.std.specs.Prelude.{◌≡◌, ◌++◌, ◌-◌, length, take, is_some, OnOk, IfOk};
ghost use Rattle.std.specs.Option.{option_copied};
ghost use Rattle.cloud_trait.specs.Bench.{has_bytes};
ghost use Rattle.cloud_trait.specs.State.{newest_of, version_at, message_at};
ghost use Rattle.memory_cloud.specs.Choice.{chosen, chosen_at};
ghost use Rattle.memory_cloud.specs.Outcome.{old_version};

use crate::kept::Kept;
use crate::shared::Shared;
use cloud_trait::message::Message;
use cloud_trait::state::Posted;
use db_base::blob::Blob;
use db_base::ids::MsgId;
use std::alloc::{AllocError, Global};

// The bytes of the newest version.
fn newest_bytes(versions: &[Kept]) -> Option<&Shared>
    ensures { option_copied result ≡ newest_of versions.now }
{
    match versions.last() {
        Some(version) => version.bytes(),
        None => None,
    }
}

/// Whether the newest version has bytes.
pub fn is_there(versions: &[Kept]) -> bool
    ensures { result ≡ is_some (newest_of versions.now) }
{
    newest_bytes(versions).is_some()
}

// The bytes of the n-th version, from 1.
fn version_bytes(versions: &[Kept], n: u64) -> Option<&Shared>
    ensures { option_copied result ≡ version_at versions.now n }
{
    if n == 0 {
        return None;
    }
    match versions.get((n - 1) as usize) {
        Some(version) => version.bytes(),
        None => None,
    }
}

/// The bytes of the message of this number, from 1.
pub fn message_bytes(messages: &[Posted], id: u64) -> Option<&[u8]>
    ensures { option_copied result ≡ message_at messages.now id }
{
    if id == 0 {
        return None;
    }
    match messages.get((id - 1) as usize) {
        Some(message) => Some(message.bytes.as_slice()),
        None => None,
    }
}

// A copy of bytes, where there are some.
fn copied(alloc: Global, bytes: Option<&Shared>) -> Result<Option<Blob>, AllocError>
    ensures { IfOk result (λ v. v ≡ option_copied bytes.entry) }
{
    match bytes {
        Some(bytes) => Ok(Some(bytes.copy(alloc)?)),
        None => Ok(None),
    }
}

/// A copy of the newest version's bytes.
pub fn copy_newest(alloc: Global, versions: &[Kept]) -> Result<Option<Blob>, AllocError>
    ensures { IfOk result (λ v. v ≡ newest_of versions.now) }
{
    copied(alloc, newest_bytes(versions))
}

/// Whether the newest version has these bytes.
pub fn newest_has(versions: &[Kept], bytes: &[u8]) -> bool
    ensures { result ≡ has_bytes (newest_of versions.now) bytes.now }
{
    match newest_bytes(versions) {
        Some(newest) => newest.is(bytes),
        None => false,
    }
}

/// Whether the n-th version, from 1, has these bytes.
pub fn version_has(versions: &[Kept], n: u64, bytes: &[u8]) -> bool
    ensures { result ≡ has_bytes (version_at versions.now n) bytes.now }
{
    match version_bytes(versions, n) {
        Some(version) => version.is(bytes),
        None => false,
    }
}

/// Whether the n-th version, from 1, is there with bytes.
pub fn has_version(versions: &[Kept], n: u64) -> bool
    ensures { result ≡ is_some (version_at versions.now n) }
{
    version_bytes(versions, n).is_some()
}

/// A copy of the n-th version's bytes, or of the newest where n is too large.
pub fn copy_old(alloc: Global, versions: &[Kept], n: u64) -> Result<Option<Blob>, AllocError>
    ensures { IfOk result (λ v. v ≡ old_version versions.now n) }
{
    let n = n.min(versions.len() as u64);
    copied(alloc, version_bytes(versions, n))
}

/// Copies of the first so many messages at these positions.
pub fn copy_chosen(
    alloc: Global,
    messages: &[Posted],
    positions: &[u64],
    most: usize,
) -> Result<Vec<Message>, AllocError>
    ensures { IfOk result (λ v. v.items ≡ take most (chosen messages.now positions.now)) }
{
    let mut out = Vec::new(alloc);
    add_chosen(alloc, &mut out, messages, positions, most)?;
    Ok(out)
}

/// Adds copies of the messages at these positions, in turn, while there are fewer than so many.
pub fn add_chosen(
    alloc: Global,
    out: &mut Vec<Message>,
    messages: &[Posted],
    positions: &[u64],
    most: usize,
) -> Result<(), AllocError>
    ensures { OnOk result (out.new.items ≡ out.old.items
        ++ take (most - length out.old.items) (chosen messages.now positions.now)) }
{
    let mut left = positions;
    while let Some((position, rest)) = left.split_first() {
        if out.len() >= most {
            break;
        }
        push_chosen(alloc, out, messages, *position)?;
        left = rest;
    }
    Ok(())
}

// Adds a copy of the message at a position, if there is one.
fn push_chosen(
    alloc: Global,
    out: &mut Vec<Message>,
    messages: &[Posted],
    position: u64,
) -> Result<(), AllocError>
    ensures { OnOk result (out.new.items ≡ out.old.items ++ chosen_at messages.now position) }
{
    if let Some(bytes) = message_bytes(messages, position) {
        let bytes = Blob::copy_of(alloc, bytes)?;
        out.push(Message {
            id: MsgId::new(position),
            bytes,
        })?;
    }
    Ok(())
}
