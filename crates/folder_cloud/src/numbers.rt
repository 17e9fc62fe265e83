//! Numbers as files hold them and as they stand in the names of files.

ghost use Rattle.std.specs.Prelude.{◌<◌};
ghost use Rattle.cloud_trait.specs.State.{greatest};

use cloud_trait::state::Hold;
use std::alloc::{AllocError, Global};

/// The number that eight bytes spell, the most significant one first.
pub(crate) fn number_in(bytes: &[u8]) -> Option<u64> {
    match bytes {
        [a, b, c, d, e, f, g, h] => { Some(u64::from_be_bytes([*a, *b, *c, *d, *e, *f, *g, *h])) }
        _ => None,
    }
}

/// The number that the bytes note; 0 where they note none: the greatest is a number that is lost, since no message has it.
pub(crate) fn noted_in(bytes: &[u8]) -> u64
    ensures lost { result < greatest }
{
    match number_in(bytes) {
        Some(number) if number < u64::MAX => number,
        _ => 0,
    }
}

/// How a lock stands: its generation and its end.
pub(crate) fn hold_in(bytes: &[u8]) -> Option<Hold> {
    let (generation, until) = bytes.split_at_checked(8)?;
    Some(Hold {
        generation: number_in(generation)?,
        until: number_in(until)?,
    })
}

/// The bytes that `hold_in` reads.
pub(crate) fn hold_bytes(alloc: Global, hold: Hold) -> Result<Vec<u8>, AllocError> {
    let mut bytes = hold.generation.to_be_bytes().to_vec(alloc)?;
    bytes.extend_from_slice(&hold.until.to_be_bytes())?;
    Ok(bytes)
}

/// The message whose file has this name: sixteen digits in lower-case hexadecimal.
pub(crate) fn id_in(name: &str) -> Option<u64> {
    if name.len() != 16 || !name.bytes().all(|b| matches!(b, b'0'..=b'9' | b'a'..=b'f')) {
        return None;
    }
    u64::from_str_radix(name, 16).ok()
}

/// The name that `id_in` reads.
pub(crate) fn id_name(alloc: Global, id: u64) -> Result<String, AllocError> {
    format!(in alloc; "{id:016x}")
}
