//! Changes with any one byte changed, and fronts of changes: what is read has the one spelling that it was read from, and what is refused
//! is in order up to the field that is named.

use crate::change_codec_tests::{ADD, DELETE, INSERT, UPDATE, WITH};
use crate::leaf_spellings::{add_text8, add_text16};
use crate::refusals::changed;
use byte_format::ReadFault;
use change_codec::read_change;
use db_base::attr::attr_bytes;
use db_base::change::Change;
use std::alloc::Global;
use std::process::Abort;

/// An insert with an attribute of two bytes, and no payload.
const TWO: [u8; 8] = [5, 1, 0x6b, 0, 0, 2, 0x61, 0x62];

fn add_key(out: &mut Vec<u8>, kind: u8, change: &Change) -> Option<()> {
    out.push(kind).ok()?;
    add_text8(out, change.key().as_slice())
}

fn add_insert(
    out: &mut Vec<u8>,
    change: &Change,
    payload: &[u8],
    attr: Option<&[u8]>,
) -> Option<()> {
    match attr {
        None => {
            add_key(out, 1, change)?;
            add_text16(out, payload)
        }
        Some(attr) => {
            add_key(out, 5, change)?;
            add_text16(out, payload)?;
            add_text8(out, attr)
        }
    }
}

fn add_spelling(out: &mut Vec<u8>, change: &Change) -> Option<()> {
    match change {
        Change::Insert { payload, attr, .. } => {
            add_insert(out, change, payload.as_slice(), attr_bytes(attr))
        }
        Change::Update { payload, .. } => {
            add_key(out, 2, change)?;
            add_text16(out, payload.as_slice())
        }
        Change::Delete { .. } => add_key(out, 3, change),
        Change::Add { amount, .. } => {
            add_key(out, 4, change)?;
            out.extend_from_slice(&amount.to_be_bytes()).ok()
        }
    }
}

/// The bytes of a change, and other bytes behind it.
fn spelled(alloc: Global, change: &Change, rest: &[u8]) -> Option<Vec<u8>> {
    let mut out = Vec::new(alloc);
    add_spelling(&mut out, change)?;
    out.extend_from_slice(rest).ok()?;
    Some(out)
}

/// Whether bytes end before a field of a change, behind fields that are in order.
fn is_in_order(alloc: Global, bytes: &[u8]) -> bool {
    match read_change(alloc, bytes) {
        Err(ReadFault::Stopped(stop)) => stop.left == 0,
        _ => false,
    }
}

/// Whether the bytes are in order up to the field with which these last ones begin.
fn is_refused_behind(alloc: Global, bytes: &[u8], left: usize) -> bool {
    match bytes
        .len()
        .checked_sub(left)
        .and_then(|place| bytes.get(..place))
    {
        Some(front) => is_in_order(alloc, front),
        None => false,
    }
}

/// Whether bytes are read as the change that they begin with, or are refused behind what is in order.
fn is_one_spelling(alloc: Global, bytes: &[u8]) -> bool {
    match read_change(alloc, bytes) {
        Ok((change, rest)) => match spelled(alloc, &change, rest) {
            Some(again) => again.as_slice() == bytes,
            None => false,
        },
        Err(ReadFault::Stopped(stop)) => is_refused_behind(alloc, bytes, stop.left),
        Err(ReadFault::Memory) => false,
    }
}

/// Whether that holds where any one byte is another.
fn are_spellings(alloc: Global, bytes: &[u8]) -> bool {
    for at in 0..bytes.len() {
        for value in 0..=u8::MAX {
            let Some(changed) = changed(alloc, bytes, at, value) else {
                return false;
            };
            if !is_one_spelling(alloc, changed.as_slice()) {
                return false;
            }
        }
    }
    true
}

/// Whether each front of the bytes is refused behind what is in order.
fn are_cut_short(alloc: Global, bytes: &[u8]) -> bool {
    for len in 0..bytes.len() {
        let Some(front) = bytes.get(..len) else {
            return false;
        };
        if read_change(alloc, front).is_ok() || !is_one_spelling(alloc, front) {
            return false;
        }
    }
    true
}

#[test]
fn any_byte_is_another(rt: HostRuntime) {
    assert!(rt; are_spellings(rt.alloc(), &INSERT));
    assert!(rt; are_spellings(rt.alloc(), &UPDATE));
    assert!(rt; are_spellings(rt.alloc(), &DELETE));
    assert!(rt; are_spellings(rt.alloc(), &ADD));
    assert!(rt; are_spellings(rt.alloc(), &WITH));
    assert!(rt; are_spellings(rt.alloc(), &TWO));
}

#[test]
fn fronts_are_cut_short(rt: HostRuntime) {
    assert!(rt; are_cut_short(rt.alloc(), &INSERT));
    assert!(rt; are_cut_short(rt.alloc(), &UPDATE));
    assert!(rt; are_cut_short(rt.alloc(), &DELETE));
    assert!(rt; are_cut_short(rt.alloc(), &ADD));
    assert!(rt; are_cut_short(rt.alloc(), &WITH));
    assert!(rt; are_cut_short(rt.alloc(), &TWO));
}
