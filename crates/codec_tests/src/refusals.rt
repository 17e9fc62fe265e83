//! Whether bytes are refused where a table says.

use std::alloc::Global;

/// What is read from bytes.
pub(crate) trait Reads {
    /// Where bytes are refused.
    fn fault_of(alloc: Global, bytes: &[u8]) -> Option<u64>;
}

/// Whether the first so many bytes are refused where each row says.
pub(crate) fn refuses_cuts<R: Reads>(alloc: Global, bytes: &[u8], rows: &[(usize, u64)]) -> bool {
    for (len, offset) in rows {
        let Some(front) = bytes.get(..*len) else {
            return false;
        };
        if R::fault_of(alloc, front) != Some(*offset) {
            return false;
        }
    }
    true
}

/// Changes a byte, or adds it behind the end.
fn put(bytes: &mut Vec<u8>, at: usize, value: u8) -> bool {
    if at < bytes.len() {
        bytes[at] = value;
        true
    } else {
        bytes.push(value).is_ok()
    }
}

/// The bytes with one of them changed, or added behind the end.
pub(crate) fn changed(alloc: Global, bytes: &[u8], at: usize, value: u8) -> Option<Vec<u8>> {
    let mut changed = bytes.to_vec(alloc).ok()?;
    if !put(&mut changed, at, value) {
        return None;
    }
    Some(changed)
}

/// Where bytes are refused with one of them changed, or added behind the end.
fn changed_fault<R: Reads>(alloc: Global, bytes: &[u8], at: usize, value: u8) -> Option<u64> {
    match changed(alloc, bytes, at, value) {
        Some(changed) => R::fault_of(alloc, changed.as_slice()),
        None => None,
    }
}

/// Whether bytes with one of them changed are refused where each row says.
pub(crate) fn refuses_changes<R: Reads>(
    alloc: Global,
    bytes: &[u8],
    rows: &[(usize, u8, u64)],
) -> bool {
    for (at, value, offset) in rows {
        if changed_fault::<R>(alloc, bytes, *at, *value) != Some(*offset) {
            return false;
        }
    }
    true
}
