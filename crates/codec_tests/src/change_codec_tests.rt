use byte_format::ReadFault;
use change_codec::{add_change, client_of, read_change, tree_of};
use db_base::change::Change;
use std::alloc::Global;

pub(crate) const INSERT: [u8; 6] = [1, 1, 0x6b, 0, 1, 0x76];

pub(crate) const UPDATE: [u8; 5] = [2, 1, 0x6b, 0, 0];

pub(crate) const DELETE: [u8; 4] = [3, 2, 0x6b, 0x6c];

/// Of 256.
pub(crate) const ADD: [u8; 11] = [4, 1, 0x6b, 0, 0, 0, 0, 0, 0, 1, 0];

/// The insert with the attribute a.
pub(crate) const WITH: [u8; 8] = [5, 1, 0x6b, 0, 1, 0x76, 1, 0x61];

/// Bytes that begin with no change, and how many are left from the field on that fails.
const REFUSED: [(&[u8], usize); 20] = [
    (&[], 0),
    (&[0, 1, 0x6b, 0, 0], 5),
    (&[6, 1, 0x6b, 0, 0], 5),
    (&[5, 1, 0x6b, 0], 1),
    (&[5, 1, 0x6b, 0, 0], 0),
    (&[5, 1, 0x6b, 0, 0, 0], 1),
    (&[5, 1, 0x6b, 0, 0, 33, 0x61], 2),
    (&[5, 1, 0x6b, 0, 0, 2, 0x61], 2),
    (&[4, 1, 0x6b, 0, 0], 2),
    (&[4, 1, 0x6b, 0, 0, 0, 0, 0, 0, 1], 7),
    (&[1], 0),
    (&[1, 0, 0, 0], 3),
    (&[3, 65, 0x6b], 2),
    (&[3, 2, 0x6b], 2),
    (&[3, 1], 1),
    (&[1, 1, 0x6b], 0),
    (&[1, 1, 0x6b, 0], 1),
    (&[2, 1, 0x6b, 0, 1], 2),
    (&[2, 1, 0x6b, 4, 1, 0x76], 3),
    (&[2, 1, 0x6b, 255, 255], 2),
];

/// Whether a change is written as these bytes, behind none.
fn is_added(out: &mut Vec<u8>, change: &Change, bytes: &[u8]) -> bool {
    add_change(out, change).is_ok() && out.as_slice() == bytes
}

/// Whether a change is written as these bytes.
fn is_change(alloc: Global, change: &Change, bytes: &[u8]) -> bool {
    let mut out = Vec::new(alloc);
    is_added(&mut out, change, bytes)
}

/// Whether bytes are read as a change with nothing behind it, which is written as these bytes.
fn is_written_back(alloc: Global, bytes: &[u8]) -> bool {
    match read_change(alloc, bytes) {
        Ok((change, rest)) => rest.is_empty() && is_change(alloc, &change, bytes),
        Err(_) => false,
    }
}

/// How many bytes are left where they are refused as a change.
fn left_of(alloc: Global, bytes: &[u8]) -> Option<usize> {
    match read_change(alloc, bytes) {
        Err(ReadFault::Stopped(stop)) => Some(stop.left),
        _ => None,
    }
}

/// Whether each row's bytes are refused where it says.
fn are_refused(alloc: Global, rows: &[(&[u8], usize)]) -> bool {
    for (bytes, left) in rows {
        if left_of(alloc, bytes) != Some(*left) {
            return false;
        }
    }
    true
}

#[test]
fn changes(rt: HostRuntime) {
    assert!(rt; is_written_back(rt.alloc(), &INSERT));
    assert!(rt; is_written_back(rt.alloc(), &UPDATE));
    assert!(rt; is_written_back(rt.alloc(), &DELETE));
    assert!(rt; is_written_back(rt.alloc(), &ADD));
    assert!(rt; is_written_back(rt.alloc(), &WITH));
    assert!(rt; are_refused(rt.alloc(), &REFUSED));
    assert!(rt; client_of(64).get() == 64 && tree_of(16).get() == 16);
}
