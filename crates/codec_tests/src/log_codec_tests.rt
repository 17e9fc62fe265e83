use crate::refusals::{Reads, refuses_changes, refuses_cuts};
use db_base::blob::Blob;
use log_codec::fault::RecFault;
use log_codec::record::{AtomicRec, PuRec};
use std::alloc::Global;

/// Client 1, epoch 1, transaction 1, number 1, an insert.
const PU: [u8; 33] = [
    0x50, 1, 1, 0, 0, 0, 0, 0, 0, 0, 1, 0, 0, 0, 0, 0, 0, 0, 1, 0, 0, 0, 0, 0, 0, 0, 1, 1, 1, 0x6b,
    0, 1, 0x76,
];

/// Client 1, epoch 1, transaction 1, the only record, number 1 of the tree queue of tree 1, an insert.
const ATOMIC: [u8; 44] = [
    0x41, 1, 1, 0, 0, 0, 0, 0, 0, 0, 1, 0, 0, 0, 0, 0, 0, 0, 1, 1, 1, 1, 0, 0, 0, 0, 0, 0, 0, 0, 0,
    0, 0, 0, 0, 0, 0, 1, 1, 1, 0x6b, 0, 1, 0x76,
];

/// PU with the attribute a.
const PU_WITH: [u8; 35] = [
    0x50, 1, 1, 0, 0, 0, 0, 0, 0, 0, 1, 0, 0, 0, 0, 0, 0, 0, 1, 0, 0, 0, 0, 0, 0, 0, 1, 5, 1, 0x6b,
    0, 1, 0x76, 1, 0x61,
];

/// ATOMIC with the attribute a.
const ATOMIC_WITH: [u8; 46] = [
    0x41, 1, 1, 0, 0, 0, 0, 0, 0, 0, 1, 0, 0, 0, 0, 0, 0, 0, 1, 1, 1, 1, 0, 0, 0, 0, 0, 0, 0, 0, 0,
    0, 0, 0, 0, 0, 0, 1, 5, 1, 0x6b, 0, 1, 0x76, 1, 0x61,
];

/// How many bytes of PU_WITH are there, and where it is refused.
const PU_WITH_CUTS: [(usize, u64); 3] = [(32, 30), (33, 33), (34, 33)];

/// A place in PU_WITH, the byte that stands there instead, and where that is refused. Place 35 is behind the end.
const PU_WITH_CHANGES: [(usize, u8, u64); 8] = [
    (27, 0, 27),
    (27, 1, 33),
    (27, 2, 33),
    (27, 6, 27),
    (33, 0, 33),
    (33, 2, 33),
    (33, 33, 33),
    (35, 0, 35),
];

/// How many bytes of PU are there, and where it is refused.
const PU_CUTS: [(usize, u64); 9] = [
    (0, 0),
    (1, 1),
    (2, 2),
    (10, 3),
    (18, 11),
    (26, 19),
    (27, 27),
    (29, 28),
    (32, 30),
];

/// A place in PU, the byte that stands there instead, and where that is refused. Place 33 is behind the end.
const PU_CHANGES: [(usize, u8, u64); 17] = [
    (0, 0x41, 0),
    (1, 2, 1),
    (2, 0, 2),
    (2, 65, 2),
    (10, 0, 3),
    (18, 0, 11),
    (26, 0, 19),
    (27, 0, 27),
    (27, 6, 27),
    (27, 5, 33),
    (27, 4, 30),
    (27, 3, 30),
    (28, 0, 28),
    (28, 65, 28),
    (30, 5, 30),
    (31, 2, 30),
    (33, 0, 33),
];

const ATOMIC_CUTS: [(usize, u64); 13] = [
    (0, 0),
    (1, 1),
    (2, 2),
    (10, 3),
    (18, 11),
    (19, 19),
    (20, 20),
    (21, 21),
    (29, 22),
    (37, 30),
    (38, 38),
    (40, 39),
    (43, 41),
];

const ATOMIC_CHANGES: [(usize, u8, u64); 20] = [
    (0, 0x50, 0),
    (1, 0, 1),
    (2, 0, 2),
    (10, 0, 3),
    (18, 0, 11),
    (19, 0, 19),
    (19, 2, 20),
    (20, 0, 20),
    (20, 201, 20),
    (21, 0, 21),
    (21, 17, 21),
    (37, 0, 30),
    (38, 0, 38),
    (38, 3, 41),
    (38, 4, 41),
    (38, 5, 44),
    (38, 6, 38),
    (39, 0, 39),
    (42, 2, 41),
    (44, 1, 44),
];

/// Reads bytes as a record of a pending update.
struct Updates;

impl Reads for Updates {
    fn fault_of(alloc: Global, bytes: &[u8]) -> Option<u64> {
        match PuRec::read(alloc, bytes) {
            Err(RecFault::NotRecord { offset }) => Some(offset),
            _ => None,
        }
    }
}

/// Reads bytes as a record of a commit.
struct Commits;

impl Reads for Commits {
    fn fault_of(alloc: Global, bytes: &[u8]) -> Option<u64> {
        match AtomicRec::read(alloc, bytes) {
            Err(RecFault::NotRecord { offset }) => Some(offset),
            _ => None,
        }
    }
}

/// The bytes as which a record is written that is read from bytes.
fn pu_again(alloc: Global, bytes: &[u8]) -> Option<Blob> {
    match PuRec::read(alloc, bytes) {
        Ok(record) => record.write(alloc).ok(),
        Err(_) => None,
    }
}

fn atomic_again(alloc: Global, bytes: &[u8]) -> Option<Blob> {
    match AtomicRec::read(alloc, bytes) {
        Ok(record) => record.write(alloc).ok(),
        Err(_) => None,
    }
}

/// Whether there is a spelling, and it is these bytes.
fn is_spelled(spelling: Option<Blob>, bytes: &[u8]) -> bool {
    match spelling {
        Some(spelling) => spelling.as_slice() == bytes,
        None => false,
    }
}

#[test]
fn vectors(rt: HostRuntime) {
    assert!(rt; is_spelled(pu_again(rt.alloc(), &PU), &PU));
    assert!(rt; is_spelled(atomic_again(rt.alloc(), &ATOMIC), &ATOMIC));
    assert!(rt; is_spelled(pu_again(rt.alloc(), &PU_WITH), &PU_WITH));
    assert!(rt; is_spelled(atomic_again(rt.alloc(), &ATOMIC_WITH), &ATOMIC_WITH));
}

/// Whether client, epoch, transaction and number of a copy of a record are 1.
fn is_copied(alloc: Global, record: &PuRec) -> bool {
    match record.copied(alloc) {
        Ok(copy) => copy.client.get() == 1 && copy.epoch == 1 && copy.txn == 1 && copy.number == 1,
        Err(_) => false,
    }
}

/// Whether bytes are read as a record of which the copy is so.
fn are_copied(alloc: Global, bytes: &[u8]) -> bool {
    match PuRec::read(alloc, bytes) {
        Ok(record) => is_copied(alloc, &record),
        Err(_) => false,
    }
}

#[test]
fn copies(rt: HostRuntime) {
    assert!(rt; are_copied(rt.alloc(), &PU));
    assert!(rt; are_copied(rt.alloc(), &PU_WITH));
}

#[test]
fn refused_pu_records(rt: HostRuntime) {
    assert!(rt; refuses_cuts::<Updates>(rt.alloc(), &PU, &PU_CUTS));
    assert!(rt; refuses_changes::<Updates>(rt.alloc(), &PU, &PU_CHANGES));
    assert!(rt; refuses_cuts::<Updates>(rt.alloc(), &PU_WITH, &PU_WITH_CUTS));
    assert!(rt; refuses_changes::<Updates>(rt.alloc(), &PU_WITH, &PU_WITH_CHANGES));
}

#[test]
fn refused_atomic_records(rt: HostRuntime) {
    assert!(rt; refuses_cuts::<Commits>(rt.alloc(), &ATOMIC, &ATOMIC_CUTS));
    assert!(rt; refuses_changes::<Commits>(rt.alloc(), &ATOMIC, &ATOMIC_CHANGES));
}
