use crate::refusals::{Reads, refuses_changes, refuses_cuts};
use db_base::attr::Attr;
use db_base::blob::Blob;
use db_base::change::Change;
use db_base::ids::TreeId;
use db_base::key::{Key, Payload};
use db_base::refusal::Refused;
use head_codec::entry::Entry;
use head_codec::head::{Head, HeadFault, Phase};
use head_codec::lists::{Pending, PendingList};
use std::alloc::Global;
use std::process::Abort;

/// Epoch 1, transaction 1, settled; one counter and one pending insert, both of the tree queue of tree 1.
const HEAD: [u8; 63] = [
    0x48, 1, 0, 0, 0, 0, 0, 0, 0, 1, 0, 0, 0, 0, 0, 0, 0, 1, 0, 1, 1, 0, 0, 0, 0, 0, 0, 0, 0, 0, 0,
    0, 0, 0, 0, 0, 1, 0, 1, 1, 0, 0, 0, 0, 0, 0, 0, 0, 0, 0, 0, 0, 0, 0, 0, 1, 1, 1, 0x6b, 0, 1,
    0x76, 0,
];

/// HEAD with the attribute a of its pending insert.
const HEAD_WITH: [u8; 65] = [
    0x48, 1, 0, 0, 0, 0, 0, 0, 0, 1, 0, 0, 0, 0, 0, 0, 0, 1, 0, 1, 1, 0, 0, 0, 0, 0, 0, 0, 0, 0, 0,
    0, 0, 0, 0, 0, 1, 0, 1, 1, 0, 0, 0, 0, 0, 0, 0, 0, 0, 0, 0, 0, 0, 0, 0, 1, 5, 1, 0x6b, 0, 1,
    0x76, 1, 0x61, 0,
];

/// Epoch 1, no transaction; counters of pages 2 and 3 of tree 1.
const COUNTERS: [u8; 57] = [
    0x48, 1, 0, 0, 0, 0, 0, 0, 0, 1, 0, 0, 0, 0, 0, 0, 0, 0, 0, 1, 1, 0, 0, 0, 0, 0, 0, 0, 2, 0, 0,
    0, 0, 0, 0, 0, 1, 1, 1, 0, 0, 0, 0, 0, 0, 0, 3, 0, 0, 0, 0, 0, 0, 0, 1, 0, 0,
];

/// Epoch 1, transaction 1 of 200 records under way.
const OPEN: [u8; 22] = [
    0x48, 1, 0, 0, 0, 0, 0, 0, 0, 1, 0, 0, 0, 0, 0, 0, 0, 1, 1, 200, 0, 0,
];

/// HEAD while the commit of its pending entry was under way.
const UNDER_WAY: [u8; 40] = [
    0x48, 1, 0, 0, 0, 0, 0, 0, 0, 1, 0, 0, 0, 0, 0, 0, 0, 1, 1, 1, 1, 1, 0, 0, 0, 0, 0, 0, 0, 0, 0,
    0, 0, 0, 0, 0, 0, 1, 0, 0,
];

/// How many bytes of HEAD are there, and where it is refused.
const CUTS: [(usize, u64); 18] = [
    (0, 0),
    (1, 1),
    (9, 2),
    (17, 10),
    (18, 18),
    (19, 19),
    (20, 20),
    (28, 21),
    (36, 29),
    (37, 37),
    (38, 38),
    (39, 39),
    (47, 40),
    (55, 48),
    (56, 56),
    (58, 57),
    (61, 59),
    (62, 62),
];

/// A place in HEAD, the byte that stands there instead, and where that is refused. Place 63 is behind the end.
const HEAD_CHANGES: [(usize, u8, u64); 23] = [
    (0, 0x49, 0),
    (1, 2, 1),
    (9, 0, 2),
    (18, 2, 18),
    (18, 1, 21),
    (19, 2, 19),
    (20, 0, 20),
    (20, 17, 20),
    (36, 0, 29),
    (37, 2, 37),
    (38, 3, 38),
    (39, 0, 39),
    (39, 17, 39),
    (55, 0, 48),
    (56, 5, 62),
    (56, 6, 56),
    (56, 4, 59),
    (57, 0, 57),
    (60, 3, 59),
    (60, 2, 63),
    (62, 2, 62),
    (62, 1, 63),
    (63, 0, 63),
];

/// A place in HEAD_WITH, the byte that stands there instead, and where that is refused.
const HEAD_WITH_CHANGES: [(usize, u8, u64); 5] = [
    (56, 0, 56),
    (56, 1, 63),
    (62, 0, 62),
    (62, 3, 62),
    (62, 33, 62),
];

const COUNTERS_CHANGES: [(usize, u8, u64); 4] = [
    (46, 2, 39),
    (46, 1, 39),
    (20, 2, 38),
    (54, 0, 47),
];

const OPEN_CHANGES: [(usize, u8, u64); 3] = [(19, 0, 19), (19, 201, 19), (18, 0, 19)];

/// Reads bytes as a head.
struct Heads;

impl Reads for Heads {
    fn fault_of(alloc: Global, bytes: &[u8]) -> Option<u64> {
        match Head::read(alloc, bytes) {
            Err(HeadFault::NotHead { offset }) => Some(offset),
            _ => None,
        }
    }
}

/// The bytes as which a head is written that is read from bytes.
fn again(alloc: Global, bytes: &[u8]) -> Option<Blob> {
    match Head::read(alloc, bytes) {
        Ok(head) => head.write(alloc).ok(),
        Err(_) => None,
    }
}

/// Whether bytes are read as a head, which is written as these bytes.
fn is_written_back(alloc: Global, bytes: &[u8]) -> bool {
    match again(alloc, bytes) {
        Some(written) => written.as_slice() == bytes,
        None => false,
    }
}

#[test]
fn vectors(rt: HostRuntime) {
    assert!(rt; is_written_back(rt.alloc(), &HEAD));
    assert!(rt; is_written_back(rt.alloc(), &HEAD_WITH));
    assert!(rt; is_written_back(rt.alloc(), &COUNTERS));
    assert!(rt; is_written_back(rt.alloc(), &OPEN));
}

/// The bytes of a head whose commit of one record is under way, settled with that record, which has number 1 of a tree queue.
#[tactic(auto, using(head_codec::proofs::Settling::was_open))]
fn settled(alloc: Global, bytes: &[u8], tree: TreeId, change: Change) -> Option<Blob> {
    let Ok(mut head) = Head::read(alloc, bytes) else {
        return None;
    };
    if head.phase != Phase::Open(1) {
        return None;
    }
    let pending = Pending {
        tree,
        page: 0,
        number: 1,
        change,
    };
    let Ok(entry) = Entry::of(alloc, pending) else {
        return None;
    };
    let Ok(()) = head.pending.push(entry) else {
        return None;
    };
    head.phase = Phase::Settled;
    head.write_settled(alloc, bytes, 1).ok()
}

/// The insert of `v` under `k`, with the attribute `a` or without.
fn insert(alloc: Global, with: bool) -> Result<Change, Refused> {
    let key = Key::new(alloc, b"k")?;
    let payload = Payload::new(alloc, b"v")?;
    let attr = if with {
        Some(Attr::new(alloc, b"a")?)
    } else {
        None
    };
    Ok(Change::Insert { key, payload, attr })
}

/// Whether UNDER_WAY is settled as these bytes with such an insert.
fn is_settled_in(alloc: Global, tree: TreeId, with: bool, bytes: &[u8]) -> bool {
    let Ok(change) = insert(alloc, with) else {
        return false;
    };
    match settled(alloc, &UNDER_WAY, tree, change) {
        Some(written) => written.as_slice() == bytes,
        None => false,
    }
}

#[test]
fn a_head_is_settled(rt: HostRuntime) {
    match TreeId::new(1) {
        Ok(tree) => {
            assert!(rt; is_settled_in(rt.alloc(), tree, false, &HEAD));
            assert!(rt; is_settled_in(rt.alloc(), tree, true, &HEAD_WITH));
        }
        Err(_) => rt.panic("no tree"),
    }
}

/// Whether a head is of epoch 1 and transaction 1, settled, with one counter.
fn is_settled(head: &Head) -> bool {
    head.epoch == 1
        && head.txn == 1
        && head.phase == Phase::Settled
        && head.counters.as_slice().len() == 1
}

#[test]
fn a_head_is_read(rt: HostRuntime) {
    match Head::read(rt.alloc(), &HEAD) {
        Ok(head) => {
            assert!(rt; is_settled(&head));
            assert!(rt; head.pending.as_slice().len() == 1);
        }
        Err(_) => rt.panic("no head"),
    }
}

#[test]
fn cut_heads_are_refused(rt: HostRuntime) {
    assert!(rt; refuses_cuts::<Heads>(rt.alloc(), &HEAD, &CUTS));
}

#[test]
fn changed_heads_are_refused(rt: HostRuntime) {
    assert!(rt; refuses_changes::<Heads>(rt.alloc(), &HEAD, &HEAD_CHANGES));
    assert!(rt; refuses_changes::<Heads>(rt.alloc(), &HEAD_WITH, &HEAD_WITH_CHANGES));
    assert!(rt; refuses_changes::<Heads>(rt.alloc(), &COUNTERS, &COUNTERS_CHANGES));
    assert!(rt; refuses_changes::<Heads>(rt.alloc(), &OPEN, &OPEN_CHANGES));
}

/// How many bytes spell a head of the first epoch with the pending deletion of a key, number 1 of the queue of a tree.
fn first_length(alloc: Global, tree: TreeId, key: Key) -> Option<usize> {
    let first = Pending {
        tree,
        page: 0,
        number: 1,
        change: Change::Delete { key },
    };
    let Ok(entry) = Entry::of(alloc, first) else {
        return None;
    };
    let mut pending = PendingList::new(alloc);
    let Ok(()) = pending.push(entry) else {
        return None;
    };
    let mut head = Head::empty(alloc);
    let Ok(()) = head.next_epoch() else {
        return None;
    };
    head.pending = pending;
    match head.write(alloc) {
        Ok(bytes) => Some(bytes.len()),
        Err(_) => None,
    }
}

/// Whether 42 bytes spell such a head.
fn is_first_length(alloc: Global, tree: TreeId) -> bool {
    match Key::new(alloc, b"k") {
        Ok(key) => first_length(alloc, tree, key) == Some(42),
        Err(_) => false,
    }
}

#[test]
fn first_epoch(rt: HostRuntime) {
    match TreeId::new(1) {
        Ok(tree) => assert!(rt; is_first_length(rt.alloc(), tree)),
        Err(_) => rt.panic("no tree"),
    }
}
