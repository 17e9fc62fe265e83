use db_base::attr::Attr;
use db_base::change::Change;
use db_base::ids::{ClientId, PageId, TreeId};
use db_base::key::{Key, Payload};
use db_base::names::QueueName;
use db_base::value::Value;
use head_codec::entry::Entry;
use head_codec::head::{Head, Phase};
use head_codec::lists::{CounterList, Pending, QueueCount};
use leaf_view::LeafView;
use log_codec::record::AtomicRec;
use node_codec::TreeView;
use route_plan::heads::{open_head, settle_head};
use route_plan::prune::{prune_leaf, prune_tree};
use route_plan::queue::queue_name;
use route_plan::record::pu_of_record;
use route_plan::route::route;
use route_plan::seen::seen;
use std::alloc::Global;
use std::process::Abort;
use txn_buffer::buffer::TxnBuffer;

// Version 1 in format 1, no fence; up to number 3 of client 1 of the queue of page 7 applied; the record of key "a" and payload "x".
const LEAF: [u8; 45] = [
    76, 1, 0, 0, 0, 0, 0, 0, 0, 1, 0, 0, 0, 0, 0, 0, 0, 0, 0, 1, 0, 0, 0, 0, 0, 0, 0, 7, 1, 0, 0,
    0, 0, 0, 0, 0, 3, 0, 1, 1, 97, 0, 1, 120, 0,
];

// Version 1, next free page 2, level 1; up to number 6 of client 1 of the tree's queue applied; one entry, to page 1.
const ROOT: [u8; 41] = [
    84, 1, 0, 0, 0, 0, 0, 0, 0, 1, 0, 0, 0, 0, 0, 0, 0, 2, 1, 1, 1, 0, 0, 0, 0, 0, 0, 0, 6, 0, 1,
    0, 0, 0, 0, 0, 0, 0, 0, 1, 0,
];

/// An insert of the payload p and the attribute t.
fn insert(alloc: Global, key: &str) -> Option<Change> {
    match Key::new(alloc, key.as_bytes()) {
        Ok(key) => insert_under(alloc, key),
        Err(_) => None,
    }
}

fn insert_under(alloc: Global, key: Key) -> Option<Change> {
    match (Payload::new(alloc, b"p"), Attr::new(alloc, b"t")) {
        (Ok(payload), Ok(attr)) => Some(Change::Insert {
            key,
            payload,
            attr: Some(attr),
        }),
        _ => None,
    }
}

/// An update to the payload q.
fn update(alloc: Global, key: &str) -> Option<Change> {
    match Key::new(alloc, key.as_bytes()) {
        Ok(key) => update_under(alloc, key),
        Err(_) => None,
    }
}

fn update_under(alloc: Global, key: Key) -> Option<Change> {
    match Payload::new(alloc, b"q") {
        Ok(payload) => Some(Change::Update { key, payload }),
        Err(_) => None,
    }
}

/// Adds a pending change.
fn add_pending(
    alloc: Global,
    head: &mut Head,
    tree: TreeId,
    page: u64,
    number: u64,
    change: Option<Change>,
) -> bool {
    let Some(change) = change else {
        return false;
    };
    let pending = Pending {
        tree,
        page,
        number,
        change,
    };
    match Entry::of(alloc, pending) {
        Ok(entry) => head.pending.push(entry).is_ok(),
        Err(_) => false,
    }
}

/// Notes a change.
fn note(buffer: &mut TxnBuffer, tree: TreeId, change: Option<Change>) -> bool {
    match change {
        Some(change) => buffer.note(tree, change).is_ok(),
        None => false,
    }
}

/// Makes a head that of a client which used five numbers of the tree's queue and two of page 7's, of which the last is pending.
fn use_head(alloc: Global, head: &mut Head, tree: TreeId) -> bool {
    let counts = [(0, 5), (7, 2)].map(|(page, number)| QueueCount { tree, page, number });
    let Ok(counts) = Vec::from_slice(alloc, &counts) else {
        return false;
    };
    head.epoch = 2;
    head.txn = 4;
    head.counters = CounterList::of(counts);
    head.phase == Phase::Settled && add_pending(alloc, head, tree, 7, 2, update(alloc, "a"))
}

/// Notes an insert of the pending key, an update of another, and two more inserts.
fn note_four(alloc: Global, buffer: &mut TxnBuffer, tree: TreeId) -> bool {
    note(buffer, tree, insert(alloc, "a"))
        && note(buffer, tree, update(alloc, "b"))
        && note(buffer, tree, insert(alloc, "c"))
        && note(buffer, tree, insert(alloc, "d"))
}

/// The records of four changes behind the used head, where each walk came to page 9.
fn four_records(
    alloc: Global,
    client: ClientId,
    head: &Head,
    buffer: &TxnBuffer,
) -> Option<Vec<AtomicRec>> {
    let leaves = [PageId::new(9).ok()?; 4];
    if buffer.len() != 4 {
        return None;
    }
    route(alloc, client, 2, 5, head, buffer, &leaves).ok()
}

/// The records of the commit behind the used head.
fn routed(alloc: Global, tree: TreeId, head: &Head) -> Option<Vec<AtomicRec>> {
    let client = ClientId::new(1).ok()?;
    let mut buffer = TxnBuffer::new(alloc).ok()?;
    if !note_four(alloc, &mut buffer, tree) {
        return None;
    }
    four_records(alloc, client, head, &buffer)
}

/// The number of the message of a record.
fn number_of(alloc: Global, record: &AtomicRec) -> Option<u64> {
    match pu_of_record(alloc, record) {
        Ok(update) => Some(update.number),
        Err(_) => None,
    }
}

/// Whether records are of the queues of these pages and have these numbers, as their messages have, in their order.
fn are_numbered(alloc: Global, records: &[AtomicRec], rows: &[(u64, u64)]) -> bool {
    for (r, (page, number)) in records.iter().zip(rows) {
        if r.page != *page || r.number != *number || number_of(alloc, r) != Some(*number) {
            return false;
        }
    }
    records.len() == rows.len()
}

/// Whether counters are of the queues of these pages and have these numbers, in their order.
fn are_counted(counters: &[QueueCount], rows: &[(u64, u64)]) -> bool {
    for (counter, (page, number)) in counters.iter().zip(rows) {
        if counter.page != *page || counter.number != *number {
            return false;
        }
    }
    counters.len() == rows.len()
}

/// Whether a head is opened for four records, and then has the counters that they make.
fn is_opened(alloc: Global, head: &mut Head, records: &[AtomicRec]) -> bool {
    if records.len() != 4 {
        return false;
    }
    open_head(alloc, head, 5, records).is_ok()
        && head.txn == 5
        && head.phase == Phase::Open(4)
        && are_counted(head.counters.as_slice(), &[(0, 7), (7, 3), (9, 1)])
}

/// Whether an open head is settled, and then has a pending change more for each of four records.
fn is_settled(alloc: Global, head: &mut Head, records: &[AtomicRec]) -> bool {
    settle_head(alloc, head, records).is_ok()
        && head.phase == Phase::Settled
        && head.pending.as_slice().len() == 5
}

#[test]
fn a_commit_is_routed_and_opens_and_settles_the_head(rt: HostRuntime) {
    let Ok(tree) = TreeId::new(1) else {
        rt.panic("no tree")
    };
    let mut head = Head::empty(rt.alloc());
    assert!(rt; use_head(rt.alloc(), &mut head, tree));
    let Some(records) = routed(rt.alloc(), tree, &head) else {
        rt.panic("no records")
    };
    let records = records.as_slice();
    assert!(rt; are_numbered(rt.alloc(), records, &[(7, 3), (9, 1), (0, 6), (0, 7)]));
    assert!(rt; is_opened(rt.alloc(), &mut head, records));
    assert!(rt; is_settled(rt.alloc(), &mut head, records));
}

#[test]
fn queues_have_names(rt: HostRuntime) {
    let (Ok(tree), Ok(page)) = (TreeId::new(1), PageId::new(9)) else {
        rt.panic("no names")
    };
    assert!(rt; queue_name(tree, 0) == QueueName::TreePu(tree));
    assert!(rt; queue_name(tree, 9) == QueueName::PagePu(tree, page));
}

/// Adds pending inserts of four keys, two of page 7's queue and two of the tree's.
fn add_four(alloc: Global, head: &mut Head, tree: TreeId) -> bool {
    add_pending(alloc, head, tree, 7, 3, insert(alloc, "a"))
        && add_pending(alloc, head, tree, 7, 4, insert(alloc, "b"))
        && add_pending(alloc, head, tree, 0, 6, insert(alloc, "c"))
        && add_pending(alloc, head, tree, 0, 7, insert(alloc, "d"))
}

/// A key, and the payload and attribute that a read finds by what is applied, pending and noted.
const SEEN: [(&str, Option<(&str, Option<&[u8]>)>); 4] = [
    ("a", Some(("x", None))),
    ("b", Some(("q", Some(b"t")))),
    ("d", Some(("p", Some(b"t")))),
    ("e", None),
];

/// Whether a record is of this value, or there is none.
fn is_value(record: Option<Value<'_>>, value: Option<(&str, Option<&[u8]>)>) -> bool {
    match (record, value) {
        (Some(record), Some((payload, attr))) => {
            record.payload() == payload.as_bytes() && record.attr() == attr
        }
        (None, None) => true,
        _ => false,
    }
}

/// Whether the record of a key is seen so.
fn is_seen(
    leaf: &LeafView<'_>,
    tree: TreeId,
    client: ClientId,
    head: &Head,
    buffer: &TxnBuffer,
    key: &str,
    value: Option<(&str, Option<&[u8]>)>,
) -> bool {
    is_value(
        seen(leaf, tree, key.as_bytes(), client, head, buffer),
        value,
    )
}

#[test]
fn what_is_lacked_is_seen(rt: HostRuntime) {
    let (Ok(client), Ok(tree)) = (ClientId::new(1), TreeId::new(1)) else {
        rt.panic("no names")
    };
    let Ok(leaf) = LeafView::read(&LEAF) else {
        rt.panic("no leaf")
    };
    let Ok(mut buffer) = TxnBuffer::new(rt.alloc()) else {
        rt.panic("no buffer")
    };
    let mut head = Head::empty(rt.alloc());
    assert!(rt; add_four(rt.alloc(), &mut head, tree));
    assert!(rt; note(&mut buffer, tree, update(rt.alloc(), "b")));
    for (key, value) in SEEN {
        assert!(rt; is_seen(&leaf, tree, client, &head, &buffer, key, value));
    }
}

/// Whether pending changes have these numbers, in their order.
fn are_left(left: &[Entry], numbers: &[u64]) -> bool {
    for (entry, number) in left.iter().zip(numbers) {
        if entry.get().number != *number {
            return false;
        }
    }
    left.len() == numbers.len()
}

/// Drops from a head what the leaf and the root show to be applied.
fn prune(head: &mut Head, client: ClientId, tree: TreeId) -> bool {
    match (LeafView::read(&LEAF), TreeView::read(&ROOT)) {
        (Ok(leaf), Ok(root)) => {
            prune_leaf(head, client, tree, &leaf);
            prune_tree(head, client, tree, &root);
            true
        }
        _ => false,
    }
}

#[test]
fn what_is_applied_is_pruned(rt: HostRuntime) {
    let (Ok(client), Ok(tree)) = (ClientId::new(1), TreeId::new(1)) else {
        rt.panic("no names")
    };
    let mut head = Head::empty(rt.alloc());
    assert!(rt; add_four(rt.alloc(), &mut head, tree));
    assert!(rt; prune(&mut head, client, tree));
    assert!(rt; are_left(head.pending.as_slice(), &[4, 7]));
}
