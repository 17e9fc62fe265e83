use db_base::attr::Attr;
use db_base::change::{Change, net};
use db_base::cursor::Cursor;
use db_base::ids::{ClientId, MsgId};
use db_base::key::{Key, Payload};
use leaf_edit::{apply, need};
use leaf_view::LeafView;
use log_codec::record::{PuItem, PuRec};
use run_cursor::run::{Run, take_run};
use std::alloc::{AllocError, Global};
use std::process::Abort;

/// A leaf of format 2 up to its records: version 1, no fence, nothing done.
const LEAF: [u8; 20] = [
    0x4c, 2, 0, 0, 0, 0, 0, 0, 0, 1, 0, 0, 0, 0, 0, 0, 0, 0, 0, 0,
];

/// The same at version 2.
const NEXT: [u8; 20] = [
    0x4c, 2, 0, 0, 0, 0, 0, 0, 0, 2, 0, 0, 0, 0, 0, 0, 0, 0, 0, 0,
];

/// How many bytes stand before the records, where one entry says what is done.
const FRONT: usize = 38;

/// A change of the record k.
#[derive(Clone, Copy)]
enum Step {
    Insert(&'static [u8], Option<&'static [u8]>),
    Update(&'static [u8]),
    Delete,
    Add(u64),
}

/// Records, two changes of k one after the other, and the records behind them.
struct Row {
    before: &'static [u8],
    first: Step,
    second: Step,
    after: &'static [u8],
}

// No record; k with the payload v, without an attribute and with a; k with 255 in eight bytes and the attribute a.
const NONE: &[u8] = &[0];

const PLAIN: &[u8] = &[1, 1, b'k', 0, 1, b'v', 0, 0];

const WITH_A: &[u8] = &[1, 1, b'k', 0, 1, b'v', 1, 1, b'a', 0];

const NUMBER: &[u8] = &[1, 1, b'k', 0, 8, 0, 0, 0, 0, 0, 0, 0, 255, 1, 1, b'a', 0];

static ROWS: [Row; 14] = [
    // An insert sets an attribute, and an update keeps it.
    Row {
        before: NONE,
        first: Step::Insert(b"v", Some(b"a")),
        second: Step::Update(b"w"),
        after: &[1, 1, b'k', 0, 1, b'w', 1, 1, b'a', 0],
    },
    Row {
        before: NONE,
        first: Step::Update(b"w"),
        second: Step::Insert(b"v", Some(b"a")),
        after: WITH_A,
    },
    Row {
        before: PLAIN,
        first: Step::Update(b"w"),
        second: Step::Insert(b"v", Some(b"a")),
        after: WITH_A,
    },
    // An insert without one clears it.
    Row {
        before: WITH_A,
        first: Step::Update(b"w"),
        second: Step::Insert(b"v", None),
        after: PLAIN,
    },
    Row {
        before: WITH_A,
        first: Step::Insert(b"w", None),
        second: Step::Update(b"v"),
        after: PLAIN,
    },
    // An insert with one replaces it.
    Row {
        before: WITH_A,
        first: Step::Insert(b"w", Some(b"ab")),
        second: Step::Insert(b"x", Some(b"yz")),
        after: &[1, 1, b'k', 0, 1, b'x', 1, 2, b'y', b'z', 0],
    },
    // An update and an addition keep it, where the payload is a number and where it is none.
    Row {
        before: WITH_A,
        first: Step::Add(1),
        second: Step::Update(b"w"),
        after: &[1, 1, b'k', 0, 1, b'w', 1, 1, b'a', 0],
    },
    Row {
        before: WITH_A,
        first: Step::Update(b"w"),
        second: Step::Add(1),
        after: &[1, 1, b'k', 0, 1, b'w', 1, 1, b'a', 0],
    },
    Row {
        before: NUMBER,
        first: Step::Add(1),
        second: Step::Add(255),
        after: &[1, 1, b'k', 0, 8, 0, 0, 0, 0, 0, 0, 1, 255, 1, 1, b'a', 0],
    },
    Row {
        before: PLAIN,
        first: Step::Insert(&[255, 255, 255, 255, 255, 255, 255, 255], Some(b"b")),
        second: Step::Add(2),
        after: &[1, 1, b'k', 0, 8, 0, 0, 0, 0, 0, 0, 0, 1, 1, 1, b'b', 0],
    },
    Row {
        before: NUMBER,
        first: Step::Add(2),
        second: Step::Insert(b"v", None),
        after: PLAIN,
    },
    // A deletion takes it away.
    Row {
        before: WITH_A,
        first: Step::Delete,
        second: Step::Insert(b"v", None),
        after: PLAIN,
    },
    Row {
        before: PLAIN,
        first: Step::Insert(b"w", Some(b"a")),
        second: Step::Delete,
        after: NONE,
    },
    Row {
        before: WITH_A,
        first: Step::Delete,
        second: Step::Update(b"w"),
        after: NONE,
    },
];

/// An insert of k.
fn insert_of(alloc: Global, payload: &[u8], attr: Option<&[u8]>) -> Option<Change> {
    let attr = match attr {
        Some(bytes) => Some(Attr::new(alloc, bytes).ok()?),
        None => None,
    };
    let key = Key::new(alloc, b"k").ok()?;
    let payload = Payload::new(alloc, payload).ok()?;
    Some(Change::Insert { key, payload, attr })
}

/// An update of k.
fn update_of(alloc: Global, payload: &[u8]) -> Option<Change> {
    let key = Key::new(alloc, b"k").ok()?;
    let payload = Payload::new(alloc, payload).ok()?;
    Some(Change::Update { key, payload })
}

/// The change that a step says.
fn change_of(alloc: Global, step: Step) -> Option<Change> {
    match step {
        Step::Insert(payload, attr) => insert_of(alloc, payload, attr),
        Step::Update(payload) => update_of(alloc, payload),
        Step::Delete => Some(Change::Delete {
            key: Key::new(alloc, b"k").ok()?,
        }),
        Step::Add(amount) => Some(Change::Add {
            key: Key::new(alloc, b"k").ok()?,
            amount,
        }),
    }
}

/// A change as a record of client 1.
fn item_of(number: u64, change: Change) -> Option<PuItem> {
    let client = ClientId::new(1).ok()?;
    Some(PuItem {
        id: MsgId::new(number),
        rec: PuRec {
            client,
            epoch: 1,
            txn: 1,
            number,
            change,
        },
    })
}

/// The run of both changes of a row, one after the other.
fn both(alloc: Global, row: &Row) -> Option<Run> {
    let first = item_of(1, change_of(alloc, row.first)?)?;
    let second = item_of(2, change_of(alloc, row.second)?)?;
    take_run(alloc, &Cursor::new(alloc), &[first, second]).ok()
}

/// The run of the one change that they come to.
fn joined(alloc: Global, row: &Row) -> Option<Run> {
    let first = change_of(alloc, row.first)?;
    let second = change_of(alloc, row.second)?;
    if first.key().as_slice() != second.key().as_slice() {
        return None;
    }
    let item = item_of(1, net(first, second))?;
    take_run(alloc, &Cursor::new(alloc), &[item]).ok()
}

/// Whether a leaf takes a run, in format 2 and in the bytes that are needed, and has these records then.
fn comes_to(alloc: Global, leaf: &LeafView<'_>, run: &Run, records: &[u8]) -> bool {
    match apply(alloc, leaf, 0, run.items()) {
        Ok(made) => {
            let bytes = made.into_blob();
            bytes.as_slice().starts_with(&[0x4c, 2])
                && bytes.as_slice().ends_with(records)
                && bytes.len() == FRONT + records.len()
                && need(leaf, 0, run.items()) == Some(bytes.len())
        }
        Err(_) => false,
    }
}

/// Whether the leaf of these bytes takes a run so.
fn takes(alloc: Global, bytes: &[u8], run: Option<Run>, records: &[u8]) -> bool {
    match (LeafView::read(bytes), run) {
        (Ok(leaf), Some(run)) => comes_to(alloc, &leaf, &run, records),
        _ => false,
    }
}

/// A leaf of these records.
fn leaf_of(alloc: Global, records: &[u8]) -> Result<Vec<u8>, AllocError> {
    let mut bytes = LEAF.to_vec(alloc)?;
    bytes.extend_from_slice(records)?;
    Ok(bytes)
}

/// Whether the changes of a row, and what they come to, have its effect.
fn holds(alloc: Global, row: &Row) -> bool {
    match leaf_of(alloc, row.before) {
        Ok(bytes) => takes(alloc, &bytes, both(alloc, row), row.after)
            && takes(alloc, &bytes, joined(alloc, row), row.after),
        Err(_) => false,
    }
}

#[test]
fn changes_keep_or_set_the_attribute(rt: HostRuntime) {
    for row in &ROWS {
        assert!(rt; holds(rt.alloc(), row));
    }
}

/// Adds a record with a key of 64 bytes, a payload of 1,024 and an attribute of 32, and the end.
fn add_greatest(bytes: &mut Vec<u8>) -> Result<(), AllocError> {
    bytes.extend_from_slice(&[1, 64])?;
    bytes.extend_from_slice(&[b'k'; 64])?;
    bytes.extend_from_slice(&[4, 0])?;
    bytes.extend_from_slice(&[b'v'; 1024])?;
    bytes.extend_from_slice(&[1, 32])?;
    bytes.extend_from_slice(&[b'a'; 32])?;
    bytes.extend_from_slice(&[0])
}

/// The leaf of that record, behind the front of a leaf.
fn greatest(alloc: Global, front: &[u8]) -> Option<Vec<u8>> {
    let mut bytes = front.to_vec(alloc).ok()?;
    match add_greatest(&mut bytes) {
        Ok(()) => Some(bytes),
        Err(_) => None,
    }
}

/// Whether the next version of a leaf, with nothing applied, has these bytes, and needs so many.
fn is_next(alloc: Global, leaf: &LeafView<'_>, bytes: &[u8]) -> bool {
    match apply(alloc, leaf, 0, &[]) {
        Ok(made) => {
            need(leaf, 0, &[]) == Some(bytes.len()) && made.into_blob().as_slice() == bytes
        }
        Err(_) => false,
    }
}

/// Whether the leaf of some bytes becomes that of others so.
fn becomes(alloc: Global, bytes: &[u8], next: &[u8]) -> bool {
    match LeafView::read(bytes) {
        Ok(leaf) => is_next(alloc, &leaf, next),
        Err(_) => false,
    }
}

#[test]
fn the_greatest_record_is_kept(rt: HostRuntime) {
    match (greatest(rt.alloc(), &LEAF), greatest(rt.alloc(), &NEXT)) {
        (Some(bytes), Some(next)) => {
            assert!(rt; next.len() == 1147 && becomes(rt.alloc(), &bytes, &next))
        }
        _ => rt.panic("no leaf"),
    }
}
