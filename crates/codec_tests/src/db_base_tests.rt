use db_base::attr::Attr;
use db_base::blob::Blob;
use db_base::change::{Change, act, net};
use db_base::cursor::Cursor;
use db_base::ids::{ClientId, MsgId, PageId, SessionNo, TreeId};
use db_base::key::{Key, Payload};
use db_base::refusal::{Refusal, Refused};
use db_base::text::Text;
use db_base::value::Value;
use db_base::wish::Positions;
use std::alloc::Global;
use std::process::Abort;

/// Why bytes are refused as a key.
fn key_fault(alloc: Global, bytes: &[u8]) -> Option<Refused> {
    Key::new(alloc, bytes).err()
}

/// Why bytes are refused as a payload.
fn payload_fault(alloc: Global, bytes: &[u8]) -> Option<Refused> {
    Payload::new(alloc, bytes).err()
}

/// Whether a key and a payload of these bytes are refused so.
fn are_refused(
    alloc: Global,
    bytes: &[u8],
    key: Option<Refusal>,
    payload: Option<Refusal>,
) -> bool {
    key_fault(alloc, bytes) == key.map(Refused::Rule)
        && payload_fault(alloc, bytes) == payload.map(Refused::Rule)
}

/// A count of bytes, and how a key and a payload of so many are refused.
const LENGTHS: [(usize, Option<Refusal>, Option<Refusal>); 6] = [
    (0, Some(Refusal::EmptyKey), None),
    (1, None, None),
    (64, None, None),
    (65, Some(Refusal::LongKey), None),
    (1024, Some(Refusal::LongKey), None),
    (1025, Some(Refusal::LongKey), Some(Refusal::LongPayload)),
];

/// Whether the first so many bytes are refused as each row says.
fn are_all_refused(
    alloc: Global,
    bytes: &[u8],
    rows: &[(usize, Option<Refusal>, Option<Refusal>)],
) -> bool {
    for (len, key, payload) in rows {
        let Some(bytes) = bytes.get(..*len) else {
            return false;
        };
        if !are_refused(alloc, bytes, *key, *payload) {
            return false;
        }
    }
    true
}

#[test]
fn lengths_are_refused_exactly(rt: HostRuntime) {
    assert!(rt; are_all_refused(rt.alloc(), &[7; 1025], &LENGTHS));
}

/// A count of bytes, and how an attribute of so many is refused.
const ATTRIBUTES: [(usize, Option<Refusal>); 4] = [
    (0, Some(Refusal::BadAttr)),
    (1, None),
    (32, None),
    (33, Some(Refusal::BadAttr)),
];

/// Whether the first so many bytes are refused as an attribute as each row says.
fn are_refused_attributes(alloc: Global, bytes: &[u8], rows: &[(usize, Option<Refusal>)]) -> bool {
    for (len, refusal) in rows {
        let Some(bytes) = bytes.get(..*len) else {
            return false;
        };
        if Attr::new(alloc, bytes).err() != refusal.map(Refused::Rule) {
            return false;
        }
    }
    true
}

#[test]
fn lengths_of_attributes_are_refused_exactly(rt: HostRuntime) {
    assert!(rt; are_refused_attributes(rt.alloc(), &[7; 33], &ATTRIBUTES));
    assert!(rt; Refusal::BadAttr.number() == 11);
    assert!(rt; Refusal::LongEntry.number() == 12);
}

/// Whether so many positions are taken.
fn are_positions(alloc: Global, numbers: &[u64], len: usize) -> Option<bool> {
    let numbers = numbers.get(..len)?;
    Some(Positions::new(alloc, numbers).is_ok())
}

#[test]
fn counts_of_positions_are_refused_exactly(rt: HostRuntime) {
    let numbers = [7u64; 257];
    assert!(rt; are_positions(rt.alloc(), &numbers, 0) == Some(false));
    assert!(rt; are_positions(rt.alloc(), &numbers, 1) == Some(true));
    assert!(rt; are_positions(rt.alloc(), &numbers, 256) == Some(true));
    assert!(rt; are_positions(rt.alloc(), &numbers, 257) == Some(false));
}

/// Whether a number is one of a client; whether one of a tree and of a session; whether one of a page; and a message's at any rate.
fn is_number(n: u64, client: bool, tree: bool, page: bool) -> bool {
    ClientId::new(n).is_ok() == client
        && TreeId::new(n).is_ok() == tree
        && SessionNo::new(n).is_ok() == tree
        && PageId::new(n).is_ok() == page
        && MsgId::new(n).get() == n
}

/// A number, and what it is one of, as above.
const NUMBERS: [(u64, bool, bool, bool); 7] = [
    (0, false, false, false),
    (1, true, true, true),
    (16, true, true, true),
    (17, true, false, true),
    (64, true, false, true),
    (65, false, false, true),
    (u64::MAX, false, false, true),
];

/// Whether each row is so.
fn are_numbers(rows: &[(u64, bool, bool, bool)]) -> bool {
    for (n, client, tree, page) in rows {
        if !is_number(*n, *client, *tree, *page) {
            return false;
        }
    }
    true
}

#[test]
fn numbers_are_refused_exactly(rt: HostRuntime) {
    assert!(rt; are_numbers(&NUMBERS));
    assert!(rt; PageId::first().get() == 1 && SessionNo::settler().get() == 0);
}

/// An insert of a payload under k.
fn insert(alloc: Global, payload: &[u8]) -> Option<Change> {
    match (Key::new(alloc, b"k"), Payload::new(alloc, payload)) {
        (Ok(key), Ok(payload)) => Some(Change::Insert {
            key,
            payload,
            attr: None,
        }),
        _ => None,
    }
}

/// An update of k to a payload.
fn update(alloc: Global, payload: Payload) -> Option<Change> {
    match Key::new(alloc, b"k") {
        Ok(key) => Some(Change::Update { key, payload }),
        Err(_) => None,
    }
}

/// Whether a change makes a payload of another; none is no record.
fn makes(old: Option<&[u8]>, change: &Change, new: Option<&[u8]>) -> bool {
    let old = match old {
        Some(old) => Some(Value::of(old)),
        None => None,
    };
    match act(old, change) {
        Some(value) => new == Some(value.payload()) && value.attr().is_none(),
        None => new.is_none(),
    }
}

#[test]
fn changes_act(rt: HostRuntime) {
    match insert(rt.alloc(), b"one") {
        Some(insert) => assert!(rt; makes(None, &insert, Some(b"one"))),
        None => rt.panic("no insert"),
    }
}

/// An addition to the payload of the key k.
fn addition(alloc: Global, amount: u64) -> Option<Change> {
    match Key::new(alloc, b"k") {
        Ok(key) => Some(Change::Add { key, amount }),
        Err(_) => None,
    }
}

#[test]
fn an_addition_counts_around(rt: HostRuntime) {
    let Some(two) = addition(rt.alloc(), 2) else {
        rt.panic("no addition")
    };
    let greatest: [u8; 8] = [255, 255, 255, 255, 255, 255, 255, 255];
    assert!(rt; makes(None, &two, None));
    assert!(rt;
        makes(
            Some(&[0, 0, 0, 0, 0, 0, 0, 255]),
            &two,
            Some(&[0, 0, 0, 0, 0, 0, 1, 1])
        )
    );
    assert!(rt; makes(Some(&greatest), &two, Some(&[0, 0, 0, 0, 0, 0, 0, 1])));
    // A payload that has not eight bytes stays.
    assert!(rt; makes(Some(b"sevenby"), &two, Some(b"sevenby")));
    assert!(rt; makes(Some(b"ninebytes"), &two, Some(b"ninebytes")));
}

/// What a change and an addition behind it come to.
fn raised(alloc: Global, change: Change, amount: u64) -> Option<Change> {
    match change.key().copied(alloc) {
        Ok(key) => Some(net(change, Change::Add { key, amount })),
        Err(_) => None,
    }
}

/// Whether a change and an addition behind it make this of that.
fn raises(
    alloc: Global,
    change: Option<Change>,
    amount: u64,
    old: Option<&[u8]>,
    new: &[u8],
) -> bool {
    match change {
        Some(change) => match raised(alloc, change, amount) {
            Some(both) => makes(old, &both, Some(new)),
            None => false,
        },
        None => false,
    }
}

#[test]
fn an_addition_joins_what_was_before(rt: HostRuntime) {
    let greatest: [u8; 8] = [255, 255, 255, 255, 255, 255, 255, 255];
    let one: [u8; 8] = [0, 0, 0, 0, 0, 0, 0, 1];
    assert!(rt; raises(rt.alloc(), insert(rt.alloc(), &greatest), 2, None, &one));
    assert!(rt; raises(rt.alloc(), insert(rt.alloc(), b"v"), 2, None, b"v"));
    assert!(rt;
        raises(
            rt.alloc(),
            addition(rt.alloc(), u64::MAX),
            1,
            Some(&one),
            &one
        )
    );
}

/// Whether an update to a payload does nothing where there is no record.
fn does_nothing(alloc: Global, payload: Payload) -> bool {
    match update(alloc, payload) {
        Some(update) => makes(None, &update, None),
        None => false,
    }
}

#[test]
fn an_update_of_no_record_does_nothing(rt: HostRuntime) {
    match Payload::new(rt.alloc(), b"two") {
        Ok(payload) => assert!(rt; does_nothing(rt.alloc(), payload)),
        Err(_) => rt.panic("no payload"),
    }
}

/// What an insert and an update to a payload behind it come to.
fn joined(alloc: Global, insert: Change, payload: Payload) -> Option<Change> {
    match insert.key().copied(alloc) {
        Ok(key) => Some(net(insert, Change::Update { key, payload })),
        Err(_) => None,
    }
}

/// Whether they come to the record of the payload.
fn is_updated(alloc: Global, insert: Change, payload: Payload) -> bool {
    match joined(alloc, insert, payload) {
        Some(both) => makes(None, &both, Some(b"two")),
        None => false,
    }
}

/// Whether that holds for a copy of an insert.
fn is_copy_updated(alloc: Global, insert: &Change) -> bool {
    match (insert.copied(alloc), Payload::new(alloc, b"two")) {
        (Ok(copy), Ok(payload)) => is_updated(alloc, copy, payload),
        _ => false,
    }
}

#[test]
fn changes_join(rt: HostRuntime) {
    match insert(rt.alloc(), b"one") {
        Some(insert) => assert!(rt; is_copy_updated(rt.alloc(), &insert)),
        None => rt.panic("no insert"),
    }
}

/// Whether a cursor keeps number 5 of a client.
fn keeps_its_number(cursor: &mut Cursor, client: ClientId) -> bool {
    cursor.get(client) == 0 && cursor.set(client, 5).is_ok() && cursor.get(client) == 5
}

#[test]
fn a_cursor_keeps_its_number(rt: HostRuntime) {
    let Ok(client) = ClientId::new(9) else {
        rt.panic("no client")
    };
    assert!(rt; keeps_its_number(&mut Cursor::new(rt.alloc()), client));
}

/// Whether bytes are a, b and c behind the addition of c.
fn is_abc(mut blob: Blob) -> bool {
    if blob.add(b"c").is_err() || blob.len() != 3 || blob.is_empty() {
        return false;
    }
    Blob::of(blob.into_vec()).as_slice() == b"abc".as_slice()
}

#[test]
fn bytes_are_kept(rt: HostRuntime) {
    match Blob::copy_of(rt.alloc(), b"ab") {
        Ok(blob) => assert!(rt; is_abc(blob)),
        Err(_) => rt.panic("no bytes"),
    }
}

#[test]
fn a_text_is_kept(rt: HostRuntime) {
    match Text::new(rt.alloc(), "word") {
        Ok(text) => assert!(rt; text.as_str() == "word"),
        Err(_) => rt.panic("no text"),
    }
}
