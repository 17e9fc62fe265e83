use db_base::change::Change;
use db_base::ids::TreeId;
use db_base::key::{Key, Payload};
use db_base::refusal::{Refusal, Refused};
use std::alloc::Global;
use std::process::Abort;
use txn_buffer::buffer::TxnBuffer;

fn insert(alloc: Global, key: &[u8], payload: &[u8]) -> Result<Change, Refused> {
    Ok(Change::Insert {
        key: Key::new(alloc, key)?,
        payload: Payload::new(alloc, payload)?,
        attr: None,
    })
}

/// What a buffer answers to an insert of a payload x.
fn inserted(
    alloc: Global,
    buffer: &mut TxnBuffer,
    tree: TreeId,
    key: &[u8],
) -> Result<(), Refused> {
    let change = insert(alloc, key, b"x")?;
    buffer.note(tree, change)
}

/// What a buffer answers to a deletion.
fn deleted(alloc: Global, buffer: &mut TxnBuffer, tree: TreeId, key: &[u8]) -> Result<(), Refused> {
    let change = delete(alloc, key)?;
    buffer.note(tree, change)
}

fn delete(alloc: Global, key: &[u8]) -> Result<Change, Refused> {
    Ok(Change::Delete {
        key: Key::new(alloc, key)?,
    })
}

/// Whether the entry at the index is of this tree and key.
fn is_at(buffer: &TxnBuffer, index: usize, tree: u64, key: &str) -> bool {
    match buffer.at(index) {
        Some((found, change)) => {
            found.get() == tree && change.key().as_slice() == key.as_bytes()
        }
        None => false,
    }
}

/// Whether the change of the tree and key deletes.
fn deletes(buffer: &TxnBuffer, tree: TreeId, key: &[u8]) -> Option<bool> {
    match buffer.find(tree, key)? {
        Change::Delete { .. } => Some(true),
        _ => Some(false),
    }
}

const NOTED: [(u64, &str); 3] = [(1, "b"), (2, "b"), (1, "a")];

/// What a buffer answers to an insert of a payload x in the tree of this number.
fn note_insert(
    alloc: Global,
    buffer: &mut TxnBuffer,
    number: u64,
    key: &str,
) -> Result<(), Refused> {
    match TreeId::new(number) {
        Ok(tree) => inserted(alloc, buffer, tree, key.as_bytes()),
        Err(_) => Err(Refused::Rule(Refusal::BadNumber)),
    }
}

/// Notes an insert for each row.
fn note_inserts(
    alloc: Global,
    buffer: &mut TxnBuffer,
    rows: &[(u64, &str)],
) -> Result<(), Refused> {
    for (number, key) in rows {
        note_insert(alloc, buffer, *number, key)?;
    }
    Ok(())
}

/// Inserts of b in tree 1, of b in tree 2 and of a in tree 1, and then the deletion of b in tree 1.
fn noted(alloc: Global, one: TreeId) -> Option<TxnBuffer> {
    let mut buffer = TxnBuffer::new(alloc).ok()?;
    let inserts = note_inserts(alloc, &mut buffer, &NOTED);
    if inserts.is_err() || deleted(alloc, &mut buffer, one, b"b").is_err() {
        return None;
    }
    Some(buffer)
}

/// Whether a buffer has an entry for each row, in their order, and no more.
fn has_noted(buffer: &TxnBuffer, rows: &[(u64, &str)]) -> bool {
    for (index, (tree, key)) in rows.iter().enumerate() {
        if !is_at(buffer, index, *tree, key) {
            return false;
        }
    }
    buffer.len() == rows.len() && buffer.at(rows.len()).is_none()
}

/// Whether b of tree 1 is found to be deleted, b of tree 2 to be put, and no other key of them to be changed.
fn has_net_changes(buffer: &TxnBuffer, one: TreeId, two: TreeId) -> bool {
    deletes(buffer, one, b"b") == Some(true)
        && deletes(buffer, two, b"b") == Some(false)
        && deletes(buffer, two, b"a").is_none()
        && deletes(buffer, one, &[98; 65]).is_none()
}

/// Whether a buffer of three entries gives them, which can be dropped then, and is empty.
fn gives_three(buffer: &mut TxnBuffer) -> bool {
    let mut taken = buffer.take();
    let count = taken.len();
    taken.clear();
    count == 3 && taken.len() == 0 && buffer.len() == 0
}

#[test]
fn notes_net_changes_in_order(rt: HostRuntime) {
    let (Ok(one), Ok(two)) = (TreeId::new(1), TreeId::new(2)) else {
        rt.panic("no tree")
    };
    let Some(mut buffer) = noted(rt.alloc(), one) else {
        rt.panic("no buffer")
    };
    assert!(rt; has_noted(&buffer, &NOTED));
    assert!(rt; has_net_changes(&buffer, one, two));
    assert!(rt; gives_three(&mut buffer));
}

#[test]
fn begins_empty(rt: HostRuntime) {
    match TxnBuffer::new(rt.alloc()) {
        Ok(buffer) => assert!(rt; buffer.is_empty()),
        Err(_) => rt.panic("no buffer"),
    }
}

/// Whether a buffer takes 200 changes of a tree.
fn is_filled(alloc: Global, buffer: &mut TxnBuffer, tree: TreeId) -> bool {
    for byte in 0..200u8 {
        if inserted(alloc, buffer, tree, &[byte]).is_err() {
            return false;
        }
    }
    true
}

/// Whether a full buffer refuses the change of another key, and takes that of a key that it has.
fn is_full(alloc: Global, buffer: &mut TxnBuffer, one: TreeId, last: TreeId) -> bool {
    let many = Err(Refused::Rule(Refusal::TooManyChanges));
    inserted(alloc, buffer, last, &[200]) == many
        && inserted(alloc, buffer, one, &[7]) == many
        && deleted(alloc, buffer, last, &[7]) == Ok(())
        && buffer.len() == 200
}

#[test]
fn refuses_the_201st(rt: HostRuntime) {
    let (Ok(one), Ok(last)) = (TreeId::new(1), TreeId::new(16)) else {
        rt.panic("no tree")
    };
    let Ok(mut buffer) = TxnBuffer::new(rt.alloc()) else {
        rt.panic("no buffer")
    };
    assert!(rt; is_filled(rt.alloc(), &mut buffer, last));
    assert!(rt; is_full(rt.alloc(), &mut buffer, one, last));
}

/// What a buffer answers to an insert of a payload x, and one of the same key in the index of the tree.
fn inserted_both(
    alloc: Global,
    buffer: &mut TxnBuffer,
    tree: TreeId,
    key: &[u8],
) -> Result<(), Refused> {
    let Some(index) = tree.index() else {
        return Err(Refused::Rule(Refusal::BadNumber));
    };
    let change = insert(alloc, key, b"x")?;
    let other = insert(alloc, key, b"x")?;
    buffer.note_both(tree, change, index, other)
}

/// Whether both of two changes are noted, and where the second alone has room, neither.
fn are_noted_or_neither(
    alloc: Global,
    buffer: &mut TxnBuffer,
    full: &mut TxnBuffer,
    tree: TreeId,
) -> bool {
    let many = Err(Refused::Rule(Refusal::TooManyChanges));
    inserted_both(alloc, buffer, tree, b"b") == Ok(())
        && has_noted(buffer, &[(8, "b"), (16, "b")])
        && inserted_both(alloc, full, tree, &[7]) == many
        && full.len() == 200
        && full.find(tree, &[7]).is_none()
}

#[test]
fn notes_two_changes_or_neither(rt: HostRuntime) {
    let (Ok(tree), Ok(last)) = (TreeId::new(8), TreeId::new(16)) else {
        rt.panic("no tree")
    };
    let (Ok(mut buffer), Ok(mut full)) = (TxnBuffer::new(rt.alloc()), TxnBuffer::new(rt.alloc()))
    else {
        rt.panic("no buffer")
    };
    assert!(rt; is_filled(rt.alloc(), &mut full, last));
    assert!(rt; are_noted_or_neither(rt.alloc(), &mut buffer, &mut full, tree));
}
