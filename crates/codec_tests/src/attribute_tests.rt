//! What changes make of payloads and attributes, and what two of them come to: all pairs of kinds.

use db_base::attr::{Attr, attr_bytes};
use db_base::change::{Change, act};
use db_base::key::{Key, Payload};
use db_base::refusal::Refused;
use db_base::value::Value;
use std::alloc::Global;
use std::process::Abort;

/// A change of the record under k.
enum Edit<'a> {
    Insert(&'a [u8], Option<&'a [u8]>),
    Update(&'a [u8]),
    Delete,
    Add(u64),
}

/// A payload, and an attribute or none.
type Held<'a> = (&'a [u8], Option<&'a [u8]>);

const SEVEN: &[u8] = &[0, 0, 0, 0, 0, 0, 0, 7];

/// SEVEN and two.
const NINE: &[u8] = &[0, 0, 0, 0, 0, 0, 0, 9];

/// A payload that has not eight bytes.
const WORD: &[u8] = b"word";

const A: Option<&[u8]> = Some(b"a");

const B: Option<&[u8]> = Some(b"bc");

/// What an insert without attribute and a change behind it come to.
const BEHIND_INSERT: [(Edit<'static>, Edit<'static>); 5] = [
    (Edit::Insert(b"q", None), Edit::Insert(b"q", None)),
    (Edit::Insert(b"q", B), Edit::Insert(b"q", B)),
    (Edit::Update(b"w"), Edit::Insert(b"w", None)),
    (Edit::Delete, Edit::Delete),
    (Edit::Add(2), Edit::Insert(NINE, None)),
];

/// The same of an insert with an attribute.
const BEHIND_INSERT_WITH: [(Edit<'static>, Edit<'static>); 5] = [
    (Edit::Insert(b"q", None), Edit::Insert(b"q", None)),
    (Edit::Insert(b"q", B), Edit::Insert(b"q", B)),
    (Edit::Update(b"w"), Edit::Insert(b"w", A)),
    (Edit::Delete, Edit::Delete),
    (Edit::Add(2), Edit::Insert(NINE, A)),
];

/// The same of an update.
const BEHIND_UPDATE: [(Edit<'static>, Edit<'static>); 5] = [
    (Edit::Insert(b"q", None), Edit::Insert(b"q", None)),
    (Edit::Insert(b"q", B), Edit::Insert(b"q", B)),
    (Edit::Update(b"w"), Edit::Update(b"w")),
    (Edit::Delete, Edit::Delete),
    (Edit::Add(2), Edit::Update(NINE)),
];

/// The same of a deletion.
const BEHIND_DELETE: [(Edit<'static>, Edit<'static>); 5] = [
    (Edit::Insert(b"q", None), Edit::Insert(b"q", None)),
    (Edit::Insert(b"q", B), Edit::Insert(b"q", B)),
    (Edit::Update(b"w"), Edit::Delete),
    (Edit::Delete, Edit::Delete),
    (Edit::Add(2), Edit::Delete),
];

/// The same of an addition.
const BEHIND_ADD: [(Edit<'static>, Edit<'static>); 5] = [
    (Edit::Insert(b"q", None), Edit::Insert(b"q", None)),
    (Edit::Insert(b"q", B), Edit::Insert(b"q", B)),
    (Edit::Update(b"w"), Edit::Update(b"w")),
    (Edit::Delete, Edit::Delete),
    (Edit::Add(2), Edit::Add(1)),
];

/// What changes make of no record.
const MADE_OF_NONE: [(Edit<'static>, Option<Held<'static>>); 5] = [
    (Edit::Insert(b"q", None), Some((b"q", None))),
    (Edit::Insert(b"q", B), Some((b"q", B))),
    (Edit::Update(b"w"), None),
    (Edit::Delete, None),
    (Edit::Add(2), None),
];

/// What they make of SEVEN without attribute.
const MADE_OF_SEVEN: [(Edit<'static>, Option<Held<'static>>); 5] = [
    (Edit::Insert(b"q", None), Some((b"q", None))),
    (Edit::Insert(b"q", B), Some((b"q", B))),
    (Edit::Update(b"w"), Some((b"w", None))),
    (Edit::Delete, None),
    (Edit::Add(2), Some((NINE, None))),
];

/// What they make of SEVEN with the attribute A.
const MADE_OF_SEVEN_WITH: [(Edit<'static>, Option<Held<'static>>); 5] = [
    (Edit::Insert(b"q", None), Some((b"q", None))),
    (Edit::Insert(b"q", B), Some((b"q", B))),
    (Edit::Update(b"w"), Some((b"w", A))),
    (Edit::Delete, None),
    (Edit::Add(2), Some((NINE, A))),
];

fn attribute(alloc: Global, bytes: Option<&[u8]>) -> Result<Option<Attr>, Refused> {
    match bytes {
        Some(bytes) => Ok(Some(Attr::new(alloc, bytes)?)),
        None => Ok(None),
    }
}

fn change(alloc: Global, edit: &Edit<'_>) -> Result<Change, Refused> {
    let key = Key::new(alloc, b"k")?;
    Ok(match edit {
        Edit::Insert(payload, attr) => Change::Insert {
            key,
            payload: Payload::new(alloc, payload)?,
            attr: attribute(alloc, *attr)?,
        },
        Edit::Update(payload) => Change::Update {
            key,
            payload: Payload::new(alloc, payload)?,
        },
        Edit::Delete => Change::Delete { key },
        Edit::Add(amount) => Change::Add {
            key,
            amount: *amount,
        },
    })
}

/// Whether a change is of this kind, payload, attribute and amount.
fn is_edit(change: &Change, edit: &Edit<'_>) -> bool {
    match (change, edit) {
        (Change::Insert { payload, attr, .. }, Edit::Insert(bytes, mark)) => {
            payload.as_slice() == *bytes && attr_bytes(attr) == *mark
        }
        (Change::Update { payload, .. }, Edit::Update(bytes)) => payload.as_slice() == *bytes,
        (Change::Delete { .. }, Edit::Delete) => true,
        (Change::Add { amount, .. }, Edit::Add(more)) => *amount == *more,
        _ => false,
    }
}

/// What two changes of k come to.
fn joined(alloc: Global, first: &Edit<'_>, second: &Edit<'_>) -> Result<Change, Refused> {
    let first = change(alloc, first)?;
    let mut both = first.copied(alloc)?;
    let second = change(alloc, second)?;
    if both.key().as_slice() == second.key().as_slice() {
        both.join(second);
    }
    Ok(both)
}

fn are_joined(alloc: Global, first: &Edit<'_>, rows: &[(Edit<'_>, Edit<'_>)]) -> bool {
    for (second, both) in rows {
        match joined(alloc, first, second) {
            Ok(made) if is_edit(&made, both) => {}
            _ => return false,
        }
    }
    true
}

#[test]
fn changes_join_an_insert(rt: HostRuntime) {
    assert!(rt; are_joined(rt.alloc(), &Edit::Insert(SEVEN, None), &BEHIND_INSERT));
}

#[test]
fn changes_join_an_insert_with_an_attribute(rt: HostRuntime) {
    assert!(rt; are_joined(rt.alloc(), &Edit::Insert(SEVEN, A), &BEHIND_INSERT_WITH));
}

#[test]
fn changes_join_an_update(rt: HostRuntime) {
    assert!(rt; are_joined(rt.alloc(), &Edit::Update(SEVEN), &BEHIND_UPDATE));
}

#[test]
fn changes_join_a_deletion(rt: HostRuntime) {
    assert!(rt; are_joined(rt.alloc(), &Edit::Delete, &BEHIND_DELETE));
}

#[test]
fn changes_join_an_addition(rt: HostRuntime) {
    assert!(rt; are_joined(rt.alloc(), &Edit::Add(u64::MAX), &BEHIND_ADD));
}

/// Whether an addition behind a change leaves it.
fn is_left(alloc: Global, edit: &Edit<'_>) -> bool {
    match joined(alloc, edit, &Edit::Add(2)) {
        Ok(both) => is_edit(&both, edit),
        Err(_) => false,
    }
}

#[test]
fn an_addition_leaves_a_word(rt: HostRuntime) {
    assert!(rt; is_left(rt.alloc(), &Edit::Insert(WORD, None)));
    assert!(rt; is_left(rt.alloc(), &Edit::Insert(WORD, A)));
    assert!(rt; is_left(rt.alloc(), &Edit::Update(WORD)));
}

/// Whether a record that holds this holds that after a change.
fn makes(old: &Option<Held<'_>>, change: &Change, new: &Option<Held<'_>>) -> bool {
    let old = match old {
        Some((payload, attr)) => Some(Value::with(payload, *attr)),
        None => None,
    };
    match (act(old, change), new) {
        (Some(value), Some((payload, attr))) => {
            value.payload() == *payload && value.attr() == *attr
        }
        (None, None) => true,
        _ => false,
    }
}

fn are_made(alloc: Global, old: &Option<Held<'_>>, rows: &[(Edit<'_>, Option<Held<'_>>)]) -> bool {
    for (edit, new) in rows {
        match change(alloc, edit) {
            Ok(change) if makes(old, &change, new) => {}
            _ => return false,
        }
    }
    true
}

#[test]
fn changes_act_on_no_record(rt: HostRuntime) {
    assert!(rt; are_made(rt.alloc(), &None, &MADE_OF_NONE));
}

#[test]
fn changes_act_on_a_number(rt: HostRuntime) {
    assert!(rt; are_made(rt.alloc(), &Some((SEVEN, None)), &MADE_OF_SEVEN));
}

#[test]
fn changes_act_on_a_number_with_an_attribute(rt: HostRuntime) {
    assert!(rt; are_made(rt.alloc(), &Some((SEVEN, A)), &MADE_OF_SEVEN_WITH));
}

/// The same of what one change makes.
fn is_made(alloc: Global, old: Held<'_>, edit: &Edit<'_>, new: Held<'_>) -> bool {
    match change(alloc, edit) {
        Ok(change) => makes(&Some(old), &change, &Some(new)),
        Err(_) => false,
    }
}

#[test]
fn changes_act_on_a_word(rt: HostRuntime) {
    assert!(rt; is_made(rt.alloc(), (WORD, None), &Edit::Add(2), (WORD, None)));
    assert!(rt; is_made(rt.alloc(), (WORD, A), &Edit::Add(2), (WORD, A)));
    assert!(rt; is_made(rt.alloc(), (WORD, A), &Edit::Update(b"w"), (b"w", A)));
    assert!(rt; is_made(rt.alloc(), (WORD, A), &Edit::Insert(b"q", B), (b"q", B)));
    assert!(rt;
        is_made(
            rt.alloc(),
            (WORD, A),
            &Edit::Insert(b"q", None),
            (b"q", None)
        )
    );
}
