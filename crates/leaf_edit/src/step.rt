//! Records and changes merged, one record at a time.

ghost use Rattle.std.specs.Prelude.{◌≡◌, ◌∷◌, drop, IfSome};
ghost use Rattle.std.specs.Option.{option_map};
ghost use Rattle.db_base.specs.Key.{IsKey};
ghost use Rattle.db_base.specs.Change.{key_of, act, IsChange};
ghost use Rattle.byte_format.specs.Order.{bytes_same};
ghost use Rattle.leaf_view.specs.Shown.{shown, valued};
ghost use Rattle.leaf_edit.specs.Edited.{with_value};
ghost use Rattle.leaf_edit.specs.Merging.{AllFrom, AreChanges, AreRecords, entry_at, Folds, IsValue, KeyBefore, Steps};
ghost use Rattle.leaf_edit.specs.Passing.{Leaps};

use crate::changes::Changes;
use crate::passing::pass;
use byte_format::{compare, is_same};
use db_base::change::{Change, act};
use db_base::value::Value;
use leaf_view::Records;
use log_codec::record::PuItem;
use std::cmp::Ordering;

/// Whether the item changes the record of this key.
fn is_at(x: &PuItem, key: &[u8]) -> bool
    ensures { result ≡ bytes_same (key_of x.now.rec.change) key.now }
{
    is_same(key_at(x), key)
}

/// The value at the key behind the changes of it that come first, and the changes behind those.
fn fold_key<'a>(
    key: &[u8],
    old: Option<Value<'a>>,
    changes: Changes<'a>,
) -> (Option<Value<'a>>, Changes<'a>)
    requires changes { AreChanges changes }
    requires from { AllFrom key.now changes }
    requires value { IfSome old IsValue }
    ensures { Folds key.now old.entry changes.entry result.0 result.1 }
{
    let mut value = old;
    let mut left = changes;
    while let Some(x) = left.first() {
        if !is_at(x, key) {
            return (value, left);
        }
        value = act(value, &x.rec.change);
        left = left.behind();
    }
    (value, left)
}

/// What comes next, unless a change removed it, and what is left of the records and of the changes.
#[derive(Drop)]
pub(crate) struct Step<'a> {
    pub(crate) record: Option<(&'a [u8], Value<'a>)>,
    pub(crate) records: Records<'a>,
    pub(crate) changes: Changes<'a>,
}

/// The step at a key, from its value, the changes, of which the first is of the key, and the records behind the key.
fn folded<'a>(
    x: &'a PuItem,
    old: Option<Value<'a>>,
    changes: Changes<'a>,
    records: Records<'a>,
) -> Step<'a>
    requires records { AreRecords records }
    requires first { changes ≡ x.now ∷ drop 1 changes }
    requires changes { AreChanges changes }
    requires before { KeyBefore (key_of x.now.rec.change) records }
    requires value { IfSome old IsValue }
    ensures { Steps (with_value (key_of x.now.rec.change) old.entry records.entry) changes.entry
        (option_map valued result.record) result.records result.changes }
{
    let key = key_at(x);
    let value = act_sized(old, &x.rec.change);
    let (value, changes) = fold_key(key, value, changes.behind());
    Step {
        record: entry_at(key, value),
        records,
        changes,
    }
}

/// The key that an item changes.
fn key_at(x: &PuItem) -> &[u8]
    ensures key { result.now ≡ key_of x.now.rec.change }
    ensures is_key { IsKey (key_of x.now.rec.change) }
{
    x.rec.change.key().as_slice()
}

/// A record that stays as it is.
fn kept<'a>(parts: (&'a [u8], &'a [u8], Option<&'a [u8]>)) -> (&'a [u8], Value<'a>)
    ensures { valued result ≡ shown parts.entry }
{
    (parts.0, Value::with(parts.1, parts.2))
}

/// The record of a key, where there is a value.
fn entry_at<'a>(key: &'a [u8], value: Option<Value<'a>>) -> Option<(&'a [u8], Value<'a>)>
    ensures { option_map valued result ≡ entry_at key.now value.entry }
{
    match value {
        Some(value) => Some((key, value)),
        None => None,
    }
}

/// The value after a change, which has a spelling where the one before has.
fn act_sized<'a>(old: Option<Value<'a>>, change: &'a Change) -> Option<Value<'a>>
    requires old { IfSome old IsValue }
    requires change { IsChange change.now }
    ensures act { result ≡ act old.entry change.now }
    ensures value { IfSome result IsValue }
{
    act(old, change)
}

/// The step at the first change, and at the first record where there is one.
fn at_change<'a>(x: &'a PuItem, changes: Changes<'a>, records: Records<'a>) -> Step<'a>
    requires records { AreRecords records }
    requires first { changes ≡ x.now ∷ drop 1 changes }
    requires changes { AreChanges changes }
    ensures { Steps records.entry changes.entry (option_map valued result.record) result.records result.changes }
{
    match records.again().split() {
        None => folded(x, None, changes, records),
        Some((record, behind)) => match compare(record.0, key_at(x)) {
            Ordering::Less => Step {
                record: Some(kept(record)),
                records: behind,
                changes,
            },
            Ordering::Equal => folded(x, Some(Value::with(record.1, record.2)), changes, behind),
            Ordering::Greater => folded(x, None, changes, records),
        },
    }
}

/// The bytes of the records that the first change leaves before it, and the step behind them.
pub(crate) fn next_step<'a>(
    x: &'a PuItem,
    records: Records<'a>,
    changes: Changes<'a>,
) -> (&'a [u8], Step<'a>)
    requires records { AreRecords records }
    requires first { changes ≡ x.now ∷ drop 1 changes }
    requires changes { AreChanges changes }
    ensures { Leaps records.entry changes.entry result.0.now (option_map valued result.1.record) result.1.records result.1.changes }
{
    let (passed, rest) = pass(records, key_at(x));
    (passed, at_change(x, changes, rest))
}
