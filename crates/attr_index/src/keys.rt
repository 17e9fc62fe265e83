//! The keys that a leaf of the index lists.

ghost use Rattle.std.specs.Prelude.{◌≡◌, ◌∷◌, [], ◌++◌, IfOk, OnOk};
ghost use Rattle.byte_format.specs.Whole.{IsBytes};
ghost use Rattle.db_base.specs.Key.{IsKey};
ghost use Rattle.attr_index.specs.Prefix.{entry_keys};

use crate::prefix::record_key;
use db_base::attr::Attr;
use db_base::key::Key;
use db_base::refusal::Refused;
use leaf_view::LeafView;
use range_scan::Items;
use std::alloc::{AllocError, Global};
use std::collections::VecDeque;

/// Says of bytes what contracts see as a list of numbers: each is below 256.
pub(crate) fn are_bytes(bytes: &[u8])
    ensures { IsBytes bytes.now }
{
    let _ = bytes;
}

/// A copy of 1 to 64 bytes as a key. Fails for memory alone.
pub(crate) fn key_of(alloc: Global, bytes: &[u8]) -> Result<Key, AllocError>
    requires { IsKey bytes.now }
    ensures { IfOk result (λ key. key ≡ bytes.now) }
{
    match Key::new(alloc, bytes) {
        Ok(key) => Ok(key),
        Err(Refused::Memory) => Err(AllocError),
        Err(Refused::Rule(_)) => unreachable!(),
    }
}

/// A copy of the high key of a leaf, where there is one. Fails for memory alone.
pub(crate) fn high_key(alloc: Global, leaf: &LeafView<'_>) -> Result<Option<Key>, AllocError>
    ensures { IfOk result (λ high. high ≡ leaf.now.high) }
{
    match leaf.high() {
        Some(high) => Ok(Some(key_of(alloc, high)?)),
        None => Ok(None),
    }
}

/// Adds a key at the end. Fails for memory alone.
fn add_key(alloc: Global, key: &[u8], listed: &mut VecDeque<Key>) -> Result<(), AllocError>
    requires { IsKey key.now }
    ensures { OnOk result (listed.new.items ≡ listed.old.items ++ key.now ∷ []) }
{
    match listed.push_back(key_of(alloc, key)?) {
        Ok(()) => Ok(()),
        Err(_) => Err(AllocError),
    }
}

/// Adds the record's keys of those entries that are of the attribute. Fails for memory alone.
pub(crate) fn add_keys(
    alloc: Global,
    attr: &Attr,
    items: Items<'_>,
    listed: &mut VecDeque<Key>,
) -> Result<(), AllocError>
    ensures { OnOk result (listed.new.items ≡ listed.old.items ++ entry_keys attr.now items.entry) }
{
    let mut left = items;
    while let Some((entry, _)) = left.take_first() {
        if let Some(key) = record_key(attr, entry) {
            add_key(alloc, key, listed)?;
        }
    }
    Ok(())
}
