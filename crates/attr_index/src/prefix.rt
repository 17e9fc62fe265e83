//! The entries of one attribute: those that begin with its length and its bytes.

ghost use Rattle.std.specs.Prelude.{◌≡◌, IfOk, IfSome};
ghost use Rattle.std.specs.Option.{option_copied};
ghost use Rattle.db_base.specs.Key.{IsKey};
ghost use Rattle.attr_index.specs.Prefix.{next_of, prefix_of, record_key};

use crate::keys::key_of;
use db_base::attr::Attr;
use db_base::blob::Blob;
use db_base::entry::split_entry;
use db_base::key::Key;
use std::alloc::{AllocError, Global};

/// What each entry of an attribute begins with. Fails for memory alone.
pub(crate) fn prefix_of(alloc: Global, attr: &Attr) -> Result<Key, AllocError>
    ensures { IfOk result (λ key. key ≡ prefix_of attr.now) }
{
    let attr = attr.as_slice();
    let mut bytes = Vec::with_capacity(alloc, 1 + attr.len())?;
    bytes.push(attr.len() as u8)?;
    bytes.extend_from_slice(attr)?;
    key_of(alloc, bytes.as_slice())
}

/// The least bytes above all that begin so; none where each byte is the greatest. Fails for memory alone.
pub(crate) fn next_of(alloc: Global, prefix: &[u8]) -> Result<Option<Blob>, AllocError>
    ensures { IfOk result (λ next. next ≡ next_of prefix.now) }
{
    let mut front = prefix;
    while let Some((&last, rest)) = front.split_last() {
        if last < u8::MAX {
            let mut bytes = rest.to_vec(alloc)?;
            bytes.push(last + 1)?;
            return Ok(Some(Blob::of(bytes)));
        }
        front = rest;
    }
    Ok(None)
}

/// The record's key of an entry of this attribute; none for bytes that are no such entry. Takes no memory.
pub(crate) fn record_key<'a>(attr: &Attr, bytes: &'a [u8]) -> Option<&'a [u8]>
    ensures key { option_copied result ≡ record_key attr.now bytes.now }
    ensures is_key { IfSome result (λ key. IsKey key.now) }
{
    let attr = attr.as_slice();
    let (of, key) = split_entry(bytes)?;
    if of == attr { Some(key) } else { None }
}
