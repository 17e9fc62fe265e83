//! The keys of an index by attribute: the records with an attribute stand together there, in the order of their keys.

ghost use Rattle.std.specs.Prelude.{◌≡◌, ℕ, ◌<◌, ◌↔◌, ◌⊎◌, List, length, IfOk, IfErr, IfSome, MatchOption};
ghost use Rattle.db_base.specs.Entry.{entry_bytes, index_insert as index_insert_of, IsEntry};
ghost use Rattle.db_base.specs.Limits.{longest_key};

use crate::attr::{Attr, MAX_ATTR};
use crate::change::Change;
use crate::key::{Key, MAX_KEY, Payload};
use crate::refusal::{Refusal, Refused};
use std::alloc::Global;

/// The index's key for a record: its attribute's length in one byte, its attribute, its key. LongEntry exactly where these have more than 64 bytes.
pub fn entry_key(alloc: Global, attr: &Attr, key: &Key) -> Result<Key, Refused>
    ensures ok { IfOk result (λ entry. IsEntry entry attr.now key.now) }
    ensures long { (result ≡ Err (Refused.Rule Refusal.LongEntry)) ↔ (longest_key < length (entry_bytes attr.now key.now)) }
    ensures only { IfErr result (λ e. (e ≡ Refused.Rule Refusal.LongEntry) ⊎ (e ≡ Refused.Memory)) }
{
    let attr = attr.as_slice();
    let key = key.as_slice();
    let length = 1 + attr.len() + key.len();
    if length > MAX_KEY {
        return Err(Refused::Rule(Refusal::LongEntry));
    }
    let mut bytes = Vec::with_capacity(alloc, length)?;
    bytes.push(attr.len() as u8)?;
    bytes.extend_from_slice(attr)?;
    bytes.extend_from_slice(key)?;
    Ok(Key::of(bytes))
}

/// The insert by which a record joins the index. LongEntry exactly where its entry has more than 64 bytes.
pub fn index_insert(alloc: Global, attr: &Attr, key: &Key) -> Result<Change, Refused>
    ensures ok { IfOk result (λ change. change ≡ index_insert_of attr.now key.now) }
    ensures entry { IfOk result (λ _. IsEntry (entry_bytes attr.now key.now) attr.now key.now) }
    ensures long { (result ≡ Err (Refused.Rule Refusal.LongEntry)) ↔ (longest_key < length (entry_bytes attr.now key.now)) }
    ensures only { IfErr result (λ e. (e ≡ Refused.Rule Refusal.LongEntry) ⊎ (e ≡ Refused.Memory)) }
{
    let key = match entry_key(alloc, attr, key) {
        Ok(key) => key,
        Err(e) => return Err(e),
    };
    match Payload::new(alloc, &[]) {
        Ok(payload) => Ok(Change::Insert {
            key,
            payload,
            attr: None,
        }),
        Err(_) => Err(Refused::Memory),
    }
}

/// The attribute and the key of an entry; None for bytes that are no entry. Takes no memory.
pub fn split_entry(bytes: &[u8]) -> Option<(&[u8], &[u8])>
    ensures entry { IfSome result (λ parts. IsEntry bytes.now parts.0.now parts.1.now) }
    ensures parts { (attr key : List ℕ) → IsEntry bytes.now attr key → MatchOption result ⊥ (λ parts. (parts.0.now ≡ attr) × (parts.1.now ≡ key)) }
{
    if bytes.len() > MAX_KEY {
        return None;
    }
    let (&length, rest) = bytes.split_first()?;
    let length = usize::from(length);
    if length == 0 || length > MAX_ATTR || length >= rest.len() {
        return None;
    }
    Some(rest.split_at(length))
}
