//! Changes written to bytes.

ghost use Rattle.std.specs.Prelude.{◌≡◌, ◌++◌, OnOk, length};
ghost use Rattle.std.specs.Int.{w8, w16, to_be_bytes};
ghost use Rattle.db_base.specs.Change.{IsChange};
ghost use Rattle.db_base.specs.Key.{IsKey, IsPayload};
ghost use Rattle.change_codec.specs.Change.{change_bytes};

use byte_format::{try_add, try_add_text8, try_add_text16, try_add_u64};
use db_base::change::Change;
use db_base::key::{Key, Payload};
use std::alloc::AllocError;

/// Appends the kind of a change and its key behind its length: both bytes at once, since heads hold many changes.
fn add_key(out: &mut Vec<u8>, kind: u8, key: &Key) -> Result<(), AllocError>
    ensures spelling { OnOk result (out.new.items ≡ out.old.items ++ (to_be_bytes w8 kind ++ (to_be_bytes w8 (length key.now) ++ key.now))) }
    ensures valid { IsKey key.now }
{
    let bytes = key.as_slice();
    try_add(out, &[kind, bytes.len() as u8])?;
    try_add(out, bytes)
}

/// Appends the kind of a change, its key and its payload.
fn add_payload(out: &mut Vec<u8>, kind: u8, key: &Key, payload: &Payload) -> Result<(), AllocError>
    ensures spelling { OnOk result (out.new.items ≡ out.old.items ++ (to_be_bytes w8 kind ++ ((to_be_bytes w8 (length key.now) ++ key.now) ++ (to_be_bytes w16 (length payload.now) ++ payload.now)))) }
    ensures key { IsKey key.now }
    ensures payload { IsPayload payload.now }
{
    let payload = payload.as_slice();
    add_key(out, kind, key)?;
    try_add_text16(out, payload)
}

/// Appends the spelling of the change.
#[tactic(auto, unfolding(crate::specs::Change::change_bytes))]
pub fn add_change(out: &mut Vec<u8>, change: &Change) -> Result<(), AllocError>
    ensures spelling { OnOk result (out.new.items ≡ out.old.items ++ change_bytes change.now) }
    ensures valid { OnOk result (IsChange change.now) }
{
    match change {
        Change::Insert {
            key,
            payload,
            attr: None,
        } => add_payload(out, 1, key, payload),
        Change::Insert {
            key,
            payload,
            attr: Some(attr),
        } => {
            add_payload(out, 5, key, payload)?;
            try_add_text8(out, attr.as_slice())
        }
        Change::Update { key, payload } => add_payload(out, 2, key, payload),
        Change::Delete { key } => add_key(out, 3, key),
        Change::Add { key, amount } => {
            add_key(out, 4, key)?;
            try_add_u64(out, *amount)
        }
    }
}
