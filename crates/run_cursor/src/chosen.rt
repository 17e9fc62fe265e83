ghost use Rattle.std.specs.Prelude.{◌≡◌, true, List, [], ◌∷◌, ◌++◌, All, IfOk, IsTrue};
ghost use Rattle.log_codec.specs.Order.{IsItem};
ghost use Rattle.log_codec.specs.declared.record.PuItem.{PuItem as Item};
ghost use Rattle.run_cursor.specs.Chosen.{chosen, is_wanted, AreChosen};
ghost use Rattle.run_cursor.specs.Leading.{NoneAbove, Reaches};

use crate::run::RunFault;
use crate::top::{has, set};
use db_base::attr::attr_bytes;
use db_base::change::Change;
use db_base::cursor::Cursor;
use log_codec::record::PuItem;
use std::alloc::Global;

/// Whether the item's number is within the run and not kept yet; no number of the client above that of `upto` is kept.
fn wants(cursor: &Cursor, top: &Cursor, upto: &Cursor, kept: &[PuItem], x: &PuItem) -> bool
    requires { NoneAbove kept.now upto.now }
    ensures { result ≡ is_wanted cursor.now top.now kept.now x.now }
{
    let client = x.rec.client;
    let number = x.rec.number;
    cursor.get(client) < number
        && number <= top.get(client)
        && (upto.get(client) < number || !has(kept, client, number))
}

/// Raises the client of an item to the item's number.
fn raise(upto: &mut Cursor, x: &PuItem) -> Result<(), RunFault>
    ensures { IfOk result (λ _. Reaches upto.old upto.new x.now) }
{
    if upto.get(x.rec.client) < x.rec.number {
        set(upto, x.rec.client, x.rec.number)?;
    }
    Ok(())
}

/// Adds a copy of the item.
fn keep(alloc: Global, kept: &mut Vec<PuItem>, x: &PuItem) -> Result<(), RunFault>
    ensures kept { IfOk result (λ _. kept.new.items ≡ kept.old.items ++ x.now ∷ []) }
    ensures item { IfOk result (λ _. IsItem x.now) }
{
    let _client = x.rec.client.get();
    let _number = x.rec.number;
    kept.push(x.copied(alloc)?)?;
    Ok(())
}

/// Reads an item, since what its types say of it is known of an item that is read.
fn read(x: &PuItem)
    ensures { IsItem x.now }
{
    let _client = x.rec.client.get();
    let _number = x.rec.number;
    match &x.rec.change {
        Change::Insert { key, payload, attr } => {
            let _key = key.as_slice();
            let _payload = payload.as_slice();
            let _attr = attr_bytes(attr);
        }
        Change::Update { key, payload } => {
            let _key = key.as_slice();
            let _payload = payload.as_slice();
        }
        Change::Delete { key } => {
            let _key = key.as_slice();
        }
        Change::Add { key, amount } => {
            let _key = key.as_slice();
            let _amount = *amount;
        }
    }
}

/// Whether the item's number is within the run and above that of its client in `upto`, so that it was not kept before.
fn is_new(cursor: &Cursor, top: &Cursor, upto: &Cursor, x: &PuItem) -> bool
    ensures { IsTrue result → (kept : List Item) → NoneAbove kept upto.now → is_wanted cursor.now top.now kept x.now ≡ true }
{
    let client = x.rec.client;
    let number = x.rec.number;
    upto.get(client) < number && number <= top.get(client) && number > cursor.get(client)
}

/// Whether each item is new where it comes, so that all of them are chosen as they are.
fn are_new(alloc: Global, cursor: &Cursor, top: &Cursor, items: &[PuItem]) -> Result<bool, RunFault>
    ensures { IfOk result (λ new. IsTrue new → AreChosen cursor.now top.now items.now) }
{
    let mut upto = Cursor::new(alloc);
    let mut left = items;
    while let Some((x, rest)) = left.split_first() {
        if !is_new(cursor, top, &upto, x) {
            return Ok(false);
        }
        read(x);
        raise(&mut upto, x)?;
        left = rest;
    }
    Ok(true)
}

/// The items behind the cursor and up to the top, in order of receipt, each number once. Where all are such, none is copied.
pub(crate) fn choose_of(
    alloc: Global,
    cursor: &Cursor,
    top: &Cursor,
    items: Vec<PuItem>,
) -> Result<Vec<PuItem>, RunFault>
    ensures chosen { IfOk result (λ kept. kept.items ≡ chosen cursor.now top.now [] items.items) }
    ensures items { IfOk result (λ kept. All IsItem kept.items) }
{
    if are_new(alloc, cursor, top, items.as_slice())? {
        return Ok(items);
    }
    choose(alloc, cursor, top, items.as_slice())
}

/// Copies of the items behind the cursor and up to the top, in order of receipt, each number once.
pub(crate) fn choose(
    alloc: Global,
    cursor: &Cursor,
    top: &Cursor,
    items: &[PuItem],
) -> Result<Vec<PuItem>, RunFault>
    ensures chosen { IfOk result (λ kept. kept.items ≡ chosen cursor.now top.now [] items.now) }
    ensures items { IfOk result (λ kept. All IsItem kept.items) }
{
    let mut kept = Vec::new(alloc);
    let mut upto = Cursor::new(alloc);
    let mut left = items;
    while let Some((x, rest)) = left.split_first() {
        if wants(cursor, top, &upto, kept.as_slice(), x) {
            keep(alloc, &mut kept, x)?;
            raise(&mut upto, x)?;
        }
        left = rest;
    }
    Ok(kept)
}
