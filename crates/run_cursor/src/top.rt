ghost use Rattle.std.specs.Prelude.{◌≡◌, ◌↔◌, ℕ, ◌<◌, ◌≤◌, ◌^◌, ◌+◌, false, IfOk, IsTrue};
ghost use Rattle.db_base.specs.Cursor.{number_of, SetsNumber};
ghost use Rattle.run_cursor.specs.Run.{has_number, IsTop, Raises};
ghost use Rattle.run_cursor.specs.Leading.{Follows, IsLed, Passes};

use crate::run::RunFault;
use db_base::cursor::Cursor;
use db_base::ids::ClientId;
use log_codec::record::PuItem;

/// Whether the client has a record of this number among the items.
pub(crate) fn has(items: &[PuItem], client: ClientId, number: u64) -> bool
    ensures { result ≡ has_number items.now client number }
{
    items.iter().any(|x| x.rec.client.get() == client.get() && x.rec.number == number)
}

/// No record has a number above the greatest u64.
fn none_above(items: &[PuItem])
    ensures { (client : ℕ) → has_number items.now client (2 ^ 64) ≡ false }
{
    let mut left = items;
    while let Some((x, rest)) = left.split_first() {
        let _number = x.rec.number;
        left = rest;
    }
}

/// The last of the client's numbers that follow one another behind `from`.
fn last_behind(items: &[PuItem], client: ClientId, from: u64) -> u64
    ensures { IsTop from items.now client result }
{
    let mut last = from;
    while last < u64::MAX {
        if !has(items, client, last + 1) {
            return last;
        }
        last += 1;
    }
    none_above(items);
    last
}

/// Sets the client's number to the last of those that follow it among the items.
fn raise(top: &mut Cursor, items: &[PuItem], client: ClientId) -> Result<(), RunFault>
    ensures { IfOk result (λ _. Raises top.old top.new items.now client) }
{
    let last = last_behind(items, client, top.get(client));
    match top.set(client, last) {
        Ok(()) => Ok(()),
        Err(_) => Err(RunFault::Memory),
    }
}

/// Sets the client's number to the item's where the item is the next one.
fn follow(top: &mut Cursor, x: &PuItem) -> Result<(), RunFault>
    ensures { IfOk result (λ _. Follows top.old top.new x.now) }
{
    let last = top.get(x.rec.client);
    if last < u64::MAX && x.rec.number == last + 1 {
        set(top, x.rec.client, x.rec.number)?;
    }
    Ok(())
}

/// For each client the last number that is led to by items that follow one another as they were received.
fn top_in_order(cursor: &Cursor, items: &[PuItem]) -> Result<Cursor, RunFault>
    ensures { IfOk result (λ top. IsLed cursor.now items.now top) }
{
    let mut top = copy_of(cursor)?;
    let mut left = items;
    while let Some((x, rest)) = left.split_first() {
        follow(&mut top, x)?;
        left = rest;
    }
    Ok(top)
}

/// Whether a number is the one behind another.
fn is_next(last: u64, number: u64) -> bool
    ensures { IsTrue result ↔ (number ≡ last + 1) }
{
    if number <= last {
        return false;
    }
    number - last == 1
}

/// Where the item is the next one of its client, sets the client's number to the last of those that follow among the items.
fn pass(top: &mut Cursor, items: &[PuItem], x: &PuItem) -> Result<(), RunFault>
    ensures { IfOk result (λ _. Passes top.old top.new items.now x.now) }
{
    if !is_next(top.get(x.rec.client), x.rec.number) {
        return Ok(());
    }
    raise(top, items, x.rec.client)
}

/// For each client the last of the numbers that follow one another behind the cursor, or the cursor's.
///
/// Items that come in order are followed first, so that those that come out of order alone are looked for.
pub(crate) fn top_of(cursor: &Cursor, items: &[PuItem]) -> Result<Cursor, RunFault>
    ensures { IfOk result (λ top. (client : ℕ) → IsTop (number_of cursor.now client) items.now client (number_of top client)) }
{
    let mut top = top_in_order(cursor, items)?;
    let mut left = items;
    while let Some((x, rest)) = left.split_first() {
        pass(&mut top, items, x)?;
        left = rest;
    }
    Ok(top)
}

pub(crate) fn set(top: &mut Cursor, client: ClientId, number: u64) -> Result<(), RunFault>
    ensures { IfOk result (λ _. SetsNumber top.old top.new client number) }
{
    match top.set(client, number) {
        Ok(()) => Ok(()),
        Err(_) => Err(RunFault::Memory),
    }
}

pub(crate) fn copy_of(cursor: &Cursor) -> Result<Cursor, RunFault>
    ensures { IfOk result (λ c. c ≡ cursor.now) }
{
    match cursor.copied() {
        Ok(copy) => Ok(copy),
        Err(_) => Err(RunFault::Memory),
    }
}
