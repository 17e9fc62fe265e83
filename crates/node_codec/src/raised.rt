//! The numbers of a root raised to those of a cursor.

ghost use Rattle.std.specs.Prelude.{◌≡◌, ◌++◌, true, None, max, IfOk, OnOk};
ghost use Rattle.db_base.specs.Ids.{IsClient};
ghost use Rattle.db_base.specs.Cursor.{number_of};
ghost use Rattle.byte_format.specs.Format.{list_fits};
ghost use Rattle.node_codec.specs.Node.{plain_number, client_number, number_bytes, raised};
ghost use Rattle.node_codec.specs.Plain.{IsList, IsWholeList};
ghost use Rattle.node_codec.specs.Lists.{numbers_in};

use crate::client_number::number_in;
use byte_format::{try_add_u8, try_add_u64};
use db_base::cursor::Cursor;
use db_base::ids::ClientId;
use std::alloc::{AllocError, Global};

/// The greater of a client's number in a list and in a cursor.
fn greater_number(numbers: &[u8], cursor: &Cursor, client: u64) -> u64
    requires listed { IsList plain_number numbers.now }
    requires client { IsClient client }
    ensures { result ≡ max (number_of (numbers_in numbers.now) client) (number_of cursor.now client) }
{
    match ClientId::new(client) {
        Ok(client) => number_in(numbers, client).max(cursor.get(client)),
        Err(_) => 0,
    }
}

/// Appends a client's number to a list, where it is above 0.
fn push_number(out: &mut Vec<u8>, client: u8, number: u64) -> Result<(), AllocError>
    ensures { OnOk result (out.new.items ≡ out.old.items ++ number_bytes client number) }
{
    if number == 0 {
        return Ok(());
    }
    try_add_u8(out, 1)?;
    try_add_u8(out, client)?;
    try_add_u64(out, number)
}

/// A list in which each client has the greater of its number in the list and in the cursor.
pub(crate) fn raised_numbers(
    alloc: Global,
    numbers: &[u8],
    cursor: &Cursor,
) -> Result<Vec<u8>, AllocError>
    requires { IsList plain_number numbers.now }
    ensures listed { IfOk result (λ v. IsWholeList plain_number v.items) }
    ensures value { IfOk result (λ v. numbers_in v.items ≡ raised (numbers_in numbers.now) cursor.now) }
    ensures fits { IfOk result (λ v. list_fits true client_number None (numbers_in v.items) ≡ true) }
{
    let mut out = Vec::new(alloc);
    for client in 1..65u8 {
        push_number(
            &mut out,
            client,
            greater_number(numbers, cursor, client as u64),
        )?;
    }
    try_add_u8(&mut out, 0)?;
    Ok(out)
}
