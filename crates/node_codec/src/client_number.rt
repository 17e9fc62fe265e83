//! A client's number in a root.

ghost use Rattle.std.specs.Prelude.{◌≡◌, true, None, IfOk, IfErr, [], ◌≤◌, MatchOption};
ghost use Rattle.std.specs.Option.{option_copied};
ghost use Rattle.byte_format.specs.Gives.{Gives};
ghost use Rattle.byte_format.specs.Format.{list_fits};
ghost use Rattle.db_base.specs.Cursor.{number_of};
ghost use Rattle.node_codec.specs.Node.{plain_number, client_number, number_from, least_client};
ghost use Rattle.node_codec.specs.Lists.{numbers_in, numbers_at};
ghost use Rattle.node_codec.specs.Plain.{IsList, IsWholeList, IsFirst, StartsList};

use byte_format::{Rules, Stop, more_at, skip_list, u8_at, u64_at};
use db_base::cursor::Cursor;
use db_base::ids::ClientId;
use db_base::refusal::Refused;
use std::alloc::Global;
use std::marker::Model;

/// A client and the number up to which its records are applied.
#[derive(Drop)]
pub(crate) struct ClientNumber {
    client: ClientId,
    number: u64,
}

impl Model for ClientNumber {
    ghost use Rattle.std.specs.Prelude.{ℕ};

    ghost Value = { ℕ × ℕ };

    ghost view = { λ n. (n.client, n.number) };
}

impl ClientNumber {
    pub(crate) fn client(&self) -> ClientId
        ensures { result ≡ self.now.0 }
    {
        self.client
    }

    pub(crate) fn number(&self) -> u64
        ensures { result ≡ self.now.1 }
    {
        self.number
    }
}

/// The client from `least` on and its number at the front of the bytes, and the bytes behind them.
fn number_from(least: u8, bytes: &[u8]) -> Result<(ClientNumber, &[u8]), Stop>
    requires { 1 ≤ least }
    ensures { Gives (λ x. (x.0, x.1.now)) result ((number_from least).reading bytes.now) }
{
    let (client, behind) = u8_at(bytes, least, 64)?;
    let (number, rest) = u64_at(behind, 1, u64::MAX)?;
    match ClientId::new(client as u64) {
        Ok(client) => Ok((ClientNumber { client, number }, rest)),
        Err(_) => Err(Stop::at(bytes)),
    }
}

/// The first number of a list, and the bytes behind it.
pub(crate) fn first_number(bytes: &[u8]) -> Option<(ClientNumber, &[u8])>
    requires { IsList plain_number bytes.now }
    ensures { MatchOption result (numbers_in bytes.now ≡ []) (λ x. IsFirst plain_number bytes.now x.0 x.1.now) }
{
    let Ok((more, behind)) = more_at(bytes, true) else {
        return None;
    };
    if !more {
        return None;
    }
    match number_from(1, behind) {
        Ok((first, rest)) => Some((first, rest)),
        Err(_stop) => None,
    }
}

/// The rules of the numbers of a root.
#[derive(Drop)]
struct NumberRules {}

fn least_behind(before: Option<&ClientNumber>) -> u8
    ensures least { result ≡ least_client (option_copied before.entry) }
    ensures some { 1 ≤ result }
{
    match before {
        None => 1,
        Some(before) => before.client().get() as u8 + 1,
    }
}

impl<'a> Rules<'a> for NumberRules {
    type Item = ClientNumber;

    ghost item_format = { λ _ before. client_number before };

    fn item(
        &self,
        before: Option<&ClientNumber>,
        bytes: &'a [u8],
    ) -> Result<(ClientNumber, &'a [u8]), Stop> {
        number_from(least_behind(before), bytes)
    }
}

/// The bytes behind the numbers of a root.
fn skip_numbers(bytes: &[u8]) -> Result<&[u8], Stop>
    ensures gives { Gives (λ rest. (numbers_in bytes.now, rest.now)) result (numbers_at bytes.now) }
    ensures listed { IfOk result (λ rest. StartsList plain_number bytes.now rest.now) }
{
    skip_list(&NumberRules {}, true, bytes)
}

/// The numbers of a root, and the bytes behind them.
pub(crate) fn split_numbers(bytes: &[u8]) -> Result<(&[u8], &[u8]), Stop>
    ensures gives { Gives (λ x. (numbers_in x.0.now, x.1.now)) result (numbers_at bytes.now) }
    ensures listed { IfOk result (λ x. IsWholeList plain_number x.0.now) }
{
    let rest = skip_numbers(bytes)?;
    let (numbers, _rest) = bytes.split_at(bytes.len() - rest.len());
    Ok((numbers, rest))
}

/// A client's number in a list, 0 where it has none.
pub(crate) fn number_in(numbers: &[u8], client: ClientId) -> u64
    requires { IsList plain_number numbers.now }
    ensures { result ≡ number_of (numbers_in numbers.now) client }
{
    let mut rest = numbers;
    'numbers: while let Some((first, behind)) = first_number(rest) {
        if first.client().get() == client.get() {
            return first.number();
        }
        rest = behind;
    }
    0
}

/// The numbers of a list as a cursor. Refused for memory alone.
pub(crate) fn cursor_of(alloc: Global, numbers: &[u8]) -> Result<Cursor, Refused>
    requires listed { IsList plain_number numbers.now }
    requires fits { list_fits true client_number None (numbers_in numbers.now) ≡ true }
    ensures ok { IfOk result (λ c. c ≡ numbers_in numbers.now) }
    ensures memory { IfErr result (λ e. e ≡ Refused.Memory) }
{
    let mut cursor = Cursor::new(alloc);
    let mut rest = numbers;
    'numbers: while let Some((first, behind)) = first_number(rest) {
        cursor.set(first.client(), first.number())?;
        rest = behind;
    }
    Ok(cursor)
}
