ghost use Rattle.std.specs.Prelude.{◌≡◌, ◌++◌, ◌<◌, slice_index, IfOk, OnOk};
ghost use Rattle.std.specs.String.{string_bytes};
ghost use Rattle.std.specs.Result.{result_ok};
ghost use Rattle.hex.specs.Hex.{decode_of, encode_lower, lower_digits};
ghost use Rattle.std.specs.List.{list_all};
ghost use Rattle.words.specs.Word.{Reads, bytes_of, hexadecimal, is_lower_digit, is_lower_hex};

use crate::fault::TextFault;
use db_base::blob::Blob;
use hex::FromHexError;
use std::alloc::{AllocError, Global};

/// Whether each byte is `0` to `9` or `a` to `f`.
fn are_lower_digits(word: &[u8]) -> bool
    ensures { result ≡ list_all is_lower_digit word.now }
{
    word.iter().all(|b| matches!(*b, b'0'..=b'9' | b'a'..=b'f'))
}

/// Whether a word is one lower-case hexadecimal digit or more.
fn is_lower_hex(word: &[u8]) -> bool
    ensures { result ≡ is_lower_hex word.now }
{
    match word {
        [] => false,
        [_, ..] => are_lower_digits(word),
    }
}

/// The bytes that a word of hexadecimal digits spells, whatever their case.
fn decoded(alloc: Global, word: &[u8]) -> Result<Blob, TextFault>
    ensures { Reads result (result_ok (decode_of word.now)) }
{
    match hex::decode(alloc, word) {
        Ok(bytes) => Ok(Blob::of(bytes)),
        Err(FromHexError::OutOfMemory) => Err(TextFault::Memory),
        Err(FromHexError::OddLength) => Err(TextFault::NotInGrammar),
        Err(FromHexError::InvalidStringLength) => Err(TextFault::NotInGrammar),
        Err(FromHexError::InvalidHexCharacter { .. }) => Err(TextFault::NotInGrammar),
    }
}

/// The bytes that a word spells in lower-case hexadecimal, two digits a byte; `-` is no byte.
#[tactic(auto, unfolding(crate::specs::Word::bytes_of))]
pub fn bytes_of(alloc: Global, word: &[u8]) -> Result<Blob, TextFault>
    ensures { Reads result (bytes_of word.now) }
{
    if word == b"-".as_slice() {
        return Ok(Blob::new(alloc));
    }
    if !is_lower_hex(word) {
        return Err(TextFault::NotInGrammar);
    }
    decoded(alloc, word)
}

/// Bytes as a word of lower-case hexadecimal digits, and `-` for no byte.
pub fn hexadecimal(alloc: Global, bytes: &[u8]) -> Result<String, AllocError>
    ensures { IfOk result (λ word. string_bytes word ≡ hexadecimal bytes.now) }
{
    if bytes.is_empty() {
        return String::from_str(alloc, "-");
    }
    hex::encode(alloc, bytes)
}

/// The digit of a number below 16.
fn digit(number: u8) -> char
    requires { number < 16 }
    ensures digit { result ≡ slice_index lower_digits number }
    ensures ascii { result < 128 }
{
    match number {
        0 => '0',
        1 => '1',
        2 => '2',
        3 => '3',
        4 => '4',
        5 => '5',
        6 => '6',
        7 => '7',
        8 => '8',
        9 => '9',
        10 => 'a',
        11 => 'b',
        12 => 'c',
        13 => 'd',
        14 => 'e',
        15 => 'f',
        _ => unreachable!(),
    }
}

/// Adds two digits a byte at the end. Fails for memory alone.
#[tactic(auto, unfolding(hex::specs::Hex::encode_with))]
fn add_digits(text: &mut String, bytes: &[u8]) -> Result<(), AllocError>
    ensures { OnOk result (string_bytes text.new ≡ string_bytes text.old ++ encode_lower bytes.now) }
{
    let mut left = bytes;
    while let Some((byte, rest)) = left.split_first() {
        text.push(digit(*byte / 16))?;
        text.push(digit(*byte % 16))?;
        left = rest;
    }
    Ok(())
}

/// Adds bytes at the end as such a word. Fails for memory alone.
pub fn add_hexadecimal(text: &mut String, bytes: &[u8]) -> Result<(), AllocError>
    ensures { OnOk result (string_bytes text.new ≡ string_bytes text.old ++ hexadecimal bytes.now) }
{
    if bytes.is_empty() {
        return text.push('-');
    }
    add_digits(text, bytes)
}
