//! Writers into room that is there: they take no memory.

ghost use Rattle.std.specs.Prelude.{◌≡◌, ◌+◌, ◌≤◌, ◌<◌, ◌++◌, ◌∷◌, [], length, vec_len};
ghost use Rattle.std.specs.Vec.{vec_capacity};
ghost use Rattle.std.specs.Int.{w8, w16, w64, to_be_bytes};
ghost use Rattle.byte_format.specs.Adds.{Adds};

use std::mem;

/// Appends the bytes.
pub fn add(out: &mut Vec<u8>, bytes: &[u8])
    requires { vec_len out.old + length bytes.now ≤ vec_capacity out.old }
    ensures { Adds out.old out.new bytes.now }
{
    let alloc = *out.allocator();
    let mut held = mem::replace(out, Vec::new(alloc));
    for byte in bytes {
        held.push_reserved(*byte);
    }
    *out = held;
}

/// Appends one byte.
pub fn add_u8(out: &mut Vec<u8>, number: u8)
    requires { vec_len out.old + 1 ≤ vec_capacity out.old }
    ensures { Adds out.old out.new (number ∷ []) }
{
    out.push_reserved(number);
}

/// Appends two bytes, the most significant one first.
pub fn add_u16(out: &mut Vec<u8>, number: u16)
    requires { vec_len out.old + 2 ≤ vec_capacity out.old }
    ensures { Adds out.old out.new (to_be_bytes w16 number) }
{
    add(out, &number.to_be_bytes());
}

/// Appends eight bytes, the most significant one first.
pub fn add_u64(out: &mut Vec<u8>, number: u64)
    requires { vec_len out.old + 8 ≤ vec_capacity out.old }
    ensures { Adds out.old out.new (to_be_bytes w64 number) }
{
    add(out, &number.to_be_bytes());
}

/// Appends at most 255 bytes behind their length in one byte.
pub fn add_text8(out: &mut Vec<u8>, bytes: &[u8])
    requires short { length bytes.now < 256 }
    requires room { vec_len out.old + 1 + length bytes.now ≤ vec_capacity out.old }
    ensures { Adds out.old out.new (to_be_bytes w8 (length bytes.now) ++ bytes.now) }
{
    add_u8(out, bytes.len() as u8);
    add(out, bytes);
}

/// Appends at most 65,535 bytes behind their length in two bytes.
pub fn add_text16(out: &mut Vec<u8>, bytes: &[u8])
    requires short { length bytes.now < 65536 }
    requires room { vec_len out.old + 2 + length bytes.now ≤ vec_capacity out.old }
    ensures { Adds out.old out.new (to_be_bytes w16 (length bytes.now) ++ bytes.now) }
{
    add_u16(out, bytes.len() as u16);
    add(out, bytes);
}
