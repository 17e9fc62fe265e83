//! The order of bytes.

ghost use Rattle.std.specs.Prelude.{◌≡◌, length};
ghost use Rattle.std.specs.Int.{w32, w64, from_be_bytes};
ghost use Rattle.std.specs.Option.{option_copied};
ghost use Rattle.byte_format.specs.Order.{bytes_below, bytes_cmp, bytes_same, below_bound};

use std::cmp::Ordering;

/// How `a` stands to `b` in the order of bytes. Bytes that both have are compared eight at a time: keys are short, and share their fronts.
pub fn compare(a: &[u8], b: &[u8]) -> Ordering
    ensures { result ≡ bytes_cmp a.now b.now }
{
    let mut left = a;
    let mut right = b;
    while 8 <= left.len() && 8 <= right.len() {
        let (front, behind) = left.split_at(8);
        let (other, rest) = right.split_at(8);
        let (x, y) = (word(front), word(other));
        if x != y {
            return x.cmp(&y);
        }
        left = behind;
        right = rest;
    }
    compare_by_half(left, right)
}

/// The number that eight bytes spell.
fn word(bytes: &[u8]) -> u64
    requires { length bytes.now ≡ 8 }
    ensures { result ≡ from_be_bytes w64 bytes.now }
{
    u64::from_be_bytes([
        bytes[0], bytes[1], bytes[2], bytes[3], bytes[4], bytes[5], bytes[6], bytes[7],
    ])
}

/// The number that four bytes spell.
fn half(bytes: &[u8]) -> u32
    requires { length bytes.now ≡ 4 }
    ensures { result ≡ from_be_bytes w32 bytes.now }
{
    u32::from_be_bytes([bytes[0], bytes[1], bytes[2], bytes[3]])
}

/// The same, four bytes first.
fn compare_by_half(a: &[u8], b: &[u8]) -> Ordering
    ensures { result ≡ bytes_cmp a.now b.now }
{
    if a.len() < 4 || b.len() < 4 {
        return compare_by_byte(a, b);
    }
    let (front, behind) = a.split_at(4);
    let (other, rest) = b.split_at(4);
    let (x, y) = (half(front), half(other));
    if x != y {
        return x.cmp(&y);
    }
    compare_by_byte(behind, rest)
}

/// The same, a byte at a time.
fn compare_by_byte(a: &[u8], b: &[u8]) -> Ordering
    ensures { result ≡ bytes_cmp a.now b.now }
{
    let mut left = a;
    let mut right = b;
    while let (Some((x, behind)), Some((y, rest))) = (left.split_first(), right.split_first()) {
        if *x != *y {
            return x.cmp(y);
        }
        left = behind;
        right = rest;
    }
    left.len().cmp(&right.len())
}

/// Whether `a` stands before `b` in the order of bytes.
pub fn is_below(a: &[u8], b: &[u8]) -> bool
    ensures { result ≡ bytes_below a.now b.now }
{
    compare(a, b).is_lt()
}

/// Whether `a` and `b` are the same bytes.
pub fn is_same(a: &[u8], b: &[u8]) -> bool
    ensures { result ≡ bytes_same a.now b.now }
{
    compare(a, b).is_eq()
}

/// Whether `a` stands before the bound, where there is one.
pub fn is_below_bound(a: &[u8], bound: Option<&[u8]>) -> bool
    ensures { result ≡ below_bound a.now (option_copied bound.entry) }
{
    match bound {
        None => true,
        Some(bound) => is_below(a, bound),
    }
}
