//! Inputs, keys, payloads and transactions of the greatest size, and beyond it.

use crate::bench::{ends, writes};
use schedule_run::status::Status;
use std::alloc::Global;

/// Adds these bytes so many times.
pub(crate) fn add_times(input: &mut Vec<u8>, part: &[u8], times: usize) -> bool {
    for _ in 0..times {
        if input.extend_from_slice(part).is_err() {
            return false;
        }
    }
    true
}

/// The parts behind one another, each so many times.
pub(crate) fn joined(alloc: Global, parts: &[(&[u8], usize)]) -> Option<Vec<u8>> {
    let mut input = Vec::new(alloc);
    for (part, times) in parts {
        if !add_times(&mut input, part, *times) {
            return None;
        }
    }
    Some(input)
}

/// Whether a replay of the parts, each so many times, ends with this status and writes this.
fn writes_parts(alloc: Global, parts: &[(&[u8], usize)], status: Status, output: &[u8]) -> bool {
    match joined(alloc, parts) {
        Some(input) => writes(alloc, input.as_slice(), status, output),
        None => false,
    }
}

#[test]
fn ends_by_its_length(rt: HostRuntime) {
    assert!(rt; writes_parts(rt.alloc(), &[(b"x", 262_145)], Status::TooLong, b""));
    assert!(rt;
        writes_parts(
            rt.alloc(),
            &[(b"x", 262_144)],
            Status::BadLine,
            b"bad line 1\n"
        )
    );
}

/// Inserts of a key of 64 bytes and a payload of 1,024, of a key of 65, of a payload of 1,025, of no key and in no tree; two commits; and
/// reads of keys of 65 and of 64 bytes.
const SIZES: [(&[u8], usize); 13] = [
    (b"open 1 1\nrun 1\ninsert 1 1 ", 1),
    (b"61", 64),
    (b" ", 1),
    (b"62", 1_024),
    (b"\ninsert 1 1 ", 1),
    (b"61", 65),
    (b" 62\ninsert 1 1 61 ", 1),
    (b"62", 1_025),
    (
        b"\ninsert 1 1 - 76\ninsert 1 17 61 76\ncommit 1\ncommit 1\nread 1 1 ",
        1,
    ),
    (b"61", 65),
    (b"\nread 1 1 ", 1),
    (b"61", 64),
    (b"\n", 1),
];

const SIZES_OUT: &[u8] =
    b"1 begun\n2 opened 1\n3 noted\n4 refused 2 long-key\n5 refused 3 long-payload\n6 refused 1 empty-key\n7 refused 5 bad-number\n8 begun\n9 refused 7 at-work\n10 refused 2 long-key\n11 refused 7 at-work\n";

#[test]
fn keeps_the_sizes(rt: HostRuntime) {
    assert!(rt; writes_parts(rt.alloc(), &SIZES, Status::Done, SIZES_OUT));
}

/// A key of 65 bytes, a payload of 1,025 and one of 1,024, each with an attribute of no byte.
const SIZES_BEFORE: [(&[u8], usize); 7] = [
    (b"open 1 1\nrun 1\ninsert 1 1 ", 1),
    (b"61", 65),
    (b" 76 -\ninsert 1 1 6b ", 1),
    (b"62", 1_025),
    (b" -\ninsert 1 1 6b ", 1),
    (b"62", 1_024),
    (b" -\n", 1),
];

const SIZES_BEFORE_OUT: &[u8] =
    b"1 begun\n2 opened 1\n3 refused 2 long-key\n4 refused 3 long-payload\n5 refused 11 bad-attr\n";

#[test]
fn refuses_an_attribute_last(rt: HostRuntime) {
    assert!(rt; writes_parts(rt.alloc(), &SIZES_BEFORE, Status::Done, SIZES_BEFORE_OUT));
}

/// Adds an insert of the key whose hexadecimal digits are those of a number.
fn add_insert(alloc: Global, input: &mut Vec<u8>, key: u64) -> bool {
    match format!(in alloc; "insert 1 1 {key} 76\n") {
        Ok(line) => input.extend_from_slice(line.as_bytes()).is_ok(),
        Err(_) => false,
    }
}

/// Adds inserts of the keys 1000, 1001 and so on up to a bound.
fn add_inserts(alloc: Global, input: &mut Vec<u8>, bound: u64) -> bool {
    for key in 1_000..bound {
        if !add_insert(alloc, input, key) {
            return false;
        }
    }
    true
}

/// Whether inserts of 201 keys, and of the first one of them again, are written so at their end.
fn ends_behind_inserts(alloc: Global, end: &[u8]) -> bool {
    let mut input = Vec::new(alloc);
    add_times(&mut input, b"open 1 1\nrun 1\n", 1)
        && add_inserts(alloc, &mut input, 1_201)
        && add_inserts(alloc, &mut input, 1_001)
        && ends(alloc, input.as_slice(), Status::Done, end)
}

#[test]
fn keeps_the_count(rt: HostRuntime) {
    let end = b"202 noted\n203 refused 4 too-many\n204 noted\n".as_slice();
    assert!(rt; ends_behind_inserts(rt.alloc(), end));
}

/// Whether 199 inserts, a put of a new key and an insert of a new one are written so at their end.
fn ends_behind_a_put(alloc: Global, end: &[u8]) -> bool {
    let mut input = Vec::new(alloc);
    add_times(&mut input, b"open 1 1\nrun 1\n", 1)
        && add_inserts(alloc, &mut input, 1_199)
        && add_times(
            &mut input,
            b"put 1 1 6b 76 61\ninsert 1 1 6b 76\nput 1 1 6b 76 61\n",
            1,
        )
        && ends(alloc, input.as_slice(), Status::Done, end)
}

#[test]
fn puts_both_or_neither(rt: HostRuntime) {
    let end = b"202 refused 4 too-many\n203 noted\n204 refused 4 too-many\n".as_slice();
    assert!(rt; ends_behind_a_put(rt.alloc(), end));
}
