//! A dump of the greatest length that is loaded, and one of a byte more.

use crate::bench::{all_run, begins_over, runs_over};
use crate::sizes::{add_times, joined};
use memory_cloud::memory::MemoryCloud;
use schedule_run::status::Status;
use std::alloc::Global;

/// Behind the first two bytes of a key of 64: its rest, a payload of 1,024 and an attribute of 32, so that a line has 2,243 bytes.
const GREATEST: [(&[u8], usize); 6] = [
    (b"61", 62),
    (b" ", 1),
    (b"62", 1_024),
    (b" ", 1),
    (b"63", 32),
    (b"\n", 1),
];

/// The last line, of 1,807 bytes: with the first one, of 12, and 7,479 of the greatest these are 16,777,216.
const LAST: [(&[u8], usize); 6] = [
    (b"61", 62),
    (b" ", 1),
    (b"62", 806),
    (b" ", 1),
    (b"63", 32),
    (b"\n", 1),
];

/// A last line of a byte more, without an attribute.
const LONGER: [(&[u8], usize); 4] = [(b"61", 62), (b" ", 1), (b"62", 839), (b"\n", 1)];

/// Adds the line of a record whose key begins with the four digits of a number.
fn add_line(alloc: Global, text: &mut Vec<u8>, number: u64, rest: &[u8]) -> bool {
    match format!(in alloc; "{number}") {
        Ok(digits) => add_times(text, digits.as_bytes(), 1) && add_times(text, rest, 1),
        Err(_) => false,
    }
}

/// Adds 7,479 lines of records.
fn add_lines(alloc: Global, text: &mut Vec<u8>, rest: &[u8]) -> bool {
    for number in 1_000..8_479u64 {
        if !add_line(alloc, text, number, rest) {
            return false;
        }
    }
    true
}

/// Adds the lines of 7,480 records of tree 1, with this behind the digits of the last one.
fn add_tree(alloc: Global, text: &mut Vec<u8>, last: &[u8]) -> bool {
    let Some(greatest) = joined(alloc, &GREATEST) else {
        return false;
    };
    add_times(text, b"tree 1 7480\n", 1)
        && add_lines(alloc, text, greatest.as_slice())
        && add_line(alloc, text, 8_479, last)
}

/// Whether a dump that ends so has this length, and is loaded and dumped again.
fn goes_round(alloc: Global, last: &[(&[u8], usize)], length: usize) -> bool {
    let Some(last) = joined(alloc, last) else {
        return false;
    };
    let mut text = Vec::new(alloc);
    add_tree(alloc, &mut text, last.as_slice())
        && text.len() == length
        && is_dumped_again(alloc, text.as_slice())
}

/// Whether the text of 7,480 records is loaded into an empty database, and then dumped.
fn is_dumped_again(alloc: Global, text: &[u8]) -> bool {
    let mut cloud = MemoryCloud::new(alloc);
    begins_over(
        alloc,
        &["load", "db"],
        text,
        Status::Done,
        b"loaded 7480\nsettled ",
        &mut cloud,
    ) && runs_over(alloc, &["dump", "db"], b"", Status::Done, text, &mut cloud)
}

#[test]
fn loads_a_dump_of_the_greatest_length(rt: HostRuntime) {
    assert!(rt; goes_round(rt.alloc(), &LAST, 16_777_216));
}

/// Whether a dump that ends so has this length, and is too long to be loaded.
fn is_too_long(alloc: Global, last: &[(&[u8], usize)], length: usize) -> bool {
    let Some(last) = joined(alloc, last) else {
        return false;
    };
    let mut text = Vec::new(alloc);
    add_tree(alloc, &mut text, last.as_slice())
        && text.len() == length
        && all_run(
            alloc,
            &[
                (&["load", "db"], text.as_slice(), Status::TooLong, b""),
                (&["dump", "db"], b"", Status::Done, b""),
                (
                    &["load", "db"],
                    b"",
                    Status::Done,
                    b"loaded 0\nsettled 322\n",
                ),
            ],
        )
}

#[test]
fn loads_no_dump_of_a_byte_more(rt: HostRuntime) {
    assert!(rt; is_too_long(rt.alloc(), &LONGER, 16_777_217));
}
