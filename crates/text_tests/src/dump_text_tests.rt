use dump_text::dump::{Dump, DumpedTree};
use dump_text::fault::DumpFault;
use report_types::stored::Stored;
use std::alloc::{AllocError, Global};
use std::process::Abort;

/// Texts of dumps.
const TEXTS: [&str; 10] = [
    "",
    "tree 1 1\n6b 76\n",
    "tree 1 2\n6b 76\n6c -\n",
    "tree 16 1\n6b - 61\n",
    "tree 1 2\n6b 76\n6b00 76\n",
    "tree 2 1\n6b 76 6162\ntree 3 2\n00 -\nff 0102 0000\ntree 16 1\n6b 76\n",
    "tree 1 1\n00000000000000000000000000000000000000000000000000000000000000000000000000000000000000000000000000000000000000000000000000000000 -\n",
    "tree 1 1\n6b 76 6161616161616161616161616161616161616161616161616161616161616161\n",
    "tree 1 1\nffffffffffffffffffffffffffffffffffffffffffffffffffffffffffffffffffffffffffffffffffffffffffffffffffffffffffffffffffffffffffffffff -\n",
    "tree 1 2\nfffffffffffffffffffffffffffffffffffffffffffffffffffffffffffffffffffffffffffffffffffffffffffffffffffffffffffffffffffffffffffffffe -\nffffffffffffffffffffffffffffffffffffffffffffffffffffffffffffffffffffffffffffffffffffffffffffffffffffffffffffffffffffffffffffffff -\n",
];

/// Texts that are no dump, and the first bad line of each.
const BAD_TEXTS: [(&str, u64); 47] = [
    // The line of a tree.
    ("\n", 1),
    ("tree 1 1", 1),
    ("tree 0 1\n6b 76\n", 1),
    ("tree 17 1\n6b 76\n", 1),
    ("tree 01 1\n6b 76\n", 1),
    ("tree 1 01\n6b 76\n", 1),
    ("tree 1 0\n", 1),
    ("tree 1 18446744073709551616\n6b 76\n", 1),
    ("tree 1\n6b 76\n", 1),
    ("tree 1 1 1\n6b 76\n", 1),
    ("tree 1 1 \n6b 76\n", 1),
    ("tree  1 1\n6b 76\n", 1),
    ("Tree 1 1\n6b 76\n", 1),
    ("trees 1 1\n6b 76\n", 1),
    ("tree 1 1\r\n6b 76\n", 1),
    ("6b 76\n", 1),
    ("tree 2 1\n6b 76\ntree 1 1\n6b 76\n", 3),
    ("tree 1 1\n6b 76\ntree 1 1\n6c 76\n", 3),
    // The line of a record.
    ("tree 1 1\n- 76\n", 2),
    ("tree 1 1\n6B 76\n", 2),
    ("tree 1 1\n6 76\n", 2),
    ("tree 1 1\n6b\n", 2),
    ("tree 1 1\n6b \n", 2),
    ("tree 1 1\n6b  76\n", 2),
    ("tree 1 1\n6b 76 -\n", 2),
    ("tree 1 1\n6b 76 61 61\n", 2),
    ("tree 1 1\n6b 76 \n", 2),
    ("tree 1 1\ntree 2 1\n6b 76\n", 2),
    (
        "tree 1 1\n0000000000000000000000000000000000000000000000000000000000000000000000000000000000000000000000000000000000000000000000000000000000 -\n",
        2,
    ),
    (
        "tree 1 1\n6b 76 616161616161616161616161616161616161616161616161616161616161616161\n",
        2,
    ),
    ("tree 1 2\n6c 76\n6b 76\n", 3),
    ("tree 1 2\n6b 76\n6b 77\n", 3),
    ("tree 1 2\n6b00 76\n6b 76\n", 3),
    // More lines or fewer.
    ("tree 1 1\n", 2),
    ("tree 1 18446744073709551615\n", 2),
    ("tree 1 1\n6b 76", 2),
    ("tree 1 1\n6b", 2),
    ("tree 1 2\n6b 76\n", 3),
    ("tree 1 2\n6b 76\ntree 2 1\n6b 76\n", 3),
    ("tree 1 1\n6b 76\n6c 76\n", 3),
    ("tree 1 1\n6b 76\n\n", 3),
    ("tree 1 1\n6b 76\ntree 2 1\n", 4),
    // Fewer keys are left behind a line than its tree promises: none behind the greatest one, and 256 behind 63 bytes ff.
    (
        "tree 1 2\nffffffffffffffffffffffffffffffffffffffffffffffffffffffffffffffffffffffffffffffffffffffffffffffffffffffffffffffffffffffffffffffff -\n",
        2,
    ),
    (
        "tree 1 3\nfffffffffffffffffffffffffffffffffffffffffffffffffffffffffffffffffffffffffffffffffffffffffffffffffffffffffffffffffffffffffffffffe -\n",
        2,
    ),
    (
        "tree 1 2\nfffffffffffffffffffffffffffffffffffffffffffffffffffffffffffffffffffffffffffffffffffffffffffffffffffffffffffffffffffffffffffffffe -\n",
        3,
    ),
    (
        "tree 1 258\nffffffffffffffffffffffffffffffffffffffffffffffffffffffffffffffffffffffffffffffffffffffffffffffffffffffffffffffffffffffffffffff -\n",
        2,
    ),
    (
        "tree 1 257\nffffffffffffffffffffffffffffffffffffffffffffffffffffffffffffffffffffffffffffffffffffffffffffffffffffffffffffffffffffffffffffff -\n",
        3,
    ),
];

/// Whether a text is read, and what is read is written as it.
fn is_written_back(alloc: Global, text: &str) -> bool {
    match Dump::read(alloc, text.as_bytes()) {
        Ok(dump) => match dump.write(alloc) {
            Ok(written) => written.as_slice() == text.as_bytes(),
            Err(_) => false,
        },
        Err(_) => false,
    }
}

/// Whether each text is read, and what is read is written as it.
fn are_written_back(alloc: Global, texts: &[&str]) -> bool {
    for text in texts {
        if !is_written_back(alloc, text) {
            return false;
        }
    }
    true
}

/// Whether this is the first bad line of a text.
fn is_bad_at(alloc: Global, text: &str, wanted: u64) -> bool {
    match Dump::read(alloc, text.as_bytes()) {
        Err(DumpFault::BadLine(line)) => line == wanted,
        _ => false,
    }
}

/// Whether the texts are no dumps, and the numbers beside them are their first bad lines.
fn are_bad_at(alloc: Global, texts: &[(&str, u64)]) -> bool {
    for (text, wanted) in texts {
        if !is_bad_at(alloc, text, *wanted) {
            return false;
        }
    }
    true
}

/// Whether a record has this key, payload and attribute.
fn is_record(stored: &Stored, key: &[u8], payload: &[u8], wanted: &[u8]) -> bool {
    match &stored.attr {
        Some(attr) => {
            stored.key.as_slice() == key
                && stored.payload.as_slice() == payload
                && attr.as_slice() == wanted
        }
        None => false,
    }
}

/// Whether a tree is number 16 with the one record `k`, `v`, `ab`.
fn is_sixteenth(dumped: &DumpedTree) -> bool {
    match dumped.records.as_slice() {
        [stored] => dumped.tree.get() == 16 && is_record(stored, b"k", b"v", b"ab"),
        _ => false,
    }
}

/// Whether a text is read as a dump of this tree alone.
fn is_read_as_sixteenth(alloc: Global, text: &str) -> bool {
    match Dump::read(alloc, text.as_bytes()) {
        Ok(dump) => match dump.trees.as_slice() {
            [dumped] => is_sixteenth(dumped),
            _ => false,
        },
        Err(_) => false,
    }
}

/// Adds a payload of so many bytes, and the end of its line.
fn add_payload(text: &mut String, count: u64) -> Result<(), AllocError> {
    for _ in 0..count {
        text.push_str("76")?;
    }
    text.push_str("\n")
}

/// A text of one record with a payload of so many bytes.
fn text_of_payload(alloc: Global, count: u64) -> Option<String> {
    let mut text = String::from_str(alloc, "tree 1 1\n6b ").ok()?;
    match add_payload(&mut text, count) {
        Ok(()) => Some(text),
        Err(_) => None,
    }
}

#[test]
fn each_text_is_read_and_written_back(rt: HostRuntime) {
    assert!(rt; are_written_back(rt.alloc(), &TEXTS));
}

#[test]
fn each_bad_text_is_refused_at_its_line(rt: HostRuntime) {
    assert!(rt; are_bad_at(rt.alloc(), &BAD_TEXTS));
}

#[test]
fn what_is_read_is_what_stands_there(rt: HostRuntime) {
    assert!(rt; is_read_as_sixteenth(rt.alloc(), "tree 16 1\n6b 76 6162\n"));
}

#[test]
fn a_payload_has_1024_bytes(rt: HostRuntime) {
    match text_of_payload(rt.alloc(), 1024) {
        Some(full) => assert!(rt; is_written_back(rt.alloc(), full.as_str())),
        None => rt.panic("no text"),
    }
}

#[test]
fn a_payload_has_no_1025_bytes(rt: HostRuntime) {
    match text_of_payload(rt.alloc(), 1025) {
        Some(longer) => assert!(rt; is_bad_at(rt.alloc(), longer.as_str(), 2)),
        None => rt.panic("no text"),
    }
}
