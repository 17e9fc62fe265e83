use crate::refusals::{Reads, refuses_changes, refuses_cuts};
use db_base::cursor::Cursor;
use db_base::ids::{ClientId, PageId};
use leaf_view::LeafView;
use std::alloc::Global;
use std::process::Abort;

/// Format 1: version 1, no fence, one entry of what is done and one record.
pub(crate) const PAGE: [u8; 45] = [
    0x4c, 1, 0, 0, 0, 0, 0, 0, 0, 1, 0, 0, 0, 0, 0, 0, 0, 0, 0, 1, 0, 0, 0, 0, 0, 0, 0, 0, 1, 0, 0,
    0, 0, 0, 0, 0, 1, 0, 1, 1, 0x6b, 0, 1, 0x76, 0,
];

/// The same in format 2.
pub(crate) const PAGE_NOW: [u8; 46] = [
    0x4c, 2, 0, 0, 0, 0, 0, 0, 0, 1, 0, 0, 0, 0, 0, 0, 0, 0, 0, 1, 0, 0, 0, 0, 0, 0, 0, 0, 1, 0, 0,
    0, 0, 0, 0, 0, 1, 0, 1, 1, 0x6b, 0, 1, 0x76, 0, 0,
];

/// Format 1: keys from b on and below d, page 2 to the right, three entries of what is done, two records.
pub(crate) const FENCED: [u8; 89] = [
    0x4c, 1, 0, 0, 0, 0, 0, 0, 0, 2, 1, b'b', 0, 0, 0, 0, 0, 0, 0, 2, 1, b'd', 1, 0, 0, 0, 0, 0, 0,
    0, 0, 1, 0, 0, 0, 0, 0, 0, 0, 5, 1, 0, 0, 0, 0, 0, 0, 0, 0, 2, 0, 0, 0, 0, 0, 0, 0, 1, 1, 0, 0,
    0, 0, 0, 0, 0, 3, 1, 0, 0, 0, 0, 0, 0, 0, 1, 0, 1, 1, b'b', 0, 0, 1, 1, b'c', 0, 1, b'x', 0,
];

/// The same in format 2, where c has an attribute of two bytes.
pub(crate) const FENCED_NOW: [u8; 94] = [
    0x4c, 2, 0, 0, 0, 0, 0, 0, 0, 2, 1, b'b', 0, 0, 0, 0, 0, 0, 0, 2, 1, b'd', 1, 0, 0, 0, 0, 0, 0,
    0, 0, 1, 0, 0, 0, 0, 0, 0, 0, 5, 1, 0, 0, 0, 0, 0, 0, 0, 0, 2, 0, 0, 0, 0, 0, 0, 0, 1, 1, 0, 0,
    0, 0, 0, 0, 0, 3, 1, 0, 0, 0, 0, 0, 0, 0, 1, 0, 1, 1, b'b', 0, 0, 0, 1, 1, b'c', 0, 1, b'x', 1,
    2, b'y', b'z', 0,
];

/// How many bytes of the fenced leaf are there, and where it is refused: at the begin, in each field, before a continuation.
const FENCED_CUTS: [(usize, u64); 13] = [
    (0, 0),
    (1, 1),
    (5, 2),
    (11, 10),
    (15, 12),
    (21, 20),
    (22, 22),
    (30, 23),
    (31, 31),
    (39, 32),
    (79, 78),
    (87, 85),
    (88, 88),
];

/// A place in the fenced leaf, the byte that stands there instead, and where that is refused.
const FENCED_CHANGES: [(usize, u8, u64); 20] = [
    // mark, format, version
    (0, 0x49, 0),
    (1, 3, 1),
    (9, 0, 2),
    // fences: a long low key, no right page, no high key, a long one, one at the low key
    (10, 65, 10),
    (19, 0, 29),
    (20, 0, 20),
    (20, 65, 20),
    (21, b'b', 20),
    // a continuation that is none
    (22, 2, 22),
    (77, 2, 77),
    // the table: client 0, client 65, number 0, a queue below the last, a client at the last
    (31, 0, 31),
    (67, 65, 67),
    (39, 0, 32),
    (48, 4, 59),
    (49, 1, 49),
    // records: no key, below the low key, at the high key, at the key before, a long payload
    (78, 0, 78),
    (79, b'a', 78),
    (84, b'd', 83),
    (84, b'b', 83),
    (85, 5, 85),
];

/// How many bytes of the fenced leaf of format 2 are there, and where it is refused: before a flag, a continuation, an attribute's length,
/// in an attribute and before the end.
const FENCED_NOW_CUTS: [(usize, u64); 8] = [
    (1, 1),
    (82, 82),
    (83, 83),
    (89, 89),
    (90, 90),
    (91, 90),
    (92, 90),
    (93, 93),
];

/// A place in the fenced leaf of format 2, the byte that stands there instead, and where that is refused.
const FENCED_NOW_CHANGES: [(usize, u8, u64); 11] = [
    // no format, format 1, whose table of records ends at the first flag, and format 3
    (1, 0, 1),
    (1, 1, 83),
    (1, 3, 1),
    // a flag that is none, and one that takes the next record for an attribute
    (82, 2, 82),
    (89, 255, 89),
    (82, 1, 85),
    // no attribute, and then a continuation that is none
    (89, 0, 90),
    // an attribute of no byte, of 33 bytes, of more bytes than there are, and one that takes the end with it
    (90, 0, 90),
    (90, 33, 90),
    (90, 4, 90),
    (90, 3, 94),
];

/// Reads bytes as a leaf.
struct Leaves;

impl Reads for Leaves {
    fn fault_of(_alloc: Global, bytes: &[u8]) -> Option<u64> {
        match LeafView::read(bytes) {
            Ok(_) => None,
            Err(fault) => Some(fault.offset),
        }
    }
}

#[test]
fn refused(rt: HostRuntime) {
    assert!(rt; refuses_cuts::<Leaves>(rt.alloc(), &FENCED, &FENCED_CUTS));
    assert!(rt; refuses_changes::<Leaves>(rt.alloc(), &FENCED, &FENCED_CHANGES));
    assert!(rt; refuses_cuts::<Leaves>(rt.alloc(), &FENCED_NOW, &FENCED_NOW_CUTS));
    assert!(rt; refuses_changes::<Leaves>(rt.alloc(), &FENCED_NOW, &FENCED_NOW_CHANGES));
}

/// The same of the page without a fence; place 45 is behind its end.
const PAGE_CUTS: [(usize, u64); 2] = [(0, 0), (44, 44)];

const PAGE_CHANGES: [(usize, u8, u64); 2] = [(9, 0, 2), (45, 0, 45)];

/// And of the page in format 2, whose record ends with a flag.
const PAGE_NOW_CUTS: [(usize, u64); 3] = [(0, 0), (44, 44), (45, 45)];

const PAGE_NOW_CHANGES: [(usize, u8, u64); 4] = [(1, 1, 45), (44, 1, 45), (44, 2, 44), (46, 0, 46)];

#[test]
fn refused_pages(rt: HostRuntime) {
    assert!(rt; refuses_cuts::<Leaves>(rt.alloc(), &PAGE, &PAGE_CUTS));
    assert!(rt; refuses_changes::<Leaves>(rt.alloc(), &PAGE, &PAGE_CHANGES));
    assert!(rt; refuses_cuts::<Leaves>(rt.alloc(), &PAGE_NOW, &PAGE_NOW_CUTS));
    assert!(rt; refuses_changes::<Leaves>(rt.alloc(), &PAGE_NOW, &PAGE_NOW_CHANGES));
    assert!(rt; Leaves::fault_of(rt.alloc(), &[0x4c, 3]) == Some(1));
}

/// Whether a leaf is of version 1 and has no fence.
fn has_no_fence(page: &LeafView<'_>) -> bool {
    page.version() == 1 && page.low().is_empty() && page.high().is_none() && page.right().is_none()
}

/// Whether a leaf has this value at a key.
fn has_value(page: &LeafView<'_>, key: &[u8], payload: &[u8], attr: Option<&[u8]>) -> bool {
    match page.value(key) {
        Some(value) => value.payload() == payload && value.attr() == attr,
        None => false,
    }
}

/// Whether a leaf has the record of k and v without an attribute, and none of l.
fn has_one_record(page: &LeafView<'_>) -> bool {
    has_value(page, b"k", b"v", None) && page.value(b"l").is_none()
}

/// Whether number 1 of the tree's queue of client 1 is done, and none of the queue of page 1.
fn has_done_one(page: &LeafView<'_>) -> bool {
    match ClientId::new(1) {
        Ok(client) => page.done(0, client) == 1 && page.done(1, client) == 0,
        Err(_) => false,
    }
}

#[test]
fn a_page_is_read(rt: HostRuntime) {
    for (format, bytes) in [(1, PAGE.as_slice()), (2, PAGE_NOW.as_slice())] {
        match LeafView::read(bytes) {
            Ok(page) => {
                assert!(rt; page.format() == format && has_no_fence(&page));
                assert!(rt; has_one_record(&page) && has_done_one(&page));
            }
            Err(_) => rt.panic("no leaf"),
        }
    }
    assert!(rt; LeafView::empty().version() == 0 && LeafView::empty().format() == 2);
}

/// Whether a leaf's keys are those from b on and below d, and page 2 is to the right.
fn is_from_b_to_d(fenced: &LeafView<'_>) -> bool {
    fenced.low() == b"b".as_slice()
        && fenced.high() == Some(b"d".as_slice())
        && fenced.right().map(PageId::get) == Some(2)
}

/// Whether a leaf may hold b and cz, and neither d nor a.
fn holds_from_b_to_d(fenced: &LeafView<'_>) -> bool {
    fenced.holds(b"b") && fenced.holds(b"cz") && !fenced.holds(b"d") && !fenced.holds(b"a")
}

#[test]
fn fences_are_read(rt: HostRuntime) {
    match LeafView::read(&FENCED) {
        Ok(fenced) => assert!(rt; is_from_b_to_d(&fenced) && holds_from_b_to_d(&fenced)),
        Err(_) => rt.panic("no leaf"),
    }
}

/// The records of the fenced leaf.
const RECORDS: [(&[u8], &[u8], Option<&[u8]>); 2] = [(b"b", b"", None), (b"c", b"x", None)];

/// Those of the one of format 2.
const RECORDS_NOW: [(&[u8], &[u8], Option<&[u8]>); 2] = [
    (b"b", b"", None),
    (b"c", b"x", Some(b"yz")),
];

/// Whether a leaf has these records, in their order, and no other.
fn has_records(fenced: &LeafView<'_>, wanted: &[(&[u8], &[u8], Option<&[u8]>)]) -> bool {
    let mut count = 0;
    for record in fenced.records() {
        if wanted.get(count) != Some(&record) {
            return false;
        }
        count = count.saturating_add(1);
    }
    count == wanted.len()
}

#[test]
fn records_are_read(rt: HostRuntime) {
    match LeafView::read(&FENCED) {
        Ok(fenced) => assert!(rt; has_records(&fenced, &RECORDS)),
        Err(_) => rt.panic("no leaf"),
    }
    match LeafView::read(&FENCED_NOW) {
        Ok(fenced) => {
            assert!(rt; has_records(&fenced, &RECORDS_NOW));
            assert!(rt; has_value(&fenced, b"c", b"x", Some(b"yz")));
        }
        Err(_) => rt.panic("no leaf"),
    }
}

/// The number of the first entry of what is done, and the client of the second.
fn first_done(fenced: &LeafView<'_>) -> Option<(u64, u64)> {
    let (first, rest) = fenced.done_list().split()?;
    let second = rest.again().next()?;
    Some((first.number, second.client.get()))
}

#[test]
fn what_is_done_is_read(rt: HostRuntime) {
    match LeafView::read(&FENCED) {
        Ok(fenced) => assert!(rt; first_done(&fenced) == Some((5, 2))),
        Err(_) => rt.panic("no leaf"),
    }
}

/// A page or 0 for the tree, a client, and up to which number its messages in the page's or tree's queue are done.
const DONE: [(u64, u64, u64); 5] = [(0, 1, 5), (0, 2, 1), (0, 3, 0), (3, 1, 1), (1, 1, 0)];

/// Whether a leaf tells so of the queue and the client.
fn is_done(fenced: &LeafView<'_>, queue: u64, number: u64, done: u64) -> bool {
    match ClientId::new(number) {
        Ok(client) => fenced.numbers(queue).get(client) == done,
        Err(_) => false,
    }
}

/// Whether a leaf tells what each row says.
fn are_done(fenced: &LeafView<'_>, rows: &[(u64, u64, u64)]) -> bool {
    for (queue, number, done) in rows {
        if !is_done(fenced, *queue, *number, *done) {
            return false;
        }
    }
    true
}

#[test]
fn done_of_a_queue(rt: HostRuntime) {
    match LeafView::read(&FENCED) {
        Ok(fenced) => assert!(rt; are_done(&fenced, &DONE)),
        Err(_) => rt.panic("no leaf"),
    }
}

/// Whether a cursor has this number of a client.
fn has_number(cursor: &Cursor, number: u64, done: u64) -> bool {
    match ClientId::new(number) {
        Ok(client) => cursor.get(client) == done,
        Err(_) => false,
    }
}

/// Whether the cursor of the tree's queue has number 5 of client 1, number 1 of client 2 and none of client 3.
fn has_cursor(alloc: Global, fenced: &LeafView<'_>) -> bool {
    match fenced.cursor(alloc, 0) {
        Ok(cursor) => {
            has_number(&cursor, 1, 5) && has_number(&cursor, 2, 1) && has_number(&cursor, 3, 0)
        }
        Err(_) => false,
    }
}

#[test]
fn cursor_of_a_queue(rt: HostRuntime) {
    match LeafView::read(&FENCED) {
        Ok(fenced) => assert!(rt; has_cursor(rt.alloc(), &fenced)),
        Err(_) => rt.panic("no leaf"),
    }
}
