use db_base::cursor::Cursor;
use db_base::ids::{ClientId, MsgId, PageId};
use leaf_edit::{LeafBuf, VersionSpent, apply, fresh, merge, need};
use leaf_view::LeafView;
use log_codec::record::{PuItem, PuRec};
use run_cursor::run::{Run, take_run};
use std::alloc::Global;
use std::process::Abort;

/// Version 1 in format 1, no fence, one entry of what is done and one record.
const OLD_PAGE: [u8; 45] = [
    0x4c, 1, 0, 0, 0, 0, 0, 0, 0, 1, 0, 0, 0, 0, 0, 0, 0, 0, 0, 1, 0, 0, 0, 0, 0, 0, 0, 0, 1, 0, 0,
    0, 0, 0, 0, 0, 1, 0, 1, 1, 0x6b, 0, 1, 0x76, 0,
];

/// The same in format 2.
const PAGE: [u8; 46] = [
    0x4c, 2, 0, 0, 0, 0, 0, 0, 0, 1, 0, 0, 0, 0, 0, 0, 0, 0, 0, 1, 0, 0, 0, 0, 0, 0, 0, 0, 1, 0, 0,
    0, 0, 0, 0, 0, 1, 0, 1, 1, 0x6b, 0, 1, 0x76, 0, 0,
];

/// Its next version, with nothing applied.
const NEXT_PAGE: [u8; 46] = [
    0x4c, 2, 0, 0, 0, 0, 0, 0, 0, 2, 0, 0, 0, 0, 0, 0, 0, 0, 0, 1, 0, 0, 0, 0, 0, 0, 0, 0, 1, 0, 0,
    0, 0, 0, 0, 0, 1, 0, 1, 1, 0x6b, 0, 1, 0x76, 0, 0,
];

/// The next version of the leaf that the bytes spell, with nothing applied.
fn leaf_of(alloc: Global, bytes: &[u8]) -> Option<LeafBuf> {
    match LeafView::read(bytes) {
        Ok(leaf) => apply(alloc, &leaf, 0, &[]).ok(),
        Err(_) => None,
    }
}

/// Whether a leaf is written as these bytes.
fn is_written(alloc: Global, leaf: &LeafBuf, bytes: &[u8]) -> bool {
    match leaf.write(alloc) {
        Ok(written) => written.as_slice() == bytes,
        Err(_) => false,
    }
}

/// Whether a leaf of version 2 with one record is written as these bytes, and consists of them.
fn is_page_one(alloc: Global, page: LeafBuf, bytes: &[u8]) -> bool {
    let is_right = page.len() == 1 && page.view().version() == 2 && is_written(alloc, &page, bytes);
    let blob = page.into_blob();
    is_right && blob.as_slice() == bytes
}

// Whatever format was read, format 2 is written.
#[test]
fn page_one(rt: HostRuntime) {
    for bytes in [OLD_PAGE.as_slice(), PAGE.as_slice()] {
        match leaf_of(rt.alloc(), bytes) {
            Some(page) => assert!(rt; is_page_one(rt.alloc(), page, &NEXT_PAGE)),
            None => rt.panic("no leaf"),
        }
    }
}

/// The page behind an update of its record, number 1 of client 1 in the queue of page 1.
const APPLIED: [u8; 65] = [
    0x4c, 2, 0, 0, 0, 0, 0, 0, 0, 2, 0, 0, 0, 0, 0, 0, 0, 0, 0, 1, 0, 0, 0, 0, 0, 0, 0, 0, 1, 0, 0,
    0, 0, 0, 0, 0, 1, 1, 0, 0, 0, 0, 0, 0, 0, 1, 1, 0, 0, 0, 0, 0, 0, 0, 1, 0, 1, 1, 0x6b, 0, 2,
    0x77, 0x78, 0, 0,
];

/// That update, in epoch 1 and transaction 1.
const UPDATE: [u8; 34] = [
    0x50, 1, 1, 0, 0, 0, 0, 0, 0, 0, 1, 0, 0, 0, 0, 0, 0, 0, 1, 0, 0, 0, 0, 0, 0, 0, 1, 2, 1, 0x6b,
    0, 2, 0x77, 0x78,
];

/// The run of one item.
fn run_of(alloc: Global, item: PuItem) -> Option<Run> {
    take_run(alloc, &Cursor::new(alloc), &[item]).ok()
}

/// The run of that one update.
fn one_update(alloc: Global) -> Option<Run> {
    match PuRec::read(alloc, &UPDATE) {
        Ok(rec) => run_of(
            alloc,
            PuItem {
                id: MsgId::new(1),
                rec,
            },
        ),
        Err(_) => None,
    }
}

/// Whether the page behind a run has these bytes, and no item of the run is new to it.
fn is_applied(alloc: Global, page: &LeafView<'_>, run: &Run, bytes: &[u8]) -> bool {
    match apply(alloc, page, 1, run.items()) {
        Ok(applied) => {
            let left = fresh(&applied.view(), 1, run.items());
            let blob = applied.into_blob();
            left == 0 && blob.as_slice() == bytes
        }
        Err(_) => false,
    }
}

#[test]
fn a_run_is_applied(rt: HostRuntime) {
    let Ok(page) = LeafView::read(&OLD_PAGE) else {
        rt.panic("no leaf")
    };
    let Some(run) = one_update(rt.alloc()) else {
        rt.panic("no run")
    };
    assert!(rt; fresh(&page, 1, run.items()) == 1);
    assert!(rt; is_applied(rt.alloc(), &page, &run, &APPLIED));
}

/// Whether these bytes are written where a page takes the run, and that is answered.
fn is_merged(
    alloc: Global,
    page: &LeafView<'_>,
    run: &Run,
    wanted: Result<(), VersionSpent>,
    bytes: &[u8],
) -> bool {
    let Some(length) = need(page, 1, run.items()) else {
        return false;
    };
    match Vec::with_capacity(alloc, length) {
        Ok(mut out) => {
            merge(page, 1, run.items(), &mut out) == wanted && out.as_slice() == bytes
        }
        Err(_) => false,
    }
}

#[test]
fn a_run_is_merged(rt: HostRuntime) {
    let Ok(page) = LeafView::read(&OLD_PAGE) else {
        rt.panic("no leaf")
    };
    let Some(run) = one_update(rt.alloc()) else {
        rt.panic("no run")
    };
    assert!(rt; need(&page, 1, run.items()) == Some(65));
    assert!(rt; is_merged(rt.alloc(), &page, &run, Ok(()), &APPLIED));
}

#[test]
fn the_greatest_version_has_no_next_one(rt: HostRuntime) {
    let mut last = PAGE;
    last[2..10].fill(0xff);
    let Ok(page) = LeafView::read(&last) else {
        rt.panic("no leaf")
    };
    let Some(run) = one_update(rt.alloc()) else {
        rt.panic("no run")
    };
    assert!(rt; is_merged(rt.alloc(), &page, &run, Err(VersionSpent), &[]));
}

/// The page in format 1 with the records a and b instead of its own.
const TWO_RECORDS: [u8; 50] = [
    0x4c, 1, 0, 0, 0, 0, 0, 0, 0, 1, 0, 0, 0, 0, 0, 0, 0, 0, 0, 1, 0, 0, 0, 0, 0, 0, 0, 0, 1, 0, 0,
    0, 0, 0, 0, 0, 1, 0, 1, 1, b'a', 0, 1, b'v', 1, 1, b'b', 0, 0, 0,
];

/// The page in format 2 with these records and their attributes.
const TWO_ATTRIBUTES: [u8; 57] = [
    0x4c, 2, 0, 0, 0, 0, 0, 0, 0, 1, 0, 0, 0, 0, 0, 0, 0, 0, 0, 1, 0, 0, 0, 0, 0, 0, 0, 0, 1, 0, 0,
    0, 0, 0, 0, 0, 1, 0, 1, 1, b'a', 0, 1, b'v', 1, 2, b'x', b'y', 1, 1, b'b', 0, 0, 1, 1, b'z', 0,
];

/// What stands behind the table of the two parts, without attributes and with them.
const BARE: (&[u8], &[u8]) = (
    &[0, 1, 1, b'a', 0, 1, b'v', 0, 0],
    &[0, 1, 1, b'b', 0, 0, 0, 0],
);

const ADORNED: (&[u8], &[u8]) = (
    &[0, 1, 1, b'a', 0, 1, b'v', 1, 2, b'x', b'y', 0],
    &[0, 1, 1, b'b', 0, 0, 1, 1, b'z', 0],
);

/// A leaf of two records cut behind its first, the right part on page 2.
fn cut(alloc: Global, page: LeafBuf) -> Option<(LeafBuf, LeafBuf)> {
    let right = PageId::new(2).ok()?;
    if page.len() != 2 {
        return None;
    }
    page.cut_at(alloc, 1, right).ok()
}

/// Whether a leaf is of this version and of format 2, and has one record.
fn is_single(leaf: &LeafView<'_>, version: u64) -> bool {
    leaf.version() == version && leaf.format() == 2 && leaf.records().len() == 1
}

/// Whether a leaf has number 1 of the tree's queue of client 1 done.
fn has_table(leaf: &LeafView<'_>) -> bool {
    match ClientId::new(1) {
        Ok(client) => leaf.done(0, client) == 1,
        Err(_) => false,
    }
}

/// Whether two leaves are of one record each, meet at b, and the second has the table.
fn are_parts(left: &LeafView<'_>, right: &LeafView<'_>) -> bool {
    is_single(left, 2)
        && is_single(right, 1)
        && left.high() == Some(b"b".as_slice())
        && right.low() == b"b".as_slice()
        && has_table(right)
}

/// Whether a leaf ends with these bytes.
fn ends_with(leaf: LeafBuf, bytes: &[u8]) -> bool {
    leaf.into_blob().as_slice().ends_with(bytes)
}

/// Whether a leaf of the records a and b is cut into such leaves, which end so.
fn is_cut(alloc: Global, page: LeafBuf, ends: (&[u8], &[u8])) -> bool {
    match cut(alloc, page) {
        Some((left, right)) => are_parts(&left.view(), &right.view())
            && ends_with(left, ends.0)
            && ends_with(right, ends.1),
        None => false,
    }
}

#[test]
fn a_leaf_is_cut(rt: HostRuntime) {
    for (bytes, ends) in [
        (TWO_RECORDS.as_slice(), BARE),
        (TWO_ATTRIBUTES.as_slice(), ADORNED),
    ] {
        match leaf_of(rt.alloc(), bytes) {
            Some(page) => assert!(rt; is_cut(rt.alloc(), page, ends)),
            None => rt.panic("no leaf"),
        }
    }
}
