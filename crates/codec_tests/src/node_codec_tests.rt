//! Vectors, refused bytes with the places that were worked out by hand, and each edit once.

use crate::refusals::{Reads, changed, refuses_changes, refuses_cuts};
use byte_format::{is_below, is_below_bound};
use db_base::cursor::Cursor;
use db_base::ids::{ClientId, PageId};
use db_base::pair::EditFault;
use node_codec::{Entries, InnerBuf, InnerView, TreeBuf, TreeView, whole_cursor};
use std::alloc::Global;
use std::process::Abort;

/// Version 1, next free page 2, level 1; client 1 up to number 1; the empty key to page 1.
const FIRST: [u8; 41] = [
    0x54, 1, 0, 0, 0, 0, 0, 0, 0, 1, 0, 0, 0, 0, 0, 0, 0, 2, 1, 1, 1, 0, 0, 0, 0, 0, 0, 0, 1, 0, 1,
    0, 0, 0, 0, 0, 0, 0, 0, 1, 0,
];

/// Version 1, next free page 3, level 1; clients 1 and 2 up to number 1; the empty key to page 1, c to page 2.
const ROOT: [u8; 62] = [
    0x54, 1, 0, 0, 0, 0, 0, 0, 0, 1, 0, 0, 0, 0, 0, 0, 0, 3, 1, 1, 1, 0, 0, 0, 0, 0, 0, 0, 1, 1, 2,
    0, 0, 0, 0, 0, 0, 0, 1, 0, 1, 0, 0, 0, 0, 0, 0, 0, 0, 1, 1, 1, b'c', 0, 0, 0, 0, 0, 0, 0, 2, 0,
];

/// The root above once its entries stand in a node on page 3: version 2, next free page 4, level 2.
const LOWERED: [u8; 51] = [
    0x54, 1, 0, 0, 0, 0, 0, 0, 0, 2, 0, 0, 0, 0, 0, 0, 0, 4, 2, 1, 1, 0, 0, 0, 0, 0, 0, 0, 1, 1, 2,
    0, 0, 0, 0, 0, 0, 0, 1, 0, 1, 0, 0, 0, 0, 0, 0, 0, 0, 3, 0,
];

/// That node: version 1, level 1, the empty low key, no page to the right, and the entries of the root.
const BELOW: [u8; 42] = [
    0x49, 1, 0, 0, 0, 0, 0, 0, 0, 1, 1, 0, 0, 0, 0, 0, 0, 0, 0, 0, 1, 0, 0, 0, 0, 0, 0, 0, 0, 1, 1,
    1, b'c', 0, 0, 0, 0, 0, 0, 0, 2, 0,
];

/// Version 1, level 1, keys from b on and below m, page 5 to the right; b to page 1, c to page 2.
const NODE: [u8; 46] = [
    0x49, 1, 0, 0, 0, 0, 0, 0, 0, 1, 1, 1, b'b', 0, 0, 0, 0, 0, 0, 0, 5, 1, b'm', 1, 1, b'b', 0, 0,
    0, 0, 0, 0, 0, 1, 1, 1, b'c', 0, 0, 0, 0, 0, 0, 0, 2, 0,
];

/// The node above with one more entry, d to page 1, and cut behind the first: keys from b on and below c, page 7 to the right.
const LEFT: [u8; 35] = [
    0x49, 1, 0, 0, 0, 0, 0, 0, 0, 2, 1, 1, b'b', 0, 0, 0, 0, 0, 0, 0, 7, 1, b'c', 1, 1, b'b', 0, 0,
    0, 0, 0, 0, 0, 1, 0,
];

/// The other part: version 1, keys from c on and below m, page 5 to the right; c to page 2, d to page 1.
const RIGHT: [u8; 46] = [
    0x49, 1, 0, 0, 0, 0, 0, 0, 0, 1, 1, 1, b'c', 0, 0, 0, 0, 0, 0, 0, 5, 1, b'm', 1, 1, b'c', 0, 0,
    0, 0, 0, 0, 0, 2, 1, 1, b'd', 0, 0, 0, 0, 0, 0, 0, 1, 0,
];

/// How many bytes of ROOT are there, and where it is refused.
const ROOT_CUTS: [(usize, u64); 17] = [
    (0, 0),
    (1, 1),
    (9, 2),
    (17, 10),
    (18, 18),
    (19, 19),
    (20, 20),
    (28, 21),
    (29, 29),
    (39, 39),
    (40, 40),
    (41, 41),
    (49, 42),
    (50, 50),
    (52, 51),
    (60, 53),
    (61, 61),
];

/// A place in ROOT, the byte that stands there instead, and where that is refused. Place 62 is behind the end.
const ROOT_CHANGES: [(usize, u8, u64); 21] = [
    // mark, format, version, next free page, level
    (0, 0x4c, 0),
    (1, 2, 1),
    (9, 0, 2),
    (17, 1, 10),
    (18, 0, 18),
    // the numbers: a continuation that is none, client 0, client 65, number 0, a client at the last
    (19, 2, 19),
    (20, 0, 20),
    (20, 65, 20),
    (28, 0, 21),
    (30, 1, 30),
    (39, 2, 39),
    // the entries: none, a first key that is not empty, page 0, a key at the last, a long key, a page that is free
    (40, 0, 40),
    (41, 1, 41),
    (49, 0, 42),
    (51, 0, 51),
    (51, 65, 51),
    (60, 3, 53),
    (17, 2, 53),
    // the end: a continuation that is none, one with nothing behind it, a byte too many
    (61, 2, 61),
    (61, 1, 62),
    (62, 0, 62),
];

/// How many bytes of NODE are there, and where it is refused.
const NODE_CUTS: [(usize, u64); 17] = [
    (0, 0),
    (1, 1),
    (9, 2),
    (10, 10),
    (11, 11),
    (12, 11),
    (20, 13),
    (21, 21),
    (22, 21),
    (23, 23),
    (24, 24),
    (25, 24),
    (33, 26),
    (34, 34),
    (36, 35),
    (44, 37),
    (45, 45),
];

/// A place in NODE, the byte that stands there instead, and where that is refused. Place 46 is behind the end.
const NODE_CHANGES: [(usize, u8, u64); 22] = [
    // mark, format, version, level, a long low key
    (0, 0x54, 0),
    (1, 2, 1),
    (9, 0, 2),
    (10, 0, 10),
    (11, 65, 11),
    // no page to the right: the high key's length stands for a continuation, its byte for a length
    (20, 0, 22),
    // the high key: none, a long one, one at the low key
    (21, 0, 21),
    (21, 65, 21),
    (22, b'b', 21),
    // the entries: none, a continuation that is none, a first key other than the low key
    (23, 0, 23),
    (23, 2, 23),
    (24, 0, 24),
    (25, b'a', 24),
    (25, b'c', 24),
    // page 0, a continuation that is none, a key at the last, one at the high key, page 0
    (33, 0, 26),
    (34, 2, 34),
    (36, b'b', 35),
    (36, b'm', 35),
    (44, 0, 37),
    // the end: a continuation that is none, one with nothing behind it, a byte too many
    (45, 2, 45),
    (45, 1, 46),
    (46, 0, 46),
];

/// Reads bytes as a root.
struct Roots;

impl Reads for Roots {
    fn fault_of(_alloc: Global, bytes: &[u8]) -> Option<u64> {
        match TreeView::read(bytes) {
            Ok(_) => None,
            Err(fault) => Some(fault.offset),
        }
    }
}

/// Reads bytes as an inner node.
struct Nodes;

impl Reads for Nodes {
    fn fault_of(_alloc: Global, bytes: &[u8]) -> Option<u64> {
        match InnerView::read(bytes) {
            Ok(_) => None,
            Err(fault) => Some(fault.offset),
        }
    }
}

#[test]
fn refused_roots(rt: HostRuntime) {
    assert!(rt; refuses_cuts::<Roots>(rt.alloc(), &ROOT, &ROOT_CUTS));
    assert!(rt; refuses_changes::<Roots>(rt.alloc(), &ROOT, &ROOT_CHANGES));
}

#[test]
fn refused_nodes(rt: HostRuntime) {
    assert!(rt; refuses_cuts::<Nodes>(rt.alloc(), &NODE, &NODE_CUTS));
    assert!(rt; refuses_changes::<Nodes>(rt.alloc(), &NODE, &NODE_CHANGES));
}

/// Whether a root is written as these bytes.
fn is_root(alloc: Global, root: &TreeBuf, bytes: &[u8]) -> bool {
    match root.write(alloc) {
        Ok(written) => written.as_slice() == bytes,
        Err(_) => false,
    }
}

/// Whether an inner node is written as these bytes.
fn is_node(alloc: Global, node: &InnerBuf, bytes: &[u8]) -> bool {
    match node.write(alloc) {
        Ok(written) => written.as_slice() == bytes,
        Err(_) => false,
    }
}

/// The root that is put behind a view of one.
fn root_behind(alloc: Global, bytes: &[u8]) -> Option<TreeBuf> {
    match TreeView::read(bytes) {
        Ok(view) => TreeBuf::of(alloc, &view).ok(),
        Err(_) => None,
    }
}

/// The node that is put behind a view of one.
fn node_behind(alloc: Global, bytes: &[u8]) -> Option<InnerBuf> {
    match InnerView::read(bytes) {
        Ok(view) => InnerBuf::of(alloc, &view).ok(),
        Err(_) => None,
    }
}

/// The cursor up to number 1 of client 1.
fn first_numbers(alloc: Global) -> Option<Cursor> {
    let client = ClientId::new(1).ok()?;
    let mut cursor = Cursor::new(alloc);
    match cursor.set(client, 1) {
        Ok(()) => Some(cursor),
        Err(_) => None,
    }
}

/// Whether the first root that is put, raised to a cursor, is written as these bytes.
fn is_first_root(alloc: Global, cursor: &Cursor, bytes: &[u8]) -> bool {
    match TreeBuf::of(alloc, &TreeView::empty()) {
        Ok(mut root) => root.raise(cursor).is_ok() && is_root(alloc, &root, bytes),
        Err(_) => false,
    }
}

#[test]
fn first_root_is_written(rt: HostRuntime) {
    match first_numbers(rt.alloc()) {
        Some(cursor) => assert!(rt; is_first_root(rt.alloc(), &cursor, &FIRST)),
        None => rt.panic("no cursor"),
    }
}

/// What the whole cursor of a root has for a client.
fn cursor_of(alloc: Global, view: &TreeView<'_>, client: ClientId) -> Option<u64> {
    match whole_cursor(view, alloc) {
        Ok(cursor) => Some(cursor.get(client)),
        Err(_) => None,
    }
}

/// Whether the entries lead to these pages, in their order.
fn are_pages(entries: Entries<'_>, pages: &[u64]) -> bool {
    let mut count = 0;
    for (_, page) in entries {
        if pages.get(count) != Some(&page.get()) {
            return false;
        }
        count = count.saturating_add(1);
    }
    count == pages.len()
}

/// Whether a root is of version 1 and level 1, has the next free page 2, and leads to page 1 alone.
fn is_first(view: &TreeView<'_>) -> bool {
    view.version() == 1 && view.next() == 2 && view.level() == 1 && are_pages(view.entries(), &[1])
}

/// Whether a root has number 1 of client 1.
fn has_number_1(alloc: Global, view: &TreeView<'_>) -> bool {
    match ClientId::new(1) {
        Ok(client) => view.cursor(client) == 1 && cursor_of(alloc, view, client) == Some(1),
        Err(_) => false,
    }
}

#[test]
fn first_root_is_read(rt: HostRuntime) {
    match TreeView::read(&FIRST) {
        Ok(view) => assert!(rt; is_first(&view) && has_number_1(rt.alloc(), &view)),
        Err(_) => rt.panic("no root"),
    }
}

/// Whether the bytes of a root are written with the next version, number 2.
fn is_next_root(alloc: Global, bytes: &[u8]) -> bool {
    match (changed(alloc, bytes, 9, 2), root_behind(alloc, bytes)) {
        (Some(wanted), Some(root)) => is_root(alloc, &root, wanted.as_slice()),
        _ => false,
    }
}

/// Whether the bytes of an inner node are written with the next version, number 2.
fn is_next_node(alloc: Global, bytes: &[u8]) -> bool {
    match (changed(alloc, bytes, 9, 2), node_behind(alloc, bytes)) {
        (Some(wanted), Some(node)) => is_node(alloc, &node, wanted.as_slice()),
        _ => false,
    }
}

#[test]
fn written_back_with_the_next_version(rt: HostRuntime) {
    assert!(rt; is_next_root(rt.alloc(), &FIRST));
    assert!(rt; is_next_root(rt.alloc(), &ROOT));
    assert!(rt; is_next_node(rt.alloc(), &NODE));
}

/// Reserves three pages, adds an entry of c to the first of them and then one of c to page 1, and gives the first.
fn reserve_and_add(root: &mut TreeBuf) -> Result<u64, EditFault> {
    let second = root.reserve(3)?;
    root.add(b"c", second)?;
    root.add(b"c", PageId::first())?;
    Ok(second.get())
}

/// The page to which a root leads from a key.
fn child(view: &TreeView<'_>, key: &[u8]) -> u64 {
    view.child(key).1.get()
}

/// Whether the bytes of a root have the next free page 5, and lead to page 1 from b and to page 2 from c.
fn leads(bytes: &[u8]) -> bool {
    match TreeView::read(bytes) {
        Ok(view) => view.next() == 5 && child(&view, b"b") == 1 && child(&view, b"c") == 2,
        Err(_) => false,
    }
}

/// Whether a root is written as such bytes.
fn is_written_to_lead(alloc: Global, root: &TreeBuf) -> bool {
    match root.write(alloc) {
        Ok(bytes) => leads(bytes.as_slice()),
        Err(_) => false,
    }
}

#[test]
fn an_entry_is_added(rt: HostRuntime) {
    match root_behind(rt.alloc(), &FIRST) {
        Some(mut root) => {
            assert!(rt; reserve_and_add(&mut root) == Ok(2) && root.len() == 2);
            assert!(rt; is_written_to_lead(rt.alloc(), &root));
        }
        None => rt.panic("no root"),
    }
}

/// The root over a node that has its entries, and that node.
fn lowered(alloc: Global, view: &TreeView<'_>) -> Result<(TreeBuf, InnerBuf), EditFault> {
    if view.level() == 255 {
        return Err(EditFault::Exhausted);
    }
    let mut root = TreeBuf::of(alloc, view)?;
    let page = root.reserve(1)?;
    root.lower(page)
}

/// Whether a root is lowered to the root and the node that were spelled by hand.
fn is_lowered(alloc: Global, view: &TreeView<'_>) -> bool {
    match lowered(alloc, view) {
        Ok((root, node)) => {
            root.len() == 1
                && node.len() == 2
                && is_root(alloc, &root, &LOWERED)
                && is_node(alloc, &node, &BELOW)
        }
        Err(_) => false,
    }
}

#[test]
fn entries_go_below(rt: HostRuntime) {
    match TreeView::read(&ROOT) {
        Ok(view) => assert!(rt; is_lowered(rt.alloc(), &view)),
        Err(_) => rt.panic("no root"),
    }
}

/// Whether a node is of version 1 and level 1, and has page 5 to the right.
fn has_numbers(view: &InnerView<'_>) -> bool {
    view.version() == 1 && view.level() == 1 && view.right().map(PageId::get) == Some(5)
}

/// Whether a node's keys are those from b on and below m.
fn is_from_b_to_m(view: &InnerView<'_>) -> bool {
    view.low() == b"b".as_slice() && view.high() == Some(b"m".as_slice())
}

/// Whether a node leads from bz to page 1, by the entry of b.
fn leads_from_b(view: &InnerView<'_>) -> bool {
    if is_below(b"bz", view.low()) {
        return false;
    }
    let (low, page) = view.child(b"bz");
    low == b"b".as_slice() && page.get() == 1
}

#[test]
fn a_node_is_read(rt: HostRuntime) {
    match InnerView::read(&NODE) {
        Ok(view) => {
            assert!(rt; has_numbers(&view) && is_from_b_to_m(&view) && leads_from_b(&view));
            assert!(rt; are_pages(view.entries(), &[1, 2]));
        }
        Err(_) => rt.panic("no node"),
    }
}

/// The node behind a view with one more entry, d to page 1.
fn wider(alloc: Global, view: &InnerView<'_>) -> Result<InnerBuf, EditFault> {
    if is_below(b"d", view.low()) || !is_below_bound(b"d", view.high()) {
        return Err(EditFault::Exhausted);
    }
    let mut node = InnerBuf::of(alloc, view)?;
    node.add(b"d", PageId::first())?;
    Ok(node)
}

/// A node cut behind its first entry, the right part on page 7.
fn cut(node: InnerBuf) -> Option<(InnerBuf, InnerBuf)> {
    let page = PageId::new(7).ok()?;
    if node.len() < 2 {
        return None;
    }
    node.cut_at(1, page).ok()
}

/// Whether a node is cut into the parts that were spelled by hand.
fn is_cut(alloc: Global, node: InnerBuf) -> bool {
    match cut(node) {
        Some((left, right)) => is_node(alloc, &left, &LEFT) && is_node(alloc, &right, &RIGHT),
        None => false,
    }
}

/// Whether a node with one more entry is so cut.
fn is_widened_and_cut(alloc: Global, view: &InnerView<'_>) -> bool {
    match wider(alloc, view) {
        Ok(node) => is_cut(alloc, node),
        Err(_) => false,
    }
}

#[test]
fn a_node_is_cut(rt: HostRuntime) {
    match InnerView::read(&NODE) {
        Ok(view) => assert!(rt; is_widened_and_cut(rt.alloc(), &view)),
        Err(_) => rt.panic("no node"),
    }
}
