use db_base::ids::{ClientId, PageId};
use db_base::pair::EditFault;
use leaf_edit::{LeafBuf, apply};
use leaf_view::LeafView;
use node_codec::{InnerBuf, InnerView, TreeBuf, TreeView};
use split_plan::count::pieces;
use split_plan::inner::plan_inner;
use split_plan::leaf::plan_leaf;
use split_plan::plan::Pieces;
use split_plan::root::plan_root;
use std::alloc::{AllocError, Global};
use std::process::Abort;

// How many items there are, and how many each piece has, from left to right.
const CUTS: [(u8, &[usize]); 5] = [
    (64, &[64]),
    (65, &[33, 32]),
    (128, &[64, 64]),
    (129, &[43, 43, 43]),
    (200, &[50, 50, 50, 50]),
];

// A leaf of format 1 up to its records: version 2, no low key, right page 5 from key 255 on; number 1 of client 1 of the tree's queue applied.
const LEAF: [u8; 40] = [
    0x4c, 1, 0, 0, 0, 0, 0, 0, 0, 2, 0, 0, 0, 0, 0, 0, 0, 0, 5, 1, 255, 1, 0, 0, 0, 0, 0, 0, 0, 0,
    1, 0, 0, 0, 0, 0, 0, 0, 1, 0,
];

// An inner node up to its entries: version 3, level 2, no low key and no right page.
const NODE: [u8; 20] = [
    0x49, 1, 0, 0, 0, 0, 0, 0, 0, 3, 2, 0, 0, 0, 0, 0, 0, 0, 0, 0,
];

// A root up to its entries: version 3, next free page 300, level 2, no cursor.
const ROOT: [u8; 20] = [
    0x54, 1, 0, 0, 0, 0, 0, 0, 0, 3, 0, 0, 0, 0, 0, 0, 1, 44, 2, 0,
];

/// Adds the records from key 1 on, and the end.
fn add_records(bytes: &mut Vec<u8>, count: u8) -> Result<(), AllocError> {
    for i in 0..count {
        bytes.extend_from_slice(&[1, 1, i + 1, 0, 0])?;
    }
    bytes.extend_from_slice(&[0])
}

/// A leaf of version 3 and of the records from key 1 on.
fn leaf_of(alloc: Global, count: u8) -> Option<LeafBuf> {
    let mut bytes = LEAF.to_vec(alloc).ok()?;
    match add_records(&mut bytes, count) {
        Ok(()) => next_leaf(alloc, &bytes),
        Err(_) => None,
    }
}

/// The next version of the leaf that the bytes spell, with nothing applied.
fn next_leaf(alloc: Global, bytes: &[u8]) -> Option<LeafBuf> {
    match LeafView::read(bytes) {
        Ok(leaf) => apply(alloc, &leaf, 0, &[]).ok(),
        Err(_) => None,
    }
}

/// Adds the entries from the empty key and key 1 on, and the end.
fn add_entries(bytes: &mut Vec<u8>, count: u8) -> Result<(), AllocError> {
    bytes.extend_from_slice(&[1, 0, 0, 0, 0, 0, 0, 0, 0, 1])?;
    for i in 1..count {
        bytes.extend_from_slice(&[1, 1, i, 0, 0, 0, 0, 0, 0, 0, i])?;
    }
    bytes.extend_from_slice(&[0])
}

/// A node of the entries from the empty key and key 1 on.
fn node_of(alloc: Global, head: &[u8], count: u8) -> Option<Vec<u8>> {
    let mut bytes = head.to_vec(alloc).ok()?;
    match add_entries(&mut bytes, count) {
        Ok(()) => Some(bytes),
        Err(_) => None,
    }
}

#[test]
fn least_number_of_pieces(rt: HostRuntime) {
    for (len, count) in [
        (0, 1),
        (1, 1),
        (64, 1),
        (65, 2),
        (128, 2),
        (129, 3),
        (200, 4),
    ] {
        assert!(rt; pieces(len) == count);
    }
}

/// Whether the page is put last, and before it the new ones down to the first.
fn are_put_on(plan: &Pieces, page: u64, free: u64) -> bool {
    let mut number = page;
    let mut next = free;
    for put in plan.puts.as_slice().iter().rev() {
        if put.page.get() != number {
            return false;
        }
        number = next;
        next = next.saturating_add(1);
    }
    true
}

/// Whether each of the new pages has its entry.
fn are_named(plan: &Pieces, free: u64) -> bool {
    let mut number = free;
    for entry in plan.entries.as_slice() {
        if entry.page.get() != number {
            return false;
        }
        number = number.saturating_add(1);
    }
    plan.puts.as_slice().len() == plan.entries.as_slice().len().saturating_add(1)
}

/// Whether bytes are a leaf of so many records with the whole's table.
fn is_leaf_of(bytes: &[u8], size: usize, client: ClientId) -> bool {
    match LeafView::read(bytes) {
        Ok(leaf) => leaf.format() == 2 && leaf.records().len() == size && leaf.done(0, client) == 1,
        Err(_) => false,
    }
}

/// Whether the pieces have so many records, and each the whole's table.
fn are_leaves_of(plan: &Pieces, sizes: &[usize]) -> bool {
    let Ok(client) = ClientId::new(1) else {
        return false;
    };
    for (put, size) in plan.puts.as_slice().iter().rev().zip(sizes) {
        if !is_leaf_of(put.bytes.as_slice(), *size, client) {
            return false;
        }
    }
    plan.puts.as_slice().len() == sizes.len()
}

/// A leaf cut on page 7, where page 10 is the first free one.
fn cut_leaf(alloc: Global, buf: LeafBuf) -> Option<Pieces> {
    let page = PageId::new(7).ok()?;
    let Ok(free) = PageId::new(10) else {
        return None;
    };
    if pieces(buf.len() as u64) > 4 {
        return None;
    }
    plan_leaf(alloc, page, buf, free).ok()
}

/// Whether a leaf is cut into pieces of so many records.
fn is_leaf_cut(alloc: Global, buf: LeafBuf, sizes: &[usize]) -> bool {
    match cut_leaf(alloc, buf) {
        Some(plan) => {
            are_leaves_of(&plan, sizes) && are_put_on(&plan, 7, 10) && are_named(&plan, 10)
        }
        None => false,
    }
}

#[test]
fn leaves_are_cut(rt: HostRuntime) {
    for (count, sizes) in CUTS {
        match leaf_of(rt.alloc(), count) {
            Some(leaf) => assert!(rt; is_leaf_cut(rt.alloc(), leaf, sizes)),
            None => rt.panic("no leaf"),
        }
    }
}

/// Whether a leaf is of this version, its keys go from one bound up to another, and the page on its right is of this number.
fn is_between(leaf: &LeafView<'_>, version: u64, low: &[u8], high: &[u8], right: u64) -> bool {
    leaf.version() == version
        && leaf.low() == low
        && leaf.high() == Some(high)
        && leaf.right().map(PageId::get) == Some(right)
}

/// Whether bytes are such a leaf.
fn is_leaf_between(bytes: &[u8], version: u64, low: &[u8], high: &[u8], right: u64) -> bool {
    match LeafView::read(bytes) {
        Ok(leaf) => is_between(&leaf, version, low, high, right),
        Err(_) => false,
    }
}

/// Whether there are two pieces that meet at key 34.
fn meet(plan: &Pieces) -> bool {
    match (plan.puts.as_slice(), plan.entries.as_slice()) {
        ([right, left], [entry]) => {
            entry.low.as_slice() == [34].as_slice()
                && is_leaf_between(left.bytes.as_slice(), 3, &[], &[34], 10)
                && is_leaf_between(right.bytes.as_slice(), 1, &[34], &[255], 5)
        }
        _ => false,
    }
}

/// Whether a leaf is cut into such pieces.
fn is_cut_to_meet(alloc: Global, leaf: LeafBuf) -> bool {
    match cut_leaf(alloc, leaf) {
        Some(plan) => meet(&plan),
        None => false,
    }
}

#[test]
fn fences_meet(rt: HostRuntime) {
    match leaf_of(rt.alloc(), 65) {
        Some(leaf) => assert!(rt; is_cut_to_meet(rt.alloc(), leaf)),
        None => rt.panic("no leaf"),
    }
}

/// How many entries a node has.
fn length_of(alloc: Global, node: &InnerView<'_>) -> Option<usize> {
    match InnerBuf::of(alloc, node) {
        Ok(buf) => Some(buf.len()),
        Err(_) => None,
    }
}

/// Whether bytes are a node of so many entries and the whole's level.
fn is_node_of(alloc: Global, bytes: &[u8], size: usize) -> bool {
    match InnerView::read(bytes) {
        Ok(node) => node.level() == 2 && length_of(alloc, &node) == Some(size),
        Err(_) => false,
    }
}

/// Whether the pieces have so many entries, and each the whole's level.
fn are_nodes_of(alloc: Global, plan: &Pieces, sizes: &[usize]) -> bool {
    for (put, size) in plan.puts.as_slice().iter().rev().zip(sizes) {
        if !is_node_of(alloc, put.bytes.as_slice(), *size) {
            return false;
        }
    }
    plan.puts.as_slice().len() == sizes.len()
}

/// A node cut on page 7, where page 10 is the first free one.
fn cut_node(alloc: Global, view: &InnerView<'_>) -> Option<Pieces> {
    let page = PageId::new(7).ok()?;
    let Ok(free) = PageId::new(10) else {
        return None;
    };
    let buf = InnerBuf::of(alloc, view).ok()?;
    if pieces(buf.len() as u64) > 4 {
        return None;
    }
    plan_inner(alloc, page, buf, free).ok()
}

/// Whether a node is cut into pieces of so many entries.
fn is_view_cut(alloc: Global, view: &InnerView<'_>, sizes: &[usize]) -> bool {
    match cut_node(alloc, view) {
        Some(plan) => {
            are_nodes_of(alloc, &plan, sizes) && are_put_on(&plan, 7, 10) && are_named(&plan, 10)
        }
        None => false,
    }
}

/// Whether the node of these bytes is cut into pieces of so many entries.
fn is_node_cut(alloc: Global, bytes: &[u8], sizes: &[usize]) -> bool {
    match InnerView::read(bytes) {
        Ok(view) => is_view_cut(alloc, &view, sizes),
        Err(_) => false,
    }
}

#[test]
fn inner_nodes_are_cut(rt: HostRuntime) {
    for (count, sizes) in CUTS {
        match node_of(rt.alloc(), &NODE, count) {
            Some(bytes) => assert!(rt; is_node_cut(rt.alloc(), bytes.as_slice(), sizes)),
            None => rt.panic("no node"),
        }
    }
}

/// A root cut on the pages from 300 on.
fn cut_root(alloc: Global, view: &TreeView<'_>) -> Result<(Pieces, TreeBuf), EditFault> {
    if view.level() == 255 {
        return Err(EditFault::Exhausted);
    }
    let mut buf = TreeBuf::of(alloc, view)?;
    let first = buf.reserve(pieces(buf.len() as u64))?;
    plan_root(alloc, buf, first)
}

/// The page to which a root leads from a key.
fn child(view: &TreeView<'_>, key: &[u8]) -> u64 {
    view.child(key).1.get()
}

/// Whether bytes are a root of the next version and level that leads to page 300 first and to this one last.
fn leads_to(bytes: &[u8], last: u64) -> bool {
    match TreeView::read(bytes) {
        Ok(view) => {
            view.version() == 4
                && view.level() == 3
                && child(&view, &[]) == 300
                && child(&view, &[200]) == last
        }
        Err(_) => false,
    }
}

/// Whether a root of so many entries is written as such bytes.
fn is_above(alloc: Global, root: &TreeBuf, count: usize) -> bool {
    match root.write(alloc) {
        Ok(bytes) => root.len() == count
            && leads_to(bytes.as_slice(), 299u64.saturating_add(count as u64)),
        Err(_) => false,
    }
}

/// Whether a root is cut into pieces of so many entries.
fn is_root_view_cut(alloc: Global, view: &TreeView<'_>, sizes: &[usize]) -> bool {
    match cut_root(alloc, view) {
        Ok((plan, root)) => {
            are_nodes_of(alloc, &plan, sizes)
                && plan.entries.as_slice().len() == sizes.len()
                && is_above(alloc, &root, sizes.len())
        }
        Err(_) => false,
    }
}

/// Whether the root of these bytes is cut into pieces of so many entries.
fn is_root_cut(alloc: Global, bytes: &[u8], sizes: &[usize]) -> bool {
    match TreeView::read(bytes) {
        Ok(view) => is_root_view_cut(alloc, &view, sizes),
        Err(_) => false,
    }
}

#[test]
fn roots_are_cut(rt: HostRuntime) {
    for (count, sizes) in CUTS {
        match node_of(rt.alloc(), &ROOT, count) {
            Some(bytes) => assert!(rt; is_root_cut(rt.alloc(), bytes.as_slice(), sizes)),
            None => rt.panic("no root"),
        }
    }
}
