//! Leaves with any one byte changed, and fronts of leaves: what is read has the one spelling that it was read from, and what is refused
//! is in order up to the place that is named.

use crate::leaf_view_tests::{FENCED, FENCED_NOW, PAGE, PAGE_NOW};
use crate::refusals::changed;
use leaf_view::{Done, LeafView};
use std::alloc::Global;
use std::process::Abort;

pub(crate) fn add_text8(out: &mut Vec<u8>, bytes: &[u8]) -> Option<()> {
    out.push(u8::try_from(bytes.len()).ok()?).ok()?;
    out.extend_from_slice(bytes).ok()
}

pub(crate) fn add_text16(out: &mut Vec<u8>, bytes: &[u8]) -> Option<()> {
    let len = u16::try_from(bytes.len()).ok()?;
    out.extend_from_slice(&len.to_be_bytes()).ok()?;
    out.extend_from_slice(bytes).ok()
}

/// The fields before the lists.
fn add_head(out: &mut Vec<u8>, view: &LeafView<'_>) -> Option<()> {
    out.push(0x4c).ok()?;
    out.push(view.format()).ok()?;
    out.extend_from_slice(&view.version().to_be_bytes()).ok()?;
    add_text8(out, view.low())?;
    let right = match view.right() {
        Some(right) => right.get(),
        None => 0,
    };
    out.extend_from_slice(&right.to_be_bytes()).ok()?;
    match view.high() {
        Some(high) => add_text8(out, high),
        None => Some(()),
    }
}

fn add_done(out: &mut Vec<u8>, done: &Done) -> Option<()> {
    out.push(1).ok()?;
    out.extend_from_slice(&done.queue.to_be_bytes()).ok()?;
    out.push(u8::try_from(done.client.get()).ok()?).ok()?;
    out.extend_from_slice(&done.number.to_be_bytes()).ok()
}

/// What stands behind a payload.
fn add_attr(out: &mut Vec<u8>, format: u8, attr: Option<&[u8]>) -> Option<()> {
    match attr {
        Some(attr) => {
            out.push(1).ok()?;
            add_text8(out, attr)
        }
        None if format == 2 => {
            out.push(0).ok()?;
            Some(())
        }
        None => Some(()),
    }
}

/// The bytes of a leaf, as the format says that it has.
fn spelled(alloc: Global, view: &LeafView<'_>) -> Option<Vec<u8>> {
    let mut out = Vec::new(alloc);
    add_head(&mut out, view)?;
    for done in view.done_list() {
        add_done(&mut out, &done)?;
    }
    out.push(0).ok()?;
    for (key, payload, attr) in view.records() {
        out.push(1).ok()?;
        add_text8(&mut out, key)?;
        add_text16(&mut out, payload)?;
        add_attr(&mut out, view.format(), attr)?;
    }
    out.push(0).ok()?;
    Some(out)
}

/// Whether bytes are in order up to a place, where nothing or a field begins.
fn is_in_order(bytes: &[u8], place: u64) -> bool {
    let Some(front) = usize::try_from(place)
        .ok()
        .and_then(|place| bytes.get(..place))
    else {
        return false;
    };
    match LeafView::read(front) {
        Ok(_) => true,
        Err(fault) => fault.offset == place,
    }
}

/// Whether bytes are read as the leaf that they spell, or are refused behind what is in order.
fn is_one_spelling(alloc: Global, bytes: &[u8]) -> bool {
    match LeafView::read(bytes) {
        Ok(view) => match spelled(alloc, &view) {
            Some(again) => again.as_slice() == bytes,
            None => false,
        },
        Err(fault) => is_in_order(bytes, fault.offset),
    }
}

/// Whether that holds where any one byte is another.
fn are_spellings(alloc: Global, bytes: &[u8]) -> bool {
    for at in 0..bytes.len() {
        for value in 0..=u8::MAX {
            let Some(changed) = changed(alloc, bytes, at, value) else {
                return false;
            };
            if !is_one_spelling(alloc, changed.as_slice()) {
                return false;
            }
        }
    }
    true
}

/// Whether each front of the bytes is refused behind what is in order.
fn are_cut_short(bytes: &[u8]) -> bool {
    for len in 0..bytes.len() {
        let Some(front) = bytes.get(..len) else {
            return false;
        };
        match LeafView::read(front) {
            Ok(_) => return false,
            Err(fault) if !is_in_order(front, fault.offset) => return false,
            Err(_) => {}
        }
    }
    true
}

#[test]
fn any_byte_of_a_page_is_another(rt: HostRuntime) {
    assert!(rt; are_spellings(rt.alloc(), &PAGE));
}

#[test]
fn any_byte_of_a_page_of_today_is_another(rt: HostRuntime) {
    assert!(rt; are_spellings(rt.alloc(), &PAGE_NOW));
}

#[test]
fn any_byte_of_a_fenced_leaf_is_another(rt: HostRuntime) {
    assert!(rt; are_spellings(rt.alloc(), &FENCED));
}

#[test]
fn any_byte_of_a_fenced_leaf_of_today_is_another(rt: HostRuntime) {
    assert!(rt; are_spellings(rt.alloc(), &FENCED_NOW));
}

#[test]
fn fronts_are_cut_short(rt: HostRuntime) {
    assert!(rt; are_cut_short(&PAGE));
    assert!(rt; are_cut_short(&PAGE_NOW));
    assert!(rt; are_cut_short(&FENCED));
    assert!(rt; are_cut_short(&FENCED_NOW));
}
