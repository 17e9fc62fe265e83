use cloud_trait::cloud::{Bench, Cloud};
use cloud_trait::grant::Grant;
use cloud_trait::lease::Lease;
use cloud_trait::who::Who;
use db_base::ids::{PageId, SessionNo, TreeId};
use db_base::names::{Lock, ObjName, Place, QueueName};
use db_base::trouble::Trouble;
use memory_cloud::memory::MemoryCloud;
use report_types::report::Report;
use report_types::stored::Stored;
use std::alloc::Global;
use world_audit::audit::Audit;

/// A leaf of version 1, with no fence, one entry of what is done, and the record of k and v, in format 2.
const PAGE: &[u8] = &[
    0x4c, 2, 0, 0, 0, 0, 0, 0, 0, 1, 0, 0, 0, 0, 0, 0, 0, 0, 0, 1, 0, 0, 0, 0, 0, 0, 0, 0, 1, 0, 0,
    0, 0, 0, 0, 0, 1, 0, 1, 1, 0x6b, 0, 1, 0x76, 0, 0,
];

/// The same with the attribute a.
const PAGE_WITH_ATTRIBUTE: &[u8] = &[
    0x4c, 2, 0, 0, 0, 0, 0, 0, 0, 1, 0, 0, 0, 0, 0, 0, 0, 0, 0, 1, 0, 0, 0, 0, 0, 0, 0, 0, 1, 0, 0,
    0, 0, 0, 0, 0, 1, 0, 1, 1, 0x6b, 0, 1, 0x76, 1, 1, 0x61, 0,
];

/// The same in format 1, which has no attributes.
const OLD_PAGE: &[u8] = &[
    0x4c, 1, 0, 0, 0, 0, 0, 0, 0, 1, 0, 0, 0, 0, 0, 0, 0, 0, 0, 1, 0, 0, 0, 0, 0, 0, 0, 0, 1, 0, 0,
    0, 0, 0, 0, 0, 1, 0, 1, 1, 0x6b, 0, 1, 0x76, 0,
];

/// An empty leaf of version 1, with no low key, right page 2 and high key m.
const BEFORE_PAGE_2: &[u8] = &[
    0x4c, 1, 0, 0, 0, 0, 0, 0, 0, 1, 0, 0, 0, 0, 0, 0, 0, 0, 2, 1, 0x6d, 0, 0,
];

/// An empty leaf of version 1, with no low key, right page 1 and high key m.
const BEFORE_PAGE_1: &[u8] = &[
    0x4c, 1, 0, 0, 0, 0, 0, 0, 0, 1, 0, 0, 0, 0, 0, 0, 0, 0, 1, 1, 0x6d, 0, 0,
];

/// A step of a script.
#[derive(Clone, Copy)]
enum Step<'a> {
    /// A page of tree 1 is put by its number.
    Puts(u64, &'a [u8]),
    /// A message is sent to the queue of tree 1.
    Sends(&'a [u8]),
    /// A report of tree 1 has no entries, no open head, so many messages, and the one record of this key and payload, and
    /// of this attribute or none.
    Reports(u64, &'a [u8], &'a [u8], Option<&'a [u8]>),
    /// A report stops at a page that is absent.
    FindsAbsent(u64),
    /// A report stops at a byte of a page.
    FindsDamaged(u64, u64),
    /// A report stops at a page that it met before.
    FindsLoop(u64),
    /// A report stops at a page whose low key is not the one that led to it, but another one.
    FindsFence(u64, &'a [u8], &'a [u8]),
}

/// Who calls, and for which tree.
#[derive(Clone, Copy)]
struct Names {
    who: Who,
    tree: TreeId,
}

/// Event 7 of session 3, and tree 1.
fn those() -> Option<Names> {
    match (SessionNo::new(3), TreeId::new(1)) {
        (Ok(session), Ok(tree)) => Some(Names {
            who: Who::new(session, 7),
            tree,
        }),
        _ => None,
    }
}

/// Whether all steps of a script go as they are to.
fn play_over<C: Bench>(alloc: Global, cloud: &mut C, script: &[Step<'_>]) -> bool {
    match those() {
        Some(names) => play_all(alloc, cloud, &names, script),
        None => false,
    }
}

fn play_all<C: Bench>(alloc: Global, cloud: &mut C, names: &Names, script: &[Step<'_>]) -> bool {
    for step in script {
        if !play_step(alloc, cloud, names, *step) {
            return false;
        }
    }
    true
}

fn play_step<C: Bench>(alloc: Global, cloud: &mut C, names: &Names, step: Step<'_>) -> bool {
    match step {
        Step::Puts(number, bytes) => puts(cloud, names, number, bytes),
        Step::Sends(bytes) => cloud
            .send(names.who, QueueName::TreePu(names.tree), bytes)
            .is_ok(),
        _ => reports(alloc, cloud, names, step),
    }
}

fn put_under<C: Cloud>(
    cloud: &mut C,
    names: &Names,
    name: ObjName,
    bytes: &[u8],
    lease: &Lease,
) -> bool {
    cloud.put_held(names.who, name, bytes, lease, None).is_ok()
}

/// Whether a page is put under its lease.
fn puts_page<C: Cloud>(cloud: &mut C, names: &Names, page: &PageId, bytes: &[u8]) -> bool {
    let object = ObjName::Page(names.tree, *page);
    match cloud.take(names.who, Lock::Page(names.tree, *page), 10) {
        Ok(Grant::Given(lease)) => put_under(cloud, names, object, bytes, &lease),
        _ => false,
    }
}

fn puts<C: Cloud>(cloud: &mut C, names: &Names, number: u64, bytes: &[u8]) -> bool {
    match PageId::new(number) {
        Ok(page) => puts_page(cloud, names, &page, bytes),
        Err(_) => false,
    }
}

/// Whether a report ends as a step says.
fn reports<C: Bench>(alloc: Global, cloud: &mut C, names: &Names, step: Step<'_>) -> bool {
    match Audit::new(alloc).report(alloc, cloud, names.tree) {
        Ok(report) => is_report(&report, step),
        Err(trouble) => is_trouble(&trouble, names.tree, step),
    }
}

/// Whether a report is of tree 1 and as a step says.
fn is_report(report: &Report, step: Step<'_>) -> bool {
    match step {
        Step::Reports(messages, key, payload, attr) => {
            has_counts(report, messages) && has_contents(report, key, payload, attr)
        }
        _ => false,
    }
}

/// Whether a report is of tree 1, with no entries, no open head and so many messages.
fn has_counts(report: &Report, messages: u64) -> bool {
    (report.tree.get(), report.heads, report.messages) == (1, 0, messages)
        && (report.committed.len(), report.order.len()) == (0, 0)
}

/// Whether a report has this record alone.
fn has_contents(report: &Report, key: &[u8], payload: &[u8], attr: Option<&[u8]>) -> bool {
    match report.contents.as_slice() {
        [stored] => {
            stored.key.as_slice() == key
                && stored.payload.as_slice() == payload
                && has_attribute(stored, attr)
        }
        _ => false,
    }
}

/// Whether a record has this attribute, or none.
fn has_attribute(stored: &Stored, wanted: Option<&[u8]>) -> bool {
    match (&stored.attr, wanted) {
        (Some(attr), Some(wanted)) => attr.as_slice() == wanted,
        (None, None) => true,
        _ => false,
    }
}

/// Whether a trouble is the one that a step names.
fn is_trouble(trouble: &Trouble, tree: TreeId, step: Step<'_>) -> bool {
    match (trouble, step) {
        (Trouble::Absent { page }, Step::FindsAbsent(number)) => page.get() == number,
        (Trouble::Loop { page }, Step::FindsLoop(number)) => page.get() == number,
        (Trouble::Damaged { place, offset }, Step::FindsDamaged(number, at)) => {
            *offset == at && is_page(*place, tree, number)
        }
        (
            Trouble::BadFence {
                page,
                expected,
                found,
            },
            Step::FindsFence(number, wanted, other),
        ) => { page.get() == number && expected.as_slice() == wanted && found.as_slice() == other }
        _ => false,
    }
}

/// Whether a place is a page of a tree.
fn is_page(place: Place, tree: TreeId, number: u64) -> bool {
    match PageId::new(number) {
        Ok(page) => place == Place::Object(ObjName::Page(tree, page)),
        Err(_) => false,
    }
}

/// Whether a script goes as it is to over an empty cloud.
fn play(alloc: Global, script: &[Step<'_>]) -> bool {
    let mut cloud = MemoryCloud::new(alloc);
    play_over(alloc, &mut cloud, script)
}

#[test]
fn reports_a_page(rt: HostRuntime) {
    let script = [
        Step::Puts(1, PAGE),
        Step::Sends(b"m"),
        Step::Reports(1, b"k", b"v", None),
    ];
    assert!(rt; play(rt.alloc(), &script));
}

#[test]
fn reports_a_page_of_format_1(rt: HostRuntime) {
    let script = [Step::Puts(1, OLD_PAGE), Step::Reports(0, b"k", b"v", None)];
    assert!(rt; play(rt.alloc(), &script));
}

#[test]
fn reports_an_attribute(rt: HostRuntime) {
    let script = [
        Step::Puts(1, PAGE_WITH_ATTRIBUTE),
        Step::Reports(0, b"k", b"v", Some(b"a")),
    ];
    assert!(rt; play(rt.alloc(), &script));
}

#[test]
fn stops_at_an_absent_page(rt: HostRuntime) {
    let script = [Step::Puts(1, BEFORE_PAGE_2), Step::FindsAbsent(2)];
    assert!(rt; play(rt.alloc(), &script));
}

#[test]
fn stops_at_damaged_bytes(rt: HostRuntime) {
    let script = [Step::Puts(1, &[0x4c, 3]), Step::FindsDamaged(1, 1)];
    assert!(rt; play(rt.alloc(), &script));
}

#[test]
fn stops_at_a_page_met_twice(rt: HostRuntime) {
    let script = [Step::Puts(1, BEFORE_PAGE_1), Step::FindsLoop(1)];
    assert!(rt; play(rt.alloc(), &script));
}

#[test]
fn stops_at_another_low_key(rt: HostRuntime) {
    let script = [
        Step::Puts(1, BEFORE_PAGE_2),
        Step::Puts(2, PAGE),
        Step::FindsFence(2, b"m", b""),
    ];
    assert!(rt; play(rt.alloc(), &script));
}
