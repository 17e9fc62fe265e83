//! What a removal leaves: of a page, of its older versions, and of the trace.

ghost use Rattle.std.specs.Prelude.{◌≡◌, ◌+◌, ◌++◌, ◌∷◌, [], length, Some, OnOk};
ghost use Rattle.cloud_trait.specs.State.{CloudState};
ghost use Rattle.cloud_trait.specs.declared.state.Site.TheVariants.{Object};

use super::wishes::{are_got, are_pages};
use super::{Names, Shown, taken, usual_names};
use cloud_trait::cloud::{Bench, Cloud};
use cloud_trait::fault::HeldFault;
use cloud_trait::lease::Lease;
use cloud_trait::who::Who;
use db_base::ids::{PageId, TreeId};
use db_base::names::ObjName;
use db_base::wish::Wish;
use memory_cloud::memory::MemoryCloud;
use std::process::Abort;

// A removal. It leaves a row behind the others of the trace, at the place behind the versions before.
fn remove<C: Cloud>(cloud: &mut C, who: Who, name: ObjName, lease: &Lease) -> Result<(), HeldFault>
    ensures { (s t : CloudState) → (C.seen cloud.old).state ≡ Some s → (C.seen cloud.new).state ≡ Some t
        → OnOk result (t.trace ≡ s.trace ++ record { who = who; site = Object name; position = length (s.versions name) + 1 } ∷ []) }
{
    cloud.remove_held(who, name, lease)
}

// A page of a tree.
fn page_of(tree: TreeId, number: u64) -> Option<ObjName> {
    match PageId::new(number) {
        Ok(page) => Some(ObjName::Page(tree, page)),
        Err(_) => None,
    }
}

// Whether a page is put under a lease.
fn is_put<C: Cloud>(
    cloud: &mut C,
    who: Who,
    lease: &Lease,
    page: Option<ObjName>,
    bytes: &[u8],
) -> bool {
    match page {
        Some(name) => cloud.put_held(who, name, bytes, lease, None).is_ok(),
        None => false,
    }
}

// Whether a listing shows pages of these numbers.
fn lists<C: Cloud>(
    cloud: &mut C,
    names: &Names,
    tree: TreeId,
    lease: &Lease,
    numbers: &[u64],
) -> bool {
    match cloud.list_held(names.who, tree, lease) {
        Ok(pages) => are_pages(pages.as_slice(), numbers),
        Err(_) => false,
    }
}

// Whether a get under a wish brings these bytes, or none.
fn gets<C: Bench>(
    cloud: &mut C,
    names: &Names,
    name: ObjName,
    wish: Wish,
    wanted: Option<&[u8]>,
) -> bool {
    cloud.wish(wish);
    match cloud.get(names.who, name) {
        Ok(got) => are_got(&got, wanted),
        Err(_) => false,
    }
}

// Whether a get under a lease brings these bytes, or none.
fn gets_held<C: Cloud>(
    cloud: &mut C,
    names: &Names,
    name: ObjName,
    lease: &Lease,
    wanted: Option<&[u8]>,
) -> bool {
    match cloud.get_held(names.who, name, lease) {
        Ok(got) => are_got(&got, wanted),
        Err(_) => false,
    }
}

// Whether pages 30, 2 and 7 of one tree and page 4 of the other, put in this order, are listed in ascending order.
fn are_listed<C: Cloud>(cloud: &mut C, names: &Names, lease: &Lease) -> bool {
    if !lists(cloud, names, names.of, lease, &[]) {
        return false;
    }
    is_put(cloud, names.who, lease, page_of(names.of, 30), b"a")
        && is_put(cloud, names.who, lease, page_of(names.of, 2), b"b")
        && is_put(cloud, names.who, lease, page_of(names.other, 4), b"c")
        && is_put(cloud, names.who, lease, page_of(names.of, 7), b"d")
        && lists(cloud, names, names.of, lease, &[2, 7, 30])
        && lists(cloud, names, names.other, lease, &[4])
}

// Whether a look finds no object, which never had these bytes as its newest.
fn is_absent<C: Bench>(cloud: &mut C, name: &ObjName, bytes: &[u8]) -> bool {
    matches!(cloud.peek(*name), Ok(None)) && cloud.has(*name, bytes).ok() == Some(false)
}

// Whether page 7 is gone: only a get of its first version brings its bytes.
fn is_gone<C: Shown>(cloud: &mut C, names: &Names, page: &ObjName, lease: &Lease) -> bool {
    is_absent(cloud, page, b"d")
        && cloud.versions(*page).ok() == Some(2)
        && cloud.has_version(*page, 1)
        && !cloud.has_version(*page, 2)
        && gets(cloud, names, *page, Wish::Plain, None)
        && gets(cloud, names, *page, Wish::Old(1), Some(b"d"))
        && gets(cloud, names, *page, Wish::Old(2), None)
        && gets(cloud, names, *page, Wish::Old(9), None)
        && gets_held(cloud, names, *page, lease, None)
        && lists(cloud, names, names.of, lease, &[2, 30])
}

// Whether page 7 is there again, with the bytes of its third version.
fn is_back<C: Shown>(cloud: &mut C, names: &Names, page: &ObjName, lease: &Lease) -> bool {
    cloud.has(*page, b"e").ok() == Some(true)
        && cloud.versions(*page).ok() == Some(3)
        && cloud.has_version(*page, 3)
        && gets(cloud, names, *page, Wish::Plain, Some(b"e"))
        && gets(cloud, names, *page, Wish::Old(2), None)
        && gets_held(cloud, names, *page, lease, Some(b"e"))
        && lists(cloud, names, names.of, lease, &[2, 7, 30])
}

// Whether page 7 goes by a removal, and comes back by a put.
fn goes_and_comes<C: Shown>(cloud: &mut C, names: &Names, lease: &Lease) -> bool {
    match page_of(names.of, 7) {
        Some(page) => page_goes_and_comes(cloud, names, &page, lease),
        None => false,
    }
}

fn page_goes_and_comes<C: Shown>(
    cloud: &mut C,
    names: &Names,
    page: &ObjName,
    lease: &Lease,
) -> bool {
    remove(cloud, names.who, *page, lease).is_ok()
        && is_gone(cloud, names, page, lease)
        && is_put(cloud, names.who, lease, Some(*page), b"e")
        && is_back(cloud, names, page, lease)
}

// Whether a page that never was is removed, and a removal of what is gone leaves it gone.
fn removes_nothing<C: Shown>(cloud: &mut C, names: &Names, lease: &Lease) -> bool {
    match page_of(names.other, 9) {
        Some(page) => removes_twice(cloud, names, &page, lease),
        None => false,
    }
}

fn removes_twice<C: Shown>(cloud: &mut C, names: &Names, page: &ObjName, lease: &Lease) -> bool {
    remove(cloud, names.who, *page, lease).is_ok()
        && remove(cloud, names.who, *page, lease).is_ok()
        && is_absent(cloud, page, b"a")
        && lists(cloud, names, names.other, lease, &[4])
}

// Whether a lease that is over lists and removes nothing.
fn is_late<C: Bench>(cloud: &mut C, names: &Names, lease: &Lease) -> bool {
    cloud.wait(30);
    let late = HeldFault::Late { end: 30, now: 30 };
    match cloud.list_held(names.who, names.of, lease) {
        Err(fault) => {
            fault == late && remove(cloud, names.who, names.object, lease) == Err(late)
        }
        Ok(_) => false,
    }
}

fn is_right<C: Shown>(cloud: &mut C, names: &Names) -> bool {
    match taken(cloud, names.who, names.tree, 30) {
        Some(lease) => {
            are_listed(cloud, names, &lease)
                && goes_and_comes(cloud, names, &lease)
                && removes_nothing(cloud, names, &lease)
                && is_late(cloud, names, &lease)
        }
        None => false,
    }
}

#[test]
fn lists_and_removes(rt: HostRuntime) {
    let Some(names) = usual_names() else {
        rt.panic("no names")
    };
    assert!(rt; is_right(&mut MemoryCloud::new(rt.alloc()), &names));
}
