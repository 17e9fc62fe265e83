mod keeper;
mod keeping;
mod removal;
mod wishes;

use cloud_trait::cloud::{Bench, Cloud};
use cloud_trait::fault::HeldFault;
use cloud_trait::grant::Grant;
use cloud_trait::lease::Lease;
use cloud_trait::who::Who;
use db_base::ids::{MsgId, PageId, SessionNo, TreeId};
use db_base::names::{Lock, ObjName, QueueName};
use db_base::wish::{Positions, Wish};
use memory_cloud::memory::MemoryCloud;
use std::alloc::Global;
use std::process::Abort;

// The names that the tests use.
#[derive(Clone, Copy)]
struct Names {
    who: Who,
    object: ObjName,
    of: TreeId,
    other: TreeId,
    queue: QueueName,
    tree: Lock,
    page: Lock,
}

fn usual_names() -> Option<Names> {
    let (Ok(tree), Ok(other)) = (TreeId::new(1), TreeId::new(2)) else {
        return None;
    };
    let Ok(session) = SessionNo::new(3) else {
        return None;
    };
    Some(Names {
        who: Who::new(session, 7),
        object: ObjName::Tree(tree),
        of: tree,
        other,
        queue: QueueName::TreePu(tree),
        tree: Lock::Tree(tree),
        page: Lock::Page(tree, PageId::first()),
    })
}

// A cloud that shows what landed. What is asked of any such cloud is proved once, and not over the types of the cloud in memory.
trait Shown: Bench {
    // Whether an object has a version of this number that has bytes.
    fn has_version(&self, name: ObjName, number: u64) -> bool;

    // Whether a queue ever had a message of this number.
    fn has_message(&self, queue: QueueName, number: u64) -> bool;
}

impl Shown for MemoryCloud {
    fn has_version(&self, name: ObjName, number: u64) -> bool {
        self.has_version(name, number)
    }

    fn has_message(&self, queue: QueueName, number: u64) -> bool {
        self.message(queue, MsgId::new(number)).is_some()
    }
}

// The lease of a lock that is free.
fn taken<C: Cloud>(cloud: &mut C, who: Who, lock: Lock, ticks: u64) -> Option<Lease> {
    match cloud.take(who, lock, ticks) {
        Ok(Grant::Given(lease)) => Some(lease),
        _ => None,
    }
}

// Whether the end of a lock that is held is this, or it is free and this is 0.
fn ends_at<C: Cloud>(cloud: &mut C, who: Who, lock: Lock, end: u64) -> bool {
    match cloud.take(who, lock, 1) {
        Ok(Grant::Held(until)) => until == end,
        Ok(Grant::Given(_)) => end == 0,
        Err(_) => false,
    }
}

// What comes over a call.
#[derive(Clone, Copy)]
enum Mishap {
    Plain,
    Fail,
    Lost,
    Hide,
    Old,
    Oldest,
    Newest,
    Give,
    Late,
}

// A wish of positions of which two are none.
fn wish_positions<C: Bench>(alloc: Global, cloud: &mut C) -> bool {
    match Positions::new(alloc, &[3, 0, 9, 1, 2]) {
        Ok(positions) => {
            cloud.wish(Wish::Give(positions));
            true
        }
        Err(_) => false,
    }
}

fn wish<C: Bench>(cloud: &mut C, wish: Wish) -> bool {
    cloud.wish(wish);
    true
}

// Comes 40 ticks late.
fn wait<C: Bench>(cloud: &mut C) -> bool {
    cloud.wait(40);
    true
}

// Lets it come over the next call.
fn befall<C: Bench>(alloc: Global, cloud: &mut C, mishap: Mishap) -> bool {
    match mishap {
        Mishap::Plain => wish(cloud, Wish::Plain),
        Mishap::Fail => wish(cloud, Wish::Fail),
        Mishap::Lost => wish(cloud, Wish::Lost),
        Mishap::Hide => wish(cloud, Wish::Hide),
        Mishap::Old => wish(cloud, Wish::Old(1)),
        Mishap::Oldest => wish(cloud, Wish::Old(0)),
        Mishap::Newest => wish(cloud, Wish::Old(9)),
        Mishap::Give => wish_positions(alloc, cloud),
        Mishap::Late => wait(cloud),
    }
}

// Whether a put under two leases has this fault.
fn is_refused<C: Cloud>(
    cloud: &mut C,
    names: &Names,
    first: &Lease,
    second: &Lease,
    fault: HeldFault,
) -> bool {
    cloud.put_held(names.who, names.object, b"a", first, Some(second)) == Err(fault)
}

// Whether two leases, until 5 and until 6, are checked in their order where they are over.
fn are_checked<C: Bench>(cloud: &mut C, names: &Names, tree: &Lease, page: &Lease) -> bool {
    if !is_refused(cloud, names, tree, page, HeldFault::Failed) {
        return false;
    }
    cloud.wait(5);
    let late = HeldFault::Late { end: 5, now: 5 };
    if cloud.now() != 5 || !is_refused(cloud, names, page, tree, late) {
        return false;
    }
    cloud.wait(1);
    let late = HeldFault::Late { end: 6, now: 6 };
    is_refused(cloud, names, page, tree, late)
}

// Whether there is no object.
fn is_absent<C: Bench>(cloud: &mut C, names: &Names) -> bool {
    matches!(cloud.peek(names.object), Ok(None))
        && cloud.has(names.object, b"a").ok() == Some(false)
        && cloud.versions(names.object).ok() == Some(0)
}

// Whether a lock is taken for the second time, until 7.
fn is_taken_again<C: Cloud>(cloud: &mut C, names: &Names) -> bool {
    match taken(cloud, names.who, names.page, 1) {
        Some(lease) => lease.generation() == 2 && lease.end() == 7,
        None => false,
    }
}

// Whether a cloud whose third call fails checks two leases in their order, and puts nothing.
fn is_in_order<C: Bench>(cloud: &mut C, names: &Names) -> bool {
    let Some(tree) = taken(cloud, names.who, names.tree, 5) else {
        return false;
    };
    match taken(cloud, names.who, names.page, 6) {
        Some(page) => {
            are_checked(cloud, names, &tree, &page)
                && is_absent(cloud, names)
                && is_taken_again(cloud, names)
        }
        None => false,
    }
}

#[test]
fn checks_leases_in_order(rt: HostRuntime) {
    let Some(names) = usual_names() else {
        rt.panic("no names")
    };
    match MemoryCloud::with_failures(rt.alloc(), &[3]) {
        Ok(mut cloud) => assert!(rt; is_in_order(&mut cloud, &names)),
        Err(_) => rt.panic("no cloud"),
    }
}

// Whether planted bytes stand behind what is there: as the newest version, and as the next message of a queue.
fn plants(cloud: &mut MemoryCloud, names: &Names) -> bool {
    cloud.send(names.who, names.queue, b"a").is_ok()
        && cloud.plant_message(names.queue, b"b").is_ok()
        && cloud.plant(names.object, b"c").is_ok()
        && cloud.message(names.queue, MsgId::new(2)) == Some(b"b".as_slice())
        && cloud.version_is(names.object, 1, b"c")
}

#[test]
fn plants_behind_what_is_there(rt: HostRuntime) {
    let Some(names) = usual_names() else {
        rt.panic("no names")
    };
    let mut cloud = MemoryCloud::new(rt.alloc());
    assert!(rt; plants(&mut cloud, &names));
}
