use cloud_trait::answer::Answer;
use cloud_trait::call::{Call, Target};
use cloud_trait::cloud::{Bench, Cloud};
use cloud_trait::down::DownCloud;
use cloud_trait::fault::{CloudFault, HeldFault};
use cloud_trait::grant::Grant;
use cloud_trait::lease::Lease;
use cloud_trait::message::Message;
use cloud_trait::perform::{let_go, perform, renew};
use cloud_trait::who::Who;
use db_base::blob::Blob;
use db_base::ids::{MsgId, PageId, SessionNo, TreeId};
use db_base::names::{Lock, ObjName, QueueName};
use db_base::trouble::Trouble;
use db_base::wish::Wish;
use std::alloc::Global;
use std::process::Abort;

// A cloud that tells nothing: it keeps no bytes, gives every lock, and fails every get.
#[derive(Drop)]
struct Silent {
    alloc: Global,
    faults: u64,
}

impl Cloud for Silent {
    ghost use Rattle.std.specs.Prelude.{None};
    ghost use Rattle.cloud_trait.specs.Seen.{Seen};

    ghost seen = { λ c. record { counts = record { faults = c.faults; withheld = 0; stale = 0; dark = 0 }; state = None; heard = None; shown = None } };

    fn now(&self) -> u64 {
        0
    }

    fn get(&mut self, _who: Who, _name: ObjName) -> Result<Option<Blob>, CloudFault> {
        if self.faults == u64::MAX {
            return Err(CloudFault::Memory);
        }
        self.faults += 1;
        Err(CloudFault::Failed)
    }

    fn get_held(
        &mut self,
        _who: Who,
        _name: ObjName,
        _lease: &Lease,
    ) -> Result<Option<Blob>, HeldFault> {
        Ok(None)
    }

    fn put_held(
        &mut self,
        _who: Who,
        _name: ObjName,
        _bytes: &[u8],
        first: &Lease,
        _second: Option<&Lease>,
    ) -> Result<(), HeldFault> {
        if first.end() == 0 {
            return Err(HeldFault::Late { end: 0, now: 0 });
        }
        Ok(())
    }

    fn list_held(
        &mut self,
        _who: Who,
        _tree: TreeId,
        _lease: &Lease,
    ) -> Result<Vec<PageId>, HeldFault> {
        Ok(Vec::new(self.alloc))
    }

    fn remove_held(&mut self, _who: Who, _name: ObjName, lease: &Lease) -> Result<(), HeldFault> {
        if lease.end() == 0 {
            return Err(HeldFault::Late { end: 0, now: 0 });
        }
        Ok(())
    }

    fn send(&mut self, _who: Who, _queue: QueueName, _bytes: &[u8]) -> Result<MsgId, CloudFault> {
        Ok(MsgId::new(1))
    }

    fn receive(
        &mut self,
        _who: Who,
        _queue: QueueName,
        _max: u16,
    ) -> Result<Vec<Message>, CloudFault> {
        Ok(Vec::new(self.alloc))
    }

    fn delete(&mut self, _who: Who, _queue: QueueName, _id: MsgId) -> Result<(), CloudFault> {
        Ok(())
    }

    fn take(&mut self, _who: Who, lock: Lock, ticks: u64) -> Result<Grant, CloudFault> {
        Ok(Grant::Given(Lease::given(lock, 1, ticks)))
    }

    fn renew(&mut self, _who: Who, lease: &mut Lease, ticks: u64) -> Result<(), HeldFault> {
        lease.extend(ticks);
        Ok(())
    }

    fn release(&mut self, _who: Who, _lease: Lease) -> Result<(), CloudFault> {
        Ok(())
    }
}

impl Bench for Silent {
    fn wish(&mut self, _wish: Wish) {}

    fn wait(&mut self, _ticks: u64) {}

    fn peek(&mut self, _name: ObjName) -> Result<Option<Blob>, CloudFault> {
        Ok(None)
    }

    fn has(&mut self, _name: ObjName, _bytes: &[u8]) -> Result<bool, CloudFault> {
        Ok(false)
    }

    fn versions(&mut self, _name: ObjName) -> Result<u64, CloudFault> {
        Ok(0)
    }

    fn backlog(&mut self, _queue: QueueName) -> Result<u64, CloudFault> {
        Ok(0)
    }
}

/// The names that the tests use.
#[derive(Clone, Copy)]
struct Names {
    who: Who,
    object: ObjName,
    tree: TreeId,
    queue: QueueName,
    lock: Lock,
}

fn usual_names() -> Option<Names> {
    let (Ok(tree), Ok(session)) = (TreeId::new(2), SessionNo::new(1)) else {
        return None;
    };
    Some(Names {
        who: Who::new(session, 4),
        object: ObjName::Tree(tree),
        tree,
        queue: QueueName::TreePu(tree),
        lock: Lock::Tree(tree),
    })
}

/// Whether an object is put under a lease.
fn is_put<C: Cloud>(cloud: &mut C, names: &Names, lease: &Lease) -> bool {
    let put = Call::PutHeld(names.object, b"x", lease, None);
    put.bytes() == Some(b"x".as_slice()) && perform(cloud, names.who, &put).done().is_ok()
}

/// Whether an object is removed under a lease, which has no bytes to send.
fn is_removed<C: Cloud>(cloud: &mut C, names: &Names, lease: &Lease) -> bool {
    let removal = Call::RemoveHeld(names.object, lease);
    removal.bytes().is_none() && perform(cloud, names.who, &removal).done().is_ok()
}

/// Whether a listing of the tree, which is about its object, shows no page.
fn lists_none<C: Cloud>(cloud: &mut C, names: &Names, lease: &Lease) -> bool {
    let listing = Call::ListHeld(names.tree, lease);
    if listing.name() != Target::Object(names.object) {
        return false;
    }
    match perform(cloud, names.who, &listing).listed() {
        Ok(pages) => pages.len() == 0,
        Err(_) => false,
    }
}

/// Whether a get has no answer.
fn is_not_got<C: Cloud>(cloud: &mut C, names: &Names) -> bool {
    perform(cloud, names.who, &Call::Get(names.object))
        .got()
        .is_err()
}

/// Whether a lease is renewed up to 60, by the answer and by itself.
fn is_renewed<C: Cloud>(cloud: &mut C, names: &Names, lease: &mut Lease) -> bool {
    renew(cloud, names.who, lease, 60).renewed().ok() == Some(60) && lease.end() == 60
}

/// Whether a lease is given back.
fn is_released<C: Cloud>(cloud: &mut C, names: &Names, lease: Lease) -> bool {
    matches!(&let_go(cloud, names.who, lease), Answer::Done)
}

/// What a take of the lock is about. The type of a lease is named, for the checker of borrows wants it beside a call.
fn target(lock: Lock) -> Target {
    let _none: Option<Lease> = None;
    Call::Take(lock, 30).name()
}

/// What a take of the lock answers.
fn take<C: Cloud>(cloud: &mut C, names: &Names) -> Answer {
    perform(cloud, names.who, &Call::Take(names.lock, 30))
}

/// The lease of the lock.
fn taken<C: Cloud>(cloud: &mut C, names: &Names) -> Result<Lease, Trouble> {
    take(cloud, names).given(names.lock)
}

/// Whether the lock is taken, and its lease used, renewed and given back.
fn is_taken<C: Cloud>(cloud: &mut C, names: &Names) -> bool {
    let Ok(mut lease) = taken(cloud, names) else {
        return false;
    };
    if !is_put(cloud, names, &lease) || !is_not_got(cloud, names) {
        return false;
    }
    if !is_removed(cloud, names, &lease) || !lists_none(cloud, names, &lease) {
        return false;
    }
    if !is_renewed(cloud, names, &mut lease) {
        return false;
    }
    is_released(cloud, names, lease)
}

#[test]
fn takes_renews_and_releases(rt: HostRuntime) {
    let Some(names) = usual_names() else {
        rt.panic("no names")
    };
    let mut cloud = Silent {
        alloc: rt.alloc(),
        faults: 0,
    };
    assert!(rt; target(names.lock) == Target::Lock(names.lock) && is_taken(&mut cloud, &names));
}

/// Whether a cloud counts seven ticks, whatever is wished.
fn is_later<C: Bench>(cloud: &mut C) -> bool {
    cloud.wish(Wish::Old(1));
    cloud.wait(7);
    cloud.now() == 7
}

/// Whether the lock is not taken.
fn is_not_taken<C: Cloud>(cloud: &mut C, names: &Names) -> bool {
    matches!(&take(cloud, names), Answer::Failed)
}

/// Whether a send fails.
fn is_not_sent<C: Cloud>(cloud: &mut C, names: &Names) -> bool {
    match cloud.send(names.who, names.queue, b"x") {
        Err(fault) => fault == CloudFault::Failed,
        Ok(_) => false,
    }
}

/// Whether the count of a queue's messages fails.
fn is_not_counted<C: Bench>(cloud: &mut C, names: &Names) -> bool {
    match cloud.backlog(names.queue) {
        Err(fault) => fault == CloudFault::Failed,
        Ok(_) => false,
    }
}

#[test]
fn is_down(rt: HostRuntime) {
    let Some(names) = usual_names() else {
        rt.panic("no names")
    };
    let mut cloud = DownCloud::new();
    assert!(rt; is_later(&mut cloud) && is_not_taken(&mut cloud, &names));
    assert!(rt; is_not_sent(&mut cloud, &names) && is_not_counted(&mut cloud, &names));
    assert!(rt; cloud.peek(names.object).is_err() && cloud.has(names.object, b"a").is_err());
    assert!(rt; cloud.versions(names.object).is_err());
}
