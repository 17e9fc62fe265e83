//! The cloud that notes what is called.

ghost use Rattle.std.specs.Prelude.{◌≡◌, false, [], IfOk};
ghost use Rattle.std.specs.Option.{option_copied};
ghost use Rattle.cloud_trait.specs.Answers.{got_answer, held_got, done_answer, held_done, held_listed, sent_answer, received_answer, taken_answer, renewal};
ghost use Rattle.cloud_trait.specs.Ask.{Get, GetHeld, PutHeld, ListHeld, RemoveHeld, Send, Receive, Delete, Take, Renew, Release};
ghost use Rattle.cloud_trait.specs.Weather.{Makes};
ghost use Rattle.cloud_trait.specs.Made.{MakesGet, MakesGetHeld, MakesListHeld, MakesRemoveHeld, MakesSend, MakesReceive, MakesDelete, MakesTake, MakesRenew, SetsLease, MakesRelease};
ghost use Rattle.cloud_trait.specs.Bench.{Looks, IsNoCall, IsShown, IsShownToHave, SetsWish, HasWaited, TellsNewest, TellsHaving, TellsCount, TellsBacklog};
ghost use Rattle.traced_cloud.specs.Noted.{IsNoted};

use crate::note::Note;
use crate::trace::Trace;
use cloud_trait::call::Call;
use cloud_trait::cloud::{Bench, Cloud};
use cloud_trait::fault::{CloudFault, HeldFault};
use cloud_trait::grant::Grant;
use cloud_trait::lease::Lease;
use cloud_trait::message::Message;
use cloud_trait::who::Who;
use db_base::blob::Blob;
use db_base::ids::{MsgId, PageId, TreeId};
use db_base::names::{Lock, ObjName, QueueName};
use db_base::wish::Wish;
use std::alloc::Global;

/// A copy: what holds a name or a number with a rule is moved where it is passed on.
fn copy<T: Copy>(value: &T) -> T
    ensures { result ≡ value.now }
{
    *value
}

/// A cloud that passes each call on to another one, and notes it with what that answered.
#[derive(Drop)]
pub struct NotingCloud<C> {
    cloud: C,
    trace: Trace,
}

impl<C> NotingCloud<C> {
    /// A cloud over this one, that has noted nothing. Takes no memory.
    pub fn over(alloc: Global, cloud: C) -> NotingCloud<C>
        ensures cloud { result.cloud ≡ cloud }
        ensures none { result.trace ≡ record { made = []; short = false } }
    {
        NotingCloud {
            cloud,
            trace: Trace::new(alloc),
        }
    }

    /// The calls that were noted, in their order.
    pub fn notes(&self) -> &[Note]
        ensures { result.now ≡ self.now.trace.made }
    {
        self.trace.notes()
    }

    /// Whether memory ran out for a note.
    pub fn is_short(&self) -> bool
        ensures { result ≡ self.now.trace.short }
    {
        self.trace.is_short()
    }
}

impl<C: Bench> Cloud for NotingCloud<C> {
    ghost seen = { λ c. C.seen c.cloud };

    fn now(&self) -> u64 {
        self.cloud.now()
    }

    fn get(&mut self, who: Who, name: ObjName) -> Result<Option<Blob>, CloudFault>
        ensures made { MakesGet who name result (C.seen self.old.cloud) (C.seen self.new.cloud) }
        ensures noted { IsNoted who (Get name) (got_answer result) self.old self.new }
    {
        let call = Call::Get(copy(&name));
        match self.cloud.get(who, name) {
            Ok(bytes) => {
                self.trace.got(who, &call, &bytes);
                Ok(bytes)
            }
            Err(fault) => {
                self.trace.failed(who, &call, fault);
                Err(fault)
            }
        }
    }

    fn get_held(
        &mut self,
        who: Who,
        name: ObjName,
        lease: &Lease,
    ) -> Result<Option<Blob>, HeldFault>
        ensures made { MakesGetHeld who name lease.now result (C.seen self.old.cloud) (C.seen self.new.cloud) }
        ensures noted { IsNoted who (GetHeld name lease.now) (held_got result) self.old self.new }
    {
        let call = Call::GetHeld(copy(&name), lease);
        match self.cloud.get_held(who, name, lease) {
            Ok(bytes) => {
                self.trace.got(who, &call, &bytes);
                Ok(bytes)
            }
            Err(fault) => {
                self.trace.failed_held(who, &call, fault);
                Err(fault)
            }
        }
    }

    fn put_held(
        &mut self,
        who: Who,
        name: ObjName,
        bytes: &[u8],
        first: &Lease,
        second: Option<&Lease>,
    ) -> Result<(), HeldFault>
        ensures made { Makes who (PutHeld name bytes.now first.now (option_copied second.entry)) (held_done result) (C.seen self.old.cloud) (C.seen self.new.cloud) }
        ensures noted { IsNoted who (PutHeld name bytes.now first.now (option_copied second.entry)) (held_done result) self.old self.new }
    {
        let put = copy(&name);
        match self.cloud.put_held(who, name, bytes, first, second) {
            Ok(()) => {
                self.trace.put(who, put, bytes);
                Ok(())
            }
            Err(fault) => {
                self.trace.not_put(who, put, bytes, fault);
                Err(fault)
            }
        }
    }

    fn list_held(&mut self, who: Who, tree: TreeId, lease: &Lease) -> Result<Vec<PageId>, HeldFault>
        ensures made { MakesListHeld who tree lease.now result (C.seen self.old.cloud) (C.seen self.new.cloud) }
        ensures noted { IsNoted who (ListHeld tree lease.now) (held_listed result) self.old self.new }
    {
        let call = Call::ListHeld(copy(&tree), lease);
        match self.cloud.list_held(who, tree, lease) {
            Ok(pages) => {
                self.trace.listed(who, &call, pages.as_slice());
                Ok(pages)
            }
            Err(fault) => {
                self.trace.failed_held(who, &call, fault);
                Err(fault)
            }
        }
    }

    fn remove_held(&mut self, who: Who, name: ObjName, lease: &Lease) -> Result<(), HeldFault>
        ensures made { MakesRemoveHeld who name lease.now result (C.seen self.old.cloud) (C.seen self.new.cloud) }
        ensures noted { IsNoted who (RemoveHeld name lease.now) (held_done result) self.old self.new }
    {
        let call = Call::RemoveHeld(copy(&name), lease);
        match self.cloud.remove_held(who, name, lease) {
            Ok(()) => {
                self.trace.done(who, &call);
                Ok(())
            }
            Err(fault) => {
                self.trace.failed_held(who, &call, fault);
                Err(fault)
            }
        }
    }

    fn send(&mut self, who: Who, queue: QueueName, bytes: &[u8]) -> Result<MsgId, CloudFault>
        ensures made { MakesSend who queue bytes.now result (C.seen self.old.cloud) (C.seen self.new.cloud) }
        ensures noted { IsNoted who (Send queue bytes.now) (sent_answer result) self.old self.new }
    {
        let call = Call::Send(copy(&queue), bytes);
        match self.cloud.send(who, queue, bytes) {
            Ok(id) => {
                self.trace.sent(who, &call, id);
                Ok(id)
            }
            Err(fault) => {
                self.trace.failed(who, &call, fault);
                Err(fault)
            }
        }
    }

    fn receive(&mut self, who: Who, queue: QueueName, max: u16) -> Result<Vec<Message>, CloudFault>
        ensures made { MakesReceive who queue max result (C.seen self.old.cloud) (C.seen self.new.cloud) }
        ensures noted { IsNoted who (Receive queue max) (received_answer result) self.old self.new }
    {
        let call = Call::Receive(copy(&queue), max);
        match self.cloud.receive(who, queue, max) {
            Ok(messages) => {
                self.trace.received(who, &call, messages.as_slice());
                Ok(messages)
            }
            Err(fault) => {
                self.trace.failed(who, &call, fault);
                Err(fault)
            }
        }
    }

    fn delete(&mut self, who: Who, queue: QueueName, id: MsgId) -> Result<(), CloudFault>
        ensures made { MakesDelete who queue id result (C.seen self.old.cloud) (C.seen self.new.cloud) }
        ensures noted { IsNoted who (Delete queue id) (done_answer result) self.old self.new }
    {
        let call = Call::Delete(copy(&queue), copy(&id));
        match self.cloud.delete(who, queue, id) {
            Ok(()) => {
                self.trace.done(who, &call);
                Ok(())
            }
            Err(fault) => {
                self.trace.failed(who, &call, fault);
                Err(fault)
            }
        }
    }

    fn take(&mut self, who: Who, lock: Lock, ticks: u64) -> Result<Grant, CloudFault>
        ensures made { MakesTake who lock ticks result (C.seen self.old.cloud) (C.seen self.new.cloud) }
        ensures noted { IsNoted who (Take lock ticks) (taken_answer result) self.old self.new }
    {
        let call = Call::Take(copy(&lock), ticks);
        match self.cloud.take(who, lock, ticks) {
            Ok(grant) => {
                self.trace.granted(who, &call, &grant);
                Ok(grant)
            }
            Err(fault) => {
                self.trace.failed(who, &call, fault);
                Err(fault)
            }
        }
    }

    fn renew(&mut self, who: Who, lease: &mut Lease, ticks: u64) -> Result<(), HeldFault>
        ensures made { MakesRenew who ticks (lease.old, lease.new) result (C.seen self.old.cloud) (C.seen self.new.cloud) }
        ensures lease { SetsLease who ticks (lease.old, lease.new) result (C.seen self.old.cloud) (C.seen self.new.cloud) }
        ensures noted { IsNoted who (Renew lease.old ticks) (renewal lease.new result) self.old self.new }
    {
        let lock = lease.lock();
        match self.cloud.renew(who, lease, ticks) {
            Ok(()) => {
                self.trace.renewed(who, lock, ticks, lease.end());
                Ok(())
            }
            Err(fault) => {
                self.trace.not_renewed(who, lock, ticks, fault);
                Err(fault)
            }
        }
    }

    fn release(&mut self, who: Who, lease: Lease) -> Result<(), CloudFault>
        ensures made { MakesRelease who lease result (C.seen self.old.cloud) (C.seen self.new.cloud) }
        ensures noted { IsNoted who (Release lease) (done_answer result) self.old self.new }
    {
        let lock = lease.lock();
        match self.cloud.release(who, lease) {
            Ok(()) => {
                self.trace.released(who, lock);
                Ok(())
            }
            Err(fault) => {
                self.trace.not_released(who, lock, fault);
                Err(fault)
            }
        }
    }
}

impl<C: Bench> Bench for NotingCloud<C> {
    fn wish(&mut self, wish: Wish)
        ensures no_call { IsNoCall (C.seen self.old.cloud) (C.seen self.new.cloud) }
        ensures set { SetsWish wish (C.seen self.old.cloud) (C.seen self.new.cloud) }
        ensures noted { self.new.trace ≡ self.old.trace }
    {
        self.cloud.wish(wish);
    }

    fn wait(&mut self, ticks: u64)
        ensures no_call { IsNoCall (C.seen self.old.cloud) (C.seen self.new.cloud) }
        ensures waited { HasWaited ticks (C.seen self.old.cloud) (C.seen self.new.cloud) }
        ensures noted { self.new.trace ≡ self.old.trace }
    {
        self.cloud.wait(ticks);
    }

    fn peek(&mut self, name: ObjName) -> Result<Option<Blob>, CloudFault>
        ensures looks { Looks result (C.seen self.old.cloud) (C.seen self.new.cloud) }
        ensures newest { TellsNewest result (C.seen self.old.cloud) name }
        ensures shown { IfOk result (IsShown (C.seen self.old.cloud) name) }
        ensures noted { self.new.trace ≡ self.old.trace }
    {
        self.cloud.peek(name)
    }

    fn has(&mut self, name: ObjName, bytes: &[u8]) -> Result<bool, CloudFault>
        ensures looks { Looks result (C.seen self.old.cloud) (C.seen self.new.cloud) }
        ensures newest { TellsHaving result (C.seen self.old.cloud) name bytes.now }
        ensures shown { IfOk result (IsShownToHave (C.seen self.old.cloud) name bytes.now) }
        ensures noted { self.new.trace ≡ self.old.trace }
    {
        self.cloud.has(name, bytes)
    }

    fn versions(&mut self, name: ObjName) -> Result<u64, CloudFault>
        ensures looks { Looks result (C.seen self.old.cloud) (C.seen self.new.cloud) }
        ensures count { TellsCount result (C.seen self.old.cloud) name }
        ensures noted { self.new.trace ≡ self.old.trace }
    {
        self.cloud.versions(name)
    }

    fn backlog(&mut self, queue: QueueName) -> Result<u64, CloudFault>
        ensures looks { Looks result (C.seen self.old.cloud) (C.seen self.new.cloud) }
        ensures length { TellsBacklog result (C.seen self.old.cloud) queue }
        ensures noted { self.new.trace ≡ self.old.trace }
    {
        self.cloud.backlog(queue)
    }
}
