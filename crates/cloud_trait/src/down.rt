ghost use Rattle.std.specs.Prelude.{◌≡◌, ℕ};
ghost use Rattle.cloud_trait.specs.Answers.{fault_answer, held_fault_answer};
ghost use Rattle.cloud_trait.specs.Weather.{MakesAny, LeavesLeases};
ghost use Rattle.cloud_trait.specs.Bench.{Looks};
ghost use Rattle.cloud_trait.specs.Down.{seen_of, first_seen};

use crate::cloud::{Bench, Cloud};
use crate::fault::{CloudFault, HeldFault};
use crate::grant::Grant;
use crate::lease::Lease;
use crate::message::Message;
use crate::who::Who;
use db_base::blob::Blob;
use db_base::ids::{MsgId, PageId, TreeId};
use db_base::names::{Lock, ObjName, QueueName};
use db_base::wish::Wish;
use std::mem;

/// A cloud that is down: each service call and each look fails, and nothing ever lands. It tells all that is seen of
/// it, its answers too.
#[derive(Debug)]
pub struct DownCloud {
    clock: u64,
    waits: u64,
    wish: Wish,
    last: Option<(Who, Wish)>,
    faults: u64,
    dark: u64,
    heard: Option<CloudFault>,
}

impl Drop for DownCloud {
    fn drop(self) {
        let DownCloud {
            clock: _,
            waits: _,
            wish: _,
            last: _,
            faults: _,
            dark: _,
            heard: _,
        } = self;
    }
}

impl DownCloud {
    /// A cloud at clock 0 that was never called. Takes no memory.
    pub fn new() -> DownCloud
        ensures { seen_of result ≡ first_seen }
    {
        DownCloud {
            clock: 0,
            waits: 0,
            wish: Wish::Plain,
            last: None,
            faults: 0,
            dark: 0,
            heard: None,
        }
    }

    // A service call: it spends the wish and fails. Memory where the count of failures can't rise.
    fn fail(&mut self, who: Who) -> CloudFault
        ensures made { MakesAny who (fault_answer result) (seen_of self.old) (seen_of self.new) }
        ensures lease { LeavesLeases who (fault_answer result) (seen_of self.old) (seen_of self.new) }
    {
        let wish = mem::replace(&mut self.wish, Wish::Plain);
        self.last = Some((who, wish));
        if self.faults == u64::MAX {
            self.heard = Some(CloudFault::Memory);
            return CloudFault::Memory;
        }
        self.faults += 1;
        self.heard = Some(CloudFault::Failed);
        CloudFault::Failed
    }

    // The same of a call under a lease.
    fn fail_held(&mut self, who: Who) -> HeldFault
        ensures made { MakesAny who (held_fault_answer result) (seen_of self.old) (seen_of self.new) }
        ensures lease { LeavesLeases who (held_fault_answer result) (seen_of self.old) (seen_of self.new) }
    {
        match self.fail(who) {
            CloudFault::Failed => HeldFault::Failed,
            CloudFault::Memory => HeldFault::Memory,
        }
    }

    // A look: it fails. Memory where the count of failed looks can't rise.
    fn look(&mut self) -> CloudFault
        ensures { Looks {A = ℕ} (Err result) (seen_of self.old) (seen_of self.new) }
    {
        if self.dark == u64::MAX {
            return CloudFault::Memory;
        }
        self.dark += 1;
        CloudFault::Failed
    }
}

impl Cloud for DownCloud {
    ghost seen = { seen_of };

    fn now(&self) -> u64 {
        self.clock
    }

    fn get(&mut self, who: Who, _name: ObjName) -> Result<Option<Blob>, CloudFault> {
        Err(self.fail(who))
    }

    fn get_held(
        &mut self,
        who: Who,
        _name: ObjName,
        _lease: &Lease,
    ) -> Result<Option<Blob>, HeldFault> {
        Err(self.fail_held(who))
    }

    fn put_held(
        &mut self,
        who: Who,
        _name: ObjName,
        _bytes: &[u8],
        _first: &Lease,
        _second: Option<&Lease>,
    ) -> Result<(), HeldFault> {
        Err(self.fail_held(who))
    }

    fn list_held(
        &mut self,
        who: Who,
        _tree: TreeId,
        _lease: &Lease,
    ) -> Result<Vec<PageId>, HeldFault> {
        Err(self.fail_held(who))
    }

    fn remove_held(&mut self, who: Who, _name: ObjName, _lease: &Lease) -> Result<(), HeldFault> {
        Err(self.fail_held(who))
    }

    fn send(&mut self, who: Who, _queue: QueueName, _bytes: &[u8]) -> Result<MsgId, CloudFault> {
        Err(self.fail(who))
    }

    fn receive(
        &mut self,
        who: Who,
        _queue: QueueName,
        _max: u16,
    ) -> Result<Vec<Message>, CloudFault> {
        Err(self.fail(who))
    }

    fn delete(&mut self, who: Who, _queue: QueueName, _id: MsgId) -> Result<(), CloudFault> {
        Err(self.fail(who))
    }

    fn take(&mut self, who: Who, _lock: Lock, _ticks: u64) -> Result<Grant, CloudFault> {
        Err(self.fail(who))
    }

    fn renew(&mut self, who: Who, _lease: &mut Lease, _ticks: u64) -> Result<(), HeldFault> {
        Err(self.fail_held(who))
    }

    fn release(&mut self, who: Who, _lease: Lease) -> Result<(), CloudFault> {
        Err(self.fail(who))
    }
}

impl Bench for DownCloud {
    fn wish(&mut self, wish: Wish) {
        self.wish = wish;
    }

    fn wait(&mut self, ticks: u64) {
        self.clock = self.clock.saturating_add(ticks);
        self.waits = self.waits.saturating_add(1);
    }

    fn peek(&mut self, _name: ObjName) -> Result<Option<Blob>, CloudFault> {
        Err(self.look())
    }

    fn has(&mut self, _name: ObjName, _bytes: &[u8]) -> Result<bool, CloudFault> {
        Err(self.look())
    }

    fn versions(&mut self, _name: ObjName) -> Result<u64, CloudFault> {
        Err(self.look())
    }

    fn backlog(&mut self, _queue: QueueName) -> Result<u64, CloudFault> {
        Err(self.look())
    }
}
