ghost use Rattle.std.specs.Prelude.{◌≡◌, Some, IfOk};
ghost use Rattle.std.specs.Option.{option_copied};
ghost use Rattle.cloud_trait.specs.Answers.{held_done};
ghost use Rattle.cloud_trait.specs.Ask.{PutHeld};
ghost use Rattle.cloud_trait.specs.State.{CloudState};
ghost use Rattle.cloud_trait.specs.Seen.{Seen};
ghost use Rattle.cloud_trait.specs.Weather.{Makes};
ghost use Rattle.cloud_trait.specs.Made.{MakesGet, MakesGetHeld, MakesListHeld, MakesRemoveHeld, MakesSend, MakesReceive, MakesDelete, MakesTake, MakesRenew, SetsLease, MakesRelease};
ghost use Rattle.cloud_trait.specs.Bench.{Looks, IsNoCall, IsShown, IsShownToHave, SetsWish, HasWaited, TellsNewest, TellsHaving, TellsCount, TellsBacklog};

use crate::fault::{CloudFault, HeldFault};
use crate::grant::Grant;
use crate::lease::Lease;
use crate::message::Message;
use crate::who::Who;
use db_base::blob::Blob;
use db_base::ids::{MsgId, PageId, TreeId};
use db_base::names::{Lock, ObjName, QueueName};
use db_base::wish::Wish;

/// What a client has: an object store with old reads, queues that withhold, repeat and reorder, and locks
/// with leases. A call that failed may have landed.
pub trait Cloud {
    /// What is seen of it: the counts, which never fall, and the state, the newest answer and what looks show where it tells them.
    ghost seen: { Self → Seen };

    /// The clock, in ticks.
    fn now(&self) -> u64
        ensures told { (s : CloudState) → (seen self.now).state ≡ Some s → result ≡ s.now };

    /// Reads some version of an object, or none.
    fn get(&mut self, who: Who, name: ObjName) -> Result<Option<Blob>, CloudFault>
        ensures made { MakesGet who name result (seen self.old) (seen self.new) };

    /// Reads the newest version of an object under a lease, or none.
    fn get_held(
        &mut self,
        who: Who,
        name: ObjName,
        lease: &Lease,
    ) -> Result<Option<Blob>, HeldFault>
        ensures made { MakesGetHeld who name lease.now result (seen self.old) (seen self.new) };

    /// Puts a version of an object under one or two leases, which are checked in order.
    fn put_held(
        &mut self,
        who: Who,
        name: ObjName,
        bytes: &[u8],
        first: &Lease,
        second: Option<&Lease>,
    ) -> Result<(), HeldFault>
        ensures made { Makes who (PutHeld name bytes.now first.now (option_copied second.entry)) (held_done result) (seen self.old) (seen self.new) };

    /// Lists the pages of a tree whose newest version has bytes, in ascending order, under a lease.
    fn list_held(&mut self, who: Who, tree: TreeId, lease: &Lease) -> Result<Vec<PageId>, HeldFault>
        ensures made { MakesListHeld who tree lease.now result (seen self.old) (seen self.new) };

    /// Removes an object under a lease: its newest version has no bytes then.
    fn remove_held(&mut self, who: Who, name: ObjName, lease: &Lease) -> Result<(), HeldFault>
        ensures made { MakesRemoveHeld who name lease.now result (seen self.old) (seen self.new) };

    /// Sends a message.
    fn send(&mut self, who: Who, queue: QueueName, bytes: &[u8]) -> Result<MsgId, CloudFault>
        ensures made { MakesSend who queue bytes.now result (seen self.old) (seen self.new) };

    /// Receives at most `max` of the messages that were ever sent to a queue.
    fn receive(&mut self, who: Who, queue: QueueName, max: u16) -> Result<Vec<Message>, CloudFault>
        ensures made { MakesReceive who queue max result (seen self.old) (seen self.new) };

    /// Deletes a message. To delete one again, or one that the queue never had, changes nothing.
    fn delete(&mut self, who: Who, queue: QueueName, id: MsgId) -> Result<(), CloudFault>
        ensures made { MakesDelete who queue id result (seen self.old) (seen self.new) };

    /// Takes a lock for some ticks.
    fn take(&mut self, who: Who, lock: Lock, ticks: u64) -> Result<Grant, CloudFault>
        ensures made { MakesTake who lock ticks result (seen self.old) (seen self.new) };

    /// Moves the end of a lease and its lock to some ticks from now.
    fn renew(&mut self, who: Who, lease: &mut Lease, ticks: u64) -> Result<(), HeldFault>
        ensures made { MakesRenew who ticks (lease.old, lease.new) result (seen self.old) (seen self.new) }
        ensures lease { SetsLease who ticks (lease.old, lease.new) result (seen self.old) (seen self.new) };

    /// Gives a lease back.
    fn release(&mut self, who: Who, lease: Lease) -> Result<(), CloudFault>
        ensures made { MakesRelease who lease result (seen self.old) (seen self.new) };
}

/// What a replay has besides: the schedule's wishes and waits, and the looks of reports and audits. None
/// of these is a service call.
pub trait Bench: Cloud {
    /// Sets the wish for the next service call.
    fn wish(&mut self, wish: Wish)
        ensures no_call { IsNoCall (Self.seen self.old) (Self.seen self.new) }
        ensures set { SetsWish wish (Self.seen self.old) (Self.seen self.new) };

    /// Waits for at least some ticks.
    fn wait(&mut self, ticks: u64)
        ensures no_call { IsNoCall (Self.seen self.old) (Self.seen self.new) }
        ensures waited { HasWaited ticks (Self.seen self.old) (Self.seen self.new) };

    /// Looks at the newest version of an object.
    fn peek(&mut self, name: ObjName) -> Result<Option<Blob>, CloudFault>
        ensures looks { Looks result (Self.seen self.old) (Self.seen self.new) }
        ensures newest { TellsNewest result (Self.seen self.old) name }
        ensures shown { IfOk result (IsShown (Self.seen self.old) name) };

    /// Looks whether the newest version of an object has these bytes.
    fn has(&mut self, name: ObjName, bytes: &[u8]) -> Result<bool, CloudFault>
        ensures looks { Looks result (Self.seen self.old) (Self.seen self.new) }
        ensures newest { TellsHaving result (Self.seen self.old) name bytes.now }
        ensures shown { IfOk result (IsShownToHave (Self.seen self.old) name bytes.now) };

    /// Counts the versions of an object that landed, with bytes or without. A cloud that does not know it fails.
    fn versions(&mut self, name: ObjName) -> Result<u64, CloudFault>
        ensures looks { Looks result (Self.seen self.old) (Self.seen self.new) }
        ensures count { TellsCount result (Self.seen self.old) name };

    /// Counts the messages of a queue that are not deleted.
    fn backlog(&mut self, queue: QueueName) -> Result<u64, CloudFault>
        ensures looks { Looks result (Self.seen self.old) (Self.seen self.new) }
        ensures length { TellsBacklog result (Self.seen self.old) queue };
}
