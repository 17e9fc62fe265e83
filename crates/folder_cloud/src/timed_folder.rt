ghost use Rattle.std.specs.Prelude.{◌≡◌, ◌≤◌, length, Err, IfNone, IfOk, IfSome, OnOk, Ok};
ghost use Rattle.std.specs.Option.{option_copied};
ghost use Rattle.cloud_trait.specs.Claim.{Claim, IsOver, Lasts};
ghost use Rattle.cloud_trait.specs.Listing.{AscendAbove};
ghost use Rattle.cloud_trait.specs.Weather.{FirstOver};
ghost use Rattle.folder_cloud.specs.Lateness.{AllLast, IfLate};

use crate::clock::Clock;
use crate::fault::{FolderFault, HeldStop};
use crate::folder::Folder;
use crate::held::Held;
use crate::rules::lease_end;
use crate::ticks::Ticks;
use cloud_trait::grant::Grant;
use cloud_trait::lease::Lease;
use cloud_trait::message::Message;
use db_base::blob::Blob;
use db_base::ids::{MsgId, PageId, TreeId};
use db_base::names::{Lock, ObjName, QueueName};
use std::fs::File;
use std::rt::Files;

/// A folder and a clock. Each call waits until no other process is at work in the folder, then reads the clock, then looks whether
/// the leases that it names last and their locks were given to nobody since, and then acts; nobody else comes in between.
#[derive(Drop)]
pub(crate) struct TimedFolder<R, K> {
    folder: Folder<R>,
    clock: Clock<K>,
}

impl<R: Files<File = File> + AllocGlobal + Drop, K: Ticks + Drop> TimedFolder<R, K> {
    /// The folder at a path, which is made where there is none. Failed for an empty path too.
    pub fn open(rt: R, dir: &str, ticks: K) -> Result<TimedFolder<R, K>, FolderFault>
        ensures named { OnOk result (1 ≤ length dir.now) }
    {
        let mut folder = Folder::at(rt, dir)?;
        folder.make_ready()?;
        let clock = Clock::start(ticks);
        Ok(TimedFolder { folder, clock })
    }

    /// The folder at a path. Failed where no store is there.
    pub fn open_standing(rt: R, dir: &str, ticks: K) -> Result<TimedFolder<R, K>, FolderFault>
        ensures named { OnOk result (1 ≤ length dir.now) }
    {
        let mut folder = Folder::at(rt, dir)?;
        folder.must_be_there()?;
        let clock = Clock::start(ticks);
        Ok(TimedFolder { folder, clock })
    }

    /// The folder at a path, which the first call or look makes where there is none. Failed for an empty path.
    pub fn open_at_first_call(rt: R, dir: &str, ticks: K) -> Result<TimedFolder<R, K>, FolderFault>
        ensures named { OnOk result (1 ≤ length dir.now) }
    {
        let folder = Folder::at(rt, dir)?;
        let clock = Clock::start(ticks);
        Ok(TimedFolder { folder, clock })
    }

    /// The moment that was read last.
    pub fn latest(&self) -> u64 {
        self.clock.latest()
    }

    // Waits for the folder, and reads the clock.
    fn begin(&mut self) -> Result<Held, FolderFault> {
        let held = self.folder.hold()?;
        self.clock.read();
        Ok(held)
    }

    // The same for a call that names leases.
    fn begin_under(&mut self, first: &Lease, second: Option<&Lease>) -> Result<Held, HeldStop>
        ensures late { IfLate result (λ end now. FirstOver now first.now (option_copied second.entry) end) }
        ensures lasting { OnOk result (AllLast self.new.clock.latest first.now (option_copied second.entry)) }
    {
        let held = self.begin()?;
        let now = self.clock.latest();
        if let Some(end) = first_over(now, first, second) {
            return Err(HeldStop::Late { end, now });
        }
        self.folder.must_be_of(first)?;
        if let Some(lease) = second {
            self.folder.must_be_of(lease)?;
        }
        Ok(held)
    }

    /// The newest version of an object.
    pub fn get(&mut self, name: &ObjName) -> Result<Option<Blob>, FolderFault> {
        let held = self.begin()?;
        self.folder.get(&held, name)
    }

    /// The newest version of an object, under a lease.
    pub fn get_held(&mut self, name: &ObjName, lease: &Lease) -> Result<Option<Blob>, HeldStop>
        ensures late { IfLate result (λ end now. IsOver now lease.now × (end ≡ lease.now.end)) }
        ensures lasting { OnOk result (Lasts self.new.clock.latest lease.now) }
    {
        let held = self.begin_under(lease, None)?;
        Ok(self.folder.get(&held, name)?)
    }

    /// Puts a version of an object, under one or two leases.
    pub fn put_held(
        &mut self,
        name: &ObjName,
        bytes: &[u8],
        first: &Lease,
        second: Option<&Lease>,
    ) -> Result<(), HeldStop>
        ensures late { IfLate result (λ end now. FirstOver now first.now (option_copied second.entry) end) }
        ensures lasting { OnOk result (AllLast self.new.clock.latest first.now (option_copied second.entry)) }
    {
        let held = self.begin_under(first, second)?;
        self.folder.put(&held, name, bytes)?;
        Ok(())
    }

    /// The pages of a tree, in ascending order, under a lease.
    pub fn list_held(&mut self, tree: TreeId, lease: &Lease) -> Result<Vec<PageId>, HeldStop>
        ensures ascending { IfOk result (λ pages. AscendAbove 0 pages.items) }
        ensures late { IfLate result (λ end now. IsOver now lease.now × (end ≡ lease.now.end)) }
        ensures lasting { OnOk result (Lasts self.new.clock.latest lease.now) }
    {
        let held = self.begin_under(lease, None)?;
        Ok(self.folder.pages(&held, tree)?)
    }

    /// Removes an object, where it is there, under a lease.
    pub fn remove_held(&mut self, name: &ObjName, lease: &Lease) -> Result<(), HeldStop>
        ensures late { IfLate result (λ end now. IsOver now lease.now × (end ≡ lease.now.end)) }
        ensures lasting { OnOk result (Lasts self.new.clock.latest lease.now) }
    {
        let held = self.begin_under(lease, None)?;
        self.folder.remove(&held, name)?;
        Ok(())
    }

    /// Sends a message, behind all that are there.
    pub fn send(&mut self, queue: &QueueName, bytes: &[u8]) -> Result<MsgId, FolderFault> {
        let held = self.begin()?;
        self.folder.send(&held, queue, bytes)
    }

    /// The first messages of a queue that are not deleted, at most so many, in the order of sending.
    pub fn receive(&mut self, queue: &QueueName, most: u16) -> Result<Vec<Message>, FolderFault>
        ensures { IfOk result (λ messages. length messages.items ≤ most) }
    {
        let held = self.begin()?;
        self.folder.receive(&held, queue, most)
    }

    /// Deletes a message, where it is there.
    pub fn delete(&mut self, queue: &QueueName, id: MsgId) -> Result<(), FolderFault> {
        let held = self.begin()?;
        self.folder.delete(&held, queue, id)
    }

    /// Takes a lock for some ticks, where it is free.
    pub fn take(&mut self, lock: &Lock, ticks: u64) -> Result<Grant, FolderFault>
        ensures { (l : Claim) → result ≡ Ok (Grant.Given l) → l.lock ≡ lock.now }
    {
        let held = self.begin()?;
        self.folder.take(&held, lock, self.clock.latest(), ticks)
    }

    /// Moves the end of a lease's lock to some ticks from now: where to.
    pub fn renew(&mut self, lease: &Lease, ticks: u64) -> Result<u64, HeldStop>
        ensures late { IfLate result (λ end now. IsOver now lease.now × (end ≡ lease.now.end)) }
        ensures lasting { OnOk result (Lasts self.new.clock.latest lease.now) }
    {
        let held = self.begin_under(lease, None)?;
        let until = lease_end(self.clock.latest(), ticks);
        self.folder.move_end(&held, lease, until)?;
        Ok(until)
    }

    /// Gives a lock back. Where it was given to another since, the lease is to be over.
    pub fn release(&mut self, lease: &Lease) -> Result<(), FolderFault> {
        let held = self.begin()?;
        self.folder.release(&held, lease, self.clock.latest())
    }

    /// Looks at the newest version of an object.
    pub fn peek(&mut self, name: &ObjName) -> Result<Option<Blob>, FolderFault> {
        let held = self.folder.hold()?;
        self.folder.get(&held, name)
    }

    /// Looks how many messages of a queue are not deleted.
    pub fn backlog(&mut self, queue: &QueueName) -> Result<u64, FolderFault> {
        let held = self.folder.hold()?;
        self.folder.backlog(&held, queue)
    }
}

// The end of the first lease that is over.
fn first_over(now: u64, first: &Lease, second: Option<&Lease>) -> Option<u64>
    ensures over { IfSome result (λ end. FirstOver now first.now (option_copied second.entry) end) }
    ensures lasting { IfNone result (AllLast now first.now (option_copied second.entry)) }
{
    if first.end() <= now {
        return Some(first.end());
    }
    match second {
        Some(lease) => {
            if lease.end() <= now {
                Some(lease.end())
            } else {
                None
            }
        }
        None => None,
    }
}
