ghost use Rattle.std.specs.Prelude.{◌≤◌, ℕ, length, Err, IfOk, IsOk, OnOk};
ghost use Rattle.cloud_trait.specs.Answers.{fault_answer, held_fault_answer};
ghost use Rattle.cloud_trait.specs.Bench.{Looks};
ghost use Rattle.folder_cloud.specs.Counting.{seen_of, AnswersAll, IsFresh, KeepsAllLeases};

use crate::fault::{FolderFault, HeldStop};
use crate::ticks::Ticks;
use crate::timed_folder::TimedFolder;
use cloud_trait::cloud::{Bench, Cloud};
use cloud_trait::fault::{CloudFault, HeldFault};
use cloud_trait::grant::Grant;
use cloud_trait::lease::Lease;
use cloud_trait::message::Message;
use cloud_trait::who::Who;
use db_base::blob::Blob;
use db_base::ids::{MsgId, PageId, TreeId};
use db_base::names::{Lock, ObjName, QueueName};
use db_base::wish::Wish;
use std::fs::File;
use std::rt::Files;

/// A cloud in a folder. Its clock is read at the opening, and in each service call once no other process is at work in the folder,
/// in ticks; it never falls. It tells no state, and ignores wishes and waits.
#[derive(Drop)]
pub struct FolderCloud<R, K> {
    folder: TimedFolder<R, K>,
    faults: u64,
    dark: u64,
}

impl<R: Files<File = File> + AllocGlobal + Drop, K: Ticks + Drop> FolderCloud<R, K> {
    /// The cloud in the folder at a path, which is made where there is none. Failed, for an empty path too, or Memory.
    pub fn open(rt: R, dir: &str, clock: K) -> Result<FolderCloud<R, K>, CloudFault>
        ensures named { OnOk result (1 ≤ length dir.now) }
        ensures fresh { IfOk result IsFresh }
    {
        FolderCloud::over(TimedFolder::open(rt, dir, clock))
    }

    /// The cloud in the folder at a path that has a store. Failed where there is none, and then nothing is made; or Memory.
    pub fn open_standing(rt: R, dir: &str, clock: K) -> Result<FolderCloud<R, K>, CloudFault>
        ensures named { OnOk result (1 ≤ length dir.now) }
        ensures fresh { IfOk result IsFresh }
    {
        FolderCloud::over(TimedFolder::open_standing(rt, dir, clock))
    }

    /// The cloud in the folder at a path, which the first call or look makes where there is none, and answers for. Failed for an
    /// empty path, or Memory.
    pub fn open_at_first_call(rt: R, dir: &str, clock: K) -> Result<FolderCloud<R, K>, CloudFault>
        ensures named { OnOk result (1 ≤ length dir.now) }
        ensures fresh { IfOk result IsFresh }
    {
        FolderCloud::over(TimedFolder::open_at_first_call(rt, dir, clock))
    }

    // The cloud over what was opened.
    fn over(opened: Result<TimedFolder<R, K>, FolderFault>) -> Result<FolderCloud<R, K>, CloudFault>
        ensures opened { OnOk result (IsOk opened) }
        ensures fresh { IfOk result IsFresh }
    {
        match opened {
            Ok(folder) => Ok(FolderCloud {
                folder,
                faults: 0,
                dark: 0,
            }),
            Err(FolderFault::Failed) => Err(CloudFault::Failed),
            Err(FolderFault::Memory) => Err(CloudFault::Memory),
        }
    }

    // A service call failed. Memory where the count of failures can't rise.
    fn fail(&mut self, fault: FolderFault) -> CloudFault
        ensures made { AnswersAll (fault_answer result) (seen_of self.old) (seen_of self.new) }
        ensures lease { KeepsAllLeases (fault_answer result) (seen_of self.old) (seen_of self.new) }
    {
        match fault {
            FolderFault::Memory => CloudFault::Memory,
            FolderFault::Failed => {
                if self.faults == u64::MAX {
                    return CloudFault::Memory;
                }
                self.faults += 1;
                CloudFault::Failed
            }
        }
    }

    // The same of a call under a lease.
    fn fail_held(&mut self, fault: FolderFault) -> HeldFault
        ensures made { AnswersAll (held_fault_answer result) (seen_of self.old) (seen_of self.new) }
        ensures lease { KeepsAllLeases (held_fault_answer result) (seen_of self.old) (seen_of self.new) }
    {
        match self.fail(fault) {
            CloudFault::Failed => HeldFault::Failed,
            CloudFault::Memory => HeldFault::Memory,
        }
    }

    // A look failed. Memory where the count of failed looks can't rise.
    fn fail_look(&mut self, fault: FolderFault) -> CloudFault
        ensures { Looks {A = ℕ} (Err result) (seen_of self.old) (seen_of self.new) }
    {
        match fault {
            FolderFault::Memory => CloudFault::Memory,
            FolderFault::Failed => {
                if self.dark == u64::MAX {
                    return CloudFault::Memory;
                }
                self.dark += 1;
                CloudFault::Failed
            }
        }
    }
}

impl<R: Files<File = File> + AllocGlobal + Drop, K: Ticks + Drop> Cloud for FolderCloud<R, K> {
    ghost seen = { seen_of };

    fn now(&self) -> u64 {
        self.folder.latest()
    }

    fn get(&mut self, _who: Who, name: ObjName) -> Result<Option<Blob>, CloudFault> {
        match self.folder.get(&name) {
            Ok(bytes) => Ok(bytes),
            Err(fault) => Err(self.fail(fault)),
        }
    }

    fn get_held(
        &mut self,
        _who: Who,
        name: ObjName,
        lease: &Lease,
    ) -> Result<Option<Blob>, HeldFault> {
        match self.folder.get_held(&name, lease) {
            Ok(bytes) => Ok(bytes),
            Err(HeldStop::Late { end, now }) => Err(HeldFault::Late { end, now }),
            Err(HeldStop::Fault(fault)) => Err(self.fail_held(fault)),
        }
    }

    fn put_held(
        &mut self,
        _who: Who,
        name: ObjName,
        bytes: &[u8],
        first: &Lease,
        second: Option<&Lease>,
    ) -> Result<(), HeldFault> {
        match self.folder.put_held(&name, bytes, first, second) {
            Ok(()) => Ok(()),
            Err(HeldStop::Late { end, now }) => Err(HeldFault::Late { end, now }),
            Err(HeldStop::Fault(fault)) => Err(self.fail_held(fault)),
        }
    }

    fn list_held(
        &mut self,
        _who: Who,
        tree: TreeId,
        lease: &Lease,
    ) -> Result<Vec<PageId>, HeldFault> {
        match self.folder.list_held(tree, lease) {
            Ok(pages) => Ok(pages),
            Err(HeldStop::Late { end, now }) => Err(HeldFault::Late { end, now }),
            Err(HeldStop::Fault(fault)) => Err(self.fail_held(fault)),
        }
    }

    fn remove_held(&mut self, _who: Who, name: ObjName, lease: &Lease) -> Result<(), HeldFault> {
        match self.folder.remove_held(&name, lease) {
            Ok(()) => Ok(()),
            Err(HeldStop::Late { end, now }) => Err(HeldFault::Late { end, now }),
            Err(HeldStop::Fault(fault)) => Err(self.fail_held(fault)),
        }
    }

    fn send(&mut self, _who: Who, queue: QueueName, bytes: &[u8]) -> Result<MsgId, CloudFault> {
        match self.folder.send(&queue, bytes) {
            Ok(id) => Ok(id),
            Err(fault) => Err(self.fail(fault)),
        }
    }

    fn receive(
        &mut self,
        _who: Who,
        queue: QueueName,
        max: u16,
    ) -> Result<Vec<Message>, CloudFault> {
        match self.folder.receive(&queue, max) {
            Ok(messages) => Ok(messages),
            Err(fault) => Err(self.fail(fault)),
        }
    }

    fn delete(&mut self, _who: Who, queue: QueueName, id: MsgId) -> Result<(), CloudFault> {
        match self.folder.delete(&queue, id) {
            Ok(()) => Ok(()),
            Err(fault) => Err(self.fail(fault)),
        }
    }

    fn take(&mut self, _who: Who, lock: Lock, ticks: u64) -> Result<Grant, CloudFault> {
        match self.folder.take(&lock, ticks) {
            Ok(grant) => Ok(grant),
            Err(fault) => Err(self.fail(fault)),
        }
    }

    fn renew(&mut self, _who: Who, lease: &mut Lease, ticks: u64) -> Result<(), HeldFault> {
        match self.folder.renew(lease, ticks) {
            Ok(until) => {
                lease.extend(until);
                Ok(())
            }
            Err(HeldStop::Late { end, now }) => Err(HeldFault::Late { end, now }),
            Err(HeldStop::Fault(fault)) => Err(self.fail_held(fault)),
        }
    }

    fn release(&mut self, _who: Who, lease: Lease) -> Result<(), CloudFault> {
        match self.folder.release(&lease) {
            Ok(()) => Ok(()),
            Err(fault) => Err(self.fail(fault)),
        }
    }
}

impl<R: Files<File = File> + AllocGlobal + Drop, K: Ticks + Drop> Bench for FolderCloud<R, K> {
    fn wish(&mut self, _wish: Wish) {}

    fn wait(&mut self, _ticks: u64) {}

    fn peek(&mut self, name: ObjName) -> Result<Option<Blob>, CloudFault> {
        match self.folder.get(&name) {
            Ok(bytes) => Ok(bytes),
            Err(fault) => Err(self.fail_look(fault)),
        }
    }

    fn has(&mut self, name: ObjName, bytes: &[u8]) -> Result<bool, CloudFault> {
        match self.peek(name)? {
            Some(newest) => Ok(newest.as_slice() == bytes),
            None => Ok(false),
        }
    }

    // A folder keeps the newest version alone.
    fn versions(&mut self, _name: ObjName) -> Result<u64, CloudFault> {
        Err(self.fail_look(FolderFault::Failed))
    }

    fn backlog(&mut self, queue: QueueName) -> Result<u64, CloudFault> {
        match self.folder.backlog(&queue) {
            Ok(count) => Ok(count),
            Err(fault) => Err(self.fail_look(fault)),
        }
    }
}
