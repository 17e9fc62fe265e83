//! The files of a folder. What looks at them or changes them is handed the lock on the folder that it is done under.

ghost use Rattle.std.specs.Prelude.{◌≡◌, ◌≤◌, length, IfOk, OnOk, Ok};
ghost use Rattle.cloud_trait.specs.Claim.{Claim};
ghost use Rattle.cloud_trait.specs.Listing.{AscendAbove};

use crate::fault::FolderFault;
use crate::files::{
    flush_names, keep_folder, look, make_folder, make_new, named, open_folder, read, remove,
    write_over,
};
use crate::held::Held;
use crate::numbers::{hold_bytes, hold_in, id_in, id_name, noted_in};
use crate::rules::{is_held, lease_end, next_number, put_in_order, was_given};
use cloud_trait::grant::Grant;
use cloud_trait::lease::Lease;
use cloud_trait::message::Message;
use cloud_trait::state::Hold;
use db_base::blob::Blob;
use db_base::ids::{MsgId, PageId, TreeId};
use db_base::names::{Lock, ObjName, QueueName};
use db_base::text::Text;
use folder_names::fault::NameFault;
use folder_names::files::{file_of, lock_of};
use folder_names::objects::page_of;
use folder_names::parts::{Part, path_of};
use std::alloc::Global;
use std::fs;
use std::fs::File;
use std::io::{ErrorKind, Write};
use std::rt::Files;

/// The parts of a folder, and the one file beside them.
const OBJECTS: &str = "objects";

const LOCKS: &str = "locks";

const QUEUES: &str = "queues";

/// The parts in the order in which they are made, so that a folder with its objects has them all.
const PARTS: [&str; 3] = [LOCKS, QUEUES, OBJECTS];

const IN_USE: &str = "in-use";

/// In each part: a file that is being written. No object, lock or message has this name.
const ASIDE: &str = "aside";

/// In the part of a queue: a number that no deleted message had a greater one than, but for those below one that is there.
const LAST: &str = "last";

/// A folder, by its path, and whether it was seen to be there or was made.
#[derive(Drop)]
pub(crate) struct Folder<R> {
    rt: R,
    dir: String,
    is_there: bool,
}

impl<R: Files<File = File> + AllocGlobal + Drop> Folder<R> {
    /// The folder at a path, which is made once it is needed. An empty path names none: its parts would be the root's.
    pub fn at(rt: R, dir: &str) -> Result<Folder<R>, FolderFault>
        ensures named { OnOk result (1 ≤ length dir.now) }
    {
        if dir.is_empty() {
            return Err(FolderFault::Failed);
        }
        let dir = String::from_str(rt.alloc(), dir)?;
        let is_there = false;
        Ok(Folder { rt, dir, is_there })
    }

    /// Makes the folder and its parts, where there are none.
    pub fn make_ready(&mut self) -> Result<(), FolderFault> {
        let in_use = self.path(IN_USE, "")?;
        if look(&self.rt, in_use.as_str())?.is_none() {
            self.make()?;
        }
        self.is_there = true;
        Ok(())
    }

    /// Failed where no store is there: one has its objects' part. Nothing is made but what a making that was
    /// cut off left out, since nobody makes that any more once `in-use` is there.
    pub fn must_be_there(&mut self) -> Result<(), FolderFault> {
        if !self.has_part(OBJECTS)? {
            return Err(FolderFault::Failed);
        }
        self.make_ready()
    }

    // Makes the folder, those above it and its parts, and flushes their names.
    fn make(&self) -> Result<(), FolderFault> {
        let whole = self.has_parts()?;
        let dir = self.dir.as_str();
        for (end, _) in dir.match_indices('/') {
            match dir.get(..end) {
                Some("") | None => {}
                Some(above) => self.keep(above, whole)?,
            }
        }
        self.keep(dir, whole)?;
        for part in PARTS {
            let path = self.path(part, "")?;
            keep_folder(&self.rt, path.as_str())?;
        }
        Ok(())
    }

    // Whether all parts are there.
    fn has_parts(&self) -> Result<bool, FolderFault> {
        for part in PARTS {
            if !self.has_part(part)? {
                return Ok(false);
            }
        }
        Ok(true)
    }

    // Whether a part is there.
    fn has_part(&self, part: &str) -> Result<bool, FolderFault> {
        let path = self.path(part, "")?;
        match look(&self.rt, path.as_str())? {
            Some(there) => Ok(there.is_dir()),
            None => Ok(false),
        }
    }

    // Makes a folder and flushes its name. Where all parts are there, whoever made them flushed it, and to flush it again may fail.
    fn keep(&self, path: &str, whole: bool) -> Result<(), FolderFault> {
        match keep_folder(&self.rt, path) {
            Err(FolderFault::Failed) if whole => Ok(()),
            kept => kept,
        }
    }

    // The path of a name in a part of the folder, or of the part.
    fn path(&self, part: &str, name: &str) -> Result<String, FolderFault> {
        let mut path = String::from_str(self.rt.alloc(), self.dir.as_str())?;
        path.push('/')?;
        path.push_str(part)?;
        if !name.is_empty() {
            path.push('/')?;
            path.push_str(name)?;
        }
        Ok(path)
    }

    /// Waits until no other process is at work here. What a process that was killed changed and did not flush is flushed first, so
    /// that nobody acts on what a power failure would take back.
    pub fn hold(&mut self) -> Result<Held, FolderFault> {
        if !self.is_there {
            self.make_ready()?;
        }
        let path = self.path(IN_USE, "")?;
        let held = Held::of(&self.rt, path.as_str())?;
        if let Some(part) = held.marked(self.rt.alloc())? {
            self.flush_marked(part)?;
            held.unmark()?;
        }
        Ok(held)
    }

    // Flushes the names in a part, where it is there.
    fn flush_marked(&self, part: Part) -> Result<(), FolderFault> {
        let part = path_of(self.rt.alloc(), part)?;
        let path = self.path(part.as_str(), "")?;
        match look(&self.rt, path.as_str())? {
            Some(there) if there.is_dir() => flush_names(&self.rt, path.as_str()),
            _ => Ok(()),
        }
    }

    // A part of the folder, open to flush its names.
    fn names(&self, part: &str) -> Result<File, FolderFault> {
        let path = self.path(part, "")?;
        Ok(open_folder(&self.rt, path.as_str())?)
    }

    // The bytes of a file in a part; none where there is no file.
    fn read(&self, part: &str, name: &str) -> Result<Option<Vec<u8>>, FolderFault> {
        let path = self.path(part, name)?;
        read(&self.rt, path.as_str())
    }

    // Puts a file in the place of the one that is there, if any: it is made anew beside it and flushed, and then renamed. A
    // leftover is removed and not written over, since after a power failure it may be one file with what it was renamed to.
    fn write(&self, held: &Held, part: &str, name: &str, bytes: &[u8]) -> Result<(), FolderFault> {
        let aside = self.path(part, ASIDE)?;
        let path = self.path(part, name)?;
        let names = self.names(part)?;
        remove(&self.rt, aside.as_str())?;
        let mut file = make_new(&self.rt, aside.as_str())?;
        file.write_all(bytes)?;
        file.sync_all()?;
        held.mark(part)?;
        fs::rename(&self.rt, aside.as_str(), path.as_str())?;
        held.flush(&names)
    }

    /// The newest version of an object.
    pub fn get(&self, _held: &Held, name: &ObjName) -> Result<Option<Blob>, FolderFault> {
        let file = file_of(self.rt.alloc(), *name)?;
        match self.read(OBJECTS, file.as_str())? {
            Some(bytes) => Ok(Some(Blob::of(bytes))),
            None => Ok(None),
        }
    }

    /// Puts a version of an object.
    pub fn put(&self, held: &Held, name: &ObjName, bytes: &[u8]) -> Result<(), FolderFault> {
        let file = file_of(self.rt.alloc(), *name)?;
        self.write(held, OBJECTS, file.as_str(), bytes)
    }

    /// The pages of a tree, in ascending order.
    pub fn pages(&self, _held: &Held, tree: TreeId) -> Result<Vec<PageId>, FolderFault>
        ensures { IfOk result (λ pages. AscendAbove 0 pages.items) }
    {
        let mut pages = Vec::new(self.rt.alloc());
        let path = self.path(OBJECTS, "")?;
        let rt = &self.rt;
        for entry in fs::read_dir(&rt, path.as_str())? {
            if let Some(entry) = named(entry)? {
                if let Some(page) = page_in(self.rt.alloc(), tree, entry.file_name())? {
                    pages.push(page)?;
                }
            }
        }
        put_in_order(&mut pages);
        Ok(pages)
    }

    /// Removes an object, where it is there. It is flushed as a put is, since nobody may read it again.
    pub fn remove(&self, held: &Held, name: &ObjName) -> Result<(), FolderFault> {
        let file = file_of(self.rt.alloc(), *name)?;
        let path = self.path(OBJECTS, file.as_str())?;
        if look(&self.rt, path.as_str())?.is_none() {
            return Ok(());
        }
        let names = self.names(OBJECTS)?;
        held.mark(OBJECTS)?;
        remove(&self.rt, path.as_str())?;
        held.flush(&names)
    }

    // The part of a queue.
    fn queue_part(&self, queue: &QueueName) -> Result<Text, FolderFault> {
        Ok(path_of(self.rt.alloc(), Part::Queue(*queue))?)
    }

    // Makes the part of a queue, where there is none.
    fn make_queue(&self, held: &Held, queue: &str) -> Result<(), FolderFault> {
        let path = self.path(queue, "")?;
        if look(&self.rt, path.as_str())?.is_some() {
            return Ok(());
        }
        let names = self.names(QUEUES)?;
        held.mark(QUEUES)?;
        make_folder(&self.rt, path.as_str())?;
        held.flush(&names)
    }

    // The number that was noted in a queue; 0 where none was, or what was is lost.
    fn noted(&self, queue: &str) -> Result<u64, FolderFault> {
        match self.read(queue, LAST)? {
            Some(bytes) => Ok(noted_in(bytes.as_slice())),
            None => Ok(0),
        }
    }

    /// Sends a message, behind all that are there.
    pub fn send(&self, held: &Held, queue: &QueueName, bytes: &[u8]) -> Result<MsgId, FolderFault> {
        let queue = self.queue_part(queue)?;
        self.make_queue(held, queue.as_str())?;
        let newest = match self.ids(queue.as_str())?.last() {
            Some(id) => *id,
            None => 0,
        };
        let noted = self.noted(queue.as_str())?;
        let id = next_number(noted, newest).ok_or(FolderFault::Failed)?;
        let name = id_name(self.rt.alloc(), id)?;
        self.write(held, queue.as_str(), name.as_str(), bytes)?;
        Ok(MsgId::new(id))
    }

    // The messages of a queue that are not deleted, in the order of sending.
    fn ids(&self, queue: &str) -> Result<Vec<u64>, FolderFault> {
        let mut ids = Vec::new(self.rt.alloc());
        let path = self.path(queue, "")?;
        let rt = &self.rt;
        let entries = match fs::read_dir(&rt, path.as_str()) {
            Ok(entries) => entries,
            Err(error) => match error.kind() {
                ErrorKind::NotFound => return Ok(ids),
                _ => return Err(FolderFault::from(error)),
            },
        };
        for entry in entries {
            if let Some(entry) = named(entry)? {
                if let Some(id) = id_in(entry.file_name()) {
                    ids.push(id)?;
                }
            }
        }
        ids.sort()?;
        Ok(ids)
    }

    /// The first messages of a queue that are not deleted, at most so many, in the order of sending.
    pub fn receive(
        &self,
        _held: &Held,
        queue: &QueueName,
        most: u16,
    ) -> Result<Vec<Message>, FolderFault>
        ensures { IfOk result (λ messages. length messages.items ≤ most) }
    {
        let queue = self.queue_part(queue)?;
        let ids = self.ids(queue.as_str())?;
        let mut messages = Vec::new(self.rt.alloc());
        for id in ids.iter().take(usize::from(most)) {
            let name = id_name(self.rt.alloc(), *id)?;
            if let Some(bytes) = self.read(queue.as_str(), name.as_str())? {
                messages.push(Message {
                    id: MsgId::new(*id),
                    bytes: Blob::of(bytes),
                })?;
            }
        }
        messages.truncate(usize::from(most));
        Ok(messages)
    }

    /// How many messages of a queue are not deleted.
    pub fn backlog(&self, _held: &Held, queue: &QueueName) -> Result<u64, FolderFault> {
        let queue = self.queue_part(queue)?;
        let ids = self.ids(queue.as_str())?;
        Ok(ids.len() as u64)
    }

    /// Deletes a message, where it is there. Neither that nor the note of its number is flushed: a message that comes back after a
    /// power failure is one that a receive may answer anyway, and nobody who knew a number that comes again is there any more.
    pub fn delete(&self, _held: &Held, queue: &QueueName, id: MsgId) -> Result<(), FolderFault> {
        let queue = self.queue_part(queue)?;
        let name = id_name(self.rt.alloc(), id.get())?;
        let path = self.path(queue.as_str(), name.as_str())?;
        if look(&self.rt, path.as_str())?.is_none() {
            return Ok(());
        }
        self.note(queue.as_str(), id.get())?;
        remove(&self.rt, path.as_str())
    }

    // Notes the number of a message that is to be deleted, where it may be the greatest, so that no later one has it again.
    fn note(&self, queue: &str, id: u64) -> Result<(), FolderFault> {
        if id <= self.noted(queue)? {
            return Ok(());
        }
        let behind = id_name(self.rt.alloc(), id.saturating_add(1))?;
        let path = self.path(queue, behind.as_str())?;
        if id < u64::MAX && look(&self.rt, path.as_str())?.is_some() {
            return Ok(());
        }
        let last = self.path(queue, LAST)?;
        write_over(&self.rt, last.as_str(), &id.to_be_bytes())
    }

    // How a lock stands, by the name of its file. One that is empty was made by a process that came no further, or it lost what was
    // written at a power failure, which nobody outlived who had a lease.
    fn hold_of(&self, lock: &str) -> Result<Hold, FolderFault> {
        match self.read(LOCKS, lock)? {
            Some(bytes) if !bytes.is_empty() => {
                hold_in(bytes.as_slice()).ok_or(FolderFault::Failed)
            }
            _ => Ok(Hold {
                generation: 0,
                until: 0,
            }),
        }
    }

    // Writes how a lock stands.
    fn set_hold(&self, lock: &str, hold: Hold) -> Result<(), FolderFault> {
        let bytes = hold_bytes(self.rt.alloc(), hold)?;
        let path = self.path(LOCKS, lock)?;
        write_over(&self.rt, path.as_str(), bytes.as_slice())
    }

    /// Takes a lock for some ticks, where it is free now. Where it was not given back, a put of its holder may not be flushed yet.
    pub fn take(&self, held: &Held, lock: &Lock, now: u64, ticks: u64) -> Result<Grant, FolderFault>
        ensures { (l : Claim) → result ≡ Ok (Grant.Given l) → l.lock ≡ lock.now }
    {
        let name = lock_of(self.rt.alloc(), *lock)?;
        let old = self.hold_of(name.as_str())?;
        if is_held(now, old.until) {
            return Ok(Grant::Held(old.until));
        }
        if old.until > 0 {
            let path = self.path(OBJECTS, "")?;
            flush_names(&self.rt, path.as_str())?;
        }
        let generation = old.generation.checked_add(1).ok_or(FolderFault::Failed)?;
        let until = lease_end(now, ticks);
        self.set_hold(name.as_str(), Hold { generation, until })?;
        Ok(Grant::Given(Lease::given(*lock, generation, until)))
    }

    /// Failed where the lease's lock was given to another since.
    pub fn must_be_of(&self, lease: &Lease) -> Result<(), FolderFault> {
        let name = lock_of(self.rt.alloc(), lease.lock())?;
        let hold = self.hold_of(name.as_str())?;
        if was_given(hold, lease) {
            Ok(())
        } else {
            Err(FolderFault::Failed)
        }
    }

    /// Moves the end of the lock of a lease that it was given to last.
    pub fn move_end(&self, _held: &Held, lease: &Lease, until: u64) -> Result<(), FolderFault> {
        let name = lock_of(self.rt.alloc(), lease.lock())?;
        let generation = lease.generation();
        self.set_hold(name.as_str(), Hold { generation, until })
    }

    /// Gives a lock back. Where it was given to another since, the lease is to be over.
    pub fn release(&self, held: &Held, lease: &Lease, now: u64) -> Result<(), FolderFault> {
        let name = lock_of(self.rt.alloc(), lease.lock())?;
        if was_given(self.hold_of(name.as_str())?, lease) {
            return self.move_end(held, lease, 0);
        }
        if lease.end() <= now {
            Ok(())
        } else {
            Err(FolderFault::Failed)
        }
    }
}

// The page of a tree whose file has this name; none for another name.
fn page_in(alloc: Global, tree: TreeId, name: &str) -> Result<Option<PageId>, FolderFault> {
    match page_of(alloc, tree, name) {
        Ok(page) => Ok(Some(page)),
        Err(NameFault::NotOurs) => Ok(None),
        Err(NameFault::Memory) => Err(FolderFault::Memory),
    }
}
