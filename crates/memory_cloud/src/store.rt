ghost use Rattle.std.specs.Prelude.{◌≡◌, ◌+◌, ◌<◌, ◌∷◌, [], true, OnOk, OnErr, IfOk, IfSome, IfNone, IsTrue, length};
ghost use Rattle.std.specs.Option.{option_copied};
ghost use Rattle.memory_cloud.specs.Outcome.{positions_in};

use crate::kept::Kept;
use crate::locks::Locks;
use crate::objects::Objects;
use crate::queues::Queues;
use crate::{locks, objects, queues};
use cloud_trait::lease::Lease;
use cloud_trait::state::{Hold, Landing, Posted, Site};
use cloud_trait::who::Who;
use db_base::blob::Blob;
use db_base::ids::{MsgId, PageId, TreeId};
use db_base::names::{Lock, ObjName, QueueName};
use db_base::wish::Wish;
use std::alloc::{AllocError, Global};
use std::collections::BTreeMap;
use std::mem;

/// The newest service call: who made it, and under which wish.
#[derive(Debug, Drop)]
pub struct Last {
    /// Who made it.
    pub who: Who,
    /// The wish that was set for it.
    pub wish: Wish,
}

/// What a cloud in memory holds: all that it tells of itself.
pub struct Store {
    pub alloc: Global,
    pub objects: Objects,
    pub queues: Queues,
    pub locks: Locks,
    pub trace: Vec<Landing>,
    pub clock: u64,
    pub waits: u64,
    pub wish: Wish,
    pub last: Option<Last>,
    pub faults: u64,
    pub withheld: u64,
    pub stale: u64,
}

impl Drop for Store {
    fn drop(self) {
        let Store {
            alloc: _,
            objects: _,
            queues: _,
            locks: _,
            trace: _,
            clock: _,
            waits: _,
            wish: _,
            last: _,
            faults: _,
            withheld: _,
            stale: _,
        } = self;
    }
}

impl Store {
    ghost use Rattle.db_base.specs.declared.wish.Wish.TheVariants.{Plain};
    ghost use Rattle.cloud_trait.specs.State.{IsEmptyCloud, called, stored, landed, removed, sent, deleted, held_so, taken, lease_given, moved, released, greatest};
    ghost use Rattle.cloud_trait.specs.Listing.{IsListing};
    ghost use Rattle.memory_cloud.specs.Outcome.{one_fault, one_withheld, one_stale, is_free, positions_of};
    ghost use Rattle.memory_cloud.specs.Memory.{store_state, store_counts};

    /// Nothing, at clock 0. Takes no memory.
    pub fn new(alloc: Global) -> Store
        ensures empty { IsEmptyCloud (store_state result) }
        ensures clock { (store_state result).now ≡ 0 }
        ensures waits { (store_state result).waits ≡ 0 }
        ensures wish { (store_state result).wish ≡ Plain }
        ensures last { (store_state result).last ≡ None }
        ensures counts { store_counts result ≡ record { faults = 0; withheld = 0; stale = 0; dark = 0 } }
    {
        Store {
            alloc,
            objects: BTreeMap::new(alloc),
            queues: BTreeMap::new(alloc),
            locks: Locks::new(alloc),
            trace: Vec::new(alloc),
            clock: 0,
            waits: 0,
            wish: Wish::Plain,
            last: None,
            faults: 0,
            withheld: 0,
            stale: 0,
        }
    }

    /// A service call begins, and spends the wish. Where neither it nor the newest one has a wish, only the caller is written.
    #[inline]
    pub fn spend_wish(&mut self, who: Who)
        ensures state { store_state self.new ≡ called who (store_state self.old).now (store_state self.old) }
        ensures counts { store_counts self.new ≡ store_counts self.old }
    {
        if is_plain(&self.wish) {
            if let Some(last) = &mut self.last {
                if is_plain(&last.wish) {
                    last.who = who;
                    return;
                }
            }
        }
        self.spend_any_wish(who);
    }

    // A service call begins, and spends the wish, whatever it is.
    #[inline(never)]
    fn spend_any_wish(&mut self, who: Who)
        ensures state { store_state self.new ≡ called who (store_state self.old).now (store_state self.old) }
        ensures counts { store_counts self.new ≡ store_counts self.old }
    {
        let wish = mem::replace(&mut self.wish, Wish::Plain);
        self.last = Some(Last { who, wish });
    }

    /// Lands bytes as the newest version of an object.
    pub fn land(&mut self, who: Who, name: &ObjName, bytes: &[u8]) -> Result<(), AllocError>
        ensures ok { OnOk result (store_state self.new ≡ landed who name.now bytes.now (store_state self.old)) }
        ensures err { OnErr result (store_state self.new ≡ store_state self.old) }
        ensures counts { store_counts self.new ≡ store_counts self.old }
    {
        self.add(who, name, Some(bytes))
    }

    /// Lands a version without bytes as the newest of an object.
    pub fn remove(&mut self, who: Who, name: &ObjName) -> Result<(), AllocError>
        ensures ok { OnOk result (store_state self.new ≡ removed who name.now (store_state self.old)) }
        ensures err { OnErr result (store_state self.new ≡ store_state self.old) }
        ensures counts { store_counts self.new ≡ store_counts self.old }
    {
        self.add(who, name, None)
    }

    // Lands a version, with bytes or without, as the newest of an object.
    fn add(&mut self, who: Who, name: &ObjName, bytes: Option<&[u8]>) -> Result<(), AllocError>
        ensures ok { OnOk result (store_state self.new ≡ stored who name.now (option_copied bytes.entry) (store_state self.old)) }
        ensures err { OnErr result (store_state self.new ≡ store_state self.old) }
        ensures counts { store_counts self.new ≡ store_counts self.old }
    {
        let versions = objects::versions(&self.objects, name);
        let position = versions.len() as u64 + 1;
        let version = Kept::behind(self.alloc, versions, who, bytes)?;
        self.trace.reserve(1)?;
        objects::add_version(self.alloc, &mut self.objects, name, version)?;
        self.trace.push_reserved(Landing {
            who,
            site: Site::Object(*name),
            position,
        });
        Ok(())
    }

    /// The pages of a tree whose newest version has bytes, in ascending order. Fails for memory alone.
    pub fn list(&self, tree: TreeId) -> Result<Vec<PageId>, AllocError>
        ensures { IfOk result (λ v. IsListing (store_state self.now) tree v.items) }
    {
        objects::pages(self.alloc, &self.objects, tree)
    }

    /// Lands a message at the end of a queue, and gives its number.
    pub fn post(&mut self, who: Who, queue: &QueueName, bytes: &[u8]) -> Result<MsgId, AllocError>
        ensures ok { OnOk result (store_state self.new ≡ sent who queue.now bytes.now (store_state self.old)) }
        ensures id { IfOk result (λ id. id ≡ length ((store_state self.old).messages queue.now) + 1) }
        ensures err { OnErr result (store_state self.new ≡ store_state self.old) }
        ensures counts { store_counts self.new ≡ store_counts self.old }
    {
        let position = queues::messages(&self.queues, queue).len() as u64 + 1;
        let bytes = Blob::copy_of(self.alloc, bytes)?;
        self.trace.reserve(1)?;
        let message = Posted {
            who,
            bytes,
            deleted: false,
        };
        queues::add_message(self.alloc, &mut self.queues, queue, message)?;
        self.trace.push_reserved(Landing {
            who,
            site: Site::Queue(*queue),
            position,
        });
        Ok(MsgId::new(position))
    }

    /// Marks a message as deleted. Takes no memory.
    pub fn mark(&mut self, queue: &QueueName, id: MsgId)
        ensures state { store_state self.new ≡ deleted queue.now id (store_state self.old) }
        ensures counts { store_counts self.new ≡ store_counts self.old }
    {
        queues::mark_message(&mut self.queues, queue, id);
    }

    /// Sets how a lock stands.
    pub fn hold(&mut self, lock: &Lock, hold: Hold) -> Result<(), AllocError>
        ensures ok { OnOk result (store_state self.new ≡ held_so lock.now hold (store_state self.old)) }
        ensures err { OnErr result (store_state self.new ≡ store_state self.old) }
        ensures counts { store_counts self.new ≡ store_counts self.old }
    {
        locks::set_hold(&mut self.locks, lock, hold)?;
        Ok(())
    }

    /// Gives a lock that was taken before anew, where it is free: one look at it. Takes no memory.
    pub fn give_again(&mut self, lock: &Lock, ticks: u64) -> Option<Lease>
        ensures free { IfSome result (λ l. is_free ((store_state self.old).locks lock.now) (store_state self.old).now ≡ true) }
        ensures lease { IfSome result (λ l. l ≡ lease_given lock.now ticks (store_state self.old)) }
        ensures taken { IfSome result (λ l. store_state self.new ≡ taken lock.now ticks (store_state self.old)) }
        ensures none { IfNone result (store_state self.new ≡ store_state self.old) }
        ensures counts { store_counts self.new ≡ store_counts self.old }
    {
        let until = self.clock.saturating_add(ticks);
        match locks::give_again(&mut self.locks, lock, self.clock, until) {
            Some(hold) => Some(Lease::given(*lock, hold.generation, hold.until)),
            None => None,
        }
    }

    /// Moves the end of the lock of a lease, where the lease is of its generation. Takes no memory.
    pub fn move_lock(&mut self, lease: &Lease, until: u64)
        ensures state { store_state self.new ≡ moved lease.now until (store_state self.old) }
        ensures counts { store_counts self.new ≡ store_counts self.old }
    {
        let lock = lease.lock();
        locks::move_hold(&mut self.locks, &lock, lease.generation(), until);
    }

    /// Ends the lock of a lease that is not over, where the lease is of its generation. Takes no memory.
    pub fn end_lock(&mut self, lease: &Lease)
        ensures state { store_state self.new ≡ released lease.now (store_state self.old) }
        ensures counts { store_counts self.new ≡ store_counts self.old }
    {
        if self.clock < lease.end() {
            self.move_lock(lease, self.clock);
        }
    }

    /// Counts a failure.
    pub fn fault(&mut self)
        requires { (store_counts self.old).faults < greatest }
        ensures state { store_state self.new ≡ store_state self.old }
        ensures counts { store_counts self.new ≡ one_fault (store_counts self.old) }
    {
        self.faults += 1;
    }

    /// Counts something withheld.
    pub fn withhold(&mut self)
        requires { (store_counts self.old).withheld < greatest }
        ensures state { store_state self.new ≡ store_state self.old }
        ensures counts { store_counts self.new ≡ one_withheld (store_counts self.old) }
    {
        self.withheld += 1;
    }

    /// Counts a stale get.
    pub fn stain(&mut self)
        requires { (store_counts self.old).stale < greatest }
        ensures state { store_state self.new ≡ store_state self.old }
        ensures counts { store_counts self.new ≡ one_stale (store_counts self.old) }
    {
        self.stale += 1;
    }

    /// The positions that the wish of the newest call gives.
    pub fn positions(&self) -> &[u64]
        ensures { result.now ≡ positions_of (store_state self.now).last }
    {
        match &self.last {
            Some(last) => positions_in(&last.wish),
            None => &[],
        }
    }
}

/// Whether a wish leaves its call as it is.
#[inline]
pub fn is_plain(wish: &Wish) -> bool
    ensures { IsTrue result → wish.now ≡ Wish.Plain }
{
    match wish {
        Wish::Plain => true,
        _ => false,
    }
}

// The positions that a wish gives.
fn positions_in(wish: &Wish) -> &[u64]
    ensures { result.now ≡ positions_in wish.now }
{
    match wish {
        Wish::Give(positions) => positions.as_slice(),
        Wish::Plain => &[],
        Wish::Fail => &[],
        Wish::Lost => &[],
        Wish::Hide => &[],
        Wish::Old(_) => &[],
    }
}
