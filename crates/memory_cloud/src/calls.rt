ghost use Rattle.std.specs.Prelude.{◌≡◌, ◌<◌, ℕ, Some, Err, OnOk, OnErr, IfOk, IsTrue, true};
ghost use Rattle.std.specs.Option.{option_copied};
ghost use Rattle.cloud_trait.specs.State.{greatest, renewed, end_after};
ghost use Rattle.cloud_trait.specs.Claim.{extended};
ghost use Rattle.cloud_trait.specs.Answers.{got_answer, held_got, done_answer, held_done, held_listed, sent_answer, received_answer, taken_answer, renewal};
ghost use Rattle.cloud_trait.specs.Ask.{Get, GetHeld, PutHeld, ListHeld, RemoveHeld, Send, Receive, Delete, Take, Renew, Release};
ghost use Rattle.memory_cloud.specs.declared.mood.Mood.TheVariants.{Plain, Lost};
ghost use Rattle.memory_cloud.specs.Memory.{store_state, store_counts, Meets, MeetsBy};
ghost use Rattle.memory_cloud.specs.Mood.{HasRoom};
ghost use Rattle.memory_cloud.specs.Outcome.{end_if_over, end_of_first, is_free, is_spent, is_spent_in, given_if_free, lease_if_free, lease_in};

use crate::mood::Mood;
use crate::store::Store;
use crate::{copies, locks, objects, queues};
use cloud_trait::fault::{CloudFault, HeldFault};
use cloud_trait::grant::Grant;
use cloud_trait::lease::Lease;
use cloud_trait::message::Message;
use cloud_trait::state::Hold;
use cloud_trait::who::Who;
use db_base::blob::Blob;
use db_base::ids::{MsgId, PageId, TreeId};
use db_base::names::{Lock, ObjName, QueueName};
use std::alloc::AllocError;

// The end of the lease, where it is over.
fn end_if_over(now: u64, lease: &Lease) -> Option<u64>
    ensures { result ≡ end_if_over now lease.now }
{
    if lease.end() <= now {
        Some(lease.end())
    } else {
        None
    }
}

// The end of the first lease that is over.
fn end_of_first(now: u64, first: &Lease, second: Option<&Lease>) -> Option<u64>
    ensures { result ≡ end_of_first now first.now (option_copied second.entry) }
{
    if first.end() <= now {
        return Some(first.end());
    }
    match second {
        Some(second) => end_if_over(now, second),
        None => None,
    }
}

// Whether a lock can be given.
fn is_free(hold: Hold, now: u64) -> bool
    ensures value { result ≡ is_free hold now }
    ensures room { IsTrue result → hold.generation < greatest }
{
    hold.until <= now && hold.generation < u64::MAX
}

// Whether a lock is not held, and its generation cannot rise.
fn is_spent(hold: Hold, now: u64) -> bool
    ensures { result ≡ is_spent hold now }
{
    hold.until <= now && hold.generation == u64::MAX
}

impl Store {
    // A get that has begun.
    pub fn get_begun(&mut self, mood: Mood, name: &ObjName) -> Result<Option<Blob>, CloudFault>
        requires { HasRoom mood (store_counts self.old) }
        ensures { Meets mood (Get name.now) (got_answer result) self.old self.new }
    {
        match mood {
            Mood::Fail | Mood::Lost => {
                self.fault();
                Err(CloudFault::Failed)
            }
            Mood::Old(n) => self.get_old(name, n),
            Mood::Plain | Mood::Hide | Mood::Give => self.get_newest(name),
        }
    }

    #[inline(never)]
    fn get_old(&mut self, name: &ObjName, n: u64) -> Result<Option<Blob>, CloudFault>
        requires { (store_counts self.old).stale < greatest }
        ensures { Meets (Mood.Old n) (Get name.now) (got_answer result) self.old self.new }
    {
        match copies::copy_old(self.alloc, objects::versions(&self.objects, name), n) {
            Ok(bytes) => {
                self.stain();
                Ok(bytes)
            }
            Err(_) => Err(CloudFault::Memory),
        }
    }

    fn get_newest(&self, name: &ObjName) -> Result<Option<Blob>, CloudFault>
        ensures { Meets Plain (Get name.now) (got_answer result) self.now self.now }
    {
        Ok(copies::copy_newest(self.alloc, objects::versions(&self.objects, name))?)
    }

    // A get under a lease that has begun.
    pub fn get_held_begun(
        &mut self,
        mood: Mood,
        name: &ObjName,
        lease: &Lease,
    ) -> Result<Option<Blob>, HeldFault>
        requires { HasRoom mood (store_counts self.old) }
        ensures { Meets mood (GetHeld name.now lease.now) (held_got result) self.old self.new }
    {
        match mood {
            Mood::Fail => {
                self.fault();
                Err(HeldFault::Failed)
            }
            Mood::Lost => self.get_held_lost(name, lease),
            Mood::Plain | Mood::Hide | Mood::Old(_) | Mood::Give => self.get_held_plain(
                name, lease,
            ),
        }
    }

    #[inline(never)]
    fn get_held_lost(&mut self, name: &ObjName, lease: &Lease) -> Result<Option<Blob>, HeldFault>
        requires { (store_counts self.old).faults < greatest }
        ensures { Meets Lost (GetHeld name.now lease.now) (held_got result) self.old self.new }
    {
        let now = self.clock;
        if let Some(end) = end_if_over(now, lease) {
            return Err(HeldFault::Late { end, now });
        }
        self.fault();
        Err(HeldFault::Failed)
    }

    fn get_held_plain(&self, name: &ObjName, lease: &Lease) -> Result<Option<Blob>, HeldFault>
        ensures { Meets Plain (GetHeld name.now lease.now) (held_got result) self.now self.now }
    {
        let now = self.clock;
        if let Some(end) = end_if_over(now, lease) {
            return Err(HeldFault::Late { end, now });
        }
        Ok(copies::copy_newest(self.alloc, objects::versions(&self.objects, name))?)
    }

    // A put that has begun.
    pub fn put_held_begun(
        &mut self,
        mood: Mood,
        who: Who,
        name: &ObjName,
        bytes: &[u8],
        first: &Lease,
        second: Option<&Lease>,
    ) -> Result<(), HeldFault>
        requires { HasRoom mood (store_counts self.old) }
        ensures { MeetsBy who mood (PutHeld name.now bytes.now first.now (option_copied second.entry)) (held_done result) self.old self.new }
    {
        match mood {
            Mood::Fail => {
                self.fault();
                Err(HeldFault::Failed)
            }
            Mood::Lost => self.put_held_lost(who, name, bytes, first, second),
            Mood::Plain | Mood::Hide | Mood::Old(_) | Mood::Give => self.put_held_plain(
                who, name, bytes, first, second,
            ),
        }
    }

    #[inline(never)]
    fn put_held_lost(
        &mut self,
        who: Who,
        name: &ObjName,
        bytes: &[u8],
        first: &Lease,
        second: Option<&Lease>,
    ) -> Result<(), HeldFault>
        requires { (store_counts self.old).faults < greatest }
        ensures { MeetsBy who Lost (PutHeld name.now bytes.now first.now (option_copied second.entry)) (held_done result) self.old self.new }
    {
        let now = self.clock;
        if let Some(end) = end_of_first(now, first, second) {
            return Err(HeldFault::Late { end, now });
        }
        self.land(who, name, bytes)?;
        self.fault();
        Err(HeldFault::Failed)
    }

    fn put_held_plain(
        &mut self,
        who: Who,
        name: &ObjName,
        bytes: &[u8],
        first: &Lease,
        second: Option<&Lease>,
    ) -> Result<(), HeldFault>
        ensures { MeetsBy who Plain (PutHeld name.now bytes.now first.now (option_copied second.entry)) (held_done result) self.old self.new }
    {
        let now = self.clock;
        if let Some(end) = end_of_first(now, first, second) {
            return Err(HeldFault::Late { end, now });
        }
        self.land(who, name, bytes)?;
        Ok(())
    }

    // A listing of a tree's pages under a lease that has begun.
    pub fn list_held_begun(
        &mut self,
        mood: Mood,
        tree: TreeId,
        lease: &Lease,
    ) -> Result<Vec<PageId>, HeldFault>
        requires { HasRoom mood (store_counts self.old) }
        ensures { Meets mood (ListHeld tree lease.now) (held_listed result) self.old self.new }
    {
        match mood {
            Mood::Fail => {
                self.fault();
                Err(HeldFault::Failed)
            }
            Mood::Lost => self.list_held_lost(tree, lease),
            Mood::Plain | Mood::Hide | Mood::Old(_) | Mood::Give => self.list_held_plain(
                tree, lease,
            ),
        }
    }

    #[inline(never)]
    fn list_held_lost(&mut self, _tree: TreeId, lease: &Lease) -> Result<Vec<PageId>, HeldFault>
        requires { (store_counts self.old).faults < greatest }
        ensures { Meets Lost (ListHeld _tree lease.now) (held_listed result) self.old self.new }
    {
        let now = self.clock;
        if let Some(end) = end_if_over(now, lease) {
            return Err(HeldFault::Late { end, now });
        }
        self.fault();
        Err(HeldFault::Failed)
    }

    fn list_held_plain(&self, tree: TreeId, lease: &Lease) -> Result<Vec<PageId>, HeldFault>
        ensures { Meets Plain (ListHeld tree lease.now) (held_listed result) self.now self.now }
    {
        let now = self.clock;
        if let Some(end) = end_if_over(now, lease) {
            return Err(HeldFault::Late { end, now });
        }
        Ok(self.list(tree)?)
    }

    // A removal that has begun.
    pub fn remove_held_begun(
        &mut self,
        mood: Mood,
        who: Who,
        name: &ObjName,
        lease: &Lease,
    ) -> Result<(), HeldFault>
        requires { HasRoom mood (store_counts self.old) }
        ensures { MeetsBy who mood (RemoveHeld name.now lease.now) (held_done result) self.old self.new }
    {
        match mood {
            Mood::Fail => {
                self.fault();
                Err(HeldFault::Failed)
            }
            Mood::Lost => self.remove_held_lost(who, name, lease),
            Mood::Plain | Mood::Hide | Mood::Old(_) | Mood::Give => self.remove_held_plain(
                who, name, lease,
            ),
        }
    }

    #[inline(never)]
    fn remove_held_lost(&mut self, who: Who, name: &ObjName, lease: &Lease) -> Result<(), HeldFault>
        requires { (store_counts self.old).faults < greatest }
        ensures { MeetsBy who Lost (RemoveHeld name.now lease.now) (held_done result) self.old self.new }
    {
        let now = self.clock;
        if let Some(end) = end_if_over(now, lease) {
            return Err(HeldFault::Late { end, now });
        }
        self.remove(who, name)?;
        self.fault();
        Err(HeldFault::Failed)
    }

    fn remove_held_plain(
        &mut self,
        who: Who,
        name: &ObjName,
        lease: &Lease,
    ) -> Result<(), HeldFault>
        ensures { MeetsBy who Plain (RemoveHeld name.now lease.now) (held_done result) self.old self.new }
    {
        let now = self.clock;
        if let Some(end) = end_if_over(now, lease) {
            return Err(HeldFault::Late { end, now });
        }
        self.remove(who, name)?;
        Ok(())
    }

    // A send that has begun.
    pub fn send_begun(
        &mut self,
        mood: Mood,
        who: Who,
        queue: &QueueName,
        bytes: &[u8],
    ) -> Result<MsgId, CloudFault>
        requires { HasRoom mood (store_counts self.old) }
        ensures { MeetsBy who mood (Send queue.now bytes.now) (sent_answer result) self.old self.new }
    {
        match mood {
            Mood::Fail => {
                self.fault();
                Err(CloudFault::Failed)
            }
            Mood::Lost => self.send_lost(who, queue, bytes),
            Mood::Plain | Mood::Hide | Mood::Old(_) | Mood::Give => self.send_plain(
                who, queue, bytes,
            ),
        }
    }

    #[inline(never)]
    fn send_lost(&mut self, who: Who, queue: &QueueName, bytes: &[u8]) -> Result<MsgId, CloudFault>
        requires { (store_counts self.old).faults < greatest }
        ensures { MeetsBy who Lost (Send queue.now bytes.now) (sent_answer result) self.old self.new }
    {
        let _id = self.post(who, queue, bytes)?;
        self.fault();
        Err(CloudFault::Failed)
    }

    fn send_plain(&mut self, who: Who, queue: &QueueName, bytes: &[u8]) -> Result<MsgId, CloudFault>
        ensures { MeetsBy who Plain (Send queue.now bytes.now) (sent_answer result) self.old self.new }
    {
        let id = self.post(who, queue, bytes)?;
        Ok(id)
    }

    // A receive that has begun.
    pub fn receive_begun(
        &mut self,
        mood: Mood,
        queue: &QueueName,
        max: u16,
    ) -> Result<Vec<Message>, CloudFault>
        requires { HasRoom mood (store_counts self.old) }
        ensures { Meets mood (Receive queue.now max) (received_answer result) self.old self.new }
    {
        match mood {
            Mood::Fail | Mood::Lost => {
                self.fault();
                Err(CloudFault::Failed)
            }
            Mood::Hide => {
                self.withhold();
                Ok(Vec::new(self.alloc))
            }
            Mood::Give => self.receive_chosen(queue, max),
            Mood::Plain | Mood::Old(_) => self.receive_plain(queue, max),
        }
    }

    #[inline(never)]
    fn receive_chosen(&mut self, queue: &QueueName, max: u16) -> Result<Vec<Message>, CloudFault>
        requires { (store_counts self.old).withheld < greatest }
        ensures { Meets Mood.Give (Receive queue.now max) (received_answer result) self.old self.new }
    {
        let messages = queues::messages(&self.queues, queue);
        match copies::copy_chosen(self.alloc, messages, self.positions(), max as usize) {
            Ok(chosen) => {
                self.withhold();
                Ok(chosen)
            }
            Err(_) => Err(CloudFault::Memory),
        }
    }

    fn receive_plain(&self, queue: &QueueName, max: u16) -> Result<Vec<Message>, CloudFault>
        ensures { Meets Plain (Receive queue.now max) (received_answer result) self.now self.now }
    {
        Ok(queues::first_messages(self.alloc, &self.queues, queue, max as usize)?)
    }

    // A deletion that has begun. Takes no memory.
    pub fn delete_begun(
        &mut self,
        mood: Mood,
        queue: &QueueName,
        id: MsgId,
    ) -> Result<(), CloudFault>
        requires { HasRoom mood (store_counts self.old) }
        ensures obeys { Meets mood (Delete queue.now id) (done_answer result) self.old self.new }
        ensures no_memory { result ≡ Err CloudFault.Memory → ⊥ }
    {
        match mood {
            Mood::Fail => {
                self.fault();
                Err(CloudFault::Failed)
            }
            Mood::Lost => {
                self.mark(queue, id);
                self.fault();
                Err(CloudFault::Failed)
            }
            Mood::Plain | Mood::Hide | Mood::Old(_) | Mood::Give => {
                self.mark(queue, id);
                Ok(())
            }
        }
    }

    // A take that has begun.
    pub fn take_begun(&mut self, mood: Mood, lock: &Lock, ticks: u64) -> Result<Grant, CloudFault>
        requires { HasRoom mood (store_counts self.old) }
        ensures { Meets mood (Take lock.now ticks) (taken_answer result) self.old self.new }
    {
        match mood {
            Mood::Fail => {
                self.fault();
                Err(CloudFault::Failed)
            }
            Mood::Hide => {
                self.withhold();
                Ok(Grant::Held(self.clock))
            }
            Mood::Lost => self.take_lost(lock, ticks),
            Mood::Plain | Mood::Old(_) | Mood::Give => self.take_plain(lock, ticks),
        }
    }

    #[inline(never)]
    fn take_lost(&mut self, lock: &Lock, ticks: u64) -> Result<Grant, CloudFault>
        requires { (store_counts self.old).faults < greatest }
        ensures { Meets Lost (Take lock.now ticks) (taken_answer result) self.old self.new }
    {
        match self.give_if_free(lock, ticks) {
            Ok(_) => {
                self.fault();
                Err(CloudFault::Failed)
            }
            Err(_) => Err(CloudFault::Memory),
        }
    }

    fn take_plain(&mut self, lock: &Lock, ticks: u64) -> Result<Grant, CloudFault>
        ensures { Meets Plain (Take lock.now ticks) (taken_answer result) self.old self.new }
    {
        match self.give_again(lock, ticks) {
            Some(lease) => Ok(Grant::Given(lease)),
            None => self.take_anew(lock, ticks),
        }
    }

    // A take of a lock that was never taken, or is not free.
    #[inline(never)]
    fn take_anew(&mut self, lock: &Lock, ticks: u64) -> Result<Grant, CloudFault>
        ensures { Meets Plain (Take lock.now ticks) (taken_answer result) self.old self.new }
    {
        let hold = locks::hold(&self.locks, lock);
        if is_spent(hold, self.clock) {
            return self.take_spent(lock, hold.until);
        }
        match self.give_if_free(lock, ticks) {
            Ok(Some(lease)) => Ok(Grant::Given(lease)),
            Ok(None) => Ok(Grant::Held(hold.until)),
            Err(_) => Err(CloudFault::Memory),
        }
    }

    // A take of a lock whose generation cannot rise.
    fn take_spent(&mut self, lock: &Lock, until: u64) -> Result<Grant, CloudFault>
        requires spent { is_spent_in (store_state self.old) lock.now ≡ true }
        requires until { until ≡ ((store_state self.old).locks lock.now).until }
        ensures { (ticks : ℕ) → Meets Plain (Take lock.now ticks) (taken_answer result) self.old self.new }
    {
        if self.withheld == u64::MAX {
            return Err(CloudFault::Memory);
        }
        self.withhold();
        Ok(Grant::Held(until))
    }

    // Gives a lock anew, where it is free.
    fn give_if_free(&mut self, lock: &Lock, ticks: u64) -> Result<Option<Lease>, AllocError>
        ensures ok { OnOk result (store_state self.new ≡ given_if_free lock.now ticks (store_state self.old)) }
        ensures lease { IfOk result (λ l. l ≡ lease_if_free lock.now ticks (store_state self.old)) }
        ensures err { OnErr result (store_state self.new ≡ store_state self.old) }
        ensures counts { store_counts self.new ≡ store_counts self.old }
    {
        let hold = locks::hold(&self.locks, lock);
        if !is_free(hold, self.clock) {
            return Ok(None);
        }
        let next = Hold {
            generation: hold.generation + 1,
            until: self.clock.saturating_add(ticks),
        };
        self.hold(lock, next)?;
        Ok(Some(Lease::given(*lock, next.generation, next.until)))
    }

    // A renewal that has begun. Takes no memory.
    pub fn renew_begun(
        &mut self,
        mood: Mood,
        lease: &mut Lease,
        ticks: u64,
    ) -> Result<(), HeldFault>
        requires { HasRoom mood (store_counts self.old) }
        ensures obeys { Meets mood (Renew lease.old ticks) (renewal lease.new result) self.old self.new }
        ensures lease { lease.new ≡ lease_in mood lease.old ticks (store_state self.old) }
        ensures no_memory { result ≡ Err HeldFault.Memory → ⊥ }
    {
        match mood {
            Mood::Fail => {
                self.fault();
                Err(HeldFault::Failed)
            }
            Mood::Lost => self.renew_lost(lease, ticks),
            Mood::Plain | Mood::Hide | Mood::Old(_) | Mood::Give => self.renew_plain(lease, ticks),
        }
    }

    #[inline(never)]
    fn renew_lost(&mut self, lease: &mut Lease, ticks: u64) -> Result<(), HeldFault>
        requires { (store_counts self.old).faults < greatest }
        ensures obeys { Meets Lost (Renew lease.old ticks) (renewal lease.new result) self.old self.new }
        ensures lease { lease.new ≡ lease_in Mood.Lost lease.old ticks (store_state self.old) }
        ensures no_memory { result ≡ Err HeldFault.Memory → ⊥ }
    {
        let now = self.clock;
        if let Some(end) = end_if_over(now, lease) {
            return Err(HeldFault::Late { end, now });
        }
        self.lengthen(lease, ticks);
        self.fault();
        Err(HeldFault::Failed)
    }

    fn renew_plain(&mut self, lease: &mut Lease, ticks: u64) -> Result<(), HeldFault>
        ensures obeys { Meets Plain (Renew lease.old ticks) (renewal lease.new result) self.old self.new }
        ensures lease { lease.new ≡ lease_in Mood.Plain lease.old ticks (store_state self.old) }
        ensures no_memory { result ≡ Err HeldFault.Memory → ⊥ }
    {
        let now = self.clock;
        if let Some(end) = end_if_over(now, lease) {
            return Err(HeldFault::Late { end, now });
        }
        self.lengthen(lease, ticks);
        Ok(())
    }

    // Moves the end of a lease and of its lock to some ticks from now.
    fn lengthen(&mut self, lease: &mut Lease, ticks: u64)
        ensures state { store_state self.new ≡ renewed lease.old ticks (store_state self.old) }
        ensures lease { lease.new ≡ extended lease.old (end_after (store_state self.old).now ticks) }
        ensures counts { store_counts self.new ≡ store_counts self.old }
    {
        let until = self.clock.saturating_add(ticks);
        self.move_lock(lease, until);
        lease.extend(until);
    }

    // A release that has begun. Takes no memory.
    pub fn release_begun(&mut self, mood: Mood, lease: Lease) -> Result<(), CloudFault>
        requires { HasRoom mood (store_counts self.old) }
        ensures obeys { Meets mood (Release lease) (done_answer result) self.old self.new }
        ensures no_memory { result ≡ Err CloudFault.Memory → ⊥ }
    {
        match mood {
            Mood::Fail => {
                self.fault();
                Err(CloudFault::Failed)
            }
            Mood::Lost => {
                self.end_lock(&lease);
                self.fault();
                Err(CloudFault::Failed)
            }
            Mood::Plain | Mood::Hide | Mood::Old(_) | Mood::Give => {
                self.end_lock(&lease);
                Ok(())
            }
        }
    }
}
