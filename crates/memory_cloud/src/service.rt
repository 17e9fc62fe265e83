ghost use Rattle.std.specs.Prelude.{◌≡◌, ◌≢◌, Some, Err, IfOk};
ghost use Rattle.std.specs.Option.{option_copied};
ghost use Rattle.cloud_trait.specs.Answers.{got_answer, held_got, done_answer, held_done, held_listed, sent_answer, received_answer, taken_answer, renewal};
ghost use Rattle.cloud_trait.specs.Ask.{Get, GetHeld, PutHeld, ListHeld, RemoveHeld, Send, Receive, Delete, Take, Renew, Release};
ghost use Rattle.cloud_trait.specs.State.{CloudState};
ghost use Rattle.cloud_trait.specs.Weather.{Makes};
ghost use Rattle.cloud_trait.specs.Made.{MakesGet, MakesGetHeld, MakesListHeld, MakesRemoveHeld, MakesSend, MakesReceive, MakesDelete, MakesTake, MakesRenew, SetsLease, MakesRelease};
ghost use Rattle.cloud_trait.specs.Bench.{Looks, IsNoCall, IsShown, IsShownToHave, SetsWish, HasWaited, TellsNewest, TellsHaving, TellsCount, TellsBacklog};
ghost use Rattle.cloud_trait.specs.declared.fault.CloudFault.{CloudFault};
ghost use Rattle.memory_cloud.specs.Memory.{state_of, is_planted, told_state, seen_of, next_mood, CountsCall, MakesNoCall, Obeys, begun, waited};
ghost use Rattle.memory_cloud.specs.Outcome.{lease_in};

use crate::memory::MemoryCloud;
use crate::{copies, objects, queues};
use cloud_trait::cloud::{Bench, Cloud};
use cloud_trait::fault::{CloudFault, HeldFault};
use cloud_trait::grant::Grant;
use cloud_trait::lease::Lease;
use cloud_trait::message::Message;
use cloud_trait::who::Who;
use db_base::blob::Blob;
use db_base::ids::{MsgId, PageId, TreeId};
use db_base::names::{Lock, ObjName, QueueName};
use db_base::wish::Wish;

impl Cloud for MemoryCloud {
    ghost seen = { seen_of };

    fn now(&self) -> u64
        ensures told { (s : CloudState) → told_state self.now ≡ Some s → result ≡ s.now }
        ensures clock { result ≡ (state_of self.now).now }
    {
        self.store.clock
    }

    fn get(&mut self, who: Who, name: ObjName) -> Result<Option<Blob>, CloudFault>
        ensures made { MakesGet who name result (seen_of self.old) (seen_of self.new) }
        ensures obeys { Obeys who (Get name) (got_answer result) self.old self.new }
        ensures counted { CountsCall self.old self.new }
    {
        let mood = self.begin(who);
        self.store.get_begun(mood, &name)
    }

    fn get_held(
        &mut self,
        who: Who,
        name: ObjName,
        lease: &Lease,
    ) -> Result<Option<Blob>, HeldFault>
        ensures made { MakesGetHeld who name lease.now result (seen_of self.old) (seen_of self.new) }
        ensures obeys { Obeys who (GetHeld name lease.now) (held_got result) self.old self.new }
        ensures counted { CountsCall self.old self.new }
    {
        let mood = self.begin(who);
        self.store.get_held_begun(mood, &name, lease)
    }

    fn put_held(
        &mut self,
        who: Who,
        name: ObjName,
        bytes: &[u8],
        first: &Lease,
        second: Option<&Lease>,
    ) -> Result<(), HeldFault>
        ensures made { Makes who (PutHeld name bytes.now first.now (option_copied second.entry)) (held_done result) (seen_of self.old) (seen_of self.new) }
        ensures obeys { Obeys who (PutHeld name bytes.now first.now (option_copied second.entry)) (held_done result) self.old self.new }
        ensures counted { CountsCall self.old self.new }
    {
        let mood = self.begin(who);
        self.store
            .put_held_begun(mood, who, &name, bytes, first, second)
    }

    fn list_held(&mut self, who: Who, tree: TreeId, lease: &Lease) -> Result<Vec<PageId>, HeldFault>
        ensures made { MakesListHeld who tree lease.now result (seen_of self.old) (seen_of self.new) }
        ensures obeys { Obeys who (ListHeld tree lease.now) (held_listed result) self.old self.new }
        ensures counted { CountsCall self.old self.new }
    {
        let mood = self.begin(who);
        self.store.list_held_begun(mood, tree, lease)
    }

    fn remove_held(&mut self, who: Who, name: ObjName, lease: &Lease) -> Result<(), HeldFault>
        ensures made { MakesRemoveHeld who name lease.now result (seen_of self.old) (seen_of self.new) }
        ensures obeys { Obeys who (RemoveHeld name lease.now) (held_done result) self.old self.new }
        ensures counted { CountsCall self.old self.new }
    {
        let mood = self.begin(who);
        self.store.remove_held_begun(mood, who, &name, lease)
    }

    fn send(&mut self, who: Who, queue: QueueName, bytes: &[u8]) -> Result<MsgId, CloudFault>
        ensures made { MakesSend who queue bytes.now result (seen_of self.old) (seen_of self.new) }
        ensures obeys { Obeys who (Send queue bytes.now) (sent_answer result) self.old self.new }
        ensures counted { CountsCall self.old self.new }
    {
        let mood = self.begin(who);
        self.store.send_begun(mood, who, &queue, bytes)
    }

    fn receive(&mut self, who: Who, queue: QueueName, max: u16) -> Result<Vec<Message>, CloudFault>
        ensures made { MakesReceive who queue max result (seen_of self.old) (seen_of self.new) }
        ensures obeys { Obeys who (Receive queue max) (received_answer result) self.old self.new }
        ensures counted { CountsCall self.old self.new }
    {
        let mood = self.begin(who);
        self.store.receive_begun(mood, &queue, max)
    }

    fn delete(&mut self, who: Who, queue: QueueName, id: MsgId) -> Result<(), CloudFault>
        ensures made { MakesDelete who queue id result (seen_of self.old) (seen_of self.new) }
        ensures obeys { Obeys who (Delete queue id) (done_answer result) self.old self.new }
        ensures counted { CountsCall self.old self.new }
        ensures no_memory { result ≡ Err CloudFault.Memory → ⊥ }
    {
        let mood = self.begin(who);
        self.store.delete_begun(mood, &queue, id)
    }

    fn take(&mut self, who: Who, lock: Lock, ticks: u64) -> Result<Grant, CloudFault>
        ensures made { MakesTake who lock ticks result (seen_of self.old) (seen_of self.new) }
        ensures obeys { Obeys who (Take lock ticks) (taken_answer result) self.old self.new }
        ensures counted { CountsCall self.old self.new }
    {
        let mood = self.begin(who);
        self.store.take_begun(mood, &lock, ticks)
    }

    fn renew(&mut self, who: Who, lease: &mut Lease, ticks: u64) -> Result<(), HeldFault>
        ensures made { MakesRenew who ticks (lease.old, lease.new) result (seen_of self.old) (seen_of self.new) }
        ensures lease { SetsLease who ticks (lease.old, lease.new) result (seen_of self.old) (seen_of self.new) }
        ensures leased { lease.new ≡ lease_in (next_mood self.old) lease.old ticks (begun who self.old) }
        ensures obeys { Obeys who (Renew lease.old ticks) (renewal lease.new result) self.old self.new }
        ensures counted { CountsCall self.old self.new }
        ensures no_memory { result ≡ Err HeldFault.Memory → ⊥ }
    {
        let mood = self.begin(who);
        self.store.renew_begun(mood, lease, ticks)
    }

    fn release(&mut self, who: Who, lease: Lease) -> Result<(), CloudFault>
        ensures made { MakesRelease who lease result (seen_of self.old) (seen_of self.new) }
        ensures obeys { Obeys who (Release lease) (done_answer result) self.old self.new }
        ensures counted { CountsCall self.old self.new }
        ensures no_memory { result ≡ Err CloudFault.Memory → ⊥ }
    {
        let mood = self.begin(who);
        self.store.release_begun(mood, lease)
    }
}

impl Bench for MemoryCloud {
    fn wish(&mut self, wish: Wish)
        ensures no_call { IsNoCall (seen_of self.old) (seen_of self.new) }
        ensures set { SetsWish wish (seen_of self.old) (seen_of self.new) }
        ensures call { MakesNoCall self.old self.new }
        ensures planted { is_planted self.new ≡ is_planted self.old }
    {
        self.store.wish = wish;
    }

    fn wait(&mut self, ticks: u64)
        ensures no_call { IsNoCall (seen_of self.old) (seen_of self.new) }
        ensures waited { HasWaited ticks (seen_of self.old) (seen_of self.new) }
        ensures exactly { state_of self.new ≡ waited ticks (state_of self.old) }
        ensures call { MakesNoCall self.old self.new }
        ensures planted { is_planted self.new ≡ is_planted self.old }
    {
        self.store.clock = self.store.clock.saturating_add(ticks);
        self.store.waits = self.store.waits.saturating_add(1);
    }

    fn peek(&mut self, name: ObjName) -> Result<Option<Blob>, CloudFault>
        ensures looks { Looks result (seen_of self.old) (seen_of self.new) }
        ensures newest { TellsNewest result (seen_of self.old) name }
        ensures shown { IfOk result (IsShown (seen_of self.old) name) }
        ensures call { MakesNoCall self.old self.new }
        ensures planted { is_planted self.new ≡ is_planted self.old }
    {
        match copies::copy_newest(
            self.store.alloc,
            objects::versions(&self.store.objects, &name),
        ) {
            Ok(bytes) => Ok(bytes),
            Err(_) => Err(CloudFault::Memory),
        }
    }

    fn has(&mut self, name: ObjName, bytes: &[u8]) -> Result<bool, CloudFault>
        ensures looks { Looks result (seen_of self.old) (seen_of self.new) }
        ensures newest { TellsHaving result (seen_of self.old) name bytes.now }
        ensures shown { IfOk result (IsShownToHave (seen_of self.old) name bytes.now) }
        ensures no_memory { (e : CloudFault) → result ≢ Err e }
        ensures call { MakesNoCall self.old self.new }
        ensures planted { is_planted self.new ≡ is_planted self.old }
    {
        let versions = objects::versions(&self.store.objects, &name);
        Ok(copies::newest_has(versions, bytes))
    }

    fn versions(&mut self, name: ObjName) -> Result<u64, CloudFault>
        ensures looks { Looks result (seen_of self.old) (seen_of self.new) }
        ensures count { TellsCount result (seen_of self.old) name }
        ensures no_memory { (e : CloudFault) → result ≢ Err e }
        ensures call { MakesNoCall self.old self.new }
        ensures planted { is_planted self.new ≡ is_planted self.old }
    {
        Ok(objects::versions(&self.store.objects, &name).len() as u64)
    }

    fn backlog(&mut self, queue: QueueName) -> Result<u64, CloudFault>
        ensures looks { Looks result (seen_of self.old) (seen_of self.new) }
        ensures length { TellsBacklog result (seen_of self.old) queue }
        ensures no_memory { (e : CloudFault) → result ≢ Err e }
        ensures call { MakesNoCall self.old self.new }
        ensures planted { is_planted self.new ≡ is_planted self.old }
    {
        Ok(queues::count_messages(&self.store.queues, &queue))
    }
}
