ghost use Rattle.std.specs.Prelude.{◌≡◌, [], None, Some, OnOk, OnErr, IfOk, IfErr, IsTrue, is_some};
ghost use Rattle.std.specs.Option.{option_copied};
ghost use Rattle.memory_cloud.specs.Memory.{planter};

use crate::mood::Mood;
use crate::store::{Store, is_plain};
use crate::{copies, objects, queues};
use cloud_trait::fault::CloudFault;
use cloud_trait::who::Who;
use db_base::ids::{MsgId, SessionNo};
use db_base::names::{ObjName, QueueName};
use db_base::wish::Wish;
use std::alloc::Global;

/// A cloud in memory. It obeys the wishes that are set, and tells its state until foreign bytes are planted in it.
pub struct MemoryCloud {
    pub(crate) store: Store,
    calls: u64,
    failing: Vec<u64>,
    planted: bool,
}

impl Drop for MemoryCloud {
    fn drop(self) {
        let MemoryCloud {
            store: _,
            calls: _,
            failing: _,
            planted: _,
        } = self;
    }
}

impl MemoryCloud {
    ghost use Rattle.db_base.specs.declared.wish.Wish.TheVariants.{Plain};
    ghost use Rattle.cloud_trait.specs.State.{IsEmptyCloud, called, landed, sent, version_at, message_at};
    ghost use Rattle.cloud_trait.specs.Bench.{has_bytes};
    ghost use Rattle.memory_cloud.specs.Memory.{state_of, counts_of, no_counts, PlantsBytes, StaysSo, told_state, next_mood, next_call, failing_calls, CountsCall, MakesNoCall};
    ghost use Rattle.memory_cloud.specs.Mood.{HasRoom, mood_at, wanted_mood, has_room};

    /// An empty cloud at clock 0, that fails no call. Takes no memory.
    pub fn new(alloc: Global) -> MemoryCloud
        ensures empty { IsEmptyCloud (state_of result) }
        ensures clock { (state_of result).now ≡ 0 }
        ensures waits { (state_of result).waits ≡ 0 }
        ensures wish { (state_of result).wish ≡ Plain }
        ensures last { (state_of result).last ≡ None }
        ensures counts { counts_of result ≡ record { faults = 0; withheld = 0; stale = 0; dark = 0 } }
        ensures failing { failing_calls result ≡ [] }
        ensures first { next_call result ≡ 1 }
        ensures told { told_state result ≡ Some (state_of result) }
    {
        MemoryCloud {
            store: Store::new(alloc),
            calls: 0,
            failing: Vec::new(alloc),
            planted: false,
        }
    }

    /// An empty cloud at clock 0 whose service calls of these numbers, from 1, fail with no effect.
    pub fn with_failures(alloc: Global, calls: &[u64]) -> Result<MemoryCloud, CloudFault>
        ensures empty { IfOk result (λ c. IsEmptyCloud (state_of c)) }
        ensures clock { IfOk result (λ c. (state_of c).now ≡ 0) }
        ensures waits { IfOk result (λ c. (state_of c).waits ≡ 0) }
        ensures wish { IfOk result (λ c. (state_of c).wish ≡ Plain) }
        ensures last { IfOk result (λ c. (state_of c).last ≡ None) }
        ensures counts { IfOk result (λ c. counts_of c ≡ no_counts) }
        ensures failing { IfOk result (λ c. failing_calls c ≡ calls.now) }
        ensures first { IfOk result (λ c. next_call c ≡ 1) }
        ensures told { IfOk result (λ c. told_state c ≡ Some (state_of c)) }
        ensures memory { IfErr result (λ e. e ≡ CloudFault.Memory) }
    {
        let failing = match calls.to_vec(alloc) {
            Ok(failing) => failing,
            Err(_) => return Err(CloudFault::Memory),
        };
        let mut cloud = MemoryCloud::new(alloc);
        cloud.failing = failing;
        Ok(cloud)
    }

    /// Whether an object has an n-th version, from 1, with bytes: false for 0, past the newest, and where it was removed.
    pub fn has_version(&self, name: ObjName, n: u64) -> bool
        ensures { result ≡ is_some (version_at ((state_of self.now).versions name) n) }
    {
        copies::has_version(objects::versions(&self.store.objects, &name), n)
    }

    /// Whether the n-th version of an object, from 1, has these bytes.
    pub fn version_is(&self, name: ObjName, n: u64, bytes: &[u8]) -> bool
        ensures { result ≡ has_bytes (version_at ((state_of self.now).versions name) n) bytes.now }
    {
        copies::version_has(objects::versions(&self.store.objects, &name), n, bytes)
    }

    /// The bytes of a message of a queue, deleted or not.
    pub fn message(&self, queue: QueueName, id: MsgId) -> Option<&[u8]>
        ensures { option_copied result ≡ message_at ((state_of self.now).messages queue) id }
    {
        copies::message_bytes(queues::messages(&self.store.queues, &queue), id.get())
    }

    /// Plants foreign bytes as the newest version of an object, for tests; from then on the cloud tells no state.
    /// Refused for memory alone.
    pub fn plant(&mut self, name: ObjName, bytes: &[u8]) -> Result<(), CloudFault>
        ensures ok { OnOk result (PlantsBytes (landed planter name bytes.now (state_of self.old)) self.new) }
        ensures err { OnErr result (StaysSo self.old self.new) }
        ensures memory { IfErr result (λ e. e ≡ CloudFault.Memory) }
        ensures counts { counts_of self.new ≡ counts_of self.old }
        ensures call { MakesNoCall self.old self.new }
    {
        match self.store.land(planter(), &name, bytes) {
            Ok(()) => {
                self.planted = true;
                Ok(())
            }
            Err(_) => Err(CloudFault::Memory),
        }
    }

    /// Plants a message of foreign bytes at the end of a queue, for tests; from then on the cloud tells no state.
    /// Refused for memory alone.
    pub fn plant_message(&mut self, queue: QueueName, bytes: &[u8]) -> Result<(), CloudFault>
        ensures ok { OnOk result (PlantsBytes (sent planter queue bytes.now (state_of self.old)) self.new) }
        ensures err { OnErr result (StaysSo self.old self.new) }
        ensures memory { IfErr result (λ e. e ≡ CloudFault.Memory) }
        ensures counts { counts_of self.new ≡ counts_of self.old }
        ensures call { MakesNoCall self.old self.new }
    {
        match self.store.post(planter(), &queue, bytes) {
            Ok(_) => {
                self.planted = true;
                Ok(())
            }
            Err(_) => Err(CloudFault::Memory),
        }
    }

    // Begins a service call: it spends the wish, and says how the call goes.
    #[inline]
    pub(crate) fn begin(&mut self, who: Who) -> Mood
        ensures state { state_of self.new ≡ called who (state_of self.old).now (state_of self.old) }
        ensures counts { counts_of self.new ≡ counts_of self.old }
        ensures mood { result ≡ next_mood self.old }
        ensures room { HasRoom result (counts_of self.old) }
        ensures counted { CountsCall self.old self.new }
    {
        self.calls = self.calls.saturating_add(1);
        let mood = self.mood();
        self.store.spend_wish(who);
        mood
    }

    // How the service call of the present number goes. Where no call is to fail and no wish is set, nothing is looked for.
    #[inline]
    fn mood(&self) -> Mood
        ensures mood { result ≡ mood_at (counts_of self.now) self.now.failing.items self.now.calls self.now.store.wish }
        ensures room { HasRoom result (counts_of self.now) }
    {
        if self.failing.is_empty() && is_plain(&self.store.wish) {
            return Mood::Plain;
        }
        self.mood_within_room()
    }

    // How it goes: as it is wanted, and else as it should.
    #[inline(never)]
    fn mood_within_room(&self) -> Mood
        ensures mood { result ≡ mood_at (counts_of self.now) self.now.failing.items self.now.calls self.now.store.wish }
        ensures room { HasRoom result (counts_of self.now) }
    {
        let wanted = self.wanted_mood();
        if self.has_room(wanted) {
            return wanted;
        }
        Mood::Plain
    }

    // How the service call of the present number is to go.
    fn wanted_mood(&self) -> Mood
        ensures { result ≡ wanted_mood self.now.failing.items self.now.calls self.now.store.wish }
    {
        if self.failing.as_slice().contains(&self.calls) {
            return Mood::Fail;
        }
        match &self.store.wish {
            Wish::Plain => Mood::Plain,
            Wish::Fail => Mood::Fail,
            Wish::Lost => Mood::Lost,
            Wish::Hide => Mood::Hide,
            Wish::Old(n) => Mood::Old(*n),
            Wish::Give(_) => Mood::Give,
        }
    }

    // Whether the count that a call of this mood may raise can rise.
    fn has_room(&self, mood: Mood) -> bool
        ensures value { result ≡ has_room mood (counts_of self.now) }
        ensures room { IsTrue result → HasRoom mood (counts_of self.now) }
    {
        match mood {
            Mood::Plain => true,
            Mood::Fail => self.store.faults < u64::MAX,
            Mood::Lost => self.store.faults < u64::MAX,
            Mood::Hide => self.store.withheld < u64::MAX,
            Mood::Old(_) => self.store.stale < u64::MAX,
            Mood::Give => self.store.withheld < u64::MAX,
        }
    }
}

// Who plants foreign bytes: the settler, before the first event.
fn planter() -> Who
    ensures { result ≡ planter }
{
    Who::new(SessionNo::settler(), 0)
}
