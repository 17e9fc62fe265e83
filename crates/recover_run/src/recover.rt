ghost use Rattle.std.specs.Prelude.{◌≡◌, ◌≢◌, ◌≤◌, ◌<◌, ◌+◌, ◌^◌, Ok, Err, Some, None, IfSome, IfNone, IfOk, IfErr, length, slice_get};
ghost use Rattle.std.specs.List.{AllByRecursion};
ghost use Rattle.head_codec.specs.declared.lists.Pending.{Pending};
ghost use Rattle.head_codec.specs.Counters.{AreCounters};
ghost use Rattle.head_codec.specs.Head.{empty_head};
ghost use Rattle.head_codec.specs.Spelling.{HasSpelling, head_of};
ghost use Rattle.cloud_trait.specs.Ask.{Release};
ghost use Rattle.cloud_trait.specs.Call.{ask_of, Lends};
ghost use Rattle.cloud_trait.specs.Machine.{LeadsBy, Took, calls_of};
ghost use Rattle.cloud_trait.specs.Views.{done_of, received_of, sent_of};
ghost use Rattle.cloud_trait.specs.Weather.{Makes};
ghost use Rattle.recover_run.specs.Kept.{AllPlaced};

use crate::gathering::Gathering;
use crate::home::Home;
use crate::ids::IdSet;
use crate::items::{AtomicItem, ItemFault, ids_of, items_of};
use crate::sending::{add_pending, head_bytes, sent_bytes};
use crate::stage::{Aim, RecoverAnswer, Stage};
use crate::wanted::Wanted;
use cloud_trait::answer::Answer;
use cloud_trait::call::Call;
use cloud_trait::cloud::Cloud;
use cloud_trait::lease::Lease;
use cloud_trait::message::{Message, MessageList};
use cloud_trait::perform::{let_go, perform};
use cloud_trait::turn::Turn;
use cloud_trait::who::Who;
use db_base::blob::Blob;
use db_base::ids::{ClientId, MsgId};
use db_base::names::{Lock, ObjName, Place, QueueName};
use db_base::trouble::{Counter, Trouble};
use head_codec::head::{Head, HeadFault, Phase};
use route_plan::queue::queue_name;
use std::alloc::Global;
use std::collections::VecDeque;
use std::marker::Model;

/// How long a client's lease is given for, in ticks.
pub const CLIENT_TICKS: u64 = 600;

/// The most messages of one receive.
pub const MAX_MESSAGES: u16 = 256;

/// An opening or a settling of a client: under the client's lease its head is read; the records of an open one are gathered from the
/// client's ATOMIC queue and sent on; the head is put in the next epoch; and what past epochs left in the queue is deleted.
pub struct RecoverRun {
    client: ClientId,
    aim: Aim,
    stage: Stage,
    former: Option<Lease>,
    lease: Option<Lease>,
    wanted: Wanted,
    head: Head,
    gathering: Gathering,
    ids: VecDeque<MsgId>,
    sent: usize,
    swept: IdSet,
    out: Blob,
    ending: Option<Result<RecoverAnswer, Trouble>>,
}

// Written out, so that what holds a recovery need not look into it to let it go.
impl Drop for RecoverRun {
    fn drop(self) {
        let RecoverRun {
            client: _,
            aim: _,
            stage: _,
            former: _,
            lease: _,
            wanted: _,
            head: _,
            gathering: _,
            ids: _,
            sent: _,
            swept: _,
            out: _,
            ending: _,
        } = self;
    }
}

impl Model for RecoverRun {
    ghost use Rattle.recover_run.specs.Recovery.{Recovery, IsSound};

    ghost Value = { Recovery };

    ghost view = { λ r. record {
      client = r.client;
      aim = r.aim;
      stage = r.stage;
      former = r.former;
      lease = r.lease;
      wanted = r.wanted;
      head = r.head;
      gathered = r.gathering;
      ids = r.ids.items;
      sent = r.sent;
      swept = r.swept;
      out = r.out;
      ending = r.ending;
    } };

    ghost invariant = { λ r. IsSound (record {
      client = r.client;
      aim = r.aim;
      stage = r.stage;
      former = r.former;
      lease = r.lease;
      wanted = r.wanted;
      head = r.head;
      gathered = r.gathering;
      ids = r.ids.items;
      sent = r.sent;
      swept = r.swept;
      out = r.out;
      ending = r.ending;
    }) };
}

impl RecoverRun {
    ghost use Rattle.recover_run.specs.Recovery.{Recovery, new_recovery, recovery_ask, recovery_next, handed_over, KeepsLeases, IsSound, home_of, releasing, stopping, old_released, taken_by, got_by, head_read, bytes_read, none_read, putting, send_at, decided, next_deletion, gathered_by, received_by, deleted_by, sent_by, next_clearing, put_by, clearing_kept, cleared, opened, swept_by, swept_with, released, next_sweep, with_pending, delete_next, send_next, take_lease, TurnsBy};
    ghost use Rattle.recover_run.specs.End.{calls_left, KnowsAtMost};
    ghost use Rattle.recover_run.specs.Within.{AreFew};
    ghost use Rattle.recover_run.specs.Leases.{Behind, leases_of, outstanding, Names, GivesBack};
    ghost use Rattle.recover_run.specs.Ample.{IsRefusal, NeedsNone};
    ghost use Rattle.recover_run.specs.Stepped.{Stepped};
    ghost use Rattle.recover_run.specs.Items.{items_of};

    /// The recovery of a client. A lease that is handed in is given back first. Takes no memory.
    pub fn new(alloc: Global, client: ClientId, aim: Aim, old: Option<Lease>) -> RecoverRun
        ensures { result ≡ new_recovery client aim old }
    {
        let head = Head::empty(alloc);
        RecoverRun {
            client,
            aim,
            stage: match old {
                Some(_) => Stage::ReleasingOld,
                None => Stage::Taking,
            },
            former: old,
            lease: None,
            wanted: Wanted::of(&head),
            head,
            gathering: Gathering::new(alloc),
            ids: VecDeque::new(alloc),
            sent: 0,
            swept: IdSet::new(alloc),
            out: Blob::new(alloc),
            ending: None,
        }
    }

    /// Begins the settling of a client where this recovery stands, whose lists keep their room. Takes no memory.
    pub fn begin_settling(&mut self, alloc: Global, client: ClientId)
        ensures { self.new ≡ new_recovery client Aim.Settling None }
    {
        self.client = client;
        self.aim = Aim::Settling;
        self.stage = Stage::Taking;
        self.former = None;
        self.lease = None;
        forget(&mut self.head);
        self.wanted = Wanted::of(&self.head);
        self.gathering.clear();
        self.ids.clear();
        self.sent = 0;
        self.swept.clear();
        self.out = Blob::new(alloc);
        self.ending = None;
    }

    // ---- the call in hand

    fn queue(&self) -> QueueName
        ensures { result ≡ QueueName.Atomic self.now.client }
    {
        QueueName::Atomic(self.client)
    }

    fn take_call(&self) -> Call<'_>
        ensures { ask_of result ≡ take_lease self.now }
    {
        Call::Take(Lock::Client(self.client), CLIENT_TICKS)
    }

    fn delete_call(&self) -> Call<'_>
        ensures { ask_of result ≡ delete_next self.now self.now.ids }
    {
        match self.ids.front() {
            Some(id) => Call::Delete(self.queue(), *id),
            None => self.take_call(),
        }
    }

    fn send_call(&self) -> Call<'_>
        ensures { ask_of result ≡ send_next self.now (slice_get self.now.gathered.kept self.now.sent) }
    {
        match self.gathering.kept().get(self.sent) {
            Some(item) => Call::Send(
                queue_name(item.rec.tree, item.rec.page),
                self.out.as_slice(),
            ),
            None => self.take_call(),
        }
    }

    /// The service call that the next step makes.
    pub fn in_hand(&self) -> Call<'_>
        ensures { ask_of result ≡ recovery_ask self.now }
    {
        let head = ObjName::Head(self.client);
        match (self.stage, &self.former, &self.lease) {
            (Stage::ReleasingOld, Some(former), _) => Call::Release(former),
            (Stage::Getting, _, Some(lease)) => Call::GetHeld(head, lease),
            (Stage::Receiving, _, _) => Call::Receive(self.queue(), MAX_MESSAGES),
            (Stage::Deleting, _, _) => self.delete_call(),
            (Stage::Sending, _, _) => self.send_call(),
            (Stage::Putting, _, Some(lease)) => {
                Call::PutHeld(head, self.out.as_slice(), lease, None)
            }
            (Stage::Clearing, _, _) => self.delete_call(),
            (Stage::Sweeping, _, _) => Call::Receive(self.queue(), MAX_MESSAGES),
            (Stage::Releasing, _, Some(lease)) => Call::Release(lease),
            _ => self.take_call(),
        }
    }

    /// The lease that the call in hand gives back, where it gives one back.
    fn leaving(&mut self) -> Option<Lease>
        ensures lease { IfSome result (λ l. recovery_ask self.old ≡ Release l) }
        ensures none { IfNone result (Lends (recovery_ask self.new)) }
        ensures same { IfNone result (recovery_ask self.new ≡ recovery_ask self.old) }
        ensures left { self.new ≡ handed_over self.old }
    {
        match self.stage {
            Stage::ReleasingOld => self.former.take(),
            Stage::Releasing => self.lease.take(),
            _ => None,
        }
    }

    /// Makes the call in hand; a release hands its lease out.
    fn call<C: Cloud>(&mut self, cloud: &mut C, who: Who) -> Answer
        ensures made { Makes who (recovery_ask self.old) result (C.seen cloud.old) (C.seen cloud.new) }
        ensures left { self.new ≡ handed_over self.old }
    {
        match self.leaving() {
            Some(lease) => let_go(cloud, who, lease),
            None => perform(cloud, who, &self.in_hand()),
        }
    }

    // ---- the lease

    /// Gives the lease back next, and then ends or stops so.
    fn releasing(&mut self, ending: Result<RecoverAnswer, Trouble>) -> Turn<RecoverAnswer>
        ensures took { TurnsBy (λ r n. releasing r ending ≡ n) self.old self.new result }
        ensures more { result ≡ Turn.More }
    {
        self.stage = Stage::Releasing;
        self.ending = Some(ending);
        Turn::More
    }

    fn stop(&mut self, trouble: Trouble) -> Turn<RecoverAnswer>
        ensures took { TurnsBy (λ r n. stopping r trouble ≡ n) self.old self.new result }
        ensures more { result ≡ Turn.More }
    {
        self.releasing(Err(trouble))
    }

    fn old_released(&mut self) -> Turn<RecoverAnswer>
        ensures took { TurnsBy (λ r n. old_released r ≡ n) self.old self.new result }
        ensures more { result ≡ Turn.More }
    {
        self.stage = Stage::Taking;
        self.former = None;
        Turn::More
    }

    fn taken(&mut self, given: Result<Lease, Trouble>) -> Turn<RecoverAnswer>
        ensures took { TurnsBy (λ r n. taken_by r given ≡ n) self.old self.new result }
        ensures refused { IfErr given (λ t. result ≡ Turn.Stopped t) }
        ensures given { IfOk given (λ _. result ≡ Turn.More) }
    {
        match given {
            Ok(lease) => {
                self.stage = Stage::Getting;
                self.lease = Some(lease);
                Turn::More
            }
            Err(trouble) => Turn::Stopped(trouble),
        }
    }

    fn released(&mut self) -> Turn<RecoverAnswer>
        requires { self.old.stage ≡ Stage.Releasing }
        ensures took { Took (λ r _ n. released r ≡ n) KeepsLeases self.old Answer.Failed self.new result }
        ensures kept { result ≡ Turn.Stopped Trouble.Memory → self.old.ending ≡ Some (Err Trouble.Memory) }
    {
        self.stage = Stage::Finished;
        self.lease = None;
        match self.ending.take() {
            Some(Ok(answer)) => Turn::Ended(answer),
            Some(Err(trouble)) => Turn::Stopped(trouble),
            None => Turn::Stopped(Trouble::Failed),
        }
    }

    // ---- the head

    fn got(&mut self, alloc: Global, got: Result<Option<Blob>, Trouble>) -> Turn<RecoverAnswer>
        ensures took { TurnsBy (λ r n. got_by r got ≡ n) self.old self.new result }
        ensures refused { IfErr got (λ _. result ≡ Turn.More) }
    {
        match got {
            Ok(None) => self.got_none(alloc),
            Ok(Some(bytes)) => self.got_bytes(alloc, bytes.as_slice()),
            Err(trouble) => self.stop(trouble),
        }
    }

    fn got_none(&mut self, alloc: Global) -> Turn<RecoverAnswer>
        ensures { TurnsBy (λ r n. none_read r.aim r ≡ n) self.old self.new result }
    {
        match self.aim {
            Aim::Opening => self.read_none(alloc),
            Aim::Settling => self.releasing(Ok(RecoverAnswer::Nothing)),
        }
    }

    /// An opening takes an absent head for the empty one.
    #[inline(never)]
    fn read_none(&mut self, alloc: Global) -> Turn<RecoverAnswer>
        ensures { TurnsBy (λ r n. head_read r empty_head ≡ n) self.old self.new result }
    {
        self.read(alloc, Head::empty(alloc))
    }

    #[inline(never)]
    fn got_bytes(&mut self, alloc: Global, bytes: &[u8]) -> Turn<RecoverAnswer>
        ensures { TurnsBy (λ r n. bytes_read r bytes.now (head_of bytes.now) ≡ n) self.old self.new result }
    {
        match Head::read(alloc, bytes) {
            Ok(head) => self.read(alloc, head),
            Err(HeadFault::NotHead { offset }) => self.stop(Trouble::Damaged {
                place: Place::Object(ObjName::Head(self.client)),
                offset,
            }),
            Err(_) => Turn::Stopped(Trouble::Memory),
        }
    }

    /// Keeps what the head wants, and begins the epoch behind it.
    fn read(&mut self, alloc: Global, mut head: Head) -> Turn<RecoverAnswer>
        requires counters { AreCounters None head.counters }
        requires pending { AllByRecursion (λ (p : Pending). 1 ≤ p.number) head.pending }
        ensures { TurnsBy (λ r n. head_read r head ≡ n) self.old self.new result }
    {
        let wanted = Wanted::of(&head);
        let phase = head.phase;
        if head.next_epoch().is_err() {
            return self.stop(Trouble::Exhausted {
                what: Counter::Epoch,
            });
        }
        self.stage = Stage::Receiving;
        self.wanted = wanted;
        self.head = head;
        match phase {
            Phase::Settled => self.putting(alloc, self.sent),
            Phase::Open(_) => Turn::More,
        }
    }

    /// Puts the head of the next epoch next, with so many records sent.
    fn putting(&mut self, alloc: Global, sent: usize) -> Turn<RecoverAnswer>
        requires { HasSpelling self.old.head }
        ensures { TurnsBy (λ r n. putting (record r { sent = sent }) ≡ n) self.old self.new result }
    {
        match head_bytes(alloc, &self.head) {
            Ok(out) => {
                self.stage = Stage::Putting;
                self.sent = sent;
                self.out = out;
                Turn::More
            }
            Err(_) => Turn::Stopped(Trouble::Memory),
        }
    }

    // ---- the records of an open head

    #[inline(never)]
    #[tactic(auto, using(crate::proofs::Ample::refused_received))]
    fn received(&mut self, alloc: Global, answer: Answer) -> Turn<RecoverAnswer>
        requires { HasSpelling self.old.head }
        ensures took { TurnsBy (λ r n. received_by r (received_of answer) ≡ n) self.old self.new result }
        // What was refused is kept, and the lease is given back first.
        ensures refused { IsRefusal answer → result ≡ Turn.More }
    {
        match answer.received() {
            Ok(messages) => self.gather(alloc, messages.as_slice()),
            Err(trouble) => self.stop(trouble),
        }
    }

    fn gather(&mut self, alloc: Global, messages: &[Message]) -> Turn<RecoverAnswer>
        requires { HasSpelling self.old.head }
        ensures { TurnsBy (λ r n. gathered_by r (items_of messages.now) ≡ n) self.old self.new result }
    {
        match items_of(alloc, &self.queue(), messages) {
            Ok(items) => self.gather_items(alloc, items),
            Err(ItemFault::NotRecord(trouble)) => self.stop(trouble),
            Err(ItemFault::Memory) => Turn::Stopped(Trouble::Memory),
        }
    }

    fn gather_items(&mut self, alloc: Global, items: Vec<AtomicItem>) -> Turn<RecoverAnswer>
        requires spelled { HasSpelling self.old.head }
        requires placed { AllPlaced items.items }
        ensures { TurnsBy (λ r n. gathered_by r (Ok items.items) ≡ n) self.old self.new result }
    {
        self.stage = Stage::Receiving;
        match self.gathering.add(alloc, self.wanted, items) {
            Ok(ids) => {
                self.ids = ids;
                self.delete_next(alloc)
            }
            Err(_) => Turn::Stopped(Trouble::Memory),
        }
    }

    /// Deletes the next lost record next, or decides where there is none.
    fn delete_next(&mut self, alloc: Global) -> Turn<RecoverAnswer>
        requires { HasSpelling self.old.head }
        ensures { TurnsBy (λ r n. next_deletion r r.ids ≡ n) self.old self.new result }
    {
        if self.ids.is_empty() {
            return self.decide(alloc);
        }
        self.stage = Stage::Deleting;
        Turn::More
    }

    #[inline(never)]
    #[tactic(auto, using(crate::proofs::Ample::refused_done))]
    fn deleted(&mut self, alloc: Global, answer: Answer) -> Turn<RecoverAnswer>
        requires { HasSpelling self.old.head }
        ensures took { TurnsBy (λ r n. deleted_by r (done_of answer) ≡ n) self.old self.new result }
        ensures refused { IsRefusal answer → result ≡ Turn.More }
    {
        match answer.done() {
            Ok(()) => {
                self.stage = Stage::Receiving;
                let _ = self.ids.pop_front();
                self.delete_next(alloc)
            }
            Err(trouble) => self.stop(trouble),
        }
    }

    /// Sends on what is kept where that is all, receives again where the newest receive brought something new, and stops else.
    fn decide(&mut self, alloc: Global) -> Turn<RecoverAnswer>
        requires { HasSpelling self.old.head }
        ensures { TurnsBy (λ r n. decided r ≡ n) self.old self.new result }
    {
        let have = self.gathering.have();
        if have == usize::from(self.wanted.count) {
            return self.send_at(alloc, 0);
        }
        if self.gathering.is_fresh() {
            self.stage = Stage::Receiving;
            return Turn::More;
        }
        self.stop(Trouble::Waiting {
            have: have as u64,
            need: u64::from(self.wanted.count),
        })
    }

    /// Sends the kept record at a place next, or puts the head where all are sent.
    fn send_at(&mut self, alloc: Global, place: usize) -> Turn<RecoverAnswer>
        requires { HasSpelling self.old.head }
        ensures { TurnsBy (λ r n. send_at r place ≡ n) self.old self.new result }
    {
        match self.gathering.kept().get(place) {
            Some(item) => match sent_bytes(alloc, &item.rec) {
                Ok(out) => {
                    self.stage = Stage::Sending;
                    self.sent = place;
                    self.out = out;
                    Turn::More
                }
                Err(_) => Turn::Stopped(Trouble::Memory),
            },
            None => self.putting(alloc, place),
        }
    }

    #[inline(never)]
    #[tactic(auto, using(crate::proofs::Ample::refused_sent))]
    fn sent(&mut self, alloc: Global, answer: Answer) -> Turn<RecoverAnswer>
        requires { self.old.stage ≡ Stage.Sending }
        ensures took { TurnsBy (λ r n. sent_by r (sent_of answer) ≡ n) self.old self.new result }
        ensures refused { IsRefusal answer → result ≡ Turn.More }
    {
        match answer.sent() {
            Ok(_) => self.pass_record(alloc),
            Err(trouble) => self.stop(trouble),
        }
    }

    /// Makes the record that was sent pending, and goes on behind it.
    fn pass_record(&mut self, alloc: Global) -> Turn<RecoverAnswer>
        requires { self.old.stage ≡ Stage.Sending }
        ensures { TurnsBy (λ r n. send_at (with_pending r (slice_get r.gathered.kept r.sent)) (r.sent + 1) ≡ n) self.old self.new result }
    {
        let Some(next) = self.sent.checked_add(1) else {
            return Turn::Stopped(Trouble::Memory);
        };
        let Some(item) = self.gathering.kept().get(self.sent) else {
            return self.send_at(alloc, next);
        };
        match add_pending(alloc, &mut self.head, &item.rec) {
            Ok(()) => self.send_at(alloc, next),
            Err(_) => Turn::Stopped(Trouble::Memory),
        }
    }

    // ---- behind the put

    #[inline(never)]
    #[tactic(auto, using(crate::proofs::Ample::refused_done))]
    fn put(&mut self, alloc: Global, answer: Answer) -> Turn<RecoverAnswer>
        requires { HasSpelling self.old.head }
        ensures took { TurnsBy (λ r n. put_by r (done_of answer) ≡ n) self.old self.new result }
        ensures refused { IsRefusal answer → result ≡ Turn.More }
    {
        match answer.done() {
            Ok(()) => self.clear_kept(alloc),
            Err(trouble) => self.stop(trouble),
        }
    }

    /// Deletes the messages of the kept records next.
    fn clear_kept(&mut self, alloc: Global) -> Turn<RecoverAnswer>
        requires { HasSpelling self.old.head }
        ensures { TurnsBy (λ r n. clearing_kept r ≡ n) self.old self.new result }
    {
        let Ok(kept) = ids_of(alloc, self.gathering.kept()) else {
            return Turn::Stopped(Trouble::Memory);
        };
        let mut swept = IdSet::new(alloc);
        match swept.add_all(alloc, kept.as_slice()) {
            Ok(ids) => {
                self.stage = Stage::Sweeping;
                self.swept = swept;
                self.ids = ids;
                self.clear_next()
            }
            Err(_) => Turn::Stopped(Trouble::Memory),
        }
    }

    /// Deletes the next message next, or receives again where there is none.
    fn clear_next(&mut self) -> Turn<RecoverAnswer>
        requires { HasSpelling self.old.head }
        ensures took { TurnsBy (λ r n. next_clearing r r.ids ≡ n) self.old self.new result }
        ensures more { result ≡ Turn.More }
    {
        self.stage = if self.ids.is_empty() {
            Stage::Sweeping
        } else {
            Stage::Clearing
        };
        Turn::More
    }

    fn cleared(&mut self) -> Turn<RecoverAnswer>
        requires { HasSpelling self.old.head }
        ensures took { TurnsBy (λ r n. cleared r ≡ n) self.old self.new result }
        ensures more { result ≡ Turn.More }
    {
        self.stage = Stage::Sweeping;
        let _ = self.ids.pop_front();
        self.clear_next()
    }

    #[inline(never)]
    #[tactic(auto, using(crate::proofs::Ample::refused_received))]
    fn swept(&mut self, alloc: Global, answer: Answer) -> Turn<RecoverAnswer>
        requires { HasSpelling self.old.head }
        ensures took { TurnsBy (λ r n. swept_by r (received_of answer) ≡ n) self.old self.new result }
        ensures refused { IsRefusal answer → result ≡ Turn.More }
    {
        match answer.received() {
            Ok(messages) => self.sweep(alloc, messages.as_slice()),
            Err(trouble) => self.stop(trouble),
        }
    }

    fn sweep(&mut self, alloc: Global, messages: &[Message]) -> Turn<RecoverAnswer>
        requires { HasSpelling self.old.head }
        ensures { TurnsBy (λ r n. swept_with r (items_of messages.now) ≡ n) self.old self.new result }
    {
        match items_of(alloc, &self.queue(), messages) {
            Ok(items) => self.sweep_items(alloc, items.as_slice()),
            Err(ItemFault::NotRecord(trouble)) => self.stop(trouble),
            Err(ItemFault::Memory) => Turn::Stopped(Trouble::Memory),
        }
    }

    /// Deletes the messages of past epochs that are new next; where there is none, the client is open.
    fn sweep_items(&mut self, alloc: Global, items: &[AtomicItem]) -> Turn<RecoverAnswer>
        requires { HasSpelling self.old.head }
        ensures { TurnsBy (λ r n. swept_with r (Ok items.now) ≡ n) self.old self.new result }
    {
        let Ok(past) = self.wanted.past_ids(alloc, items) else {
            return Turn::Stopped(Trouble::Memory);
        };
        match self.swept.add_all(alloc, past.as_slice()) {
            Ok(ids) => {
                self.stage = Stage::Sweeping;
                self.ids = ids;
                self.sweep_next()
            }
            Err(_) => Turn::Stopped(Trouble::Memory),
        }
    }

    fn sweep_next(&mut self) -> Turn<RecoverAnswer>
        requires { HasSpelling self.old.head }
        ensures { TurnsBy (λ r n. next_sweep r r.ids ≡ n) self.old self.new result }
    {
        if self.ids.is_empty() {
            return self.opened();
        }
        self.stage = Stage::Clearing;
        Turn::More
    }

    /// An opening keeps the lease; a settling gives it back.
    fn opened(&mut self) -> Turn<RecoverAnswer>
        requires { HasSpelling self.old.head }
        ensures { TurnsBy (λ r n. opened r.aim r ≡ n) self.old self.new result }
    {
        let answer = RecoverAnswer::Opened {
            epoch: self.head.epoch,
        };
        match self.aim {
            Aim::Opening => {
                self.stage = Stage::Finished;
                Turn::Ended(answer)
            }
            Aim::Settling => self.releasing(Ok(answer)),
        }
    }

    // ---- the step

    /// Takes the answer of the call in hand. A lease that the call gave back has left.
    #[inline(always)]
    fn absorb(&mut self, alloc: Global, answer: Answer) -> Turn<RecoverAnswer>
        requires { KeepsLeases self.old answer self.old }
        ensures took { Took (LeadsBy recovery_next) KeepsLeases self.old answer self.new result }
        ensures memory { answer ≡ Answer.Memory → result ≡ Turn.Stopped Trouble.Memory }
        ensures refused { IsRefusal answer → result ≡ Turn.Stopped Trouble.Memory → self.old.ending ≡ Some (Err Trouble.Memory) }
        ensures spared { NeedsNone self.old.stage → answer ≢ Answer.Memory → result ≡ Turn.Stopped Trouble.Memory → self.old.ending ≡ Some (Err Trouble.Memory) }
    {
        if let Answer::Memory = answer {
            return Turn::Stopped(Trouble::Memory);
        }
        // The answer stays where it lies: an arm that had one of its own would clear room for it at each step.
        match self.stage {
            Stage::ReleasingOld => self.old_released(),
            Stage::Taking => self.taken(answer.given(Lock::Client(self.client))),
            Stage::Getting => self.got(alloc, answer.got()),
            Stage::Receiving => self.received(alloc, answer),
            Stage::Deleting => self.deleted(alloc, answer),
            Stage::Sending => self.sent(alloc, answer),
            Stage::Putting => self.put(alloc, answer),
            Stage::Clearing => self.cleared(),
            Stage::Sweeping => self.swept(alloc, answer),
            Stage::Releasing => self.released(),
            Stage::Finished => Turn::Stopped(Trouble::Failed),
        }
    }

    /// Makes the call in hand, and does the local work up to the next one.
    #[inline(always)]
    pub fn step<C: Cloud>(&mut self, alloc: Global, cloud: &mut C, who: Who) -> Turn<RecoverAnswer>
        // The call in hand was made, and all that follows from its one answer.
        ensures steps { Stepped who (C.seen cloud.old) (C.seen cloud.new) self.old self.new result }
        ensures sound { IsSound self.old }
        ensures less { result ≡ Turn.More → calls_left (2 ^ 64) 255 self.new < calls_left (2 ^ 64) 255 self.old }
        // The leases that it holds are the one that was handed in and those that it took, but for those that it gave back.
        ensures leases { Behind self.old (λ client aim old h. leases_of self.old ≡ outstanding old h) }
        // The call names a lease that it holds, and takes no lock that it holds.
        ensures names { Behind self.old (λ client aim old h. Names client old h (recovery_ask self.old)) }
        // Before an end all leases are given back, but for the client's at the end of an opening.
        ensures gives_back { Behind self.old (λ client aim old h. GivesBack client aim h self.new result) }
        // Seven calls, four for each id that is received, and one for each record that the open head counts, are all.
        ensures within { Behind self.old (λ client aim old h. AreFew (calls_of h) (length h + 1)) }
    {
        // Read for the clause `sound`.
        let _ = &self.stage;
        let answer = self.call(cloud, who);
        let turn = self.absorb(alloc, answer);
        // Read for the clause `less`.
        self.few();
        turn
    }

    /// No more ids than memory has places, and no more records than a head can count.
    fn few(&self)
        ensures { KnowsAtMost (2 ^ 64) 255 self.now }
    {
        self.gathering.few();
        self.swept.few();
        let _count = self.wanted.count;
    }

    /// What the session has in hand after Opened in an opening; none before, and none after a settling.
    pub fn finish(self) -> Option<Home>
        ensures { result ≡ home_of self }
    {
        let RecoverRun {
            client,
            aim: _,
            stage,
            former: _,
            lease,
            wanted: _,
            head,
            gathering: _,
            ids: _,
            sent: _,
            swept: _,
            out: _,
            ending: _,
        } = self;
        match (stage, lease) {
            (Stage::Finished, Some(lease)) => Some(Home {
                client,
                lease,
                head,
                attempt: 0,
            }),
            _ => None,
        }
    }
}

/// The absent head is there from now on, whose lists keep their room. Takes no memory.
fn forget(head: &mut Head)
    ensures { head.new ≡ empty_head }
{
    head.epoch = 0;
    head.txn = 0;
    head.phase = Phase::Settled;
    head.counters.truncate(0);
    head.pending.truncate(0);
}
