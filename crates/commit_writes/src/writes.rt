ghost use Rattle.std.specs.Prelude.{◌≡◌, ◌≢◌, ◌≤◌, ◌<◌, ◌+◌, ◌*◌, List, length, not, IfErr};
ghost use Rattle.std.specs.Option.{option_copied};
ghost use Rattle.std.specs.List.{AllByRecursion};
ghost use Rattle.db_base.specs.Limits.{most_changes};
ghost use Rattle.log_codec.specs.Atomic.{HasPlace};
ghost use Rattle.cloud_trait.specs.Call.{ask_of};
ghost use Rattle.cloud_trait.specs.Machine.{LeadsBy, Took};
ghost use Rattle.cloud_trait.specs.Weather.{Makes};

use crate::pruning::{prune_home_leaf, prune_home_tree};
use crate::routing::records_of;
use crate::spelling::{copy_of, log_bytes, open_home, queue_bytes, settle_home, what_changes};
use crate::stage::{Saved, Stage};
use cloud_trait::answer::Answer;
use cloud_trait::call::Call;
use cloud_trait::cloud::Cloud;
use cloud_trait::perform::perform;
use cloud_trait::turn::Turn;
use cloud_trait::who::Who;
use db_base::blob::Blob;
use db_base::ids::{MsgId, PageId, TreeId};
use db_base::names::{ObjName, QueueName};
use db_base::trouble::{CommitAnswer, Trouble};
use head_codec::head::Head;
use head_codec::lists::CounterList;
use leaf_view::LeafView;
use log_codec::record::AtomicRec;
use node_codec::TreeView;
use recover_run::home::Home;
use route_plan::queue::queue_name;
use std::alloc::Global;
use std::marker::Model;
use std::mem;
use txn_buffer::buffer::TxnBuffer;

/// A client's home and changes with what their commit writes: the records go to the client's ATOMIC queue, the head is put open, the records go to
/// their pending update queues, the head is put settled, and the ATOMIC messages are deleted.
pub struct CommitWrites {
    home: Home,
    before: Saved,
    changes: TxnBuffer,
    stage: Stage,
    records: Vec<AtomicRec>,
    place: usize,
    ids: Vec<MsgId>,
    out: Blob,
    /// The bytes of the head that commits, while it is under way and they are kept.
    spelled: Option<Blob>,
}

impl Drop for CommitWrites {
    fn drop(self) {
        let CommitWrites {
            home: _,
            before: _,
            changes: _,
            stage: _,
            records: _,
            place: _,
            ids: _,
            out: _,
            spelled: _,
        } = self;
    }
}

impl Model for CommitWrites {
    ghost use Rattle.commit_writes.specs.Writing.{Writing};
    ghost use Rattle.commit_writes.specs.Sound.{KeepsSound, IsSpelled};

    ghost Value = { Writing };

    ghost view = { λ w. record { home = w.home; before = record { txn = w.before.txn; phase = w.before.phase; counters = w.before.counters.items }; changes = w.changes; stage = w.stage; records = w.records.items; place = w.place; ids = w.ids.items; out = w.out } };

    ghost invariant = { λ w. KeepsSound (record { home = w.home; before = record { txn = w.before.txn; phase = w.before.phase; counters = w.before.counters.items }; changes = w.changes; stage = w.stage; records = w.records.items; place = w.place; ids = w.ids.items; out = w.out }) × IsSpelled w.home.head w.records.items w.spelled };
}

impl CommitWrites {
    ghost use Rattle.commit_writes.specs.Writing.{Writing, waiting, routing, begun, writing_ask, writing_next, log_at, opening, send_at, settling, delete_at, logged_by, opened_by, sent_by, settled_by, closed_again, finished, KeepsHome, is_spent, numbered, opens_at, TurnsBy};
    ghost use Rattle.commit_writes.specs.Homes.{writing_by_leaf, writing_by_tree, calls_for};
    ghost use Rattle.commit_writes.specs.End.{calls_left};
    ghost use Rattle.commit_writes.specs.Sound.{IsSound};
    ghost use Rattle.commit_writes.specs.Within.{Went, WritesWithin};
    ghost use Rattle.commit_writes.specs.Demands.{IsRefusal};
    ghost use Rattle.commit_writes.specs.Leases.{IsOwnCall};
    ghost use Rattle.commit_writes.specs.Stepped.{Stepped};
    ghost use Rattle.recover_run.specs.declared.home.Home.{Home as AnyHome};
    ghost use Rattle.log_codec.specs.declared.record.AtomicRec.{AtomicRec as AnyRecord};
    ghost use Rattle.cloud_trait.specs.Machine.{Deed};

    /// The commit of changes by a home, before its first write. Takes no memory.
    pub fn new(alloc: Global, home: Home, changes: TxnBuffer) -> CommitWrites
        requires { 1 ≤ length changes }
        ensures { result ≡ waiting home changes }
    {
        let before = Saved {
            txn: home.head.txn,
            phase: home.head.phase,
            counters: Vec::new(alloc),
        };
        CommitWrites {
            home,
            before,
            changes,
            stage: Stage::Waiting,
            records: Vec::new(alloc),
            place: 0,
            ids: Vec::new(alloc),
            out: Blob::new(alloc),
            spelled: None,
        }
    }

    /// The home, with the head as the commit left it.
    pub fn finish(self) -> Home
        ensures { result ≡ self.home }
    {
        let CommitWrites {
            home,
            before: _,
            changes: _,
            stage: _,
            records: _,
            place: _,
            ids: _,
            out: _,
            spelled: _,
        } = self;
        home
    }

    /// The changes that it commits.
    pub fn changes(&self) -> &TxnBuffer
        ensures is { result.now ≡ self.now.changes }
        ensures some { 1 ≤ length self.now.changes }
    {
        &self.changes
    }

    /// The home, with the head as the put in hand makes it or an earlier one made it.
    pub fn home(&self) -> &Home
        ensures { result.now ≡ self.now.home }
    {
        &self.home
    }

    /// The head that the put in hand opens, where it is the one that commits.
    pub fn opens(&self) -> Option<&Head>
        ensures { option_copied result ≡ opens_at self.now.stage self.now }
    {
        match self.stage {
            Stage::Opening => Some(&self.home.head),
            Stage::Waiting => None,
            Stage::Logging => None,
            Stage::Sending => None,
            Stage::Settling => None,
            Stage::Deleting => None,
            Stage::Finished => None,
        }
    }

    /// Takes the next attempt number. At the greatest one it answers false, and nothing changes.
    pub fn take_number(&mut self) -> bool
        ensures is { result ≡ not (is_spent self.old.home) }
        ensures after { self.new ≡ numbered self.old }
    {
        if self.home.attempt == u64::MAX {
            return false;
        }
        let home = &mut self.home;
        home.attempt += 1;
        true
    }

    /// Removes the pending entries that a leaf of a tree shows to be applied. It is called before the first write: nothing is in
    /// hand then. Takes no memory.
    pub fn prune_leaf(&mut self, tree: TreeId, view: &LeafView<'_>)
        ensures { self.new ≡ writing_by_leaf self.old tree view.now }
    {
        self.stage = Stage::Waiting;
        self.spelled = None;
        prune_home_leaf(&mut self.home, tree, view);
    }

    /// Removes the pending entries that a tree object shows to be applied, before the first write. Takes no memory.
    pub fn prune_tree(&mut self, tree: TreeId, view: &TreeView<'_>)
        ensures { self.new ≡ writing_by_tree self.old tree view.now }
    {
        self.stage = Stage::Waiting;
        self.spelled = None;
        prune_home_tree(&mut self.home, tree, view);
    }

    /// The service call that the next step makes.
    pub fn in_hand(&self) -> Call<'_>
        ensures { ask_of result ≡ writing_ask self.now }
    {
        let atomic = QueueName::Atomic(self.home.client);
        let bytes = self.out.as_slice();
        let put = Call::PutHeld(
            ObjName::Head(self.home.client),
            bytes,
            &self.home.lease,
            None,
        );
        match self.stage {
            Stage::Logging => Call::Send(atomic, bytes),
            Stage::Sending => match self.records.as_slice().get(self.place) {
                Some(record) => Call::Send(queue_name(record.tree, record.page), bytes),
                None => put,
            },
            Stage::Deleting => match self.ids.as_slice().get(self.place) {
                Some(id) => Call::Delete(atomic, *id),
                None => put,
            },
            Stage::Waiting => put,
            Stage::Opening => put,
            Stage::Settling => put,
            Stage::Finished => put,
        }
    }

    /// Writes the records of the changes, each with the leaf that it came to; the first send is in hand where it answers More.
    pub fn route(&mut self, alloc: Global, leaves: &[PageId]) -> Turn<CommitAnswer>
        requires leaves { length leaves.now ≡ length self.old.changes }
        requires attempt { 1 ≤ self.old.home.attempt }
        ensures took { TurnsBy (λ w n. routing w leaves.now ≡ n) self.old self.new result }
        ensures calls { result ≡ Turn.More → calls_left self.new ≡ calls_for self.old.changes self.old.ids }
    {
        match records_of(alloc, &self.home, &self.changes, leaves) {
            Ok(records) => self.begin(alloc, records),
            Err(Trouble::Memory) => Turn::Stopped(Trouble::Memory),
            Err(trouble) => self.not_committed(trouble),
        }
    }

    /// Begins to write the records.
    fn begin(&mut self, alloc: Global, records: Vec<AtomicRec>) -> Turn<CommitAnswer>
        requires some { 1 ≤ length records.items }
        requires few { length records.items ≤ most_changes }
        requires placed { AllByRecursion HasPlace records.items }
        ensures begun { TurnsBy (λ w n. begun w records.items ≡ n) self.old self.new result }
        ensures calls { result ≡ Turn.More → calls_left self.new ≡ calls_for records.items self.old.ids }
    {
        self.stage = Stage::Finished;
        self.spelled = None;
        self.records = records;
        self.log_at(alloc, 0)
    }

    /// Sends the record at a place to the ATOMIC queue next, or opens the head where all are sent.
    fn log_at(&mut self, alloc: Global, place: usize) -> Turn<CommitAnswer>
        requires { 1 ≤ length self.old.records }
        ensures { TurnsBy (λ w n. log_at w place ≡ n) self.old self.new result }
    {
        match self.records.as_slice().get(place) {
            Some(record) => match log_bytes(alloc, record) {
                Ok(out) => {
                    self.stage = Stage::Logging;
                    self.place = place;
                    self.out = out;
                    Turn::More
                }
                Err(_) => Turn::Stopped(Trouble::Memory),
            },
            None => {
                self.stage = Stage::Finished;
                self.place = place;
                self.open(alloc)
            }
        }
    }

    /// Puts the head that commits next.
    fn open(&mut self, alloc: Global) -> Turn<CommitAnswer>
        requires { 1 ≤ length self.old.records }
        ensures { TurnsBy (λ w n. opening w ≡ n) self.old self.new result }
    {
        let before = match what_changes(alloc, &self.home.head) {
            Ok(before) => before,
            Err(_) => return Turn::Stopped(Trouble::Memory),
        };
        self.spelled = None;
        match open_home(alloc, &mut self.home, self.records.as_slice()) {
            Ok(out) => {
                self.spelled = copy_of(alloc, &out);
                self.before = before;
                self.stage = Stage::Opening;
                self.out = out;
                Turn::More
            }
            Err(_) => {
                self.stage = Stage::Finished;
                Turn::Stopped(Trouble::Memory)
            }
        }
    }

    /// Sends the record at a place to its pending update queue next, or settles the head where all are sent.
    fn send_at(&mut self, alloc: Global, place: usize) -> Turn<CommitAnswer>
        ensures { TurnsBy (λ w n. send_at w place ≡ n) self.old self.new result }
    {
        match self.records.as_slice().get(place) {
            Some(record) => match queue_bytes(alloc, record) {
                Ok(out) => {
                    self.stage = Stage::Sending;
                    self.place = place;
                    self.out = out;
                    Turn::More
                }
                Err(_) => Turn::Stopped(Trouble::Memory),
            },
            None => {
                self.stage = Stage::Finished;
                self.place = place;
                self.settle(alloc)
            }
        }
    }

    /// Puts the head that settles next.
    fn settle(&mut self, alloc: Global) -> Turn<CommitAnswer>
        ensures { TurnsBy (λ w n. settling w ≡ n) self.old self.new result }
    {
        let spelled = self.spelled.take();
        match settle_home(alloc, &mut self.home, self.records.as_slice(), spelled) {
            Ok(out) => {
                self.stage = Stage::Settling;
                self.out = out;
                Turn::More
            }
            Err(_) => {
                self.stage = Stage::Finished;
                Turn::Stopped(Trouble::Memory)
            }
        }
    }

    /// Deletes the ATOMIC message at a place next, or ends where all are deleted.
    fn delete_at(&mut self, place: usize) -> Turn<CommitAnswer>
        ensures { TurnsBy (λ w n. delete_at w place ≡ n) self.old self.new result }
    {
        match self.ids.as_slice().get(place) {
            Some(_) => {
                self.stage = Stage::Deleting;
                self.place = place;
                Turn::More
            }
            None => {
                self.stage = Stage::Finished;
                self.place = place;
                Turn::Ended(CommitAnswer::Committed {
                    txn: self.home.attempt,
                })
            }
        }
    }

    /// After a send to the ATOMIC queue.
    fn logged(&mut self, alloc: Global, sent: Result<MsgId, Trouble>) -> Turn<CommitAnswer>
        requires { 1 ≤ length self.old.records }
        ensures took { TurnsBy (λ w n. logged_by w sent ≡ n) self.old self.new result }
        ensures refused { IfErr sent (λ t. t ≢ Trouble.Memory → result ≢ Turn.Stopped Trouble.Memory) }
    {
        match sent {
            Ok(id) => {
                if self.ids.push(id).is_err() {
                    return Turn::Stopped(Trouble::Memory);
                }
                match self.place.checked_add(1) {
                    Some(place) => self.log_at(alloc, place),
                    None => Turn::Stopped(Trouble::Memory),
                }
            }
            Err(Trouble::Memory) => Turn::Stopped(Trouble::Memory),
            Err(trouble) => self.not_committed(trouble),
        }
    }

    /// After the put that commits: a late one did not land, and a failed one may have.
    fn opened(&mut self, alloc: Global, done: Result<(), Trouble>) -> Turn<CommitAnswer>
        ensures took { TurnsBy (λ w n. opened_by w done ≡ n) self.old self.new result }
        ensures refused { IfErr done (λ t. t ≢ Trouble.Memory → result ≢ Turn.Stopped Trouble.Memory) }
    {
        match done {
            Ok(()) => self.send_at(alloc, 0),
            Err(Trouble::Late { end, now }) => {
                self.restore(alloc);
                self.not_committed(Trouble::Late { end, now })
            }
            Err(Trouble::Memory) => Turn::Stopped(Trouble::Memory),
            Err(_) => {
                self.stage = Stage::Finished;
                Turn::Ended(CommitAnswer::InDoubt)
            }
        }
    }

    /// Gives the head what the put that commits changed in it.
    fn restore(&mut self, alloc: Global)
        ensures { self.new ≡ finished (closed_again self.old) }
    {
        self.spelled = None;
        let counters = mem::replace(&mut self.before.counters, Vec::new(alloc));
        let home = &mut self.home;
        home.head.txn = self.before.txn;
        home.head.phase = self.before.phase;
        home.head.counters = CounterList::of(counters);
        self.stage = Stage::Finished;
    }

    /// After a send to a pending update queue.
    fn sent(&mut self, alloc: Global, sent: Result<MsgId, Trouble>) -> Turn<CommitAnswer>
        ensures took { TurnsBy (λ w n. sent_by w sent ≡ n) self.old self.new result }
        ensures refused { IfErr sent (λ t. t ≢ Trouble.Memory → result ≢ Turn.Stopped Trouble.Memory) }
    {
        match sent {
            Ok(_) => match self.place.checked_add(1) {
                Some(place) => self.send_at(alloc, place),
                None => Turn::Stopped(Trouble::Memory),
            },
            Err(Trouble::Memory) => Turn::Stopped(Trouble::Memory),
            Err(trouble) => self.left_open(trouble),
        }
    }

    /// After the put that settles.
    fn settled(&mut self, done: Result<(), Trouble>) -> Turn<CommitAnswer>
        ensures took { TurnsBy (λ w n. settled_by w done ≡ n) self.old self.new result }
        ensures refused { IfErr done (λ t. t ≢ Trouble.Memory → result ≢ Turn.Stopped Trouble.Memory) }
    {
        match done {
            Ok(()) => self.delete_at(0),
            Err(Trouble::Memory) => Turn::Stopped(Trouble::Memory),
            Err(trouble) => self.left_open(trouble),
        }
    }

    /// After a deletion, whatever it answered.
    fn deleted(&mut self) -> Turn<CommitAnswer>
        ensures { TurnsBy (λ w n. delete_at w (w.place + 1) ≡ n) self.old self.new result }
    {
        match self.place.checked_add(1) {
            Some(place) => self.delete_at(place),
            None => Turn::Stopped(Trouble::Memory),
        }
    }

    /// Ends: nothing was committed.
    pub fn not_committed(&mut self, trouble: Trouble) -> Turn<CommitAnswer>
        ensures answer { result ≡ Turn.Ended (CommitAnswer.NotCommitted trouble) }
        ensures after { self.new ≡ finished self.old }
    {
        self.stage = Stage::Finished;
        Turn::Ended(CommitAnswer::NotCommitted(trouble))
    }

    /// Ends: the head that commits stays open.
    fn left_open(&mut self, trouble: Trouble) -> Turn<CommitAnswer>
        ensures answer { result ≡ Turn.Ended (CommitAnswer.CommittedOpen trouble) }
        ensures after { self.new ≡ finished self.old }
    {
        self.stage = Stage::Finished;
        Turn::Ended(CommitAnswer::CommittedOpen(trouble))
    }

    /// Makes the call in hand.
    fn call<C: Cloud>(&self, cloud: &mut C, who: Who) -> Answer
        ensures made { Makes who (writing_ask self.now) result (C.seen cloud.old) (C.seen cloud.new) }
        ensures sound { IsSound self.now }
    {
        // Read for the clause `sound`.
        let _ = &self.stage;
        perform(cloud, who, &self.in_hand())
    }

    /// Takes the answer of the call in hand.
    fn absorb(&mut self, alloc: Global, answer: Answer) -> Turn<CommitAnswer>
        ensures took { Took (LeadsBy writing_next) KeepsHome self.old answer self.new result }
        ensures memory { answer ≡ Answer.Memory → result ≡ Turn.Stopped Trouble.Memory }
        ensures refused { self.old.stage ≢ Stage.Deleting → IsRefusal answer → result ≢ Turn.Stopped Trouble.Memory }
    {
        match (self.stage, answer) {
            (_, Answer::Memory) => Turn::Stopped(Trouble::Memory),
            (Stage::Logging, answer) => self.logged(alloc, answer.sent()),
            (Stage::Opening, answer) => self.opened(alloc, answer.done()),
            (Stage::Sending, answer) => self.sent(alloc, answer.sent()),
            (Stage::Settling, answer) => self.settled(answer.done()),
            (Stage::Deleting, _) => self.deleted(),
            (Stage::Waiting, _) => Turn::Stopped(Trouble::Failed),
            (Stage::Finished, _) => Turn::Stopped(Trouble::Failed),
        }
    }

    /// Makes the call in hand, and does the local work up to the next one.
    pub fn step<C: Cloud>(&mut self, alloc: Global, cloud: &mut C, who: Who) -> Turn<CommitAnswer>
        // One answer of the call, and all that is said of the step by it.
        ensures stepped { Stepped who (C.seen cloud.old) (C.seen cloud.new) self.old self.new result }
        ensures sound { IsSound self.old }
        ensures less { result ≡ Turn.More → calls_left self.new < calls_left self.old }
        ensures within { (home : AnyHome) (records : List AnyRecord) (h : List Deed) → Went home records h self.old → WritesWithin records h }
        ensures names { IsOwnCall self.old.home (writing_ask self.old) }
    {
        let answer = self.call(cloud, who);
        self.absorb(alloc, answer)
    }
}
