ghost use Rattle.std.specs.Prelude.{◌≡◌, ◌≤◌, ◌<◌, ◌↔◌, true, [], length, None, Ok, IfOk, IfErr, OnOk, OnErr};
ghost use Rattle.std.specs.Option.{option_map, option_copied};
ghost use Rattle.cloud_trait.specs.Call.{ask_of};
ghost use Rattle.db_base.specs.Entry.{entry_bytes};
ghost use Rattle.db_base.specs.Limits.{most_changes, longest_key, last_indexed};

use client_work::answer::{Answer, Begun, handed};
use client_work::hand::Hand;
use client_work::op::Op;
use client_work::shown::Shown;
use client_work::work::Work;
use cloud_trait::call::Call;
use cloud_trait::cloud::Cloud;
use cloud_trait::turn::Turn;
use cloud_trait::who::Who;
use db_base::attr::Attr;
use db_base::change::Change;
use db_base::entry::index_insert;
use db_base::ids::{ClientId, TreeId};
use db_base::key::{Key, Payload};
use db_base::refusal::{Refusal, Refused};
use db_base::value::Value;
use head_codec::head::Head;
use log_codec::record::PuItem;
use page_cache::PageCache;
use report_types::pair_list::Pairs;
use std::alloc::Global;
use std::marker::Model;
use std::mem;
use txn_buffer::buffer::TxnBuffer;

/// A session of a client. It is closed at first.
pub struct Session<H: Hand = Work> {
    buffer: TxnBuffer,
    work: H,
    cache: PageCache,
    // What the newest operation shows.
    shown: Shown,
}

// Written out, so that what holds a session need not look into it to let it go.
impl<H: Hand> Drop for Session<H> {
    fn drop(self) {
        let Session {
            buffer: _,
            work: _,
            cache: _,
            shown: _,
        } = self;
    }
}

impl<H: Hand> Model for Session<H> {
    ghost use Rattle.client_work.specs.Causes.{HasCome};
    ghost use Rattle.client_work.specs.Session.{Acting};
    ghost use Rattle.client_work.specs.Shows.{IsKnown};

    ghost Value = { Acting };

    ghost view = { λ s. record { buffer = s.buffer; work = H.work s.work; cache = s.cache; shown = s.shown } };

    ghost invariant = { λ s. IsKnown s.buffer (H.work s.work) s.cache × HasCome (H.work s.work) s.cache };
}

impl<H: Hand> Session<H> {
    ghost use Rattle.client_work.specs.BrokenOff.{broken_off};
    ghost use Rattle.client_work.specs.Session.{Acting, HasNoted, HasPut, HasDropped, closed_session, MayIndex, NoteRefused, PutRefused, AbortRefused, Begins, StepsSession, settling_session, sweeping_session, ask_of_work, committing_of, opens_of, applying_of, value_of, items_of, is_working, open_client};

    /// A closed session without changes. Refused for memory alone.
    pub fn new(alloc: Global) -> Result<Session<H>, Refused>
        ensures ok { IfOk result (λ s. s ≡ closed_session) }
        ensures memory { IfErr result (λ e. e ≡ Refused.Memory) }
    {
        let Ok(cache) = PageCache::new(alloc) else {
            return Err(Refused::Memory);
        };
        Ok(Session {
            buffer: TxnBuffer::new(alloc)?,
            work: H::closed(),
            cache,
            shown: Shown::Nothing,
        })
    }

    /// A session that stands for no client and settles. Refused for memory alone.
    pub fn settling(alloc: Global) -> Result<Session<H>, Refused>
        ensures ok { IfOk result (λ s. s ≡ settling_session) }
        ensures memory { IfErr result (λ e. e ≡ Refused.Memory) }
    {
        let mut session = Session::<H>::new(alloc)?;
        session.work = H::settling(alloc);
        Ok(session)
    }

    /// A session that stands for no client and sweeps a tree. Refused for memory alone.
    pub fn sweeping(alloc: Global, tree: TreeId) -> Result<Session<H>, Refused>
        ensures ok { IfOk result (λ s. s ≡ sweeping_session tree) }
        ensures memory { IfErr result (λ e. e ≡ Refused.Memory) }
    {
        let mut session = Session::<H>::new(alloc)?;
        session.work = H::sweeping(alloc, tree);
        Ok(session)
    }

    /// Notes a change of an open client. A refusal changes nothing.
    pub fn note(&mut self, tree: TreeId, change: Change) -> Result<(), Refused>
        ensures ok { OnOk result (HasNoted tree change self.old self.new) }
        ensures err { OnErr result (self.new ≡ self.old) }
        ensures cause { IfErr result (NoteRefused self.old tree change) }
        ensures few { OnOk result (length self.new.buffer ≤ most_changes) }
    {
        if let Some(rule) = self.work.phase().rule() {
            return Err(Refused::Rule(rule));
        }
        let noted = self.buffer.note(tree, change);
        // Read for the clause `few`.
        let _ = self.buffer.len();
        noted
    }

    /// Notes the insert of a record with an attribute, and that of its entry into the index of its tree, or neither. BadNumber exactly
    /// for a tree above 8, which has no index; else LongEntry exactly where the entry has more than 64 bytes. A refusal changes nothing.
    pub fn put(
        &mut self,
        alloc: Global,
        tree: TreeId,
        key: Key,
        payload: Payload,
        attr: Attr,
    ) -> Result<(), Refused>
        ensures ok { OnOk result (HasPut tree key payload attr self.old self.new) }
        ensures indexed { OnOk result (MayIndex tree key attr) }
        ensures err { OnErr result (self.new ≡ self.old) }
        ensures cause { IfErr result (PutRefused self.old tree key payload attr) }
        ensures above { (result ≡ Err (Refused.Rule Refusal.BadNumber)) ↔ (last_indexed < tree) }
        ensures long { (result ≡ Err (Refused.Rule Refusal.LongEntry))
            ↔ ((tree ≤ last_indexed) × (longest_key < length (entry_bytes attr key))) }
        ensures few { OnOk result (length self.new.buffer ≤ most_changes) }
    {
        let Some(index) = tree.index() else {
            return Err(Refused::Rule(Refusal::BadNumber));
        };
        let entry = match index_insert(alloc, &attr, &key) {
            Ok(entry) => entry,
            Err(why) => return Err(why),
        };
        if let Some(rule) = self.work.phase().rule() {
            return Err(Refused::Rule(rule));
        }
        let insert = Change::Insert {
            key,
            payload,
            attr: Some(attr),
        };
        let noted = self.buffer.note_both(tree, insert, index, entry);
        // Read for the clause `few`.
        let _ = self.buffer.len();
        noted
    }

    /// Drops the changes of an open client. A refusal changes nothing.
    pub fn abort(&mut self) -> Result<(), Refused>
        ensures ok { OnOk result (HasDropped self.old self.new) }
        ensures err { OnErr result (self.new ≡ self.old) }
        ensures cause { IfErr result (AbortRefused self.old) }
    {
        if let Some(rule) = self.work.phase().rule() {
            return Err(Refused::Rule(rule));
        }
        self.buffer.clear();
        Ok(())
    }

    /// Closes the session at once, whatever it has in hand: no call is made, and leases run out by themselves.
    pub fn crash(&mut self)
        ensures { self.new ≡ closed_session }
    {
        self.buffer.clear();
        self.cache.clear();
        self.work = H::closed();
        self.shown = Shown::Nothing;
    }

    /// Breaks off what the session has in hand, as want of memory does: of an open client its lease is left, and nothing of an
    /// opening, a close, a settling or a sweep. No call is made.
    pub fn break_off(&mut self)
        ensures { self.new ≡ broken_off self.old }
    {
        self.work.phase().drop_noted(&mut self.buffer);
        let work = mem::replace(&mut self.work, H::closed());
        self.work = work.break_off();
        self.work.phase().drop_kept(&mut self.cache);
        self.shown = Shown::Nothing;
    }

    /// Begins an operation. A refusal changes nothing.
    pub fn begin(&mut self, alloc: Global, op: Op) -> Result<Begun, Refused>
        ensures { Begins op self.old self.new result }
    {
        if let Some(rule) = self.work.phase().bar(&op) {
            return Err(Refused::Rule(rule));
        }
        let work = mem::replace(&mut self.work, H::closed());
        let (work, shown, begun) = work.begin(alloc, op, &mut self.buffer, &mut self.cache);
        self.work = work;
        self.shown = shown;
        Ok(begun)
    }

    /// Makes the call in hand of the operation at work, and does the local work up to the next one.
    pub fn step<C: Cloud>(
        &mut self,
        alloc: Global,
        cloud: &mut C,
        who: Who,
    ) -> Result<Turn<Answer>, Refused>
        ensures { StepsSession who (C.seen cloud.old) (C.seen cloud.new) self.old self.new result }
    {
        let phase = self.work.phase();
        if !phase.is_working() {
            return Err(Refused::Rule(Refusal::NotWorking));
        }
        Ok(self.step_at_work(alloc, cloud, who))
    }

    /// The same of a session that is known to be at work, which is never refused.
    #[inline(always)]
    pub fn step_at_work<C: Cloud>(&mut self, alloc: Global, cloud: &mut C, who: Who) -> Turn<Answer>
        requires { is_working self.old.work ≡ true }
        ensures { StepsSession who (C.seen cloud.old) (C.seen cloud.new)
            self.old self.new (Ok result) }
    {
        self.work.phase().drop_noted(&mut self.buffer);
        let turn = self.work.step(
            alloc,
            cloud,
            who,
            &mut self.cache,
            &self.buffer,
            &mut self.shown,
        );
        self.work.phase().drop_kept(&mut self.cache);
        handed(turn)
    }

    /// The client of an open session with nothing at work; or the rule that refuses an operation of it.
    pub fn client(&self) -> Result<ClientId, Refusal>
        ensures { result ≡ open_client self.now.work }
    {
        self.work.client()
    }

    /// The service call that the next step makes; none where nothing is at work.
    pub fn in_hand(&self) -> Option<Call<'_>>
        ensures { option_map ask_of result ≡ ask_of_work self.now.work }
    {
        self.work.in_hand()
    }

    /// The changes of the commit at work; none where none is.
    pub fn committing(&self) -> Option<&TxnBuffer>
        ensures { option_copied result ≡ committing_of self.now.work }
    {
        self.work.committing()
    }

    /// The head that the put in hand opens, where it is the one that commits.
    pub fn opens(&self) -> Option<&Head>
        ensures { option_copied result ≡ opens_of self.now.work }
    {
        self.work.opens()
    }

    /// The items that the put in hand of a checkpoint applies.
    pub fn applying(&self) -> &[PuItem]
        ensures { result.now ≡ applying_of self.now.work }
    {
        self.work.applying()
    }

    /// The value that the newest operation read, as the client sees it; none where it was no read, or where there is no record.
    pub fn value(&self) -> Option<Value<'_>>
        ensures { result ≡ value_of self.now }
    {
        self.work.value(&self.shown, &self.cache, &self.buffer)
    }

    /// The records that the newest operation listed, in the order of their keys; none where it was neither a scan nor a look-up.
    pub fn items(&self) -> Pairs<'_>
        ensures { result ≡ items_of self.now }
    {
        match &self.shown {
            Shown::Listed(pairs) => pairs.pairs(),
            Shown::Read(_) => Pairs::none(),
            Shown::Nothing => Pairs::none(),
        }
    }
}
