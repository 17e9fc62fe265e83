ghost use Rattle.std.specs.Prelude.{◌≡◌, ℕ, ◌≤◌, ◌<◌, true, false, [], replicate, slice_get, All, Some, Ok, IfOk, IfErr, OnErr, OnOk};
ghost use Rattle.world_core.specs.Quota.{SpendsQuota};
ghost use Rattle.world_core.specs.Stands.{Grows};
ghost use Rattle.world_core.specs.Handled.{WaitsFor};
ghost use Rattle.world_core.specs.Span.{span_of, span_by};
ghost use Rattle.ckpt_policy.specs.Ledger.{IsNumber};
ghost use Rattle.ckpt_policy.specs.Notes.{IsPending};
ghost use Rattle.reply_text.specs.Reply.{HasText};
ghost use Rattle.session_notes.specs.Notebook.{blank, ChangesBook};

use crate::asked::{Asked, Noting, Request};
use crate::checkpoint::{begin_notes, checkpoint_of, count_if, forget};
use crate::quota::Quota;
use crate::replying::{begun_reply, declined, done, reply_of, told, trouble_reply, turn_reply};
use crate::sessions::Sessions;
use ckpt_policy::{Ledger, Role, is_number};
use client_work::answer::Answer;
use client_work::calls::SessionCalls;
use client_work::op::Op;
use cloud_trait::cloud::Bench;
use cloud_trait::turn::Turn;
use cloud_trait::who::Who;
use db_base::ids::{ClientId, SessionNo, TreeId};
use db_base::names::QueueName;
use db_base::refusal::{Refusal, Refused};
use db_base::trouble::Trouble;
use db_base::wish::Wish;
use event_text::event::Event;
use reply_text::reply::Reply;
use session_notes::notebooks::Notebooks;
use std::alloc::Global;
use std::marker::Model;
use world_audit::audit::Audit;

/// The most ticks that a line waits for.
pub const MAX_WAIT: u64 = 1_000_000;

/// Why a line has no reply.
#[derive(Clone, Copy, Debug, PartialEq, Eq)]
pub enum WorldFault {
    /// Memory ran out.
    Memory,
}

/// The sessions of a replay, and what was seen of them.
pub struct World<S: SessionCalls> {
    // By their numbers.
    pub(crate) sessions: Sessions<S>,
    // What was seen to commit and to be applied.
    pub(crate) audit: Audit,
    // Whether it looks at no put, from its start or since a look failed: the audit does not know then whether the put landed.
    pub(crate) blind: bool,
    // What is kept of each session for the choice of its checkpoints.
    pub(crate) notes: Notebooks,
}

// Written out, so that what holds a world need not look into it to let it go.
impl<S: SessionCalls> Drop for World<S> {
    fn drop(self) {
        let World {
            sessions: _,
            audit: _,
            blind: _,
            notes: _,
        } = self;
    }
}

impl<S: SessionCalls> Model for World<S> {
    ghost use Rattle.world_core.specs.World.{World};

    ghost Value = { World };

    ghost view = { λ w. record { sessions = w.sessions; audit = w.audit; blind = w.blind; notes = w.notes } };
}

impl<S: SessionCalls> World<S> {
    ghost use Rattle.cloud_trait.specs.State.{CloudState, IsEmptyCloud};
    ghost use Rattle.cloud_trait.specs.Seen.{Seen};
    ghost use Rattle.client_work.specs.Session.{closed_session};
    ghost use Rattle.world_core.specs.World.{all_sessions};
    ghost use Rattle.reply_text.specs.Reply.{ReplyHasText};
    ghost use Rattle.world_core.specs.Sound.{AnswersSoundly};
    ghost use Rattle.world_core.specs.Acknowledged.{AnswersDurably, AnswersLanded};
    ghost use Rattle.world_core.specs.LeftNone.{LeavesNoCommit};
    ghost use Rattle.world_core.specs.Explained.{ExplainsSteps};
    ghost use Rattle.world_core.specs.Caused.{CausesSteps};
    ghost use Rattle.world_core.specs.Shown.{ShowsSteps};
    ghost use Rattle.world_core.specs.ShownByLines.{ShowsStepsBy};
    ghost use Rattle.world_core.specs.Tagged.{ShowsTagged};
    ghost use Rattle.world_core.specs.Calm.{AnswersWell};
    ghost use Rattle.world_core.specs.Alone.{KeepsAlone};
    ghost use Rattle.world_core.specs.Bounded.{MakesFewCalls};
    ghost use Rattle.world_core.specs.LeftShort.{LeavesShort};
    ghost use Rattle.world_core.specs.Metered.{KeepsMeter};
    ghost use Rattle.world_core.specs.Named.{NamesSteps};
    ghost use Rattle.world_core.specs.Passed.{PassesWell};
    ghost use Rattle.world_core.specs.Quota.{SpendsQuota};
    ghost use Rattle.world_core.specs.Spared.{SparesWriter};
    ghost use Rattle.world_core.specs.Settled.{SettlingEnds, SettlingIsRight, SettlingLeaves};
    ghost use Rattle.world_core.specs.Swept.{SweepLeaves};
    ghost use Rattle.world_core.specs.Tells.{TellsSo};
    ghost use Rattle.world_core.specs.Stands.{KeepsABook, WorldStands, StandsOn};
    ghost use Rattle.world_core.specs.Sessions.{Changes, IsNotWorking, IsAtWork};
    ghost use Rattle.world_core.specs.Handled.{BeginsBook, BeginsCheckpoint, IsGiven, ClearsNotes, FailsAt, IsOpen, KeepsNotes, MakesOne, Policies, WorksOff, WorksShort, WorksThrough, Handled, Answers, Does, BeginsOp, NotesChange, DropsChanges, MakesStep, ComesTo, Runs, Has, Crashes, CrashesDone, StopsShort, Reports, BreaksOff, LeavesReplied};

    /// A world whose sessions are closed, and that saw nothing: over an empty cloud it stands for no lines. Refused for memory
    /// alone.
    pub fn new(alloc: Global) -> Result<World<S>, Refused>
        ensures sessions { IfOk result (λ w. w.sessions ≡ replicate all_sessions closed_session) }
        ensures audit { IfOk result (λ w. w.audit ≡ record { committed = []; order = [] }) }
        ensures sees { IfOk result (λ w. w.blind ≡ false) }
        ensures notes { IfOk result (λ w. w.notes ≡ replicate all_sessions blank) }
        ensures memory { IfErr result (λ e. e ≡ Refused.Memory) }
        ensures stands { (t : CloudState) → IsEmptyCloud t → IfOk result (λ w. WorldStands [] w t) }
    {
        World::start(alloc, false)
    }

    /// A world as a new one that looks at no put, and so keeps no audit: each report that it is asked for fails. Refused for
    /// memory alone.
    pub fn unseeing(alloc: Global) -> Result<World<S>, Refused>
        ensures sessions { IfOk result (λ w. w.sessions ≡ replicate all_sessions closed_session) }
        ensures audit { IfOk result (λ w. w.audit ≡ record { committed = []; order = [] }) }
        ensures sees_none { IfOk result (λ w. w.blind ≡ true) }
        ensures notes { IfOk result (λ w. w.notes ≡ replicate all_sessions blank) }
        ensures memory { IfErr result (λ e. e ≡ Refused.Memory) }
        ensures stands { (t : CloudState) → IsEmptyCloud t → IfOk result (λ w. WorldStands [] w t) }
    {
        World::start(alloc, true)
    }

    /// A world whose sessions are closed, and that saw nothing; blind where it looks at no put.
    #[tactic(auto, using(crate::proofs::StartLemmas::new_stands))]
    fn start(alloc: Global, blind: bool) -> Result<World<S>, Refused>
        ensures sessions { IfOk result (λ w. w.sessions ≡ replicate all_sessions closed_session) }
        ensures audit { IfOk result (λ w. w.audit ≡ record { committed = []; order = [] }) }
        ensures blind { IfOk result (λ w. w.blind ≡ blind) }
        ensures notes { IfOk result (λ w. w.notes ≡ replicate all_sessions blank) }
        ensures memory { IfErr result (λ e. e ≡ Refused.Memory) }
        ensures stands { (t : CloudState) → IsEmptyCloud t → IfOk result (λ w. WorldStands [] w t) }
    {
        Ok(World {
            sessions: Sessions::new(alloc)?,
            audit: Audit::new(alloc),
            blind,
            notes: Notebooks::new(alloc)?,
        })
    }

    /// Handles the line of a number: what it does to the world, and the reply. A call beyond the quota is not made, which
    /// is told as want of memory.
    pub fn event<C: Bench>(
        &mut self,
        alloc: Global,
        cloud: &mut C,
        quota: &mut Quota,
        n: u64,
        event: &Event,
    ) -> Result<Reply, WorldFault>
        ensures handled { Handled n event.now
            (span_by C.seen cloud.old cloud.new self.old self.new) result }
        ensures text { IfOk result ReplyHasText }
        ensures stands { StandsOn n event.now
            (span_by C.seen cloud.old cloud.new self.old self.new) result }
        // What the reply says is so, by the calls that the line made and by what its session is left with.
        ensures tells { TellsSo n event.now
            (span_by C.seen cloud.old cloud.new self.old self.new) result }
        ensures sound { AnswersSoundly n event.now
            (span_by C.seen cloud.old cloud.new self.old self.new) result }
        ensures acknowledged { AnswersDurably n event.now
            (span_by C.seen cloud.old cloud.new self.old self.new) result }
        // And it is this commit that landed, by its own session since it began.
        ensures landed { AnswersLanded n event.now
            (span_by C.seen cloud.old cloud.new self.old self.new) result }
        // A commit that is answered as not committed left nothing among what was committed.
        ensures left_nothing { LeavesNoCommit n event.now
            (span_by C.seen cloud.old cloud.new self.old self.new) result }
        ensures explained { ExplainsSteps n event.now
            (span_by C.seen cloud.old cloud.new self.old self.new) result }
        // Over any cloud, why each step came to what it came to.
        ensures caused { CausesSteps n event.now
            (span_by C.seen cloud.old cloud.new self.old self.new) result }
        ensures shown { ShowsSteps n event.now
            (span_by C.seen cloud.old cloud.new self.old self.new) result }
        // What it shows is by what the lines say of its client.
        ensures shown_by_lines { ShowsStepsBy n event.now
            (span_by C.seen cloud.old cloud.new self.old self.new) result }
        // A look-up finds all records with the attribute, where all is applied and nothing that it got was old.
        ensures tagged { ShowsTagged n event.now
            (span_by C.seen cloud.old cloud.new self.old self.new) result }
        ensures calm { AnswersWell n event.now
            (span_by C.seen cloud.old cloud.new self.old self.new) result }
        // A session that is alone finds its locks free.
        ensures alone { KeepsAlone n event.now
            (span_by C.seen cloud.old cloud.new self.old self.new) result }
        ensures bounded { MakesFewCalls n event.now
            (span_by C.seen cloud.old cloud.new self.old self.new) result }
        // A tree checkpoint that is done finds each new piece named by the level above.
        ensures named { NamesSteps n event.now
            (span_by C.seen cloud.old cloud.new self.old self.new) result }
        // A writer that works behind each of its commits leaves few messages.
        ensures metered { KeepsMeter n event.now
            (span_by C.seen cloud.old cloud.new self.old self.new) result }
        // A work whose calls are all calm passes a checkpoint over for a spent counter alone, or a page to which no message was ever sent.
        ensures passed { PassesWell n event.now
            (span_by C.seen cloud.old cloud.new self.old self.new) result }
        // A writer that is alone passes none over.
        ensures spared { SparesWriter n event.now
            (span_by C.seen cloud.old cloud.new self.old self.new) result }
        ensures settled { SettlingLeaves n event.now
            (span_by C.seen cloud.old cloud.new self.old self.new) result }
        ensures settles { SettlingEnds n event.now
            (span_by C.seen cloud.old cloud.new self.old self.new) result }
        ensures settling { SettlingIsRight n event.now
            (span_by C.seen cloud.old cloud.new self.old self.new) result }
        // A sweep of a tree leaves all but pages that nothing reached, and where it swept just the reached pages have bytes.
        ensures swept { SweepLeaves n event.now
            (span_by C.seen cloud.old cloud.new self.old self.new) result }
        // Where memory ran out, the session that it worked on is broken off.
        ensures short { LeavesShort event.now self.old self.new result }
        ensures keeps { KeepsABook (span_by C.seen cloud.old cloud.new self.old self.new) result }
        ensures grows { Grows n (C.seen cloud.old) (C.seen cloud.new) }
        // No more lands than is taken of the quota.
        ensures spends { SpendsQuota (C.seen cloud.old) (C.seen cloud.new) quota.old quota.new }
    {
        self.handle(alloc, cloud, quota, n, event)
    }

    #[tactic(auto, using(crate::proofs::GrowthLemmas::grows_not, crate::proofs::Texts::has_text, crate::proofs::QuotaLemmas::spends_not))]
    fn handle<C: Bench>(
        &mut self,
        alloc: Global,
        cloud: &mut C,
        quota: &mut Quota,
        n: u64,
        event: &Event,
    ) -> Result<Reply, WorldFault>
        ensures handled { Handled n event.now
            (span_by C.seen cloud.old cloud.new self.old self.new) result }
        ensures grows { Grows n (C.seen cloud.old) (C.seen cloud.new) }
        ensures spends { SpendsQuota (C.seen cloud.old) (C.seen cloud.new) quota.old quota.new }
    {
        match Asked::of(alloc, event) {
            Asked::Session(number, request) => self.ask(alloc, cloud, quota, n, number, request),
            Asked::Wait(ticks) => wait(cloud, ticks),
            Asked::Report(tree) => self.report(alloc, cloud, tree),
            Asked::Settle => self.settle(alloc, cloud, quota, n),
            Asked::Sweep(tree) => self.sweep_of(alloc, cloud, quota, n, tree),
        }
    }

    /// Does what is asked of the session of this number, where it is one.
    #[tactic(auto, using(crate::proofs::GrowthLemmas::grows_not, crate::proofs::QuotaLemmas::spends_not))]
    fn ask<C: Bench>(
        &mut self,
        alloc: Global,
        cloud: &mut C,
        quota: &mut Quota,
        n: u64,
        number: u64,
        request: Result<Request, Refused>,
    ) -> Result<Reply, WorldFault>
        ensures answers { Answers n (Asked.Session number request)
            (span_by C.seen cloud.old cloud.new self.old self.new) result }
        ensures grows { Grows n (C.seen cloud.old) (C.seen cloud.new) }
        ensures spends { SpendsQuota (C.seen cloud.old) (C.seen cloud.new) quota.old quota.new }
    {
        match SessionNo::new(number) {
            Ok(session) => match request {
                Ok(request) => self.serve(alloc, cloud, quota, Who { session, event: n }, request),
                Err(why) => declined(why),
            },
            Err(rule) => declined(Refused::Rule(rule)),
        }
    }

    /// Does what is asked of the session.
    #[tactic(auto, using(crate::proofs::QuotaLemmas::spends_not))]
    fn serve<C: Bench>(
        &mut self,
        alloc: Global,
        cloud: &mut C,
        quota: &mut Quota,
        who: Who,
        request: Request,
    ) -> Result<Reply, WorldFault>
        ensures does { Does who request
            (span_by C.seen cloud.old cloud.new self.old self.new) result }
        ensures grows { Grows who.event (C.seen cloud.old) (C.seen cloud.new) }
        ensures spends { SpendsQuota (C.seen cloud.old) (C.seen cloud.new) quota.old quota.new }
    {
        match request {
            Request::Begin(op) => self.begin(alloc, who.session, op),
            Request::Note(noting) => self.note(alloc, who.session, noting),
            Request::Abort => self.abort(who.session),
            Request::Policy(role, k) => self.policy(alloc, who.session, role, k),
            Request::Work => self.work(alloc, cloud, quota, who),
            Request::Step(wish) => self.step(alloc, cloud, quota, who, wish),
            Request::Run => self.run(alloc, cloud, quota, who),
            Request::Crash(done) => self.crash(alloc, cloud, quota, who, done),
        }
    }

    fn begin(&mut self, alloc: Global, number: SessionNo, op: Op) -> Result<Reply, WorldFault>
        ensures session { Changes number (BeginsOp op result) self.old.sessions self.new.sessions }
        ensures audit { self.new.audit ≡ self.old.audit }
        ensures blind { self.new.blind ≡ self.old.blind }
        ensures notes { BeginsBook number op self.old self.new }
    {
        self.begin_book(number, &op);
        self.begin_op(alloc, number, op)
    }

    /// Begins an operation of the session.
    fn begin_op(&mut self, alloc: Global, number: SessionNo, op: Op) -> Result<Reply, WorldFault>
        ensures session { Changes number (BeginsOp op result) self.old.sessions self.new.sessions }
        ensures audit { self.new.audit ≡ self.old.audit }
        ensures blind { self.new.blind ≡ self.old.blind }
        ensures notes { KeepsNotes self.old self.new }
    {
        let begun = self.sessions.begin(alloc, number, op);
        let reply = begun_reply(alloc, self.sessions.get(number), begun);
        self.replied(number, reply)
    }

    fn note(
        &mut self,
        alloc: Global,
        number: SessionNo,
        noting: Noting,
    ) -> Result<Reply, WorldFault>
        ensures session { Changes number (NotesChange noting result) self.old.sessions self.new.sessions }
        ensures audit { self.new.audit ≡ self.old.audit }
        ensures blind { self.new.blind ≡ self.old.blind }
        ensures notes { KeepsNotes self.old self.new }
    {
        done(Reply::Noted, self.sessions.note(alloc, number, noting))
    }

    fn abort(&mut self, number: SessionNo) -> Result<Reply, WorldFault>
        ensures session { Changes number (DropsChanges result) self.old.sessions self.new.sessions }
        ensures audit { self.new.audit ≡ self.old.audit }
        ensures blind { self.new.blind ≡ self.old.blind }
        ensures notes { KeepsNotes self.old self.new }
    {
        done(Reply::Aborted, self.sessions.abort(number))
    }

    /// The session of a number.
    pub(crate) fn session(&self, number: SessionNo) -> &S
        ensures { slice_get self.now.sessions number ≡ Some (S.acting result.now) }
    {
        self.sessions.get(number)
    }

    /// Closes the session at once.
    pub(crate) fn close(&mut self, number: SessionNo)
        ensures closes { Has number closed_session self.old self.new }
        ensures notes { KeepsNotes self.old self.new }
    {
        self.sessions.crash(number);
    }

    /// Closes the session at once, and forgets what is kept of it.
    fn die(&mut self, number: SessionNo)
        ensures closes { Has number closed_session self.old self.new }
        ensures notes { ClearsNotes number self.old self.new }
    {
        self.sessions.crash(number);
        self.notes.clear(number);
    }

    /// Breaks the session off: of an open client its lease is left.
    pub(crate) fn break_off(&mut self, number: SessionNo)
        ensures { BreaksOff number self.old self.new }
    {
        self.sessions.break_off(number);
    }

    /// Hands on the reply to what the session did, and breaks the session off where that found no memory.
    fn replied(
        &mut self,
        number: SessionNo,
        reply: Result<Reply, WorldFault>,
    ) -> Result<Reply, WorldFault>
        ensures same { result ≡ reply }
        ensures leaves { LeavesReplied number reply self.old self.new }
        ensures audit { self.new.audit ≡ self.old.audit }
        ensures blind { self.new.blind ≡ self.old.blind }
        ensures notes { KeepsNotes self.old self.new }
    {
        match reply {
            Ok(reply) => Ok(reply),
            Err(fault) => {
                self.break_off(number);
                Err(fault)
            }
        }
    }

    /// Whether the session has a call in hand.
    fn works(&self, number: SessionNo) -> bool
        ensures idle { result ≡ false → IsNotWorking number self.now.sessions }
        ensures works { result ≡ true → IsAtWork number self.now.sessions }
    {
        self.session(number).in_hand().is_some()
    }

    /// Makes one step under a wish.
    #[tactic(auto, using(crate::proofs::QuotaLemmas::spends_not))]
    fn step<C: Bench>(
        &mut self,
        alloc: Global,
        cloud: &mut C,
        quota: &mut Quota,
        who: Who,
        wish: Wish,
    ) -> Result<Reply, WorldFault>
        ensures steps { MakesStep who wish
            (span_by C.seen cloud.old cloud.new self.old self.new) result }
        ensures grows { Grows who.event (C.seen cloud.old) (C.seen cloud.new) }
        ensures spends { SpendsQuota (C.seen cloud.old) (C.seen cloud.new) quota.old quota.new }
    {
        if !self.works(who.session) {
            return Ok(Reply::Refused(Refusal::NotWorking));
        }
        match self.step_under(alloc, cloud, quota, who, wish) {
            Ok(turn) => {
                let reply = turn_reply(alloc, self.session(who.session), turn);
                self.replied(who.session, reply)
            }
            Err(fault) => Err(fault),
        }
    }

    /// Makes plain steps until the answer.
    #[tactic(auto, using(crate::proofs::QuotaLemmas::spends_not))]
    fn run<C: Bench>(
        &mut self,
        alloc: Global,
        cloud: &mut C,
        quota: &mut Quota,
        who: Who,
    ) -> Result<Reply, WorldFault>
        ensures runs { Runs who (span_by C.seen cloud.old cloud.new self.old self.new) result }
        ensures grows { Grows who.event (C.seen cloud.old) (C.seen cloud.new) }
        ensures spends { SpendsQuota (C.seen cloud.old) (C.seen cloud.new) quota.old quota.new }
    {
        if !self.works(who.session) {
            return Ok(Reply::Refused(Refusal::NotWorking));
        }
        match self.run_on(alloc, cloud, quota, who) {
            Ok(answer) => {
                let reply = reply_of(alloc, self.session(who.session), answer);
                self.replied(who.session, reply)
            }
            Err(fault) => Err(fault),
        }
    }

    /// Makes plain steps of a session that is at work until the answer.
    pub(crate) fn run_on<C: Bench>(
        &mut self,
        alloc: Global,
        cloud: &mut C,
        quota: &mut Quota,
        who: Who,
    ) -> Result<Answer, WorldFault>
        requires { IsAtWork who.session self.old.sessions }
        ensures comes { IfOk result (λ answer. ComesTo who
            (span_by C.seen cloud.old cloud.new self.old self.new) answer) }
        ensures short { OnErr result (StopsShort who
            (span_by C.seen cloud.old cloud.new self.old self.new)) }
        ensures grows { Grows who.event (C.seen cloud.old) (C.seen cloud.new) }
        ensures spends { SpendsQuota (C.seen cloud.old) (C.seen cloud.new) quota.old quota.new }
    {
        let session = who.session;
        // Looked at where it stands: nearly each step goes on, and to hand on what it came to costs as much as the rest of this.
        'steps: loop {
            match self.step_within(alloc, cloud, quota, who, Wish::Plain) {
                Ok(Turn::More) => {}
                Ok(Turn::Ended(answer)) => return Ok(answer),
                Ok(Turn::Stopped(_)) => unreachable!(),
                Err(fault) => {
                    self.break_off(session);
                    return Err(fault);
                }
            }
        }
    }

    /// Gives an open session a ledger.
    fn policy(
        &mut self,
        alloc: Global,
        number: SessionNo,
        role: Role,
        k: u64,
    ) -> Result<Reply, WorldFault>
        // Whatever the cloud is seen to be, no call is made.
        ensures { (seen : Seen) → Policies number role k (span_of seen seen self.old self.new) result }
    {
        if !is_number(k) {
            return Ok(Reply::Refused(Refusal::BadNumber));
        }
        match self.session(number).client() {
            Ok(client) => self.give_ledger(alloc, number, role, k, client),
            Err(rule) => Ok(Reply::Refused(rule)),
        }
    }

    /// Gives a session a ledger for the client.
    fn give_ledger(
        &mut self,
        alloc: Global,
        number: SessionNo,
        role: Role,
        k: u64,
        client: ClientId,
    ) -> Result<Reply, WorldFault>
        requires { IsNumber k }
        ensures replies { result ≡ Ok Reply.Noted }
        ensures sessions { self.new.sessions ≡ self.old.sessions }
        ensures audit { self.new.audit ≡ self.old.audit }
        ensures blind { self.new.blind ≡ self.old.blind }
        ensures notes { ChangesBook number (IsGiven role k client) self.old.notes self.new.notes }
    {
        match Ledger::new(alloc, role, k, client) {
            Ok(ledger) => {
                self.notes.give(number, ledger);
                Ok(Reply::Noted)
            }
            Err(_) => unreachable!(),
        }
    }

    /// Makes one checkpoint of each queue that is due to the session.
    #[tactic(auto, using(crate::proofs::QuotaLemmas::spends_not))]
    fn work<C: Bench>(
        &mut self,
        alloc: Global,
        cloud: &mut C,
        quota: &mut Quota,
        who: Who,
    ) -> Result<Reply, WorldFault>
        ensures works { WorksThrough who
            (span_by C.seen cloud.old cloud.new self.old self.new) result }
        ensures grows { Grows who.event (C.seen cloud.old) (C.seen cloud.new) }
        ensures spends { SpendsQuota (C.seen cloud.old) (C.seen cloud.new) quota.old quota.new }
    {
        match self.session(who.session).client() {
            Ok(_) => self.work_open(alloc, cloud, quota, who),
            Err(rule) => Ok(Reply::Refused(rule)),
        }
    }

    /// Makes those of a session that is open.
    #[tactic(auto, using(crate::proofs::QuotaLemmas::spends_not))]
    fn work_open<C: Bench>(
        &mut self,
        alloc: Global,
        cloud: &mut C,
        quota: &mut Quota,
        who: Who,
    ) -> Result<Reply, WorldFault>
        requires { IsOpen who.session self.old.sessions }
        ensures works { WorksThrough who
            (span_by C.seen cloud.old cloud.new self.old self.new) result }
        ensures grows { Grows who.event (C.seen cloud.old) (C.seen cloud.new) }
        ensures spends { SpendsQuota (C.seen cloud.old) (C.seen cloud.new) quota.old quota.new }
    {
        match self.notes.due(alloc, who.session) {
            Ok(queues) => self.work_down(alloc, cloud, quota, who, queues.as_slice()),
            Err(_) => {
                self.break_off(who.session);
                Err(WorldFault::Memory)
            }
        }
    }

    /// Makes the checkpoints of these queues, one after the other.
    fn work_down<C: Bench>(
        &mut self,
        alloc: Global,
        cloud: &mut C,
        quota: &mut Quota,
        who: Who,
        queues: &[QueueName],
    ) -> Result<Reply, WorldFault>
        requires opened { IsOpen who.session self.old.sessions }
        requires pending { All IsPending queues.now }
        ensures ok { IfOk result (λ reply. WorksOff who queues.now
            (span_by C.seen cloud.old cloud.new self.old self.new) reply) }
        ensures short { OnErr result (WorksShort who
            (span_by C.seen cloud.old cloud.new self.old self.new)) }
        ensures grows { Grows who.event (C.seen cloud.old) (C.seen cloud.new) }
        ensures spends { SpendsQuota (C.seen cloud.old) (C.seen cloud.new) quota.old quota.new }
    {
        // Read for the bound on both counts.
        let most = queues.len() as u64;
        let mut done = 0u64;
        let mut passed = 0u64;
        let mut left = queues;
        'checkpoints: while let Some((queue, rest)) = left.split_first() {
            let is_done = self.checkpoint(alloc, cloud, quota, who, *queue)?;
            done = count_if(done, most, is_done);
            passed = count_if(passed, most, !is_done);
            left = rest;
        }
        Ok(Reply::Worked { done, passed })
    }

    /// Makes the checkpoint of a queue: whether it was done, and else a trouble is passed over. Where memory ran out in it the
    /// session is broken off.
    fn checkpoint<C: Bench>(
        &mut self,
        alloc: Global,
        cloud: &mut C,
        quota: &mut Quota,
        who: Who,
        queue: QueueName,
    ) -> Result<bool, WorldFault>
        requires opened { IsOpen who.session self.old.sessions }
        requires pending { IsPending queue }
        ensures ok { IfOk result (λ done. MakesOne who queue done
            (span_by C.seen cloud.old cloud.new self.old self.new)) }
        ensures short { OnErr result (FailsAt who
            (span_by C.seen cloud.old cloud.new self.old self.new)) }
        ensures grows { Grows who.event (C.seen cloud.old) (C.seen cloud.new) }
        ensures spends { SpendsQuota (C.seen cloud.old) (C.seen cloud.new) quota.old quota.new }
    {
        self.begin_checkpoint(alloc, who.session, &queue);
        match self.run_on(alloc, cloud, quota, who)? {
            Answer::Done(_) => Ok(true),
            Answer::Trouble(trouble) => self.pass_over(who.session, trouble),
            _ => unreachable!(),
        }
    }

    /// Passes over the trouble of a checkpoint; want of memory breaks the session off.
    fn pass_over(&mut self, session: SessionNo, trouble: Trouble) -> Result<bool, WorldFault>
        ensures ok { OnOk result ((self.new ≡ self.old) × HasText trouble) }
        ensures passed { IfOk result (λ done. done ≡ false) }
        ensures short { OnErr result (BreaksOff session self.old self.new × (trouble ≡ Trouble.Memory)) }
    {
        match told(trouble) {
            Ok(_) => Ok(false),
            Err(fault) => {
                self.break_off(session);
                Err(fault)
            }
        }
    }

    /// Begins the checkpoint of a queue.
    fn begin_checkpoint(&mut self, alloc: Global, number: SessionNo, queue: &QueueName)
        requires opened { IsOpen number self.old.sessions }
        requires pending { IsPending queue.now }
        ensures begins { BeginsCheckpoint number queue.now self.old self.new }
        ensures works { IsAtWork number self.new.sessions }
    {
        self.notes.begin(number, Some(*queue));
        let begun = self.sessions.begin(alloc, number, checkpoint_of(*queue));
        forget(begun);
    }

    /// What is kept of a session behind the begin of an operation.
    fn begin_book(&mut self, number: SessionNo, op: &Op)
        ensures notes { BeginsBook number op.now self.old self.new }
        ensures sessions { self.new.sessions ≡ self.old.sessions }
        ensures audit { self.new.audit ≡ self.old.audit }
        ensures blind { self.new.blind ≡ self.old.blind }
    {
        match self.session(number).client() {
            Ok(_) => begin_notes(&mut self.notes, number, op),
            Err(_) => {}
        }
    }

    /// Lets the session die: at once, or once its call in hand is made.
    #[tactic(auto, using(crate::proofs::GrowthLemmas::grows_not, crate::proofs::QuotaLemmas::spends_not))]
    fn crash<C: Bench>(
        &mut self,
        alloc: Global,
        cloud: &mut C,
        quota: &mut Quota,
        who: Who,
        done: bool,
    ) -> Result<Reply, WorldFault>
        ensures crashes { Crashes who done
            (span_by C.seen cloud.old cloud.new self.old self.new) result }
        ensures grows { Grows who.event (C.seen cloud.old) (C.seen cloud.new) }
        ensures spends { SpendsQuota (C.seen cloud.old) (C.seen cloud.new) quota.old quota.new }
    {
        if done && self.works(who.session) {
            return self.crash_done(alloc, cloud, quota, who);
        }
        self.die(who.session);
        Ok(Reply::Crashed)
    }

    /// Makes the call in hand plainly, and lets the session die then.
    fn crash_done<C: Bench>(
        &mut self,
        alloc: Global,
        cloud: &mut C,
        quota: &mut Quota,
        who: Who,
    ) -> Result<Reply, WorldFault>
        requires works { IsAtWork who.session self.old.sessions }
        ensures dies { CrashesDone who
            (span_by C.seen cloud.old cloud.new self.old self.new) result }
        ensures grows { Grows who.event (C.seen cloud.old) (C.seen cloud.new) }
        ensures spends { SpendsQuota (C.seen cloud.old) (C.seen cloud.new) quota.old quota.new }
    {
        let turn = self.step_under(alloc, cloud, quota, who, Wish::Plain)?;
        self.die(who.session);
        unanswered(turn);
        Ok(Reply::Crashed)
    }

    /// Reports on a tree. Where an earlier look failed it answers that it failed.
    fn report<C: Bench>(&self, alloc: Global, cloud: &mut C, tree: u64) -> Result<Reply, WorldFault>
        ensures { Reports tree (span_by C.seen cloud.old cloud.new self.now self.now) result }
    {
        let tree = match TreeId::new(tree) {
            Ok(tree) => tree,
            Err(rule) => return Ok(Reply::Refused(rule)),
        };
        if self.blind {
            return Ok(Reply::Trouble(Trouble::Failed));
        }
        match self.audit.report(alloc, cloud, tree) {
            Ok(report) => Ok(Reply::Report(report)),
            Err(trouble) => trouble_reply(trouble),
        }
    }
}

/// Forgets what a step came to.
fn unanswered(_turn: Turn<Answer>) {}

/// Lets the clock go on.
#[tactic(auto, using(crate::proofs::GrowthLemmas::grows_not, crate::proofs::GrowthLemmas::grows_wait, crate::proofs::QuotaLemmas::spends_not))]
fn wait<C: Bench>(cloud: &mut C, ticks: u64) -> Result<Reply, WorldFault>
    ensures within { ticks ≤ MAX_WAIT → WaitsFor ticks (C.seen cloud.old) (C.seen cloud.new) result }
    ensures beyond { MAX_WAIT < ticks
        → (result ≡ Ok (Reply.Refused Refusal.BadNumber)) × (C.seen cloud.new ≡ C.seen cloud.old) }
    ensures grows { (n : ℕ) → Grows n (C.seen cloud.old) (C.seen cloud.new) }
    ensures spends { (quota : ℕ) → SpendsQuota (C.seen cloud.old) (C.seen cloud.new) quota quota }
{
    if ticks > MAX_WAIT {
        return Ok(Reply::Refused(Refusal::BadNumber));
    }
    // Read for the clause that the clock is no later than the greatest moment.
    let _ = cloud.now();
    cloud.wait(ticks);
    Ok(Reply::Waited)
}
