ghost use Rattle.std.specs.Prelude.{◌≡◌, ◌≤◌, ◌<◌, length};
ghost use Rattle.std.specs.Option.{option_copied};
ghost use Rattle.cloud_trait.specs.Call.{ask_of};

use crate::draft::Draft;
use crate::hand::Hand;
use cloud_trait::call::Call;
use cloud_trait::cloud::Cloud;
use cloud_trait::turn::Turn;
use cloud_trait::who::Who;
use commit_writes::writes::CommitWrites;
use db_base::trouble::CommitAnswer;
use head_codec::head::Head;
use page_cache::PageCache;
use recover_run::home::Home;
use std::alloc::Global;
use std::marker::Model;
use std::mem;
use txn_buffer::buffer::TxnBuffer;

/// A commit of a client's changes, beside its session's cache: the walks for the leaves of the changes, each of which prunes the
/// head by what it uses, and then what the commit writes.
pub struct CommitRun {
    draft: Draft,
    hand: Hand,
}

// Written out, so that what holds a commit need not look into it to let it go.
impl Drop for CommitRun {
    fn drop(self) {
        let CommitRun { draft: _, hand: _ } = self;
    }
}

impl Model for CommitRun {
    ghost use Rattle.commit_run.specs.Run.{Run, IsHeld};

    ghost Value = { Run };

    ghost view = { λ r. record { draft = r.draft; hand = r.hand } };

    ghost invariant = { λ r. IsHeld r.draft r.hand };
}

impl CommitRun {
    ghost use Rattle.commit_run.specs.Run.{new_run, run_ask, run_ready, run_opens, home_of, Led, IfNew, Keeps};
    ghost use Rattle.commit_run.specs.Causes.{CausesReady};
    ghost use Rattle.commit_run.specs.Demands.{DemandsReady};
    ghost use Rattle.commit_run.specs.CallDemands.{ExactReady};
    ghost use Rattle.commit_run.specs.Leases.{Names};
    ghost use Rattle.commit_run.specs.Stepped.{Stepped};
    ghost use Rattle.commit_run.specs.Within.{Within};
    ghost use Rattle.commit_run.specs.End.{calls_left, most_calls};
    ghost use Rattle.commit_run.specs.Sound.{IsSoundRun};
    ghost use Rattle.commit_run.specs.Meaning.{MeansReady};

    /// The commit of changes by a home, before its first call. Takes no memory.
    pub fn new(alloc: Global, home: Home, changes: TxnBuffer) -> CommitRun
        requires { 1 ≤ length changes }
        ensures { result ≡ new_run home changes }
    {
        CommitRun {
            draft: Draft::new(alloc, CommitWrites::new(alloc, home, changes)),
            hand: Hand::Writes,
        }
    }

    /// The home, with the head as the commit left it.
    pub fn finish(self) -> Home
        ensures { result ≡ home_of self }
    {
        let CommitRun { draft, hand: _ } = self;
        draft.writes.finish()
    }

    /// The changes that it commits.
    pub fn changes(&self) -> &TxnBuffer
        ensures is { result.now ≡ self.now.draft.writes.changes }
        ensures some { 1 ≤ length self.now.draft.writes.changes }
    {
        self.draft.writes.changes()
    }

    /// The head that the put in hand opens, where it is the one that commits.
    pub fn opens(&self) -> Option<&Head>
        ensures { option_copied result ≡ run_opens self.now }
    {
        match &self.hand {
            Hand::Writes => self.draft.writes.opens(),
            Hand::First(_) => None,
            Hand::Change(_) => None,
        }
    }

    /// The service call that the next step makes.
    pub fn in_hand(&self) -> Call<'_>
        ensures { ask_of result ≡ run_ask self.now }
    {
        match &self.hand {
            Hand::Writes => self.draft.writes.in_hand(),
            Hand::First(walk) => walk.in_hand(),
            Hand::Change(walk) => walk.in_hand(),
        }
    }

    /// Takes the next attempt number, and does the local work before the first call; it is called once.
    pub fn ready(&mut self, alloc: Global, cache: &mut PageCache) -> Turn<CommitAnswer>
        ensures led { Led (run_ready (self.old, cache.old)) (self.new, cache.new) result }
        ensures kept { Keeps (home_of self.old) (home_of self.new) }
        ensures means { IfNew self.old (λ home changes. MeansReady home changes cache.old (home_of self.new) result) }
        ensures calls { IfNew self.old (λ home changes. result ≡ Turn.More → calls_left self.new ≤ most_calls (length changes)) }
        ensures exact { IfNew self.old (λ home changes. ExactReady home result) }
        // Where nothing is committed, what the cache keeps shows why.
        ensures causes { IfNew self.old (λ home changes. CausesReady (self.old, cache.old) self.new result) }
        // Where that shows a trouble on the way of the first walk, or there is none and a number is too great, it ends with that.
        ensures demands { IfNew self.old (λ home changes. DemandsReady home changes cache.old result) }
    {
        // Read for the clause `demands`: what the cache keeps is in the spelling of its kind.
        let _ = cache.len();
        let (hand, turn) = self.draft.begin(alloc, cache);
        self.hand = hand;
        turn
    }

    /// Makes the call in hand, and does the local work up to the next one.
    pub fn step<C: Cloud>(
        &mut self,
        alloc: Global,
        cloud: &mut C,
        who: Who,
        cache: &mut PageCache,
    ) -> Turn<CommitAnswer>
        // One answer of the call, and all that is said of the step by it.
        ensures stepped { Stepped who (C.seen cloud.old) (C.seen cloud.new) (self.old, cache.old) (self.new, cache.new) result }
        ensures sound { IsSoundRun self.old }
        ensures less { result ≡ Turn.More → calls_left self.new < calls_left self.old }
        // With this call it made those of one walk a change and one more at most, and three a change and two behind them.
        ensures within { Within (self.old, cache.old) }
        ensures names { Names (self.old, cache.old) }
    {
        match mem::replace(&mut self.hand, Hand::Writes) {
            Hand::Writes => self.draft.step_writes(alloc, cloud, who),
            Hand::First(walk) => {
                let (hand, turn) = self.draft.step_walk(alloc, cloud, who, cache, true, walk);
                self.hand = hand;
                turn
            }
            Hand::Change(walk) => {
                let (hand, turn) = self.draft.step_walk(alloc, cloud, who, cache, false, walk);
                self.hand = hand;
                turn
            }
        }
    }
}
