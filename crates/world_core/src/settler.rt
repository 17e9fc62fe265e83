//! The lines of the settler: a settling, and the sweep of a tree.

ghost use Rattle.std.specs.Prelude.{◌≡◌, slice_get, Some, OnErr, OnOk};
ghost use Rattle.world_core.specs.Stands.{Grows};
ghost use Rattle.world_core.specs.Span.{span_by};

use crate::asked::Asked;
use crate::quota::Quota;
use crate::replying::{declined, settled_reply, swept_reply};
use crate::world::{World, WorldFault};
use client_work::calls::SessionCalls;
use cloud_trait::cloud::Bench;
use cloud_trait::who::Who;
use db_base::ids::{SessionNo, TreeId};
use db_base::refusal::Refused;
use reply_text::reply::Reply;
use std::alloc::Global;

impl<S: SessionCalls> World<S> {
    ghost use Rattle.client_work.specs.Session.{settling_session, sweeping_session};
    ghost use Rattle.db_base.specs.Ids.{IsTree};
    ghost use Rattle.session_facts.specs.Lines.Errands.{settles, sweeps};
    ghost use Rattle.world_core.specs.Handled.{Answers, Has, KeepsNotes, Settles, SettlesOn};
    ghost use Rattle.world_core.specs.Quota.{SpendsQuota};

    /// Has the settler settle.
    #[tactic(auto, using(crate::proofs::GrowthLemmas::grows_not, crate::proofs::QuotaLemmas::spends_not))]
    pub(crate) fn settle<C: Bench>(
        &mut self,
        alloc: Global,
        cloud: &mut C,
        quota: &mut Quota,
        n: u64,
    ) -> Result<Reply, WorldFault>
        ensures settles { Settles settles n
            (span_by C.seen cloud.old cloud.new self.old self.new) result }
        ensures grows { Grows n (C.seen cloud.old) (C.seen cloud.new) }
        ensures spends { SpendsQuota (C.seen cloud.old) (C.seen cloud.new) quota.old quota.new }
    {
        let session = SessionNo::settler();
        match self.begin_settling(alloc, session) {
            Ok(()) => self.settle_on(alloc, cloud, quota, Who { session, event: n }),
            Err(_) => Err(WorldFault::Memory),
        }
    }

    /// Has the session settle from now on. Refused for memory alone.
    fn begin_settling(&mut self, alloc: Global, number: SessionNo) -> Result<(), Refused>
        ensures ok { OnOk result (Has number settling_session self.old self.new) }
        ensures notes { KeepsNotes self.old self.new }
        ensures err { OnErr result (self.new ≡ self.old) }
    {
        self.sessions.settle(alloc, number)
    }

    /// Makes plain steps of a session that settles until the answer, and closes it then.
    fn settle_on<C: Bench>(
        &mut self,
        alloc: Global,
        cloud: &mut C,
        quota: &mut Quota,
        who: Who,
    ) -> Result<Reply, WorldFault>
        requires { slice_get self.old.sessions who.session ≡ Some settling_session }
        ensures settles { SettlesOn settles who
            (span_by C.seen cloud.old cloud.new self.old self.new) result }
        ensures grows { Grows who.event (C.seen cloud.old) (C.seen cloud.new) }
        ensures spends { SpendsQuota (C.seen cloud.old) (C.seen cloud.new) quota.old quota.new }
    {
        let answer = self.run_on(alloc, cloud, quota, who);
        self.close(who.session);
        match answer {
            Ok(answer) => settled_reply(answer),
            Err(fault) => Err(fault),
        }
    }

    /// Has the settler sweep a tree, where the line's number is one.
    #[tactic(auto, using(crate::proofs::GrowthLemmas::grows_not, crate::proofs::QuotaLemmas::spends_not))]
    pub(crate) fn sweep_of<C: Bench>(
        &mut self,
        alloc: Global,
        cloud: &mut C,
        quota: &mut Quota,
        n: u64,
        tree: Result<TreeId, Refused>,
    ) -> Result<Reply, WorldFault>
        ensures answers { Answers n (Asked.Sweep tree)
            (span_by C.seen cloud.old cloud.new self.old self.new) result }
        ensures grows { Grows n (C.seen cloud.old) (C.seen cloud.new) }
        ensures spends { SpendsQuota (C.seen cloud.old) (C.seen cloud.new) quota.old quota.new }
    {
        match tree {
            Ok(tree) => self.sweep(alloc, cloud, quota, n, tree),
            Err(why) => declined(why),
        }
    }

    /// Has the settler sweep a tree.
    #[tactic(auto, using(crate::proofs::GrowthLemmas::grows_not, crate::proofs::QuotaLemmas::spends_not))]
    fn sweep<C: Bench>(
        &mut self,
        alloc: Global,
        cloud: &mut C,
        quota: &mut Quota,
        n: u64,
        tree: TreeId,
    ) -> Result<Reply, WorldFault>
        ensures tree { IsTree tree }
        ensures sweeps { Settles (sweeps tree) n
            (span_by C.seen cloud.old cloud.new self.old self.new) result }
        ensures grows { Grows n (C.seen cloud.old) (C.seen cloud.new) }
        ensures spends { SpendsQuota (C.seen cloud.old) (C.seen cloud.new) quota.old quota.new }
    {
        let session = SessionNo::settler();
        // Read for the clause that the tree is one.
        let _ = tree.get();
        match self.begin_sweep(alloc, session, tree) {
            Ok(()) => self.sweep_on(alloc, cloud, quota, Who { session, event: n }, tree),
            Err(_) => Err(WorldFault::Memory),
        }
    }

    /// Has the session sweep a tree from now on. Refused for memory alone.
    fn begin_sweep(&mut self, alloc: Global, number: SessionNo, tree: TreeId) -> Result<(), Refused>
        ensures ok { OnOk result (Has number (sweeping_session tree) self.old self.new) }
        ensures notes { KeepsNotes self.old self.new }
        ensures err { OnErr result (self.new ≡ self.old) }
    {
        self.sessions.sweep(alloc, number, tree)
    }

    /// Makes plain steps of a session that sweeps a tree until the answer, and closes it then.
    fn sweep_on<C: Bench>(
        &mut self,
        alloc: Global,
        cloud: &mut C,
        quota: &mut Quota,
        who: Who,
        tree: TreeId,
    ) -> Result<Reply, WorldFault>
        requires { slice_get self.old.sessions who.session ≡ Some (sweeping_session tree) }
        ensures sweeps { SettlesOn (sweeps tree) who
            (span_by C.seen cloud.old cloud.new self.old self.new) result }
        ensures grows { Grows who.event (C.seen cloud.old) (C.seen cloud.new) }
        ensures spends { SpendsQuota (C.seen cloud.old) (C.seen cloud.new) quota.old quota.new }
    {
        let answer = self.run_on(alloc, cloud, quota, who);
        self.close(who.session);
        match answer {
            Ok(answer) => swept_reply(answer),
            Err(fault) => Err(fault),
        }
    }
}
