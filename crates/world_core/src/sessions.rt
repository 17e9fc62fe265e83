ghost use Rattle.std.specs.Prelude.{◌≡◌, ◌<◌};
ghost use Rattle.world_core.specs.Sessions.{NotesIn};
ghost use Rattle.world_core.specs.World.{all_sessions};

use crate::asked::Noting;
use client_work::answer::{Answer, Begun};
use client_work::calls::SessionCalls;
use client_work::op::Op;
use cloud_trait::cloud::Cloud;
use cloud_trait::turn::Turn;
use cloud_trait::who::Who;
use db_base::ids::{SessionNo, TreeId};
use db_base::refusal::Refused;
use std::alloc::Global;
use std::marker::Model;

/// How many sessions a replay has: the settler, and those that lines name.
const SESSIONS: u64 = 17;

/// The sessions of a replay, by their numbers: the settler, and those from 1 to 16 that lines name.
pub struct Sessions<S: SessionCalls> {
    list: Vec<S>,
}

// Written out, so that what holds sessions need not look into them to let them go.
impl<S: SessionCalls> Drop for Sessions<S> {
    fn drop(self) {
        let Sessions { list: _ } = self;
    }
}

impl<S: SessionCalls> Model for Sessions<S> {
    ghost use Rattle.std.specs.Prelude.{List, ◌≡◌, length, map};
    ghost use Rattle.client_work.specs.Session.{Acting};
    ghost use Rattle.world_core.specs.World.{all_sessions};

    ghost Value = { List Acting };

    ghost view = { λ s. map S.acting s.list.items };

    ghost invariant = { λ s. length s.list.items ≡ all_sessions };
}

impl<S: SessionCalls> Sessions<S> {
    ghost use Rattle.std.specs.Prelude.{replicate, slice_get, IfOk, IfErr, OnOk, OnErr, Some, Ok};
    ghost use Rattle.client_work.specs.BrokenOff.{broken_off};
    ghost use Rattle.client_work.specs.Session.{closed_session, settling_session, sweeping_session, Begins, StepsSession};
    ghost use Rattle.world_core.specs.Sessions.{Changes, IsAtWork, NotesIn, AbortsIn};

    /// Closed sessions. Refused for memory alone.
    #[tactic(auto, using(crate::proofs::Closed::replicate_more, crate::proofs::Closed::as_many))]
    pub fn new(alloc: Global) -> Result<Sessions<S>, Refused>
        ensures ok { IfOk result (λ s. s ≡ replicate all_sessions closed_session) }
        ensures memory { IfErr result (λ e. e ≡ Refused.Memory) }
    {
        let mut list = Vec::new(alloc);
        for _count in 0..SESSIONS {
            list.push(S::new(alloc)?)?;
        }
        Ok(Sessions { list })
    }

    /// The session of a number.
    pub(crate) fn get(&self, number: SessionNo) -> &S
        ensures { slice_get self.now number ≡ Some (S.acting result.now) }
    {
        &self.list[place_of(number)]
    }

    /// Begins an operation of the session of a number.
    pub(crate) fn begin(
        &mut self,
        alloc: Global,
        number: SessionNo,
        op: Op,
    ) -> Result<Begun, Refused>
        ensures { Changes number (λ a b. Begins op a b result) self.old self.new }
    {
        self.list[place_of(number)].begin(alloc, op)
    }

    /// Notes a change, or a record and its entry, in the session of a number.
    pub(crate) fn note(
        &mut self,
        alloc: Global,
        number: SessionNo,
        noting: Noting,
    ) -> Result<(), Refused>
        ensures { Changes number (λ a b. NotesIn noting a b result) self.old self.new }
    {
        noted(&mut self.list[place_of(number)], alloc, noting)
    }

    /// Drops the changes of the session of a number.
    pub(crate) fn abort(&mut self, number: SessionNo) -> Result<(), Refused>
        ensures { Changes number (λ a b. AbortsIn a b result) self.old self.new }
    {
        self.list[place_of(number)].abort()
    }

    /// Has the session of a number settle from now on. Refused for memory alone, and nothing changes then.
    pub(crate) fn settle(&mut self, alloc: Global, number: SessionNo) -> Result<(), Refused>
        ensures ok { OnOk result (Changes number (λ a b. b ≡ settling_session) self.old self.new) }
        ensures err { OnErr result (self.new ≡ self.old) }
        ensures memory { IfErr result (λ e. e ≡ Refused.Memory) }
    {
        let session = S::settling(alloc)?;
        put(&mut self.list[place_of(number)], session);
        Ok(())
    }

    /// Has the session of a number sweep a tree from now on. Refused for memory alone, and nothing changes then.
    pub(crate) fn sweep(
        &mut self,
        alloc: Global,
        number: SessionNo,
        tree: TreeId,
    ) -> Result<(), Refused>
        ensures ok { OnOk result (Changes number (λ a b. b ≡ sweeping_session tree) self.old self.new) }
        ensures err { OnErr result (self.new ≡ self.old) }
        ensures memory { IfErr result (λ e. e ≡ Refused.Memory) }
    {
        let session = S::sweeping(alloc, tree)?;
        put(&mut self.list[place_of(number)], session);
        Ok(())
    }

    /// Closes the session of a number at once.
    pub(crate) fn crash(&mut self, number: SessionNo)
        ensures { Changes number (λ a b. b ≡ closed_session) self.old self.new }
    {
        self.list[place_of(number)].crash();
    }

    /// Breaks off what the session of a number has in hand.
    pub(crate) fn break_off(&mut self, number: SessionNo)
        ensures { Changes number (λ a b. b ≡ broken_off a) self.old self.new }
    {
        self.list[place_of(number)].break_off();
    }

    /// Makes a step of the session of a number, which has a call in hand.
    #[inline(always)]
    pub(crate) fn step<C: Cloud>(&mut self, alloc: Global, cloud: &mut C, who: Who) -> Turn<Answer>
        requires { IsAtWork who.session self.old }
        ensures { Changes who.session (λ a b. StepsSession who (C.seen cloud.old) (C.seen cloud.new) a b
            (Ok result)) self.old self.new }
    {
        self.list[place_of(who.session)].step_at_work(alloc, cloud, who)
    }
}

/// Notes a change, or a record and its entry.
fn noted<S: SessionCalls>(session: &mut S, alloc: Global, noting: Noting) -> Result<(), Refused>
    ensures { NotesIn noting (S.acting session.old) (S.acting session.new) result }
{
    match noting {
        Noting::Single(tree, change) => session.note(tree, change),
        Noting::Indexed(tree, key, payload, attr) => session.put(alloc, tree, key, payload, attr),
    }
}

/// Puts a session into a place.
fn put<S: Drop>(place: &mut S, session: S)
    ensures { place.new ≡ session }
{
    *place = session;
}

/// The place of the session of a number.
fn place_of(number: SessionNo) -> usize
    ensures is { result ≡ number }
    ensures within { result < all_sessions }
{
    number.get() as usize
}
