//! The steps of sessions: that a quota covers them, and what is seen and noted of those that are made.

ghost use Rattle.std.specs.Prelude.{◌≡◌, ◌⊎◌, false, true, None, Some, IfOk, OnErr, OnOk};
ghost use Rattle.cloud_trait.specs.State.{CloudState};
ghost use Rattle.cloud_trait.specs.Weather.{Rose};
ghost use Rattle.world_audit.specs.Look.{Looked};
ghost use Rattle.world_core.specs.Put.{Put, SeesBefore, is_blind};
ghost use Rattle.world_core.specs.Stands.{Grows};
ghost use Rattle.world_core.specs.Span.{span_by};

use crate::about::{About, about_in_hand};
use crate::noting::{keep_landed, note_put};
use crate::put::{Sight, look_before, look_behind, object_in_hand};
use crate::quota::Quota;
use crate::replying::is_done;
use crate::world::{World, WorldFault};
use ckpt_policy::Note;
use client_work::answer::{Answer, handed};
use client_work::calls::SessionCalls;
use cloud_trait::cloud::Bench;
use cloud_trait::turn::Turn;
use cloud_trait::who::Who;
use db_base::ids::SessionNo;
use db_base::names::ObjName;
use db_base::refusal::Refused;
use db_base::wish::Wish;
use session_notes::note_of_call::note_of_call;
use std::alloc::Global;

impl<S: SessionCalls> World<S> {
    ghost use Rattle.client_work.specs.Session.{StepsSession};
    ghost use Rattle.world_core.specs.About.{HasNote};
    ghost use Rattle.world_core.specs.Handled.{FallsShort, KeepsNotes, NotesCall, NotesEnd, RunsShort, StepsLooked};
    ghost use Rattle.world_core.specs.Quota.{SpendsQuota};
    ghost use Rattle.world_core.specs.Sessions.{Changes, HasPut, IsAtWork, Puts};

    /// Makes a step of a session that is at work under a wish, and breaks the session off where memory runs out beside it.
    pub(crate) fn step_under<C: Bench>(
        &mut self,
        alloc: Global,
        cloud: &mut C,
        quota: &mut Quota,
        who: Who,
        wish: Wish,
    ) -> Result<Turn<Answer>, WorldFault>
        requires works { IsAtWork who.session self.old.sessions }
        ensures looked { IfOk result (λ turn. StepsLooked who wish
            (span_by C.seen cloud.old cloud.new self.old self.new) turn) }
        ensures short { OnErr result (RunsShort who wish
            (span_by C.seen cloud.old cloud.new self.old self.new)) }
        ensures grows { Grows who.event (C.seen cloud.old) (C.seen cloud.new) }
        ensures spends { SpendsQuota (C.seen cloud.old) (C.seen cloud.new) quota.old quota.new }
    {
        match self.step_within(alloc, cloud, quota, who, wish) {
            Err(fault) => {
                self.break_off(who.session);
                Err(fault)
            }
            stepped => stepped,
        }
    }

    /// Makes a step of a session that is at work under a wish, where the quota has a call left.
    #[tactic(auto, using(crate::proofs::QuotaLemmas::spends_not, crate::proofs::QuotaLemmas::spends_none))]
    #[inline(always)]
    pub(crate) fn step_within<C: Bench>(
        &mut self,
        alloc: Global,
        cloud: &mut C,
        quota: &mut Quota,
        who: Who,
        wish: Wish,
    ) -> Result<Turn<Answer>, WorldFault>
        requires works { IsAtWork who.session self.old.sessions }
        ensures looked { IfOk result (λ turn. StepsLooked who wish
            (span_by C.seen cloud.old cloud.new self.old self.new) turn) }
        ensures short { OnErr result (FallsShort who wish
            (span_by C.seen cloud.old cloud.new self.old self.new)) }
        ensures grows { Grows who.event (C.seen cloud.old) (C.seen cloud.new) }
        ensures spends { SpendsQuota (C.seen cloud.old) (C.seen cloud.new) quota.old quota.new }
    {
        if !quota.take() {
            return Err(WorldFault::Memory);
        }
        self.step_looked(alloc, cloud, who, wish)
    }

    /// Makes a step of a session that is at work under a wish, between two looks where it is a put and the world is not blind.
    #[inline(always)]
    fn step_looked<C: Bench>(
        &mut self,
        alloc: Global,
        cloud: &mut C,
        who: Who,
        wish: Wish,
    ) -> Result<Turn<Answer>, WorldFault>
        requires works { IsAtWork who.session self.old.sessions }
        ensures looked { IfOk result (λ turn. StepsLooked who wish
            (span_by C.seen cloud.old cloud.new self.old self.new) turn) }
        ensures short { OnErr result (FallsShort who wish
            (span_by C.seen cloud.old cloud.new self.old self.new)) }
        ensures grows { Grows who.event (C.seen cloud.old) (C.seen cloud.new) }
    {
        if self.blind {
            return match self.step_other(alloc, cloud, who, wish) {
                Ok(turn) => Ok(turn),
                Err(fault) => Err(fault),
            };
        }
        // A put's result is handed on in parts, so that the results of the other steps need no place in memory.
        match about_in_hand(self.session(who.session)) {
            About::Looks => match self.step_looking(alloc, cloud, who, wish) {
                Ok(turn) => Ok(turn),
                Err(fault) => Err(fault),
            },
            About::Notes(note) => self.step_noted(alloc, cloud, who, wish, note),
        }
    }

    /// Makes a step between two looks, where it is a put.
    #[inline(never)]
    #[tactic(auto, using(crate::proofs::Sights::puts_from, crate::proofs::Sights::puts_none))]
    fn step_looking<C: Bench>(
        &mut self,
        alloc: Global,
        cloud: &mut C,
        who: Who,
        wish: Wish,
    ) -> Result<Turn<Answer>, WorldFault>
        requires works { IsAtWork who.session self.old.sessions }
        ensures looked { IfOk result (λ turn. StepsLooked who wish
            (span_by C.seen cloud.old cloud.new self.old self.new) turn) }
        ensures short { OnErr result (FallsShort who wish
            (span_by C.seen cloud.old cloud.new self.old self.new)) }
        ensures grows { Grows who.event (C.seen cloud.old) (C.seen cloud.new) }
    {
        match object_in_hand(self.session(who.session)) {
            Some(name) => self.step_put(alloc, cloud, who, wish, &name),
            None => self.step_other(alloc, cloud, who, wish),
        }
    }

    /// Makes a step at whose put nothing looks: it is none, or the world is blind.
    #[inline(never)]
    fn step_other<C: Bench>(
        &mut self,
        alloc: Global,
        cloud: &mut C,
        who: Who,
        wish: Wish,
    ) -> Result<Turn<Answer>, WorldFault>
        requires works { IsAtWork who.session self.old.sessions }
        requires unlooked { (self.old.blind ≡ true) ⊎ HasPut who.session self.old.sessions None }
        ensures looked { IfOk result (λ turn. StepsLooked who wish
            (span_by C.seen cloud.old cloud.new self.old self.new) turn) }
        ensures short { OnErr result (FallsShort who wish
            (span_by C.seen cloud.old cloud.new self.old self.new)) }
        ensures grows { Grows who.event (C.seen cloud.old) (C.seen cloud.new) }
    {
        let note = self.note_in_hand(who.session);
        self.step_noted(alloc, cloud, who, wish, note)
    }

    /// What is to be noted of the call in hand of the session.
    #[inline(never)]
    fn note_in_hand(&self, number: SessionNo) -> Option<Note>
        ensures { HasNote number self.now.sessions result }
    {
        match self.session(number).in_hand() {
            Some(call) => note_of_call(&call),
            None => None,
        }
    }

    /// Makes a step at whose put nothing looks, and of whose call this is to be noted.
    #[inline(always)]
    fn step_noted<C: Bench>(
        &mut self,
        alloc: Global,
        cloud: &mut C,
        who: Who,
        wish: Wish,
        note: Option<Note>,
    ) -> Result<Turn<Answer>, WorldFault>
        requires works { IsAtWork who.session self.old.sessions }
        requires unlooked { (self.old.blind ≡ true) ⊎ HasPut who.session self.old.sessions None }
        requires notes { HasNote who.session self.old.sessions note }
        ensures looked { IfOk result (λ turn. StepsLooked who wish
            (span_by C.seen cloud.old cloud.new self.old self.new) turn) }
        ensures short { OnErr result (FallsShort who wish
            (span_by C.seen cloud.old cloud.new self.old self.new)) }
        ensures grows { Grows who.event (C.seen cloud.old) (C.seen cloud.new) }
    {
        match self.note_call(who.session, note) {
            Ok(()) => {}
            Err(_) => return Err(WorldFault::Memory),
        }
        cloud.wish(wish);
        let turn = self.call(alloc, cloud, who);
        match self.note_end(who.session, is_done(&turn)) {
            Ok(()) => Ok(handed(turn)),
            Err(_) => Err(WorldFault::Memory),
        }
    }

    /// Notes that what the session had in hand came to its end; done where that is a checkpoint that was done. Refused for memory
    /// alone, and then nothing changes.
    #[inline(always)]
    fn note_end(&mut self, number: SessionNo, done: bool) -> Result<(), Refused>
        ensures ok { OnOk result (NotesEnd number done self.old self.new) }
        ensures err { OnErr result (self.new ≡ self.old) }
        ensures done { OnErr result (done ≡ true) }
    {
        self.notes.end(number, done)
    }

    /// Notes the call in hand of the session, of which this is to be noted. Refused for memory alone, and then nothing changes.
    #[inline(always)]
    fn note_call(&mut self, number: SessionNo, note: Option<Note>) -> Result<(), Refused>
        requires { HasNote number self.old.sessions note }
        ensures ok { OnOk result (NotesCall number self.old self.new) }
        ensures err { OnErr result (self.new ≡ self.old) }
    {
        self.notes.take(number, note)
    }

    /// Looks at the object of the put that the session has in hand.
    fn look_before<C: Bench>(&self, cloud: &mut C, number: SessionNo) -> Result<Sight, WorldFault>
        requires { (put : Put) × HasPut number self.now.sessions (Some put) }
        ensures looked { Looked (C.seen cloud.old) (C.seen cloud.new) }
        ensures dark { IfOk result (λ sight. sight.newest ≡ None
            → Rose (C.seen cloud.old).counts.dark (C.seen cloud.new).counts.dark) }
        ensures sees { (s : CloudState) → (C.seen cloud.old).state ≡ Some s → (put : Put)
            → HasPut number self.now.sessions (Some put) → IfOk result (SeesBefore s put) }
    {
        look_before(cloud, self.session(number))
    }

    /// Makes a step that is a put, and notes what it commits or applies where it is seen to land.
    fn step_put<C: Bench>(
        &mut self,
        alloc: Global,
        cloud: &mut C,
        who: Who,
        wish: Wish,
        name: &ObjName,
    ) -> Result<Turn<Answer>, WorldFault>
        requires works { IsAtWork who.session self.old.sessions }
        requires puts { Puts who.session self.old.sessions name.now }
        ensures looked { IfOk result (λ turn. StepsLooked who wish
            (span_by C.seen cloud.old cloud.new self.old self.new) turn) }
        ensures short { OnErr result (FallsShort who wish
            (span_by C.seen cloud.old cloud.new self.old self.new)) }
        ensures grows { Grows who.event (C.seen cloud.old) (C.seen cloud.new) }
    {
        let before = self.look_before(cloud, who.session)?;
        let mark = self.audit.mark();
        match note_put(alloc, &mut self.audit, &self.sessions, who.session, *name) {
            Ok(()) => {}
            Err(_) => return Err(WorldFault::Memory),
        }
        cloud.wish(wish);
        let turn = self.sessions.step(alloc, cloud, who);
        match self.notes.end(who.session, is_done(&turn)) {
            Ok(()) => {}
            Err(_) => return Err(WorldFault::Memory),
        }
        let after = look_behind(cloud, *name, &before)?;
        keep_landed(&mut self.audit, mark, before.newest, after);
        self.blind = is_blinded(self.blind, before.newest, after);
        Ok(turn)
    }

    /// Makes the call in hand of the session.
    #[inline(always)]
    fn call<C: Bench>(&mut self, alloc: Global, cloud: &mut C, who: Who) -> Turn<Answer>
        requires { IsAtWork who.session self.old.sessions }
        ensures session { Changes who.session (λ a b. StepsSession who (C.seen cloud.old) (C.seen cloud.new) a b
            (Ok result)) self.old.sessions self.new.sessions }
        ensures audit { self.new.audit ≡ self.old.audit }
        ensures blind { self.new.blind ≡ self.old.blind }
        ensures notes { KeepsNotes self.old self.new }
    {
        self.sessions.step(alloc, cloud, who)
    }
}

/// Whether a look failed, in earlier steps or before or after the put of this one.
fn is_blinded(blind: bool, before: Option<bool>, after: Option<bool>) -> bool
    ensures saw { result ≡ false
        → (blind ≡ false) × (is_blind before ≡ false) × (is_blind after ≡ false) }
    ensures blinded { result ≡ true → (blind ≡ true) ⊎ ((before ≡ None) ⊎ (after ≡ None)) }
{
    blind || before.is_none() || after.is_none()
}
