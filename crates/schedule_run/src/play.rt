//! A world, and how many events it has handled.

ghost use Rattle.std.specs.Prelude.{◌≡◌, true, false, IfOk, IfErr};
ghost use Rattle.schedule_run.specs.Play.{IsFresh, Takes, RunsWhole};

use client_work::calls::SessionCalls;
use cloud_trait::cloud::Bench;
use db_base::refusal::Refused;
use event_text::event::Event;
use reply_text::reply::Reply;
use std::alloc::Global;
use std::marker::Model;
use world_core::quota::Quota;
use world_core::world::{World, WorldFault};

/// A world that handles one event behind another, each under the next number from 1 on.
pub(crate) struct Play<S: SessionCalls> {
    world: World<S>,
    // How many events it has handled.
    handled: u64,
    // How many calls it may still make.
    quota: Quota,
}

// Written out, so that what holds one need not look into it to let it go.
impl<S: SessionCalls> Drop for Play<S> {
    fn drop(self) {
        let Play {
            world: _,
            handled: _,
            quota: _,
        } = self;
    }
}

impl<S: SessionCalls> Model for Play<S> {
    ghost use Rattle.schedule_run.specs.InPlay.{Play};

    ghost Value = { Play };

    ghost view = { λ p. record { world = p.world; handled = p.handled; left = p.quota } };
}

impl<S: SessionCalls> Play<S> {
    /// A new world, that has handled nothing. Refused for memory alone.
    pub fn new(alloc: Global) -> Result<Play<S>, Refused>
        ensures fresh { IfOk result (λ play. IsFresh false play) }
        ensures memory { IfErr result (λ e. e ≡ Refused.Memory) }
    {
        Ok(Play {
            world: World::new(alloc)?,
            handled: 0,
            quota: Quota::new(u64::MAX),
        })
    }

    /// A new world that looks at no put, and has handled nothing: for events that ask for no report. Refused for memory alone.
    pub fn unseeing(alloc: Global) -> Result<Play<S>, Refused>
        ensures fresh { IfOk result (λ play. IsFresh true play) }
        ensures memory { IfErr result (λ e. e ≡ Refused.Memory) }
    {
        Play::within(alloc, u64::MAX)
    }

    /// The same for events that make at most so many calls. Refused for memory alone.
    pub fn within(alloc: Global, most: u64) -> Result<Play<S>, Refused>
        ensures fresh { IfOk result (λ play. IsFresh true play) }
        ensures left { IfOk result (λ play. play.left ≡ most) }
        ensures memory { IfErr result (λ e. e ≡ Refused.Memory) }
    {
        Ok(Play {
            world: World::unseeing(alloc)?,
            handled: 0,
            quota: Quota::new(most),
        })
    }

    /// Handles the next event. A call that it may not make any more is told as want of memory.
    pub fn take<C: Bench>(
        &mut self,
        alloc: Global,
        cloud: &mut C,
        event: &Event,
    ) -> Result<Reply, WorldFault>
        ensures { Takes event.now result (C.seen cloud.old) (C.seen cloud.new) self.old self.new }
    {
        self.handled = match self.handled.checked_add(1) {
            Some(handled) => handled,
            None => return Err(WorldFault::Memory),
        };
        self.world
            .event(alloc, cloud, &mut self.quota, self.handled, event)
    }

    /// Handles an event and, where it began an operation of session 1, the run of that session. The last reply.
    pub fn run_whole<C: Bench>(
        &mut self,
        alloc: Global,
        cloud: &mut C,
        event: &Event,
    ) -> Result<Reply, WorldFault>
        ensures { RunsWhole event.now result (C.seen cloud.old) (C.seen cloud.new) self.old self.new }
    {
        match self.take(alloc, cloud, event) {
            Ok(reply) => match reply {
                Reply::Begun => self.take(alloc, cloud, &Event::Run { session: 1 }),
                reply => Ok(reply),
            },
            Err(fault) => Err(fault),
        }
    }
}

/// Lets an event go: no other function has to look into its parts for that.
pub(crate) fn let_event_go(_event: Event) {}
