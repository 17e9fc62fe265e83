//! Recoveries, settlings, checkpoints and sweeps as one kind of machine.

use crate::store::who;
use crate::story::Story;
use cloud_trait::cloud::{Bench, Cloud};
use cloud_trait::lease::Lease;
use cloud_trait::who::Who;
use db_base::wish::{Positions, Wish};
use orphan_sweep::Sweep;
use page_ckpt::PageCkpt;
use recover_run::recover::RecoverRun;
use settle_run::SettleRun;
use std::alloc::Global;
use std::test::Fail;
use tree_ckpt::TreeCkpt;

/// A machine.
pub(crate) trait Machine {
    /// Tells of the call in hand.
    fn tell(&self, story: &mut Story) -> Result<(), Fail>;

    /// Makes the call in hand, and tells the answer; true where there is one.
    fn make<C: Cloud>(
        &mut self,
        alloc: Global,
        cloud: &mut C,
        who: Who,
        story: &mut Story,
    ) -> Result<bool, Fail>;
}

// The type of a lease is named beside a call in hand, for the checker of borrows wants it there.

impl Machine for RecoverRun {
    fn tell(&self, story: &mut Story) -> Result<(), Fail> {
        let _none: Option<Lease> = None;
        story.call(&self.in_hand())
    }

    fn make<C: Cloud>(
        &mut self,
        alloc: Global,
        cloud: &mut C,
        who: Who,
        story: &mut Story,
    ) -> Result<bool, Fail> {
        let turn = self.step(alloc, cloud, who);
        story.recovery(&turn)
    }
}

impl Machine for SettleRun {
    fn tell(&self, story: &mut Story) -> Result<(), Fail> {
        let _none: Option<Lease> = None;
        story.call(&self.in_hand())
    }

    fn make<C: Cloud>(
        &mut self,
        alloc: Global,
        cloud: &mut C,
        who: Who,
        story: &mut Story,
    ) -> Result<bool, Fail> {
        let turn = self.step(alloc, cloud, who);
        story.settled(&turn)
    }
}

impl Machine for PageCkpt {
    fn tell(&self, story: &mut Story) -> Result<(), Fail> {
        let _none: Option<Lease> = None;
        story.call(&self.in_hand())
    }

    fn make<C: Cloud>(
        &mut self,
        alloc: Global,
        cloud: &mut C,
        who: Who,
        story: &mut Story,
    ) -> Result<bool, Fail> {
        let turn = self.step(alloc, cloud, who);
        story.checkpoint(&turn)
    }
}

impl Machine for TreeCkpt {
    fn tell(&self, story: &mut Story) -> Result<(), Fail> {
        let _none: Option<Lease> = None;
        story.call(&self.in_hand())
    }

    fn make<C: Cloud>(
        &mut self,
        alloc: Global,
        cloud: &mut C,
        who: Who,
        story: &mut Story,
    ) -> Result<bool, Fail> {
        let turn = self.step(alloc, cloud, who);
        story.checkpoint(&turn)
    }
}

impl Machine for Sweep {
    fn tell(&self, story: &mut Story) -> Result<(), Fail> {
        let _none: Option<Lease> = None;
        story.call(&self.in_hand())
    }

    fn make<C: Cloud>(
        &mut self,
        alloc: Global,
        cloud: &mut C,
        who: Who,
        story: &mut Story,
    ) -> Result<bool, Fail> {
        let turn = self.step(alloc, cloud, who);
        story.swept(&turn)
    }
}

/// What is done and told of the calls of a machine, which are counted from 1.
#[derive(Clone, Copy)]
pub(crate) struct Calls {
    /// The first call that is told.
    pub(crate) first: u64,
    /// The last one.
    pub(crate) last: u64,
    /// The call that gets the first message alone, 0 for none.
    pub(crate) short: u64,
}

/// Runs a machine to its end: some of its calls are told, and its answer.
pub(crate) fn run<M: Machine, C: Bench>(
    machine: &mut M,
    alloc: Global,
    cloud: &mut C,
    story: &mut Story,
    calls: Calls,
) -> Result<(), Fail> {
    for call in 1..2000u64 {
        if call == calls.short {
            shorten(alloc, cloud)?;
        }
        if calls.first <= call && call <= calls.last {
            machine.tell(story)?;
        }
        if machine.make(alloc, cloud, who()?, story)? {
            return Ok(());
        }
    }
    Err(Fail::from("no end"))
}

fn shorten<C: Bench>(alloc: Global, cloud: &mut C) -> Result<(), Fail> {
    let first = Positions::new(alloc, &[1])?;
    cloud.wish(Wish::Give(first));
    Ok(())
}
