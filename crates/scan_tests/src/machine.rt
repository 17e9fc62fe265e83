//! The machines that read a tree, as one kind of thing, so that what is told of them is proved once and not over the types of each.

use crate::store::who;
use crate::story::Story;
use cloud_trait::cloud::{Bench, Cloud};
use cloud_trait::lease::Lease;
use cloud_trait::turn::Turn;
use cloud_trait::who::Who;
use db_base::ids::PageId;
use db_base::wish::Wish;
use page_cache::PageCache;
use range_scan::RangeScan;
use record_read::RecordRead;
use std::alloc::Global;
use std::test::Fail;
use tree_walk::Walk;

/// A machine that reads a tree.
pub(crate) trait Machine {
    /// Does the local work before the first call.
    fn begin(&mut self, alloc: Global, cache: &mut PageCache) -> Turn<PageId>;

    /// Tells of the call in hand.
    fn tell(&self, story: &mut Story) -> Result<(), Fail>;

    /// Makes the call in hand.
    fn make<C: Cloud>(
        &mut self,
        alloc: Global,
        cloud: &mut C,
        who: Who,
        cache: &mut PageCache,
    ) -> Turn<PageId>;

    /// Goes on behind the leaf at which it ended; false where no call follows.
    fn leave_leaf(&mut self) -> bool;
}

// The type of a lease is named beside a call in hand, for the checker of borrows wants it there.

impl Machine for Walk {
    fn begin(&mut self, alloc: Global, cache: &mut PageCache) -> Turn<PageId> {
        self.ready(alloc, cache)
    }

    fn tell(&self, story: &mut Story) -> Result<(), Fail> {
        let _none: Option<Lease> = None;
        story.call(&self.in_hand())
    }

    fn make<C: Cloud>(
        &mut self,
        alloc: Global,
        cloud: &mut C,
        who: Who,
        cache: &mut PageCache,
    ) -> Turn<PageId> {
        self.step(alloc, cloud, who, cache)
    }

    fn leave_leaf(&mut self) -> bool {
        false
    }
}

impl Machine for RecordRead {
    fn begin(&mut self, alloc: Global, cache: &mut PageCache) -> Turn<PageId> {
        self.ready(alloc, cache)
    }

    fn tell(&self, story: &mut Story) -> Result<(), Fail> {
        let _none: Option<Lease> = None;
        story.call(&self.in_hand())
    }

    fn make<C: Cloud>(
        &mut self,
        alloc: Global,
        cloud: &mut C,
        who: Who,
        cache: &mut PageCache,
    ) -> Turn<PageId> {
        self.step(alloc, cloud, who, cache)
    }

    fn leave_leaf(&mut self) -> bool {
        false
    }
}

impl Machine for RangeScan {
    fn begin(&mut self, alloc: Global, cache: &mut PageCache) -> Turn<PageId> {
        self.ready(alloc, cache)
    }

    fn tell(&self, story: &mut Story) -> Result<(), Fail> {
        let _none: Option<Lease> = None;
        story.call(&self.in_hand())
    }

    fn make<C: Cloud>(
        &mut self,
        alloc: Global,
        cloud: &mut C,
        who: Who,
        cache: &mut PageCache,
    ) -> Turn<PageId> {
        self.step(alloc, cloud, who, cache)
    }

    fn leave_leaf(&mut self) -> bool {
        self.go_on()
    }
}

/// What tells of the leaf at which a machine ended.
pub(crate) trait Teller<M> {
    /// Tells what the machine has there.
    fn tell_leaf(&self, machine: &M, cache: &PageCache, story: &mut Story) -> Result<(), Fail>;
}

/// Runs a machine to its end: its calls are told, each leaf at which it ended, or its trouble. The call of this number, from 1, is
/// answered by the first version.
pub(crate) fn run<M: Machine, T: Teller<M>, C: Bench>(
    machine: &mut M,
    teller: &T,
    alloc: Global,
    cloud: &mut C,
    cache: &mut PageCache,
    story: &mut Story,
    late: u64,
) -> Result<(), Fail> {
    let mut turn = machine.begin(alloc, cache);
    for call in 1..20u64 {
        if !goes_on(machine, teller, cache, &turn, story)? {
            return Ok(());
        }
        if call == late {
            cloud.wish(Wish::Old(1));
        }
        turn = make(machine, alloc, cloud, cache, story)?;
    }
    Err(Fail::from("no end"))
}

fn make<M: Machine, C: Cloud>(
    machine: &mut M,
    alloc: Global,
    cloud: &mut C,
    cache: &mut PageCache,
    story: &mut Story,
) -> Result<Turn<PageId>, Fail> {
    machine.tell(story)?;
    Ok(machine.make(alloc, cloud, who()?, cache))
}

/// Tells where a turn led; false where no call follows.
fn goes_on<M: Machine, T: Teller<M>>(
    machine: &mut M,
    teller: &T,
    cache: &PageCache,
    turn: &Turn<PageId>,
    story: &mut Story,
) -> Result<bool, Fail> {
    if !story.end(turn)? {
        return Ok(true);
    }
    if let Turn::Stopped(_) = turn {
        return Ok(false);
    }
    teller.tell_leaf(machine, cache, story)?;
    Ok(machine.leave_leaf())
}
