//! The machines as one kind of thing, and what is wanted of each.

use crate::hostile_cloud::Hostile;
use crate::tally::Tally;
use crate::witness::Witness;
use cloud_trait::cloud::Cloud;
use cloud_trait::turn::Turn;
use cloud_trait::who::Who;
use commit_run::CommitRun;
use db_base::ids::{ClientId, TreeId};
use db_base::trouble::{CommitAnswer, Trouble};
use orphan_sweep::Sweep;
use page_cache::PageCache;
use page_ckpt::PageCkpt;
use range_scan::RangeScan;
use recover_run::recover::RecoverRun;
use settle_run::SettleRun;
use std::alloc::Global;
use tree_ckpt::TreeCkpt;
use tree_walk::Walk;

/// The most calls of a machine whose bound what it was answered does not give.
pub(crate) const MOST_CALLS: u64 = 10_000;

/// A machine.
pub(crate) trait Machine {
    /// The most calls that it may make, by what it was answered.
    fn most(witness: &Witness) -> u64;

    /// Does the local work before the first call.
    fn begin(&mut self, alloc: Global, cache: &mut PageCache) -> Turn<u64>;

    /// Makes the call in hand. At its end it tells how many leases it keeps.
    fn make<C: Cloud>(
        &mut self,
        alloc: Global,
        cloud: &mut C,
        who: Who,
        cache: &mut PageCache,
    ) -> Turn<u64>;
}

/// Who runs machines, for which client and in which tree.
#[derive(Clone, Copy)]
pub(crate) struct Bench {
    pub(crate) alloc: Global,
    pub(crate) who: Who,
    pub(crate) client: ClientId,
    pub(crate) tree: TreeId,
}

/// Whether a machine ends within its bound, its answer has its cause, and it gives back what it took.
pub(crate) fn ends<M: Machine, H: Hostile>(
    machine: &mut M,
    bench: &Bench,
    cloud: &mut H,
    cache: &mut PageCache,
    tally: &mut Tally,
) -> bool {
    cloud.begin();
    let owed = cloud.owed();
    let mut turn = machine.begin(bench.alloc, cache);
    for _ in 0..MOST_CALLS {
        if is_over(&turn) {
            note(tally, &turn);
            return cloud.witness().calls() <= M::most(cloud.witness())
                && is_right(cloud, owed, &turn);
        }
        turn = machine.make(bench.alloc, cloud, bench.who, cache);
    }
    false
}

/// Notes an end.
fn note(tally: &mut Tally, turn: &Turn<u64>) {
    match turn {
        Turn::More => {}
        Turn::Ended(_) => tally.end(),
        Turn::Stopped(trouble) => tally.stop(trouble),
    }
}

/// Whether no call follows.
fn is_over(turn: &Turn<u64>) -> bool {
    !matches!(turn, Turn::More)
}

/// Whether an end is right, where so many leases were owed when the machine began.
fn is_right<H: Hostile>(cloud: &H, owed: u64, turn: &Turn<u64>) -> bool {
    match turn {
        Turn::More => false,
        Turn::Ended(kept) => cloud.owed() == owed.saturating_add(*kept),
        Turn::Stopped(trouble) => cloud.witness().shows(trouble)
            && is_given_back(cloud, owed, trouble),
    }
}

/// Whether no more leases are owed. A machine that has no memory keeps what it holds.
fn is_given_back<H: Hostile>(cloud: &H, owed: u64, trouble: &Trouble) -> bool {
    matches!(trouble, Trouble::Memory) || cloud.owed() == owed
}

/// The turn of a machine that keeps so many leases at its end.
pub(crate) fn keeping<A: Drop>(turn: Turn<A>, kept: u64) -> Turn<u64> {
    match turn {
        Turn::More => Turn::More,
        Turn::Ended(_) => Turn::Ended(kept),
        Turn::Stopped(trouble) => Turn::Stopped(trouble),
    }
}

impl Machine for Walk {
    // The tree object, and each page once.
    fn most(witness: &Witness) -> u64 {
        1u64.saturating_add(witness.pages())
    }

    fn begin(&mut self, alloc: Global, cache: &mut PageCache) -> Turn<u64> {
        keeping(self.ready(alloc, cache), 0)
    }

    fn make<C: Cloud>(
        &mut self,
        alloc: Global,
        cloud: &mut C,
        who: Who,
        cache: &mut PageCache,
    ) -> Turn<u64> {
        keeping(self.step(alloc, cloud, who, cache), 0)
    }
}

impl Machine for RangeScan {
    // The tree object, and each page once.
    fn most(witness: &Witness) -> u64 {
        1u64.saturating_add(witness.pages())
    }

    fn begin(&mut self, alloc: Global, cache: &mut PageCache) -> Turn<u64> {
        keeping(self.ready(alloc, cache), 0)
    }

    // It ends behind its last leaf.
    fn make<C: Cloud>(
        &mut self,
        alloc: Global,
        cloud: &mut C,
        who: Who,
        cache: &mut PageCache,
    ) -> Turn<u64> {
        let turn = keeping(self.step(alloc, cloud, who, cache), 0);
        if matches!(&turn, Turn::Ended(_)) && self.go_on() {
            return Turn::More;
        }
        turn
    }
}

impl Machine for RecoverRun {
    // Seven, four for each message received, and one for each record of an open head.
    fn most(witness: &Witness) -> u64 {
        witness
            .ids()
            .saturating_mul(4)
            .saturating_add(7)
            .saturating_add(witness.open_count())
    }

    fn begin(&mut self, _alloc: Global, _cache: &mut PageCache) -> Turn<u64> {
        Turn::More
    }

    // An opening.
    fn make<C: Cloud>(
        &mut self,
        alloc: Global,
        cloud: &mut C,
        who: Who,
        _cache: &mut PageCache,
    ) -> Turn<u64> {
        keeping(self.step(alloc, cloud, who), 1)
    }
}

/// A commit's turn, which stops where it is not done.
fn committing(turn: Turn<CommitAnswer>) -> Turn<u64> {
    match turn {
        Turn::More => Turn::More,
        Turn::Ended(CommitAnswer::Committed { txn: _ }) => Turn::Ended(0),
        Turn::Ended(CommitAnswer::NotCommitted(trouble)) => Turn::Stopped(trouble),
        Turn::Ended(CommitAnswer::InDoubt) => Turn::Stopped(Trouble::Failed),
        Turn::Ended(CommitAnswer::CommittedOpen(trouble)) => Turn::Stopped(trouble),
        Turn::Stopped(trouble) => Turn::Stopped(trouble),
    }
}

impl Machine for CommitRun {
    // Three walks, one for each change and one for the head, and three for each of two changes beside two.
    fn most(witness: &Witness) -> u64 {
        1u64.saturating_add(witness.pages())
            .saturating_mul(3)
            .saturating_add(8)
    }

    fn begin(&mut self, alloc: Global, cache: &mut PageCache) -> Turn<u64> {
        committing(self.ready(alloc, cache))
    }

    fn make<C: Cloud>(
        &mut self,
        alloc: Global,
        cloud: &mut C,
        who: Who,
        cache: &mut PageCache,
    ) -> Turn<u64> {
        committing(self.step(alloc, cloud, who, cache))
    }
}

impl Machine for PageCkpt {
    // Five, one for each message received, and four for each page right of its own.
    fn most(witness: &Witness) -> u64 {
        witness
            .pages()
            .saturating_sub(1)
            .saturating_mul(4)
            .saturating_add(5)
            .saturating_add(witness.ids())
    }

    fn begin(&mut self, _alloc: Global, _cache: &mut PageCache) -> Turn<u64> {
        Turn::More
    }

    fn make<C: Cloud>(
        &mut self,
        alloc: Global,
        cloud: &mut C,
        who: Who,
        _cache: &mut PageCache,
    ) -> Turn<u64> {
        keeping(self.step(alloc, cloud, who), 0)
    }
}

impl Machine for TreeCkpt {
    // Its bound is by the tree that a state tells, and this one tells none.
    fn most(_witness: &Witness) -> u64 {
        MOST_CALLS
    }

    fn begin(&mut self, _alloc: Global, _cache: &mut PageCache) -> Turn<u64> {
        Turn::More
    }

    fn make<C: Cloud>(
        &mut self,
        alloc: Global,
        cloud: &mut C,
        who: Who,
        _cache: &mut PageCache,
    ) -> Turn<u64> {
        keeping(self.step(alloc, cloud, who), 0)
    }
}

impl Machine for Sweep {
    fn most(witness: &Witness) -> u64 {
        witness
            .pages()
            .saturating_add(witness.listed())
            .saturating_add(4)
    }

    fn begin(&mut self, _alloc: Global, _cache: &mut PageCache) -> Turn<u64> {
        Turn::More
    }

    fn make<C: Cloud>(
        &mut self,
        alloc: Global,
        cloud: &mut C,
        who: Who,
        _cache: &mut PageCache,
    ) -> Turn<u64> {
        keeping(self.step(alloc, cloud, who), 0)
    }
}

impl Machine for SettleRun {
    // Its bound is by the store that a state tells, and this one tells none.
    fn most(_witness: &Witness) -> u64 {
        MOST_CALLS
    }

    fn begin(&mut self, _alloc: Global, _cache: &mut PageCache) -> Turn<u64> {
        Turn::More
    }

    fn make<C: Cloud>(
        &mut self,
        alloc: Global,
        cloud: &mut C,
        who: Who,
        _cache: &mut PageCache,
    ) -> Turn<u64> {
        keeping(self.step(alloc, cloud, who), 0)
    }
}
