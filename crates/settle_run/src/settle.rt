//! The machine.

ghost use Rattle.std.specs.Prelude.{◌≡◌, ◌<◌, ◌≤◌, ◌^◌, List, [], length};
ghost use Rattle.cloud_trait.specs.Call.{ask_of};
ghost use Rattle.cloud_trait.specs.Machine.{Deed};

use crate::known::add_new;
use crate::part::Part;
use crate::settled::Settled;
use cloud_trait::call::Call;
use cloud_trait::cloud::Cloud;
use cloud_trait::turn::Turn;
use cloud_trait::who::Who;
use db_base::ids::{ClientId, MsgId, PageId, TreeId};
use db_base::trouble::Trouble;
use log_codec::record::PuItem;
use std::alloc::Global;
use std::marker::Model;

/// A whole settling: each client is recovered; then, tree by tree, checkpoints empty the tree's queue and the queue of each leaf from
/// the left end on, each queue until a checkpoint received nothing from it that was new.
pub struct SettleRun {
    part: Part,
    known: Vec<MsgId>,
    visited: Vec<PageId>,
    calls: u64,
}

// Written out, so that what holds a settling need not look into it to let it go.
impl Drop for SettleRun {
    fn drop(self) {
        let SettleRun {
            part: _,
            known: _,
            visited: _,
            calls: _,
        } = self;
    }
}

impl Model for SettleRun {
    ghost use Rattle.settle_run.specs.Settling.{Settling};

    ghost Value = { Settling };

    ghost view = { λ s. record { part = s.part; known = s.known.items; visited = s.visited.items; calls = s.calls } };
}

impl SettleRun {
    ghost use Rattle.settle_run.specs.Parts.{part_applying, IsSoundPart};
    ghost use Rattle.settle_run.specs.End.{calls_left};
    ghost use Rattle.settle_run.specs.Meaning.{Went, Stepped};
    ghost use Rattle.settle_run.specs.Leases.{Holds, GivesBack};
    ghost use Rattle.settle_run.specs.Settling.{Settling, new_settling, settle_ask, begins, behind_client, after_turn, ended_by, passed, goes_on, to_page, goes_right, behind_tree, is_visited, TurnsBy};

    /// A settling before its first call. Takes no memory.
    pub fn new(alloc: Global) -> SettleRun
        ensures { result ≡ new_settling }
    {
        SettleRun {
            part: Part::client(alloc, first_client()),
            known: Vec::new(alloc),
            visited: Vec::new(alloc),
            calls: 0,
        }
    }

    /// The service call that the next step makes.
    pub fn in_hand(&self) -> Call<'_>
        ensures { ask_of result ≡ settle_ask self.now }
    {
        self.part.in_hand()
    }

    /// The items that the put in hand of the checkpoint at work applies; none where no checkpoint is at work.
    pub fn applying(&self) -> &[PuItem]
        ensures { result.now ≡ part_applying self.now.part }
    {
        self.part.applying()
    }

    // ---- what comes next

    fn is_visited(&self, page: PageId) -> bool
        ensures { result ≡ is_visited self.now page }
    {
        self.visited.iter().any(|q| q.get() == page.get())
    }

    /// The checkpoints of a page begin.
    fn to_page(&mut self, alloc: Global, tree: TreeId, page: PageId) -> Turn<Settled>
        ensures { TurnsBy (λ s n. to_page s tree page ≡ n) self.old self.new result }
    {
        if self.visited.push(page).is_err() {
            return Turn::Stopped(Trouble::Memory);
        }
        self.part.fold_page(alloc, tree, page);
        self.known.clear();
        Turn::More
    }

    /// The right page is next, unless it was at work before; without one the tree is done.
    fn go_right(&mut self, alloc: Global, tree: TreeId, right: Option<PageId>) -> Turn<Settled>
        ensures { TurnsBy (λ s n. goes_right s tree right ≡ n) self.old self.new result }
    {
        let Some(page) = right else {
            return self.leave_tree(alloc, tree);
        };
        if self.is_visited(page) {
            return Turn::Stopped(Trouble::Loop { page });
        }
        self.to_page(alloc, tree, page)
    }

    /// The next tree is at work, or all are done.
    fn leave_tree(&mut self, alloc: Global, tree: TreeId) -> Turn<Settled>
        ensures { TurnsBy (λ s n. behind_tree s tree ≡ n) self.old self.new result }
    {
        match TreeId::new(tree.get() + 1) {
            Ok(next) => {
                self.part.fold(alloc, next);
                self.known.clear();
                self.visited.clear();
                Turn::More
            }
            Err(_) => Turn::Ended(Settled { calls: self.calls }),
        }
    }

    /// The next client's recovery is at work, or behind the last client the first tree's checkpoint.
    fn leave_client(&mut self, alloc: Global, client: ClientId) -> Turn<Settled>
        ensures { TurnsBy (λ s n. begins s (behind_client client) ≡ n) self.old self.new result }
    {
        match ClientId::new(client.get() + 1) {
            Ok(next) => self.part.recover(alloc, next),
            Err(_) => self.part.fold(alloc, first_tree()),
        }
        self.known.clear();
        Turn::More
    }

    /// What comes next once nothing new was received.
    fn go_on(&mut self, alloc: Global) -> Turn<Settled>
        ensures { TurnsBy (λ s n. goes_on s s.part ≡ n) self.old self.new result }
    {
        match &self.part {
            Part::Client(client, _) => {
                let client = *client;
                self.leave_client(alloc, client)
            }
            Part::Tree(tree, _) => {
                let tree = *tree;
                self.visited.clear();
                self.to_page(alloc, tree, PageId::first())
            }
            Part::Page(tree, _, machine) => {
                let tree = *tree;
                let right = machine.right();
                self.go_right(alloc, tree, right)
            }
        }
    }

    /// The same again where something new was received, and else what comes next.
    fn pass(&mut self, alloc: Global) -> Turn<Settled>
        ensures { TurnsBy (λ s n. passed s ≡ n) self.old self.new result }
    {
        match add_new(&mut self.known, self.part.received()) {
            Ok(true) => {
                self.part = self.part.again(alloc);
                Turn::More
            }
            Ok(false) => self.go_on(alloc),
            Err(_) => Turn::Stopped(Trouble::Memory),
        }
    }

    /// Counts the call, and goes on by what it came to.
    #[inline(always)]
    fn follow(&mut self, alloc: Global, turn: Turn<u64>) -> Turn<Settled>
        ensures { TurnsBy (λ s n. after_turn s turn ≡ n) self.old self.new result }
    {
        let Some(calls) = self.calls.checked_add(1) else {
            return Turn::Stopped(Trouble::Memory);
        };
        self.calls = calls;
        match turn {
            Turn::More => Turn::More,
            Turn::Ended(left) => self.end(alloc, left),
            Turn::Stopped(trouble) => Turn::Stopped(trouble),
        }
    }

    /// A failed deletion of a checkpoint stops the settling.
    #[inline(never)]
    fn end(&mut self, alloc: Global, left: u64) -> Turn<Settled>
        ensures { TurnsBy (λ s n. ended_by s left ≡ n) self.old self.new result }
    {
        if left == 0 {
            return self.pass(alloc);
        }
        Turn::Stopped(Trouble::Failed)
    }

    /// Makes the call in hand, and does the local work up to the next one.
    #[inline(always)]
    pub fn step<C: Cloud>(&mut self, alloc: Global, cloud: &mut C, who: Who) -> Turn<Settled>
        // The call in hand was made, and all that follows from its one answer.
        ensures steps { Stepped who (C.seen cloud.old) (C.seen cloud.new) self.old self.new result }
        // A recovery at work has the bytes in hand that it is to put or send.
        ensures sound { IsSoundPart self.old.part }
        // Each step that goes on leaves fewer calls.
        ensures less { (h : List Deed) → Went h self.old → result ≡ Turn.More → calls_left self.new < calls_left self.old }
        // The part at work holds what it took and has not given back, and its call names leases that it holds.
        ensures holds { (h : List Deed) → Went h self.old → Holds h self.old }
        // Before an end all leases are given back.
        ensures gives_back { (h : List Deed) → Went h self.old → GivesBack self.new result }
    {
        let turn = self.part.step(alloc, cloud, who);
        let next = self.follow(alloc, turn);
        self.few();
        next
    }

    /// A list is no longer than the greatest usize.
    fn few(&self)
        ensures known { length self.now.known ≤ 2 ^ 64 }
        ensures visited { length self.now.visited ≤ 2 ^ 64 }
    {
        let _known = self.known.len();
        let _visited = self.visited.len();
    }
}

/// Client 1.
fn first_client() -> ClientId
    ensures { result ≡ 1 }
{
    match ClientId::new(1) {
        Ok(client) => client,
        Err(_) => unreachable!(),
    }
}

/// Tree 1.
fn first_tree() -> TreeId
    ensures { result ≡ 1 }
{
    match TreeId::new(1) {
        Ok(tree) => tree,
        Err(_) => unreachable!(),
    }
}
