ghost use Rattle.std.specs.Prelude.{◌≡◌, ◌<◌, ◌+◌, length};
ghost use Rattle.db_base.specs.declared.trouble.Trouble.{Trouble};
ghost use Rattle.cloud_trait.specs.Call.{ask_of};
ghost use Rattle.tree_phases.specs.Going.{Finds, IfFinds, Went};
ghost use Rattle.tree_phases.specs.declared.page_plan.PagePlan.{PagePlan};
ghost use Rattle.tree_phases.specs.declared.root.RootPlan.{RootPlan};
ghost use Rattle.tree_phases.specs.Rising.{begun, rising_ask, rising_next, next_touched, touched_node, FindsPlan, rise, finish, put_node, last_plan, put_root, put_next, put_landed};

use crate::chart::Chart;
use crate::link::add_links;
use crate::node::{node_plan, touched_at};
use crate::pace::Pace;
use crate::page_plan::PagePlan;
use crate::placing::Placing;
use crate::read::tree_view;
use crate::reserve::version_spent;
use crate::root::{RootPlan, raised_root, root_plan};
use crate::spelled::TreeBytes;
use ckpt_parts::Fault;
use cloud_trait::answer::Answer;
use cloud_trait::call::Call;
use cloud_trait::lease::Lease;
use db_base::names::ObjName;
use db_base::trouble::Trouble;
use std::alloc::Global;

/// What was found and made below goes up.
#[derive(Drop)]
pub struct Rising {
    /// What is known of the tree.
    pub chart: Chart,
    /// How many of the inner nodes are passed, by level and then by low key.
    pub at: usize,
    /// What is to be put before the tree object.
    pub placing: Placing,
    /// The bytes of the tree object that is put last, once they are known.
    pub last: Option<TreeBytes>,
    /// Whether no version is left for it, so that the way up stops behind its pieces.
    pub is_spent: bool,
}

impl Rising {
    /// Behind the last leaf. Takes no memory.
    pub fn begin(alloc: Global, chart: Chart) -> Rising
        ensures { result ≡ begun chart }
    {
        Rising {
            chart,
            at: 0,
            placing: Placing::new(alloc),
            last: None,
            is_spent: false,
        }
    }

    /// The put in hand, under the tree's lease.
    pub fn in_hand<'a>(&'a self, tree: &'a Lease) -> Call<'a>
        ensures { ask_of result ≡ rising_ask self.now tree.now }
    {
        match (self.placing.call(self.chart.tree, tree, None), &self.last) {
            (Some(put), _) => put,
            (None, Some(bytes)) => Call::PutHeld(
                ObjName::Tree(self.chart.tree),
                bytes.as_slice(),
                tree,
                None,
            ),
            (None, None) => Call::GetHeld(ObjName::Tree(self.chart.tree), tree),
        }
    }

    /// The place of the next node that a link goes to; behind the last node where there is none.
    fn next_touched(&self) -> usize
        ensures { result ≡ next_touched self.now }
    {
        let nodes = self.chart.nodes.as_slice();
        let left = nodes.get(self.at..).unwrap_or(&[]);
        let place = touched_at(self.chart.tree, left, self.chart.links.as_slice());
        self.at.saturating_add(place)
    }

    /// The place behind a node.
    fn behind(&self, at: usize) -> usize
        ensures { at < length self.now.chart.nodes → result ≡ at + 1 }
    {
        self.chart.nodes.len().min(at.saturating_add(1))
    }

    /// What is put for the next node that a link goes to, with the place behind it and the level above it; none behind the last one.
    fn next_plan(&self, alloc: Global) -> Option<(usize, u64, Result<PagePlan, Fault>)>
        ensures { FindsPlan self.now result (touched_node self.now) }
    {
        let at = self.next_touched();
        match self.chart.nodes.at(at) {
            Some(kept) => {
                let plan = node_plan(
                    alloc,
                    &tree_view(&self.chart.root),
                    kept,
                    self.chart.links.as_slice(),
                );
                Some((self.behind(at), kept.level as u64 + 1, plan))
            }
            None => None,
        }
    }

    /// Puts the next inner node that a link goes to next, or the tree object where there is none.
    pub fn rise(&mut self, alloc: Global) -> Pace<()>
        ensures { Went (rise self.old) self.new result }
    {
        match self.next_plan(alloc) {
            Some((next, level, plan)) => self.put_node(alloc, next, level, plan),
            None => self.finish(alloc),
        }
    }

    /// Puts what was planned for a node next.
    fn put_node(
        &mut self,
        alloc: Global,
        next: usize,
        level: u64,
        plan: Result<PagePlan, Fault>,
    ) -> Pace<()>
        ensures { IfFinds plan (λ wanted. Went (put_node self.old next level wanted) self.new result) }
    {
        match plan {
            Ok(plan) => {
                let PagePlan { placing, entries } = plan;
                if add_links(alloc, &mut self.chart.links, level, entries.as_slice()).is_err() {
                    return Pace::Memory;
                }
                self.placing = placing;
                self.at = next;
                Pace::More
            }
            Err(Fault::Stops(trouble)) => Pace::Stopped(trouble),
            Err(Fault::Memory) => Pace::Memory,
        }
    }

    /// Puts the tree object next, with its pieces before it where it is cut.
    fn finish(&mut self, alloc: Global) -> Pace<()>
        ensures { Went (finish self.old) self.new result }
    {
        let plan = self.last_plan(alloc);
        self.put_root(plan)
    }

    /// What is put where no inner node is left.
    fn last_plan(&self, alloc: Global) -> Result<RootPlan, Fault>
        ensures { Finds result (last_plan self.now) }
    {
        let root = tree_view(&self.chart.root);
        match raised_root(
            alloc,
            &root,
            self.chart.links.as_slice(),
            self.chart.run.top(),
        ) {
            Ok(buf) => root_plan(alloc, &root, buf),
            Err(Fault::Stops(trouble)) => Err(Fault::Stops(trouble)),
            Err(Fault::Memory) => Err(Fault::Memory),
        }
    }

    /// Puts what was planned for the tree object next.
    fn put_root(&mut self, plan: Result<RootPlan, Fault>) -> Pace<()>
        ensures { IfFinds plan (λ wanted. Went (put_root self.old wanted) self.new result) }
    {
        match plan {
            Ok(plan) => {
                let RootPlan {
                    placing,
                    last,
                    is_spent,
                } = plan;
                self.placing = placing;
                self.last = Some(last);
                self.is_spent = is_spent;
                Pace::More
            }
            Err(Fault::Stops(trouble)) => Pace::Stopped(trouble),
            Err(Fault::Memory) => Pace::Memory,
        }
    }

    /// Takes the answer of the put in hand.
    pub fn absorb(&mut self, alloc: Global, answer: Answer) -> Pace<()>
        ensures { Went (rising_next self.old answer) self.new result }
    {
        match answer.done() {
            Ok(()) => self.landed(alloc),
            Err(trouble) => Pace::Stopped(trouble),
        }
    }

    /// Goes on to the next put; behind the pieces of a tree object for which no version is left there is none.
    fn put_next(&self) -> Pace<()>
        ensures { Went (put_next self.now) self.now result }
    {
        if self.placing.is_empty() && self.is_spent {
            return Pace::Stopped(version_spent());
        }
        Pace::More
    }

    /// The put in hand landed; the tree object's is the last one.
    fn landed(&mut self, alloc: Global) -> Pace<()>
        ensures { Went (put_landed self.old) self.new result }
    {
        if self.placing.is_empty() {
            return Pace::Ended(());
        }
        self.placing.land(&mut self.chart.root);
        if !self.placing.is_empty() || self.last.is_some() {
            return self.put_next();
        }
        self.rise(alloc)
    }
}
