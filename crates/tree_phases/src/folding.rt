//! A leaf under its lease.

ghost use Rattle.std.specs.Prelude.{◌≡◌, IfOk, OnOk, Ok, Some, None};
ghost use Rattle.cloud_trait.specs.Machine.{Goes, Ends, Stops};
ghost use Rattle.std.specs.Option.{option_copied};
ghost use Rattle.cloud_trait.specs.Call.{ask_of};
ghost use Rattle.tree_phases.specs.Going.{Went};
ghost use Rattle.tree_phases.specs.Folding.{begun, folding_ask, folding_next, leaf_got, leaf_at, to_right, handle, put_planned, placed, leaf_put, handled_to, turned, bad_low, applying};

use crate::chart::Chart;
use crate::items::ItemList;
use crate::link::{Link, add_links};
use crate::pace::Pace;
use crate::page_plan::PagePlan;
use crate::pages::PageList;
use crate::placing::Placing;
use crate::plan::leaf_plan;
use crate::read::{leaf_view, tree_view};
use byte_format::{is_below, is_same};
use ckpt_parts::{Fault, lacked_of};
use cloud_trait::answer::Answer;
use cloud_trait::call::Call;
use cloud_trait::lease::Lease;
use db_base::blob::Blob;
use db_base::ids::PageId;
use db_base::names::ObjName;
use db_base::trouble::Trouble;
use leaf_edit::within;
use leaf_view::LeafView;
use log_codec::record::PuItem;
use std::alloc::{AllocError, Global};

/// Where a leaf is left for.
#[derive(Drop)]
pub enum Left {
    /// For the page on its right, which begins at this key.
    Right(Blob, PageId),
    /// Its part of the run is handled.
    Handled,
}

/// A leaf that the chart's key led to, under its lease.
#[derive(Drop)]
pub struct Folding {
    /// What is known of the tree.
    pub chart: Chart,
    /// The leaf's lease.
    pub lease: Lease,
    /// The leaf.
    pub page: PageId,
    /// The low key that led there.
    pub low: Blob,
    /// The pages that were passed on the way.
    pub visited: PageList,
    /// What is to be put; nothing until the leaf is read.
    pub placing: Placing,
    /// The items that the put of the leaf itself applies.
    pub lacked: ItemList,
}

impl Folding {
    /// A leaf whose lease was given. Takes no memory.
    pub fn begin(
        alloc: Global,
        chart: Chart,
        lease: Lease,
        page: PageId,
        low: Blob,
        visited: PageList,
    ) -> Folding
        ensures { result ≡ begun chart lease page low visited }
    {
        Folding {
            chart,
            lease,
            page,
            low,
            visited,
            placing: Placing::new(alloc),
            lacked: ItemList::new(alloc),
        }
    }

    /// The items that the put in hand makes reachable, in the order in which they are applied: none but at the leaf's own put.
    pub fn applying(&self) -> &[PuItem]
        ensures { result.now ≡ applying self.now }
    {
        if self.placing.is_last() {
            return self.lacked.as_slice();
        }
        &[]
    }

    /// The call in hand, under the tree's lease and the leaf's.
    pub fn in_hand<'a>(&'a self, tree: &'a Lease) -> Call<'a>
        ensures { ask_of result ≡ folding_ask self.now tree.now }
    {
        match self.placing.call(self.chart.tree, tree, Some(&self.lease)) {
            Some(put) => put,
            None => Call::GetHeld(ObjName::Page(self.chart.tree, self.page), &self.lease),
        }
    }

    /// Takes the answer of the call in hand. The lease stays.
    pub fn absorb(&mut self, alloc: Global, answer: Answer) -> Pace<Left>
        ensures went { Went (folding_next self.old answer) self.new result }
        ensures lease { self.new.lease ≡ self.old.lease }
    {
        if self.placing.is_empty() {
            self.got(alloc, answer.got())
        } else {
            self.put(alloc, answer.done())
        }
    }

    fn got(&mut self, alloc: Global, got: Result<Option<Blob>, Trouble>) -> Pace<Left>
        ensures went { Went (leaf_got self.old got) self.new result }
        ensures lease { self.new.lease ≡ self.old.lease }
    {
        match got {
            Ok(Some(bytes)) => self.read(alloc, bytes.as_slice()),
            Ok(None) => self.absent(alloc),
            Err(trouble) => Pace::Stopped(trouble),
        }
    }

    /// A leaf that is not there: page 1 is the empty leaf.
    fn absent(&mut self, alloc: Global) -> Pace<Left>
        ensures went { Went (leaf_got self.old (Ok None)) self.new result }
        ensures lease { self.new.lease ≡ self.old.lease }
    {
        if self.page.get() == 1 {
            return self.at(alloc, &LeafView::empty());
        }
        Pace::Stopped(Trouble::Absent { page: self.page })
    }

    fn read(&mut self, alloc: Global, bytes: &[u8]) -> Pace<Left>
        ensures went { Went (leaf_got self.old (Ok (Some bytes.now))) self.new result }
        ensures lease { self.new.lease ≡ self.old.lease }
    {
        match leaf_view(self.chart.tree, self.page, bytes) {
            Ok(view) => self.at(alloc, &view),
            Err(trouble) => Pace::Stopped(trouble),
        }
    }

    /// Checks the leaf against what led to it, and goes right where the key is not below its high key.
    fn at(&mut self, alloc: Global, view: &LeafView<'_>) -> Pace<Left>
        ensures went { Went (leaf_at self.old view.now) self.new result }
        ensures lease { self.new.lease ≡ self.old.lease }
    {
        if !is_same(view.low(), self.low.as_slice()) {
            return self.unfenced(alloc, view.low());
        }
        let (Some(high), Some(right)) = (view.high(), view.right()) else {
            return self.handle(alloc, view);
        };
        if is_below(self.chart.key.as_slice(), high) {
            return self.handle(alloc, view);
        }
        self.turn(alloc, high, right)
    }

    /// The low key differs from what led to the leaf.
    fn unfenced(&mut self, alloc: Global, found: &[u8]) -> Pace<Left>
        ensures went { Went (Stops self.old (bad_low self.old found.now)) self.new result }
        ensures lease { self.new.lease ≡ self.old.lease }
    {
        let Ok(expected) = Blob::copy_of(alloc, self.low.as_slice()) else {
            return Pace::Memory;
        };
        let Ok(found) = Blob::copy_of(alloc, found) else {
            return Pace::Memory;
        };
        Pace::Stopped(Trouble::BadFence {
            page: self.page,
            expected,
            found,
        })
    }

    /// Leaves the leaf for the page on its right, which is noted for the level above, unless it was passed on the way.
    fn turn(&mut self, alloc: Global, high: &[u8], right: PageId) -> Pace<Left>
        ensures went { Went (to_right self.old high.now right) self.new result }
        ensures lease { self.new.lease ≡ self.old.lease }
    {
        if right == self.page || self.visited.has(right) {
            return Pace::Stopped(Trouble::Loop { page: right });
        }
        match self.note(alloc, high, right) {
            Ok(low) => Pace::Ended(Left::Right(low, right)),
            Err(_) => Pace::Memory,
        }
    }

    /// Notes a link to the right, and that the leaf is passed. Refused for memory alone.
    fn note(&mut self, alloc: Global, high: &[u8], right: PageId) -> Result<Blob, AllocError>
        ensures low { IfOk result (λ low. low ≡ high.now) }
        ensures noted { OnOk result (self.new ≡ turned self.old high.now right) }
        ensures lease { self.new.lease ≡ self.old.lease }
    {
        let copy = Blob::copy_of(alloc, high)?;
        self.chart.links.push(Link {
            level: 1,
            low: copy,
            page: right,
        })?;
        self.visited.push(self.page)?;
        Blob::copy_of(alloc, high)
    }

    /// Puts what the leaf lacks of the run next, or leaves it where it lacks nothing.
    fn handle(&mut self, alloc: Global, view: &LeafView<'_>) -> Pace<Left>
        ensures went { Went (handle self.old view.now) self.new result }
        ensures lease { self.new.lease ≡ self.old.lease }
    {
        let Ok(lacked) = lacked_of(alloc, view, 0, within(view, self.chart.run.items())) else {
            return Pace::Memory;
        };
        if lacked.is_empty() {
            return self.pass(alloc, view);
        }
        match leaf_plan(
            alloc,
            &tree_view(&self.chart.root),
            self.page,
            view,
            &self.chart.run,
        ) {
            Ok(plan) => self.put_planned(alloc, view, ItemList::of(lacked), plan),
            Err(Fault::Stops(trouble)) => Pace::Stopped(trouble),
            Err(Fault::Memory) => Pace::Memory,
        }
    }

    /// The leaf lacks nothing.
    fn pass(&mut self, alloc: Global, view: &LeafView<'_>) -> Pace<Left>
        ensures went { Went (Ends (handled_to self.old view.now.high) Left.Handled) self.new result }
        ensures lease { self.new.lease ≡ self.old.lease }
    {
        match self.go_to(alloc, view.high()) {
            Ok(()) => Pace::Ended(Left::Handled),
            Err(_) => Pace::Memory,
        }
    }

    /// The keys below a high key are handled. Refused for memory alone.
    fn go_to(&mut self, alloc: Global, high: Option<&[u8]>) -> Result<(), AllocError>
        ensures to { OnOk result (self.new ≡ handled_to self.old (option_copied high.entry)) }
        ensures lease { self.new.lease ≡ self.old.lease }
    {
        self.chart.from = copied(alloc, high)?;
        Ok(())
    }

    /// Puts what was planned next.
    fn put_planned(
        &mut self,
        alloc: Global,
        view: &LeafView<'_>,
        lacked: ItemList,
        plan: PagePlan,
    ) -> Pace<Left>
        ensures went { Went (Goes (put_planned (handled_to self.old view.now.high) lacked plan)) self.new result }
        ensures lease { self.new.lease ≡ self.old.lease }
    {
        if self.go_to(alloc, view.high()).is_err() {
            return Pace::Memory;
        }
        let PagePlan { placing, entries } = plan;
        if add_links(alloc, &mut self.chart.links, 1, entries.as_slice()).is_err() {
            return Pace::Memory;
        }
        self.placing = placing;
        self.lacked = lacked;
        Pace::More
    }

    fn put(&mut self, alloc: Global, done: Result<(), Trouble>) -> Pace<Left>
        ensures went { Went (leaf_put self.old done) self.new result }
        ensures lease { self.new.lease ≡ self.old.lease }
    {
        match done {
            Ok(()) => self.landed(alloc),
            Err(trouble) => Pace::Stopped(trouble),
        }
    }

    /// The put in hand landed; with the last one the leaf's part of the run is handled.
    fn landed(&mut self, alloc: Global) -> Pace<Left>
        ensures went { Went (placed self.old) self.new result }
        ensures lease { self.new.lease ≡ self.old.lease }
    {
        let is_last = self.placing.is_last();
        self.placing.land(&mut self.chart.root);
        if !is_last {
            return Pace::More;
        }
        match self.chart.applied.checked_add(self.lacked.len() as u64) {
            Some(applied) => {
                self.chart.applied = applied;
                self.lacked = ItemList::new(alloc);
                Pace::Ended(Left::Handled)
            }
            None => Pace::Memory,
        }
    }
}

/// A copy of the bytes that are there.
fn copied(alloc: Global, bytes: Option<&[u8]>) -> Result<Option<Blob>, AllocError>
    ensures { IfOk result (λ b. b ≡ option_copied bytes.entry) }
{
    match bytes {
        None => Ok(None),
        Some(bytes) => {
            let copy = Blob::copy_of(alloc, bytes)?;
            Ok(Some(copy))
        }
    }
}
