ghost use Rattle.std.specs.Prelude.{◌≡◌, ◌≤◌, ◌++◌, IfOk, OnOk, OnErr, Some, length, drop, slice_get};
ghost use Rattle.db_base.specs.Change.{key_of};
ghost use Rattle.commit_run.specs.Plan.{seeks, page_without, page_next, pages_of};

use crate::ended::{EndedLeaf, ended_of, page_at};
use db_base::change::Change;
use db_base::ids::{PageId, TreeId};
use head_codec::entry::Entry;
use leaf_view::LeafView;
use route_plan::index::PendingIndex;
use std::alloc::{AllocError, Global};
use std::marker::Model;
use txn_buffer::buffer::TxnBuffer;

/// The leaves of a commit's changes, from the first change on as far as they are known, and the leaves at which its walks ended.
#[derive(Debug, Drop)]
pub struct LeafPlan {
    pages: Vec<PageId>,
    ended: Vec<EndedLeaf>,
}

impl Model for LeafPlan {
    ghost use Rattle.commit_run.specs.Plan.{Plan};

    ghost Value = { Plan };

    ghost view = { λ p. record { pages = p.pages.items; ended = p.ended.items } };
}

/// The page of a change that needs no walk, and None where it needs one.
fn page_without(
    pending: &PendingIndex<'_>,
    ended: &[EndedLeaf],
    tree: TreeId,
    change: &Change,
) -> Option<PageId>
    ensures { result ≡ page_without pending.now ended.now (record { tree = tree; change = change.now }) }
{
    let key = change.key().as_slice();
    if change.goes_to_leaf() || pending.has(tree, key) {
        page_at(ended, tree, key)
    } else {
        Some(PageId::first())
    }
}

impl LeafPlan {
    ghost use Rattle.std.specs.Prelude.{◌≡◌, ◌≤◌, length};
    ghost use Rattle.commit_run.specs.Plan.{Plan, empty_plan, advanced, with_leaf, with_page};

    /// No leaf is known. Takes no memory.
    pub fn new(alloc: Global) -> LeafPlan
        ensures { result ≡ empty_plan }
    {
        LeafPlan {
            pages: Vec::new(alloc),
            ended: Vec::new(alloc),
        }
    }

    /// The pages of the changes, as far as they are known.
    pub fn pages(&self) -> &[PageId]
        ensures { result.now ≡ self.now.pages }
    {
        self.pages.as_slice()
    }

    /// Adds the pages of the next changes, up to the first that needs a walk. An `Err` comes for memory alone.
    pub fn advance(
        &mut self,
        alloc: Global,
        pending: &[Entry],
        changes: &TxnBuffer,
    ) -> Result<(), AllocError>
        ensures ok { OnOk result (self.new ≡ advanced self.old pending.now changes.now) }
        ensures ended { self.new.ended ≡ self.old.ended }
        ensures within { length self.old.pages ≤ length changes.now → length self.new.pages ≤ length changes.now }
    {
        // Once pages are known a plan mostly ends at the next walk, too soon to pay for a table.
        let searches = if self.pages.is_empty() {
            changes.len()
        } else {
            0
        };
        let pending = PendingIndex::of(alloc, pending, searches)?;
        advance(&mut self.pages, self.ended.as_slice(), &pending, changes)
    }

    /// Notes that a walk ended at a leaf. An `Err` comes for memory alone and changes nothing.
    pub fn add_leaf(
        &mut self,
        alloc: Global,
        tree: TreeId,
        page: PageId,
        view: &LeafView<'_>,
    ) -> Result<(), AllocError>
        ensures ok { OnOk result (self.new ≡ with_leaf self.old tree page view.now) }
        ensures err { OnErr result (self.new ≡ self.old) }
    {
        self.ended.push(ended_of(alloc, tree, page, view)?)?;
        Ok(())
    }

    /// Adds the page of the next change. An `Err` comes for memory alone and changes nothing.
    pub fn add_page(&mut self, page: PageId) -> Result<(), AllocError>
        ensures ok { OnOk result (self.new ≡ with_page self.old page) }
        ensures err { OnErr result (self.new ≡ self.old) }
    {
        self.pages.push(page)?;
        Ok(())
    }
}

/// The page of the change at a place, where one is there and needs no walk.
fn page_next(
    pending: &PendingIndex<'_>,
    ended: &[EndedLeaf],
    changes: &TxnBuffer,
    place: usize,
) -> Option<PageId>
    ensures { result ≡ page_next pending.now ended.now (slice_get changes.now place) }
{
    match changes.at(place) {
        Some(noted) => page_without(pending, ended, noted.0, noted.1),
        None => None,
    }
}

/// Adds the pages of the next changes, up to the first that needs a walk.
#[tactic(auto, using(crate::proofs::Advancing::next_goes, crate::proofs::Advancing::next_ends, crate::proofs::Advancing::next_within))]
fn advance(
    pages: &mut Vec<PageId>,
    ended: &[EndedLeaf],
    pending: &PendingIndex<'_>,
    changes: &TxnBuffer,
) -> Result<(), AllocError>
    ensures ok { OnOk result (pages.new.items ≡ pages.old.items ++ pages_of pending.now ended.now (drop (length pages.old.items) changes.now)) }
    ensures within { length pages.old.items ≤ length changes.now → length pages.new.items ≤ length changes.now }
{
    while let Some(page) = page_next(pending, ended, changes, pages.len()) {
        pages.push(page)?;
    }
    Ok(())
}
