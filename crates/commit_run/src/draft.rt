ghost use Rattle.std.specs.Prelude.{◌≡◌, Some};
ghost use Rattle.commit_writes.specs.Writing.{with_head};
ghost use Rattle.page_cache.specs.Held.{leaf_at, root_at};
ghost use Rattle.commit_run.specs.Draft.{pruned_by_root, pruned_by_kept, pruned_with};
ghost use Rattle.commit_run.specs.Run.{held, is_stale};

use crate::hand::Hand;
use crate::plan::LeafPlan;
use cloud_trait::cloud::Cloud;
use cloud_trait::turn::Turn;
use cloud_trait::who::Who;
use commit_writes::writes::CommitWrites;
use db_base::ids::{PageId, TreeId};
use db_base::key::Key;
use db_base::names::ObjName;
use db_base::trouble::{CommitAnswer, Counter, Trouble};
use page_cache::PageCache;
use std::alloc::{AllocError, Global};
use std::marker::Model;
use tree_walk::Walk;

// How many pending entries a head may have without a walk that shortens their list.
const LONG_PENDING: usize = 256;

/// A commit before its first write: what it will write, and the leaves of its changes as far as they are known.
#[derive(Drop)]
pub(crate) struct Draft {
    pub(crate) writes: CommitWrites,
    pub(crate) plan: LeafPlan,
}

impl Model for Draft {
    ghost use Rattle.commit_run.specs.Draft.{Draft as State};

    ghost Value = { State };

    ghost view = { λ d. record { writes = d.writes; plan = d.plan } };
}

/// Removes the pending entries that the tree object shows to be applied, where the cache keeps it.
fn prune_root(writes: &mut CommitWrites, cache: &PageCache, tree: TreeId)
    ensures after { writes.new ≡ pruned_by_root writes.old tree (root_at cache.now (ObjName.Tree tree)) }
    ensures changes { writes.new.changes ≡ writes.old.changes }
    ensures home { writes.new.home ≡ with_head writes.old.home writes.new.home.head }
{
    match cache.tree(ObjName::Tree(tree)) {
        Some(view) => writes.prune_tree(tree, &view),
        None => {}
    }
}

/// Removes the pending entries that a leaf shows to be applied, where the cache keeps it.
fn prune_leaf(writes: &mut CommitWrites, cache: &PageCache, tree: TreeId, page: PageId)
    ensures after { writes.new ≡ pruned_by_kept writes.old tree (leaf_at cache.now (ObjName.Page tree page)) }
    ensures changes { writes.new.changes ≡ writes.old.changes }
    ensures home { writes.new.home ≡ with_head writes.old.home writes.new.home.head }
{
    match cache.leaf(ObjName::Page(tree, page)) {
        Some(view) => writes.prune_leaf(tree, &view),
        None => {}
    }
}

/// Removes the pending entries that an object shows to be applied, where the cache keeps it.
fn prune_by(writes: &mut CommitWrites, cache: &PageCache, name: ObjName)
    ensures after { writes.new ≡ pruned_with writes.old cache.now (Some name) }
    ensures changes { writes.new.changes ≡ writes.old.changes }
    ensures home { writes.new.home ≡ with_head writes.old.home writes.new.home.head }
{
    match name {
        ObjName::Tree(tree) => prune_root(writes, cache, tree),
        ObjName::Page(tree, page) => prune_leaf(writes, cache, tree, page),
        ObjName::Head(_) => {}
    }
}

/// The same, where an object was used.
fn prune(writes: &mut CommitWrites, cache: &PageCache, used: Option<ObjName>)
    ensures after { writes.new ≡ pruned_with writes.old cache.now used }
    ensures changes { writes.new.changes ≡ writes.old.changes }
    ensures home { writes.new.home ≡ with_head writes.old.home writes.new.home.head }
{
    match used {
        Some(name) => prune_by(writes, cache, name),
        None => {}
    }
}

/// Whether a walk stopped at a stale page.
fn is_stale(trouble: &Trouble) -> bool
    ensures { result ≡ is_stale trouble.now }
{
    match trouble {
        Trouble::Stale { .. } => true,
        Trouble::Failed => false,
        Trouble::Late { .. } => false,
        Trouble::Busy { .. } => false,
        Trouble::Waiting { .. } => false,
        Trouble::Absent { .. } => false,
        Trouble::NotALeaf { .. } => false,
        Trouble::Damaged { .. } => false,
        Trouble::BadFence { .. } => false,
        Trouble::Loop { .. } => false,
        Trouble::Exhausted { .. } => false,
        Trouble::Memory => false,
    }
}

/// A walk in hand, which is that to the first of a long list of pending entries or that to a change.
fn held(first: bool, walk: Walk) -> Hand
    ensures { result ≡ held first walk }
{
    if first {
        Hand::First(walk)
    } else {
        Hand::Change(walk)
    }
}

impl Draft {
    ghost use Rattle.std.specs.Prelude.{◌≡◌, ◌≤◌, ◌<◌, length, OnOk, IfOk, Some, false};
    ghost use Rattle.commit_writes.specs.Writing.{with_head};
    ghost use Rattle.page_cache.specs.Cache.{Cache};
    ghost use Rattle.db_base.specs.declared.trouble.Trouble.{Trouble as AnyTrouble};
    ghost use Rattle.commit_run.specs.Draft.{KnowsNoMore, new_draft, pruned_behind, planned, leaf_noted, paged};
    ghost use Rattle.commit_run.specs.Run.{LedTo, at_work, IsHeld, held, routed_on, troubled, walk_ended, begun_turn, walk_to, seek, next_target, plan_on, stale_at, walk_stopped, walk_turned, long_target, begin_walks, run_ready, Keeps};
    ghost use Rattle.commit_run.specs.Stepped.{Stepped};
    ghost use Rattle.commit_run.specs.End.{left_at};
    ghost use Rattle.commit_writes.specs.Sound.{IsSound};

    /// The commit of changes, of which no leaf is known. Takes no memory.
    pub(crate) fn new(alloc: Global, writes: CommitWrites) -> Draft
        ensures { result ≡ new_draft writes }
    {
        Draft {
            writes,
            plan: LeafPlan::new(alloc),
        }
    }

    /// Prunes the head by what the newest turn of a walk used.
    fn prune_behind(&mut self, walk: &Walk, cache: &PageCache)
        ensures after { self.new ≡ pruned_behind self.old walk.now cache.now }
        ensures plan { self.new.plan ≡ self.old.plan }
        ensures changes { self.new.writes.changes ≡ self.old.writes.changes }
        ensures home { self.new.writes.home ≡ with_head self.old.writes.home self.new.writes.home.head }
    {
        prune(&mut self.writes, cache, walk.used());
    }

    /// Notes the leaf at which a walk ended.
    fn note_leaf(
        &mut self,
        alloc: Global,
        walk: &Walk,
        cache: &PageCache,
        page: PageId,
    ) -> Result<(), AllocError>
        ensures ok { OnOk result (self.new ≡ leaf_noted self.old walk.now cache.now page) }
        ensures writes { self.new.writes ≡ self.old.writes }
        ensures pages { self.new.plan.pages ≡ self.old.plan.pages }
    {
        match cache.leaf(walk.object()) {
            Some(view) => self.plan.add_leaf(alloc, walk.tree(), page, &view),
            None => Ok(()),
        }
    }

    /// The page of the next change is known.
    fn add_page(&mut self, page: PageId) -> Result<(), AllocError>
        ensures ok { OnOk result (self.new ≡ paged self.old page) }
        ensures writes { self.new.writes ≡ self.old.writes }
    {
        self.plan.add_page(page)
    }

    /// The pages of the next changes are known, up to the first that needs a walk.
    fn advance(&mut self, alloc: Global) -> Result<(), AllocError>
        ensures ok { OnOk result (self.new ≡ planned self.old) }
        ensures writes { self.new.writes ≡ self.old.writes }
        ensures within { KnowsNoMore self.old → KnowsNoMore self.new }
    {
        let pending = self.writes.home().head.pending.as_slice();
        self.plan.advance(alloc, pending, self.writes.changes())
    }

    /// A trouble of a walk ends the commit; want of memory stops it.
    fn trouble(&mut self, trouble: Trouble) -> Turn<CommitAnswer>
        ensures led { (c : Cache) → LedTo (troubled self.old c trouble) self.new c (Hand.Writes, result) }
        ensures home { self.new.writes.home ≡ self.old.writes.home }
        ensures memory { trouble ≡ Trouble.Memory → result ≡ Turn.Stopped Trouble.Memory }
    {
        match trouble {
            Trouble::Memory => Turn::Stopped(Trouble::Memory),
            other => self.writes.not_committed(other),
        }
    }

    /// Takes the first turn of a walk.
    fn begun(
        &mut self,
        cache: &PageCache,
        first: bool,
        walk: Walk,
        turn: Turn<PageId>,
    ) -> (Hand, Turn<CommitAnswer>)
        requires { ((t : AnyTrouble) → turn ≡ Turn.Stopped t → ⊥) → IsHeld self.old (held first walk) }
        ensures led { LedTo (begun_turn first self.old walk cache.now turn) self.new cache.now result }
        ensures home { self.new.writes.home ≡ with_head self.old.writes.home self.new.writes.home.head }
        ensures held { IsHeld self.new result.0 }
        ensures memory { turn ≡ Turn.Stopped Trouble.Memory → result.1 ≡ Turn.Stopped Trouble.Memory }
    {
        self.prune_behind(&walk, cache);
        match turn {
            Turn::More => (held(first, walk), Turn::More),
            Turn::Ended(_) => (held(first, walk), Turn::More),
            Turn::Stopped(trouble) => (Hand::Writes, self.trouble(trouble)),
        }
    }

    /// Begins a walk.
    fn walk_to(
        &mut self,
        alloc: Global,
        cache: &mut PageCache,
        first: bool,
        to: (TreeId, Key),
    ) -> (Hand, Turn<CommitAnswer>)
        requires attempt { 1 ≤ self.old.writes.home.attempt }
        requires within { KnowsNoMore self.old }
        requires aimed { first ≡ false → next_target self.old ≡ Some to }
        ensures led { LedTo (walk_to first self.old cache.old to) self.new cache.new result }
        ensures home { self.new.writes.home ≡ with_head self.old.writes.home self.new.writes.home.head }
        ensures held { IsHeld self.new result.0 }
    {
        let mut walk = Walk::new(alloc, to.0, Some(to.1), first);
        let turn = walk.ready(alloc, cache);
        self.begun(cache, first, walk, turn)
    }

    /// Writes the records.
    fn route(&mut self, alloc: Global) -> Turn<CommitAnswer>
        requires attempt { 1 ≤ self.old.writes.home.attempt }
        requires leaves { length self.old.plan.pages ≡ length self.old.writes.changes }
        ensures led { (c : Cache) → LedTo (routed_on self.old c) self.new c (Hand.Writes, result) }
        ensures home { self.new.writes.home ≡ with_head self.old.writes.home self.new.writes.home.head }
    {
        self.writes.route(alloc, self.plan.pages())
    }

    /// The tree and key of the first change whose leaf is not known.
    fn next_target(&self, alloc: Global) -> Result<Option<(TreeId, Key)>, AllocError>
        ensures { IfOk result (λ to. to ≡ next_target self.now) }
    {
        match self.writes.changes().at(self.plan.pages().len()) {
            Some((tree, change)) => Ok(Some((tree, change.key().copied(alloc)?))),
            None => Ok(None),
        }
    }

    /// Walks for the next change that needs it, or writes the records.
    fn seek(
        &mut self,
        alloc: Global,
        cache: &mut PageCache,
        to: Option<(TreeId, Key)>,
    ) -> (Hand, Turn<CommitAnswer>)
        requires attempt { 1 ≤ self.old.writes.home.attempt }
        requires within { KnowsNoMore self.old }
        requires is { to ≡ next_target self.old }
        ensures led { LedTo (seek self.old cache.old to) self.new cache.new result }
        ensures home { self.new.writes.home ≡ with_head self.old.writes.home self.new.writes.home.head }
        ensures held { IsHeld self.new result.0 }
    {
        match to {
            Some(to) => self.walk_to(alloc, cache, false, to),
            None => (Hand::Writes, self.route(alloc)),
        }
    }

    /// Plans on, up to the next change that needs a walk.
    pub(crate) fn plan_on(
        &mut self,
        alloc: Global,
        cache: &mut PageCache,
    ) -> (Hand, Turn<CommitAnswer>)
        requires attempt { 1 ≤ self.old.writes.home.attempt }
        requires within { KnowsNoMore self.old }
        ensures led { LedTo (plan_on self.old cache.old) self.new cache.new result }
        ensures home { self.new.writes.home ≡ with_head self.old.writes.home self.new.writes.home.head }
        ensures held { IsHeld self.new result.0 }
    {
        if self.advance(alloc).is_err() {
            return (Hand::Writes, Turn::Stopped(Trouble::Memory));
        }
        match self.next_target(alloc) {
            Ok(to) => self.seek(alloc, cache, to),
            Err(_) => (Hand::Writes, Turn::Stopped(Trouble::Memory)),
        }
    }

    /// A walk met a stale page: it counts as having come to page 1; that for a long list is passed over.
    fn stale(
        &mut self,
        alloc: Global,
        cache: &mut PageCache,
        first: bool,
    ) -> (Hand, Turn<CommitAnswer>)
        requires attempt { 1 ≤ self.old.writes.home.attempt }
        requires within { KnowsNoMore self.old }
        requires room { first ≡ false → length self.old.plan.pages < length self.old.writes.changes }
        ensures led { LedTo (stale_at first self.old cache.old) self.new cache.new result }
        ensures home { self.new.writes.home ≡ with_head self.old.writes.home self.new.writes.home.head }
        ensures held { IsHeld self.new result.0 }
    {
        if first {
            return self.plan_on(alloc, cache);
        }
        if self.add_page(PageId::first()).is_err() {
            return (Hand::Writes, Turn::Stopped(Trouble::Memory));
        }
        self.plan_on(alloc, cache)
    }

    /// A walk stopped.
    fn walk_stopped(
        &mut self,
        alloc: Global,
        cache: &mut PageCache,
        first: bool,
        trouble: Trouble,
    ) -> (Hand, Turn<CommitAnswer>)
        requires attempt { 1 ≤ self.old.writes.home.attempt }
        requires within { KnowsNoMore self.old }
        requires room { first ≡ false → length self.old.plan.pages < length self.old.writes.changes }
        ensures led { LedTo (walk_stopped first self.old cache.old trouble) self.new cache.new result }
        ensures home { self.new.writes.home ≡ with_head self.old.writes.home self.new.writes.home.head }
        ensures held { IsHeld self.new result.0 }
        ensures memory { trouble ≡ Trouble.Memory → result.1 ≡ Turn.Stopped Trouble.Memory }
    {
        if is_stale(&trouble) {
            return self.stale(alloc, cache, first);
        }
        (Hand::Writes, self.trouble(trouble))
    }

    /// A walk ended at a leaf.
    fn walk_ended(
        &mut self,
        alloc: Global,
        cache: &mut PageCache,
        walk: &Walk,
        page: PageId,
    ) -> (Hand, Turn<CommitAnswer>)
        requires attempt { 1 ≤ self.old.writes.home.attempt }
        requires within { KnowsNoMore self.old }
        ensures led { LedTo (walk_ended self.old walk.now cache.old page) self.new cache.new result }
        ensures home { self.new.writes.home ≡ with_head self.old.writes.home self.new.writes.home.head }
        ensures held { IsHeld self.new result.0 }
    {
        if self.note_leaf(alloc, walk, cache, page).is_err() {
            return (Hand::Writes, Turn::Stopped(Trouble::Memory));
        }
        self.plan_on(alloc, cache)
    }

    /// Takes a turn of the walk in hand.
    pub(crate) fn walked(
        &mut self,
        alloc: Global,
        cache: &mut PageCache,
        first: bool,
        walk: Walk,
        turn: Turn<PageId>,
    ) -> (Hand, Turn<CommitAnswer>)
        requires attempt { 1 ≤ self.old.writes.home.attempt }
        requires within { KnowsNoMore self.old }
        requires room { first ≡ false → length self.old.plan.pages < length self.old.writes.changes }
        requires aimed { turn ≡ Turn.More → IsHeld self.old (held first walk) }
        ensures led { LedTo (walk_turned first self.old walk cache.old turn) self.new cache.new result }
        ensures home { self.new.writes.home ≡ with_head self.old.writes.home self.new.writes.home.head }
        ensures held { IsHeld self.new result.0 }
        ensures memory { turn ≡ Turn.Stopped Trouble.Memory → result.1 ≡ Turn.Stopped Trouble.Memory }
    {
        self.prune_behind(&walk, cache);
        match turn {
            Turn::More => (held(first, walk), Turn::More),
            Turn::Ended(page) => self.walk_ended(alloc, cache, &walk, page),
            Turn::Stopped(trouble) => self.walk_stopped(alloc, cache, first, trouble),
        }
    }

    /// Takes a step of the writes.
    pub(crate) fn step_writes<C: Cloud>(
        &mut self,
        alloc: Global,
        cloud: &mut C,
        who: Who,
    ) -> Turn<CommitAnswer>
        ensures stepped { (c : Cache) → Stepped who (C.seen cloud.old) (C.seen cloud.new) (at_work self.old Hand.Writes c) (at_work self.new Hand.Writes c) result }
        ensures sound { IsSound self.old.writes }
        ensures less { result ≡ Turn.More → left_at Hand.Writes self.new < left_at Hand.Writes self.old }
    {
        self.writes.step(alloc, cloud, who)
    }

    /// Takes a step of the walk in hand.
    pub(crate) fn step_walk<C: Cloud>(
        &mut self,
        alloc: Global,
        cloud: &mut C,
        who: Who,
        cache: &mut PageCache,
        first: bool,
        walk: Walk,
    ) -> (Hand, Turn<CommitAnswer>)
        requires { IsHeld self.old (held first walk) }
        ensures stepped { Stepped who (C.seen cloud.old) (C.seen cloud.new) (at_work self.old (held first walk) cache.old) (at_work self.new result.0 cache.new) result.1 }
        ensures held { IsHeld self.new result.0 }
        ensures less { result.1 ≡ Turn.More → left_at result.0 self.new < left_at (held first walk) self.old }
    {
        let mut walk = walk;
        let turn = walk.step(alloc, cloud, who, cache);
        // Read for the clause `demands`: what the cache keeps is in the spelling of its kind.
        let _ = cache.len();
        self.walked(alloc, cache, first, walk, turn)
    }

    /// The tree and key of the first pending entry, where there are more than 256.
    fn long_target(&self, alloc: Global) -> Result<Option<(TreeId, Key)>, AllocError>
        ensures { IfOk result (λ to. to ≡ long_target self.now.writes.home.head.pending) }
    {
        let pending = self.writes.home().head.pending.as_slice();
        if pending.len() <= LONG_PENDING {
            return Ok(None);
        }
        match pending.first() {
            Some(entry) => {
                let entry = entry.get();
                Ok(Some((entry.tree, entry.change.key().copied(alloc)?)))
            }
            None => Ok(None),
        }
    }

    /// Begins with the walk for a long list of pending entries, where there is one.
    pub(crate) fn begin_walks(
        &mut self,
        alloc: Global,
        cache: &mut PageCache,
    ) -> (Hand, Turn<CommitAnswer>)
        requires attempt { 1 ≤ self.old.writes.home.attempt }
        requires within { KnowsNoMore self.old }
        ensures led { LedTo (begin_walks self.old cache.old) self.new cache.new result }
        ensures home { self.new.writes.home ≡ with_head self.old.writes.home self.new.writes.home.head }
        ensures held { IsHeld self.new result.0 }
    {
        match self.long_target(alloc) {
            Ok(Some(to)) => self.walk_to(alloc, cache, true, to),
            Ok(None) => self.plan_on(alloc, cache),
            Err(_) => (Hand::Writes, Turn::Stopped(Trouble::Memory)),
        }
    }

    /// Takes the next attempt number, and begins.
    pub(crate) fn begin(
        &mut self,
        alloc: Global,
        cache: &mut PageCache,
    ) -> (Hand, Turn<CommitAnswer>)
        ensures led { LedTo (run_ready (at_work self.old Hand.Writes cache.old)) self.new cache.new result }
        ensures kept { Keeps self.old.writes.home self.new.writes.home }
        ensures held { IsHeld self.new result.0 }
    {
        self.plan = LeafPlan::new(alloc);
        if self.writes.take_number() {
            return self.begin_walks(alloc, cache);
        }
        let trouble = Trouble::Exhausted { what: Counter::Txn };
        (Hand::Writes, self.writes.not_committed(trouble))
    }
}
