//! The machine.

ghost use Rattle.std.specs.Prelude.{◌≡◌, ◌≢◌, ◌<◌, ◌≤◌, ◌^◌, List, length, Result, Ok, Some, IfSome, IfNone, IfErr};
ghost use Rattle.db_base.specs.declared.trouble.Trouble.{Trouble};
ghost use Rattle.cloud_trait.specs.Ask.{Release};
ghost use Rattle.cloud_trait.specs.Call.{ask_of, Lends};
ghost use Rattle.cloud_trait.specs.Machine.{Took, Deed};
ghost use Rattle.cloud_trait.specs.Weather.{Makes};
ghost use Rattle.tree_phases.specs.Going.{Finds};
ghost use Rattle.orphan_sweep.specs.declared.paths.Paths.{Paths};
ghost use Rattle.orphan_sweep.specs.Pages.{top_spot};

use crate::paths::{Paths, first_page, onward};
use crate::read::{paths_of, root_held};
use crate::spot::Spot;
use crate::stage::Stage;
use crate::strays::{is_among, strays};
use crate::swept::Swept;
use ckpt_parts::Fault;
use cloud_trait::answer::Answer;
use cloud_trait::call::Call;
use cloud_trait::cloud::Cloud;
use cloud_trait::lease::Lease;
use cloud_trait::listing::PageList;
use cloud_trait::perform::{let_go, perform};
use cloud_trait::turn::Turn;
use cloud_trait::who::Who;
use db_base::blob::Blob;
use db_base::ids::{PageId, TreeId};
use db_base::names::{Lock, ObjName};
use db_base::trouble::Trouble;
use node_codec::TreeView;
use std::alloc::Global;
use std::marker::Model;

/// How long the tree's lease is taken for, in ticks.
const TREE_TICKS: u64 = 60;

/// A sweep of a tree: under the tree's lease it reads each page of each level along right links, and then it removes the page objects to which
/// it did not come.
pub struct Sweep {
    tree: TreeId,
    stage: Stage,
    held: Option<Lease>,
    at: Spot,
    visited: Vec<PageId>,
    orphans: Vec<PageId>,
    kept: u64,
    removed: usize,
    trouble: Option<Trouble>,
}

// Written out, so that what holds a sweep need not look into it to let it go.
impl Drop for Sweep {
    fn drop(self) {
        let Sweep {
            tree: _,
            stage: _,
            held: _,
            at: _,
            visited: _,
            orphans: _,
            kept: _,
            removed: _,
            trouble: _,
        } = self;
    }
}

impl Model for Sweep {
    ghost use Rattle.orphan_sweep.specs.Sweeping.{Sweeping};

    ghost Value = { Sweeping };

    ghost view = { λ s. record {
      tree = s.tree;
      stage = s.stage;
      held = s.held;
      at = s.at;
      visited = s.visited.items;
      orphans = s.orphans.items;
      kept = s.kept;
      removed = s.removed;
      trouble = s.trouble;
    } };
}

impl Sweep {
    ghost use Rattle.orphan_sweep.specs.End.{calls_left};
    ghost use Rattle.orphan_sweep.specs.Ample.{IsRefusal, WantsMemory};
    ghost use Rattle.orphan_sweep.specs.Leases.{Went, GivesBack};
    ghost use Rattle.orphan_sweep.specs.Stepped.{Stepped};
    ghost use Rattle.orphan_sweep.specs.Sweeping.{new_sweeping, is_among, sweep_ask, take_tree, remove_next, next_orphan, handed, stopping, taken_by, to_page, goes_on, root_got, page_found, page_got, listed_by, removes, removed_by, finished_by, absorbed, SameLease, TurnsBy};

    /// The sweep of a tree. Takes no memory.
    pub fn new(alloc: Global, tree: TreeId) -> Sweep
        ensures { result ≡ new_sweeping tree }
    {
        Sweep {
            tree,
            stage: Stage::TakingTree,
            held: None,
            at: Spot::leftmost(alloc, 0, PageId::first()),
            visited: Vec::new(alloc),
            orphans: Vec::new(alloc),
            kept: 0,
            removed: 0,
            trouble: None,
        }
    }

    // ---- the call in hand

    fn take_tree(&self) -> Call<'_>
        ensures { ask_of result ≡ take_tree self.now }
    {
        Call::Take(Lock::Tree(self.tree), TREE_TICKS)
    }

    /// The first orphan that is not removed.
    fn next_orphan(&self) -> Option<PageId>
        ensures { result ≡ next_orphan self.now }
    {
        self.orphans.as_slice().get(self.removed).copied()
    }

    fn remove_call<'a>(&'a self, lease: &'a Lease) -> Call<'a>
        ensures { ask_of result ≡ remove_next self.now lease.now (next_orphan self.now) }
    {
        match self.next_orphan() {
            Some(page) => Call::RemoveHeld(ObjName::Page(self.tree, page), lease),
            None => self.take_tree(),
        }
    }

    /// The service call that the next step makes.
    pub fn in_hand(&self) -> Call<'_>
        ensures { ask_of result ≡ sweep_ask self.now }
    {
        match (self.stage, &self.held) {
            (Stage::GettingTree, Some(lease)) => { Call::GetHeld(ObjName::Tree(self.tree), lease) }
            (Stage::Reading, Some(lease)) => {
                Call::GetHeld(ObjName::Page(self.tree, self.at.page), lease)
            }
            (Stage::Listing, Some(lease)) => Call::ListHeld(self.tree, lease),
            (Stage::Removing, Some(lease)) => self.remove_call(lease),
            (Stage::Releasing, Some(lease)) => Call::Release(lease),
            _ => self.take_tree(),
        }
    }

    /// The lease that the call in hand gives back, where it gives one back.
    fn leaving(&mut self) -> Option<Lease>
        ensures lease { IfSome result (λ l. sweep_ask self.old ≡ Release l) }
        ensures none { IfNone result (Lends (sweep_ask self.new)) }
        ensures same { IfNone result (sweep_ask self.new ≡ sweep_ask self.old) }
        ensures left { self.new ≡ handed self.old }
    {
        match self.stage {
            Stage::Releasing => self.held.take(),
            _ => None,
        }
    }

    /// Makes the call in hand; a release hands its lease out.
    fn call<C: Cloud>(&mut self, cloud: &mut C, who: Who) -> Answer
        ensures made { Makes who (sweep_ask self.old) result (C.seen cloud.old) (C.seen cloud.new) }
        ensures left { self.new ≡ handed self.old }
    {
        match self.leaving() {
            Some(lease) => let_go(cloud, who, lease),
            None => perform(cloud, who, &self.in_hand()),
        }
    }

    // ---- where an answer leads

    fn stop(&mut self, trouble: Trouble) -> Turn<Swept>
        ensures took { TurnsBy (λ s next. stopping s trouble ≡ next) self.old self.new result }
        ensures more { result ≡ Turn.More }
    {
        self.stage = Stage::Releasing;
        self.trouble = Some(trouble);
        Turn::More
    }

    fn taken(&mut self, given: Result<Lease, Trouble>) -> Turn<Swept>
        ensures took { TurnsBy (λ s next. taken_by s given ≡ next) self.old self.new result }
        ensures refused { IfErr given (λ t. result ≡ Turn.Stopped t) }
    {
        match given {
            Ok(lease) => {
                self.stage = Stage::GettingTree;
                self.held = Some(lease);
                Turn::More
            }
            Err(trouble) => Turn::Stopped(trouble),
        }
    }

    /// Whether the sweep came to the page.
    fn came_to(&self, page: PageId) -> bool
        ensures { result ≡ is_among self.now.visited page }
    {
        is_among(self.visited.as_slice(), page)
    }

    fn to_page(&mut self, spot: Spot) -> Turn<Swept>
        ensures { TurnsBy (λ s next. to_page s spot ≡ next) self.old self.new result }
    {
        if self.visited.push(spot.page).is_err() {
            return Turn::Stopped(Trouble::Memory);
        }
        self.stage = Stage::Reading;
        self.at = spot;
        Turn::More
    }

    /// The page is read next, unless the sweep came to it before; the listing is next where there is none.
    fn go_on(&mut self, spot: Option<Spot>) -> Turn<Swept>
        ensures { TurnsBy (λ s next. goes_on s spot ≡ next) self.old self.new result }
    {
        let Some(spot) = spot else {
            self.stage = Stage::Listing;
            return Turn::More;
        };
        if self.came_to(spot.page) {
            return self.stop(Trouble::Loop { page: spot.page });
        }
        self.to_page(spot)
    }

    fn root_got(&mut self, alloc: Global, got: Result<Option<Blob>, Trouble>) -> Turn<Swept>
        ensures took { TurnsBy (λ s next. root_got s got ≡ next) self.old self.new result }
        ensures refused { IfErr got (λ _. result ≡ Turn.More) }
    {
        match got {
            Ok(got) => self.read_root(alloc, &got),
            Err(trouble) => self.stop(trouble),
        }
    }

    fn read_root(&mut self, alloc: Global, got: &Option<Blob>) -> Turn<Swept>
        ensures { TurnsBy (λ s next. root_got s (Ok got.now) ≡ next) self.old self.new result }
    {
        match root_held(self.tree, got) {
            Ok(root) => self.go_on(Some(top_spot(alloc, &root))),
            Err(trouble) => self.stop(trouble),
        }
    }

    fn page_got(&mut self, alloc: Global, got: Result<Option<Blob>, Trouble>) -> Turn<Swept>
        ensures took { TurnsBy (λ s next. page_got s got ≡ next) self.old self.new result }
        ensures refused { IfErr got (λ _. result ≡ Turn.More) }
    {
        match got {
            Ok(got) => {
                let found = paths_of(alloc, self.tree, &self.at, &got);
                self.follow(alloc, found)
            }
            Err(trouble) => self.stop(trouble),
        }
    }

    /// Goes on where the page at hand leads.
    fn follow(&mut self, alloc: Global, found: Result<Paths, Fault>) -> Turn<Swept>
        ensures { (wanted : Result Paths Trouble) → Finds found wanted → TurnsBy (λ s next. page_found s wanted ≡ next) self.old self.new result }
    {
        match found {
            Ok(paths) => {
                let spot = onward(alloc, &self.at, paths);
                self.go_on(spot)
            }
            Err(Fault::Stops(trouble)) => self.stop(trouble),
            Err(Fault::Memory) => Turn::Stopped(Trouble::Memory),
        }
    }

    fn listed(&mut self, alloc: Global, listed: Result<PageList, Trouble>) -> Turn<Swept>
        ensures took { TurnsBy (λ s next. listed_by s listed ≡ next) self.old self.new result }
        ensures refused { IfErr listed (λ _. result ≡ Turn.More) }
    {
        match listed {
            Ok(listed) => self.note_list(alloc, listed.as_slice()),
            Err(trouble) => self.stop(trouble),
        }
    }

    /// Notes which pages are to be removed: from here on no memory is taken.
    fn note_list(&mut self, alloc: Global, listed: &[PageId]) -> Turn<Swept>
        ensures { TurnsBy (λ s next. listed_by s (Ok listed.now) ≡ next) self.old self.new result }
    {
        let Ok(orphans) = strays(alloc, self.visited.as_slice(), listed) else {
            return Turn::Stopped(Trouble::Memory);
        };
        self.kept = listed.len().saturating_sub(orphans.len()) as u64;
        self.orphans = orphans;
        self.removed = 0;
        self.remove_next()
    }

    /// The next orphan is removed next, or the lease is given back where none is left.
    fn remove_next(&mut self) -> Turn<Swept>
        ensures took { TurnsBy (λ s next. removes s ≡ next) self.old self.new result }
        ensures more { result ≡ Turn.More }
    {
        match self.next_orphan() {
            Some(_) => {
                self.stage = Stage::Removing;
                Turn::More
            }
            None => {
                self.stage = Stage::Releasing;
                Turn::More
            }
        }
    }

    fn removed(&mut self, done: Result<(), Trouble>) -> Turn<Swept>
        ensures took { TurnsBy (λ s next. removed_by s done ≡ next) self.old self.new result }
        ensures refused { IfErr done (λ _. result ≡ Turn.More) }
        // Where an orphan is left no memory is taken.
        ensures listed { result ≡ Turn.Stopped Trouble.Memory → length self.old.orphans ≤ self.old.removed }
    {
        match done {
            Ok(()) => {
                let all = self.orphans.len();
                if self.removed >= all {
                    return Turn::Stopped(Trouble::Memory);
                }
                self.removed += 1;
                self.remove_next()
            }
            Err(trouble) => self.stop(trouble),
        }
    }

    fn finish(&mut self) -> Turn<Swept>
        ensures took { TurnsBy (λ s next. finished_by s s.trouble ≡ next) self.old self.new result }
        ensures kept { result ≡ Turn.Stopped Trouble.Memory → self.old.trouble ≡ Some Trouble.Memory }
    {
        self.stage = Stage::Finished;
        match self.trouble.take() {
            Some(trouble) => Turn::Stopped(trouble),
            None => Turn::Ended(Swept {
                kept: self.kept,
                removed: self.removed as u64,
            }),
        }
    }

    /// Takes the answer of the call in hand. A lease that the call gave back has left.
    fn absorb(&mut self, alloc: Global, answer: Answer) -> Turn<Swept>
        ensures took { Took (λ s a next. absorbed s a ≡ next) SameLease self.old answer self.new result }
        ensures memory { answer ≡ Answer.Memory → result ≡ Turn.Stopped Trouble.Memory }
        ensures refused { IsRefusal answer → result ≡ Turn.Stopped Trouble.Memory → self.old.trouble ≡ Some Trouble.Memory }
        ensures listed { answer ≢ Answer.Memory → result ≡ Turn.Stopped Trouble.Memory → WantsMemory self.old.stage self.old }
    {
        match (self.stage, answer) {
            (_, Answer::Memory) => Turn::Stopped(Trouble::Memory),
            (Stage::TakingTree, answer) => self.taken(answer.given(Lock::Tree(self.tree))),
            (Stage::GettingTree, answer) => self.root_got(alloc, answer.got()),
            (Stage::Reading, answer) => self.page_got(alloc, answer.got()),
            (Stage::Listing, answer) => self.listed(alloc, answer.listed()),
            (Stage::Removing, answer) => self.removed(answer.done()),
            (Stage::Releasing, _) => self.finish(),
            (Stage::Finished, _) => Turn::Stopped(Trouble::Failed),
        }
    }

    /// Makes the call in hand, and does the local work up to the next one.
    pub fn step<C: Cloud>(&mut self, alloc: Global, cloud: &mut C, who: Who) -> Turn<Swept>
        // The call in hand was made, and all that follows from its one answer.
        ensures steps { Stepped who (C.seen cloud.old) (C.seen cloud.new) self.old self.new result }
        // Each step that goes on leaves fewer calls.
        ensures less { result ≡ Turn.More → calls_left self.new < calls_left self.old }
        // Before an end the lease is given back.
        ensures gives_back { (h : List Deed) → Went h self.old → GivesBack self.new result }
    {
        let answer = self.call(cloud, who);
        let turn = self.absorb(alloc, answer);
        self.are_few();
        turn
    }

    /// Lists are no longer than the greatest usize.
    fn are_few(&self)
        ensures visited { length self.now.visited ≤ 2 ^ 64 }
        ensures orphans { length self.now.orphans ≤ 2 ^ 64 }
    {
        let _visited = self.visited.len();
        let _orphans = self.orphans.len();
    }
}

/// The first page of the level below the tree object. Takes no memory.
fn top_spot(alloc: Global, root: &TreeView<'_>) -> Spot
    ensures { result ≡ top_spot root.now }
{
    Spot::leftmost(
        alloc,
        root.level().saturating_sub(1),
        first_page(root.entries()),
    )
}
