ghost use Rattle.std.specs.Prelude.{◌≡◌, ◌≢◌, ◌<◌, true, false, is_some, IfOk};
ghost use Rattle.page_cache.specs.Held.{leaf_at};
ghost use Rattle.std.specs.Option.{option_copied, option_map};
ghost use Rattle.byte_format.specs.Order.{below_bound};
ghost use Rattle.cloud_trait.specs.Call.{ask_of};
ghost use Rattle.cloud_trait.specs.Machine.{Steps, occasion_of};
ghost use Rattle.tree_walk.specs.Moves.{Moves, MovesBeside};
ghost use Rattle.tree_walk.specs.Walk.{Spot as Place, ServesOn};

use crate::items::Items;
use crate::sight::Sight;
use byte_format::{is_below, is_same};
use cloud_trait::answer::Answer;
use cloud_trait::call::Call;
use cloud_trait::cloud::Cloud;
use cloud_trait::perform::perform;
use cloud_trait::turn::Turn;
use cloud_trait::who::Who;
use db_base::blob::Blob;
use db_base::ids::{ClientId, PageId, TreeId};
use db_base::key::Key;
use db_base::names::ObjName;
use db_base::trouble::Trouble;
use head_codec::head::Head;
use leaf_view::LeafView;
use page_cache::PageCache;
use std::alloc::{AllocError, Global};
use std::marker::Model;
use tree_walk::{Spot, Walk};
use txn_buffer::buffer::TxnBuffer;

/// A scan of the keys from one on and below another: a walk to the first leaf, and then from each leaf to its right page. It ends
/// once per leaf.
pub struct RangeScan {
    walk: Walk,
    to: Option<Key>,
    // The right page in hand; while there is none, the walk is in hand.
    spot: Option<Spot>,
    // The page to the right of the newest leaf.
    next: Option<Spot>,
    passed: Vec<PageId>,
}

// Written out, so that what holds a scan need not look into it to let it go.
impl Drop for RangeScan {
    fn drop(self) {
        let RangeScan {
            walk: _,
            to: _,
            spot: _,
            next: _,
            passed: _,
        } = self;
    }
}

impl Model for RangeScan {
    ghost use Rattle.range_scan.specs.Scan.{Scan};

    ghost Value = { Scan };

    ghost view = { λ s. record { walk = s.walk; to = s.to; spot = s.spot; next = s.next; passed = s.passed.items } };
}

impl RangeScan {
    ghost use Rattle.range_scan.specs.Scan.{new_scan, scan_object, scan_ask, right_in, scan_came_to, leaf_ended, goes_on, moved_on, first_read, walked_on, right_read_in, right_read, right_got, scan_ready, scan_machine};
    ghost use Rattle.range_scan.specs.End.{calls_left, GoesFurther};
    ghost use Rattle.range_scan.specs.Pairs.{AreItemsIn};
    ghost use Rattle.range_scan.specs.Stepped.{Stepped};

    /// The scan of a tree from a key on, or from its left end, and below a key, or to its right end. Takes no memory.
    pub fn new(alloc: Global, tree: TreeId, from: Option<Key>, to: Option<Key>) -> RangeScan
        ensures { result ≡ new_scan tree from to }
    {
        RangeScan {
            walk: Walk::new(alloc, tree, from, false),
            to,
            spot: None,
            next: None,
            passed: Vec::new(alloc),
        }
    }

    /// The object in hand: once the scan ended at a leaf, that leaf.
    pub fn object(&self) -> ObjName
        ensures { result ≡ scan_object self.now }
    {
        match &self.spot {
            Some(spot) => ObjName::Page(self.walk.tree(), spot.page),
            None => self.walk.object(),
        }
    }

    fn page(&self) -> PageId
        ensures { result ≡ (right_in self.now).page }
    {
        match &self.spot {
            Some(spot) => spot.page,
            None => PageId::first(),
        }
    }

    fn low(&self) -> &[u8]
        ensures { result.now ≡ (right_in self.now).low }
    {
        match &self.spot {
            Some(spot) => spot.low.as_slice(),
            None => &[],
        }
    }

    /// The service call that the next step makes.
    pub fn in_hand(&self) -> Call<'_>
        ensures { ask_of result ≡ scan_ask self.now }
    {
        Call::Get(self.object())
    }

    /// Whether the scan has come to a page, in its walk too.
    pub fn came_to(&self, page: PageId) -> bool
        ensures { result ≡ scan_came_to self.now page }
    {
        let in_hand = match &self.spot {
            Some(spot) => spot.page == page,
            None => false,
        };
        in_hand || self.walk.came_to(page) || self.passed.as_slice().contains(&page)
    }

    /// Whether a low key is below the key at which the scan stops.
    fn is_wanted(&self, low: &[u8]) -> bool
        ensures { result ≡ below_bound low.now self.now.to }
    {
        match &self.to {
            Some(to) => is_below(low, to.as_slice()),
            None => true,
        }
    }

    /// Ends at a leaf, and keeps what is to its right.
    fn end_leaf(&mut self, alloc: Global, view: &LeafView<'_>, page: PageId) -> Turn<PageId>
        ensures { Moves (leaf_ended self.old view.now page) self.new result }
    {
        let Some(high) = view.high() else {
            self.next = None;
            return Turn::Ended(page);
        };
        let right = view.right().unwrap_or(PageId::first());
        if self.is_wanted(high) && self.came_to(right) {
            return Turn::Stopped(Trouble::Loop { page: right });
        }
        match Blob::copy_of(alloc, high) {
            Ok(low) => {
                self.next = Some(Spot {
                    page: right,
                    level: 0,
                    low,
                });
                Turn::Ended(page)
            }
            Err(_) => Turn::Stopped(Trouble::Memory),
        }
    }

    /// Ends at the leaf at which the walk ended.
    fn read_first(&mut self, alloc: Global, cache: &PageCache, page: PageId) -> Turn<PageId>
        ensures { Moves (first_read self.old cache.now page) self.new result }
    {
        match cache.leaf(self.walk.object()) {
            Some(view) => self.end_leaf(alloc, &view, page),
            None => Turn::Stopped(Trouble::Failed),
        }
    }

    fn walked(&mut self, alloc: Global, cache: &PageCache, turn: Turn<PageId>) -> Turn<PageId>
        ensures { Moves (walked_on self.old cache.now turn) self.new result }
    {
        match turn {
            Turn::More => Turn::More,
            Turn::Ended(page) => self.read_first(alloc, cache, page),
            Turn::Stopped(trouble) => Turn::Stopped(trouble),
        }
    }

    fn bad_fence(&self, alloc: Global, found: &[u8]) -> Trouble
        ensures { result ≢ Trouble.Memory → result ≡ Trouble.BadFence (right_in self.now).page (right_in self.now).low found.now }
    {
        let Ok(expected) = Blob::copy_of(alloc, self.low()) else {
            return Trouble::Memory;
        };
        match Blob::copy_of(alloc, found) {
            Ok(found) => Trouble::BadFence {
                page: self.page(),
                expected,
                found,
            },
            Err(_) => Trouble::Memory,
        }
    }

    fn read_right_leaf(&mut self, alloc: Global, view: &LeafView<'_>) -> Turn<PageId>
        ensures { Moves (right_read_in self.old (Some view.now)) self.new result }
    {
        if !is_same(view.low(), self.low()) {
            return Turn::Stopped(self.bad_fence(alloc, view.low()));
        }
        let page = self.page();
        match self.passed.push(page) {
            Ok(()) => self.end_leaf(alloc, view, page),
            Err(_) => Turn::Stopped(Trouble::Memory),
        }
    }

    fn read_right(&mut self, alloc: Global, cache: &PageCache) -> Turn<PageId>
        ensures { Moves (right_read self.old cache.now) self.new result }
    {
        match cache.leaf(self.object()) {
            Some(view) => self.read_right_leaf(alloc, &view),
            None => Turn::Stopped(Trouble::Failed),
        }
    }

    fn take_right(
        &mut self,
        alloc: Global,
        cache: &mut PageCache,
        got: Result<Option<Blob>, Trouble>,
    ) -> Turn<PageId>
        ensures moves { MovesBeside (right_got self.old cache.old got) self.new cache.new result }
        ensures served { ServesOn cache.old cache.new }
    {
        match got {
            Ok(bytes) => match cache.accept(self.object(), bytes, true) {
                Ok(_) => self.read_right(alloc, cache),
                Err(trouble) => Turn::Stopped(trouble),
            },
            Err(trouble) => Turn::Stopped(trouble),
        }
    }

    /// Does the local work before the first call; it is called once.
    pub fn ready(&mut self, alloc: Global, cache: &mut PageCache) -> Turn<PageId>
        ensures moves { Moves (scan_ready (self.old, cache.old)) (self.new, cache.new) result }
        // No version that was served falls, whatever it comes to.
        ensures served { ServesOn cache.old cache.new }
    {
        let turn = self.walk.ready(alloc, cache);
        self.walked(alloc, cache, turn)
    }

    /// Gets the right page in hand.
    fn step_right<C: Cloud>(
        &mut self,
        alloc: Global,
        cloud: &mut C,
        who: Who,
        cache: &mut PageCache,
    ) -> Turn<PageId>
        requires { is_some self.old.spot ≡ true }
        ensures steps { Steps scan_machine (occasion_of who (C.seen cloud.old) (C.seen cloud.new)) (self.old, cache.old) (self.new, cache.new) result }
        ensures served { ServesOn cache.old cache.new }
        ensures less { result ≡ Turn.More → calls_left self.new < calls_left self.old }
        ensures further { GoesFurther self.old self.new result }
    {
        // Read for the clause `further`.
        let _ = &self.passed;
        let answer = perform(cloud, who, &self.in_hand());
        self.take_right(alloc, cache, answer.got())
    }

    /// Makes the call of the walk in hand.
    fn step_walk<C: Cloud>(
        &mut self,
        alloc: Global,
        cloud: &mut C,
        who: Who,
        cache: &mut PageCache,
    ) -> Turn<PageId>
        requires { is_some self.old.spot ≡ false }
        ensures steps { Steps scan_machine (occasion_of who (C.seen cloud.old) (C.seen cloud.new)) (self.old, cache.old) (self.new, cache.new) result }
        ensures served { ServesOn cache.old cache.new }
        ensures less { result ≡ Turn.More → calls_left self.new < calls_left self.old }
        ensures further { GoesFurther self.old self.new result }
    {
        let turn = self.walk.step(alloc, cloud, who, cache);
        self.walked(alloc, cache, turn)
    }

    /// Makes the call in hand, and does the local work up to the next one. It ends with the page of each leaf in turn.
    pub fn step<C: Cloud>(
        &mut self,
        alloc: Global,
        cloud: &mut C,
        who: Who,
        cache: &mut PageCache,
    ) -> Turn<PageId>
        // Its one call, and what that comes to: where it leads, at which leaf it ends, why it stops and when it has to.
        ensures stepped { Stepped who (C.seen cloud.old) (C.seen cloud.new) (self.old, cache.old) (self.new, cache.new) result }
        // Each call that it goes on from, in its walk or behind the leaf at which it ended, comes to one more page.
        ensures less { result ≡ Turn.More → calls_left self.new < calls_left self.old }
        ensures further { GoesFurther self.old self.new result }
    {
        if self.spot.is_some() {
            self.step_right(alloc, cloud, who, cache)
        } else {
            self.step_walk(alloc, cloud, who, cache)
        }
    }

    /// Goes on behind the leaf at which the scan ended; false where nothing follows. Takes no memory.
    pub fn go_on(&mut self) -> bool
        ensures goes { result ≡ goes_on self.old }
        ensures moved { self.new ≡ moved_on self.old }
    {
        let is_wanted = match &self.next {
            Some(next) => self.is_wanted(next.low.as_slice()),
            None => false,
        };
        if is_wanted {
            self.spot = self.next.take();
        }
        is_wanted
    }

    /// The key below which the scan stops.
    fn to(&self) -> Option<&[u8]>
        ensures { option_copied result ≡ self.now.to }
    {
        match &self.to {
            Some(to) => Some(to.as_slice()),
            None => None,
        }
    }

    /// The pairs of the leaf at which the scan ended as its client sees them, from the scan's first key on and below its last one, in
    /// key order, the client's own changes included; none where the cache does not keep the leaf. It is a list that borrows keys and
    /// payloads and attributes where they lie, not an iterator over its sources: own keys come between those of the leaf, each at its place.
    /// Fails for memory alone.
    pub fn items<'a>(
        &'a self,
        alloc: Global,
        cache: &'a PageCache,
        client: ClientId,
        head: &'a Head,
        buffer: &'a TxnBuffer,
    ) -> Result<Items<'a>, AllocError>
        ensures { IfOk result (λ items. AreItemsIn (leaf_at cache.now (scan_object self.now)) self.now client head.now buffer.now items) }
    {
        let Some(leaf) = cache.leaf(self.object()) else {
            return Ok(Items::none(alloc));
        };
        let sight = Sight {
            leaf,
            tree: self.walk.tree(),
            from: self.walk.sought(),
            to: self.to(),
            client,
            head,
            buffer,
        };
        Items::of(alloc, &sight)
    }

    /// The high key of the leaf at which the scan ended, at which a new scan goes on; none at the right end. Takes no memory.
    pub fn resume_key(&self) -> Option<&[u8]>
        ensures { option_copied result ≡ option_map (λ (next : Place). next.low) self.now.next }
    {
        match &self.next {
            Some(next) => Some(next.low.as_slice()),
            None => None,
        }
    }
}
