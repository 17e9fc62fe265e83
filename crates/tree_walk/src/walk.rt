ghost use Rattle.std.specs.Prelude.{◌≡◌, ◌≢◌, ◌<◌, ◌+◌, ℕ, if◌then◌else◌, false, fold, List, length, Option, Some, IfSome, Err};
ghost use Rattle.db_base.specs.declared.trouble.Trouble.{Trouble as Failure};
ghost use Rattle.std.specs.Option.{option_copied, option_map};
ghost use Rattle.byte_format.specs.Order.{bytes_below, bytes_same};
ghost use Rattle.cloud_trait.specs.Call.{ask_of};
ghost use Rattle.cloud_trait.specs.Machine.{Deed};
ghost use Rattle.node_codec.specs.Node.{page_at as node_at};
ghost use Rattle.page_cache.specs.Cache.{Cache, dropped};
ghost use Rattle.tree_walk.specs.Moves.{is_more, Moves, MovesIf, MovesBeside};
ghost use Rattle.tree_walk.specs.Served.{MustGet};
ghost use Rattle.tree_walk.specs.Stepped.{Stepped};
ghost use Rattle.tree_walk.specs.Walk.{right_of, ServesOn};
ghost use Rattle.tree_walk.specs.Within.{Went, WalksWithin};

use crate::spot::Spot;
use byte_format::{is_below, is_same};
use cloud_trait::answer::Answer;
use cloud_trait::call::Call;
use cloud_trait::cloud::Cloud;
use cloud_trait::perform::perform;
use cloud_trait::turn::Turn;
use cloud_trait::who::Who;
use db_base::blob::Blob;
use db_base::ids::{PageId, TreeId};
use db_base::key::Key;
use db_base::names::{ObjName, Place};
use db_base::trouble::Trouble;
use leaf_view::LeafView;
use node_codec::{InnerView, TreeView};
use page_cache::{MOST_OBJECTS, PageCache};
use std::alloc::Global;
use std::marker::Model;

/// Where the level stands in the bytes of an inner node.
const LEVEL_OFFSET: u64 = 10;

/// A walk down a B-link tree (Lehman and Yao, 1981) to the leaf whose range holds a key, or without a key to the leaf at the
/// tree's left end. The tree object and inner nodes are taken from the cache where it keeps them; leaves are always got.
pub struct Walk {
    tree: TreeId,
    key: Option<Key>,
    fresh: bool,
    // The page in hand; the tree object is in hand where there is none.
    spot: Option<Spot>,
    nodes: Vec<PageId>,
    leaves: Vec<PageId>,
    turned: bool,
    used: Option<ObjName>,
}

impl Drop for Walk {
    fn drop(self) {
        let Walk {
            tree: _,
            key: _,
            fresh: _,
            spot: _,
            nodes: _,
            leaves: _,
            turned: _,
            used: _,
        } = self;
    }
}

impl Model for Walk {
    ghost use Rattle.tree_walk.specs.Walk.{Walk as State, IsWalk};

    ghost Value = { State };

    ghost view = { λ w. record {
      tree = w.tree;
      key = w.key;
      fresh = w.fresh;
      spot = w.spot;
      nodes = w.nodes.items;
      leaves = w.leaves.items;
      turned = w.turned;
      used = w.used;
    } };

    ghost invariant = { λ w. IsWalk (record {
      tree = w.tree;
      key = w.key;
      fresh = w.fresh;
      spot = w.spot;
      nodes = w.nodes.items;
      leaves = w.leaves.items;
      turned = w.turned;
      used = w.used;
    }) };
}

/// The page to the right and its low key, where the key is not below the high key.
fn right_of<'a>(
    key: &[u8],
    high: Option<&'a [u8]>,
    page: Option<PageId>,
) -> Option<(PageId, &'a [u8])>
    ensures next { option_map (λ x. (x.0, x.1.now)) result ≡ right_of key.now (option_copied high.entry) page }
    ensures above { IfSome result (λ x. bytes_below key.now x.1.now ≡ false) }
{
    let high = high?;
    if is_below(key, high) {
        return None;
    }
    Some((page.unwrap_or(PageId::first()), high))
}

impl Walk {
    ghost use Rattle.tree_walk.specs.Walk.{IsAtLeaf, calls_left, new_walk, sought, object_of, walk_ask, spot_of, is_leaf, is_got, came_to, linked, right_to, down_to, bad_fence, bad_level, root_read, node_left, node_read, leaf_left, leaf_read, read_from, read_kept, goes_on, passed, left_by, beside, walk_ready, got_read, got_by, walk_next};

    /// A walk in a tree to a key, or without one to the tree's left end; a fresh one gets the tree object anew. Takes no memory.
    pub fn new(alloc: Global, tree: TreeId, key: Option<Key>, fresh: bool) -> Walk
        ensures { result ≡ new_walk tree key fresh }
    {
        Walk {
            tree,
            key,
            fresh,
            spot: None,
            nodes: Vec::new(alloc),
            leaves: Vec::new(alloc),
            turned: false,
            used: None,
        }
    }

    /// The tree.
    pub fn tree(&self) -> TreeId
        ensures { result ≡ self.now.tree }
    {
        self.tree
    }

    /// The key that leads, empty where there is none.
    pub fn sought(&self) -> &[u8]
        ensures { result.now ≡ sought self.now }
    {
        match &self.key {
            Some(key) => key.as_slice(),
            None => &[],
        }
    }

    /// The object in hand: at its end the leaf.
    pub fn object(&self) -> ObjName
        ensures { result ≡ object_of self.now }
    {
        match &self.spot {
            Some(spot) => ObjName::Page(self.tree, spot.page),
            None => ObjName::Tree(self.tree),
        }
    }

    fn page(&self) -> PageId
        ensures { result ≡ (spot_of self.now).page }
    {
        match &self.spot {
            Some(spot) => spot.page,
            None => PageId::first(),
        }
    }

    fn level(&self) -> u8
        ensures { result ≡ (spot_of self.now).level }
    {
        match &self.spot {
            Some(spot) => spot.level,
            None => 0,
        }
    }

    fn low(&self) -> &[u8]
        ensures { result.now ≡ (spot_of self.now).low }
    {
        match &self.spot {
            Some(spot) => spot.low.as_slice(),
            None => &[],
        }
    }

    /// Whether a low key is the one that the link promised.
    fn is_promised(&self, low: &[u8]) -> bool
        ensures { result ≡ bytes_same low.now (spot_of self.now).low }
    {
        is_same(low, self.low())
    }

    fn is_leaf(&self) -> bool
        ensures { result ≡ is_leaf self.now }
    {
        match &self.spot {
            Some(spot) => spot.level == 0,
            None => false,
        }
    }

    /// Whether the object in hand is got also where the cache keeps it.
    fn is_got(&self) -> bool
        ensures { result ≡ is_got self.now }
    {
        match &self.spot {
            Some(spot) => spot.level == 0,
            None => self.fresh,
        }
    }

    /// The service call that the next step makes.
    pub fn in_hand(&self) -> Call<'_>
        ensures { ask_of result ≡ walk_ask self.now }
    {
        Call::Get(self.object())
    }

    /// Whether the walk has come to a page, kept or got; the page in hand counts.
    pub fn came_to(&self, page: PageId) -> bool
        ensures { result ≡ came_to self.now page }
    {
        let in_hand = match &self.spot {
            Some(spot) => spot.page == page,
            None => false,
        };
        in_hand || self.nodes.as_slice().contains(&page) || self.leaves.as_slice().contains(&page)
    }

    /// The tree object or leaf that the newest turn used, kept or got. After More and Ended the cache keeps it.
    pub fn used(&self) -> Option<ObjName>
        ensures { result ≡ self.now.used }
    {
        self.used
    }

    /// The page of a link is in hand next.
    fn link(&mut self, page: PageId, level: u8, low: Blob) -> Turn<PageId>
        requires { bytes_below (sought self.old) low ≡ false }
        ensures { Moves (linked self.old (record { page = page; level = level; low = low })) self.new result }
    {
        if self.came_to(page) {
            return Turn::Stopped(Trouble::Loop { page });
        }
        self.spot = Some(Spot { page, level, low });
        Turn::More
    }

    fn go_right(&mut self, alloc: Global, page: PageId, low: &[u8]) -> Turn<PageId>
        requires { bytes_below (sought self.old) low.now ≡ false }
        ensures { Moves (right_to self.old (spot_of self.old).level (page, low.now)) self.new result }
    {
        self.turned = true;
        match Blob::copy_of(alloc, low) {
            Ok(low) => self.link(page, self.level(), low),
            Err(_) => Turn::Stopped(Trouble::Memory),
        }
    }

    fn go_down(&mut self, alloc: Global, level: u8, low: &[u8], page: PageId) -> Turn<PageId>
        requires { bytes_below (sought self.old) low.now ≡ false }
        ensures { Moves (down_to self.old level (low.now, page)) self.new result }
    {
        match Blob::copy_of(alloc, low) {
            Ok(low) => self.link(page, level.saturating_sub(1), low),
            Err(_) => Turn::Stopped(Trouble::Memory),
        }
    }

    fn bad_level(&self) -> Trouble
        ensures { result ≡ bad_level self.now }
    {
        Trouble::Damaged {
            place: Place::Object(ObjName::Page(self.tree, self.page())),
            offset: LEVEL_OFFSET,
        }
    }

    fn bad_fence(&self, alloc: Global, found: &[u8]) -> Trouble
        ensures { result ≢ Trouble.Memory → result ≡ bad_fence self.now found.now }
    {
        let Ok(expected) = Blob::copy_of(alloc, self.low()) else {
            return Trouble::Memory;
        };
        match Blob::copy_of(alloc, found) {
            Ok(found) => Trouble::BadFence {
                page: self.page(),
                expected,
                found,
            },
            Err(_) => Trouble::Memory,
        }
    }

    fn read_root(&mut self, alloc: Global, view: &TreeView<'_>) -> Turn<PageId>
        ensures { Moves (root_read self.old view.now) self.new result }
    {
        self.used = Some(self.object());
        let (low, page) = view.child(self.sought());
        self.go_down(alloc, view.level(), low, page)
    }

    /// Goes on from an inner node: to the right as the key demands, else down.
    fn leave_node(&mut self, alloc: Global, view: &InnerView<'_>) -> Turn<PageId>
        requires { bytes_below (sought self.old) view.now.low ≡ false }
        ensures { Moves (node_left self.old view.now (right_of (sought self.old) view.now.high (node_at view.now.right))) self.new result }
    {
        match right_of(self.sought(), view.high(), view.right()) {
            Some((page, high)) => self.go_right(alloc, page, high),
            None => {
                let (low, page) = view.child(self.sought());
                self.go_down(alloc, self.level(), low, page)
            }
        }
    }

    fn read_node(&mut self, alloc: Global, view: &InnerView<'_>) -> Turn<PageId>
        requires { is_leaf self.old ≡ false }
        ensures { Moves (node_read self.old view.now) self.new result }
    {
        if view.level() != self.level() {
            return Turn::Stopped(self.bad_level());
        }
        if !self.is_promised(view.low()) {
            return Turn::Stopped(self.bad_fence(alloc, view.low()));
        }
        let page = self.page();
        match self.nodes.push(page) {
            Ok(()) => self.leave_node(alloc, view),
            Err(_) => Turn::Stopped(Trouble::Memory),
        }
    }

    /// Goes on from a leaf to the right.
    fn leave_leaf(&mut self, alloc: Global, page: PageId, high: &[u8]) -> Turn<PageId>
        requires { bytes_below (sought self.old) high.now ≡ false }
        ensures { Moves (leaf_left self.old (Some (page, high.now))) self.new result }
    {
        let passed = self.page();
        match self.leaves.push(passed) {
            Ok(()) => self.go_right(alloc, page, high),
            Err(_) => Turn::Stopped(Trouble::Memory),
        }
    }

    fn read_leaf(&mut self, alloc: Global, view: &LeafView<'_>) -> Turn<PageId>
        ensures { Moves (leaf_read self.old view.now) self.new result }
    {
        if !self.is_promised(view.low()) {
            return Turn::Stopped(self.bad_fence(alloc, view.low()));
        }
        self.used = Some(self.object());
        match right_of(self.sought(), view.high(), view.right()) {
            Some((page, high)) => self.leave_leaf(alloc, page, high),
            None => Turn::Ended(self.page()),
        }
    }

    /// Goes on from the object in hand, where the cache keeps it.
    fn read(&mut self, alloc: Global, cache: &PageCache) -> Option<Turn<PageId>>
        ensures { MovesIf (read_from self.old cache.now) self.old self.new result }
    {
        let name = self.object();
        if self.spot.is_none() {
            let view = cache.tree(name)?;
            return Some(self.read_root(alloc, &view));
        }
        if self.is_leaf() {
            let view = cache.leaf(name)?;
            return Some(self.read_leaf(alloc, &view));
        }
        let view = cache.inner(name)?;
        Some(self.read_node(alloc, &view))
    }

    /// Goes on from the object in hand, where that needs no call.
    fn read_kept(&mut self, alloc: Global, cache: &PageCache) -> Option<Turn<PageId>>
        ensures { MovesIf (read_kept self.old cache.now) self.old self.new result }
    {
        if self.is_got() {
            return None;
        }
        self.read(alloc, cache)
    }

    /// Goes on through what the cache keeps, up to the next call.
    fn go_on(&mut self, alloc: Global, cache: &PageCache) -> Turn<PageId>
        ensures { Moves (goes_on cache.now self.old) self.new result }
    {
        let mut left = MOST_OBJECTS;
        while left > 0 {
            match self.read_kept(alloc, cache) {
                Some(Turn::More) => left -= 1,
                Some(Turn::Ended(page)) => return Turn::Ended(page),
                Some(Turn::Stopped(trouble)) => return Turn::Stopped(trouble),
                None => return Turn::More,
            }
        }
        Turn::More
    }

    /// Goes on from the object that was got and is kept now.
    fn read_got(&mut self, alloc: Global, cache: &PageCache) -> Turn<PageId>
        ensures { Moves (got_read self.old cache.now) self.new result }
    {
        match self.read(alloc, cache) {
            Some(Turn::More) => self.go_on(alloc, cache),
            Some(turn) => turn,
            None => Turn::Stopped(Trouble::Failed),
        }
    }

    fn take(
        &mut self,
        alloc: Global,
        cache: &mut PageCache,
        got: Result<Option<Blob>, Trouble>,
    ) -> Turn<PageId>
        ensures moves { MovesBeside (got_by self.old cache.old got) self.new cache.new result }
        ensures served { ServesOn cache.old cache.new }
        ensures failed { (t : Failure) → got ≡ Err t → result ≡ Turn.Stopped t }
    {
        match got {
            Ok(bytes) => match cache.accept(self.object(), bytes, self.is_leaf()) {
                Ok(_) => self.read_got(alloc, cache),
                Err(trouble) => Turn::Stopped(trouble),
            },
            Err(trouble) => Turn::Stopped(trouble),
        }
    }

    /// Drops the tree object and the inner nodes that were passed from the cache.
    fn drop_passed(&self, cache: &mut PageCache)
        ensures { cache.new ≡ fold dropped cache.old (passed self.now) }
    {
        cache.drop_kept(ObjName::Tree(self.tree));
        let mut left = self.nodes.as_slice();
        while let Some((page, rest)) = left.split_first() {
            cache.drop_kept(ObjName::Page(self.tree, *page));
            left = rest;
        }
    }

    /// Leaves the cache at the end of a turn.
    fn leave(&self, cache: &mut PageCache, turn: &Turn<PageId>)
        ensures { cache.new ≡ (if is_more turn.now then cache.old else left_by self.now cache.old) }
    {
        match turn {
            Turn::More => {}
            _ => {
                if self.turned {
                    self.drop_passed(cache);
                }
            }
        }
    }

    /// Does the local work before the first call; it is called once.
    pub fn ready(&mut self, alloc: Global, cache: &mut PageCache) -> Turn<PageId>
        ensures moves { Moves (walk_ready (self.old, cache.old)) (self.new, cache.new) result }
        // No version that was served falls, whatever it comes to.
        ensures served { ServesOn cache.old cache.new }
    {
        self.used = None;
        let turn = self.go_on(alloc, cache);
        self.leave(cache, &turn);
        turn
    }

    /// Takes the answer of the call in hand.
    fn absorb(&mut self, alloc: Global, cache: &mut PageCache, answer: Answer) -> Turn<PageId>
        ensures moves { Moves (walk_next (self.old, cache.old) answer) (self.new, cache.new) result }
        ensures served { ServesOn cache.old cache.new }
        ensures failed { answer ≡ Answer.Failed → result ≡ Turn.Stopped Trouble.Failed }
    {
        self.used = None;
        let turn = self.take(alloc, cache, answer.got());
        self.leave(cache, &turn);
        turn
    }

    /// Makes the call in hand, and does the local work up to the next one. It ends with the page of the leaf.
    pub fn step<C: Cloud>(
        &mut self,
        alloc: Global,
        cloud: &mut C,
        who: Who,
        cache: &mut PageCache,
    ) -> Turn<PageId>
        // Its one call, and what that comes to: where it leads, why it stops and when it has to, and the leaf that it brings.
        ensures stepped { Stepped who (C.seen cloud.old) (C.seen cloud.new) (self.old, cache.old) (self.new, cache.new) result }
        // It comes to one more page with each call that it goes on from.
        ensures less { result ≡ Turn.More → calls_left self.new < calls_left self.old }
        ensures ends { (page : ℕ) → result ≡ Turn.Ended page → IsAtLeaf self.new cache.new page }
        // It comes to each page once, and one call more than these is all.
        ensures within { (h : List Deed) → Went h (self.old, cache.old) → WalksWithin (length h + 1) self.old self.new result }
        // What it gets next is a leaf, the tree object of a fresh walk, or what the cache does not keep.
        ensures gets { result ≡ Turn.More → MustGet self.new cache.new }
    {
        // Read for the clauses `less` and `ends`.
        let _ = &self.nodes;
        let answer = perform(cloud, who, &self.in_hand());
        self.absorb(alloc, cache, answer)
    }
}
