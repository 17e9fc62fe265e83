ghost use Rattle.std.specs.Prelude.{◌≡◌, ◌≢◌, ◌<◌, ◌≤◌, ◌+◌, List, length, IfOk, OnOk, MatchResult};
ghost use Rattle.std.specs.Option.{option_copied};
ghost use Rattle.db_base.specs.Ids.{index_of};
ghost use Rattle.cloud_trait.specs.Call.{ask_of};
ghost use Rattle.cloud_trait.specs.Machine.{Goes, Stops, Deed, occasion_of};
ghost use Rattle.tree_walk.specs.Moves.{Moves};
ghost use Rattle.tree_walk.specs.Walk.{ServesOn};

use crate::keys::{add_keys, are_bytes, high_key};
use crate::own::Own;
use crate::prefix::{next_of, prefix_of};
use crate::stage::Stage;
use byte_format::{is_below_bound, is_same};
use cloud_trait::call::Call;
use cloud_trait::cloud::Cloud;
use cloud_trait::turn::Turn;
use cloud_trait::who::Who;
use db_base::attr::Attr;
use db_base::blob::Blob;
use db_base::ids::{PageId, TreeId};
use db_base::key::Key;
use db_base::trouble::Trouble;
use db_base::value::Value;
use leaf_view::LeafView;
use page_cache::PageCache;
use range_scan::{Items, Sight};
use report_types::pair_list::PairList;
use route_plan::seen::seen;
use std::alloc::{AllocError, Global};
use std::collections::VecDeque;
use std::marker::Model;
use tree_walk::Walk;

/// A look-up of the records of a tree that have an attribute: it walks to each leaf of the tree's index that may list some, and then to each
/// record that is listed, since an index is never cleared of what its tree has no more.
pub struct Lookup {
    tree: TreeId,
    attr: Attr,
    stage: Stage,
    walk: Walk,
    listed: VecDeque<Key>,
    pairs: PairList,
}

impl Drop for Lookup {
    fn drop(self) {
        let Lookup {
            tree: _,
            attr: _,
            stage: _,
            walk: _,
            listed: _,
            pairs: _,
        } = self;
    }
}

impl Model for Lookup {
    ghost use Rattle.std.specs.Prelude.{◌≤◌};
    ghost use Rattle.attr_index.specs.Look.{Look};

    ghost Value = { Look };

    ghost view = { λ l. record { query = record { tree = l.tree; attr = l.attr }; stage = l.stage; walk = l.walk; listed = l.listed.items; pairs = l.pairs } };

    // Its tree has an index.
    ghost invariant = { λ l. l.tree ≤ 8 };
}

impl Lookup {
    ghost use Rattle.attr_index.specs.End.{calls_left};
    ghost use Rattle.attr_index.specs.Meaning.{Visit, Looked};
    ghost use Rattle.attr_index.specs.Look.{Query, Look, behind_leaf, bound_of, has_attr, read_here, look_ask, look_ready, new_look, to_record, walked_by, walks, with_found, with_keys};
    ghost use Rattle.attr_index.specs.Stepped.{Stepped};
    ghost use Rattle.attr_index.specs.Within.{LooksWithin};

    /// Begins the look-up of the records of a tree, of which the trees 1 to 8 have an index, that have an attribute: does the local work before
    /// the first call. Want of memory beside the troubles of a walk.
    pub fn begin(
        alloc: Global,
        tree: TreeId,
        attr: Attr,
        cache: &mut PageCache,
    ) -> Result<Lookup, Trouble>
        requires { tree ≤ 8 }
        ensures begun { MatchResult result (λ l. look_ready (record { tree = tree; attr = attr }) cache.old ≡ Goes (l, cache.new)) (λ t. t ≢ Trouble.Memory → (l : Look) × (look_ready (record { tree = tree; attr = attr }) cache.old ≡ Stops (l, cache.new) t)) }
        // No version that was served falls, whatever it comes to.
        ensures served { ServesOn cache.old cache.new }
    {
        let Ok(mut lookup) = Lookup::new(alloc, tree, attr) else {
            return Err(Trouble::Memory);
        };
        match lookup.ready(alloc, cache) {
            Ok(()) => Ok(lookup),
            Err(trouble) => Err(trouble),
        }
    }

    /// A look-up before its first turn. Fails for memory alone.
    fn new(alloc: Global, tree: TreeId, attr: Attr) -> Result<Lookup, AllocError>
        requires { tree ≤ 8 }
        ensures { IfOk result (λ l. l ≡ new_look (record { tree = tree; attr = attr })) }
    {
        let prefix = prefix_of(alloc, &attr)?;
        let Some(index) = tree.index() else {
            unreachable!();
        };
        Ok(Lookup {
            tree,
            attr,
            stage: Stage::Index,
            walk: Walk::new(alloc, index, Some(prefix), false),
            listed: VecDeque::new(alloc),
            pairs: PairList::new(alloc),
        })
    }

    /// The service call that the next step makes.
    pub fn in_hand(&self) -> Call<'_>
        ensures { ask_of result ≡ look_ask self.now }
    {
        self.walk.in_hand()
    }

    /// Does the local work of the walk in hand before its first call.
    fn ready(&mut self, alloc: Global, cache: &mut PageCache) -> Result<(), Trouble>
        ensures moves { MatchResult result (λ _. walks self.old self.old.walk cache.old ≡ Goes (self.new, cache.new)) (λ t. t ≢ Trouble.Memory → walks self.old self.old.walk cache.old ≡ Stops (self.new, cache.new) t) }
        ensures served { ServesOn cache.old cache.new }
    {
        match self.walk.ready(alloc, cache) {
            Turn::More => Ok(()),
            Turn::Ended(_) => Err(Trouble::Failed),
            Turn::Stopped(trouble) => Err(trouble),
        }
    }

    /// Sets out on a walk.
    fn set_out(&mut self, alloc: Global, walk: Walk, cache: &mut PageCache) -> Turn<()>
        ensures moves { Moves (walks self.old walk cache.old) (self.new, cache.new) result }
        ensures served { ServesOn cache.old cache.new }
    {
        self.walk = walk;
        match self.ready(alloc, cache) {
            Ok(()) => Turn::More,
            Err(trouble) => Turn::Stopped(trouble),
        }
    }

    /// Goes to the next listed record; at the last one the look-up ends.
    fn to_record(&mut self, alloc: Global, cache: &mut PageCache) -> Turn<()>
        ensures moves { Moves (to_record self.old cache.old) (self.new, cache.new) result }
        ensures served { ServesOn cache.old cache.new }
    {
        let Some(key) = self.listed.pop_front() else {
            return Turn::Ended(());
        };
        self.stage = Stage::Records;
        let walk = Walk::new(alloc, self.tree, Some(key), false);
        self.set_out(alloc, walk, cache)
    }

    /// The tree of the index.
    fn index(&self) -> TreeId
        ensures { result ≡ index_of self.now.query.tree }
    {
        match self.tree.index() {
            Some(index) => index,
            None => unreachable!(),
        }
    }

    /// The bytes above all entries of the attribute. Fails for memory alone.
    fn bound(&self, alloc: Global) -> Result<Option<Blob>, AllocError>
        ensures { IfOk result (λ bound. bound ≡ bound_of self.now.query) }
    {
        let prefix = prefix_of(alloc, &self.attr)?;
        next_of(alloc, prefix.as_slice())
    }

    /// Goes on behind a leaf of the index: to the leaf that holds its high key, where that is below the bound, else to the records.
    fn go_behind(
        &mut self,
        alloc: Global,
        high: Option<Key>,
        bound: Option<&[u8]>,
        cache: &mut PageCache,
    ) -> Turn<()>
        requires { option_copied bound ≡ bound_of self.old.query }
        ensures moves { Moves (behind_leaf self.old high cache.old) (self.new, cache.new) result }
        ensures served { ServesOn cache.old cache.new }
    {
        let Some(high) = high else {
            return self.to_record(alloc, cache);
        };
        if !is_below_bound(high.as_slice(), bound) {
            return self.to_record(alloc, cache);
        }
        let walk = Walk::new(alloc, self.index(), Some(high), false);
        self.set_out(alloc, walk, cache)
    }

    /// Adds the keys that a leaf of the index lists. Fails for memory alone.
    fn list(
        &mut self,
        alloc: Global,
        leaf: LeafView<'_>,
        bound: Option<&[u8]>,
        own: &Own<'_>,
    ) -> Result<(), AllocError>
        requires { option_copied bound ≡ bound_of self.old.query }
        ensures { OnOk result (self.new ≡ with_keys self.old own.now leaf.entry) }
    {
        let sight = Sight {
            leaf,
            tree: self.index(),
            from: self.walk.sought(),
            to: bound,
            client: own.client,
            head: own.head,
            buffer: own.buffer,
        };
        let items = Items::of(alloc, &sight)?;
        add_keys(alloc, &self.attr, items, &mut self.listed)
    }

    /// Reads the leaf of the index at which the walk ended.
    fn read_index(&mut self, alloc: Global, cache: &mut PageCache, own: &Own<'_>) -> Turn<()>
        requires { self.old.stage ≡ Stage.Index }
        ensures moves { Moves (read_here self.old own.now cache.old) (self.new, cache.new) result }
        ensures served { ServesOn cache.old cache.new }
    {
        let Some(leaf) = cache.leaf(self.walk.object()) else {
            return Turn::Stopped(Trouble::Failed);
        };
        let (Ok(bound), Ok(high)) = (self.bound(alloc), high_key(alloc, &leaf)) else {
            return Turn::Stopped(Trouble::Memory);
        };
        let bound = match &bound {
            Some(bound) => Some(bound.as_slice()),
            None => None,
        };
        match self.list(alloc, leaf, bound, own) {
            Ok(()) => self.go_behind(alloc, high, bound, cache),
            Err(_) => Turn::Stopped(Trouble::Memory),
        }
    }

    /// Whether a value has the attribute.
    fn is_sought(&self, value: &Value<'_>) -> bool
        ensures { result ≡ has_attr self.now.query.attr value.now.attr }
    {
        match value.attr() {
            Some(attr) => is_same(attr, self.attr.as_slice()),
            None => false,
        }
    }

    /// Adds the record of the walk's key, where the client sees it in the leaf with the attribute. Fails for memory alone.
    fn add_found(
        &mut self,
        alloc: Global,
        leaf: &LeafView<'_>,
        own: &Own<'_>,
    ) -> Result<(), AllocError>
        ensures { OnOk result (self.new ≡ with_found self.old own.now leaf.now) }
    {
        let key = self.walk.sought();
        let Some(value) = seen(leaf, self.tree, key, own.client, own.head, own.buffer) else {
            return Ok(());
        };
        if !self.is_sought(&value) {
            return Ok(());
        }
        let key = Blob::copy_of(alloc, key)?;
        let payload = Blob::copy_of(alloc, value.payload())?;
        self.pairs.add(key.as_slice(), payload.as_slice())
    }

    /// Reads the leaf of the record at which the walk ended.
    fn read_record(&mut self, alloc: Global, cache: &mut PageCache, own: &Own<'_>) -> Turn<()>
        requires { self.old.stage ≡ Stage.Records }
        ensures moves { Moves (read_here self.old own.now cache.old) (self.new, cache.new) result }
        ensures served { ServesOn cache.old cache.new }
    {
        let Some(leaf) = cache.leaf(self.walk.object()) else {
            return Turn::Stopped(Trouble::Failed);
        };
        match self.add_found(alloc, &leaf, own) {
            Ok(()) => self.to_record(alloc, cache),
            Err(_) => Turn::Stopped(Trouble::Memory),
        }
    }

    /// Reads the leaf at which the walk ended, by what the walk was for.
    fn read_leaf(&mut self, alloc: Global, cache: &mut PageCache, own: &Own<'_>) -> Turn<()>
        ensures moves { Moves (read_here self.old own.now cache.old) (self.new, cache.new) result }
        ensures served { ServesOn cache.old cache.new }
    {
        match self.stage {
            Stage::Index => self.read_index(alloc, cache, own),
            Stage::Records => self.read_record(alloc, cache, own),
        }
    }

    /// Goes on from a turn of the walk.
    fn walked(
        &mut self,
        alloc: Global,
        cache: &mut PageCache,
        own: &Own<'_>,
        turn: Turn<PageId>,
    ) -> Turn<()>
        ensures moves { Moves (walked_by self.old own.now (self.old.walk, cache.old) turn) (self.new, cache.new) result }
        ensures served { ServesOn cache.old cache.new }
    {
        match turn {
            Turn::More => Turn::More,
            Turn::Ended(_) => self.read_leaf(alloc, cache, own),
            Turn::Stopped(trouble) => Turn::Stopped(trouble),
        }
    }

    /// Makes the call in hand, and does the local work up to the next one.
    pub fn step<C: Cloud>(
        &mut self,
        alloc: Global,
        cloud: &mut C,
        who: Who,
        cache: &mut PageCache,
        own: &Own<'_>,
    ) -> Turn<()>
        // Its one call, and what that comes to.
        ensures stepped { Stepped own.now (occasion_of who (C.seen cloud.old) (C.seen cloud.new)) (self.old, cache.old) (self.new, cache.new) result }
        // Each call comes to one more page of a walk, each walk to a key above those before it, or to one listed record less.
        ensures less { result ≡ Turn.More → calls_left self.new < calls_left self.old }
        // By the whole run its calls are those of one walk for each leaf that it came to and of the walk in hand, each of which comes to a page once.
        ensures within { (q : Query) (h : List Deed) (vs : List Visit) → Looked q own.now h vs (self.old, cache.old) → LooksWithin q h vs (self.old, cache.old) (length h + 1) }
    {
        let moved = self.walk.step(alloc, cloud, who, cache);
        let turn = self.walked(alloc, cache, own, moved);
        // Read for the clause `less`.
        let _ = &self.listed;
        are_bytes(self.walk.sought());
        // Each change of the buffer is of a tree and key of its own.
        let _ = own.buffer.len();
        turn
    }

    /// The records found, in the order of their keys.
    pub fn into_pairs(self) -> PairList
        ensures { result ≡ self.pairs }
    {
        let Lookup {
            tree: _,
            attr: _,
            stage: _,
            walk: _,
            listed: _,
            pairs,
        } = self;
        pairs
    }
}
