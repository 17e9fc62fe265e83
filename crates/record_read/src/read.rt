ghost use Rattle.std.specs.Prelude.{◌≡◌, ◌<◌, ◌+◌, ℕ, List, length, Some, false};
ghost use Rattle.cloud_trait.specs.Call.{ask_of};
ghost use Rattle.cloud_trait.specs.Machine.{Deed};
ghost use Rattle.tree_walk.specs.Moves.{Moves};
ghost use Rattle.tree_walk.specs.Served.{MustGet};
ghost use Rattle.tree_walk.specs.Stepped.{Stepped};
ghost use Rattle.tree_walk.specs.Walk.{new_walk, walk_ask, walk_ready, ServesOn, calls_left, IsAtLeaf};
ghost use Rattle.tree_walk.specs.Within.{Went, WalksWithin};
ghost use Rattle.record_read.specs.Read.{read_value};

use cloud_trait::call::Call;
use cloud_trait::cloud::Cloud;
use cloud_trait::turn::Turn;
use cloud_trait::who::Who;
use db_base::ids::{ClientId, PageId, TreeId};
use db_base::key::Key;
use db_base::value::Value;
use head_codec::head::Head;
use page_cache::PageCache;
use route_plan::seen::seen;
use std::alloc::Global;
use std::marker::Model;
use tree_walk::Walk;
use txn_buffer::buffer::TxnBuffer;

/// A read of one record: a walk to its key.
pub struct RecordRead {
    walk: Walk,
}

impl Drop for RecordRead {
    fn drop(self) {
        let RecordRead { walk: _ } = self;
    }
}

impl Model for RecordRead {
    ghost use Rattle.tree_walk.specs.Walk.{Walk as State};

    ghost Value = { State };

    ghost view = { λ r. r.walk };
}

impl RecordRead {
    /// The read of a key in a tree. Takes no memory.
    pub fn new(alloc: Global, tree: TreeId, key: Key) -> RecordRead
        ensures { result ≡ new_walk tree (Some key) false }
    {
        RecordRead {
            walk: Walk::new(alloc, tree, Some(key), false),
        }
    }

    /// The service call that the next step makes.
    pub fn in_hand(&self) -> Call<'_>
        ensures { ask_of result ≡ walk_ask self.now }
    {
        self.walk.in_hand()
    }

    /// Its walk.
    pub fn walk(&self) -> &Walk
        ensures { result.now ≡ self.now }
    {
        &self.walk
    }

    /// Does the local work before the first call; it is called once.
    pub fn ready(&mut self, alloc: Global, cache: &mut PageCache) -> Turn<PageId>
        ensures moves { Moves (walk_ready (self.old, cache.old)) (self.new, cache.new) result }
        // No version that was served falls, whatever it comes to.
        ensures served { ServesOn cache.old cache.new }
    {
        self.walk.ready(alloc, cache)
    }

    /// Makes the call in hand, and does the local work up to the next one. At its end the leaf whose range holds the key stands
    /// in the cache.
    pub fn step<C: Cloud>(
        &mut self,
        alloc: Global,
        cloud: &mut C,
        who: Who,
        cache: &mut PageCache,
    ) -> Turn<PageId>
        // Its one call, and what that comes to: where it leads, why it stops and when it has to, and the leaf that it brings.
        ensures stepped { Stepped who (C.seen cloud.old) (C.seen cloud.new) (self.old, cache.old) (self.new, cache.new) result }
        ensures less { result ≡ Turn.More → calls_left self.new < calls_left self.old }
        ensures ends { (page : ℕ) → result ≡ Turn.Ended page → IsAtLeaf self.new cache.new page }
        // It comes to each page once, and one call more than these is all.
        ensures within { (h : List Deed) → Went h (self.old, cache.old) → WalksWithin (length h + 1) self.old self.new result }
        // What it gets next is a leaf, or what the cache does not keep.
        ensures gets { result ≡ Turn.More → MustGet self.new cache.new }
    {
        self.walk.step(alloc, cloud, who, cache)
    }

    /// The value of the key as its client sees it, once the read ended. Takes no memory.
    pub fn value<'a>(
        &self,
        cache: &'a PageCache,
        client: ClientId,
        head: &'a Head,
        buffer: &'a TxnBuffer,
    ) -> Option<Value<'a>>
        ensures { result ≡ read_value self.now cache.now client head.now buffer.now }
    {
        let leaf = cache.leaf(self.walk.object())?;
        let key = self.walk.sought();
        seen(&leaf, self.walk.tree(), key, client, head, buffer)
    }
}
