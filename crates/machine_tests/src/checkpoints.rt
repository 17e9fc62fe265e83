//! Checkpoints and sweeps of tree 1 over a cloud in memory.

use crate::machine::Machine;
use crate::objects::with_64_entries;
use crate::store::{lock, object, page, put_numbered, queue, send, take, tree, who};
use crate::story::Story;
use cloud_trait::cloud::Bench as Schedule;
use db_base::wish::{Positions, Wish};
use leaf_view::LeafView;
use memory_cloud::memory::MemoryCloud;
use node_codec::{InnerView, TreeView};
use orphan_sweep::Sweep;
use page_ckpt::PageCkpt;
use std::alloc::Global;
use std::test::Fail;
use tree_ckpt::TreeCkpt;

/// What is to come over a call.
#[derive(Clone, Copy)]
pub(crate) enum Mishap<'a> {
    /// It fails, and nothing lands.
    Fails,
    /// It lands, and answers that it failed.
    Loses,
    /// So many ticks go by before it.
    Waits(u64),
    /// It is a receive, and brings the messages at these positions.
    Gives(&'a [u64]),
}

/// What is to come over the calls of a checkpoint, by their numbers from 1.
pub(crate) type Mishaps<'a> = &'a [(u64, Mishap<'a>)];

/// A step of a script. The tree's lock, object and queue have the number 0, a page's that of the page.
#[derive(Clone, Copy)]
pub(crate) enum Step<'a> {
    /// Puts an object.
    Puts(u64, &'a [u8]),
    /// Puts the node that has this head and 64 entries.
    Fills(u64, &'a [u8]),
    /// Sends bytes to a queue.
    Sends(u64, &'a [u8]),
    /// Sends client 1's inserts to the tree's queue: the first number, the first key, and how many.
    Inserts(u8, u8, u8),
    /// Sends a client's update to the queue of page 1: the client, the number, the key and the payload.
    Updates(u8, u8, u8, u8),
    /// Takes a lock for so many ticks, and keeps it.
    Takes(u64, u64),
    /// So many ticks go by.
    Waits(u64),
    /// A checkpoint of the tree, and what it tells: its calls and its answer, a line for each.
    Tree(Mishaps<'a>, &'a str),
    /// A checkpoint of the tree that crashes before this call, and what it tells.
    Crashes(u64, &'a str),
    /// A checkpoint of a page, and what it tells.
    Page(u64, Mishaps<'a>, &'a str),
    /// A sweep of the tree, and what it tells.
    Sweeps(Mishaps<'a>, &'a str),
    /// An object has this version.
    Has(u64, u64, Option<&'a [u8]>),
    /// The newest leaf of a page: its version, its right page and how many records it has.
    Leaf(u64, u64, u64, usize),
    /// The newest tree object: its version, its next free page and its level.
    Root(u64, u64, u8),
    /// The newest tree object leads a key to this page.
    Leads(&'a [u8], u64),
    /// Client 1's inserts to an empty tree: so many times 64 of them, their keys of two bytes ascending, and each time a checkpoint.
    Grows(u16),
    /// The newest inner node of a page has so many entries.
    Node(u64, usize),
}

/// A cloud with what checkpoints of tree 1 find there.
#[derive(Drop)]
struct Bench {
    alloc: Global,
    cloud: MemoryCloud,
}

/// Plays a script over an empty cloud.
pub(crate) fn play(alloc: Global, script: &[Step<'_>]) -> Result<(), Fail> {
    let mut bench = empty(alloc);
    bench.play(script)
}

/// Plays a script over a cloud with this tree object alone.
pub(crate) fn play_over(alloc: Global, root: &[u8], script: &[Step<'_>]) -> Result<(), Fail> {
    let mut bench = empty(alloc);
    put_numbered(&mut bench.cloud, 0, root)?;
    bench.play(script)
}

/// The bench with an empty cloud.
fn empty(alloc: Global) -> Bench {
    Bench {
        alloc,
        cloud: MemoryCloud::new(alloc),
    }
}

/// A pending update record of epoch 1 and transaction 1: an insert (1) or an update (2) with its key and payload.
fn record(client: u8, number: u8, kind: u8, key: u8, payload: u8) -> [u8; 33] {
    [
        0x50, 1, client, 0, 0, 0, 0, 0, 0, 0, 1, 0, 0, 0, 0, 0, 0, 0, 1, 0, 0, 0, 0, 0, 0, 0,
        number, kind, 1, key, 0, 1, payload,
    ]
}

/// Client 1's insert of the key of two bytes that spell its number.
fn wide_record(number: u16) -> [u8; 34] {
    let [high, low] = number.to_be_bytes();
    [
        0x50, 1, 1, 0, 0, 0, 0, 0, 0, 0, 1, 0, 0, 0, 0, 0, 0, 0, 1, 0, 0, 0, 0, 0, 0, high, low, 1,
        2, high, low, 0, 1, 0x76,
    ]
}

/// Whether this is so.
fn is(so: bool) -> Result<(), Fail> {
    if so {
        Ok(())
    } else {
        Err(Fail::from("another object"))
    }
}

impl Bench {
    fn play(&mut self, script: &[Step<'_>]) -> Result<(), Fail> {
        for step in script {
            self.step(*step)?;
        }
        Ok(())
    }

    /// Plays a step: what is done before a checkpoint, or a checkpoint, or a look.
    fn step(&mut self, step: Step<'_>) -> Result<(), Fail> {
        match step {
            Step::Puts(number, bytes) => put_numbered(&mut self.cloud, number, bytes),
            Step::Fills(number, head) => self.fill(number, head),
            Step::Sends(to, bytes) => self.send(to, bytes),
            Step::Inserts(from, key, count) => self.insert(from, key, count),
            Step::Updates(client, number, key, payload) => {
                self.send(1, &record(client, number, 2, key, payload))
            }
            Step::Takes(number, ticks) => self.hold(number, ticks),
            Step::Waits(ticks) => {
                self.cloud.wait(ticks);
                Ok(())
            }
            Step::Tree(mishaps, wanted) => self.tree_checkpoint(mishaps, 400, wanted),
            Step::Crashes(call, wanted) => self.tree_checkpoint(&[], call, wanted),
            Step::Page(number, mishaps, wanted) => self.page_checkpoint(number, mishaps, wanted),
            Step::Sweeps(mishaps, wanted) => self.sweep(mishaps, wanted),
            Step::Has(number, version, bytes) => self.has(number, version, bytes),
            Step::Leaf(number, version, right, count) => {
                self.leaf(number, version, right, count)
            }
            Step::Root(version, next, level) => self.root(version, next, level),
            Step::Leads(key, number) => self.leads(key, number),
            Step::Grows(times) => self.grow(times),
            Step::Node(number, count) => self.node(number, count),
        }
    }

    fn fill(&mut self, number: u64, head: &[u8]) -> Result<(), Fail> {
        let node = with_64_entries(self.alloc, head)?;
        put_numbered(&mut self.cloud, number, node.as_slice())
    }

    fn hold(&mut self, number: u64, ticks: u64) -> Result<(), Fail> {
        let _lease = take(&mut self.cloud, lock(number)?, ticks)?;
        Ok(())
    }

    fn send(&mut self, number: u64, bytes: &[u8]) -> Result<(), Fail> {
        send(&mut self.cloud, queue(number)?, bytes)
    }

    fn insert(&mut self, from: u8, key: u8, count: u8) -> Result<(), Fail> {
        for index in 0..count {
            let (number, key) = (from.saturating_add(index), key.saturating_add(index));
            self.send(0, &record(1, number, 1, key, 0x76))?;
        }
        Ok(())
    }

    /// Sends client 1's insert of the key of a number.
    fn insert_wide(&mut self, number: u16) -> Result<(), Fail> {
        self.send(0, &wide_record(number))
    }

    /// Makes a checkpoint behind each 64 inserts, which applies them all.
    fn grow(&mut self, times: u16) -> Result<(), Fail> {
        let mut number = 1u16;
        for _ in 0..times {
            for _ in 0..64u16 {
                self.insert_wide(number)?;
                number = number.saturating_add(1);
            }
            self.fold()?;
        }
        Ok(())
    }

    /// Makes a checkpoint of the tree that applies 64 records.
    fn fold(&mut self) -> Result<(), Fail> {
        let mut checkpoint = TreeCkpt::new(self.alloc, tree()?);
        let mut story = Story::brief(self.alloc);
        self.make(&mut checkpoint, &mut story, &[], 400)?;
        story.ends("done 64 64 0\n")
    }

    fn node(&mut self, number: u64, count: usize) -> Result<(), Fail> {
        let bytes = self.cloud.peek(object(number)?)?.ok_or("absent")?;
        let view = InnerView::read(bytes.as_slice()).ok().ok_or("no node")?;
        is(has_entries(&view, count))
    }

    /// Lets come what is to come over a call.
    fn spoil(&mut self, mishaps: Mishaps<'_>, call: u64) -> Result<(), Fail> {
        for (number, mishap) in mishaps {
            if *number == call {
                self.befall(mishap)?;
            }
        }
        Ok(())
    }

    fn befall(&mut self, mishap: &Mishap<'_>) -> Result<(), Fail> {
        match mishap {
            Mishap::Fails => self.cloud.wish(Wish::Fail),
            Mishap::Loses => self.cloud.wish(Wish::Lost),
            Mishap::Waits(ticks) => self.cloud.wait(*ticks),
            Mishap::Gives(list) => {
                let positions = Positions::new(self.alloc, list)?;
                self.cloud.wish(Wish::Give(positions));
            }
        }
        Ok(())
    }

    fn tree_checkpoint(
        &mut self,
        mishaps: Mishaps<'_>,
        crash: u64,
        wanted: &str,
    ) -> Result<(), Fail> {
        let mut checkpoint = TreeCkpt::new(self.alloc, tree()?);
        let mut story = Story::brief(self.alloc);
        self.make(&mut checkpoint, &mut story, mishaps, crash)?;
        story.is(wanted)
    }

    fn page_checkpoint(
        &mut self,
        number: u64,
        mishaps: Mishaps<'_>,
        wanted: &str,
    ) -> Result<(), Fail> {
        let mut checkpoint = PageCkpt::new(self.alloc, tree()?, page(number)?);
        let mut story = Story::brief(self.alloc);
        self.make(&mut checkpoint, &mut story, mishaps, 400)?;
        story.is(wanted)
    }

    fn sweep(&mut self, mishaps: Mishaps<'_>, wanted: &str) -> Result<(), Fail> {
        let mut sweep = Sweep::new(self.alloc, tree()?);
        let mut story = Story::brief(self.alloc);
        self.make(&mut sweep, &mut story, mishaps, 400)?;
        story.is(wanted)
    }

    /// Makes the calls of a checkpoint, to its end or to this call.
    fn make<M: Machine>(
        &mut self,
        checkpoint: &mut M,
        story: &mut Story,
        mishaps: Mishaps<'_>,
        crash: u64,
    ) -> Result<(), Fail> {
        for call in 1..crash {
            self.spoil(mishaps, call)?;
            if self.go(checkpoint, story)? {
                return Ok(());
            }
        }
        Ok(())
    }

    /// Tells of a call of a checkpoint, and makes it; true where it ended.
    fn go<M: Machine>(&mut self, checkpoint: &mut M, story: &mut Story) -> Result<bool, Fail> {
        checkpoint.tell(story)?;
        checkpoint.make(self.alloc, &mut self.cloud, who()?, story)
    }

    fn has(&self, number: u64, version: u64, bytes: Option<&[u8]>) -> Result<(), Fail> {
        let name = object(number)?;
        match bytes {
            Some(bytes) => is(self.cloud.version_is(name, version, bytes)),
            None => is(!self.cloud.has_version(name, version)),
        }
    }

    fn leaf(&mut self, number: u64, version: u64, right: u64, count: usize) -> Result<(), Fail> {
        let bytes = self.cloud.peek(object(number)?)?.ok_or("absent")?;
        let view = LeafView::read(bytes.as_slice()).ok().ok_or("no leaf")?;
        is(view.version() == version)?;
        is(right_of(&view) == right)?;
        is(view.records().len() == count)
    }

    fn root(&mut self, version: u64, next: u64, level: u8) -> Result<(), Fail> {
        let bytes = self.cloud.peek(object(0)?)?.ok_or("absent")?;
        let view = TreeView::read(bytes.as_slice()).ok().ok_or("no root")?;
        is(view.version() == version)?;
        is(view.next() == next)?;
        is(view.level() == level)
    }

    fn leads(&mut self, key: &[u8], number: u64) -> Result<(), Fail> {
        let bytes = self.cloud.peek(object(0)?)?.ok_or("absent")?;
        let view = TreeView::read(bytes.as_slice()).ok().ok_or("no root")?;
        is(view.child(key).1.get() == number)
    }
}

/// Whether a node has just so many entries.
fn has_entries(view: &InnerView<'_>, count: usize) -> bool {
    let mut entries = view.entries();
    for _ in 0..count {
        if entries.next().is_none() {
            return false;
        }
    }
    entries.next().is_none()
}

/// The right page of a leaf, 0 for none.
fn right_of(view: &LeafView<'_>) -> u64 {
    match view.right() {
        Some(right) => right.get(),
        None => 0,
    }
}
