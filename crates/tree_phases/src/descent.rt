ghost use Rattle.std.specs.Prelude.{◌≡◌, length, OnOk};
ghost use Rattle.db_base.specs.declared.trouble.Trouble.{Trouble};
ghost use Rattle.cloud_trait.specs.Call.{ask_of};
ghost use Rattle.tree_phases.specs.Going.{Finds, IfFinds, Went};
ghost use Rattle.tree_phases.specs.declared.fork.Fork.{Fork};
ghost use Rattle.tree_phases.specs.Descent.{descent_ask, descent_next, begun, forked, fork_of, passed, FindsKept, kept_at, go_on, stride, walk, arrive, absent_node, with_node, got_node};

use crate::chart::Chart;
use crate::fork::{Fork, bad_fence, forked_on};
use crate::kept::KeptNode;
use crate::link::Link;
use crate::pace::Pace;
use crate::pages::PageList;
use crate::read::{damaged, node_bytes, tree_view};
use crate::spelled::NodeBytes;
use byte_format::{is_below, is_same};
use ckpt_parts::Fault;
use cloud_trait::answer::Answer;
use cloud_trait::call::Call;
use cloud_trait::lease::Lease;
use db_base::blob::Blob;
use db_base::ids::PageId;
use db_base::names::ObjName;
use db_base::trouble::Trouble;
use node_codec::InnerView;
use std::alloc::{AllocError, Global};

/// Where a way over kept nodes comes to.
#[derive(Clone, Copy, Debug, PartialEq, Eq)]
pub enum Reach {
    /// At an inner node that is to be got.
    Node,
    /// At the leaf.
    Leaf,
}

/// The way down to the leaf of the chart's key.
#[derive(Drop)]
pub struct Descent {
    /// What is known of the tree.
    pub chart: Chart,
    /// The level of the page that it has come to, 0 for a leaf.
    pub level: u8,
    /// The page that it has come to.
    pub page: PageId,
    /// The low key that led there.
    pub low: Blob,
    /// The inner nodes on the way, which it has passed.
    pub visited: PageList,
}

impl Descent {
    /// The way from the tree object to a page of the level below. Takes no memory.
    pub fn begin(alloc: Global, chart: Chart, low: Blob, page: PageId) -> Descent
        ensures { result ≡ begun chart low page }
    {
        let level = tree_view(&chart.root).level().saturating_sub(1);
        Descent {
            chart,
            level,
            page,
            low,
            visited: PageList::new(alloc),
        }
    }

    /// The get of the node that it has come to, under the tree's lease.
    pub fn in_hand<'a>(&self, lease: &'a Lease) -> Call<'a>
        ensures { ask_of result ≡ descent_ask self.now lease.now }
    {
        Call::GetHeld(ObjName::Page(self.chart.tree, self.page), lease)
    }

    /// Checks a node against what led to it, and finds where it leads.
    fn fork(&self, alloc: Global, node: &InnerView<'_>) -> Result<Fork, Fault>
        ensures { Finds result (forked self.now node.now) }
    {
        if node.level() != self.level {
            return Err(Fault::Stops(damaged(self.chart.tree, self.page, 10)));
        }
        let key = self.chart.key.as_slice();
        if is_same(node.low(), self.low.as_slice()) && !is_below(key, node.low()) {
            return forked_on(alloc, key, node);
        }
        match bad_fence(alloc, self.page, self.low.as_slice(), node.low()) {
            Ok(trouble) => Err(Fault::Stops(trouble)),
            Err(_) => Err(Fault::Memory),
        }
    }

    /// The same of the bytes of a node.
    fn fork_of(&self, alloc: Global, bytes: &NodeBytes) -> Result<Fork, Fault>
        ensures { Finds result (fork_of self.now bytes.now) }
    {
        self.fork(alloc, &bytes.view())
    }

    /// Goes where the node at hand leads. A link to the right is noted for the level above. Refused for memory alone.
    fn pass(&mut self, alloc: Global, fork: Fork) -> Result<(), AllocError>
        ensures { OnOk result (self.new ≡ passed self.old fork) }
    {
        self.visited.push(self.page)?;
        match fork {
            Fork::Right(low, page) => {
                let copy = Blob::copy_of(alloc, low.as_slice())?;
                self.chart.links.push(Link {
                    level: self.level as u64 + 1,
                    low: copy,
                    page,
                })?;
                self.low = low;
                self.page = page;
                Ok(())
            }
            Fork::Down(low, page) => {
                self.level = self.level.saturating_sub(1);
                self.low = low;
                self.page = page;
                Ok(())
            }
        }
    }

    /// Goes where the node at hand leads, or stops at what was found in it.
    fn go_on(&mut self, alloc: Global, fork: Result<Fork, Fault>) -> Pace<Reach>
        ensures { IfFinds fork (λ wanted. Went (go_on self.old wanted) self.new result) }
    {
        match fork {
            Ok(fork) => match self.pass(alloc, fork) {
                Ok(()) => Pace::More,
                Err(_) => Pace::Memory,
            },
            Err(Fault::Stops(trouble)) => Pace::Stopped(trouble),
            Err(Fault::Memory) => Pace::Memory,
        }
    }

    /// Where the node at hand leads, where it was got before.
    fn kept_fork(&self, alloc: Global) -> Option<Result<Fork, Fault>>
        ensures { FindsKept self.now result (kept_at self.now) }
    {
        match self.chart.nodes.find(self.page) {
            Some(kept) => Some(self.fork_of(alloc, &kept.bytes)),
            None => None,
        }
    }

    /// Goes on over one node that was got before.
    fn stride(&mut self, alloc: Global) -> Pace<Reach>
        ensures { Went (stride self.old) self.new result }
    {
        if self.level == 0 {
            return Pace::Ended(Reach::Leaf);
        }
        if self.visited.has(self.page) {
            return Pace::Stopped(Trouble::Loop { page: self.page });
        }
        match self.kept_fork(alloc) {
            Some(fork) => self.go_on(alloc, fork),
            None => Pace::Ended(Reach::Node),
        }
    }

    /// Goes on over nodes that were got before, as far as they lead.
    fn walk(&mut self, alloc: Global) -> Pace<Reach>
        ensures { Went (walk (length self.old.chart.nodes) self.old) self.new result }
    {
        let mut left = self.chart.nodes.len();
        'strides: while left > 0 {
            match self.stride(alloc) {
                Pace::More => left -= 1,
                Pace::Ended(reach) => return Pace::Ended(reach),
                Pace::Stopped(trouble) => return Pace::Stopped(trouble),
                Pace::Memory => return Pace::Memory,
            }
        }
        match self.stride(alloc) {
            Pace::More => Pace::Stopped(Trouble::Loop { page: self.page }),
            Pace::Ended(reach) => Pace::Ended(reach),
            Pace::Stopped(trouble) => Pace::Stopped(trouble),
            Pace::Memory => Pace::Memory,
        }
    }

    /// Goes on to the next node that is to be got, or ends at the leaf.
    pub fn arrive(&mut self, alloc: Global) -> Pace<()>
        ensures { Went (arrive self.old) self.new result }
    {
        match self.walk(alloc) {
            Pace::More => Pace::More,
            Pace::Ended(Reach::Node) => Pace::More,
            Pace::Ended(Reach::Leaf) => Pace::Ended(()),
            Pace::Stopped(trouble) => Pace::Stopped(trouble),
            Pace::Memory => Pace::Memory,
        }
    }

    /// A node that is not there: page 1 is a leaf, and so it is no inner node.
    fn absent(&self) -> Trouble
        ensures { result ≡ absent_node self.now }
    {
        if self.page.get() == 1 {
            return damaged(self.chart.tree, self.page, 0);
        }
        Trouble::Absent { page: self.page }
    }

    /// Keeps the node that was got. Refused for memory alone.
    fn keep(&mut self, alloc: Global, bytes: NodeBytes) -> Result<(), AllocError>
        ensures { OnOk result (self.new ≡ with_node self.old bytes) }
    {
        let low = Blob::copy_of(alloc, self.low.as_slice())?;
        self.chart.nodes.insert(KeptNode {
            page: self.page,
            level: self.level,
            low,
            bytes,
        })
    }

    /// Takes the answer of the get.
    pub fn absorb(&mut self, alloc: Global, answer: Answer) -> Pace<()>
        ensures { Went (descent_next self.old answer) self.new result }
    {
        match answer.got() {
            Ok(Some(bytes)) => self.got(alloc, bytes),
            Ok(None) => Pace::Stopped(self.absent()),
            Err(trouble) => Pace::Stopped(trouble),
        }
    }

    /// Checks and keeps the node that was got, and goes on.
    fn got(&mut self, alloc: Global, bytes: Blob) -> Pace<()>
        ensures { Went (got_node self.old bytes (fork_of self.old bytes)) self.new result }
    {
        match node_bytes(self.chart.tree, self.page, bytes) {
            Ok(node) => self.got_node(alloc, node),
            Err(trouble) => Pace::Stopped(trouble),
        }
    }

    /// The same of bytes that spell a node.
    fn got_node(&mut self, alloc: Global, bytes: NodeBytes) -> Pace<()>
        ensures { Went (got_node self.old bytes (fork_of self.old bytes)) self.new result }
    {
        match self.fork_of(alloc, &bytes) {
            Ok(fork) => self.got_fork(alloc, bytes, fork),
            Err(Fault::Stops(trouble)) => Pace::Stopped(trouble),
            Err(Fault::Memory) => Pace::Memory,
        }
    }

    /// Keeps the node, and goes where it leads.
    fn got_fork(&mut self, alloc: Global, bytes: NodeBytes, fork: Fork) -> Pace<()>
        ensures { Went (arrive (passed (with_node self.old bytes) fork)) self.new result }
    {
        if self.keep(alloc, bytes).is_err() {
            return Pace::Memory;
        }
        if self.pass(alloc, fork).is_err() {
            return Pace::Memory;
        }
        self.arrive(alloc)
    }
}
