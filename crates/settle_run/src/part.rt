//! What a settling has at work.

ghost use Rattle.std.specs.Prelude.{◌≡◌, ◌<◌, List};
ghost use Rattle.cloud_trait.specs.Call.{ask_of};
ghost use Rattle.cloud_trait.specs.Machine.{Deed};
ghost use Rattle.settle_run.specs.Parts.{left_turn, recovered_turn, part_of_client, part_of_tree, part_of_page};

use cloud_trait::call::Call;
use cloud_trait::cloud::Cloud;
use cloud_trait::turn::{CkptAnswer, Turn};
use cloud_trait::who::Who;
use db_base::ids::{ClientId, MsgId, PageId, TreeId};
use log_codec::record::PuItem;
use page_ckpt::PageCkpt;
use recover_run::recover::RecoverRun;
use recover_run::stage::{Aim, RecoverAnswer};
use std::alloc::Global;
use tree_ckpt::TreeCkpt;

/// What a settling has at work.
pub enum Part {
    /// The recovery of a client.
    Client(ClientId, RecoverRun),
    /// A checkpoint of a tree.
    Tree(TreeId, TreeCkpt),
    /// A checkpoint of a page.
    Page(TreeId, PageId, PageCkpt),
}

// Written out, so that what holds a part need not look into it to let it go.
impl Drop for Part {
    fn drop(self) {
        match self {
            Part::Client(_, _) => {}
            Part::Tree(_, _) => {}
            Part::Page(_, _, _) => {}
        }
    }
}

impl Part {
    ghost use Rattle.settle_run.specs.Parts.{part_ask, part_applying, part_received, part_again, IsSoundPart, PartWent};
    ghost use Rattle.settle_run.specs.Stepped.{PartSteps};
    ghost use Rattle.settle_run.specs.End.{part_left};

    /// The recovery of the client is at work from now on, before its first call. One that was at work is begun anew where it stands.
    pub(crate) fn recover(&mut self, alloc: Global, client: ClientId)
        ensures { self.new ≡ part_of_client client }
    {
        match self {
            Part::Client(at, machine) => {
                *at = client;
                machine.begin_settling(alloc, client);
            }
            _ => put(self, Part::client(alloc, client)),
        }
    }

    /// A checkpoint of the tree is at work from now on, before its first call.
    pub(crate) fn fold(&mut self, alloc: Global, tree: TreeId)
        ensures { self.new ≡ part_of_tree tree }
    {
        put(self, Part::tree(alloc, tree));
    }

    /// A checkpoint of the page is at work from now on, before its first call.
    pub(crate) fn fold_page(&mut self, alloc: Global, tree: TreeId, page: PageId)
        ensures { self.new ≡ part_of_page tree page }
    {
        put(self, Part::page(alloc, tree, page));
    }

    /// The recovery of a client, before its first call.
    pub(crate) fn client(alloc: Global, client: ClientId) -> Part
        ensures { result ≡ part_of_client client }
    {
        Part::Client(client, RecoverRun::new(alloc, client, Aim::Settling, None))
    }

    /// A checkpoint of a tree, before its first call.
    fn tree(alloc: Global, tree: TreeId) -> Part
        ensures { result ≡ part_of_tree tree }
    {
        Part::Tree(tree, TreeCkpt::new(alloc, tree))
    }

    /// A checkpoint of a page, before its first call.
    fn page(alloc: Global, tree: TreeId, page: PageId) -> Part
        ensures { result ≡ part_of_page tree page }
    {
        Part::Page(tree, page, PageCkpt::new(alloc, tree, page))
    }

    /// The same once more, before its first call.
    pub(crate) fn again(&self, alloc: Global) -> Part
        ensures { result ≡ part_again self.now }
    {
        match self {
            Part::Client(client, _) => Part::client(alloc, *client),
            Part::Tree(tree, _) => Part::tree(alloc, *tree),
            Part::Page(tree, page, _) => Part::page(alloc, *tree, *page),
        }
    }

    /// The service call that the next step makes.
    pub(crate) fn in_hand(&self) -> Call<'_>
        ensures { ask_of result ≡ part_ask self.now }
    {
        match self {
            Part::Client(_, machine) => machine.in_hand(),
            Part::Tree(_, machine) => machine.in_hand(),
            Part::Page(_, _, machine) => machine.in_hand(),
        }
    }

    /// The items that the put in hand of a checkpoint applies.
    pub(crate) fn applying(&self) -> &[PuItem]
        ensures { result.now ≡ part_applying self.now }
    {
        match self {
            Part::Client(_, _) => &[],
            Part::Tree(_, machine) => machine.applying(),
            Part::Page(_, _, machine) => machine.applying(),
        }
    }

    /// The messages that the receive of a checkpoint answered.
    pub(crate) fn received(&self) -> &[MsgId]
        ensures { result.now ≡ part_received self.now }
    {
        match self {
            Part::Client(_, _) => &[],
            Part::Tree(_, machine) => machine.received(),
            Part::Page(_, _, machine) => machine.received(),
        }
    }

    /// Makes the call in hand, and does the local work up to the next one. Ended gives the number of deletions of a checkpoint that
    /// failed.
    #[inline(always)]
    pub(crate) fn step<C: Cloud>(&mut self, alloc: Global, cloud: &mut C, who: Who) -> Turn<u64>
        ensures steps { PartSteps who (C.seen cloud.old) (C.seen cloud.new) self.old self.new result }
        ensures sound { IsSoundPart self.old }
        // Each step that goes on leaves fewer calls.
        ensures less { (h : List Deed) → PartWent h self.old → result ≡ Turn.More → part_left self.new < part_left self.old }
    {
        match self {
            Part::Client(_, machine) => recovered_turn(machine.step(alloc, cloud, who)),
            Part::Tree(_, machine) => left_turn(machine.step(alloc, cloud, who)),
            Part::Page(_, _, machine) => left_turn(machine.step(alloc, cloud, who)),
        }
    }
}

/// This is at work from now on.
fn put(place: &mut Part, part: Part)
    ensures { place.new ≡ part }
{
    *place = part;
}

/// A recovery's turn; no deletion of it counts.
fn recovered_turn(turn: Turn<RecoverAnswer>) -> Turn<u64>
    ensures { result ≡ recovered_turn turn }
{
    match turn {
        Turn::More => Turn::More,
        Turn::Ended(_) => Turn::Ended(0),
        Turn::Stopped(trouble) => Turn::Stopped(trouble),
    }
}

/// A checkpoint's turn, with how many of its deletions failed.
fn left_turn(turn: Turn<CkptAnswer>) -> Turn<u64>
    ensures { result ≡ left_turn turn }
{
    match turn {
        Turn::More => Turn::More,
        Turn::Ended(answer) => Turn::Ended(answer.left),
        Turn::Stopped(trouble) => Turn::Stopped(trouble),
    }
}
