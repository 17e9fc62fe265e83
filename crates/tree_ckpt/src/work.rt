//! Where a tree checkpoint stands.

ghost use Rattle.std.specs.Prelude.{◌≡◌};
ghost use Rattle.cloud_trait.specs.Call.{ask_of};
ghost use Rattle.ckpt_parts.specs.Deleting.{next_id};
ghost use Rattle.ckpt_parts.specs.Leasing.{newest_lease};
ghost use Rattle.tree_ckpt.specs.Work.{take_tree, delete_ask, release_ask, work_ask, one_lease, two_leases};

use ckpt_parts::{Deletions, Leases, MAX_MESSAGES, PAGE_TICKS};
use cloud_trait::call::Call;
use cloud_trait::lease::Lease;
use cloud_trait::turn::CkptAnswer;
use db_base::blob::Blob;
use db_base::ids::{MsgId, PageId, TreeId};
use db_base::names::{Lock, ObjName, QueueName};
use db_base::trouble::Trouble;
use tree_phases::chart::Chart;
use tree_phases::descent::Descent;
use tree_phases::folding::Folding;
use tree_phases::pages::PageList;
use tree_phases::rising::Rising;
use tree_phases::spelled::TreeBytes;

/// How long a tree's lease is given for, in ticks.
pub const TREE_TICKS: u64 = 60;

/// What is in hand from the receive on.
#[derive(Drop)]
pub struct Held {
    /// The tree's lease.
    pub lease: Lease,
    /// The messages that the run covers.
    pub deletions: Deletions,
}

/// A leaf that was come to.
#[derive(Drop)]
pub struct Coming {
    /// What is known of the tree.
    pub chart: Chart,
    /// The leaf.
    pub page: PageId,
    /// The low key that led there.
    pub low: Blob,
    /// The pages that were passed on the way.
    pub visited: PageList,
}

/// Where a checkpoint goes from a leaf.
#[derive(Drop)]
pub enum Onward {
    /// To the leaf on its right.
    Right(Coming),
    /// To the next key that is not handled.
    Handled(Chart),
}

/// Where a tree checkpoint stands between two calls.
#[derive(Drop)]
pub enum Work {
    /// The tree's lease is taken next.
    TakingTree,
    /// The tree object is read next.
    GettingTree(Lease),
    /// The tree's queue is received from next; the tree object was read, none where it was never put.
    Receiving(Lease, Option<TreeBytes>),
    /// An inner node on the way down is read next.
    Descending(Held, Descent),
    /// A leaf's lease is taken next.
    TakingPage(Held, Coming),
    /// The leaf is read next, or what was planned for it is put.
    Folding(Held, Folding),
    /// The leaf's lease is given back next.
    ReleasingPage(Held, Lease, Onward),
    /// The leaf's lease has left with the call in hand.
    LeftPage(Held, Onward),
    /// What goes up is put next.
    Rising(Held, Rising),
    /// A message is deleted next; so many records were applied.
    Deleting(Held, u64),
    /// The newest lease is given back next, and the checkpoint ends or stops with the last one.
    Releasing(Leases, Result<CkptAnswer, Trouble>),
    /// No call is left.
    Finished,
}

/// The tree's lease alone.
pub fn one_lease(lease: Lease) -> Leases
    ensures { result ≡ one_lease lease }
{
    Leases {
        first: Some(lease),
        second: None,
    }
}

/// The tree's lease and then a leaf's.
pub fn two_leases(tree: Lease, leaf: Lease) -> Leases
    ensures { result ≡ two_leases tree leaf }
{
    Leases {
        first: Some(tree),
        second: Some(leaf),
    }
}

/// The take of the tree's lease.
pub fn take_tree<'a>(tree: TreeId) -> Call<'a>
    ensures { ask_of result ≡ take_tree tree }
{
    Call::Take(Lock::Tree(tree), TREE_TICKS)
}

/// The deletion of a message of the tree's queue.
fn delete_call<'a>(tree: TreeId, next: Option<MsgId>) -> Call<'a>
    ensures { ask_of result ≡ delete_ask tree next }
{
    match next {
        Some(id) => Call::Delete(QueueName::TreePu(tree), id),
        None => take_tree(tree),
    }
}

/// The release of the newest lease.
fn release_call(tree: TreeId, held: &Leases) -> Call<'_>
    ensures { ask_of result ≡ release_ask tree (newest_lease held.now) }
{
    match held.newest() {
        Some(lease) => Call::Release(lease),
        None => take_tree(tree),
    }
}

impl Work {
    /// The service call that comes next.
    pub fn in_hand(&self, tree: TreeId) -> Call<'_>
        ensures { ask_of result ≡ work_ask tree self.now }
    {
        match self {
            Work::TakingTree => take_tree(tree),
            Work::GettingTree(lease) => Call::GetHeld(ObjName::Tree(tree), lease),
            Work::Receiving(_, _) => Call::Receive(QueueName::TreePu(tree), MAX_MESSAGES),
            Work::Descending(held, descent) => descent.in_hand(&held.lease),
            Work::TakingPage(_, coming) => {
                Call::Take(Lock::Page(coming.chart.tree, coming.page), PAGE_TICKS)
            }
            Work::Folding(held, folding) => folding.in_hand(&held.lease),
            Work::ReleasingPage(_, lease, _) => Call::Release(lease),
            Work::LeftPage(_, _) => take_tree(tree),
            Work::Rising(held, rising) => rising.in_hand(&held.lease),
            Work::Deleting(held, _) => delete_call(tree, held.deletions.next()),
            Work::Releasing(held, _) => release_call(tree, held),
            Work::Finished => take_tree(tree),
        }
    }
}
