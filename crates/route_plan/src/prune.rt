ghost use Rattle.std.specs.Prelude.{◌≡◌, ◌≤◌, ◌%◌, ℕ, slice_index};
ghost use Rattle.route_plan.specs.Prune.{AreMost, is_applied_in, is_covered_by, pruned_by_leaf, pruned_by_tree};

use db_base::ids::{ClientId, TreeId};
use head_codec::entry::Entry;
use head_codec::head::Head;
use leaf_view::{Done, LeafView};
use node_codec::TreeView;

/// How many classes the queues fall into, by the remainder of their page's number.
const CLASSES: u64 = 64;

/// Raises the number of an entry's class to its own, where the entry is of the client.
fn raise(most: &mut [u64; 64], client: ClientId, item: &Done)
    ensures own { item.now.client ≡ client → item.now.number ≤ slice_index most.new (item.now.queue % 64) }
    ensures kept { (class : ℕ) → slice_index most.old class ≤ slice_index most.new class }
{
    let class = (item.queue % CLASSES) as usize;
    if item.client == client && most[class] < item.number {
        most[class] = item.number;
    }
}

/// For each class of queues a number that none of the client's in a leaf is above.
fn most_done(view: &LeafView<'_>, client: ClientId) -> [u64; 64]
    ensures { AreMost view.now.done client result }
{
    let mut most: [u64; 64] = [0; 64];
    let mut left = view.done_list();
    while let Some((item, rest)) = left.split() {
        raise(&mut most, client, &item);
        left = rest;
    }
    most
}

/// Whether a leaf shows the client's entry to be applied.
// Apart from the test that most entries end with, which thereby stays in the loop over them.
#[inline(never)]
fn is_shown(view: &LeafView<'_>, client: ClientId, tree: TreeId, entry: &Entry) -> bool
    ensures { result ≡ is_applied_in view.now client tree entry.now }
{
    let entry = entry.get();
    entry.tree.get() == tree.get()
        && view.holds(entry.change.key().as_slice())
        && entry.number <= view.done(entry.page, client)
}

/// The same. Most entries are told by their class: their keys are not looked at.
fn is_applied_in(
    view: &LeafView<'_>,
    client: ClientId,
    tree: TreeId,
    most: &[u64; 64],
    entry: &Entry,
) -> bool
    requires { AreMost view.now.done client most.now }
    ensures { result ≡ is_applied_in view.now client tree entry.now }
{
    let pending = entry.get();
    if most[(pending.page % CLASSES) as usize] < pending.number {
        return false;
    }
    is_shown(view, client, tree, entry)
}

/// Whether a root shows the client's entry to be applied.
fn is_covered_by(view: &TreeView<'_>, client: ClientId, tree: TreeId, entry: &Entry) -> bool
    ensures { result ≡ is_covered_by view.now client tree entry.now }
{
    let entry = entry.get();
    entry.tree.get() == tree.get() && entry.page == 0 && entry.number <= view.cursor(client)
}

/// Removes the pending entries of the client's head that a leaf of the tree shows to be applied. Takes no memory.
pub fn prune_leaf(head: &mut Head, client: ClientId, tree: TreeId, view: &LeafView<'_>)
    ensures { head.new ≡ pruned_by_leaf head.old client tree view.now }
{
    let most = most_done(view, client);
    head.pending
        .retain(|entry| !is_applied_in(view, client, tree, &most, entry));
}

/// Removes the pending entries of the client's head that the root of the tree shows to be applied. Takes no memory.
pub fn prune_tree(head: &mut Head, client: ClientId, tree: TreeId, view: &TreeView<'_>)
    ensures { head.new ≡ pruned_by_tree head.old client tree view.now }
{
    head.pending
        .retain(|entry| !is_covered_by(view, client, tree, entry));
}
