//! What a home no longer has to keep.

ghost use Rattle.std.specs.Prelude.{◌≡◌};
ghost use Rattle.commit_writes.specs.Homes.{home_by_leaf, home_by_tree};

use db_base::ids::TreeId;
use leaf_view::LeafView;
use node_codec::TreeView;
use recover_run::home::Home;
use route_plan::prune::{prune_leaf, prune_tree};

/// Removes the pending entries of the home's head that a leaf of a tree shows to be applied.
#[tactic(auto, using(crate::proofs::Spelled::leaf_pruned_spelled))]
pub(crate) fn prune_home_leaf(home: &mut Home, tree: TreeId, view: &LeafView<'_>)
    ensures { home.new ≡ home_by_leaf home.old tree view.now }
{
    let client = home.client;
    prune_leaf(&mut home.head, client, tree, view);
}

/// Removes the pending entries of the home's head that a tree object shows to be applied.
#[tactic(auto, using(crate::proofs::Spelled::tree_pruned_spelled))]
pub(crate) fn prune_home_tree(home: &mut Home, tree: TreeId, view: &TreeView<'_>)
    ensures { home.new ≡ home_by_tree home.old tree view.now }
{
    let client = home.client;
    prune_tree(&mut home.head, client, tree, view);
}
