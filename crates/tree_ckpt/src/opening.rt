//! The tree's lease, its object and its queue.

ghost use Rattle.std.specs.Prelude.{◌≡◌, [], ◌∷◌, Ok, Some};
ghost use Rattle.ckpt_parts.specs.Intakes.{TakesIn};
ghost use Rattle.ckpt_parts.specs.Unless.{UnlessMemory};
ghost use Rattle.tree_phases.specs.Read.{tree_held};
ghost use Rattle.tree_ckpt.specs.Moves.{Moves, MovesOn, going, tree_taken, tree_got, tree_read, chart_of, intake_taken, ReceivedBy};
ghost use Rattle.node_codec.specs.Tree.{tree_of};

use crate::ending::delete_next;
use crate::going::go;
use crate::moved::Moved;
use crate::work::{Held, Work, one_lease};
use ckpt_parts::{Fault, Intake, take_in};
use cloud_trait::lease::Lease;
use cloud_trait::message::MessageList;
use db_base::blob::Blob;
use db_base::ids::TreeId;
use db_base::names::{ObjName, Place, QueueName};
use db_base::trouble::Trouble;
use node_codec::whole_cursor;
use run_cursor::run::Run;
use std::alloc::Global;
use tree_phases::chart::Chart;
use tree_phases::kept::KeptList;
use tree_phases::link::LinkList;
use tree_phases::read::tree_view;
use tree_phases::spelled::TreeBytes;

/// The tree's lease was given, or it was not.
pub(crate) fn tree_taken(given: Result<Lease, Trouble>) -> Moved
    ensures { MovesOn (tree_taken given) [] result }
{
    match given {
        Ok(lease) => Moved::goes(Work::GettingTree(lease)),
        Err(trouble) => Moved::finished(Err(trouble)),
    }
}

/// The tree object was got.
pub(crate) fn tree_got(tree: TreeId, lease: Lease, got: Result<Option<Blob>, Trouble>) -> Moved
    ensures { MovesOn (tree_got tree lease got) (lease ∷ []) result }
{
    match got {
        Ok(Some(bytes)) => tree_read(tree, lease, bytes),
        Ok(None) => Moved::goes(Work::Receiving(lease, None)),
        Err(trouble) => Moved::stops(one_lease(lease), trouble),
    }
}

/// Bytes that spell no tree object are damage.
#[inline(never)]
fn tree_read(tree: TreeId, lease: Lease, bytes: Blob) -> Moved
    ensures { MovesOn (tree_read tree lease bytes (tree_of bytes)) (lease ∷ []) result }
{
    match TreeBytes::read(bytes) {
        Ok(bytes) => Moved::goes(Work::Receiving(lease, Some(bytes))),
        Err(fault) => {
            let place = Place::Object(ObjName::Tree(tree));
            let offset = fault.offset;
            Moved::stops(one_lease(lease), Trouble::Damaged { place, offset })
        }
    }
}

/// The queue was received from: the run behind the tree object's cursor is taken.
pub(crate) fn received(
    alloc: Global,
    tree: TreeId,
    lease: Lease,
    root: Option<TreeBytes>,
    received: Result<MessageList, Trouble>,
) -> Moved
    ensures { Moves (ReceivedBy tree lease root received) (lease ∷ []) result }
{
    match received {
        Ok(messages) => read_messages(alloc, tree, lease, root, &messages),
        Err(trouble) => Moved::stops(one_lease(lease), trouble),
    }
}

fn read_messages(
    alloc: Global,
    tree: TreeId,
    lease: Lease,
    root: Option<TreeBytes>,
    messages: &MessageList,
) -> Moved
    ensures { Moves (ReceivedBy tree lease root (Ok messages.now)) (lease ∷ []) result }
{
    match intake_of(alloc, tree, &root, messages) {
        Ok(intake) => taken(alloc, tree, lease, root, intake),
        Err(Fault::Stops(trouble)) => Moved::stops(one_lease(lease), trouble),
        Err(Fault::Memory) => Moved::no_memory(one_lease(lease)),
    }
}

/// The run of the messages behind the tree object's cursor.
fn intake_of(
    alloc: Global,
    tree: TreeId,
    root: &Option<TreeBytes>,
    messages: &MessageList,
) -> Result<Intake, Fault>
    ensures { UnlessMemory (TakesIn (QueueName.TreePu tree) (tree_held root.now).cursor messages.now) result }
{
    match whole_cursor(&tree_view(root), alloc) {
        Ok(cursor) => take_in(
            alloc,
            &QueueName::TreePu(tree),
            &cursor,
            messages.as_slice(),
        ),
        Err(_) => Err(Fault::Memory),
    }
}

/// A run is applied key by key; the deletions come at once where it is empty.
fn taken(
    alloc: Global,
    tree: TreeId,
    lease: Lease,
    root: Option<TreeBytes>,
    intake: Intake,
) -> Moved
    ensures { MovesOn (intake_taken tree lease root (Ok intake)) (lease ∷ []) result }
{
    let Intake { run, deletions } = intake;
    let held = Held { lease, deletions };
    if run.items().is_empty() {
        return delete_next(held, 0);
    }
    go_first(alloc, tree, held, root, run)
}

/// Goes to the first key of a run.
#[inline(never)]
fn go_first(alloc: Global, tree: TreeId, held: Held, root: Option<TreeBytes>, run: Run) -> Moved
    ensures { MovesOn (going held (chart_of tree root run)) (held.lease ∷ []) result }
{
    go(alloc, held, chart_of(alloc, tree, root, run))
}

/// What is known before the first key of a run. Takes no memory.
fn chart_of(alloc: Global, tree: TreeId, root: Option<TreeBytes>, run: Run) -> Chart
    ensures { result ≡ chart_of tree root run }
{
    Chart {
        tree,
        root,
        run,
        from: Some(Blob::new(alloc)),
        key: Blob::new(alloc),
        nodes: KeptList::new(alloc),
        links: LinkList::new(alloc),
        applied: 0,
    }
}
