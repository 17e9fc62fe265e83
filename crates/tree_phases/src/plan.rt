//! What is put where a leaf takes a run.

ghost use Rattle.std.specs.Prelude.{◌≡◌, ◌+◌, ◌-◌, ◌≤◌, Ok, length, IfOk};
ghost use Rattle.split_plan.specs.Sizes.{count_of};
ghost use Rattle.tree_phases.specs.Going.{Finds};
ghost use Rattle.tree_phases.specs.Plan.{planned, leaf_plan, in_pieces};

use crate::page_plan::PagePlan;
use crate::placing::{Placing, PutQueue};
use crate::reserve::{Reserved, reserve, version_spent};
use ckpt_parts::Fault;
use db_base::ids::PageId;
use db_base::pair::EditFault;
use leaf_edit::{LeafBuf, apply};
use leaf_view::LeafView;
use node_codec::TreeView;
use run_cursor::run::Run;
use split_plan::count::pieces;
use split_plan::leaf::plan_leaf;
use std::alloc::Global;

/// The puts of a leaf in its pieces, the new ones on reserved pages. Refused for memory alone.
fn in_pieces(
    alloc: Global,
    page: PageId,
    buf: LeafBuf,
    reserved: Reserved,
) -> Result<PagePlan, Fault>
    requires { reserved.first + (count_of (length buf.records) - 1) ≤ u64.MAX }
    ensures { Finds result (Ok (in_pieces page buf reserved)) }
{
    match plan_leaf(alloc, page, buf, reserved.first) {
        Ok(plan) => Ok(PagePlan {
            placing: Placing {
                reserved: reserved.put,
                puts: PutQueue::of(plan.puts),
            },
            entries: plan.entries,
        }),
        Err(_) => Err(Fault::Memory),
    }
}

/// The puts of a leaf, cut where it has more than 64 records.
fn planned(
    alloc: Global,
    root: &TreeView<'_>,
    page: PageId,
    buf: LeafBuf,
) -> Result<PagePlan, Fault>
    ensures { Finds result (planned root.now page buf) }
{
    let count = pieces(buf.len() as u64) - 1;
    match reserve(alloc, root, page, count) {
        Ok(reserved) => in_pieces(alloc, page, buf, reserved),
        Err(Fault::Stops(trouble)) => Err(Fault::Stops(trouble)),
        Err(Fault::Memory) => Err(Fault::Memory),
    }
}

/// The puts where a leaf takes the run of the tree's queue.
pub(crate) fn leaf_plan(
    alloc: Global,
    root: &TreeView<'_>,
    page: PageId,
    view: &LeafView<'_>,
    run: &Run,
) -> Result<PagePlan, Fault>
    ensures { Finds result (leaf_plan root.now page view.now run.now.items) }
{
    match apply(alloc, view, 0, run.items()) {
        Ok(buf) => planned(alloc, root, page, buf),
        Err(EditFault::Exhausted) => Err(Fault::Stops(version_spent())),
        Err(EditFault::Memory) => Err(Fault::Memory),
    }
}
