//! An inner node with the links of its level that lie in its range.

ghost use Rattle.std.specs.Prelude.{◌≡◌, ℕ, ◌+◌, ◌-◌, ◌≤◌, Ok, Some, length, IfErr, OnOk};
ghost use Rattle.split_plan.specs.Sizes.{count_of};
ghost use Rattle.tree_phases.specs.Going.{Finds};
ghost use Rattle.tree_phases.specs.Nodes.{goes_to, is_touched, touches, with_links, linked, linked_by, in_pieces, planned, planned_of, node_plan, touched_at};

use crate::kept::KeptNode;
use crate::link::Link;
use crate::page_plan::PagePlan;
use crate::placing::{Placing, PutQueue};
use crate::reserve::{Reserved, reserve, version_spent};
use byte_format::{is_below, is_below_bound};
use ckpt_parts::Fault;
use db_base::ids::{PageId, TreeId};
use db_base::pair::EditFault;
use node_codec::{InnerBuf, InnerView, TreeView};
use split_plan::count::pieces;
use split_plan::inner::plan_inner;
use std::alloc::Global;

/// Whether a link is of the node's level and lies in its range.
fn goes_to(node: &InnerView<'_>, link: &Link) -> bool
    ensures { result ≡ goes_to node.now link.now }
{
    link.level == node.level() as u64
        && link.low.len() <= 64
        && !is_below(link.low.as_slice(), node.low())
        && is_below_bound(link.low.as_slice(), node.high())
}

/// Whether a link goes to the node.
fn is_touched(node: &InnerView<'_>, links: &[Link]) -> bool
    ensures { result ≡ is_touched node.now links.now }
{
    let mut left = links;
    while let Some((link, rest)) = left.split_first() {
        if goes_to(node, link) {
            return true;
        }
        left = rest;
    }
    false
}

/// Whether a link goes to the node that was got.
fn touches(tree: TreeId, kept: &KeptNode, links: &[Link]) -> bool
    ensures { result ≡ touches tree links.now kept.now }
{
    let _tree = tree.get();
    is_touched(&kept.bytes.view(), links)
}

/// How many nodes stand before the first one that a link goes to.
pub(crate) fn touched_at(tree: TreeId, nodes: &[KeptNode], links: &[Link]) -> usize
    ensures place { result ≡ touched_at tree links.now nodes.now }
    ensures within { result ≤ length nodes.now }
{
    let mut place = 0;
    let mut left = nodes;
    while let Some((kept, rest)) = left.split_first() {
        if touches(tree, kept, links) {
            return place;
        }
        place += 1;
        left = rest;
    }
    place
}

/// Adds the links that go to the node. Refused for memory alone.
fn add_links(buf: &mut InnerBuf, node: &InnerView<'_>, links: &[Link]) -> Result<(), EditFault>
    requires low { buf.old.low ≡ node.now.low }
    requires high { buf.old.high ≡ node.now.high }
    ensures ok { OnOk result (buf.new ≡ record buf.old { entries = with_links node.now links.now buf.old.entries }) }
    ensures memory { IfErr result (λ e. e ≡ EditFault.Memory) }
{
    let mut left = links;
    while let Some((link, rest)) = left.split_first() {
        if goes_to(node, link) {
            buf.add(link.low.as_slice(), link.page)?;
        }
        left = rest;
    }
    Ok(())
}

/// The node as it is put next, with the links that go to it.
fn linked(alloc: Global, node: &InnerView<'_>, links: &[Link]) -> Result<InnerBuf, Fault>
    ensures { Finds result (linked node.now links.now) }
{
    match InnerBuf::of(alloc, node) {
        Ok(mut buf) => match add_links(&mut buf, node, links) {
            Ok(()) => Ok(buf),
            Err(_) => Err(Fault::Memory),
        },
        Err(EditFault::Exhausted) => Err(Fault::Stops(version_spent())),
        Err(EditFault::Memory) => Err(Fault::Memory),
    }
}

/// The puts of a node in its pieces, the new ones on reserved pages. Refused for memory alone.
fn in_pieces(
    alloc: Global,
    page: PageId,
    buf: InnerBuf,
    reserved: Reserved,
) -> Result<PagePlan, Fault>
    requires { reserved.first + (count_of (length buf.entries) - 1) ≤ u64.MAX }
    ensures { Finds result (Ok (in_pieces page buf reserved)) }
{
    match plan_inner(alloc, page, buf, reserved.first) {
        Ok(plan) => Ok(PagePlan {
            placing: Placing {
                reserved: reserved.put,
                puts: PutQueue::of(plan.puts),
            },
            entries: plan.entries,
        }),
        Err(_) => Err(Fault::Memory),
    }
}

/// The puts of a node, cut where it has more than 64 entries.
fn planned(
    alloc: Global,
    root: &TreeView<'_>,
    page: PageId,
    buf: InnerBuf,
) -> Result<PagePlan, Fault>
    ensures { Finds result (planned root.now page buf) }
{
    let count = pieces(buf.len() as u64) - 1;
    match reserve(alloc, root, page, count) {
        Ok(reserved) => in_pieces(alloc, page, buf, reserved),
        Err(Fault::Stops(trouble)) => Err(Fault::Stops(trouble)),
        Err(Fault::Memory) => Err(Fault::Memory),
    }
}

/// The puts where a node takes the links that go to it.
fn linked_plan(
    alloc: Global,
    root: &TreeView<'_>,
    page: PageId,
    node: &InnerView<'_>,
    links: &[Link],
) -> Result<PagePlan, Fault>
    ensures { Finds result (planned_of root.now page (linked_by links.now (Ok node.now))) }
{
    match linked(alloc, node, links) {
        Ok(buf) => planned(alloc, root, page, buf),
        Err(Fault::Stops(trouble)) => Err(Fault::Stops(trouble)),
        Err(Fault::Memory) => Err(Fault::Memory),
    }
}

/// The same of a node that was got.
pub(crate) fn node_plan(
    alloc: Global,
    root: &TreeView<'_>,
    kept: &KeptNode,
    links: &[Link],
) -> Result<PagePlan, Fault>
    ensures { (tree : ℕ) → Finds result (node_plan root.now tree kept.now links.now) }
{
    linked_plan(alloc, root, kept.page, &kept.bytes.view(), links)
}
