//! An inner node cut into pieces.

ghost use Rattle.std.specs.Prelude.{◌≡◌, [], ◌∷◌, ◌++◌, ◌+◌, ◌-◌, ◌≤◌, length, reverse, drop, IfOk, IfErr, OnOk};
ghost use Rattle.std.specs.List.{AllByRecursion};
ghost use Rattle.node_codec.specs.Inner.{Inner, IsInner};
ghost use Rattle.split_plan.specs.Part.{part_of_node};
ghost use Rattle.split_plan.specs.Plan.{node_put, node_entry, node_puts, node_entries, node_pieces, IsNodePart, IsNodeCut};
ghost use Rattle.split_plan.specs.Sizes.{count_of};

use crate::entry_list::NewEntry;
use crate::page::page_behind;
use crate::plan::Pieces;
use crate::put_list::PagePut;
use crate::sizes::Sizes;
use db_base::blob::Blob;
use db_base::ids::PageId;
use db_base::pair::EditFault;
use node_codec::{InnerBuf, InnerView};
use std::alloc::Global;

/// The low key of the node that the bytes spell.
fn low_in(bytes: &[u8]) -> &[u8]
    ensures { (n : Inner) → IsInner bytes.now n → result.now ≡ n.low }
{
    match InnerView::read(bytes) {
        Ok(view) => view.low(),
        Err(_) => &[],
    }
}

/// Adds the put and the entry of a piece. Refused for memory alone.
fn add(alloc: Global, plan: &mut Pieces, page: PageId, node: &InnerBuf) -> Result<(), EditFault>
    ensures puts { OnOk result (plan.new.puts ≡ plan.old.puts ++ node_put page node.now ∷ []) }
    ensures entries { OnOk result (plan.new.entries ≡ plan.old.entries ++ node_entry page node.now ∷ []) }
    ensures fits { OnOk result (IsNodePart (part_of_node node.now)) }
    ensures memory { IfErr result (λ e. e ≡ EditFault.Memory) }
{
    let bytes = node.write(alloc)?;
    let low = Blob::copy_of(alloc, low_in(bytes.as_slice()))?;
    plan.entries.push(NewEntry { low, page })?;
    plan.puts.push(PagePut { page, bytes })?;
    Ok(())
}

/// The puts and entries of all pieces, from left to right. Refused for memory alone.
pub(crate) fn cut(
    alloc: Global,
    page: PageId,
    buf: InnerBuf,
    first_free: PageId,
) -> Result<Pieces, EditFault>
    requires { first_free + (count_of (length buf.entries) - 1) ≤ u64.MAX }
    ensures puts { IfOk result (λ x. x.puts ≡ node_puts page first_free buf) }
    ensures entries { IfOk result (λ x. x.entries ≡ node_entries page first_free buf) }
    ensures fit { OnOk result (AllByRecursion IsNodePart (node_pieces first_free buf)) }
    ensures whole { OnOk result (IsNodePart (part_of_node buf)) }
    ensures memory { IfErr result (λ e. e ≡ EditFault.Memory) }
{
    let mut sizes = Sizes::of(buf.len());
    let mut plan = Pieces::new(alloc);
    let mut rest = buf;
    let mut at = page;
    let mut free = first_free;
    'pieces: while let Some(size) = sizes.next() {
        let (left, right) = rest.cut_at(size, free)?;
        add(alloc, &mut plan, at, &left)?;
        rest = right;
        at = free;
        free = page_behind(free);
    }
    add(alloc, &mut plan, at, &rest)?;
    Ok(plan)
}

/// The pieces of an inner node that stands on the page; the new ones take the pages from `first_free` on. Refused for memory alone.
pub fn plan_inner(
    alloc: Global,
    page: PageId,
    buf: InnerBuf,
    first_free: PageId,
) -> Result<Pieces, EditFault>
    // The new pages have numbers.
    requires { first_free + (count_of (length buf.entries) - 1) ≤ u64.MAX }
    ensures cut { OnOk result (IsNodeCut first_free buf) }
    ensures fit { OnOk result (AllByRecursion IsNodePart (node_pieces first_free buf)) }
    ensures puts { IfOk result (λ x. x.puts ≡ reverse (node_puts page first_free buf)) }
    ensures entries { IfOk result (λ x. x.entries ≡ drop 1 (node_entries page first_free buf)) }
    ensures memory { IfErr result (λ e. e ≡ EditFault.Memory) }
{
    let mut plan = cut(alloc, page, buf, first_free)?;
    plan.puts.reverse();
    plan.entries.drop_first();
    Ok(plan)
}
