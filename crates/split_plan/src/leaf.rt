//! A leaf cut into pieces.

ghost use Rattle.std.specs.Prelude.{◌≡◌, [], ◌∷◌, ◌++◌, ◌+◌, ◌-◌, ◌≤◌, length, reverse, drop, IfOk, IfErr, OnOk};
ghost use Rattle.std.specs.List.{AllByRecursion};
ghost use Rattle.split_plan.specs.Part.{part_of_leaf};
ghost use Rattle.split_plan.specs.Plan.{leaf_put, leaf_entry, leaf_puts, leaf_entries, leaf_pieces, IsLeafPart, IsLeafCut};
ghost use Rattle.split_plan.specs.Sizes.{count_of};

use crate::entry_list::NewEntry;
use crate::page::page_behind;
use crate::plan::Pieces;
use crate::put_list::PagePut;
use crate::sizes::Sizes;
use db_base::blob::Blob;
use db_base::ids::PageId;
use db_base::pair::EditFault;
use leaf_edit::LeafBuf;
use std::alloc::Global;

/// Adds the put and the entry of a piece. Refused for memory alone.
fn add(alloc: Global, plan: &mut Pieces, page: PageId, leaf: LeafBuf) -> Result<(), EditFault>
    ensures puts { OnOk result (plan.new.puts ≡ plan.old.puts ++ leaf_put page leaf ∷ []) }
    ensures entries { OnOk result (plan.new.entries ≡ plan.old.entries ++ leaf_entry page leaf ∷ []) }
    ensures fits { OnOk result (IsLeafPart (part_of_leaf leaf)) }
    ensures memory { IfErr result (λ e. e ≡ EditFault.Memory) }
{
    let low = Blob::copy_of(alloc, leaf.view().low())?;
    plan.entries.push(NewEntry { low, page })?;
    let bytes = leaf.into_blob();
    plan.puts.push(PagePut { page, bytes })?;
    Ok(())
}

/// The puts and entries of all pieces, from left to right. Refused for memory alone.
fn cut(alloc: Global, page: PageId, buf: LeafBuf, first_free: PageId) -> Result<Pieces, EditFault>
    requires { first_free + (count_of (length buf.records) - 1) ≤ u64.MAX }
    ensures puts { IfOk result (λ x. x.puts ≡ leaf_puts page first_free buf) }
    ensures entries { IfOk result (λ x. x.entries ≡ leaf_entries page first_free buf) }
    ensures fit { OnOk result (AllByRecursion IsLeafPart (leaf_pieces first_free buf)) }
    ensures memory { IfErr result (λ e. e ≡ EditFault.Memory) }
{
    let mut sizes = Sizes::of(buf.len());
    let mut plan = Pieces::new(alloc);
    let mut rest = buf;
    let mut at = page;
    let mut free = first_free;
    'pieces: while let Some(size) = sizes.next() {
        let (left, right) = rest.cut_at(alloc, size, free)?;
        add(alloc, &mut plan, at, left)?;
        rest = right;
        at = free;
        free = page_behind(free);
    }
    add(alloc, &mut plan, at, rest)?;
    Ok(plan)
}

/// The pieces of a leaf that stands on the page; the new ones take the pages from `first_free` on. Refused for memory alone.
pub fn plan_leaf(
    alloc: Global,
    page: PageId,
    buf: LeafBuf,
    first_free: PageId,
) -> Result<Pieces, EditFault>
    // The new pages have numbers.
    requires { first_free + (count_of (length buf.records) - 1) ≤ u64.MAX }
    ensures cut { OnOk result (IsLeafCut first_free buf) }
    ensures fit { OnOk result (AllByRecursion IsLeafPart (leaf_pieces first_free buf)) }
    ensures puts { IfOk result (λ x. x.puts ≡ reverse (leaf_puts page first_free buf)) }
    ensures entries { IfOk result (λ x. x.entries ≡ drop 1 (leaf_entries page first_free buf)) }
    ensures memory { IfErr result (λ e. e ≡ EditFault.Memory) }
{
    let mut plan = cut(alloc, page, buf, first_free)?;
    plan.puts.reverse();
    plan.entries.drop_first();
    Ok(plan)
}
