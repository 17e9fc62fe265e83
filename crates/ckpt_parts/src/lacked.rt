//! The items of a run that a leaf lacks.

ghost use Rattle.std.specs.Prelude.{◌≡◌, IfOk, slice_index};
ghost use Rattle.leaf_edit.specs.Lacked.{is_lacked, lacked};
ghost use Rattle.leaf_view.specs.Lookup.{AreNumbers};

use leaf_view::{LeafView, Numbers};
use log_codec::record::PuItem;
use std::alloc::{AllocError, Global};

/// Whether the leaf lacks the item: its key is in the leaf's range, and its number is not applied.
fn lacks(leaf: &LeafView<'_>, queue: u64, done: &Numbers, item: &PuItem) -> bool
    requires { AreNumbers leaf.now.done queue (λ client. slice_index done.now client) }
    ensures { result ≡ is_lacked leaf.now queue item.now }
{
    leaf.holds(item.rec.change.key().as_slice()) && done.get(item.rec.client) < item.rec.number
}

/// Copies of the items of a run that a leaf lacks, in the run's order.
pub fn lacked_of(
    alloc: Global,
    leaf: &LeafView<'_>,
    queue: u64,
    run: &[PuItem],
) -> Result<Vec<PuItem>, AllocError>
    ensures { IfOk result (λ items. items.items ≡ lacked leaf.now queue run.now) }
{
    let done = leaf.numbers(queue);
    let mut items = Vec::new(alloc);
    let mut left = run;
    while let Some((item, rest)) = left.split_first() {
        if lacks(leaf, queue, &done, item) {
            items.push(item.copied(alloc)?)?;
        }
        left = rest;
    }
    Ok(items)
}
