//! A run applied to a leaf.

ghost use Rattle.std.specs.Prelude.{◌≡◌, ◌<◌, ◌≤◌, ◌^◌, ◌↔◌, IfOk};
ghost use Rattle.byte_format.specs.Format.{greatest};
ghost use Rattle.log_codec.specs.Order.{IsOrdered};
ghost use Rattle.leaf_edit.specs.Applied.{applied, applied_length};
ghost use Rattle.leaf_edit.specs.Raised.{RaisesNumbers};

use crate::buffer::LeafBuf;
use crate::changes::Changes;
use crate::merging::spell;
use crate::most::most_len;
use db_base::pair::EditFault;
use leaf_view::LeafView;
use log_codec::record::PuItem;
use std::alloc::Global;

/// The next version of a leaf, in format 2 whatever was read, with those items of a run applied that it lacks, in the run's order.
///
/// What is done of the queue is raised to each client's greatest number in the run; fences and right page stay.
pub fn apply(
    alloc: Global,
    leaf: &LeafView<'_>,
    queue: u64,
    run: &[PuItem],
) -> Result<LeafBuf, EditFault>
    requires { IsOrdered run.now }
    ensures ok { IfOk result (λ new. new ≡ applied leaf.now queue run.now) }
    ensures done { IfOk result (λ new. RaisesNumbers leaf.now.done new.done queue run.now) }
    ensures exhausted { (result ≡ Err EditFault.Exhausted) ↔ (leaf.now.version ≡ greatest) }
    ensures long { 2 ^ 64 ≤ applied_length leaf.now queue run.now → leaf.now.version < greatest → result ≡ Err EditFault.Memory }
{
    if leaf.version() == u64::MAX {
        return Err(EditFault::Exhausted);
    }
    let done = leaf.numbers(queue);
    let changes = Changes::of(leaf, queue, &done, run);
    let Some(most) = most_len(leaf, changes.again()) else {
        return Err(EditFault::Memory);
    };
    let mut out = Vec::with_capacity(alloc, most)?;
    spell(&mut out, leaf, queue, run, changes);
    Ok(LeafBuf::of(out))
}
