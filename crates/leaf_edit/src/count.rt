//! How much of a run is new to a leaf.

ghost use Rattle.std.specs.Prelude.{◌≡◌, length};
ghost use Rattle.leaf_edit.specs.Lacked.{lacked};

use crate::changes::lacks;
use leaf_view::LeafView;
use log_codec::record::PuItem;

/// How many items of the run the leaf lacks: their keys are in its range, and their numbers not applied. Takes no memory.
pub fn fresh(leaf: &LeafView<'_>, queue: u64, run: &[PuItem]) -> usize
    ensures { result ≡ length (lacked leaf.now queue run.now) }
{
    let done = leaf.numbers(queue);
    let mut count = 0;
    let mut left = run;
    while let Some((x, rest)) = left.split_first() {
        if lacks(leaf, queue, &done, x) {
            count += 1;
        }
        left = rest;
    }
    count
}
