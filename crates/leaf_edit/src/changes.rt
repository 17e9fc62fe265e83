//! The items of a run that a leaf lacks.

use crate::held::held;
use leaf_view::{LeafView, Numbers};
use log_codec::record::PuItem;
use std::marker::Model;

/// The items that a leaf lacks of a run, in the run's order.
#[derive(Drop)]
pub(crate) struct Changes<'a> {
    leaf: &'a LeafView<'a>,
    queue: u64,
    // What the leaf has applied of the queue.
    done: &'a Numbers,
    // At keys of the leaf, and from the first item on that is lacked, so that it is looked for once.
    rest: &'a [PuItem],
}

impl<'a> Model for Changes<'a> {
    ghost use Rattle.std.specs.Prelude.{List, slice_index};
    ghost use Rattle.log_codec.specs.declared.record.PuItem.{PuItem as Item};
    ghost use Rattle.leaf_edit.specs.Lacked.{lacked, AllHeld, IsFirstLacked};
    ghost use Rattle.leaf_view.specs.Lookup.{AreNumbers};

    ghost Value = { List Item };

    ghost view = { λ c. lacked c.leaf.now c.queue c.rest.now };

    ghost invariant = { λ c. AreNumbers c.leaf.now.done c.queue (λ client. slice_index c.done.now client) × AllHeld c.leaf.now c.rest.now × IsFirstLacked c.leaf.now c.queue c.rest.now };
}

ghost use Rattle.std.specs.Prelude.{◌≡◌, IsTrue, slice_index};
ghost use Rattle.db_base.specs.Change.{key_of};
ghost use Rattle.leaf_view.specs.Lookup.{holds, AreNumbers};
ghost use Rattle.leaf_edit.specs.Lacked.{is_lacked, lacked, AllHeld, IsFirstLacked};

/// Whether the leaf lacks the item: its key is in the leaf's range, and its number is not applied.
pub(crate) fn lacks(leaf: &LeafView<'_>, queue: u64, done: &Numbers, x: &PuItem) -> bool
    requires { AreNumbers leaf.now.done queue (λ client. slice_index done.now client) }
    ensures { result ≡ is_lacked leaf.now queue x.now }
{
    leaf.holds(x.rec.change.key().as_slice()) && lacks_held(leaf, queue, done, x)
}

/// Whether the leaf lacks an item at a key of its range: the item's number is not applied.
fn lacks_held(leaf: &LeafView<'_>, queue: u64, done: &Numbers, x: &PuItem) -> bool
    requires numbers { AreNumbers leaf.now.done queue (λ client. slice_index done.now client) }
    requires held { IsTrue (holds leaf.now (key_of x.now.rec.change)) }
    ensures { result ≡ is_lacked leaf.now queue x.now }
{
    done.get(x.rec.client) < x.rec.number
}

/// The items from the first on that is lacked, of items at keys of the leaf.
fn from_lacked<'a>(
    leaf: &LeafView<'_>,
    queue: u64,
    done: &Numbers,
    items: &'a [PuItem],
) -> &'a [PuItem]
    requires numbers { AreNumbers leaf.now.done queue (λ client. slice_index done.now client) }
    requires held { AllHeld leaf.now items.now }
    ensures same { lacked leaf.now queue result.now ≡ lacked leaf.now queue items.now }
    ensures held { AllHeld leaf.now result.now }
    ensures first { IsFirstLacked leaf.now queue result.now }
{
    let mut left = items;
    while let Some((x, rest)) = left.split_first() {
        if lacks_held(leaf, queue, done, x) {
            return left;
        }
        left = rest;
    }
    left
}

impl<'a> Changes<'a> {
    ghost use Rattle.std.specs.Prelude.{◌≡◌, [], ◌∷◌, drop, slice_index, MatchOption};
    ghost use Rattle.leaf_view.specs.Lookup.{AreNumbers};
    ghost use Rattle.leaf_edit.specs.Lacked.{lacked, AllHeld};
    ghost use Rattle.leaf_edit.specs.Merging.{Rises};

    /// Those of a run; `done` is what the leaf has applied of the queue.
    pub(crate) fn of(
        leaf: &'a LeafView<'a>,
        queue: u64,
        done: &'a Numbers,
        run: &'a [PuItem],
    ) -> Changes<'a>
        requires numbers { AreNumbers leaf.now.done queue (λ client. slice_index done.now client) }
        requires rise { Rises run.now }
        ensures { result ≡ lacked leaf.now queue run.now }
    {
        Changes::among(leaf, queue, done, held(leaf, run))
    }

    /// Those of items at keys of the leaf.
    fn among(
        leaf: &'a LeafView<'a>,
        queue: u64,
        done: &'a Numbers,
        items: &'a [PuItem],
    ) -> Changes<'a>
        requires numbers { AreNumbers leaf.now.done queue (λ client. slice_index done.now client) }
        requires held { AllHeld leaf.now items.now }
        ensures { result ≡ lacked leaf.now queue items.now }
    {
        Changes {
            leaf,
            queue,
            done,
            rest: from_lacked(leaf, queue, done, items),
        }
    }

    /// The same items from here on.
    pub(crate) fn again(&self) -> Changes<'a>
        ensures { result ≡ self.now }
    {
        Changes {
            leaf: self.leaf,
            queue: self.queue,
            done: self.done,
            rest: self.rest,
        }
    }

    /// The first item.
    pub(crate) fn first(&self) -> Option<&'a PuItem>
        ensures { MatchOption result (self.now ≡ []) (λ x. self.now ≡ x.now ∷ drop 1 self.now) }
    {
        let (item, _) = self.rest.split_first()?;
        Some(item)
    }

    /// The items behind the first.
    pub(crate) fn behind(self) -> Changes<'a>
        ensures { result ≡ drop 1 self.entry }
    {
        match self.rest.split_first() {
            None => self,
            Some((_, rest)) => Changes::among(self.leaf, self.queue, self.done, rest),
        }
    }
}
