//! The items of a run at the keys of a leaf.

ghost use Rattle.std.specs.Prelude.{◌≡◌, ◌++◌, ℕ};
ghost use Rattle.db_base.specs.Change.{key_of};
ghost use Rattle.byte_format.specs.Order.{bytes_below};
ghost use Rattle.log_codec.specs.Order.{IsOrdered};
ghost use Rattle.leaf_edit.specs.Lacked.{lacked, AllHeld};
ghost use Rattle.leaf_edit.specs.Merging.{AllBelow, AllFrom, Rises};

use byte_format::is_below;
use leaf_view::LeafView;
use log_codec::record::PuItem;

/// The items at keys below a key, and those from it on, of items in order of keys: found by halving.
fn parted<'a>(run: &'a [PuItem], key: &[u8]) -> (&'a [PuItem], &'a [PuItem])
    requires { Rises run.now }
    ensures whole { run.now ≡ result.0.now ++ result.1.now }
    ensures below { AllBelow key.now result.0.now }
    ensures from { AllFrom key.now result.1.now }
{
    let place = run.partition_point(
        |x: &PuItem| -> bool
            ensures { result ≡ bytes_below (key_of x.now.rec.change) key.entry.now }
        { is_below(x.rec.change.key().as_slice(), key) },
    );
    run.split_at(place)
}

/// The items at the keys of the leaf's range, of items in order of keys.
pub(crate) fn held<'a>(leaf: &LeafView<'_>, run: &'a [PuItem]) -> &'a [PuItem]
    requires { Rises run.now }
    ensures held { AllHeld leaf.now result.now }
    ensures same { (queue : ℕ) → lacked leaf.now queue result.now ≡ lacked leaf.now queue run.now }
{
    let (_, from_low) = parted(run, leaf.low());
    match leaf.high() {
        None => from_low,
        Some(high) => parted(from_low, high).0,
    }
}

/// The items of a run at the keys of the leaf's range, in the run's order: the leaf lacks no others. Takes no memory.
pub fn within<'a>(leaf: &LeafView<'_>, run: &'a [PuItem]) -> &'a [PuItem]
    requires { IsOrdered run.now }
    ensures held { AllHeld leaf.now result.now }
    ensures same { (queue : ℕ) → lacked leaf.now queue result.now ≡ lacked leaf.now queue run.now }
{
    held(leaf, run)
}

/// The items of a run at keys below a key, and those from it on. Takes no memory.
pub fn parted_at<'a>(run: &'a [PuItem], key: &[u8]) -> (&'a [PuItem], &'a [PuItem])
    requires { IsOrdered run.now }
    ensures whole { run.now ≡ result.0.now ++ result.1.now }
    ensures below { AllBelow key.now result.0.now }
    ensures from { AllFrom key.now result.1.now }
{
    parted(run, key)
}
