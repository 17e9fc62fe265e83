ghost use Rattle.std.specs.Prelude.{◌≡◌, ◌++◌, map, OnOk};
ghost use Rattle.client_work.specs.Shows.{pair_of};

use range_scan::{Items, RangeScan};
use report_types::pair_list::PairList;
use std::alloc::AllocError;

/// A scan, and the records of the leaves at which it ended.
#[derive(Drop)]
pub struct Listing {
    /// The scan.
    pub scan: RangeScan,
    /// The records, in the order of their keys.
    pub pairs: PairList,
}

/// Adds copies of the records of a leaf at the end of the list. Fails for memory alone.
pub(crate) fn list_items(pairs: &mut PairList, items: Items<'_>) -> Result<(), AllocError>
    ensures { OnOk result (pairs.new ≡ pairs.old ++ map pair_of items.entry) }
{
    let mut left = items;
    while let Some((key, value)) = left.take_first() {
        pairs.add(key, value.payload())?;
    }
    Ok(())
}
