ghost use Rattle.std.specs.Prelude.{◌≡◌};
ghost use Rattle.log_codec.specs.Order.{item_cmp};

use log_codec::record::PuItem;
use std::cmp::Ordering;

/// The order in which items are applied: by key, then client, then number.
pub(crate) fn compare(x: &PuItem, y: &PuItem) -> Ordering
    ensures { result ≡ item_cmp x.now y.now }
{
    let by_key = x
        .rec
        .change
        .key()
        .as_slice()
        .cmp(y.rec.change.key().as_slice());
    let by_client = x.rec.client.get().cmp(&y.rec.client.get());
    let by_number = x.rec.number.cmp(&y.rec.number);
    by_key.then(by_client.then(by_number))
}
