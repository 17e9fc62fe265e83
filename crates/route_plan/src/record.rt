ghost use Rattle.std.specs.Prelude.{◌≡◌, IfOk};
ghost use Rattle.route_plan.specs.Record.{pu_record_of, pending_of};

use head_codec::entry::Entry;
use head_codec::lists::Pending;
use log_codec::record::{AtomicRec, PuRec};
use std::alloc::{AllocError, Global};

/// The record as it stands in its pending update queue. Fails for memory alone.
pub fn pu_of_record(alloc: Global, record: &AtomicRec) -> Result<PuRec, AllocError>
    ensures { IfOk result (λ r. r ≡ pu_record_of «record».now) }
{
    Ok(PuRec {
        client: record.client,
        epoch: record.epoch,
        txn: record.txn,
        number: record.number,
        change: record.change.copied(alloc)?,
    })
}

/// The record as a pending entry. Fails for memory alone.
pub(crate) fn pending_of_record(alloc: Global, record: &AtomicRec) -> Result<Entry, AllocError>
    ensures { IfOk result (λ r. r ≡ pending_of «record».now) }
{
    let pending = Pending {
        tree: record.tree,
        page: record.page,
        number: record.number,
        change: record.change.copied(alloc)?,
    };
    Entry::of(alloc, pending)
}
