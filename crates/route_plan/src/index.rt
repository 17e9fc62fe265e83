//! Pending entries by key.

ghost use Rattle.std.specs.Prelude.{◌≡◌, IfOk, IfSome};
ghost use Rattle.route_plan.specs.Index.{IsTable};
ghost use Rattle.route_plan.specs.Queue.{queue_of};

use crate::queue::{first_queue, last_pending};
use crate::slots::SlotTable;
use db_base::change::Change;
use db_base::ids::{PageId, TreeId};
use head_codec::entry::Entry;
use std::alloc::{AllocError, Global};
use std::marker::Model;

// Up to so many searches a walk along the entries for each takes less time than a table of them all.
const FEW_SEARCHES: usize = 8;

/// Pending entries, to be searched by key: by a table, where there are searches enough to pay for it.
#[derive(Drop)]
pub struct PendingIndex<'a> {
    pending: &'a [Entry],
    table: Option<SlotTable>,
}

impl<'a> Model for PendingIndex<'a> {
    ghost use Rattle.std.specs.Prelude.{List, IfSome};
    ghost use Rattle.head_codec.specs.declared.lists.Pending.{Pending};
    ghost use Rattle.route_plan.specs.Index.{IsTable};

    ghost Value = { List Pending };

    ghost view = { λ x. x.pending.now };

    ghost invariant = { λ x. IfSome x.table (λ t. IsTable x.pending.now t.newest.items t.before.items) };
}

/// The table of entries, where there are any, for more than a few searches. Fails for memory alone.
fn table_of(
    alloc: Global,
    pending: &[Entry],
    searches: usize,
) -> Result<Option<SlotTable>, AllocError>
    ensures { IfOk result (λ table. IfSome table (λ t. IsTable pending.now t.newest.items t.before.items)) }
{
    if searches <= FEW_SEARCHES || pending.is_empty() {
        return Ok(None);
    }
    Ok(Some(SlotTable::of(alloc, pending)?))
}

impl<'a> PendingIndex<'a> {
    ghost use Rattle.std.specs.Prelude.{◌≡◌, IfOk};
    ghost use Rattle.std.specs.List.{list_any};
    ghost use Rattle.std.specs.Option.{option_copied};
    ghost use Rattle.route_plan.specs.Queue.{is_pending_of, last_pending};

    /// The index of entries for so many searches. Fails for memory alone.
    pub fn of(
        alloc: Global,
        pending: &'a [Entry],
        searches: usize,
    ) -> Result<PendingIndex<'a>, AllocError>
        ensures ok { IfOk result (λ x. x ≡ pending.now) }
    {
        let table = table_of(alloc, pending, searches)?;
        Ok(PendingIndex { pending, table })
    }

    /// The last entry of a tree and key.
    pub(crate) fn last(&self, tree: TreeId, key: &[u8]) -> Option<&'a Entry>
        ensures { option_copied result ≡ last_pending self.now tree key.now }
    {
        match &self.table {
            Some(table) => table.last(self.pending, tree, key),
            None => last_pending(self.pending, tree, key),
        }
    }

    /// Whether an entry is of a tree and key.
    pub fn has(&self, tree: TreeId, key: &[u8]) -> bool
        ensures has { result ≡ list_any (is_pending_of tree key.now) self.now }
    {
        match self.last(tree, key) {
            Some(_) => true,
            None => false,
        }
    }
}

/// The page of the queue that a change goes to, 0 for the tree queue; `leaf` is where the client's walk to its key came to.
pub(crate) fn page_of(index: &PendingIndex<'_>, tree: TreeId, change: &Change, leaf: PageId) -> u64
    ensures { result ≡ queue_of index.now tree change.now leaf }
{
    match index.last(tree, change.key().as_slice()) {
        Some(entry) => entry.get().page,
        None => first_queue(change, leaf),
    }
}
