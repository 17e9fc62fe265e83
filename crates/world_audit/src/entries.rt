//! Lists of entries: what is added to them, and their part of one tree.

ghost use Rattle.std.specs.Prelude.{◌≡◌, [], ◌∷◌, ◌++◌, length, take, map, IfOk, OnOk, OnErr};
ghost use Rattle.history.specs.Fold.{of_tree};
ghost use Rattle.history.specs.Audited.{committed_entry, applied_entry};

use db_base::change::Change;
use db_base::ids::{ClientId, TreeId};
use log_codec::record::PuItem;
use report_types::entry::Entry;
use report_types::entry_log::EntryLog;
use std::alloc::{AllocError, Global};
use txn_buffer::buffer::TxnBuffer;

/// The entry of a change that a transaction commits. Fails for memory alone.
fn committed_entry(
    alloc: Global,
    client: ClientId,
    epoch: u64,
    txn: u64,
    tree: TreeId,
    change: &Change,
) -> Result<Entry, AllocError>
    ensures { IfOk result (λ e. e ≡ committed_entry client epoch txn (record { tree = tree; change = change.now })) }
{
    Ok(Entry {
        client,
        epoch,
        txn,
        tree,
        change: change.copied(alloc)?,
    })
}

/// Adds the changes of a transaction. An `Err` comes for memory alone, and may leave some of them behind the old entries.
pub(crate) fn add_committed(
    alloc: Global,
    log: &mut EntryLog,
    client: ClientId,
    epoch: u64,
    txn: u64,
    changes: &TxnBuffer,
) -> Result<(), AllocError>
    ensures ok { OnOk result (log.new ≡ log.old ++ map (committed_entry client epoch txn) changes.now) }
    ensures err { OnErr result (take (length log.old) log.new ≡ log.old) }
{
    for i in 0..changes.len() {
        let Some(noted) = changes.at(i) else {
            unreachable!();
        };
        let entry = committed_entry(alloc, client, epoch, txn, noted.0, noted.1)?;
        log.push(entry)?;
    }
    Ok(())
}

/// Adds the records that are applied to a page of a tree. An `Err` comes for memory alone, and may leave some of them behind the old entries.
pub(crate) fn add_applied(
    alloc: Global,
    log: &mut EntryLog,
    tree: TreeId,
    applying: &[PuItem],
) -> Result<(), AllocError>
    ensures ok { OnOk result (log.new ≡ log.old ++ map (applied_entry tree) applying.now) }
    ensures err { OnErr result (take (length log.old) log.new ≡ log.old) }
{
    let mut left = applying;
    while let Some((item, rest)) = left.split_first() {
        log.push(Entry {
            client: item.rec.client,
            epoch: item.rec.epoch,
            txn: item.rec.txn,
            tree,
            change: item.rec.change.copied(alloc)?,
        })?;
        left = rest;
    }
    Ok(())
}

/// Adds a copy of the entry, where it is of the tree.
fn add_of_tree(
    alloc: Global,
    log: &mut EntryLog,
    tree: TreeId,
    entry: &Entry,
) -> Result<(), AllocError>
    ensures { OnOk result (log.new ≡ log.old ++ of_tree tree (entry.now ∷ [])) }
{
    if entry.tree.get() != tree.get() {
        return Ok(());
    }
    log.push(Entry {
        client: entry.client,
        epoch: entry.epoch,
        txn: entry.txn,
        tree: entry.tree,
        change: entry.change.copied(alloc)?,
    })
}

/// A copy of the entries of the tree. Fails for memory alone.
pub(crate) fn of_tree(
    alloc: Global,
    entries: &[Entry],
    tree: TreeId,
) -> Result<EntryLog, AllocError>
    ensures { IfOk result (λ l. l ≡ of_tree tree entries.now) }
{
    let mut log = EntryLog::new(alloc);
    let mut left = entries;
    while let Some((entry, rest)) = left.split_first() {
        add_of_tree(alloc, &mut log, tree, entry)?;
        left = rest;
    }
    Ok(log)
}
