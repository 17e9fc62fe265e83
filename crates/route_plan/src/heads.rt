ghost use Rattle.std.specs.Prelude.{◌≡◌, length, ◌≤◌, ◌++◌, take, map, IfOk, OnOk, OnErr};
ghost use Rattle.db_base.specs.Limits.{most_changes};
ghost use Rattle.route_plan.specs.Heads.{counter_cmp, opened_head, raised_by, settled_head, with_counter};
ghost use Rattle.route_plan.specs.Record.{counter_of, pending_of};

use crate::record::pending_of_record;
use head_codec::head::{Head, Phase};
use head_codec::lists::{CounterList, PendingList, QueueCount};
use log_codec::record::AtomicRec;
use std::alloc::{AllocError, Global};
use std::cmp::Ordering;

/// The order of counters: by tree, then page.
fn compare(a: &QueueCount, b: &QueueCount) -> Ordering
    ensures { result ≡ counter_cmp a.now b.now }
{
    a.tree.get().cmp(&b.tree.get()).then(a.page.cmp(&b.page))
}

/// Puts a counter in its place among ascending ones, or in place of the one of its queue. An `Err` may come for memory alone.
fn put_counter(counters: &mut Vec<QueueCount>, counter: QueueCount) -> Result<(), AllocError>
    ensures { OnOk result (counters.new.items ≡ with_counter counters.old.items counter) }
{
    for i in 0..counters.len() {
        match compare(&counter, &counters[i]) {
            Ordering::Less => {
                counters.insert(i, counter)?;
                return Ok(());
            }
            Ordering::Equal => {
                counters[i] = counter;
                return Ok(());
            }
            Ordering::Greater => {}
        }
    }
    counters.push(counter)?;
    Ok(())
}

/// The counter of the record's queue behind the record.
fn counter_of(r: &AtomicRec) -> QueueCount
    ensures { result ≡ counter_of r.now }
{
    QueueCount {
        tree: r.tree,
        page: r.page,
        number: r.number,
    }
}

/// The counters raised by records, in their order.
fn raised(
    alloc: Global,
    counters: &[QueueCount],
    records: &[AtomicRec],
) -> Result<Vec<QueueCount>, AllocError>
    ensures { IfOk result (λ all. all.items ≡ raised_by counters.now records.now) }
{
    let mut all = Vec::from_slice(alloc, counters)?;
    let mut left = records;
    while let Some((r, rest)) = left.split_first() {
        put_counter(&mut all, counter_of(r))?;
        left = rest;
    }
    Ok(all)
}

/// Makes the head one that commits these records as a transaction: open, with the counters raised by them.
/// An `Err` comes for memory alone and changes nothing.
pub fn open_head(
    alloc: Global,
    head: &mut Head,
    txn: u64,
    records: &[AtomicRec],
) -> Result<(), AllocError>
    requires { length records.now ≤ most_changes }
    ensures ok { OnOk result (head.new ≡ opened_head head.old txn records.now) }
    ensures err { OnErr result (head.new ≡ head.old) }
{
    let counters = raised(alloc, head.counters.as_slice(), records)?;
    head.txn = txn;
    head.phase = Phase::Open(records.len() as u8);
    head.counters = CounterList::of(counters);
    Ok(())
}

/// Adds the records as pending entries. An `Err` comes for memory alone, and may leave some of them behind the old ones.
fn add_pending(
    alloc: Global,
    pending: &mut PendingList,
    records: &[AtomicRec],
) -> Result<(), AllocError>
    ensures ok { OnOk result (pending.new ≡ pending.old ++ map pending_of records.now) }
    ensures err { OnErr result (take (length pending.old) pending.new ≡ pending.old) }
{
    let mut left = records;
    while let Some((r, rest)) = left.split_first() {
        pending.push(pending_of_record(alloc, r)?)?;
        left = rest;
    }
    Ok(())
}

/// Makes the head of a commit one whose records are all in their queues: settled, with the records as pending entries.
/// An `Err` comes for memory alone and changes nothing.
pub fn settle_head(alloc: Global, head: &mut Head, records: &[AtomicRec]) -> Result<(), AllocError>
    ensures ok { OnOk result (head.new ≡ settled_head head.old records.now) }
    ensures err { OnErr result (head.new ≡ head.old) }
{
    let before = head.pending.as_slice().len();
    match add_pending(alloc, &mut head.pending, records) {
        Ok(()) => {
            head.phase = Phase::Settled;
            Ok(())
        }
        Err(error) => {
            head.pending.truncate(before);
            Err(error)
        }
    }
}
