ghost use Rattle.std.specs.Prelude.{◌≡◌, ◌⊎◌, [], ◌∷◌, ◌++◌, length, ◌≤◌, ◌+◌, ◌<◌, ◌^◌, IfOk, IfErr, IfSome, OnOk, MatchOption};
ghost use Rattle.db_base.specs.Limits.{most_changes};
ghost use Rattle.txn_buffer.specs.Noted.{Noted};
ghost use Rattle.route_plan.specs.Queue.{queue_of};
ghost use Rattle.route_plan.specs.Route.{next_number, record_behind, routed, AllFit, PassesGreatest, transaction};

use crate::index::{PendingIndex, page_of};
use crate::queue::number_of_queue;
use db_base::change::Change;
use db_base::ids::{ClientId, PageId, TreeId};
use db_base::trouble::{Counter, Trouble};
use head_codec::head::Head;
use log_codec::record::AtomicRec;
use std::alloc::Global;
use txn_buffer::buffer::TxnBuffer;

/// What the records of a commit have in common.
#[derive(Drop)]
struct Commit {
    client: ClientId,
    epoch: u64,
    txn: u64,
    count: u8,
}

/// The queue of the newest record of a commit, and its number there: where the next record is of the same queue, those before are not counted.
#[derive(Clone, Copy)]
struct Newest {
    tree: TreeId,
    page: u64,
    number: u64,
}

/// What is noted of the newest record.
fn newest_of(r: &AtomicRec) -> Newest
    ensures tree { result.tree ≡ r.now.tree }
    ensures page { result.page ≡ r.now.page }
    ensures number { result.number ≡ r.now.number }
{
    Newest {
        tree: r.tree,
        page: r.page,
        number: r.number,
    }
}

/// The number of the next record of a queue behind the earlier records of the commit; nothing where it would pass the greatest u64.
fn next_number(
    head: &Head,
    earlier: &[AtomicRec],
    newest: Option<Newest>,
    tree: TreeId,
    page: u64,
) -> Option<u64>
    requires few { length earlier.now ≤ most_changes }
    requires newest { IfSome newest (λ n. next_number head.now earlier.now n.tree n.page ≡ n.number + 1) }
    ensures { MatchOption result (2 ^ 64 ≤ next_number head.now earlier.now tree page)
        (λ n. (n < 2 ^ 64) × (n ≡ next_number head.now earlier.now tree page)) }
{
    match newest {
        Some(newest) if newest.tree.get() == tree.get() && newest.page == page => {
            newest.number.checked_add(1)
        }
        _ => counted_number(head, earlier, tree, page),
    }
}

/// The same, the earlier records counted.
fn counted_number(head: &Head, earlier: &[AtomicRec], tree: TreeId, page: u64) -> Option<u64>
    requires { length earlier.now ≤ most_changes }
    ensures { MatchOption result (2 ^ 64 ≤ next_number head.now earlier.now tree page)
        (λ n. (n < 2 ^ 64) × (n ≡ next_number head.now earlier.now tree page)) }
{
    let last = number_of_queue(head.counters.as_slice(), tree, page);
    let before = earlier
        .iter()
        .filter(|r| r.tree.get() == tree.get() && r.page == page)
        .count();
    last.checked_add(1 + before as u64)
}

/// The record of a change behind the earlier ones of its commit.
fn record_behind(
    alloc: Global,
    commit: &Commit,
    head: &Head,
    index: &PendingIndex<'_>,
    earlier: &[AtomicRec],
    newest: Option<Newest>,
    tree: TreeId,
    change: &Change,
    leaf: PageId,
) -> Result<AtomicRec, Trouble>
    requires few { length earlier.now < most_changes }
    requires newest { IfSome newest (λ n. next_number head.now earlier.now n.tree n.page ≡ n.number + 1) }
    requires index { index.now ≡ head.now.pending }
    ensures ok { IfOk result (λ r. r ≡ record_behind (transaction commit.now.client commit.now.epoch commit.now.txn commit.now.count)
        head.now earlier.now (record { tree = tree; change = change.now }) leaf) }
    ensures fits { IfOk result (λ r. r.number < 2 ^ 64) }
    ensures err { IfErr result (λ e. (e ≡ Trouble.Memory) ⊎ ((e ≡ Trouble.Exhausted Counter.Number)
        × (2 ^ 64 ≤ next_number head.now earlier.now tree (queue_of head.now.pending tree change.now leaf)))) }
{
    let page = page_of(index, tree, change, leaf);
    let number = match next_number(head, earlier, newest, tree, page) {
        Some(number) => number,
        None => {
            return Err(Trouble::Exhausted {
                what: Counter::Number,
            });
        }
    };
    match change.copied(alloc) {
        Ok(change) => Ok(AtomicRec {
            client: commit.client,
            epoch: commit.epoch,
            txn: commit.txn,
            index: earlier.len() as u8 + 1,
            count: commit.count,
            tree,
            page,
            number,
            change,
        }),
        Err(_) => Err(Trouble::Memory),
    }
}

/// Adds a record at the end.
fn push(records: &mut Vec<AtomicRec>, next: AtomicRec) -> Result<(), Trouble>
    ensures ok { OnOk result (records.new.items ≡ records.old.items ++ next ∷ []) }
    ensures err { IfErr result (λ e. e ≡ Trouble.Memory) }
{
    match records.push(next) {
        Ok(()) => Ok(()),
        Err(_) => Err(Trouble::Memory),
    }
}

/// The pending entries of a head by key, for so many searches.
fn index_of<'a>(alloc: Global, head: &'a Head, searches: usize) -> Result<PendingIndex<'a>, Trouble>
    ensures ok { IfOk result (λ x. x ≡ head.now.pending) }
    ensures err { IfErr result (λ e. e ≡ Trouble.Memory) }
{
    match PendingIndex::of(alloc, head.pending.as_slice(), searches) {
        Ok(index) => Ok(index),
        Err(_) => Err(Trouble::Memory),
    }
}

/// The records of a commit's changes; `leaves` has for each change the leaf that the client's walk to its key came to.
/// A change goes to the queue of the last pending entry of its tree and key. Where there is none, an update goes to its leaf's queue
/// and an insert or delete to the tree queue. Exhausted where a number would pass the greatest u64; else the one error is want of memory.
pub fn route(
    alloc: Global,
    client: ClientId,
    epoch: u64,
    txn: u64,
    head: &Head,
    changes: &TxnBuffer,
    leaves: &[PageId],
) -> Result<Vec<AtomicRec>, Trouble>
    requires { length leaves.now ≡ length changes.now }
    ensures ok { IfOk result (λ records. records.items ≡ routed client epoch txn head.now changes.now leaves.now) }
    ensures fits { OnOk result (AllFit (routed client epoch txn head.now changes.now leaves.now)) }
    ensures err { IfErr result (λ e. (e ≡ Trouble.Memory) ⊎ ((e ≡ Trouble.Exhausted Counter.Number)
        × PassesGreatest (routed client epoch txn head.now changes.now leaves.now))) }
{
    let commit = Commit {
        client,
        epoch,
        txn,
        count: changes.len() as u8,
    };
    let index = index_of(alloc, head, changes.len())?;
    let mut records: Vec<AtomicRec> = Vec::new(alloc);
    let mut newest = None;
    while let Some(noted) = changes.at(records.len()) {
        let leaf = leaves[records.len()];
        let next = record_behind(
            alloc,
            &commit,
            head,
            &index,
            records.as_slice(),
            newest,
            noted.0,
            noted.1,
            leaf,
        )?;
        newest = Some(newest_of(&next));
        push(&mut records, next)?;
    }
    Ok(records)
}
