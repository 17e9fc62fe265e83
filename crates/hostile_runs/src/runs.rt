//! The machines, one after the other under one cloud.

use crate::hostile_cloud::{Hostile, HostileCloud};
use crate::looking::Looking;
use crate::machine::{Bench, ends};
use crate::tally::Tally;
use cloud_trait::who::Who;
use commit_run::CommitRun;
use db_base::change::Change;
use db_base::ids::{ClientId, PageId, SessionNo, TreeId};
use db_base::key::{Key, Payload};
use head_codec::head::Head;
use orphan_sweep::Sweep;
use page_cache::PageCache;
use page_ckpt::PageCkpt;
use range_scan::RangeScan;
use recover_run::home::Home;
use recover_run::recover::RecoverRun;
use recover_run::stage::Aim;
use settle_run::SettleRun;
use std::alloc::Global;
use tree_ckpt::TreeCkpt;
use tree_walk::Walk;
use txn_buffer::buffer::TxnBuffer;

/// Who runs machines.
pub(crate) fn bench(alloc: Global) -> Option<Bench> {
    let (Ok(session), Ok(client), Ok(tree)) = (SessionNo::new(3), ClientId::new(1), TreeId::new(1))
    else {
        return None;
    };
    Some(Bench {
        alloc,
        who: Who::new(session, 7),
        client,
        tree,
    })
}

fn key(alloc: Global, byte: u8) -> Option<Key> {
    Key::new(alloc, &[byte]).ok()
}

fn payload(alloc: Global) -> Option<Payload> {
    Payload::new(alloc, b"w").ok()
}

fn insert(alloc: Global) -> Option<Change> {
    let (Some(key), Some(payload)) = (key(alloc, b'b'), payload(alloc)) else {
        return None;
    };
    Some(Change::Insert {
        key,
        payload,
        attr: None,
    })
}

fn update(alloc: Global) -> Option<Change> {
    let (Some(key), Some(payload)) = (key(alloc, b'p'), payload(alloc)) else {
        return None;
    };
    Some(Change::Update { key, payload })
}

/// Whether a change is noted.
fn notes(changes: &mut TxnBuffer, bench: &Bench, change: Option<Change>) -> bool {
    match change {
        Some(change) => changes.note(bench.tree, change).is_ok(),
        None => false,
    }
}

/// Whether a walk to a key is right.
fn walks<H: Hostile>(
    bench: &Bench,
    cloud: &mut H,
    cache: &mut PageCache,
    number: u64,
    tally: &mut Tally,
) -> bool {
    let to = key(bench.alloc, b'a' + (number % 26) as u8);
    let mut walk = Walk::new(bench.alloc, bench.tree, to, number % 2 == 0);
    ends(&mut walk, bench, cloud, cache, tally)
}

/// Whether a scan of the whole tree is right.
fn scans<H: Hostile>(
    bench: &Bench,
    cloud: &mut H,
    cache: &mut PageCache,
    tally: &mut Tally,
) -> bool {
    let mut scan = RangeScan::new(bench.alloc, bench.tree, None, None);
    ends(&mut scan, bench, cloud, cache, tally)
}

/// Whether a look-up is right, of a client without changes of its own.
fn looks_up<H: Hostile>(
    bench: &Bench,
    cloud: &mut H,
    cache: &mut PageCache,
    tally: &mut Tally,
) -> bool {
    match TxnBuffer::new(bench.alloc) {
        Ok(buffer) => {
            let mut looking = Looking::new(bench.client, Head::empty(bench.alloc), buffer);
            ends(&mut looking, bench, cloud, cache, tally)
        }
        Err(_) => false,
    }
}

/// Whether an opening is right, and where it opens the client a commit.
fn opens<H: Hostile>(
    bench: &Bench,
    cloud: &mut H,
    cache: &mut PageCache,
    tally: &mut Tally,
) -> bool {
    let mut opening = RecoverRun::new(bench.alloc, bench.client, Aim::Opening, None);
    if !ends(&mut opening, bench, cloud, cache, tally) {
        return false;
    }
    match opening.finish() {
        Some(home) => buffers(bench, cloud, cache, home, tally),
        None => true,
    }
}

fn buffers<H: Hostile>(
    bench: &Bench,
    cloud: &mut H,
    cache: &mut PageCache,
    home: Home,
    tally: &mut Tally,
) -> bool {
    match TxnBuffer::new(bench.alloc) {
        Ok(changes) => commits(bench, cloud, cache, home, changes, tally),
        Err(_) => false,
    }
}

/// Whether a commit of an insert and an update is right. It gives the client's lease back.
fn commits<H: Hostile>(
    bench: &Bench,
    cloud: &mut H,
    cache: &mut PageCache,
    home: Home,
    changes: TxnBuffer,
    tally: &mut Tally,
) -> bool {
    let mut changes = changes;
    let is_noted = notes(&mut changes, bench, insert(bench.alloc))
        && notes(&mut changes, bench, update(bench.alloc));
    if !is_noted || changes.is_empty() {
        return false;
    }
    let mut commit = CommitRun::new(bench.alloc, home, changes);
    let is_right = ends(&mut commit, bench, cloud, cache, tally);
    let _released = cloud.release(bench.who, commit.finish().into_lease());
    is_right
}

/// Whether a checkpoint of a page is right.
fn folds<H: Hostile>(
    bench: &Bench,
    cloud: &mut H,
    cache: &mut PageCache,
    number: u64,
    tally: &mut Tally,
) -> bool {
    match PageId::new(1 + number % 8) {
        Ok(page) => {
            let mut checkpoint = PageCkpt::new(bench.alloc, bench.tree, page);
            ends(&mut checkpoint, bench, cloud, cache, tally)
        }
        Err(_) => false,
    }
}

/// Whether a checkpoint of the tree is right.
fn folds_all<H: Hostile>(
    bench: &Bench,
    cloud: &mut H,
    cache: &mut PageCache,
    tally: &mut Tally,
) -> bool {
    let mut checkpoint = TreeCkpt::new(bench.alloc, bench.tree);
    ends(&mut checkpoint, bench, cloud, cache, tally)
}

/// Whether a sweep of the tree is right.
fn sweeps<H: Hostile>(
    bench: &Bench,
    cloud: &mut H,
    cache: &mut PageCache,
    tally: &mut Tally,
) -> bool {
    let mut sweep = Sweep::new(bench.alloc, bench.tree);
    ends(&mut sweep, bench, cloud, cache, tally)
}

/// Whether a settling is right.
fn settles<H: Hostile>(
    bench: &Bench,
    cloud: &mut H,
    cache: &mut PageCache,
    tally: &mut Tally,
) -> bool {
    let mut settling = SettleRun::new(bench.alloc);
    ends(&mut settling, bench, cloud, cache, tally)
}

/// Whether every machine is right under a cloud.
fn all_end<H: Hostile>(
    bench: &Bench,
    cloud: &mut H,
    cache: &mut PageCache,
    number: u64,
    tally: &mut Tally,
) -> bool {
    walks(bench, cloud, cache, number, tally)
        && scans(bench, cloud, cache, tally)
        && looks_up(bench, cloud, cache, tally)
        && opens(bench, cloud, cache, tally)
        && folds(bench, cloud, cache, number, tally)
        && folds_all(bench, cloud, cache, tally)
        && sweeps(bench, cloud, cache, tally)
        && (number % 7 != 0 || settles(bench, cloud, cache, tally))
}

/// Whether every machine is right under the cloud of a number.
pub(crate) fn is_withstood(bench: &Bench, number: u64, tally: &mut Tally) -> bool {
    let mut cloud = HostileCloud::new(bench.alloc, number);
    match PageCache::new(bench.alloc) {
        Ok(mut cache) => all_end(bench, &mut cloud, &mut cache, number, tally),
        Err(_) => false,
    }
}
