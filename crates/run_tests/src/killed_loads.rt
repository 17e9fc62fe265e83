//! Loads over a cloud that is cut off at some call. What is there behind that is a first part of the text.

use crate::bench::{begins_over, runs_over};
use crate::sizes::joined;
use memory_cloud::memory::MemoryCloud;
use schedule_run::status::Status;
use std::alloc::Global;

/// Adds the line of a record.
fn add_record(alloc: Global, text: &mut Vec<u8>, key: u64) -> bool {
    match format!(in alloc; "{key} 76\n") {
        Ok(line) => text.extend_from_slice(line.as_bytes()).is_ok(),
        Err(_) => false,
    }
}

/// Adds the lines of so many records.
fn add_records(alloc: Global, text: &mut Vec<u8>, count: u64) -> bool {
    for number in 0..count {
        if !add_record(alloc, text, number.saturating_add(1_000)) {
            return false;
        }
    }
    true
}

/// Adds the lines of a tree with so many records, where it has any.
fn add_tree(alloc: Global, text: &mut Vec<u8>, tree: u64, count: u64) -> bool {
    if count == 0 {
        return true;
    }
    match format!(in alloc; "tree {tree} {count}\n") {
        Ok(line) => {
            text.extend_from_slice(line.as_bytes()).is_ok() && add_records(alloc, text, count)
        }
        Err(_) => false,
    }
}

/// The dump of so many records in tree 1 and so many in tree 2.
fn dump_of(alloc: Global, first: u64, second: u64) -> Option<Vec<u8>> {
    let mut text = Vec::new(alloc);
    if add_tree(alloc, &mut text, 1, first) && add_tree(alloc, &mut text, 2, second) {
        Some(text)
    } else {
        None
    }
}

/// An empty cloud that fails the call of this number, and all later ones of a load: these are at most 512, since it goes on behind failed
/// deletions, renewals and checkpoints, and stops at the next commit.
fn cut_off(alloc: Global, call: u64) -> Option<MemoryCloud> {
    let mut failing = Vec::new(alloc);
    for number in 0..512u64 {
        if failing.push(call.saturating_add(number)).is_err() {
            return None;
        }
    }
    MemoryCloud::with_failures(alloc, failing.as_slice()).ok()
}

/// The leases are over. Openings of the session meet what is left of the calls that fail, one each, until one finishes what was begun.
const SETTLING: [(&[u8], usize); 3] = [
    (b"wait 600\n", 1),
    (b"open 1 1\nrun 1\n", 513),
    (b"close 1\nrun 1\nsettle\n", 1),
];

/// Whether the session is opened again over this cloud, and all settled.
fn settles(alloc: Global, cloud: &mut MemoryCloud) -> bool {
    match joined(alloc, &SETTLING) {
        Some(lines) => begins_over(
            alloc,
            &["replay"],
            lines.as_slice(),
            Status::Done,
            b"1 ",
            cloud,
        ),
        None => false,
    }
}

/// Whether so many records of tree 1 and of tree 2 are there, and no others.
fn has(alloc: Global, cloud: &mut MemoryCloud, first: u64, second: u64) -> bool {
    match dump_of(alloc, first, second) {
        Some(text) => runs_over(
            alloc,
            &["dump", "db"],
            b"",
            Status::Done,
            text.as_slice(),
            cloud,
        ),
        None => false,
    }
}

/// Whether the load of 300 records in tree 1 and 150 in tree 2 ends with this status, and is settled.
fn loads(alloc: Global, cloud: &mut MemoryCloud, status: Status) -> bool {
    match dump_of(alloc, 300, 150) {
        Some(text) => {
            begins_over(alloc, &["load", "db"], text.as_slice(), status, b"", cloud)
                && settles(alloc, cloud)
        }
        None => false,
    }
}

/// Whether a load that is cut off at this call ends so, and leaves so many records of tree 1 and of tree 2.
fn leaves(alloc: Global, call: u64, status: Status, first: u64, second: u64) -> bool {
    match cut_off(alloc, call) {
        Some(mut cloud) => {
            loads(alloc, &mut cloud, status) && has(alloc, &mut cloud, first, second)
        }
        None => false,
    }
}

/// Whether a load that is cut off at the call of each row ends as it says.
fn all_leave(alloc: Global, rows: &[(u64, Status, u64, u64)]) -> bool {
    for (call, status, first, second) in rows {
        if !leaves(alloc, *call, *status, *first, *second) {
            return false;
        }
    }
    true
}

/// The opening makes calls 1 to 4. The first commit sends its records (5 to 204), puts its head open (205), sends them to the tree (to 405),
/// puts the head settled (406) and deletes them (to 606); the checkpoint takes the tree's lock (607) and deletes as many messages. The second commit
/// puts its head open behind 1,000 calls, and the third, of 50 records, behind 1,700; the closing and the settling come at its end.
const CUTS: [(u64, Status, u64, u64); 21] = [
    (1, Status::NotOpened, 0, 0),
    (3, Status::NotOpened, 0, 0),
    (5, Status::NotLoaded, 0, 0),
    (100, Status::NotLoaded, 0, 0),
    (205, Status::NotLoaded, 0, 0),
    (206, Status::NotLoaded, 200, 0),
    (300, Status::NotLoaded, 200, 0),
    (405, Status::NotLoaded, 200, 0),
    (406, Status::NotLoaded, 200, 0),
    (407, Status::NotLoaded, 200, 0),
    (606, Status::NotLoaded, 200, 0),
    (607, Status::NotLoaded, 200, 0),
    (700, Status::NotLoaded, 200, 0),
    (900, Status::NotLoaded, 200, 0),
    (1_100, Status::NotLoaded, 300, 100),
    (1_400, Status::NotLoaded, 300, 100),
    (1_500, Status::NotLoaded, 300, 100),
    (1_670, Status::NotLoaded, 300, 100),
    (1_740, Status::NotLoaded, 300, 150),
    (1_850, Status::NotSettled, 300, 150),
    (2_000, Status::NotSettled, 300, 150),
];

#[test]
fn a_load_that_is_cut_off_leaves_whole_transactions(rt: HostRuntime) {
    assert!(rt; all_leave(rt.alloc(), &CUTS));
}
