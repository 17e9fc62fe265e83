//! Sweeps: what a crash in a cut leaves behind is removed, and nothing else.

use crate::bench::{all_write, ends, replay_over};
use crate::sizes::add_times;
use memory_cloud::memory::MemoryCloud;
use schedule_run::status::Status;
use std::alloc::Global;

/// Of an empty tree, of a number that is no tree's, beside a lease of the tree, and behind its checkpoint.
const ROWS: [(&[u8], Status, &[u8]); 4] = [
    (b"sweep 1\n", Status::Done, b"1 swept 0 0\n"),
    (
        b"open 1 1\nrun 1\ntree 1 1\nstep 1 plain\nsweep 1\nsweep 17\nsweep 0\nsweep 16\n",
        Status::Done,
        b"1 begun\n2 opened 1\n3 begun\n4 called\n5 busy tree:1 60\n6 refused 5 bad-number\n7 refused 5 bad-number\n8 swept 0 0\n",
    ),
    (
        b"sweep 1\nsweep 17\nopen 1 1\nrun 1\ninsert 1 1 6b 76\ncommit 1\nrun 1\ntree 1 1\nsweep 1\nstep 1 plain\nsweep 1\nrun 1\nsweep 1\n",
        Status::Done,
        b"1 swept 0 0\n2 refused 5 bad-number\n3 begun\n4 opened 1\n5 noted\n6 begun\n7 committed 1\n8 begun\n9 swept 0 0\n10 called\n11 busy tree:1 60\n12 done 1 1 0\n13 swept 1 0\n",
    ),
    (b"sweep\n", Status::BadLine, b"bad line 1\n"),
];

#[test]
fn sweeps_by_one_line(rt: HostRuntime) {
    assert!(rt; all_write(rt.alloc(), &ROWS));
}

/// The calls of a sweep of an empty tree: the take, the tree object, page 1, the listing, and the release. One fails, and what comes of two sweeps.
const FAILING: [(u64, &[u8]); 6] = [
    (1, b"1 failed\n2 swept 0 0\n"),
    (2, b"1 failed\n2 swept 0 0\n"),
    (3, b"1 failed\n2 swept 0 0\n"),
    (4, b"1 failed\n2 swept 0 0\n"),
    (5, b"1 swept 0 0\n2 busy tree:1 60\n"),
    (6, b"1 swept 0 0\n2 failed\n"),
];

/// Whether two sweeps write this where the call of this number fails.
fn fails_so(alloc: Global, call: u64, output: &[u8]) -> bool {
    match MemoryCloud::with_failures(alloc, &[call]) {
        Ok(mut cloud) => replay_over(
            alloc,
            b"sweep 1\nsweep 1\n",
            Status::Done,
            output,
            &mut cloud,
        ),
        Err(_) => false,
    }
}

/// Whether each row's call does so.
fn all_fail_so(alloc: Global, rows: &[(u64, &[u8])]) -> bool {
    for (call, output) in rows {
        if !fails_so(alloc, *call, output) {
            return false;
        }
    }
    true
}

#[test]
fn stops_at_a_call_that_fails(rt: HostRuntime) {
    assert!(rt; all_fail_so(rt.alloc(), &FAILING));
}

// ---- behind a cut

/// Adds the end of a line of the record of this key.
fn add_record(alloc: Global, text: &mut Vec<u8>, key: u64) -> bool {
    match format!(in alloc; "{key} 76\n") {
        Ok(line) => text.extend_from_slice(line.as_bytes()).is_ok(),
        Err(_) => false,
    }
}

/// Adds a line that begins so for each key from 10 to before this one.
fn add_lines(alloc: Global, text: &mut Vec<u8>, beginning: &[u8], end: u64) -> bool {
    for key in 10..end {
        if !(add_times(text, beginning, 1) && add_record(alloc, text, key)) {
            return false;
        }
    }
    true
}

/// Behind the insert of 64 records: they are applied to page 1, and one more is committed. It has to be cut, and the six calls of the next
/// checkpoint up to the reservation of page 2 are made.
const RESERVED: &[u8] =
    b"commit 1\nrun 1\ntree 1 1\nrun 1\ninsert 1 1 74 76\ncommit 1\nrun 1\ntree 1 1\nstep 1 plain\nstep 1 plain\nstep 1 plain\nstep 1 plain\nstep 1 plain\nstep 1 plain\n";

/// 80 lines of such a cut, and these behind them.
fn cut(alloc: Global, rest: &[u8]) -> Option<Vec<u8>> {
    let mut text = Vec::new(alloc);
    if add_times(&mut text, b"open 1 1\nrun 1\n", 1)
        && add_lines(alloc, &mut text, b"insert 1 1 ", 74)
        && add_times(&mut text, RESERVED, 1)
        && add_times(&mut text, rest, 1)
    {
        Some(text)
    } else {
        None
    }
}

/// Whether the replay of such a cut and of these lines writes this at its end.
fn goes_on(alloc: Global, rest: &[u8], end: &[u8]) -> bool {
    match cut(alloc, rest) {
        Some(text) => ends(alloc, text.as_slice(), Status::Done, end),
        None => false,
    }
}

/// Whether each row does so.
fn all_go_on(alloc: Global, rows: &[(&[u8], &[u8])]) -> bool {
    for (rest, end) in rows {
        if !goes_on(alloc, rest, end) {
            return false;
        }
    }
    true
}

const CRASHED: [(&[u8], &[u8]); 2] = [
    // Page 2 is put, and nothing leads there; the next checkpoint cuts to page 3, which stays.
    (
        b"step 1 plain\ncrash 1\nopen 2 2\nrun 2\nwait 60\ntree 2 1\nrun 2\nsweep 1\nsweep 1\npage 2 1 2\nrun 2\npage 2 1 3\nrun 2\n",
        b"81 called\n82 crashed\n83 begun\n84 opened 1\n85 waited\n86 begun\n87 done 1 1 0\n88 swept 2 1\n89 swept 2 0\n90 begun\n91 absent 2\n92 begun\n93 done 0 0 0\n",
    ),
    // The dead lease keeps sweeps off for 60 ticks. Another tree's sweep removes nothing, and the number of a removed page is not used again.
    (
        b"step 1 plain\ncrash 1\nsweep 1\nwait 59\nsweep 1\nwait 1\nsweep 2\nsweep 1\nsweep 1\nopen 2 2\nrun 2\ntree 2 1\nrun 2\nsweep 1\npage 2 1 2\nrun 2\n",
        b"81 called\n82 crashed\n83 busy tree:1 60\n84 waited\n85 busy tree:1 60\n86 waited\n87 swept 0 0\n88 swept 1 1\n89 swept 1 0\n90 begun\n91 opened 1\n92 begun\n93 done 1 1 0\n94 swept 2 0\n95 begun\n96 absent 2\n",
    ),
];

#[test]
fn removes_the_piece_of_a_cut_that_crashed(rt: HostRuntime) {
    assert!(rt; all_go_on(rt.alloc(), &CRASHED));
}

const LATE: [(&[u8], &[u8]); 2] = [
    // The holder of an old lease goes on behind a sweep that removed its piece: page 1 is not put. It makes its checkpoint anew.
    (
        b"step 1 plain\nwait 60\nsweep 1\nrun 1\nsweep 1\ntree 1 1\nrun 1\nsweep 1\nread 1 1 74\nrun 1\n",
        b"81 called\n82 waited\n83 swept 1 1\n84 late 60 60\n85 swept 1 0\n86 begun\n87 done 1 1 0\n88 swept 2 0\n89 begun\n90 value 76\n",
    ),
    // It has its piece still to put: that is not put either.
    (
        b"wait 60\nsweep 1\nrun 1\nsweep 1\n",
        b"81 waited\n82 swept 1 0\n83 late 60 60\n84 swept 1 0\n",
    ),
];

#[test]
fn a_holder_that_goes_on_behind_a_sweep_is_late(rt: HostRuntime) {
    assert!(rt; all_go_on(rt.alloc(), &LATE));
}

/// A sweep behind the next checkpoint, and a report.
const REPORTED: &[u8] =
    b"step 1 plain\ncrash 1\nopen 2 2\nrun 2\nwait 60\ntree 2 1\nrun 2\nsweep 1\nreport 1\n";

/// Adds the entries of the 65 records.
fn add_entries(alloc: Global, text: &mut Vec<u8>) -> bool {
    add_lines(alloc, text, b"1 1 1 insert ", 74) && add_times(text, b"1 1 2 insert 74 76\n", 1)
}

/// What it writes at its end: nothing is lost.
fn report(alloc: Global) -> Option<Vec<u8>> {
    let mut text = Vec::new(alloc);
    if add_times(&mut text, b"88 swept 2 1\n89 report 1\ncommitted 65\n", 1)
        && add_entries(alloc, &mut text)
        && add_times(&mut text, b"order 65\n", 1)
        && add_entries(alloc, &mut text)
        && add_times(&mut text, b"contents 65\n", 1)
        && add_lines(alloc, &mut text, b"", 75)
        && add_times(&mut text, b"left 0 0\n", 1)
    {
        Some(text)
    } else {
        None
    }
}

/// Whether the report behind a sweep is this.
fn keeps_all(alloc: Global) -> bool {
    match report(alloc) {
        Some(end) => goes_on(alloc, REPORTED, end.as_slice()),
        None => false,
    }
}

#[test]
fn a_sweep_keeps_all_records(rt: HostRuntime) {
    assert!(rt; keeps_all(rt.alloc()));
}
