//! Replays of look-ups by attribute.

use crate::bench::{all_write, ends};
use crate::sizes::add_times;
use schedule_run::status::Status;
use std::alloc::Global;

const LOOKUPS: [(&[u8], Status, &[u8]); 13] = [
    // The record that was put, until it has another attribute.
    (
        b"open 1 1\nrun 1\nput 1 1 6b 76 61\ncommit 1\nrun 1\ntree 1 1\nrun 1\ntree 1 9\nrun 1\nlookup 1 1 61\nrun 1\nput 1 1 6b 77 62\ncommit 1\nrun 1\ntree 1 1\nrun 1\ntree 1 9\nrun 1\nlookup 1 1 61\nrun 1\nlookup 1 1 62\nrun 1\n",
        Status::Done,
        b"1 begun\n2 opened 1\n3 noted\n4 begun\n5 committed 1\n6 begun\n7 done 1 1 0\n8 begun\n9 done 1 1 0\n10 begun\n11 scan 1 6b=76\n12 noted\n13 begun\n14 committed 2\n15 begun\n16 done 1 1 0\n17 begun\n18 done 1 1 0\n19 begun\n20 scan 0\n21 begun\n22 scan 1 6b=77\n",
    ),
    // An entry of 64 bytes.
    (
        b"open 1 1\nrun 1\nput 1 8 6b6b6b6b6b6b6b6b6b6b6b6b6b6b6b6b6b6b6b6b6b6b6b6b6b6b6b6b6b6b6b - 6161616161616161616161616161616161616161616161616161616161616161\ncommit 1\nrun 1\ntree 1 8\nrun 1\ntree 1 16\nrun 1\nlookup 1 8 6161616161616161616161616161616161616161616161616161616161616161\nrun 1\n",
        Status::Done,
        b"1 begun\n2 opened 1\n3 noted\n4 begun\n5 committed 1\n6 begun\n7 done 1 1 0\n8 begun\n9 done 1 1 0\n10 begun\n11 scan 1 6b6b6b6b6b6b6b6b6b6b6b6b6b6b6b6b6b6b6b6b6b6b6b6b6b6b6b6b6b6b6b=-\n",
    ),
    // Attributes that begin alike, keys that begin as an attribute goes on, and bytes that are the greatest.
    (
        b"open 1 1\nrun 1\nput 1 1 6b 76 6162\nput 1 1 626b 77 61\nput 1 1 6c 78 ff\nput 1 1 6d 79 ffff\nput 1 1 6e 7a ffffffffffffffffffffffffffffffffffffffffffffffffffffffffffffffff\ncommit 1\nrun 1\ntree 1 1\nrun 1\ntree 1 9\nrun 1\nlookup 1 1 61\nrun 1\nlookup 1 1 6162\nrun 1\nlookup 1 1 62\nrun 1\nlookup 1 1 ff\nrun 1\nlookup 1 1 ffff\nrun 1\nlookup 1 1 ffffffffffffffffffffffffffffffffffffffffffffffffffffffffffffffff\nrun 1\n",
        Status::Done,
        b"1 begun\n2 opened 1\n3 noted\n4 noted\n5 noted\n6 noted\n7 noted\n8 begun\n9 committed 1\n10 begun\n11 done 5 5 0\n12 begun\n13 done 5 5 0\n14 begun\n15 scan 1 626b=77\n16 begun\n17 scan 1 6b=76\n18 begun\n19 scan 0\n20 begun\n21 scan 1 6c=78\n22 begun\n23 scan 1 6d=79\n24 begun\n25 scan 1 6e=7a\n",
    ),
    // What the session noted and committed itself, and what it noted and dropped.
    (
        b"open 1 1\nrun 1\nput 1 1 6c 78 61\nput 1 1 6b 76 61\nlookup 1 1 61\nrun 1\ncommit 1\nrun 1\nlookup 1 1 61\nrun 1\ninsert 1 1 6b 77\nlookup 1 1 61\nrun 1\nabort 1\nlookup 1 1 61\nrun 1\n",
        Status::Done,
        b"1 begun\n2 opened 1\n3 noted\n4 noted\n5 begun\n6 scan 2 6b=76 6c=78\n7 begun\n8 committed 1\n9 begun\n10 scan 2 6b=76 6c=78\n11 noted\n12 begun\n13 scan 1 6c=78\n14 aborted\n15 begun\n16 scan 2 6b=76 6c=78\n",
    ),
    // What another session finds: nothing before the checkpoints of both trees.
    (
        b"open 1 1\nrun 1\nopen 2 2\nrun 2\nput 1 1 6b 76 61\ncommit 1\nrun 1\nlookup 2 1 61\nrun 2\ntree 1 9\nrun 1\nlookup 2 1 61\nrun 2\ntree 1 1\nrun 1\nlookup 2 1 61\nrun 2\n",
        Status::Done,
        b"1 begun\n2 opened 1\n3 begun\n4 opened 1\n5 noted\n6 begun\n7 committed 1\n8 begun\n9 scan 0\n10 begun\n11 done 1 1 0\n12 begun\n13 scan 0\n14 begun\n15 done 1 1 0\n16 begun\n17 scan 1 6b=76\n",
    ),
    // An insert without an attribute takes it away, an update keeps it, a deletion takes the record away.
    (
        b"open 1 1\nrun 1\nput 1 1 6b 76 61\nput 1 1 6c 78 61\ncommit 1\nrun 1\ntree 1 1\nrun 1\ntree 1 9\nrun 1\ninsert 1 1 6b 77\nupdate 1 1 6c 79\ncommit 1\nrun 1\nlookup 1 1 61\nrun 1\ntree 1 1\nrun 1\npage 1 1 1\nrun 1\nlookup 1 1 61\nrun 1\ndelete 1 1 6c\ncommit 1\nrun 1\ntree 1 1\nrun 1\nlookup 1 1 61\nrun 1\n",
        Status::Done,
        b"1 begun\n2 opened 1\n3 noted\n4 noted\n5 begun\n6 committed 1\n7 begun\n8 done 2 2 0\n9 begun\n10 done 2 2 0\n11 noted\n12 noted\n13 begun\n14 committed 2\n15 begun\n16 scan 1 6c=79\n17 begun\n18 done 1 1 0\n19 begun\n20 done 1 1 0\n21 begun\n22 scan 1 6c=79\n23 noted\n24 begun\n25 committed 3\n26 begun\n27 done 1 1 0\n28 begun\n29 scan 0\n",
    ),
    // Of an entry its key alone counts: one that is updated, one that is deleted, one of no record, and keys that are no entries.
    (
        b"open 1 1\nrun 1\nput 1 1 6b 76 61\nput 1 1 6c 78 61\ncommit 1\nrun 1\ntree 1 1\nrun 1\ntree 1 9\nrun 1\nupdate 1 9 01616b 7a\ndelete 1 9 01616c\ninsert 1 9 01617a -\ninsert 1 9 0161 -\ninsert 1 9 6161 -\ncommit 1\nrun 1\ntree 1 9\nrun 1\npage 1 9 1\nrun 1\nlookup 1 1 61\nrun 1\nscan 1 9 - -\nrun 1\n",
        Status::Done,
        b"1 begun\n2 opened 1\n3 noted\n4 noted\n5 begun\n6 committed 1\n7 begun\n8 done 2 2 0\n9 begun\n10 done 2 2 0\n11 noted\n12 noted\n13 noted\n14 noted\n15 noted\n16 begun\n17 committed 2\n18 begun\n19 done 4 4 0\n20 begun\n21 done 1 1 0\n22 begun\n23 scan 1 6b=76\n24 begun\n25 scan 4 0161=- 01616b=7a 01617a=- 6161=-\n",
    ),
    // Refused by the session, by the tree, by the attribute and by the state, in this order.
    (
        b"lookup 17 1 -\nlookup 2 0 -\nlookup 2 17 -\nlookup 2 9 -\nlookup 2 8 -\nlookup 2 8 616161616161616161616161616161616161616161616161616161616161616161\nlookup 2 8 6161616161616161616161616161616161616161616161616161616161616161\nopen 1 1\nlookup 1 1 61\nrun 1\nlookup 1 9 61\nlookup 1 1 -\nlookup 1 1 61\nlookup 1 1 61\nrun 1\nput 1 1 6b 76 61\ncommit 1\nstep 1 plain\nstep 1 plain\nstep 1 lost\nlookup 1 9 61\nlookup 1 1 -\nlookup 1 1 61\n",
        Status::Done,
        b"1 refused 5 bad-number\n2 refused 5 bad-number\n3 refused 5 bad-number\n4 refused 5 bad-number\n5 refused 11 bad-attr\n6 refused 11 bad-attr\n7 refused 6 not-open\n8 begun\n9 refused 7 at-work\n10 opened 1\n11 refused 5 bad-number\n12 refused 11 bad-attr\n13 begun\n14 refused 7 at-work\n15 scan 0\n16 noted\n17 begun\n18 called\n19 called\n20 in-doubt\n21 refused 5 bad-number\n22 refused 11 bad-attr\n23 refused 8 broken\n",
    ),
    // Its calls: the tree object and the leaf of the index, then those of the tree; and the leaves alone behind that.
    (
        b"open 1 1\nrun 1\nput 1 1 6b 76 61\ncommit 1\nrun 1\ntree 1 1\nrun 1\ntree 1 9\nrun 1\nlookup 1 1 61\nstep 1 plain\nstep 1 plain\nstep 1 plain\nstep 1 plain\nlookup 1 1 61\nstep 1 plain\nstep 1 plain\nlookup 1 1 61\nstep 1 plain\nstep 1 fail\nlookup 1 1 61\nstep 1 old 0\nlookup 1 1 61\ncrash 1 done\nlookup 1 1 61\n",
        Status::Done,
        b"1 begun\n2 opened 1\n3 noted\n4 begun\n5 committed 1\n6 begun\n7 done 1 1 0\n8 begun\n9 done 1 1 0\n10 begun\n11 called\n12 called\n13 called\n14 scan 1 6b=76\n15 begun\n16 called\n17 scan 1 6b=76\n18 begun\n19 called\n20 failed\n21 begun\n22 stale 1 1 0\n23 begun\n24 crashed\n25 refused 6 not-open\n",
    ),
    (b"lookup 1 1\n", Status::BadLine, b"bad line 1\n"),
    (b"lookup 1 1 6\n", Status::BadLine, b"bad line 1\n"),
    (b"lookup 1 1 61 61\n", Status::BadLine, b"bad line 1\n"),
    (b"lookup 1 61\n", Status::BadLine, b"bad line 1\n"),
];

/// A commit, and the checkpoints of both trees.
const FOLDS: &[u8] = b"commit 1\nrun 1\ntree 1 1\nrun 1\ntree 1 9\nrun 1\n";

/// A commit, a look-up by another session, and between its first two calls the checkpoint that cuts the leaf of the index.
const CUTS: &[u8] = b"commit 1\nrun 1\nlookup 2 1 61\nstep 2 plain\ntree 1 9\nrun 1\nrun 2\n";

#[test]
fn replays_look_ups(rt: HostRuntime) {
    assert!(rt; all_write(rt.alloc(), &LOOKUPS));
}

/// Adds the put of a record whose key has the hexadecimal digits of a number.
fn add_put(alloc: Global, input: &mut Vec<u8>, key: u64) -> bool {
    match format!(in alloc; "put 1 1 {key} 76 61\n") {
        Ok(line) => input.extend_from_slice(line.as_bytes()).is_ok(),
        Err(_) => false,
    }
}

/// Adds puts from one key on and below another, and the lines behind them.
fn add_puts(alloc: Global, input: &mut Vec<u8>, first: u64, bound: u64, behind: &[u8]) -> bool {
    for key in first..bound {
        if !add_put(alloc, input, key) {
            return false;
        }
    }
    add_times(input, behind, 1)
}

/// Adds a record as it is found.
fn add_found(alloc: Global, output: &mut Vec<u8>, key: u64) -> bool {
    match format!(in alloc; " {key}=76") {
        Ok(record) => output.extend_from_slice(record.as_bytes()).is_ok(),
        Err(_) => false,
    }
}

/// Adds the records from 1000 on and below a bound.
fn add_all_found(alloc: Global, output: &mut Vec<u8>, bound: u64) -> bool {
    for key in 1_000..bound {
        if !add_found(alloc, output, key) {
            return false;
        }
    }
    add_times(output, b"\n", 1)
}

/// Whether a look-up behind 300 puts, whose entries fill several leaves, finds each record once, in order.
fn finds_over_leaves(alloc: Global) -> bool {
    let mut input = Vec::new(alloc);
    let mut end = Vec::new(alloc);
    add_times(&mut input, b"open 1 1\nrun 1\n", 1)
        && add_puts(alloc, &mut input, 1_100, 1_200, FOLDS)
        && add_puts(alloc, &mut input, 1_000, 1_100, FOLDS)
        && add_puts(alloc, &mut input, 1_200, 1_300, FOLDS)
        && add_times(&mut input, b"lookup 1 1 61\nrun 1\n", 1)
        && add_times(&mut end, b"321 begun\n322 scan 300", 1)
        && add_all_found(alloc, &mut end, 1_300)
        && ends(alloc, input.as_slice(), Status::Done, end.as_slice())
}

#[test]
fn looks_up_over_leaves(rt: HostRuntime) {
    assert!(rt; finds_over_leaves(rt.alloc()));
}

/// Whether a look-up finds each record once while a checkpoint cuts the leaf that it gets next; of the ten new entries it sees no record yet.
fn finds_beside_a_cut(alloc: Global) -> bool {
    let mut input = Vec::new(alloc);
    let mut end = Vec::new(alloc);
    add_times(&mut input, b"open 1 1\nrun 1\nopen 2 2\nrun 2\n", 1)
        && add_puts(alloc, &mut input, 1_000, 1_060, FOLDS)
        && add_puts(alloc, &mut input, 1_060, 1_070, CUTS)
        && add_times(
            &mut end,
            b"83 begun\n84 called\n85 begun\n86 done 10 10 0\n87 scan 60",
            1,
        )
        && add_all_found(alloc, &mut end, 1_060)
        && ends(alloc, input.as_slice(), Status::Done, end.as_slice())
}

#[test]
fn looks_up_beside_a_cut(rt: HostRuntime) {
    assert!(rt; finds_beside_a_cut(rt.alloc()));
}
