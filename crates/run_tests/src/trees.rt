//! Checkpoints of trees and pages, beside crashes, late holders and gaps.

use crate::bench::{all_write, ends, writes};
use schedule_run::status::Status;

const GIVEN: &[u8] =
    b"open 1 1\nrun 1\ninsert 1 1 6b 76\ncommit 1\nrun 1\ntree 1 1\nstep 1 plain\nstep 1 plain\nstep 1 give 1 1 1\nrun 1\ntree 1 1\nstep 1 plain\nstep 1 plain\nstep 1 give 1\nrun 1\nreport 1\n";

const GIVEN_OUT: &[u8] =
    b"1 begun\n2 opened 1\n3 noted\n4 begun\n5 committed 1\n6 begun\n7 called\n8 called\n9 called\n10 done 1 1 0\n11 begun\n12 called\n13 called\n14 called\n15 done 0 1 0\n16 report 1\ncommitted 1\n1 1 1 insert 6b 76\norder 1\n1 1 1 insert 6b 76\ncontents 1\n6b 76\nleft 0 0\n";

#[test]
fn receives_what_the_schedule_gives(rt: HostRuntime) {
    assert!(rt; writes(rt.alloc(), GIVEN, Status::Done, GIVEN_OUT));
}

/// A checkpoint over a gap, and what is written at its end.
const GAP: &[u8] =
    b"open 1 1\nrun 1\ninsert 1 1 61 76\ninsert 1 1 62 76\ninsert 1 1 63 76\ncommit 1\nrun 1\ntree 1 1\nstep 1 plain\nstep 1 plain\nstep 1 give 2 3\nrun 1\ntree 1 1\nrun 1\n";

const GAP_OUT: &[u8] = b"11 called\n12 done 0 0 0\n13 begun\n14 done 3 3 0\n";

#[test]
fn leaves_a_gap_alone(rt: HostRuntime) {
    assert!(rt; ends(rt.alloc(), GAP, Status::Done, GAP_OUT));
}

/// A checkpoint behind one that died, and what is written at its end.
const CRASH: &[u8] =
    b"open 1 1\nrun 1\ninsert 1 1 6b 76\ncommit 1\nrun 1\ntree 1 1\nstep 1 plain\nstep 1 plain\nstep 1 plain\nstep 1 plain\nstep 1 plain\nstep 1 plain\nstep 1 plain\nstep 1 plain\ncrash 1\nopen 2 2\nrun 2\ntree 2 1\nrun 2\nwait 60\ntree 2 1\nrun 2\nreport 1\n";

const CRASH_OUT: &[u8] =
    b"14 called\n15 crashed\n16 begun\n17 opened 1\n18 begun\n19 busy tree:1 60\n20 waited\n21 begun\n22 done 0 1 0\n23 report 1\ncommitted 1\n1 1 1 insert 6b 76\norder 1\n1 1 1 insert 6b 76\ncontents 1\n6b 76\nleft 0 0\n";

#[test]
fn goes_on_behind_a_crash(rt: HostRuntime) {
    assert!(rt; ends(rt.alloc(), CRASH, Status::Done, CRASH_OUT));
}

/// A checkpoint of one client waits, and goes on behind another one's, or at the end of its lease.
const LATE: [(&[u8], Status, &[u8]); 5] = [
    (
        b"open 1 1\nrun 1\nopen 2 2\nrun 2\ninsert 1 1 6b 76\ncommit 1\nrun 1\ntree 1 1\nstep 1 plain\nstep 1 plain\nstep 1 plain\nstep 1 plain\nstep 1 plain\nwait 60\ntree 2 1\nrun 2\nrun 1\n",
        Status::Done,
        b"1 begun\n2 opened 1\n3 begun\n4 opened 1\n5 noted\n6 begun\n7 committed 1\n8 begun\n9 called\n10 called\n11 called\n12 called\n13 called\n14 waited\n15 begun\n16 done 1 1 0\n17 late 60 60\n",
    ),
    (
        b"open 1 1\nrun 1\nopen 2 2\nrun 2\ninsert 1 1 6b 76\ncommit 1\nrun 1\ntree 1 1\nstep 1 plain\nstep 1 plain\nstep 1 plain\nstep 1 plain\nstep 1 plain\nwait 60\ntree 2 1\nrun 2\nstep 1 fail\nrun 1\n",
        Status::Done,
        b"1 begun\n2 opened 1\n3 begun\n4 opened 1\n5 noted\n6 begun\n7 committed 1\n8 begun\n9 called\n10 called\n11 called\n12 called\n13 called\n14 waited\n15 begun\n16 done 1 1 0\n17 called\n18 failed\n",
    ),
    (
        b"open 1 1\nrun 1\nopen 2 2\nrun 2\ninsert 1 1 6b 76\ncommit 1\nrun 1\ntree 1 1\nstep 1 plain\nstep 1 plain\nstep 1 plain\nstep 1 plain\nstep 1 plain\nwait 31\nrun 1\n",
        Status::Done,
        b"1 begun\n2 opened 1\n3 begun\n4 opened 1\n5 noted\n6 begun\n7 committed 1\n8 begun\n9 called\n10 called\n11 called\n12 called\n13 called\n14 waited\n15 late 30 31\n",
    ),
    (
        b"open 1 1\nrun 1\nopen 2 2\nrun 2\ninsert 1 1 6b 76\ncommit 1\nrun 1\ntree 1 1\nstep 1 plain\nstep 1 plain\nstep 1 plain\nstep 1 plain\nstep 1 plain\nwait 30\nrun 1\n",
        Status::Done,
        b"1 begun\n2 opened 1\n3 begun\n4 opened 1\n5 noted\n6 begun\n7 committed 1\n8 begun\n9 called\n10 called\n11 called\n12 called\n13 called\n14 waited\n15 late 30 30\n",
    ),
    (
        b"open 1 1\nrun 1\nopen 2 2\nrun 2\ninsert 1 1 6b 76\ncommit 1\nrun 1\ntree 1 1\nstep 1 plain\nstep 1 plain\nstep 1 plain\nstep 1 plain\nstep 1 plain\nwait 29\nrun 1\n",
        Status::Done,
        b"1 begun\n2 opened 1\n3 begun\n4 opened 1\n5 noted\n6 begun\n7 committed 1\n8 begun\n9 called\n10 called\n11 called\n12 called\n13 called\n14 waited\n15 done 1 1 0\n",
    ),
];

#[test]
fn holds_a_late_holder_off(rt: HostRuntime) {
    assert!(rt; all_write(rt.alloc(), &LATE));
}

const PAGES: [(&[u8], Status, &[u8]); 2] = [
    // An update of a key with a pending entry follows that entry to the tree queue.
    (
        b"open 1 1\nrun 1\ninsert 1 1 6b 76\ncommit 1\nrun 1\nupdate 1 1 6b 77\ncommit 1\nrun 1\npage 1 1 1\nrun 1\ntree 1 1\nrun 1\nreport 1\n",
        Status::Done,
        b"1 begun\n2 opened 1\n3 noted\n4 begun\n5 committed 1\n6 noted\n7 begun\n8 committed 2\n9 begun\n10 done 0 0 0\n11 begun\n12 done 2 2 0\n13 report 1\ncommitted 2\n1 1 1 insert 6b 76\n1 1 2 update 6b 77\norder 2\n1 1 1 insert 6b 76\n1 1 2 update 6b 77\ncontents 1\n6b 77\nleft 0 0\n",
    ),
    // Another client's update waits in the page's queue.
    (
        b"open 1 1\nrun 1\nopen 2 2\nrun 2\ninsert 1 1 6b 76\ncommit 1\nrun 1\ntree 1 1\nrun 1\nupdate 2 1 6b 77\ncommit 2\nrun 2\npage 1 1 1\nrun 1\nreport 1\npage 1 1 2\nrun 1\npage 1 1 0\n",
        Status::Done,
        b"1 begun\n2 opened 1\n3 begun\n4 opened 1\n5 noted\n6 begun\n7 committed 1\n8 begun\n9 done 1 1 0\n10 noted\n11 begun\n12 committed 1\n13 begun\n14 done 1 1 0\n15 report 1\ncommitted 2\n1 1 1 insert 6b 76\n2 1 1 update 6b 77\norder 2\n1 1 1 insert 6b 76\n2 1 1 update 6b 77\ncontents 1\n6b 77\nleft 0 0\n16 begun\n17 absent 2\n18 refused 5 bad-number\n",
    ),
];

#[test]
fn checkpoints_pages(rt: HostRuntime) {
    assert!(rt; all_write(rt.alloc(), &PAGES));
}
