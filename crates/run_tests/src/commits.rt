//! Commits that are made, that fail half through, and that another session finishes.

use crate::bench::{all_write, writes};
use schedule_run::status::Status;

/// A commit of one insert.
const FIRST: &[u8] = b"open 1 1\nrun 1\ninsert 1 1 6b 76\ncommit 1\nrun 1\n";

const FIRST_OUT: &[u8] = b"1 begun\n2 opened 1\n3 noted\n4 begun\n5 committed 1\n";

#[test]
fn replays_commits(rt: HostRuntime) {
    assert!(rt; writes(rt.alloc(), FIRST, Status::Done, FIRST_OUT));
}

/// A commit behind it, a checkpoint and a report.
const SECOND: &[u8] =
    b"open 1 1\nrun 1\ninsert 1 1 6b 76\ncommit 1\nrun 1\ninsert 1 1 6c 75\ncommit 1\nrun 1\ntree 1 1\nrun 1\nreport 1\n";

const SECOND_OUT: &[u8] =
    b"1 begun\n2 opened 1\n3 noted\n4 begun\n5 committed 1\n6 noted\n7 begun\n8 committed 2\n9 begun\n10 done 2 2 0\n11 report 1\ncommitted 2\n1 1 1 insert 6b 76\n1 1 2 insert 6c 75\norder 2\n1 1 1 insert 6b 76\n1 1 2 insert 6c 75\ncontents 2\n6b 76\n6c 75\nleft 0 0\n";

#[test]
fn reports_two_commits(rt: HostRuntime) {
    assert!(rt; writes(rt.alloc(), SECOND, Status::Done, SECOND_OUT));
}

/// The call that commits lands or not, and its client hears of no answer.
const IN_DOUBT: [(&[u8], Status, &[u8]); 2] = [
    (
        b"open 1 1\nrun 1\ninsert 1 1 6b 76\ncommit 1\nstep 1 plain\nstep 1 lost\ninsert 1 1 6c 76\nopen 1 1\nrun 1\nreport 1\n",
        Status::Done,
        b"1 begun\n2 opened 1\n3 noted\n4 begun\n5 called\n6 in-doubt\n7 refused 8 broken\n8 begun\n9 opened 2\n10 report 1\ncommitted 1\n1 1 1 insert 6b 76\norder 0\ncontents 0\nleft 0 1\n",
    ),
    (
        b"open 1 1\nrun 1\ninsert 1 1 6b 76\ncommit 1\nstep 1 plain\nstep 1 fail\ninsert 1 1 6c 76\nopen 1 1\nrun 1\nreport 1\n",
        Status::Done,
        b"1 begun\n2 opened 1\n3 noted\n4 begun\n5 called\n6 in-doubt\n7 refused 8 broken\n8 begun\n9 opened 2\n10 report 1\ncommitted 0\norder 0\ncontents 0\nleft 0 0\n",
    ),
];

#[test]
fn opens_a_session_in_doubt(rt: HostRuntime) {
    assert!(rt; all_write(rt.alloc(), &IN_DOUBT));
}

/// The call that fails is the one behind the commit, or the one before it.
const STAYS_OPEN: [(&[u8], Status, &[u8]); 2] = [
    (
        b"open 1 1\nrun 1\ninsert 1 1 6b 76\ncommit 1\nstep 1 plain\nstep 1 plain\nstep 1 fail\nopen 1 1\nrun 1\nreport 1\n",
        Status::Done,
        b"1 begun\n2 opened 1\n3 noted\n4 begun\n5 called\n6 called\n7 committed-open failed\n8 begun\n9 opened 2\n10 report 1\ncommitted 1\n1 1 1 insert 6b 76\norder 0\ncontents 0\nleft 0 1\n",
    ),
    (
        b"open 1 1\nrun 1\ninsert 1 1 6b 76\ncommit 1\nstep 1 fail\nreport 1\n",
        Status::Done,
        b"1 begun\n2 opened 1\n3 noted\n4 begun\n5 not-committed failed\n6 report 1\ncommitted 0\norder 0\ncontents 0\nleft 0 0\n",
    ),
];

#[test]
fn finishes_a_commit_that_stays_open(rt: HostRuntime) {
    assert!(rt; all_write(rt.alloc(), &STAYS_OPEN));
}

const HALF_THROUGH: &[u8] =
    b"open 1 1\nrun 1\ninsert 1 1 6b 76\ncommit 1\nstep 1 plain\nstep 1 plain\ncrash 1\nreport 1\nopen 2 1\nrun 2\nwait 600\nopen 2 1\nrun 2\ntree 2 1\nrun 2\nreport 1\n";

const HALF_THROUGH_OUT: &[u8] =
    b"1 begun\n2 opened 1\n3 noted\n4 begun\n5 called\n6 called\n7 crashed\n8 report 1\ncommitted 1\n1 1 1 insert 6b 76\norder 0\ncontents 0\nleft 1 0\n9 begun\n10 busy client:1 600\n11 waited\n12 begun\n13 opened 2\n14 begun\n15 done 1 1 0\n16 report 1\ncommitted 1\n1 1 1 insert 6b 76\norder 1\n1 1 1 insert 6b 76\ncontents 1\n6b 76\nleft 0 0\n";

#[test]
fn recovers_a_client_that_died_half_through_a_commit(rt: HostRuntime) {
    assert!(rt; writes(rt.alloc(), HALF_THROUGH, Status::Done, HALF_THROUGH_OUT));
}

const OPEN_HEAD: &[u8] =
    b"open 1 1\nrun 1\ninsert 1 1 61 76\ninsert 1 1 62 76\ninsert 1 1 63 76\ncommit 1\nstep 1 plain\nstep 1 plain\nstep 1 plain\nstep 1 plain\ncrash 1\nwait 600\nreport 1\nopen 1 1\nstep 1 plain\nstep 1 plain\nstep 1 give 1 2\nstep 1 give 1 2\nrun 1\nopen 1 1\nrun 1\nreport 1\n";

const OPEN_HEAD_OUT: &[u8] =
    b"1 begun\n2 opened 1\n3 noted\n4 noted\n5 noted\n6 begun\n7 called\n8 called\n9 called\n10 called\n11 crashed\n12 waited\n13 report 1\ncommitted 3\n1 1 1 insert 61 76\n1 1 1 insert 62 76\n1 1 1 insert 63 76\norder 0\ncontents 0\nleft 1 0\n14 begun\n15 called\n16 called\n17 called\n18 called\n19 waiting 2 3\n20 begun\n21 opened 2\n22 report 1\ncommitted 3\n1 1 1 insert 61 76\n1 1 1 insert 62 76\n1 1 1 insert 63 76\norder 0\ncontents 0\nleft 0 3\n";

#[test]
fn waits_for_the_records_of_an_open_head(rt: HostRuntime) {
    assert!(rt; writes(rt.alloc(), OPEN_HEAD, Status::Done, OPEN_HEAD_OUT));
}

const LOST_ATTEMPTS: &[u8] =
    b"open 1 1\nrun 1\ninsert 1 1 61 76\ncommit 1\nstep 1 plain\ncrash 1\nwait 600\nopen 1 1\nstep 1 plain\nstep 1 plain\nstep 1 plain\nstep 1 hide\ninsert 1 1 62 75\ncommit 1\nstep 1 plain\nstep 1 plain\ncrash 1\nwait 600\nopen 1 1\nrun 1\ntree 1 1\nrun 1\nreport 1\n";

const LOST_ATTEMPTS_OUT: &[u8] =
    b"1 begun\n2 opened 1\n3 noted\n4 begun\n5 called\n6 crashed\n7 waited\n8 begun\n9 called\n10 called\n11 called\n12 opened 2\n13 noted\n14 begun\n15 called\n16 called\n17 crashed\n18 waited\n19 begun\n20 opened 3\n21 begun\n22 done 1 1 0\n23 report 1\ncommitted 1\n1 2 1 insert 62 75\norder 1\n1 2 1 insert 62 75\ncontents 1\n62 75\nleft 0 0\n";

#[test]
fn leaves_records_of_lost_attempts_out(rt: HostRuntime) {
    assert!(rt; writes(rt.alloc(), LOST_ATTEMPTS, Status::Done, LOST_ATTEMPTS_OUT));
}
