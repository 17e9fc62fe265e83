//! Policies, and the checkpoints that sessions make by them.

use crate::bench::{all_write, replay_over};
use memory_cloud::memory::MemoryCloud;
use schedule_run::status::Status;
use std::alloc::Global;

/// A writer checkpoints the queues to which it sent.
const WRITERS: [(&[u8], Status, &[u8]); 4] = [
    (
        b"open 1 1\nrun 1\npolicy 1 writer 2\ninsert 1 1 6b 76\ncommit 1\nrun 1\nwork 1\ninsert 1 1 6c 76\ncommit 1\nrun 1\nwork 1\nreport 1\n",
        Status::Done,
        b"1 begun\n2 opened 1\n3 noted\n4 noted\n5 begun\n6 committed 1\n7 worked 0 0\n8 noted\n9 begun\n10 committed 2\n11 worked 1 0\n12 report 1\ncommitted 2\n1 1 1 insert 6b 76\n1 1 2 insert 6c 76\norder 2\n1 1 1 insert 6b 76\n1 1 2 insert 6c 76\ncontents 2\n6b 76\n6c 76\nleft 0 0\n",
    ),
    // Another session has the tree: its checkpoint is passed over, is no checkpoint that was done, and is due again.
    (
        b"open 1 1\nrun 1\npolicy 1 writer 2\ninsert 1 1 6b 76\ncommit 1\nrun 1\nwork 1\ninsert 1 1 6c 76\ncommit 1\nrun 1\nopen 2 2\nrun 2\ntree 2 1\nstep 2 plain\nwork 1\npolicy 1 writer 57\nrun 2\nwork 1\nwork 1\n",
        Status::Done,
        b"1 begun\n2 opened 1\n3 noted\n4 noted\n5 begun\n6 committed 1\n7 worked 0 0\n8 noted\n9 begun\n10 committed 2\n11 begun\n12 opened 1\n13 begun\n14 called\n15 worked 0 1\n16 refused 5 bad-number\n17 done 2 2 0\n18 worked 1 0\n19 worked 0 0\n",
    ),
    // Of two trees that one is due to which two were sent.
    (
        b"open 1 1\nrun 1\npolicy 1 writer 2\ninsert 1 1 6b 76\ninsert 1 1 6c 76\ninsert 1 2 6b 76\ncommit 1\nrun 1\nwork 1\nreport 1\nreport 2\ninsert 1 2 6c 76\ncommit 1\nrun 1\nwork 1\nreport 2\n",
        Status::Done,
        b"1 begun\n2 opened 1\n3 noted\n4 noted\n5 noted\n6 noted\n7 begun\n8 committed 1\n9 worked 1 0\n10 report 1\ncommitted 2\n1 1 1 insert 6b 76\n1 1 1 insert 6c 76\norder 2\n1 1 1 insert 6b 76\n1 1 1 insert 6c 76\ncontents 2\n6b 76\n6c 76\nleft 0 0\n11 report 2\ncommitted 1\n1 1 1 insert 6b 76\norder 0\ncontents 0\nleft 0 1\n12 noted\n13 begun\n14 committed 2\n15 worked 1 0\n16 report 2\ncommitted 2\n1 1 1 insert 6b 76\n1 1 2 insert 6c 76\norder 2\n1 1 1 insert 6b 76\n1 1 2 insert 6c 76\ncontents 2\n6b 76\n6c 76\nleft 0 0\n",
    ),
    // One that is passed over does not stop those behind it.
    (
        b"open 1 1\nrun 1\npolicy 1 writer 1\ninsert 1 1 6b 76\ninsert 1 2 6b 76\ncommit 1\nrun 1\nopen 2 2\nrun 2\ntree 2 1\nstep 2 plain\nwork 1\ntree 1 2\nrun 1\nrun 2\nwork 1\n",
        Status::Done,
        b"1 begun\n2 opened 1\n3 noted\n4 noted\n5 noted\n6 begun\n7 committed 1\n8 begun\n9 opened 1\n10 begun\n11 called\n12 worked 1 1\n13 begun\n14 done 0 0 0\n15 done 1 1 0\n16 worked 1 0\n",
    ),
];

#[test]
fn a_writer_checkpoints_what_it_sent_to(rt: HostRuntime) {
    assert!(rt; all_write(rt.alloc(), &WRITERS));
}

/// A reader checkpoints the leaves that it got.
const READERS: [(&[u8], Status, &[u8]); 2] = [
    // Two reads of a leaf behind its last checkpoint make it due.
    (
        b"open 1 1\nrun 1\nopen 2 2\nrun 2\npolicy 2 reader 2\ninsert 1 1 6b 76\ncommit 1\nrun 1\ntree 1 1\nrun 1\nupdate 1 1 6b 77\ncommit 1\nrun 1\nread 2 1 6b\nrun 2\nwork 2\nread 2 1 6b\nrun 2\nwork 2\nread 2 1 6b\nrun 2\nwork 2\n",
        Status::Done,
        b"1 begun\n2 opened 1\n3 begun\n4 opened 1\n5 noted\n6 noted\n7 begun\n8 committed 1\n9 begun\n10 done 1 1 0\n11 noted\n12 begun\n13 committed 2\n14 begun\n15 value 76\n16 worked 0 0\n17 begun\n18 value 76\n19 worked 1 0\n20 begun\n21 value 77\n22 worked 0 0\n",
    ),
    // Page 1 was got also where it is absent, and is a leaf then.
    (
        b"open 1 1\nrun 1\npolicy 1 reader 1\nread 1 1 6b\nrun 1\nwork 1\nwork 1\n",
        Status::Done,
        b"1 begun\n2 opened 1\n3 noted\n4 begun\n5 none\n6 worked 1 0\n7 worked 0 0\n",
    ),
];

#[test]
fn a_reader_checkpoints_what_it_got(rt: HostRuntime) {
    assert!(rt; all_write(rt.alloc(), &READERS));
}

/// A watchdog checkpoints what was checkpointed least often.
const WATCHDOGS: [(&[u8], Status, &[u8]); 2] = [
    // It goes round: the tree that was checkpointed least often comes first.
    (
        b"open 1 1\nrun 1\npolicy 1 watchdog 1\ninsert 1 1 6b 76\ninsert 1 2 6b 76\ncommit 1\nrun 1\nwork 1\nreport 1\nreport 2\nwork 1\nreport 2\ninsert 1 3 6b 76\ncommit 1\nrun 1\nwork 1\nreport 3\ntree 1 1\nrun 1\ninsert 1 1 6c 76\ninsert 1 2 6c 76\ncommit 1\nrun 1\nwork 1\ntree 1 1\nrun 1\ntree 1 2\nrun 1\n",
        Status::Done,
        b"1 begun\n2 opened 1\n3 noted\n4 noted\n5 noted\n6 begun\n7 committed 1\n8 worked 1 0\n9 report 1\ncommitted 1\n1 1 1 insert 6b 76\norder 1\n1 1 1 insert 6b 76\ncontents 1\n6b 76\nleft 0 0\n10 report 2\ncommitted 1\n1 1 1 insert 6b 76\norder 0\ncontents 0\nleft 0 1\n11 worked 1 0\n12 report 2\ncommitted 1\n1 1 1 insert 6b 76\norder 1\n1 1 1 insert 6b 76\ncontents 1\n6b 76\nleft 0 0\n13 noted\n14 begun\n15 committed 2\n16 worked 1 0\n17 report 3\ncommitted 1\n1 1 2 insert 6b 76\norder 1\n1 1 2 insert 6b 76\ncontents 1\n6b 76\nleft 0 0\n18 begun\n19 done 0 0 0\n20 noted\n21 noted\n22 begun\n23 committed 3\n24 worked 1 0\n25 begun\n26 done 1 1 0\n27 begun\n28 done 0 0 0\n",
    ),
    // One of more than there are takes them all.
    (
        b"open 1 1\nrun 1\npolicy 1 watchdog 56\ninsert 1 1 6b 76\ninsert 1 2 6b 76\ncommit 1\nrun 1\nwork 1\nwork 1\n",
        Status::Done,
        b"1 begun\n2 opened 1\n3 noted\n4 noted\n5 noted\n6 begun\n7 committed 1\n8 worked 2 0\n9 worked 2 0\n",
    ),
];

#[test]
fn a_watchdog_checkpoints_the_least_kept(rt: HostRuntime) {
    assert!(rt; all_write(rt.alloc(), &WATCHDOGS));
}

/// An owner checkpoints the pages of its client.
const OWNERS: [(&[u8], Status, &[u8]); 3] = [
    // Each client has its pages, by what is left of the page's number and of its own.
    (
        b"open 1 1\nrun 1\nopen 2 2\nrun 2\npolicy 1 owner 2\npolicy 2 owner 2\ninsert 1 1 6b 76\ncommit 1\nrun 1\nwork 1\ninsert 2 1 6c 76\ncommit 2\nrun 2\nwork 2\nupdate 1 1 6c 77\ncommit 1\nrun 1\nwork 1\nread 2 1 6c\nrun 2\nwork 2\n",
        Status::Done,
        b"1 begun\n2 opened 1\n3 begun\n4 opened 1\n5 noted\n6 noted\n7 noted\n8 begun\n9 committed 1\n10 worked 0 0\n11 noted\n12 begun\n13 committed 1\n14 worked 1 0\n15 noted\n16 begun\n17 committed 2\n18 worked 1 0\n19 begun\n20 value 77\n21 worked 1 0\n",
    ),
    // A tree's own queue comes before those of its pages.
    (
        b"open 1 1\nrun 1\nopen 2 2\nrun 2\npolicy 1 owner 1\ninsert 1 1 6b 76\ncommit 1\nrun 1\nwork 1\nupdate 1 1 6b 61\ncommit 1\nrun 1\ninsert 2 1 6b 62\ncommit 2\nrun 2\nwork 1\nreport 1\n",
        Status::Done,
        b"1 begun\n2 opened 1\n3 begun\n4 opened 1\n5 noted\n6 noted\n7 begun\n8 committed 1\n9 worked 1 0\n10 noted\n11 begun\n12 committed 2\n13 noted\n14 begun\n15 committed 1\n16 worked 2 0\n17 report 1\ncommitted 3\n1 1 1 insert 6b 76\n1 1 2 update 6b 61\n2 1 1 insert 6b 62\norder 3\n1 1 1 insert 6b 76\n2 1 1 insert 6b 62\n1 1 2 update 6b 61\ncontents 1\n6b 61\nleft 0 0\n",
    ),
    // A ledger keeps the client of its policy, also where its session opens another one.
    (
        b"open 1 1\nrun 1\npolicy 1 owner 2\ninsert 1 1 6b 76\ncommit 1\nstep 1 plain\nstep 1 fail\nopen 1 2\nrun 1\ninsert 1 1 6b 76\ncommit 1\nrun 1\nwork 1\npolicy 1 owner 2\ninsert 1 1 6c 76\ncommit 1\nrun 1\nwork 1\n",
        Status::Done,
        b"1 begun\n2 opened 1\n3 noted\n4 noted\n5 begun\n6 called\n7 in-doubt\n8 begun\n9 opened 1\n10 noted\n11 begun\n12 committed 1\n13 worked 0 0\n14 noted\n15 noted\n16 begun\n17 committed 2\n18 worked 1 0\n",
    ),
];

#[test]
fn an_owner_checkpoints_its_pages(rt: HostRuntime) {
    assert!(rt; all_write(rt.alloc(), &OWNERS));
}

/// What is refused, and how long a ledger lasts.
const STATES: [(&[u8], Status, &[u8]); 5] = [
    // The numbers come before the state.
    (
        b"work 1\npolicy 1 writer 2\npolicy 1 writer 0\npolicy 17 writer 2\nwork 17\nopen 1 1\npolicy 1 writer 2\npolicy 1 writer 57\nwork 1\nrun 1\nwork 1\npolicy 1 owner 56\nwork 1\nrun 1\npolicy 1 nobody 2\n",
        Status::BadLine,
        b"1 refused 6 not-open\n2 refused 6 not-open\n3 refused 5 bad-number\n4 refused 5 bad-number\n5 refused 5 bad-number\n6 begun\n7 refused 7 at-work\n8 refused 5 bad-number\n9 refused 7 at-work\n10 opened 1\n11 worked 0 0\n12 noted\n13 worked 0 0\n14 refused 10 not-working\nbad line 15\n",
    ),
    // A session in doubt keeps its ledger, which counts what its next opening sends.
    (
        b"open 1 1\nrun 1\npolicy 1 writer 1\ninsert 1 1 6b 76\ncommit 1\nstep 1 plain\nstep 1 lost\npolicy 1 writer 1\nwork 1\nopen 1 1\nrun 1\nwork 1\nwork 1\n",
        Status::Done,
        b"1 begun\n2 opened 1\n3 noted\n4 noted\n5 begun\n6 called\n7 in-doubt\n8 refused 8 broken\n9 refused 8 broken\n10 begun\n11 opened 2\n12 worked 1 0\n13 worked 0 0\n",
    ),
    // A close takes it away, and so does a crash.
    (
        b"open 1 1\nrun 1\npolicy 1 writer 1\ninsert 1 1 6b 76\ncommit 1\nrun 1\nclose 1\nrun 1\nopen 1 1\nrun 1\nwork 1\npolicy 1 writer 1\ninsert 1 1 6c 76\ncommit 1\nrun 1\ncrash 1\nopen 1 2\nrun 1\nwork 1\n",
        Status::Done,
        b"1 begun\n2 opened 1\n3 noted\n4 noted\n5 begun\n6 committed 1\n7 begun\n8 closed\n9 begun\n10 opened 2\n11 worked 0 0\n12 noted\n13 noted\n14 begun\n15 committed 1\n16 crashed\n17 begun\n18 opened 1\n19 worked 0 0\n",
    ),
    // A new policy has no notes; what was noted to be committed stays.
    (
        b"open 1 1\nrun 1\npolicy 1 writer 1\ninsert 1 1 6b 76\ncommit 1\nrun 1\npolicy 1 reader 1\nwork 1\ninsert 1 1 6c 76\npolicy 1 writer 1\nwork 1\ncommit 1\nrun 1\nwork 1\n",
        Status::Done,
        b"1 begun\n2 opened 1\n3 noted\n4 noted\n5 begun\n6 committed 1\n7 noted\n8 worked 0 0\n9 noted\n10 noted\n11 worked 0 0\n12 begun\n13 committed 2\n14 worked 1 0\n",
    ),
    // The session's own checkpoints count where they are done, and not where they fail or come late.
    (
        b"open 1 1\nrun 1\npolicy 1 writer 1\ninsert 1 1 6b 76\ncommit 1\nrun 1\ntree 1 1\nstep 1 fail\nwork 1\ninsert 1 1 6c 76\ncommit 1\nrun 1\ntree 1 1\nrun 1\nwork 1\ninsert 1 1 6d 76\ncommit 1\nrun 1\ntree 1 1\nstep 1 plain\nwait 60\nrun 1\nwork 1\n",
        Status::Done,
        b"1 begun\n2 opened 1\n3 noted\n4 noted\n5 begun\n6 committed 1\n7 begun\n8 failed\n9 worked 1 0\n10 noted\n11 begun\n12 committed 2\n13 begun\n14 done 1 1 0\n15 worked 0 0\n16 noted\n17 begun\n18 committed 3\n19 begun\n20 called\n21 waited\n22 late 60 60\n23 worked 1 0\n",
    ),
];

#[test]
fn policies_by_state(rt: HostRuntime) {
    assert!(rt; all_write(rt.alloc(), &STATES));
}

/// Whether this input writes this where the cloud's call of this number fails.
fn writes_failing(alloc: Global, input: &[u8], call: u64, output: &[u8]) -> bool {
    match MemoryCloud::with_failures(alloc, &[call]) {
        Ok(mut cloud) => replay_over(alloc, input, Status::Done, output, &mut cloud),
        Err(_) => false,
    }
}

/// Whether it writes what each row says where the call fails that the row names.
fn all_write_failing(alloc: Global, input: &[u8], rows: &[(u64, &[u8])]) -> bool {
    for (call, output) in rows {
        if !writes_failing(alloc, input, *call, output) {
            return false;
        }
    }
    true
}

/// A writer works twice behind one commit, whose last call is the ninth.
const WORKS_TWICE: &[u8] =
    b"open 1 1\nrun 1\npolicy 1 writer 1\ninsert 1 1 6b 76\ncommit 1\nrun 1\nwork 1\nwork 1\nreport 1\n";

/// Where a checkpoint of its first work failed it is passed over, and the second makes it.
const PASSED_FIRST: &[u8] =
    b"1 begun\n2 opened 1\n3 noted\n4 noted\n5 begun\n6 committed 1\n7 worked 0 1\n8 worked 1 0\n9 report 1\ncommitted 1\n1 1 1 insert 6b 76\norder 1\n1 1 1 insert 6b 76\ncontents 1\n6b 76\nleft 0 0\n";

/// The take of the tree, the receive, the put of the leaf; and the deletion, which leaves a message behind a checkpoint that is done.
const WORK_FAILED: [(u64, &[u8]); 4] = [
    (10, PASSED_FIRST),
    (12, PASSED_FIRST),
    (15, PASSED_FIRST),
    (
        18,
        b"1 begun\n2 opened 1\n3 noted\n4 noted\n5 begun\n6 committed 1\n7 worked 1 0\n8 worked 0 0\n9 report 1\ncommitted 1\n1 1 1 insert 6b 76\norder 1\n1 1 1 insert 6b 76\ncontents 1\n6b 76\nleft 0 1\n",
    ),
];

#[test]
fn a_checkpoint_that_fails_in_a_work_is_passed_over(rt: HostRuntime) {
    assert!(rt; all_write_failing(rt.alloc(), WORKS_TWICE, &WORK_FAILED));
}
