//! Replays of many kinds of lines.

use crate::bench::{all_write, writes};
use schedule_run::status::Status;

/// The first worked example, and what it writes.
const WORKED: &[u8] =
    b"open 1 1\nrun 1\ninsert 1 1 6b 76\ncommit 1\nrun 1\ntree 1 1\nrun 1\nreport 1\n";

const WORKED_OUT: &[u8] =
    b"1 begun\n2 opened 1\n3 noted\n4 begun\n5 committed 1\n6 begun\n7 done 1 1 0\n8 report 1\ncommitted 1\n1 1 1 insert 6b 76\norder 1\n1 1 1 insert 6b 76\ncontents 1\n6b 76\nleft 0 0\n";

#[test]
fn replays_the_worked_example(rt: HostRuntime) {
    assert!(rt; writes(rt.alloc(), WORKED, Status::Done, WORKED_OUT));
}

const ROWS: [(&[u8], Status, &[u8]); 11] = [
    (b"", Status::Done, b""),
    (
        b"open 1 1\nrun 1\ncommit 1\nrun 1\n",
        Status::Done,
        b"1 begun\n2 opened 1\n3 committed 0\n4 refused 10 not-working\n",
    ),
    (
        b"open 1 65\nopen 1 1\nopen 1 1\nrun 1\nopen 1 1\n",
        Status::Done,
        b"1 refused 5 bad-number\n2 begun\n3 refused 7 at-work\n4 opened 1\n5 refused 9 already-open\n",
    ),
    (
        b"insert 1 1 6b 76\nfoo\nreport 1\n",
        Status::BadLine,
        b"1 refused 6 not-open\nbad line 2\n",
    ),
    (
        b"abort 1\nopen 1 1\nabort 1\nrun 1\ninsert 1 1 6b 76\nabort 1\ncommit 1\nabort 1\n",
        Status::Done,
        b"1 refused 6 not-open\n2 begun\n3 refused 7 at-work\n4 opened 1\n5 noted\n6 aborted\n7 committed 0\n8 aborted\n",
    ),
    (
        b"report 1\n",
        Status::Done,
        b"1 report 1\ncommitted 0\norder 0\ncontents 0\nleft 0 0\n",
    ),
    (
        b"report 17\nwait 1\nwait 1000001\nsettle\nwait 01\n",
        Status::BadLine,
        b"1 refused 5 bad-number\n2 waited\n3 refused 5 bad-number\n4 settled 320\nbad line 5\n",
    ),
    (
        b"open 1 1\nrun 1\ninsert 1 1 6b 76\ncommit 1\nrun 1\nscan 1 1 - -\nrun 1\nscan 1 1 - 6b\nrun 1\nscan 1 17 - -\nsettle\nclose 1\nrun 1\nsettle\nreport 1\n",
        Status::Done,
        b"1 begun\n2 opened 1\n3 noted\n4 begun\n5 committed 1\n6 begun\n7 scan 1 6b=76\n8 begun\n9 scan 0\n10 refused 5 bad-number\n11 not-settled busy client:1 600\n12 begun\n13 closed\n14 settled 332\n15 report 1\ncommitted 1\n1 1 1 insert 6b 76\norder 1\n1 1 1 insert 6b 76\ncontents 1\n6b 76\nleft 0 0\n",
    ),
    (
        b"open 17 1\nstep 0 plain\ncrash 17\ninsert 2 1 6b 76\nstep 1 plain\ncrash 1\ncrash 1 done\n",
        Status::Done,
        b"1 refused 5 bad-number\n2 refused 5 bad-number\n3 refused 5 bad-number\n4 refused 6 not-open\n5 refused 10 not-working\n6 crashed\n7 crashed\n",
    ),
    (
        b"open 1 1\nrun 1\nopen 2 1\nrun 2\ninsert 1 1 6b 76\ncommit 1\nstep 1 plain\ncrash 1 done\nreport 1\nwait 600\nopen 2 1\nrun 2\nreport 1\n",
        Status::Done,
        b"1 begun\n2 opened 1\n3 begun\n4 busy client:1 600\n5 noted\n6 begun\n7 called\n8 crashed\n9 report 1\ncommitted 1\n1 1 1 insert 6b 76\norder 0\ncontents 0\nleft 1 0\n10 waited\n11 begun\n12 opened 2\n13 report 1\ncommitted 1\n1 1 1 insert 6b 76\norder 0\ncontents 0\nleft 0 1\n",
    ),
    (
        b"sweep 17\nsweep 1\nopen 1 1\nrun 1\ninsert 1 1 6b 76\ncommit 1\nrun 1\ntree 1 1\nrun 1\nsweep 1\nsweep 2\nreport 1\nsweep 0\nsweep 01\n",
        Status::BadLine,
        b"1 refused 5 bad-number\n2 swept 0 0\n3 begun\n4 opened 1\n5 noted\n6 begun\n7 committed 1\n8 begun\n9 done 1 1 0\n10 swept 1 0\n11 swept 0 0\n12 report 1\ncommitted 1\n1 1 1 insert 6b 76\norder 1\n1 1 1 insert 6b 76\ncontents 1\n6b 76\nleft 0 0\n13 refused 5 bad-number\nbad line 14\n",
    ),
];

#[test]
fn replays_rows(rt: HostRuntime) {
    assert!(rt; all_write(rt.alloc(), &ROWS));
}

const RENEWALS: [(&[u8], Status, &[u8]); 7] = [
    (
        b"open 1 1\nrun 1\nwait 100\nrenew 1\nrun 1\nwait 600\nrenew 1\nrun 1\ninsert 1 1 6b 76\ncommit 1\nrun 1\ninsert 1 1 6b 76\nabort 1\ncommit 1\n",
        Status::Done,
        b"1 begun\n2 opened 1\n3 waited\n4 begun\n5 renewed 700\n6 waited\n7 begun\n8 late 700 700\n9 noted\n10 begun\n11 not-committed late 700 700\n12 noted\n13 aborted\n14 committed 0\n",
    ),
    // The buffer is lost, and the lock is free at once.
    (
        b"open 1 1\nrun 1\ninsert 1 1 6b 76\nclose 1\nrenew 1\nrun 1\ncommit 1\nopen 2 1\nrun 2\n",
        Status::Done,
        b"1 begun\n2 opened 1\n3 noted\n4 begun\n5 refused 7 at-work\n6 closed\n7 refused 6 not-open\n8 begun\n9 opened 2\n",
    ),
    // A close that fails closes the session all the same, and the lease runs out by itself.
    (
        b"open 1 1\nrun 1\nclose 1\nstep 1 fail\nclose 1\nopen 2 1\nrun 2\nwait 600\nopen 2 1\nrun 2\n",
        Status::Done,
        b"1 begun\n2 opened 1\n3 begun\n4 failed\n5 refused 6 not-open\n6 begun\n7 busy client:1 600\n8 waited\n9 begun\n10 opened 2\n",
    ),
    // A session that dies in its close or in its renewal, once the call is made.
    (
        b"open 1 1\nrun 1\nclose 1\ncrash 1 done\nopen 2 1\nrun 2\n",
        Status::Done,
        b"1 begun\n2 opened 1\n3 begun\n4 crashed\n5 begun\n6 opened 2\n",
    ),
    (
        b"open 1 1\nrun 1\nwait 100\nrenew 1\ncrash 1 done\nopen 2 1\nrun 2\n",
        Status::Done,
        b"1 begun\n2 opened 1\n3 waited\n4 begun\n5 crashed\n6 begun\n7 busy client:1 700\n",
    ),
    // A session in doubt opens another client, and its first one is free at once.
    (
        b"open 1 1\nrun 1\ninsert 1 1 6b 76\ncommit 1\nstep 1 plain\nstep 1 fail\nopen 1 2\nrun 1\nopen 2 1\nrun 2\n",
        Status::Done,
        b"1 begun\n2 opened 1\n3 noted\n4 begun\n5 called\n6 in-doubt\n7 begun\n8 opened 1\n9 begun\n10 opened 2\n",
    ),
    // A renewal that fails leaves the client open.
    (
        b"renew 1\nopen 1 1\nrun 1\nwait 100\nrenew 1\nstep 1 lost\nrenew 1\nrun 1\n",
        Status::Done,
        b"1 refused 6 not-open\n2 begun\n3 opened 1\n4 waited\n5 begun\n6 failed\n7 begun\n8 renewed 700\n",
    ),
];

#[test]
fn renews_and_closes(rt: HostRuntime) {
    assert!(rt; all_write(rt.alloc(), &RENEWALS));
}

const READS: [(&[u8], Status, &[u8]); 5] = [
    // Before the record is in the leaf its own client alone sees it; behind the checkpoint both do.
    (
        b"open 1 1\nrun 1\nopen 2 2\nrun 2\ninsert 1 1 6b 76\ncommit 1\nrun 1\nread 2 1 6b\nstep 2 plain\nstep 2 plain\nread 1 1 6b\nrun 1\ntree 1 1\nrun 1\nread 2 1 6b\nstep 2 plain\nread 1 1 6b\nrun 1\nread 2 1 6c\nrun 2\nread 2 2 6b\nrun 2\n",
        Status::Done,
        b"1 begun\n2 opened 1\n3 begun\n4 opened 1\n5 noted\n6 begun\n7 committed 1\n8 begun\n9 called\n10 none\n11 begun\n12 value 76\n13 begun\n14 done 1 1 0\n15 begun\n16 value 76\n17 begun\n18 value 76\n19 begun\n20 none\n21 begun\n22 none\n",
    ),
    // A session sees its own buffered changes, and no other one's.
    (
        b"open 1 1\nrun 1\nopen 2 2\nrun 2\ninsert 1 1 6b 76\ncommit 1\nrun 1\ntree 1 1\nrun 1\nupdate 2 1 6b 77\ninsert 2 1 6c -\nread 2 1 6b\nrun 2\nread 2 1 6c\nrun 2\nread 1 1 6b\nrun 1\ndelete 2 1 6b\nread 2 1 6b\nrun 2\nabort 2\nread 2 1 6b\nrun 2\n",
        Status::Done,
        b"1 begun\n2 opened 1\n3 begun\n4 opened 1\n5 noted\n6 begun\n7 committed 1\n8 begun\n9 done 1 1 0\n10 noted\n11 noted\n12 begun\n13 value 77\n14 begun\n15 value -\n16 begun\n17 value 76\n18 noted\n19 begun\n20 none\n21 aborted\n22 begun\n23 value 76\n",
    ),
    // Once it was served a version of a leaf, no older one is shown to it; the other session was served none.
    (
        b"open 1 1\nrun 1\nopen 2 2\nrun 2\ninsert 1 1 6b 76\ncommit 1\nrun 1\ntree 1 1\nrun 1\nupdate 2 1 6b 77\ncommit 2\nrun 2\npage 1 1 1\nrun 1\nread 1 1 6b\nrun 1\nread 1 1 6b\nstep 1 old 1\nread 1 1 6b\nstep 1 old 0\nread 1 1 6b\nrun 1\nopen 3 3\nrun 3\nread 3 1 6b\nstep 3 plain\nstep 3 old 1\n",
        Status::Done,
        b"1 begun\n2 opened 1\n3 begun\n4 opened 1\n5 noted\n6 begun\n7 committed 1\n8 begun\n9 done 1 1 0\n10 noted\n11 begun\n12 committed 1\n13 begun\n14 done 1 1 0\n15 begun\n16 value 77\n17 begun\n18 stale 1 2 1\n19 begun\n20 stale 1 2 0\n21 begun\n22 value 77\n23 begun\n24 opened 1\n25 begun\n26 called\n27 value 76\n",
    ),
    // A read that fails leaves the client open, and one that dies is gone.
    (
        b"open 1 1\nrun 1\nread 1 1 6b\ninsert 1 1 6b 76\nread 1 1 6b\nstep 1 fail\nread 1 1 6b\nstep 1 plain\nstep 1 lost\nread 1 1 6b\nrun 1\nread 1 1 6b\ncrash 1 done\nread 1 1 6b\n",
        Status::Done,
        b"1 begun\n2 opened 1\n3 begun\n4 refused 7 at-work\n5 refused 7 at-work\n6 failed\n7 begun\n8 called\n9 failed\n10 begun\n11 none\n12 begun\n13 crashed\n14 refused 6 not-open\n",
    ),
    (
        b"read 17 1 -\nread 1 17 -\nread 1 1 -\nread 1 1 6b\n",
        Status::Done,
        b"1 refused 5 bad-number\n2 refused 5 bad-number\n3 refused 1 empty-key\n4 refused 6 not-open\n",
    ),
];

#[test]
fn reads_records(rt: HostRuntime) {
    assert!(rt; all_write(rt.alloc(), &READS));
}

const BAD: &[u8] = b"open 1 1\nrun 1\ninsert 1 1 6b 76\ncommit 1\nrun 1\ntree 1 1\nfoo\n";

const BAD_OUT: &[u8] =
    b"1 begun\n2 opened 1\n3 noted\n4 begun\n5 committed 1\n6 begun\nbad line 7\n";

#[test]
fn stops_at_a_bad_line(rt: HostRuntime) {
    assert!(rt; writes(rt.alloc(), BAD, Status::BadLine, BAD_OUT));
}
