//! How a run ends where a call of the cloud, a read or a write fails, or where its words or its input are no command's.

use crate::bench::{all_run, replay_over, replays_failing};
use memory_cloud::memory::MemoryCloud;
use schedule_run::arguments::fault_of;
use schedule_run::status::Status;
use std::alloc::Global;
use std::io;

/// How a run ends whose words fail so.
fn status_of(kind: io::ErrorKind) -> Status {
    Status::from(fault_of(&io::Error::from(kind)))
}

#[test]
fn a_word_that_is_not_utf8_is_of_no_shape(rt: HostRuntime) {
    assert!(rt; status_of(io::ErrorKind::InvalidData) == Status::BadWords);
    assert!(rt; status_of(io::ErrorKind::OutOfMemory) == Status::Memory);
}

/// Words over an empty input, how they end, and what they write.
const WORDS: [(&[&str], &[u8], Status, &[u8]); 4] = [
    (&["replay"], b"", Status::Done, b""),
    (&[], b"", Status::BadWords, b""),
    (&["replay", "x"], b"", Status::BadWords, b""),
    (&["gen", "1", "10001"], b"", Status::BadWords, b""),
];

#[test]
fn ends_by_its_words(rt: HostRuntime) {
    assert!(rt; all_run(rt.alloc(), &WORDS));
}

/// The first worked example.
const WORKED: &[u8] =
    b"open 1 1\nrun 1\ninsert 1 1 6b 76\ncommit 1\nrun 1\ntree 1 1\nrun 1\nreport 1\n";

/// What it writes.
const WORKED_OUT: &[u8] =
    b"1 begun\n2 opened 1\n3 noted\n4 begun\n5 committed 1\n6 begun\n7 done 1 1 0\n8 report 1\ncommitted 1\n1 1 1 insert 6b 76\norder 1\n1 1 1 insert 6b 76\ncontents 1\n6b 76\nleft 0 0\n";

/// The reads of its input: the one that brings it, and the one that finds its end.
const READS: [u64; 2] = [1, 2];

#[test]
fn a_read_that_fails_ends_a_replay_without_a_reply(rt: HostRuntime) {
    for read in READS.as_slice() {
        assert!(rt; replays_failing(rt.alloc(), WORKED, &[*read], &[], Status::ReadFault, b""));
    }
}

/// Its writes, each with all that was written before it.
const WRITES: [(u64, &[u8]); 8] = [
    (1, b""),
    (2, b"1 begun\n"),
    (3, b"1 begun\n2 opened 1\n"),
    (4, b"1 begun\n2 opened 1\n3 noted\n"),
    (5, b"1 begun\n2 opened 1\n3 noted\n4 begun\n"),
    (6, b"1 begun\n2 opened 1\n3 noted\n4 begun\n5 committed 1\n"),
    (
        7,
        b"1 begun\n2 opened 1\n3 noted\n4 begun\n5 committed 1\n6 begun\n",
    ),
    (
        8,
        b"1 begun\n2 opened 1\n3 noted\n4 begun\n5 committed 1\n6 begun\n7 done 1 1 0\n",
    ),
];

/// Whether a replay whose write of each row's number fails writes what the row says.
fn all_end(alloc: Global, rows: &[(u64, &[u8])]) -> bool {
    for (write, output) in rows {
        if !replays_failing(alloc, WORKED, &[], &[*write], Status::WriteFault, output) {
            return false;
        }
    }
    true
}

#[test]
fn a_write_that_fails_ends_a_replay_behind_the_replies_before_it(rt: HostRuntime) {
    assert!(rt; all_end(rt.alloc(), &WRITES));
    assert!(rt; replays_failing(rt.alloc(), WORKED, &[3], &[9], Status::Done, WORKED_OUT));
}

/// Whether it writes this where the cloud's call of this number fails.
fn replies(alloc: Global, call: u64, output: &[u8]) -> bool {
    match MemoryCloud::with_failures(alloc, &[call]) {
        Ok(mut cloud) => replay_over(alloc, WORKED, Status::Done, output, &mut cloud),
        Err(_) => false,
    }
}

/// Whether it writes what each row says where the call fails that the row names.
fn all_reply(alloc: Global, rows: &[(u64, &[u8])]) -> bool {
    for (call, output) in rows {
        if !replies(alloc, *call, output) {
            return false;
        }
    }
    true
}

/// The take of the lease, the send to the ATOMIC queue, and the put of the open head.
const FAILED: [(u64, &[u8]); 3] = [
    (
        1,
        b"1 begun\n2 failed\n3 refused 6 not-open\n4 refused 6 not-open\n5 refused 10 not-working\n6 refused 6 not-open\n7 refused 10 not-working\n8 report 1\ncommitted 0\norder 0\ncontents 0\nleft 0 0\n",
    ),
    (
        5,
        b"1 begun\n2 opened 1\n3 noted\n4 begun\n5 not-committed failed\n6 begun\n7 done 0 0 0\n8 report 1\ncommitted 0\norder 0\ncontents 0\nleft 0 0\n",
    ),
    (
        6,
        b"1 begun\n2 opened 1\n3 noted\n4 begun\n5 in-doubt\n6 refused 8 broken\n7 refused 10 not-working\n8 report 1\ncommitted 0\norder 0\ncontents 0\nleft 0 0\n",
    ),
];

#[test]
fn replies_to_a_failed_call(rt: HostRuntime) {
    assert!(rt; all_reply(rt.alloc(), &FAILED));
}
