//! Shells, settlings and generated schedules.

use crate::bench::{all_run, all_run_over, all_write_each};
use folder_cloud::{FolderCloud, Ticks};
use schedule_run::status::Status;
use std::fs;

const GENERATED: [(&[&str], &[u8], Status, &[u8]); 1] = [(
    &["gen", "1", "0"],
    b"",
    Status::Done,
    b"events 17\ncommitted 0\norder 0\ncontents 0\nsettled 328\nleft 0 0\n",
)];

#[test]
fn sums_a_generated_schedule(rt: HostRuntime) {
    assert!(rt; all_run(rt.alloc(), &GENERATED));
}

/// Shells one after the other.
const SHELLS: [(&[&str], &[u8], Status, &[u8]); 5] = [
    (
        &["shell", "1", "db"],
        b"insert 1 6b 76\ncommit\ntree 1\nread 1 6b\n",
        Status::Done,
        b"0 opened 1\n1 noted\n2 committed 1\n3 done 1 1 0\n4 value 76\n5 closed\n",
    ),
    // A commit in a new epoch, a refused line, and a line that is no shell's: the session stays open.
    (
        &["shell", "1", "db"],
        b"read 1 6b\ninsert 17 6b 76\ncommit\nopen 1 1\ncommit\n",
        Status::BadLine,
        b"0 opened 2\n1 value 76\n2 refused 5 bad-number\n3 committed 0\nbad line 4\n",
    ),
    // So its lease is held.
    (
        &["shell", "1", "db"],
        b"read 1 6b\n",
        Status::NotOpened,
        b"0 busy client:1 600\n",
    ),
    // Another client opens, and has no line.
    (
        &["shell", "2", "db"],
        b"",
        Status::Done,
        b"0 opened 1\n1 closed\n",
    ),
    // A sweep is the settler's.
    (
        &["shell", "3", "db"],
        b"sweep 1\n",
        Status::BadLine,
        b"0 opened 1\nbad line 1\n",
    ),
];

#[test]
fn runs_a_shell_twice(rt: HostRuntime) {
    assert!(rt; all_run(rt.alloc(), &SHELLS));
}

/// A shell, and a settling behind it.
const SETTLED: [(&[&str], &[u8], Status, &[u8]); 2] = [
    (
        &["shell", "1", "db"],
        b"insert 1 6b 76\ncommit\ntree 1\nread 1 6b\n",
        Status::Done,
        b"0 opened 1\n1 noted\n2 committed 1\n3 done 1 1 0\n4 value 76\n5 closed\n",
    ),
    (&["settle", "db"], b"", Status::Done, b"1 settled 322\n"),
];

#[test]
fn settles_behind_a_shell(rt: HostRuntime) {
    assert!(rt; all_run(rt.alloc(), &SETTLED));
}

/// A clock that stands still.
#[derive(Drop)]
struct Still;

impl Ticks for Still {
    fn now(&mut self) -> u64 {
        0
    }
}

/// Whether a shell over an empty folder, and a settling behind it, write what they must.
fn settles_in_folder(rt: &HostRuntime) -> bool {
    match FolderCloud::open(rt, "shell-test", Still) {
        Ok(mut cloud) => all_run_over(rt.alloc(), &SETTLED, &mut cloud),
        Err(_) => false,
    }
}

#[test]
fn runs_over_a_folder(rt: HostRuntime) {
    let _old = fs::remove_dir_all(&rt, "shell-test");
    assert!(rt; settles_in_folder(&rt));
}

const EMPTY: [(&[&str], &[u8], Status, &[u8]); 1] = [(
    &["settle", "db"],
    b"",
    Status::Done,
    b"1 settled 320\n",
)];

#[test]
fn settles_by_one_line(rt: HostRuntime) {
    assert!(rt; all_run(rt.alloc(), &EMPTY));
}

/// A shell that ends at its first line, and a settling beside its open session.
const BESIDE: [(&[&str], &[u8], Status, &[u8]); 2] = [
    (
        &["shell", "1", "db"],
        b"bad\n",
        Status::BadLine,
        b"0 opened 1\nbad line 1\n",
    ),
    (
        &["settle", "db"],
        b"",
        Status::NotSettled,
        b"1 not-settled busy client:1 600\n",
    ),
];

#[test]
fn settles_nothing_beside_an_open_client(rt: HostRuntime) {
    assert!(rt; all_run(rt.alloc(), &BESIDE));
}

/// Each command over a cloud of its own, with its writes: one for each reply, refusal and summary.
const WRITES: [(&[&str], &[u8], Status, &[&str]); 4] = [
    (
        &["replay"],
        b"open 2 2\nrun 2\nclose 2\nrun 2\nfoo\n",
        Status::BadLine,
        &[
            "1 begun\n",
            "2 opened 1\n",
            "3 begun\n",
            "4 closed\n",
            "bad line 5\n",
        ],
    ),
    (
        &["shell", "1", "db"],
        b"insert 1 6b 76\ncommit\n",
        Status::Done,
        &["0 opened 1\n", "1 noted\n", "2 committed 1\n", "3 closed\n"],
    ),
    (&["settle", "db"], b"", Status::Done, &["1 settled 320\n"]),
    (
        &["gen", "1", "0"],
        b"",
        Status::Done,
        &["events 17\ncommitted 0\norder 0\ncontents 0\nsettled 328\nleft 0 0\n"],
    ),
];

#[test]
fn writes_each_text_in_one_write(rt: HostRuntime) {
    assert!(rt; all_write_each(rt.alloc(), &WRITES));
}
