//! Dumps, and loads of what was dumped.

use crate::bench::{all_run, all_run_over, runs_failing};
use crate::old_store::Still;
use folder_cloud::FolderCloud;
use schedule_run::status::Status;
use std::alloc::Global;
use std::fs;

/// Two records in one tree, one without payload.
const TWO: &[u8] = b"tree 1 2\n6b 76\n6c -\n";

/// They are loaded into an empty database, which is dumped, and not filled again. Another client reads them.
const LOADED: [(&[&str], &[u8], Status, &[u8]); 5] = [
    (
        &["load", "db"],
        TWO,
        Status::Done,
        b"loaded 2\nsettled 322\n",
    ),
    (&["dump", "db"], b"", Status::Done, TWO),
    (
        &["load", "db"],
        TWO,
        Status::NotEmpty,
        b"not-empty head:1\n",
    ),
    (&["dump", "db"], b"", Status::Done, TWO),
    (
        &["shell", "2", "db"],
        b"read 1 6b\nread 1 6c\n",
        Status::Done,
        b"0 opened 1\n1 value 76\n2 value -\n3 closed\n",
    ),
];

#[test]
fn loads_and_dumps(rt: HostRuntime) {
    assert!(rt; all_run(rt.alloc(), &LOADED));
}

/// A dump of a database that was never written to is empty, and so is that of one that an empty text was loaded into.
const EMPTY: [(&[&str], &[u8], Status, &[u8]); 3] = [
    (&["dump", "db"], b"", Status::Done, b""),
    (
        &["load", "db"],
        b"",
        Status::Done,
        b"loaded 0\nsettled 322\n",
    ),
    (&["dump", "db"], b"", Status::Done, b""),
];

#[test]
fn loads_nothing(rt: HostRuntime) {
    assert!(rt; all_run(rt.alloc(), &EMPTY));
}

/// A record in each tree, some with attributes.
const TREES: &[u8] =
    b"tree 1 1\n01 76 61\ntree 2 1\n02 - 6162\ntree 3 1\n03 76\ntree 4 1\n04 76\ntree 5 1\n05 76\ntree 6 1\n06 76\ntree 7 1\n07 76\ntree 8 1\n08 76\ntree 9 1\n09 76\ntree 10 1\n0a 76\ntree 11 1\n0b 76\ntree 12 1\n0c 76\ntree 13 1\n0d 76\ntree 14 1\n0e 76\ntree 15 1\n0f 76\ntree 16 2\nff 76 61\nff00 - 62\n";

/// All trees are loaded and dumped, and a report shows an attribute.
const ALL_TREES: [(&[&str], &[u8], Status, &[u8]); 3] = [
    (
        &["load", "db"],
        TREES,
        Status::Done,
        b"loaded 17\nsettled 322\n",
    ),
    (&["dump", "db"], b"", Status::Done, TREES),
    (
        &["replay"],
        b"report 2\n",
        Status::Done,
        b"1 report 2\ncommitted 0\norder 0\ncontents 1\n02 - 6162\nleft 0 0\n",
    ),
];

#[test]
fn loads_all_trees_and_attributes(rt: HostRuntime) {
    assert!(rt; all_run(rt.alloc(), &ALL_TREES));
}

/// A committed insert waits in the queue of its tree until a checkpoint brings it home.
const WAITING: [(&[&str], &[u8], Status, &[u8]); 5] = [
    (
        &["replay"],
        b"open 1 1\nrun 1\ninsert 1 1 6b 76\ncommit 1\nrun 1\nclose 1\nrun 1\n",
        Status::Done,
        b"1 begun\n2 opened 1\n3 noted\n4 begun\n5 committed 1\n6 begun\n7 closed\n",
    ),
    (
        &["dump", "db"],
        b"",
        Status::NotQuiet,
        b"not-quiet pu:1:0\n",
    ),
    (
        &["load", "db"],
        b"",
        Status::NotEmpty,
        b"not-empty head:1\n",
    ),
    (
        &["replay"],
        b"open 1 2\nrun 1\ntree 1 1\nrun 1\nclose 1\nrun 1\n",
        Status::Done,
        b"1 begun\n2 opened 1\n3 begun\n4 done 1 1 0\n5 begun\n6 closed\n",
    ),
    (&["dump", "db"], b"", Status::Done, b"tree 1 1\n6b 76\n"),
];

#[test]
fn dumps_no_database_in_which_an_update_waits(rt: HostRuntime) {
    assert!(rt; all_run(rt.alloc(), &WAITING));
}

/// Client 2 dies between the two heads of its commit.
const HALF: [(&[&str], &[u8], Status, &[u8]); 3] = [
    (
        &["replay"],
        b"open 1 2\nrun 1\ninsert 1 3 6b 76\ncommit 1\nstep 1 plain\nstep 1 plain\ncrash 1\n",
        Status::Done,
        b"1 begun\n2 opened 1\n3 noted\n4 begun\n5 called\n6 called\n7 crashed\n",
    ),
    (
        &["dump", "db"],
        b"",
        Status::NotQuiet,
        b"not-quiet head:2\n",
    ),
    (
        &["load", "db"],
        TWO,
        Status::NotEmpty,
        b"not-empty head:2\n",
    ),
];

#[test]
fn dumps_no_database_in_which_a_commit_is_open(rt: HostRuntime) {
    assert!(rt; all_run(rt.alloc(), &HALF));
}

/// Texts that are no dump, each with its first bad line. Behind them the database is as empty as before.
const BAD: [(&[&str], &[u8], Status, &[u8]); 9] = [
    (
        &["load", "db"],
        b"tree 1 2\n6c 76\n6b 76\n",
        Status::BadLine,
        b"bad line 3\n",
    ),
    (
        &["load", "db"],
        b"tree 1 2\n6b 76\n",
        Status::BadLine,
        b"bad line 3\n",
    ),
    (
        &["load", "db"],
        b"tree 1 1\n6b 76",
        Status::BadLine,
        b"bad line 2\n",
    ),
    (
        &["load", "db"],
        b"tree 1 0\n",
        Status::BadLine,
        b"bad line 1\n",
    ),
    (
        &["load", "db"],
        b"tree 17 1\n6b 76\n",
        Status::BadLine,
        b"bad line 1\n",
    ),
    (
        &["load", "db"],
        b"tree 2 1\n6b 76\ntree 1 1\n6b 76\n",
        Status::BadLine,
        b"bad line 3\n",
    ),
    (&["load", "db"], b"\n", Status::BadLine, b"bad line 1\n"),
    (&["dump", "db"], b"", Status::Done, b""),
    (
        &["load", "db"],
        TWO,
        Status::Done,
        b"loaded 2\nsettled 322\n",
    ),
];

#[test]
fn refuses_what_is_no_dump_and_calls_nothing(rt: HostRuntime) {
    assert!(rt; all_run(rt.alloc(), &BAD));
}

/// Failing reads and writes of a load and a dump over an empty database: how it ends, and what it writes.
type Failing = (
    &'static [&'static str],
    &'static [u8],
    &'static [u64],
    &'static [u64],
    Status,
    &'static [u8],
);

const FAILING: &[Failing] = &[
    (&["load", "db"], TWO, &[1], &[], Status::ReadFault, b""),
    (&["load", "db"], TWO, &[2], &[], Status::ReadFault, b""),
    (&["load", "db"], TWO, &[], &[1], Status::WriteFault, b""),
    (&["load", "db"], b"\n", &[], &[1], Status::WriteFault, b""),
    (&["dump", "db"], b"", &[1], &[1], Status::WriteFault, b""),
];

/// Whether each row ends and writes as it says.
fn all_fail(alloc: Global, rows: &[Failing]) -> bool {
    for (words, input, reads, writes, status, output) in rows {
        if !runs_failing(alloc, words, input, reads, writes, *status, output) {
            return false;
        }
    }
    true
}

#[test]
fn ends_by_failed_reads_and_writes(rt: HostRuntime) {
    assert!(rt; all_fail(rt.alloc(), FAILING));
}

/// What stands in the place of an object that cannot be read: a folder.
const UNREADABLE: [&str; 4] = [
    "objects/head-01",
    "objects/head-40",
    "objects/tree-10",
    "objects/page-010000000000000001",
];

/// Neither a dump nor a load goes on behind a look that fails.
const STOPPED: [(&[&str], &[u8], Status, &[u8]); 2] = [
    (&["dump", "db"], b"", Status::Stopped, b"failed\n"),
    (&["load", "db"], TWO, Status::Stopped, b"failed\n"),
];

/// Whether they end so over a folder with a folder of this name in it.
fn stop_at(rt: &HostRuntime, dir: &str, name: &str) -> bool {
    let _old = fs::remove_dir_all(rt, dir);
    let Ok(path) = format!(in rt.alloc(); "{dir}/{name}") else {
        return false;
    };
    if fs::create_dir_all(rt, path.as_str()).is_err() {
        return false;
    }
    match FolderCloud::open(rt, dir, Still) {
        Ok(mut cloud) => all_run_over(rt.alloc(), &STOPPED, &mut cloud),
        Err(_) => false,
    }
}

#[test]
fn stops_at_a_look_that_fails(rt: HostRuntime) {
    for name in &UNREADABLE {
        assert!(rt; stop_at(&rt, "failed-look-test", name));
    }
}
