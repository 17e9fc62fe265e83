//! A store in a folder that the program wrote before records had attributes, when every leaf was of format 1.

use crate::bench::all_run_over;
use folder_cloud::{FolderCloud, Ticks};
use schedule_run::status::Status;
use std::{fs, io};

/// Its folders.
const FOLDERS: [&str; 6] = [
    "locks",
    "objects",
    "queues",
    "queues/atomic-01",
    "queues/updates-010000000000000000",
    "queues/updates-010000000000000001",
];

/// Its files. Client 1 inserted `01`, `02` and `03`, checkpointed the tree, updated `01`, added to `02` and deleted `03`,
/// and checkpointed page 1. Then it committed an insert of `04`, an update of `01` and an addition to `02`, and closed.
const FILES: [(&str, &[u8]); 14] = [
    ("in-use", b""),
    (
        "locks/head-01",
        b"\x00\x00\x00\x00\x00\x00\x00\x01\x00\x00\x00\x00\x00\x00\x00\x00",
    ),
    (
        "locks/page-010000000000000001",
        b"\x00\x00\x00\x00\x00\x00\x00\x02\x00\x00\x00\x00\x00\x00\x00\x00",
    ),
    (
        "locks/tree-01",
        b"\x00\x00\x00\x00\x00\x00\x00\x01\x00\x00\x00\x00\x00\x00\x00\x00",
    ),
    (
        "objects/head-01",
        b"\x48\x01\x00\x00\x00\x00\x00\x00\x00\x01\x00\x00\x00\x00\x00\x00\x00\x03\x00\x01\x01\x00\x00\x00\x00\x00\x00\x00\x00\x00\x00\x00\x00\x00\x00\x00\x05\x01\x01\x00\x00\x00\x00\x00\x00\x00\x01\x00\x00\x00\x00\x00\x00\x00\x04\x00\x01\x01\x00\x00\x00\x00\x00\x00\x00\x00\x00\x00\x00\x00\x00\x00\x00\x04\x03\x01\x03\x01\x01\x00\x00\x00\x00\x00\x00\x00\x00\x00\x00\x00\x00\x00\x00\x00\x05\x01\x01\x04\x00\x01\x76\x01\x01\x00\x00\x00\x00\x00\x00\x00\x01\x00\x00\x00\x00\x00\x00\x00\x03\x02\x01\x01\x00\x01\x79\x01\x01\x00\x00\x00\x00\x00\x00\x00\x01\x00\x00\x00\x00\x00\x00\x00\x04\x04\x01\x02\x00\x00\x00\x00\x00\x00\x00\x01\x00",
    ),
    (
        "objects/page-010000000000000001",
        b"\x4c\x01\x00\x00\x00\x00\x00\x00\x00\x02\x00\x00\x00\x00\x00\x00\x00\x00\x00\x01\x00\x00\x00\x00\x00\x00\x00\x00\x01\x00\x00\x00\x00\x00\x00\x00\x03\x01\x00\x00\x00\x00\x00\x00\x00\x01\x01\x00\x00\x00\x00\x00\x00\x00\x02\x00\x01\x01\x01\x00\x01\x77\x01\x01\x02\x00\x08\x00\x00\x00\x00\x00\x00\x00\x08\x01\x01\x03\x00\x02\x78\x79\x00",
    ),
    (
        "objects/tree-01",
        b"\x54\x01\x00\x00\x00\x00\x00\x00\x00\x01\x00\x00\x00\x00\x00\x00\x00\x02\x01\x01\x01\x00\x00\x00\x00\x00\x00\x00\x03\x00\x01\x00\x00\x00\x00\x00\x00\x00\x00\x01\x00",
    ),
    ("queues/atomic-01/last", b"\x00\x00\x00\x00\x00\x00\x00\x09"),
    (
        "queues/updates-010000000000000000/0000000000000004",
        b"\x50\x01\x01\x00\x00\x00\x00\x00\x00\x00\x01\x00\x00\x00\x00\x00\x00\x00\x02\x00\x00\x00\x00\x00\x00\x00\x04\x03\x01\x03",
    ),
    (
        "queues/updates-010000000000000000/0000000000000005",
        b"\x50\x01\x01\x00\x00\x00\x00\x00\x00\x00\x01\x00\x00\x00\x00\x00\x00\x00\x03\x00\x00\x00\x00\x00\x00\x00\x05\x01\x01\x04\x00\x01\x76",
    ),
    (
        "queues/updates-010000000000000000/last",
        b"\x00\x00\x00\x00\x00\x00\x00\x03",
    ),
    (
        "queues/updates-010000000000000001/0000000000000003",
        b"\x50\x01\x01\x00\x00\x00\x00\x00\x00\x00\x01\x00\x00\x00\x00\x00\x00\x00\x03\x00\x00\x00\x00\x00\x00\x00\x03\x02\x01\x01\x00\x01\x79",
    ),
    (
        "queues/updates-010000000000000001/0000000000000004",
        b"\x50\x01\x01\x00\x00\x00\x00\x00\x00\x00\x01\x00\x00\x00\x00\x00\x00\x00\x03\x00\x00\x00\x00\x00\x00\x00\x04\x04\x01\x02\x00\x00\x00\x00\x00\x00\x00\x01",
    ),
    (
        "queues/updates-010000000000000001/last",
        b"\x00\x00\x00\x00\x00\x00\x00\x02",
    ),
];

/// Lays the store down in a folder.
fn lay_down(rt: &HostRuntime, dir: &str) -> io::Result<()> {
    let _old = fs::remove_dir_all(rt, dir);
    for folder in FOLDERS {
        let path = format!(in rt.alloc(); "{dir}/{folder}")?;
        fs::create_dir_all(rt, path.as_str())?;
    }
    for (file, bytes) in FILES {
        let path = format!(in rt.alloc(); "{dir}/{file}")?;
        fs::write(rt, path.as_str(), bytes)?;
    }
    Ok(())
}

/// A clock that stands still.
#[derive(Drop)]
pub(crate) struct Still;

impl Ticks for Still {
    fn now(&mut self) -> u64 {
        0
    }
}

/// Whether each command over the store, one after the other, ends and writes as its row says.
fn all_run_over_it(rt: &HostRuntime, dir: &str, rows: &[(&[&str], &[u8], Status, &[u8])]) -> bool {
    if lay_down(rt, dir).is_err() {
        return false;
    }
    match FolderCloud::open(rt, dir, Still) {
        Ok(mut cloud) => all_run_over(rt.alloc(), rows, &mut cloud),
        Err(_) => false,
    }
}

/// Whether page 1 begins with these bytes.
fn page_begins_with(rt: &HostRuntime, dir: &str, bytes: &[u8]) -> bool {
    let Ok(path) = format!(in rt.alloc(); "{dir}/objects/page-010000000000000001") else {
        return false;
    };
    match fs::read(rt, path.as_str()) {
        Ok(page) => page.as_slice().starts_with(bytes),
        Err(_) => false,
    }
}

/// Another client reads it, commits an update and an insert with an attribute, and checkpoints them and what waited.
const WRITTEN_ON: [(&[&str], &[u8], Status, &[u8]); 4] = [
    (
        &["shell", "2", "db"],
        b"read 1 01\nread 1 02\nscan 1 - -\nupdate 1 03 7a\ninsert 1 05 76 61\ncommit\npage 1 1\ntree 1\nscan 1 - -\n",
        Status::Done,
        b"0 opened 1\n1 value 77\n2 value 0000000000000008\n3 scan 3 01=77 02=0000000000000008 03=7879\n4 noted\n5 noted\n6 committed 1\n7 done 3 3 0\n8 done 3 3 0\n9 scan 4 01=79 02=0000000000000009 04=76 05=76\n10 closed\n",
    ),
    (&["settle", "db"], b"", Status::Done, b"1 settled 324\n"),
    (
        &["replay"],
        b"report 1\n",
        Status::Done,
        b"1 report 1\ncommitted 0\norder 0\ncontents 4\n01 79\n02 0000000000000009\n04 76\n05 76 61\nleft 0 0\n",
    ),
    (
        &["dump", "db"],
        b"",
        Status::Done,
        b"tree 1 4\n01 79\n02 0000000000000009\n04 76\n05 76 61\n",
    ),
];

#[test]
fn writes_an_old_store_on(rt: HostRuntime) {
    assert!(rt; all_run_over_it(&rt, "old-store-test", &WRITTEN_ON));
    assert!(rt; page_begins_with(&rt, "old-store-test", b"\x4c\x02"));
}

/// It is reported and settled, and the client that wrote it reads it again.
const SETTLED: [(&[&str], &[u8], Status, &[u8]); 6] = [
    (
        &["replay"],
        b"report 1\n",
        Status::Done,
        b"1 report 1\ncommitted 0\norder 0\ncontents 3\n01 77\n02 0000000000000008\n03 7879\nleft 0 4\n",
    ),
    (
        &["dump", "db"],
        b"",
        Status::NotQuiet,
        b"not-quiet pu:1:0\n",
    ),
    (&["settle", "db"], b"", Status::Done, b"1 settled 340\n"),
    (
        &["dump", "db"],
        b"",
        Status::Done,
        b"tree 1 3\n01 79\n02 0000000000000009\n04 76\n",
    ),
    (
        &["shell", "1", "db"],
        b"read 1 01\nread 1 02\nread 1 03\nread 1 04\n",
        Status::Done,
        b"0 opened 3\n1 value 79\n2 value 0000000000000009\n3 none\n4 value 76\n5 closed\n",
    ),
    (
        &["replay"],
        b"report 1\n",
        Status::Done,
        b"1 report 1\ncommitted 0\norder 0\ncontents 3\n01 79\n02 0000000000000009\n04 76\nleft 0 0\n",
    ),
];

#[test]
fn settles_an_old_store(rt: HostRuntime) {
    assert!(rt; all_run_over_it(&rt, "old-settled-test", &SETTLED));
    assert!(rt; page_begins_with(&rt, "old-settled-test", b"\x4c\x02"));
}
