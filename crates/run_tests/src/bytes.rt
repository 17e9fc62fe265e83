//! The bytes that the first worked example leaves in the cloud.

use crate::bench::replay_over;
use db_base::ids::{ClientId, MsgId, PageId, TreeId};
use db_base::names::{ObjName, QueueName};
use memory_cloud::memory::MemoryCloud;
use schedule_run::status::Status;
use std::alloc::Global;

/// Page 1 of tree 1 after the first worked example.
const PAGE: [u8; 46] = [
    0x4c, 2, 0, 0, 0, 0, 0, 0, 0, 1, 0, 0, 0, 0, 0, 0, 0, 0, 0, 1, 0, 0, 0, 0, 0, 0, 0, 0, 1, 0, 0,
    0, 0, 0, 0, 0, 1, 0, 1, 1, 0x6b, 0, 1, 0x76, 0, 0,
];

/// The root of tree 1 after it.
const ROOT: [u8; 41] = [
    0x54, 1, 0, 0, 0, 0, 0, 0, 0, 1, 0, 0, 0, 0, 0, 0, 0, 2, 1, 1, 1, 0, 0, 0, 0, 0, 0, 0, 1, 0, 1,
    0, 0, 0, 0, 0, 0, 0, 0, 1, 0,
];

/// The head of client 1 after it.
const HEAD: [u8; 63] = [
    0x48, 1, 0, 0, 0, 0, 0, 0, 0, 1, 0, 0, 0, 0, 0, 0, 0, 1, 0, 1, 1, 0, 0, 0, 0, 0, 0, 0, 0, 0, 0,
    0, 0, 0, 0, 0, 1, 0, 1, 1, 0, 0, 0, 0, 0, 0, 0, 0, 0, 0, 0, 0, 0, 0, 0, 1, 1, 1, 0x6b, 0, 1,
    0x76, 0,
];

/// The message that its commit sent to the tree's queue.
const MESSAGE: [u8; 33] = [
    0x50, 1, 1, 0, 0, 0, 0, 0, 0, 0, 1, 0, 0, 0, 0, 0, 0, 0, 1, 0, 0, 0, 0, 0, 0, 0, 1, 1, 1, 0x6b,
    0, 1, 0x76,
];

/// The message that its commit sent to the client's ATOMIC queue.
const ATOMIC: [u8; 44] = [
    0x41, 1, 1, 0, 0, 0, 0, 0, 0, 0, 1, 0, 0, 0, 0, 0, 0, 0, 1, 1, 1, 1, 0, 0, 0, 0, 0, 0, 0, 0, 0,
    0, 0, 0, 0, 0, 0, 1, 1, 1, 0x6b, 0, 1, 0x76,
];

/// Whether the objects of a tree and a client are these.
fn has_objects(cloud: &MemoryCloud, tree: TreeId, client: ClientId) -> bool {
    cloud.version_is(ObjName::Page(tree, PageId::first()), 1, PAGE.as_slice())
        && cloud.version_is(ObjName::Tree(tree), 1, ROOT.as_slice())
        && cloud.version_is(ObjName::Head(client), 3, HEAD.as_slice())
}

/// Whether the first messages in the queues of a tree and a client are these.
fn has_messages(cloud: &MemoryCloud, tree: TreeId, client: ClientId) -> bool {
    cloud.message(QueueName::TreePu(tree), MsgId::new(1)) == Some(MESSAGE.as_slice())
        && cloud.message(QueueName::Atomic(client), MsgId::new(1)) == Some(ATOMIC.as_slice())
}

/// Whether the bytes of tree 1 and client 1 are these.
fn has_bytes(cloud: &MemoryCloud) -> bool {
    match (TreeId::new(1), ClientId::new(1)) {
        (Ok(tree), Ok(client)) => {
            has_objects(cloud, tree, client) && has_messages(cloud, tree, client)
        }
        _ => false,
    }
}

const INPUT: &[u8] = b"open 1 1\nrun 1\ninsert 1 1 6b 76\ncommit 1\nrun 1\ntree 1 1\nrun 1\n";

const OUTPUT: &[u8] =
    b"1 begun\n2 opened 1\n3 noted\n4 begun\n5 committed 1\n6 begun\n7 done 1 1 0\n";

/// Whether a replay leaves these bytes in an empty cloud.
fn leaves_bytes(alloc: Global) -> bool {
    let mut cloud = MemoryCloud::new(alloc);
    replay_over(alloc, INPUT, Status::Done, OUTPUT, &mut cloud) && has_bytes(&cloud)
}

#[test]
fn leaves_these_bytes(rt: HostRuntime) {
    assert!(rt; leaves_bytes(rt.alloc()));
}
