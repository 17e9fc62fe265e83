//! Loads that may make few calls. The one more is not made.

use db_base::ids::{ClientId, MsgId, TreeId};
use db_base::names::{ObjName, QueueName};
use dump_text::dump::Dump;
use memory_cloud::memory::MemoryCloud;
use schedule_run::load::{LoadStop, load};
use std::alloc::Global;

/// Two records in one tree.
const TWO: &[u8] = b"tree 1 2\n6b 76\n6c -\n";

/// Whether a load of two records that may make so many calls is done, and not out of memory.
fn is_done(alloc: Global, cloud: &mut MemoryCloud, most: u16) -> Option<bool> {
    match Dump::read(alloc, TWO) {
        Ok(dump) => match load(alloc, cloud, &dump, u64::from(most)) {
            Ok(_) => Some(true),
            Err(LoadStop::Memory) => Some(false),
            Err(_) => None,
        },
        Err(_) => None,
    }
}

/// Whether so many versions of the head were put, and no more.
fn has_heads(cloud: &MemoryCloud, client: ClientId, count: u64) -> bool {
    let last = cloud.has_version(ObjName::Head(client), count);
    let more = cloud.has_version(ObjName::Head(client), count.saturating_add(1));
    (count == 0 || last) && !more
}

/// Whether so many messages were sent to the client's ATOMIC queue, and no more.
fn has_logged(cloud: &MemoryCloud, client: ClientId, count: u64) -> bool {
    let last = cloud
        .message(QueueName::Atomic(client), MsgId::new(count))
        .is_some();
    let more = cloud
        .message(
            QueueName::Atomic(client),
            MsgId::new(count.saturating_add(1)),
        )
        .is_some();
    (count == 0 || last) && !more
}

/// Whether so many messages were sent to the tree's queue, and no more.
fn has_pending(cloud: &MemoryCloud, tree: TreeId, count: u64) -> bool {
    let last = cloud
        .message(QueueName::TreePu(tree), MsgId::new(count))
        .is_some();
    let more = cloud
        .message(QueueName::TreePu(tree), MsgId::new(count.saturating_add(1)))
        .is_some();
    (count == 0 || last) && !more
}

/// Whether so much landed: versions of head 1, messages to its queue and to that of tree 1.
fn has(cloud: &MemoryCloud, heads: u64, atomic: u64, pending: u64) -> bool {
    match (ClientId::new(1), TreeId::new(1)) {
        (Ok(client), Ok(tree)) => {
            has_heads(cloud, client, heads)
                && has_logged(cloud, client, atomic)
                && has_pending(cloud, tree, pending)
        }
        _ => false,
    }
}

/// Whether a load that may make so many calls runs out of them, and so much landed.
fn stops(alloc: Global, most: u16, heads: u64, atomic: u64, pending: u64) -> bool {
    let mut cloud = MemoryCloud::new(alloc);
    is_done(alloc, &mut cloud, most) == Some(false) && has(&cloud, heads, atomic, pending)
}

/// Whether that of each row does.
fn all_stop(alloc: Global, rows: &[(u16, u64, u64, u64)]) -> bool {
    for (most, heads, atomic, pending) in rows {
        if !stops(alloc, *most, *heads, *atomic, *pending) {
            return false;
        }
    }
    true
}

/// The opening takes the lease, gets the head, puts it and receives. The commit sends two records, puts the head open, sends them to the
/// tree, puts the head settled and deletes the two. A checkpoint of the tree makes calls 13 to 23, and the close one. The settling takes the
/// lease, gets the head and puts it in the next epoch.
const ROWS: [(u16, u64, u64, u64); 14] = [
    (0, 0, 0, 0),
    (2, 0, 0, 0),
    (3, 1, 0, 0),
    (4, 1, 0, 0),
    (5, 1, 1, 0),
    (6, 1, 2, 0),
    (7, 2, 2, 0),
    (8, 2, 2, 1),
    (9, 2, 2, 2),
    (10, 3, 2, 2),
    (12, 3, 2, 2),
    (26, 3, 2, 2),
    (27, 4, 2, 2),
    (200, 4, 2, 2),
];

#[test]
fn a_load_makes_no_more_calls_than_it_may(rt: HostRuntime) {
    assert!(rt; all_stop(rt.alloc(), &ROWS));
}

#[test]
fn a_load_that_may_make_enough_is_done(rt: HostRuntime) {
    let mut cloud = MemoryCloud::new(rt.alloc());
    assert!(rt; is_done(rt.alloc(), &mut cloud, 1000) == Some(true));
}
