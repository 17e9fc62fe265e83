//! What is answered over a cloud in which foreign bytes stand.

use crate::bench::replay_over;
use db_base::ids::{ClientId, PageId, TreeId};
use db_base::names::{ObjName, QueueName};
use memory_cloud::memory::MemoryCloud;
use schedule_run::status::Status;
use std::alloc::Global;

/// Where foreign bytes are planted: in an object or at the end of a queue, of client 1 or tree 1.
#[derive(Clone, Copy)]
enum Place {
    Head,
    Atomic,
    Tree,
    Page(u64),
    TreeUpdates,
}

/// Plants bytes in a page of the tree.
fn plant_page(cloud: &mut MemoryCloud, tree: TreeId, page: u64, bytes: &[u8]) -> bool {
    match PageId::new(page) {
        Ok(page) => cloud.plant(ObjName::Page(tree, page), bytes).is_ok(),
        Err(_) => false,
    }
}

/// Plants bytes in this place of the client or the tree.
fn plant_in(
    cloud: &mut MemoryCloud,
    client: ClientId,
    tree: TreeId,
    place: Place,
    bytes: &[u8],
) -> bool {
    match place {
        Place::Head => cloud.plant(ObjName::Head(client), bytes).is_ok(),
        Place::Atomic => cloud
            .plant_message(QueueName::Atomic(client), bytes)
            .is_ok(),
        Place::Tree => cloud.plant(ObjName::Tree(tree), bytes).is_ok(),
        Place::Page(page) => plant_page(cloud, tree, page, bytes),
        Place::TreeUpdates => cloud.plant_message(QueueName::TreePu(tree), bytes).is_ok(),
    }
}

/// Plants all these bytes.
fn plant_all(cloud: &mut MemoryCloud, planted: &[(Place, &[u8])]) -> bool {
    let (Ok(client), Ok(tree)) = (ClientId::new(1), TreeId::new(1)) else {
        return false;
    };
    for (place, bytes) in planted {
        if !plant_in(cloud, client, tree, *place, bytes) {
            return false;
        }
    }
    true
}

/// Whether a replay over a cloud with these bytes is done, and writes just this.
fn replies(alloc: Global, planted: &[(Place, &[u8])], input: &[u8], output: &[u8]) -> bool {
    let mut cloud = MemoryCloud::new(alloc);
    plant_all(&mut cloud, planted) && replay_over(alloc, input, Status::Done, output, &mut cloud)
}

/// Whether each row's does.
fn all_reply(alloc: Global, rows: &[(&[(Place, &[u8])], &[u8], &[u8])]) -> bool {
    for (planted, input, output) in rows {
        if !replies(alloc, planted, input, output) {
            return false;
        }
    }
    true
}

/// Bytes in no spelling.
const NOTHING: &[u8] = b"\x00";

/// Page 1: below the key `m`, and page 2 to its right.
const LEFT: &[u8] =
    b"\x4c\x01\x00\x00\x00\x00\x00\x00\x00\x01\x00\x00\x00\x00\x00\x00\x00\x00\x02\x01\x6d\x00\x00";

/// Page 2 from the key `n` on, where page 1 ends at `m`.
const BEHIND_A_GAP: &[u8] =
    b"\x4c\x01\x00\x00\x00\x00\x00\x00\x00\x01\x01\x6e\x00\x00\x00\x00\x00\x00\x00\x00\x00\x00";

/// Page 2 from `m` to `p`, and page 1 to its right.
const BACK_TO_THE_FIRST: &[u8] =
    b"\x4c\x01\x00\x00\x00\x00\x00\x00\x00\x01\x01\x6d\x00\x00\x00\x00\x00\x00\x00\x01\x01\x70\x00\x00";

/// An inner node of level 1 whose one child is page 1.
const NODE: &[u8] =
    b"\x49\x01\x00\x00\x00\x00\x00\x00\x00\x01\x01\x00\x00\x00\x00\x00\x00\x00\x00\x00\x01\x00\x00\x00\x00\x00\x00\x00\x00\x01\x00";

/// A tree of two levels, whose root has the inner node at page 2 alone.
const TALL: &[u8] =
    b"\x54\x01\x00\x00\x00\x00\x00\x00\x00\x01\x00\x00\x00\x00\x00\x00\x00\x03\x02\x00\x01\x00\x00\x00\x00\x00\x00\x00\x00\x02\x00";

/// A leaf without records, for all keys.
const BARE: &[u8] =
    b"\x4c\x01\x00\x00\x00\x00\x00\x00\x00\x01\x00\x00\x00\x00\x00\x00\x00\x00\x00\x00\x00";

/// A settled head in the greatest epoch.
const LAST_EPOCH: &[u8] =
    b"\x48\x01\xff\xff\xff\xff\xff\xff\xff\xff\x00\x00\x00\x00\x00\x00\x00\x00\x00\x00\x00";

/// A head of epoch 1, open with two records under way.
const OPEN_HEAD: &[u8] =
    b"\x48\x01\x00\x00\x00\x00\x00\x00\x00\x01\x00\x00\x00\x00\x00\x00\x00\x01\x01\x02\x00\x00";

/// The first of its two records.
const FIRST_OF_TWO: &[u8] =
    b"\x41\x01\x01\x00\x00\x00\x00\x00\x00\x00\x01\x00\x00\x00\x00\x00\x00\x00\x01\x01\x02\x01\x00\x00\x00\x00\x00\x00\x00\x00\x00\x00\x00\x00\x00\x00\x00\x01\x01\x01\x6b\x00\x01\x76";

/// An opening that stops leaves its session closed.
const OPENINGS: [(&[(Place, &[u8])], &[u8], &[u8]); 4] = [
    (
        &[(Place::Atomic, NOTHING)],
        b"open 1 1\nrun 1\ninsert 1 1 6b 76\n",
        b"1 begun\n2 damaged atomic:1#1 0\n3 refused 6 not-open\n",
    ),
    (
        &[(Place::Head, NOTHING)],
        b"open 1 1\nrun 1\ninsert 1 1 6b 76\n",
        b"1 begun\n2 damaged head:1 0\n3 refused 6 not-open\n",
    ),
    (
        &[(Place::Head, LAST_EPOCH)],
        b"open 1 1\nrun 1\ninsert 1 1 6b 76\n",
        b"1 begun\n2 exhausted epoch\n3 refused 6 not-open\n",
    ),
    (
        &[(Place::Head, OPEN_HEAD), (Place::Atomic, FIRST_OF_TWO)],
        b"open 1 1\nrun 1\ninsert 1 1 6b 76\n",
        b"1 begun\n2 waiting 1 2\n3 refused 6 not-open\n",
    ),
];

#[test]
fn openings_stop_at_foreign_bytes(rt: HostRuntime) {
    assert!(rt; all_reply(rt.alloc(), &OPENINGS));
}

/// Checkpoints that stop, and their session goes on.
const CHECKPOINTS: [(&[(Place, &[u8])], &[u8], &[u8]); 4] = [
    (
        &[(Place::TreeUpdates, NOTHING)],
        b"open 1 1\nrun 1\ntree 1 1\nrun 1\ninsert 1 1 6b 76\n",
        b"1 begun\n2 opened 1\n3 begun\n4 damaged pu:1:0#1 0\n5 noted\n",
    ),
    (
        &[(Place::Tree, NOTHING)],
        b"open 1 1\nrun 1\ntree 1 1\nrun 1\ninsert 1 1 6b 76\n",
        b"1 begun\n2 opened 1\n3 begun\n4 damaged tree:1 0\n5 noted\n",
    ),
    (
        &[(Place::Page(2), NODE)],
        b"open 1 1\nrun 1\npage 1 1 2\nrun 1\ninsert 1 1 6b 76\n",
        b"1 begun\n2 opened 1\n3 begun\n4 not-leaf 2\n5 noted\n",
    ),
    (
        &[],
        b"open 1 1\nrun 1\npage 1 1 2\nrun 1\ninsert 1 1 6b 76\n",
        b"1 begun\n2 opened 1\n3 begun\n4 absent 2\n5 noted\n",
    ),
];

#[test]
fn checkpoints_stop_at_foreign_bytes(rt: HostRuntime) {
    assert!(rt; all_reply(rt.alloc(), &CHECKPOINTS));
}

/// Reads that stop, and their session goes on; and a report, which no session makes.
const READS: [(&[(Place, &[u8])], &[u8], &[u8]); 5] = [
    (
        &[(Place::Page(1), LEFT), (Place::Page(2), BEHIND_A_GAP)],
        b"open 1 1\nrun 1\nread 1 1 7a\nrun 1\ninsert 1 1 6b 76\n",
        b"1 begun\n2 opened 1\n3 begun\n4 bad-fence 2 6d 6e\n5 noted\n",
    ),
    (
        &[(Place::Page(1), LEFT), (Place::Page(2), BACK_TO_THE_FIRST)],
        b"open 1 1\nrun 1\nread 1 1 7a\nrun 1\ninsert 1 1 6b 76\n",
        b"1 begun\n2 opened 1\n3 begun\n4 loop 1\n5 noted\n",
    ),
    (
        &[(Place::Page(1), LEFT)],
        b"open 1 1\nrun 1\nread 1 1 7a\nrun 1\ninsert 1 1 6b 76\n",
        b"1 begun\n2 opened 1\n3 begun\n4 stale 2 1 0\n5 noted\n",
    ),
    (
        &[(Place::Page(1), NOTHING)],
        b"open 1 1\nrun 1\nread 1 1 6b\nrun 1\nreport 1\n",
        b"1 begun\n2 opened 1\n3 begun\n4 damaged page:1:1 0\n5 damaged page:1:1 0\n",
    ),
    (
        &[(Place::Page(1), NOTHING)],
        b"report 1\n",
        b"1 damaged page:1:1 0\n",
    ),
];

#[test]
fn reads_and_reports_stop_at_foreign_bytes(rt: HostRuntime) {
    assert!(rt; all_reply(rt.alloc(), &READS));
}

/// Page 1 in format 1: one record, without an attribute.
const OLD_LEAF: &[u8] =
    b"\x4c\x01\x00\x00\x00\x00\x00\x00\x00\x01\x00\x00\x00\x00\x00\x00\x00\x00\x00\x01\x00\x00\x00\x00\x00\x00\x00\x00\x01\x00\x00\x00\x00\x00\x00\x00\x01\x00\x01\x01\x6b\x00\x01\x76\x00";

/// The same page in format 2, behind one update of that record.
const NEW_LEAF: &[u8] =
    b"\x4c\x02\x00\x00\x00\x00\x00\x00\x00\x02\x00\x00\x00\x00\x00\x00\x00\x00\x00\x01\x00\x00\x00\x00\x00\x00\x00\x00\x01\x00\x00\x00\x00\x00\x00\x00\x01\x01\x00\x00\x00\x00\x00\x00\x00\x01\x01\x00\x00\x00\x00\x00\x00\x00\x01\x00\x01\x01\x6b\x00\x01\x77\x00\x00";

/// The page is read, its record is updated, and a page checkpoint puts it.
const REWRITING: &[u8] =
    b"open 1 1\nrun 1\nread 1 1 6b\nrun 1\nupdate 1 1 6b 77\ncommit 1\nrun 1\npage 1 1 1\nrun 1\nreport 1\n";

const REWRITING_OUT: &[u8] =
    b"1 begun\n2 opened 1\n3 begun\n4 value 76\n5 noted\n6 begun\n7 committed 1\n8 begun\n9 done 1 1 0\n10 report 1\ncommitted 1\n1 1 1 update 6b 77\norder 1\n1 1 1 update 6b 77\ncontents 1\n6b 77\nleft 0 0\n";

/// Whether a version of page 1 of tree 1 has these bytes.
fn has_version(cloud: &MemoryCloud, version: u64, bytes: &[u8]) -> bool {
    match TreeId::new(1) {
        Ok(tree) => cloud.version_is(ObjName::Page(tree, PageId::first()), version, bytes),
        Err(_) => false,
    }
}

/// Whether a replay over a leaf of format 1 leaves it as it is, and puts the next version in format 2.
fn rewrites(alloc: Global) -> bool {
    let mut cloud = MemoryCloud::new(alloc);
    plant_all(&mut cloud, &[(Place::Page(1), OLD_LEAF)])
        && replay_over(alloc, REWRITING, Status::Done, REWRITING_OUT, &mut cloud)
        && has_version(&cloud, 1, OLD_LEAF)
        && has_version(&cloud, 2, NEW_LEAF)
}

#[test]
fn puts_an_old_leaf_in_the_new_format(rt: HostRuntime) {
    assert!(rt; rewrites(rt.alloc()));
}

/// A reader that met an inner node is due there for ever, and passes it over each time.
const READERS: [(&[(Place, &[u8])], &[u8], &[u8]); 1] = [(
    &[
        (Place::Tree, TALL),
        (Place::Page(2), NODE),
        (Place::Page(1), BARE),
    ],
    b"open 1 1\nrun 1\npolicy 1 reader 1\nread 1 1 6b\nrun 1\nwork 1\nwork 1\nread 1 1 6b\nrun 1\nwork 1\n",
    b"1 begun\n2 opened 1\n3 noted\n4 begun\n5 none\n6 worked 1 1\n7 worked 0 1\n8 begun\n9 none\n10 worked 1 1\n",
)];

#[test]
fn a_reader_passes_an_inner_node_over(rt: HostRuntime) {
    assert!(rt; all_reply(rt.alloc(), &READERS));
}
