use crate::dark_cloud::DarkCloud;
use cloud_trait::cloud::Bench;
use db_base::blob::Blob;
use db_base::ids::{ClientId, PageId, TreeId};
use db_base::names::{ObjName, QueueName};
use db_base::trouble::Trouble;
use dump_take::stop::DumpStop;
use dump_take::take::take_dump;
use dump_text::dump::Dump;
use memory_cloud::memory::MemoryCloud;
use reply_text::write::trouble_text;
use report_types::stored::Stored;
use std::alloc::Global;

/// Bytes in no spelling.
const NOTHING: &[u8] = b"\x00";

/// A head of epoch 1 behind transaction 1, settled, with no counter and no pending entry.
const SETTLED: &[u8] = &[
    0x48, 1, 0, 0, 0, 0, 0, 0, 0, 1, 0, 0, 0, 0, 0, 0, 0, 1, 0, 0, 0,
];

/// The same head while the commit of one record is under way.
const OPEN: &[u8] = &[
    0x48, 1, 0, 0, 0, 0, 0, 0, 0, 1, 0, 0, 0, 0, 0, 0, 0, 1, 1, 1, 0, 0,
];

/// A root of version 1 and level 1 over page 1, with the free page 4 and no cursor.
const ROOT: &[u8] = &[
    0x54, 1, 0, 0, 0, 0, 0, 0, 0, 1, 0, 0, 0, 0, 0, 0, 0, 4, 1, 0, 1, 0, 0, 0, 0, 0, 0, 0, 0, 1, 0,
];

/// A leaf of version 1 in format 2 below the key m, with page 2 to its right and the record of k and v.
const LEFT: &[u8] = &[
    0x4c, 2, 0, 0, 0, 0, 0, 0, 0, 1, 0, 0, 0, 0, 0, 0, 0, 0, 2, 1, 0x6d, 0, 1, 1, 0x6b, 0, 1, 0x76,
    0, 0,
];

/// The leaf of version 1 in format 2 from m on, with the record of m, of no byte, with the attribute a.
const RIGHT: &[u8] = &[
    0x4c, 2, 0, 0, 0, 0, 0, 0, 0, 1, 1, 0x6d, 0, 0, 0, 0, 0, 0, 0, 0, 0, 1, 1, 0x6d, 0, 0, 1, 1,
    0x61, 0,
];

/// A leaf of version 1 in format 2 alone, with the record of k and w and the attribute b.
const ALONE: &[u8] = &[
    0x4c, 2, 0, 0, 0, 0, 0, 0, 0, 1, 0, 0, 0, 0, 0, 0, 0, 0, 0, 0, 1, 1, 0x6b, 0, 1, 0x77, 1, 1,
    0x62, 0,
];

/// A leaf of version 1 in format 2 below the key m, with page 1 to its right and no record.
const RING: &[u8] = &[
    0x4c, 2, 0, 0, 0, 0, 0, 0, 0, 1, 0, 0, 0, 0, 0, 0, 0, 0, 1, 1, 0x6d, 0, 0,
];

/// Where foreign bytes are planted.
#[derive(Clone, Copy)]
enum Place {
    /// In the head of a client.
    Head(u64),
    /// In the root of a tree.
    Root(u64),
    /// In a page of a tree.
    Page(u64, u64),
    /// At the end of the queue of a page of a tree, where page 0 is for the tree's own.
    Queue(u64, u64),
}

/// A record of a dump: its tree, key, payload and attribute.
type Row<'a> = (u64, &'a [u8], &'a [u8], Option<&'a [u8]>);

fn plant_head(cloud: &mut MemoryCloud, client: u64, bytes: &[u8]) -> bool {
    match ClientId::new(client) {
        Ok(client) => cloud.plant(ObjName::Head(client), bytes).is_ok(),
        Err(_) => false,
    }
}

fn plant_page(cloud: &mut MemoryCloud, tree: TreeId, page: u64, bytes: &[u8]) -> bool {
    match PageId::new(page) {
        Ok(page) => cloud.plant(ObjName::Page(tree, page), bytes).is_ok(),
        Err(_) => false,
    }
}

fn queue_of(tree: TreeId, page: u64) -> QueueName {
    match PageId::new(page) {
        Ok(page) => QueueName::PagePu(tree, page),
        Err(_) => QueueName::TreePu(tree),
    }
}

/// Plants what is of a tree.
fn plant_in(cloud: &mut MemoryCloud, tree: TreeId, place: Place, bytes: &[u8]) -> bool {
    match place {
        Place::Head(_) => false,
        Place::Root(_) => cloud.plant(ObjName::Tree(tree), bytes).is_ok(),
        Place::Page(_, page) => plant_page(cloud, tree, page, bytes),
        Place::Queue(_, page) => cloud.plant_message(queue_of(tree, page), bytes).is_ok(),
    }
}

fn plant_below(cloud: &mut MemoryCloud, tree: u64, place: Place, bytes: &[u8]) -> bool {
    match TreeId::new(tree) {
        Ok(tree) => plant_in(cloud, tree, place, bytes),
        Err(_) => false,
    }
}

fn plant(cloud: &mut MemoryCloud, place: Place, bytes: &[u8]) -> bool {
    match place {
        Place::Head(client) => plant_head(cloud, client, bytes),
        Place::Root(tree) => plant_below(cloud, tree, place, bytes),
        Place::Page(tree, _) => plant_below(cloud, tree, place, bytes),
        Place::Queue(tree, _) => plant_below(cloud, tree, place, bytes),
    }
}

/// Plants all these bytes.
fn plant_all(cloud: &mut MemoryCloud, planted: &[(Place, &[u8])]) -> bool {
    for (place, bytes) in planted {
        if !plant(cloud, *place, bytes) {
            return false;
        }
    }
    true
}

/// Whether the attribute is this, or there is none.
fn has_attribute(attr: &Option<Blob>, wanted: Option<&[u8]>) -> bool {
    match (attr, wanted) {
        (Some(attr), Some(wanted)) => attr.as_slice() == wanted,
        (None, None) => true,
        _ => false,
    }
}

fn is_row(stored: &Stored, row: &Row<'_>) -> bool {
    stored.key.as_slice() == row.1
        && stored.payload.as_slice() == row.2
        && has_attribute(&stored.attr, row.3)
}

fn has_record(records: &[Stored], row: &Row<'_>) -> bool {
    for stored in records {
        if is_row(stored, row) {
            return true;
        }
    }
    false
}

fn has_row(dump: &Dump, row: &Row<'_>) -> bool {
    for tree in dump.trees.as_slice() {
        if tree.tree.get() == row.0 {
            return has_record(tree.records.as_slice(), row);
        }
    }
    false
}

/// How many records a dump has.
fn count(dump: &Dump) -> usize {
    let mut sum = 0usize;
    for tree in dump.trees.as_slice() {
        sum = sum.saturating_add(tree.records.len());
    }
    sum
}

/// Whether a dump has these records, and no others.
fn is_dump(dump: &Dump, rows: &[Row<'_>]) -> bool {
    for row in rows {
        if !has_row(dump, row) {
            return false;
        }
    }
    count(dump) == rows.len()
}

/// Whether a taking is the dump of these records.
fn dumps<C: Bench>(alloc: Global, cloud: &mut C, rows: &[Row<'_>]) -> bool {
    match take_dump(alloc, cloud) {
        Ok(dump) => is_dump(&dump, rows),
        Err(_) => false,
    }
}

fn has_text(alloc: Global, trouble: &Trouble, text: &str) -> bool {
    match trouble_text(alloc, trouble) {
        Ok(found) => found.as_str() == text,
        Err(_) => false,
    }
}

/// Whether a stop is at this name that is not quiet, or for the trouble of this text.
fn is_stop(alloc: Global, stop: &DumpStop, text: &str) -> bool {
    match stop {
        DumpStop::NotQuiet(name) => name.as_str() == text,
        DumpStop::Trouble(trouble) => has_text(alloc, trouble, text),
    }
}

/// Whether a taking stops so.
fn stops<C: Bench>(alloc: Global, cloud: &mut C, text: &str) -> bool {
    match take_dump(alloc, cloud) {
        Ok(_) => false,
        Err(stop) => is_stop(alloc, &stop, text),
    }
}

/// Whether a taking over a cloud in which these bytes stand alone stops so.
fn stops_over(alloc: Global, planted: &[(Place, &[u8])], text: &str) -> bool {
    let mut cloud = MemoryCloud::new(alloc);
    plant_all(&mut cloud, planted) && stops(alloc, &mut cloud, text)
}

/// Whether each row's does.
fn all_stop(alloc: Global, rows: &[(&[(Place, &[u8])], &str)]) -> bool {
    for (planted, text) in rows {
        if !stops_over(alloc, planted, text) {
            return false;
        }
    }
    true
}

/// Whether a taking over a cloud in which these bytes stand alone is the dump of these records.
fn dumps_over(alloc: Global, planted: &[(Place, &[u8])], rows: &[Row<'_>]) -> bool {
    let mut cloud = MemoryCloud::new(alloc);
    plant_all(&mut cloud, planted) && dumps(alloc, &mut cloud, rows)
}

#[test]
fn takes_nothing_from_an_empty_cloud(rt: HostRuntime) {
    assert!(rt; dumps_over(rt.alloc(), &[], &[]));
}

/// Two trees, one of them with two leaves.
const TREES: [(Place, &[u8]); 5] = [
    (Place::Head(1), SETTLED),
    (Place::Root(2), ROOT),
    (Place::Page(2, 1), LEFT),
    (Place::Page(2, 2), RIGHT),
    (Place::Page(16, 1), ALONE),
];

const RECORDS: [(u64, &[u8], &[u8], Option<&[u8]>); 3] = [
    (2, b"k", b"v", None),
    (2, b"m", b"", Some(b"a")),
    (16, b"k", b"w", Some(b"b")),
];

#[test]
fn takes_the_records_of_all_trees(rt: HostRuntime) {
    assert!(rt; dumps_over(rt.alloc(), &TREES, &RECORDS));
}

/// Messages at pages that are free: page 2 without a root, and page 4 of the root.
const FREE: [(Place, &[u8]); 3] = [
    (Place::Queue(1, 2), NOTHING),
    (Place::Root(3), ROOT),
    (Place::Queue(3, 4), NOTHING),
];

#[test]
fn passes_free_pages_over(rt: HostRuntime) {
    assert!(rt; dumps_over(rt.alloc(), &FREE, &[]));
}

/// The first name that is not quiet: heads by client, then queues by tree and page.
const NOT_QUIET: [(&[(Place, &[u8])], &str); 10] = [
    (&[(Place::Head(64), OPEN)], "head:64"),
    (
        &[
            (Place::Head(1), SETTLED),
            (Place::Head(3), OPEN),
            (Place::Head(64), OPEN),
        ],
        "head:3",
    ),
    (
        &[(Place::Queue(1, 0), NOTHING), (Place::Head(64), OPEN)],
        "head:64",
    ),
    (&[(Place::Queue(1, 0), NOTHING)], "pu:1:0"),
    (
        &[(Place::Queue(1, 1), NOTHING), (Place::Queue(1, 0), NOTHING)],
        "pu:1:0",
    ),
    (
        &[
            (Place::Queue(16, 1), NOTHING),
            (Place::Queue(9, 1), NOTHING),
        ],
        "pu:9:1",
    ),
    (
        &[(Place::Root(7), ROOT), (Place::Queue(7, 3), NOTHING)],
        "pu:7:3",
    ),
    (
        &[(Place::Page(1, 1), NOTHING), (Place::Queue(16, 0), NOTHING)],
        "pu:16:0",
    ),
    (
        &[(Place::Head(2), OPEN), (Place::Head(3), NOTHING)],
        "head:2",
    ),
    (
        &[(Place::Root(2), NOTHING), (Place::Queue(1, 0), NOTHING)],
        "pu:1:0",
    ),
];

#[test]
fn tells_the_first_name_that_is_not_quiet(rt: HostRuntime) {
    assert!(rt; all_stop(rt.alloc(), &NOT_QUIET));
}

/// The first damage: heads by client, roots by tree, then leaves.
const DAMAGED: [(&[(Place, &[u8])], &str); 7] = [
    (
        &[(Place::Head(2), NOTHING), (Place::Head(3), OPEN)],
        "damaged head:2 0",
    ),
    (
        &[(Place::Root(2), NOTHING), (Place::Queue(2, 0), NOTHING)],
        "damaged tree:2 0",
    ),
    (
        &[(Place::Root(16), NOTHING), (Place::Page(1, 1), NOTHING)],
        "damaged tree:16 0",
    ),
    (
        &[(Place::Page(3, 1), NOTHING), (Place::Page(4, 1), LEFT)],
        "damaged page:3:1 0",
    ),
    (&[(Place::Page(4, 1), LEFT)], "absent 2"),
    (&[(Place::Page(4, 1), RING)], "loop 1"),
    (
        &[(Place::Page(4, 1), LEFT), (Place::Page(4, 2), ALONE)],
        "bad-fence 2 6d -",
    ),
];

#[test]
fn stops_at_the_first_damage(rt: HostRuntime) {
    assert!(rt; all_stop(rt.alloc(), &DAMAGED));
}

/// Whether a taking over an empty cloud stops where so many looks see, and each later one fails.
fn fails_behind(alloc: Global, looks: u64) -> bool {
    let mut cloud = DarkCloud::new(MemoryCloud::new(alloc), looks);
    stops(alloc, &mut cloud, "failed")
}

/// Whether it is the dump of nothing where so many looks see.
fn sees_all(alloc: Global, looks: u64) -> bool {
    let mut cloud = DarkCloud::new(MemoryCloud::new(alloc), looks);
    dumps(alloc, &mut cloud, &[])
}

/// Whether each look that fails stops it: 64 at heads, and for each of 16 trees one at its root, two at queues and one at a leaf.
fn each_fails(alloc: Global) -> bool {
    for looks in 0..128u64 {
        if !fails_behind(alloc, looks) {
            return false;
        }
    }
    sees_all(alloc, 128)
}

#[test]
fn stops_where_a_look_fails(rt: HostRuntime) {
    assert!(rt; each_fails(rt.alloc()));
}
