//! A session of client 1 that reads tree 1 and its index of a cloud in memory.

use crate::lookups;
use crate::machine::{Teller, run};
use crate::objects::Objects;
use crate::script::{Client, Edit, Step, play_all};
use crate::store::{index, put_all, tree};
use crate::story::Story;
use cloud_trait::cloud::Bench;
use db_base::attr::Attr;
use db_base::change::Change;
use db_base::ids::{ClientId, TreeId};
use db_base::key::{Key, Payload};
use head_codec::head::Head;
use memory_cloud::memory::MemoryCloud;
use page_cache::PageCache;
use range_scan::RangeScan;
use record_read::RecordRead;
use std::alloc::Global;
use std::test::Fail;
use tree_walk::Walk;
use txn_buffer::buffer::TxnBuffer;

/// What a session reads with.
#[derive(Drop)]
struct Session {
    alloc: Global,
    cache: PageCache,
    own: Own,
}

/// What a client has of its own.
#[derive(Drop)]
struct Own {
    alloc: Global,
    head: Head,
    buffer: TxnBuffer,
}

/// What tells nothing but where a new scan goes on.
#[derive(Drop)]
struct Resuming;

/// Plays a script over a cloud with these objects, and compares what is told.
pub(crate) fn play(
    alloc: Global,
    objects: Objects<'_>,
    script: &[Step<'_>],
    wanted: &str,
) -> Result<(), Fail> {
    let mut story = Story::new(alloc);
    let mut cloud = MemoryCloud::new(alloc);
    play_over(alloc, &mut cloud, &mut story, objects, script)?;
    story.is(wanted)
}

fn play_over<C: Bench>(
    alloc: Global,
    cloud: &mut C,
    story: &mut Story,
    objects: Objects<'_>,
    script: &[Step<'_>],
) -> Result<(), Fail> {
    put_all(cloud, objects)?;
    let mut session = with_cache(alloc, PageCache::new(alloc)?)?;
    play_all(&mut session, cloud, story, script)
}

// Each part is made in a function of its own, since each place at which one may fail lets go what was made before it.

fn with_cache(alloc: Global, cache: PageCache) -> Result<Session, Fail> {
    match TxnBuffer::new(alloc) {
        Ok(buffer) => Ok(joined(alloc, cache, buffer)),
        Err(_) => Err(Fail::from("no buffer")),
    }
}

fn joined(alloc: Global, cache: PageCache, buffer: TxnBuffer) -> Session {
    let head = Head::empty(alloc);
    Session {
        alloc,
        cache,
        own: Own {
            alloc,
            head,
            buffer,
        },
    }
}

/// A key, none of no byte.
fn key(alloc: Global, bytes: &[u8]) -> Result<Option<Key>, Fail> {
    if bytes.is_empty() {
        return Ok(None);
    }
    Ok(Some(Key::new(alloc, bytes)?))
}

/// A walk to a key, to the left end without one.
fn walk_to(alloc: Global, to: &[u8], fresh: bool) -> Result<Walk, Fail> {
    let key = key(alloc, to)?;
    Ok(Walk::new(alloc, tree()?, key, fresh))
}

/// A read of a key.
fn read_of(alloc: Global, key: &[u8]) -> Result<RecordRead, Fail> {
    let key = Key::new(alloc, key)?;
    Ok(RecordRead::new(alloc, tree()?, key))
}

/// A scan of the tree from a key on and below another.
fn scan_of(alloc: Global, from: &[u8], to: &[u8]) -> Result<RangeScan, Fail> {
    let from = key(alloc, from)?;
    let to = key(alloc, to)?;
    Ok(RangeScan::new(alloc, tree()?, from, to))
}

/// An attribute, none of no byte.
fn attr(alloc: Global, bytes: &[u8]) -> Result<Option<Attr>, Fail> {
    if bytes.is_empty() {
        return Ok(None);
    }
    Ok(Some(Attr::new(alloc, bytes)?))
}

/// An insert of a key, of no byte for no attribute.
fn insert_of(alloc: Global, key: &[u8], payload: &[u8], of: &[u8]) -> Result<Change, Fail> {
    let key = Key::new(alloc, key)?;
    let payload = Payload::new(alloc, payload)?;
    let attr = attr(alloc, of)?;
    Ok(Change::Insert { key, payload, attr })
}

/// An update of a key.
fn update_of(alloc: Global, key: &[u8], payload: &[u8]) -> Result<Change, Fail> {
    let key = Key::new(alloc, key)?;
    let payload = Payload::new(alloc, payload)?;
    Ok(Change::Update { key, payload })
}

/// A deletion of a key.
fn deletion_of(alloc: Global, key: &[u8]) -> Result<Change, Fail> {
    let key = Key::new(alloc, key)?;
    Ok(Change::Delete { key })
}

fn change_of(alloc: Global, edit: Edit<'_>) -> Result<Change, Fail> {
    match edit {
        Edit::Insert(key, payload) => insert_of(alloc, key, payload, &[]),
        Edit::InsertWith(key, payload, attr) => insert_of(alloc, key, payload, attr),
        Edit::List(entry) => insert_of(alloc, entry, &[], &[]),
        Edit::Update(key, payload) => update_of(alloc, key, payload),
        Edit::Delete(key) => deletion_of(alloc, key),
    }
}

/// The tree in which an edit is noted.
fn tree_of(edit: Edit<'_>) -> Result<TreeId, Fail> {
    match edit {
        Edit::List(_) => index(),
        Edit::Insert(_, _) | Edit::InsertWith(_, _, _) | Edit::Update(_, _) | Edit::Delete(_) => {
            tree()
        }
    }
}

impl Own {
    fn note(&mut self, tree: TreeId, change: Change) -> Result<(), Fail> {
        self.buffer.note(tree, change)?;
        Ok(())
    }

    /// The same for a look-up.
    fn changes(&self) -> Result<attr_index::Own<'_>, Fail> {
        let client = ClientId::new(1)?;
        Ok(attr_index::Own {
            client,
            head: &self.head,
            buffer: &self.buffer,
        })
    }
}

impl Teller<Walk> for Own {
    fn tell_leaf(&self, _walk: &Walk, _cache: &PageCache, _story: &mut Story) -> Result<(), Fail> {
        Ok(())
    }
}

impl Teller<RecordRead> for Own {
    /// What the client sees of the key.
    fn tell_leaf(
        &self,
        read: &RecordRead,
        cache: &PageCache,
        story: &mut Story,
    ) -> Result<(), Fail> {
        let client = ClientId::new(1)?;
        story.value(read.value(cache, client, &self.head, &self.buffer))
    }
}

impl Teller<RangeScan> for Own {
    /// The pairs that the client sees.
    fn tell_leaf(
        &self,
        scan: &RangeScan,
        cache: &PageCache,
        story: &mut Story,
    ) -> Result<(), Fail> {
        let client = ClientId::new(1)?;
        let items = scan.items(self.alloc, cache, client, &self.head, &self.buffer)?;
        story.pairs(items)
    }
}

impl Teller<RangeScan> for Resuming {
    fn tell_leaf(
        &self,
        scan: &RangeScan,
        _cache: &PageCache,
        story: &mut Story,
    ) -> Result<(), Fail> {
        story.resume(scan.resume_key())
    }
}

impl Client for Session {
    fn has_head(&mut self, bytes: &[u8]) -> Result<(), Fail> {
        self.own.head = Head::read(self.alloc, bytes)?;
        Ok(())
    }

    fn note(&mut self, edit: Edit<'_>) -> Result<(), Fail> {
        let tree = tree_of(edit)?;
        self.own.note(tree, change_of(self.alloc, edit)?)
    }

    fn walk<C: Bench>(
        &mut self,
        cloud: &mut C,
        story: &mut Story,
        to: &[u8],
        fresh: bool,
    ) -> Result<(), Fail> {
        let mut walk = walk_to(self.alloc, to, fresh)?;
        run(
            &mut walk,
            &self.own,
            self.alloc,
            cloud,
            &mut self.cache,
            story,
            0,
        )
    }

    fn read<C: Bench>(&mut self, cloud: &mut C, story: &mut Story, key: &[u8]) -> Result<(), Fail> {
        let mut read = read_of(self.alloc, key)?;
        run(
            &mut read,
            &self.own,
            self.alloc,
            cloud,
            &mut self.cache,
            story,
            0,
        )
    }

    fn scan<C: Bench>(
        &mut self,
        cloud: &mut C,
        story: &mut Story,
        from: &[u8],
        to: &[u8],
        late: u64,
    ) -> Result<(), Fail> {
        let mut scan = scan_of(self.alloc, from, to)?;
        run(
            &mut scan,
            &self.own,
            self.alloc,
            cloud,
            &mut self.cache,
            story,
            late,
        )
    }

    fn resume<C: Bench>(
        &mut self,
        cloud: &mut C,
        story: &mut Story,
        from: &[u8],
        to: &[u8],
    ) -> Result<(), Fail> {
        let mut scan = scan_of(self.alloc, from, to)?;
        run(
            &mut scan,
            &Resuming,
            self.alloc,
            cloud,
            &mut self.cache,
            story,
            0,
        )
    }

    fn look_up<C: Bench>(
        &mut self,
        cloud: &mut C,
        story: &mut Story,
        attr: &[u8],
        late: u64,
    ) -> Result<(), Fail> {
        let own = self.own.changes()?;
        lookups::run(self.alloc, attr, &own, cloud, &mut self.cache, story, late)
    }
}
