use crate::objects::{LEAF, TWO_LEVELS};
use crate::store::{object, put_all, who};
use crate::story::Story;
use cloud_trait::cloud::{Bench, Cloud};
use db_base::blob::Blob;
use db_base::wish::Wish;
use memory_cloud::memory::MemoryCloud;
use page_cache::PageCache;
use std::alloc::Global;
use std::test::Fail;
use tree_bytes::{NODE_7, ROOT};

/// What is done with a cache.
#[derive(Clone, Copy)]
enum Step<'a> {
    /// It takes the answer of a get of an object by its number, 0 for the tree object, which is asked for as a leaf or not.
    Takes(u64, Option<&'a [u8]>, bool),
    /// It takes a leaf of a page and a version from 1 to 255; an absent one for 0.
    TakesLeaf(u64, u8),
    /// It takes leaves of version 2 of the pages from 1 to this one.
    TakesLeavesTo(u64),
    /// It forgets all.
    Clears,
    /// How many objects it keeps.
    Counts,
    /// Whether it keeps a page.
    Looks(u64),
}

/// A cache.
trait Taking {
    /// Takes an answer of a get, and tells the version or the trouble.
    fn take_answer(
        &mut self,
        number: u64,
        got: Option<Blob>,
        leaf: bool,
        story: &mut Story,
    ) -> Result<(), Fail>;

    /// Gets an object by its number, as a leaf or not, and tells the version or the trouble.
    fn fetch_from<C: Cloud>(
        &mut self,
        cloud: &mut C,
        number: u64,
        leaf: bool,
        story: &mut Story,
    ) -> Result<(), Fail>;

    fn forget(&mut self);

    fn count(&self) -> usize;

    fn keeps(&self, page: u64) -> Result<bool, Fail>;
}

impl Taking for PageCache {
    fn take_answer(
        &mut self,
        number: u64,
        got: Option<Blob>,
        leaf: bool,
        story: &mut Story,
    ) -> Result<(), Fail> {
        match self.accept(object(number)?, got, leaf) {
            Ok(version) => story.number("version", version),
            Err(trouble) => story.trouble(&trouble),
        }
    }

    fn fetch_from<C: Cloud>(
        &mut self,
        cloud: &mut C,
        number: u64,
        leaf: bool,
        story: &mut Story,
    ) -> Result<(), Fail> {
        match self.fetch(cloud, who()?, object(number)?, leaf) {
            Ok(version) => story.number("version", version),
            Err(trouble) => story.trouble(&trouble),
        }
    }

    fn forget(&mut self) {
        self.clear();
    }

    fn count(&self) -> usize {
        self.len()
    }

    fn keeps(&self, page: u64) -> Result<bool, Fail> {
        Ok(self.kept(object(page)?))
    }
}

/// A leaf of format 2 of a version, without fences, entries or records.
fn leaf(version: u8) -> [u8; 21] {
    [
        0x4c, 2, 0, 0, 0, 0, 0, 0, 0, version, 0, 0, 0, 0, 0, 0, 0, 0, 0, 0, 0,
    ]
}

/// A cache takes bytes, or none.
fn take<T: Taking>(
    cache: &mut T,
    alloc: Global,
    number: u64,
    bytes: Option<&[u8]>,
    leaf: bool,
    story: &mut Story,
) -> Result<(), Fail> {
    let got = match bytes {
        Some(bytes) => Some(Blob::copy_of(alloc, bytes)?),
        None => None,
    };
    cache.take_answer(number, got, leaf, story)
}

fn take_leaf<T: Taking>(
    cache: &mut T,
    alloc: Global,
    page: u64,
    version: u8,
    story: &mut Story,
) -> Result<(), Fail> {
    if version == 0 {
        return take(cache, alloc, page, None, true, story);
    }
    take(cache, alloc, page, Some(&leaf(version)), true, story)
}

/// Takes leaves, of which nothing is told.
fn take_leaves<T: Taking>(cache: &mut T, alloc: Global, last: u64) -> Result<(), Fail> {
    let mut untold = Story::new(alloc);
    for page in 1..=last {
        take_leaf(cache, alloc, page, 2, &mut untold)?;
    }
    Ok(())
}

fn tell_kept<T: Taking>(cache: &T, page: u64, story: &mut Story) -> Result<(), Fail> {
    if cache.keeps(page)? {
        story.number("kept", page)
    } else {
        story.number("gone", page)
    }
}

/// What is done, and what is told of it.
fn play_step<T: Taking>(
    cache: &mut T,
    alloc: Global,
    step: Step<'_>,
    story: &mut Story,
) -> Result<(), Fail> {
    match step {
        Step::Takes(number, bytes, leaf) => take(cache, alloc, number, bytes, leaf, story),
        Step::TakesLeaf(page, version) => take_leaf(cache, alloc, page, version, story),
        Step::TakesLeavesTo(last) => take_leaves(cache, alloc, last),
        Step::Clears => {
            cache.forget();
            Ok(())
        }
        Step::Counts => story.number("objects", cache.count() as u64),
        Step::Looks(page) => tell_kept(cache, page, story),
    }
}

fn play_all<T: Taking>(
    alloc: Global,
    cache: &mut T,
    script: &[Step<'_>],
    wanted: &str,
) -> Result<(), Fail> {
    let mut story = Story::new(alloc);
    for step in script {
        play_step(cache, alloc, *step, &mut story)?;
    }
    story.is(wanted)
}

/// Plays a script over an empty cache, and compares what is told.
fn play(alloc: Global, script: &[Step<'_>], wanted: &str) -> Result<(), Fail> {
    let mut cache = PageCache::new(alloc)?;
    play_all(alloc, &mut cache, script, wanted)
}

/// Leaves that are taken in turn.
const LEAVES: &[Step<'static>] = &[
    // nothing was served yet: page 1 may be absent, no other leaf may
    Step::TakesLeaf(1, 0),
    Step::TakesLeaf(2, 0),
    Step::TakesLeaf(2, 3),
    // from then on no older version, and not none
    Step::TakesLeaf(2, 2),
    Step::TakesLeaf(2, 0),
    Step::TakesLeaf(2, 3),
    Step::TakesLeaf(1, 1),
    Step::TakesLeaf(1, 0),
];

/// The answers.
const SERVED: &str = "version 0
stale 2 1 0
version 3
stale 2 3 2
stale 2 3 0
version 3
version 1
stale 1 1 0
";

#[test]
fn refuses_stale_leaves(rt: HostRuntime) -> Result<(), Fail> {
    play(rt.alloc(), LEAVES, SERVED)
}

/// Bytes of objects, and an absent root and an absent inner node, of which no version is kept in mind.
const BYTES: &[Step<'static>] = &[
    Step::Takes(0, Some(ROOT), false),
    Step::Takes(7, Some(NODE_7), false),
    Step::Takes(2, Some(b"L\x03"), true),
    Step::Takes(2, Some(LEAF), false),
    Step::Takes(0, Some(LEAF), false),
    Step::Takes(0, None, false),
    Step::Takes(7, None, false),
    Step::Counts,
];

/// The answers.
const READ: &str = "version 1
version 1
damaged page:1:2 1
damaged page:1:2 0
damaged tree:1 0
version 0
stale 7 1 0
objects 2
";

#[test]
fn reads_each_as_its_kind(rt: HostRuntime) -> Result<(), Fail> {
    play(rt.alloc(), BYTES, READ)
}

/// The pages 1 to 65, then page 2 again, then page 66: of 65 the one that was taken longest ago goes, twice.
const MANY: &[Step<'static>] = &[
    Step::TakesLeavesTo(65),
    Step::TakesLeaf(2, 2),
    Step::TakesLeaf(66, 2),
    Step::Counts,
    Step::Looks(1),
    Step::Looks(2),
    Step::Looks(3),
    Step::Looks(4),
    Step::Looks(65),
    Step::Looks(66),
    // page 1 at version 1 behind version 2, which is no longer kept, and again once the cache is cleared
    Step::TakesLeaf(1, 1),
    Step::Clears,
    Step::TakesLeaf(1, 1),
];

/// What is told of them.
const KEPT: &str = "version 2
version 2
objects 64
gone 1
kept 2
gone 3
kept 4
kept 65
kept 66
stale 1 2 1
version 1
";

#[test]
fn keeps_64_objects_and_the_versions_of_what_went(rt: HostRuntime) -> Result<(), Fail> {
    play(rt.alloc(), MANY, KEPT)
}

/// Objects that are fetched, by their numbers, as leaves or not: the tree object, a leaf, an absent leaf, and a leaf as a node.
const FETCHED: &[(u64, bool)] = &[(0, false), (3, true), (9, true), (4, false)];

/// What is told of them, and of a fetch that fails.
const FETCHES: &str = "version 1
version 1
stale 9 1 0
damaged page:1:4 0
objects 2
failed
";

/// Fetches objects, and at last one whose get fails.
fn fetch_all<T: Taking, C: Bench>(
    cache: &mut T,
    cloud: &mut C,
    story: &mut Story,
) -> Result<(), Fail> {
    for (number, leaf) in FETCHED {
        cache.fetch_from(cloud, *number, *leaf, story)?;
    }
    story.number("objects", cache.count() as u64)?;
    cloud.wish(Wish::Fail);
    cache.fetch_from(cloud, 3, true, story)
}

fn fetch_over<C: Bench>(alloc: Global, cloud: &mut C, story: &mut Story) -> Result<(), Fail> {
    put_all(cloud, TWO_LEVELS)?;
    let mut cache = PageCache::new(alloc)?;
    fetch_all(&mut cache, cloud, story)
}

#[test]
fn fetches_from_a_cloud(rt: HostRuntime) -> Result<(), Fail> {
    let mut story = Story::new(rt.alloc());
    let mut cloud = MemoryCloud::new(rt.alloc());
    fetch_over(rt.alloc(), &mut cloud, &mut story)?;
    story.is(FETCHES)
}
