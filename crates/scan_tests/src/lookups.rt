//! Look-ups, by a loop of their own: what begins one begins its first walk too, and it ends once.

use crate::store::{tree, who};
use crate::story::Story;
use attr_index::{Lookup, Own};
use cloud_trait::cloud::{Bench, Cloud};
use cloud_trait::lease::Lease;
use cloud_trait::turn::Turn;
use db_base::attr::Attr;
use db_base::trouble::Trouble;
use db_base::wish::Wish;
use page_cache::PageCache;
use std::alloc::Global;
use std::test::Fail;

fn begin(
    alloc: Global,
    attr: &[u8],
    cache: &mut PageCache,
) -> Result<Result<Lookup, Trouble>, Fail> {
    let attr = Attr::new(alloc, attr)?;
    Ok(Lookup::begin(alloc, tree()?, attr, cache))
}

/// Runs a look-up to its end: its calls are told, and the records found, or its trouble. The calls from this number on, from 1, are
/// answered by the first version, none of them for 0.
pub(crate) fn run<C: Bench>(
    alloc: Global,
    attr: &[u8],
    own: &Own<'_>,
    cloud: &mut C,
    cache: &mut PageCache,
    story: &mut Story,
    late: u64,
) -> Result<(), Fail> {
    match begin(alloc, attr, cache)? {
        Ok(lookup) => run_on(lookup, alloc, own, cloud, cache, story, late),
        Err(trouble) => story.trouble(&trouble),
    }
}

fn run_on<C: Bench>(
    lookup: Lookup,
    alloc: Global,
    own: &Own<'_>,
    cloud: &mut C,
    cache: &mut PageCache,
    story: &mut Story,
    late: u64,
) -> Result<(), Fail> {
    let mut lookup = lookup;
    for call in 1..20u64 {
        if late > 0 && call >= late {
            cloud.wish(Wish::Old(1));
        }
        match make(&mut lookup, alloc, own, cloud, cache, story)? {
            Turn::More => {}
            Turn::Ended(_) => return story.found(&lookup.into_pairs()),
            Turn::Stopped(trouble) => return story.trouble(&trouble),
        }
    }
    Err(Fail::from("no end"))
}

fn tell(lookup: &Lookup, story: &mut Story) -> Result<(), Fail> {
    let _none: Option<Lease> = None;
    story.call(&lookup.in_hand())
}

fn make<C: Cloud>(
    lookup: &mut Lookup,
    alloc: Global,
    own: &Own<'_>,
    cloud: &mut C,
    cache: &mut PageCache,
    story: &mut Story,
) -> Result<Turn<()>, Fail> {
    tell(lookup, story)?;
    Ok(lookup.step(alloc, cloud, who()?, cache, own))
}
