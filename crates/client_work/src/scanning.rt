ghost use Rattle.std.specs.Prelude.{◌≡◌, IfSome};
ghost use Rattle.client_work.specs.Left.{behind_scan};
ghost use Rattle.client_work.specs.Session.{Follows, IsListed, ListsLeaf, ScansOf, StepsScanning, begins_by, acting_of, in_hand};

use crate::answer::{Answer, Begun};
use crate::left::{Left, Rest};
use crate::listing::{Listing, list_items};
use crate::shown::Shown;
use crate::work::stopped;
use cloud_trait::cloud::Cloud;
use cloud_trait::turn::Turn;
use cloud_trait::who::Who;
use db_base::ids::PageId;
use db_base::trouble::Trouble;
use page_cache::PageCache;
use range_scan::RangeScan;
use recover_run::home::Home;
use report_types::pair_list::PairList;
use std::alloc::Global;
use txn_buffer::buffer::TxnBuffer;

/// Begins a scan beside the open client: what is in hand then, and the records where it ended at once.
#[inline(never)]
pub(crate) fn begin_scanning(
    alloc: Global,
    home: Home,
    mut scan: RangeScan,
    cache: &mut PageCache,
    buffer: &TxnBuffer,
) -> (Left<(Home, Listing)>, Shown, Begun)
    ensures { ScansOf home scan cache.old
        (acting_of buffer.now (behind_scan result.0) cache.new result.1) result.2 }
{
    let turn = scan.ready(alloc, cache);
    let listing = Listing {
        scan,
        pairs: PairList::new(alloc),
    };
    let (left, shown, turn) = follow(alloc, home, listing, cache, buffer, turn);
    (left, shown, begun(turn))
}

/// The begin of an operation that came to this.
fn begun(turn: Turn<Answer>) -> Begun
    ensures { begins_by turn result }
{
    match turn {
        Turn::More => Begun::Working,
        Turn::Ended(answer) => Begun::Answered(answer),
        Turn::Stopped(trouble) => Begun::Answered(Answer::Trouble(trouble)),
    }
}

/// Makes the call in hand of a scan, beside the open client: what is in hand then, and the records where it ended.
pub(crate) fn step_scanning<C: Cloud>(
    alloc: Global,
    cloud: &mut C,
    who: Who,
    home: Home,
    mut listing: Listing,
    cache: &mut PageCache,
    buffer: &TxnBuffer,
) -> (Left<(Home, Listing)>, Shown, Turn<Answer>)
    ensures { StepsScanning who (C.seen cloud.old) (C.seen cloud.new) (in_hand home listing cache.old)
        (acting_of buffer.now (behind_scan result.0) cache.new result.1) result.2 }
{
    let turn = listing.scan.step(alloc, cloud, who, cache);
    follow(alloc, home, listing, cache, buffer, turn)
}

/// Goes on by what a turn of the scan came to: at the end of a leaf its records are listed, and the scan goes on behind it.
fn follow(
    alloc: Global,
    home: Home,
    listing: Listing,
    cache: &PageCache,
    buffer: &TxnBuffer,
    turn: Turn<PageId>,
) -> (Left<(Home, Listing)>, Shown, Turn<Answer>)
    ensures { Follows home listing turn
        (acting_of buffer.now (behind_scan result.0) cache.now result.1) result.2 }
{
    match turn {
        Turn::More => (Left::Goes((home, listing)), Shown::Nothing, Turn::More),
        Turn::Ended(_) => list_leaf(alloc, home, listing, cache, buffer),
        Turn::Stopped(trouble) => (
            Left::Rests(stopped(&trouble, home)),
            Shown::Nothing,
            Turn::Ended(Answer::Trouble(trouble)),
        ),
    }
}

/// Lists the records of the leaf at which the scan ended, and goes on behind it where something follows.
fn list_leaf(
    alloc: Global,
    home: Home,
    listing: Listing,
    cache: &PageCache,
    buffer: &TxnBuffer,
) -> (Left<(Home, Listing)>, Shown, Turn<Answer>)
    ensures { ListsLeaf home listing
        (acting_of buffer.now (behind_scan result.0) cache.now result.1) result.2 }
{
    let Listing { mut scan, pairs } = listing;
    let Some(pairs) = with_leaf(alloc, &home, &scan, pairs, cache, buffer) else {
        return (
            Left::Rests(Rest::Broken(home.into_lease())),
            Shown::Nothing,
            Turn::Ended(Answer::Trouble(Trouble::Memory)),
        );
    };
    if scan.go_on() {
        let listing = Listing { scan, pairs };
        return (Left::Goes((home, listing)), Shown::Nothing, Turn::More);
    }
    (
        Left::Rests(Rest::Idle(home)),
        Shown::Listed(pairs),
        Turn::Ended(Answer::Scan),
    )
}

/// The records listed before with those of the leaf at which the scan ended, as the client sees them; none where memory ran out.
fn with_leaf(
    alloc: Global,
    home: &Home,
    scan: &RangeScan,
    pairs: PairList,
    cache: &PageCache,
    buffer: &TxnBuffer,
) -> Option<PairList>
    ensures { IfSome result (λ all. IsListed home.now buffer.now scan.now cache.now pairs all) }
{
    let Ok(items) = scan.items(alloc, cache, home.client, &home.head, buffer) else {
        return None;
    };
    let mut all = pairs;
    match list_items(&mut all, items) {
        Ok(()) => Some(all),
        Err(_) => None,
    }
}
