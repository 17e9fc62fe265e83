use crate::checkpoints::{Mishap, Step, play};
use crate::objects::{ALONE, HIGH_ROOT, INNER_HEAD, LEFT, RIGHT, ROOT_66, TWO_LEAVES};
use std::test::Fail;

/// A sweep of a tree that has no object.
const EMPTY: &str = "take tree:1
get_held tree:1
get_held page:1:1
list_held tree:1
release tree:1
swept 0 0
";

#[test]
fn sweeps_an_empty_tree(rt: HostRuntime) -> Result<(), Fail> {
    play(rt.alloc(), &[Step::Sweeps(&[], EMPTY)])
}

/// A sweep of two levels: a node, its two leaves, and two pages that nothing reaches.
const SWEPT: &str = "take tree:1
get_held tree:1
get_held page:1:3
get_held page:1:1
get_held page:1:2
list_held tree:1
remove_held page:1:4
remove_held page:1:5
release tree:1
swept 3 2
";

/// The same once more.
const AGAIN: &str = "take tree:1
get_held tree:1
get_held page:1:3
get_held page:1:1
get_held page:1:2
list_held tree:1
release tree:1
swept 3 0
";

/// What nothing reaches is removed, and nothing else.
const ORPHANS: &[Step<'static>] = &[
    Step::Puts(0, HIGH_ROOT),
    Step::Puts(3, TWO_LEAVES),
    Step::Puts(1, LEFT),
    Step::Puts(2, RIGHT),
    Step::Puts(4, RIGHT),
    Step::Puts(5, ALONE),
    Step::Sweeps(&[], SWEPT),
    Step::Has(4, 1, Some(RIGHT)),
    Step::Has(4, 2, None),
    Step::Has(2, 1, Some(RIGHT)),
    Step::Sweeps(&[], AGAIN),
];

#[test]
fn removes_what_nothing_reaches(rt: HostRuntime) -> Result<(), Fail> {
    play(rt.alloc(), ORPHANS)
}

/// A sweep whose lease is over before its second removal.
const LATE: &str = "take tree:1
get_held tree:1
get_held page:1:3
get_held page:1:1
get_held page:1:2
list_held tree:1
remove_held page:1:4
remove_held page:1:5
release tree:1
late 60 60
";

/// What was removed stays removed, and the rest is removed by the next sweep.
const REST: &str = "take tree:1
get_held tree:1
get_held page:1:3
get_held page:1:1
get_held page:1:2
list_held tree:1
remove_held page:1:5
release tree:1
swept 3 1
";

const SLOW: &[Step<'static>] = &[
    Step::Puts(0, HIGH_ROOT),
    Step::Puts(3, TWO_LEAVES),
    Step::Puts(1, LEFT),
    Step::Puts(2, RIGHT),
    Step::Puts(4, RIGHT),
    Step::Puts(5, ALONE),
    Step::Sweeps(&[(8, Mishap::Waits(60))], LATE),
    Step::Sweeps(&[], REST),
];

#[test]
fn stops_once_its_lease_is_over(rt: HostRuntime) -> Result<(), Fail> {
    play(rt.alloc(), SLOW)
}

/// A right page is absent.
const ABSENT: &str = "take tree:1
get_held tree:1
get_held page:1:1
get_held page:1:2
release tree:1
absent 2
";

/// Page 1 leads to a page that is not there, and nothing is removed.
const BROKEN: &[Step<'static>] = &[
    Step::Puts(1, LEFT),
    Step::Puts(4, RIGHT),
    Step::Sweeps(&[], ABSENT),
    Step::Has(4, 2, None),
];

#[test]
fn removes_nothing_from_a_broken_tree(rt: HostRuntime) -> Result<(), Fail> {
    play(rt.alloc(), BROKEN)
}

/// Another one has the tree's lease.
const BUSY: &str = "take tree:1
busy tree:1 9
";

#[test]
fn stops_at_a_held_lease(rt: HostRuntime) -> Result<(), Fail> {
    play(rt.alloc(), &[Step::Takes(0, 9), Step::Sweeps(&[], BUSY)])
}

/// Sweeps that fail at one call each: at the take there is nothing to give back.
const NOT_TAKEN: &str = "take tree:1
failed
";

const NO_ROOT: &str = "take tree:1
get_held tree:1
release tree:1
failed
";

const NO_NODE: &str = "take tree:1
get_held tree:1
get_held page:1:3
release tree:1
failed
";

const NO_LEAF: &str = "take tree:1
get_held tree:1
get_held page:1:3
get_held page:1:1
release tree:1
failed
";

const NO_RIGHT_LEAF: &str = "take tree:1
get_held tree:1
get_held page:1:3
get_held page:1:1
get_held page:1:2
release tree:1
failed
";

const NO_LIST: &str = "take tree:1
get_held tree:1
get_held page:1:3
get_held page:1:1
get_held page:1:2
list_held tree:1
release tree:1
failed
";

const NOT_REMOVED: &str = "take tree:1
get_held tree:1
get_held page:1:3
get_held page:1:1
get_held page:1:2
list_held tree:1
remove_held page:1:4
release tree:1
failed
";

const HALF_REMOVED: &str = "take tree:1
get_held tree:1
get_held page:1:3
get_held page:1:1
get_held page:1:2
list_held tree:1
remove_held page:1:4
remove_held page:1:5
release tree:1
failed
";

/// A sweep that can't have the lease.
const HELD: &str = "take tree:1
busy tree:1 60
";

/// A removed page is no page.
const GONE: &str = "take page:1:4
get_held page:1:4
release page:1:4
absent 4
";

/// Each call fails in its turn, and a later sweep removes what is left. One whose release fails is done all the same, and its lease lasts.
const FAILING: &[Step<'static>] = &[
    Step::Puts(0, HIGH_ROOT),
    Step::Puts(3, TWO_LEAVES),
    Step::Puts(1, LEFT),
    Step::Puts(2, RIGHT),
    Step::Puts(4, RIGHT),
    Step::Puts(5, ALONE),
    Step::Sweeps(&[(1, Mishap::Fails)], NOT_TAKEN),
    Step::Sweeps(&[(2, Mishap::Fails)], NO_ROOT),
    Step::Sweeps(&[(3, Mishap::Fails)], NO_NODE),
    Step::Sweeps(&[(4, Mishap::Fails)], NO_LEAF),
    Step::Sweeps(&[(5, Mishap::Fails)], NO_RIGHT_LEAF),
    Step::Sweeps(&[(6, Mishap::Fails)], NO_LIST),
    Step::Sweeps(&[(7, Mishap::Fails)], NOT_REMOVED),
    Step::Sweeps(&[(8, Mishap::Fails)], HALF_REMOVED),
    Step::Page(4, &[], GONE),
    Step::Sweeps(&[(8, Mishap::Fails)], REST),
    Step::Sweeps(&[], HELD),
    Step::Waits(60),
    Step::Sweeps(&[], AGAIN),
];

#[test]
fn fails_at_each_call(rt: HostRuntime) -> Result<(), Fail> {
    play(rt.alloc(), FAILING)
}

/// Each call that changes something fails in its turn once that is changed.
const LOSING: &[Step<'static>] = &[
    Step::Puts(0, HIGH_ROOT),
    Step::Puts(3, TWO_LEAVES),
    Step::Puts(1, LEFT),
    Step::Puts(2, RIGHT),
    Step::Puts(4, RIGHT),
    Step::Puts(5, ALONE),
    Step::Sweeps(&[(1, Mishap::Loses)], NOT_TAKEN),
    Step::Sweeps(&[], HELD),
    Step::Waits(60),
    Step::Sweeps(&[(7, Mishap::Loses)], NOT_REMOVED),
    Step::Page(4, &[], GONE),
    Step::Sweeps(&[(8, Mishap::Loses)], REST),
    Step::Sweeps(&[(7, Mishap::Loses)], AGAIN),
    Step::Sweeps(&[], AGAIN),
];

#[test]
fn goes_on_behind_what_it_lost(rt: HostRuntime) -> Result<(), Fail> {
    play(rt.alloc(), LOSING)
}

/// A checkpoint that cuts page 1, and then the inner node of page 65, and crashes behind the put of its right piece, page 67.
const INNER_CUT: &str = "take tree:1
get_held tree:1
receive pu:1:0
get_held page:1:65
take page:1:1
get_held page:1:1
put_held tree:1
put_held page:1:66
put_held page:1:1
release page:1:1
put_held tree:1
put_held page:1:67
";

/// Page 66 is in the chain of the leaves, though no node names it, and page 67 is in none.
const INNER_SWEPT: &str = "take tree:1
get_held tree:1
get_held page:1:65
get_held page:1:1
get_held page:1:66
list_held tree:1
remove_held page:1:67
release tree:1
swept 3 1
";

/// The next checkpoint comes to page 66 by a right link, and cuts the node of page 65 anew, to page 68.
const INNER_ANEW: &str = "take tree:1
get_held tree:1
receive pu:1:0
get_held page:1:65
take page:1:1
get_held page:1:1
release page:1:1
take page:1:1
get_held page:1:1
release page:1:1
take page:1:66
get_held page:1:66
release page:1:66
put_held tree:1
put_held page:1:68
put_held page:1:65
put_held tree:1
delete pu:1:0#1
release tree:1
done 0 65 0
";

/// A sweep behind it.
const INNER_AGAIN: &str = "take tree:1
get_held tree:1
get_held page:1:65
get_held page:1:68
get_held page:1:1
get_held page:1:66
list_held tree:1
release tree:1
swept 4 0
";

/// A cut of an inner node crashes before the node is put, so that its piece is an orphan.
const INNER: &[Step<'static>] = &[
    Step::Puts(0, ROOT_66),
    Step::Fills(65, INNER_HEAD),
    Step::Inserts(1, 0x21, 65),
    Step::Crashes(13, INNER_CUT),
    Step::Root(3, 68, 2),
    Step::Node(65, 64),
    Step::Node(67, 32),
    Step::Waits(60),
    Step::Sweeps(&[], INNER_SWEPT),
    Step::Node(65, 64),
    Step::Tree(&[], INNER_ANEW),
    Step::Root(5, 69, 2),
    Step::Node(65, 33),
    Step::Node(68, 32),
    Step::Sweeps(&[], INNER_AGAIN),
];

#[test]
fn removes_a_piece_of_an_inner_node(rt: HostRuntime) -> Result<(), Fail> {
    play(rt.alloc(), INNER)
}
