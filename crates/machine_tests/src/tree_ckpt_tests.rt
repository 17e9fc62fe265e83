use crate::checkpoints::{Mishap, Step, play, play_over};
use crate::objects::{LEFT, RIGHT, ROOT, ROOT_65, ROOT_65_LATE, with_64_entries};
use std::test::Fail;

/// A checkpoint that has no run.
const NOTHING: &str = "take tree:1
get_held tree:1
receive pu:1:0
release tree:1
done 0 0 0
";

/// A checkpoint of one record, over an empty tree.
const ONE: &str = "take tree:1
get_held tree:1
receive pu:1:0
take page:1:1
get_held page:1:1
put_held page:1:1
release page:1:1
put_held tree:1
delete pu:1:0#1
release tree:1
done 1 1 0
";

/// A checkpoint that receives its message again.
const AGAIN: &str = "take tree:1
get_held tree:1
receive pu:1:0
delete pu:1:0#1
release tree:1
done 0 1 0
";

/// A record is applied once.
const FIRST: &[Step<'static>] = &[
    Step::Tree(&[], NOTHING),
    Step::Inserts(1, b'k', 1),
    Step::Tree(&[(3, Mishap::Gives(&[1, 1, 1]))], ONE),
    Step::Leaf(1, 1, 0, 1),
    Step::Root(1, 2, 1),
    Step::Tree(&[(3, Mishap::Gives(&[1]))], AGAIN),
];

#[test]
fn applies_one_record_once(rt: HostRuntime) -> Result<(), Fail> {
    play(rt.alloc(), FIRST)
}

/// A checkpoint of the two records that are left.
const REST: &str = "take tree:1
get_held tree:1
receive pu:1:0
take page:1:1
get_held page:1:1
put_held page:1:1
release page:1:1
put_held tree:1
delete pu:1:0#2
release tree:1
done 2 2 0
";

/// Messages are withheld: the first, the second, and then none.
const GAP: &[Step<'static>] = &[
    Step::Inserts(1, b'a', 3),
    Step::Tree(&[(3, Mishap::Gives(&[2, 3]))], NOTHING),
    Step::Tree(&[(3, Mishap::Gives(&[1, 3]))], ONE),
    Step::Tree(&[], REST),
];

#[test]
fn applies_up_to_a_gap(rt: HostRuntime) -> Result<(), Fail> {
    play(rt.alloc(), GAP)
}

/// A checkpoint of 64 records, over an empty tree.
const FULL: &str = "take tree:1
get_held tree:1
receive pu:1:0
take page:1:1
get_held page:1:1
put_held page:1:1
release page:1:1
put_held tree:1
delete pu:1:0#1
release tree:1
done 64 64 0
";

/// A checkpoint that cuts page 1 into two: first the tree object, which reserves page 2, then the right page.
const CUT: &str = "take tree:1
get_held tree:1
receive pu:1:0
take page:1:1
get_held page:1:1
put_held tree:1
put_held page:1:2
put_held page:1:1
release page:1:1
put_held tree:1
delete pu:1:0#65
release tree:1
done 1 1 0
";

/// A checkpoint of page 1, whose record was moved to page 2.
const BEHIND_A_CUT: &str = "take page:1:1
get_held page:1:1
receive pu:1:1
take page:1:2
get_held page:1:2
put_held page:1:2
release page:1:2
put_held page:1:1
delete pu:1:1#1
release page:1:1
done 1 1 0
";

/// Keys 01 to 40, then an update of 40 and an insert of 41.
const SPLIT: &[Step<'static>] = &[
    Step::Inserts(1, 0x01, 64),
    Step::Tree(&[], FULL),
    Step::Updates(1, 1, 0x40, 0x75),
    Step::Inserts(65, 0x41, 1),
    Step::Tree(&[], CUT),
    Step::Root(3, 3, 1),
    Step::Leaf(1, 2, 2, 33),
    Step::Leaf(2, 1, 0, 32),
    Step::Leads(&[0x21], 1),
    Step::Leads(&[0x22], 2),
    Step::Page(1, &[], BEHIND_A_CUT),
    Step::Leaf(1, 3, 2, 33),
    Step::Leaf(2, 2, 0, 32),
];

#[test]
fn a_split_moves_what_a_page_checkpoint_applies(rt: HostRuntime) -> Result<(), Fail> {
    play(rt.alloc(), SPLIT)
}

/// A checkpoint that crashes behind the put of page 2.
const CRASHED: &str = "take tree:1
get_held tree:1
receive pu:1:0
take page:1:1
get_held page:1:1
put_held tree:1
put_held page:1:2
";

/// The next one, which leaves page 2 as it is and reserves page 3.
const ANEW: &str = "take tree:1
get_held tree:1
receive pu:1:0
take page:1:1
get_held page:1:1
put_held tree:1
put_held page:1:3
put_held page:1:1
release page:1:1
put_held tree:1
delete pu:1:0#65
release tree:1
done 1 1 0
";

/// A checkpoint of page 3, which has no messages.
const IDLE: &str = "take page:1:3
get_held page:1:3
receive pu:1:3
release page:1:3
done 0 0 0
";

/// A checkpoint of page 4, which there is not.
const ABSENT: &str = "take page:1:4
get_held page:1:4
release page:1:4
absent 4
";

/// Keys 01 to 40 and then 41, whose checkpoint crashes and is made anew when its leases are over.
const CRASH: &[Step<'static>] = &[
    Step::Inserts(1, 0x01, 64),
    Step::Tree(&[], FULL),
    Step::Inserts(65, 0x41, 1),
    Step::Crashes(8, CRASHED),
    Step::Root(2, 3, 1),
    Step::Leaf(1, 1, 0, 64),
    Step::Waits(60),
    Step::Tree(&[], ANEW),
    Step::Root(4, 4, 1),
    Step::Leaf(1, 2, 3, 33),
    Step::Page(3, &[], IDLE),
    Step::Page(4, &[], ABSENT),
];

#[test]
fn a_crashed_split_is_made_anew(rt: HostRuntime) -> Result<(), Fail> {
    play(rt.alloc(), CRASH)
}

/// A checkpoint that cuts page 1 into three: the rightmost is put first.
const CUT_IN_THREE: &str = "take tree:1
get_held tree:1
receive pu:1:0
take page:1:1
get_held page:1:1
put_held tree:1
put_held page:1:3
put_held page:1:2
put_held page:1:1
release page:1:1
put_held tree:1
delete pu:1:0#1
release tree:1
done 129 129 0
";

/// Keys 01 to 81, 43 in each piece.
const THREE: &[Step<'static>] = &[
    Step::Inserts(1, 0x01, 129),
    Step::Tree(&[], CUT_IN_THREE),
    Step::Root(2, 4, 1),
    Step::Leads(&[43], 1),
    Step::Leads(&[44], 2),
    Step::Leads(&[86], 2),
    Step::Leads(&[87], 3),
];

#[test]
fn cuts_a_leaf_of_129_records(rt: HostRuntime) -> Result<(), Fail> {
    play(rt.alloc(), THREE)
}

/// A checkpoint of 200 records, whose leaf is cut in four.
const CUT_IN_FOUR: &str = "take tree:1
get_held tree:1
receive pu:1:0
take page:1:1
get_held page:1:1
put_held tree:1
put_held page:1:4
put_held page:1:3
put_held page:1:2
put_held page:1:1
release page:1:1
put_held tree:1
delete pu:1:0#1
release tree:1
done 200 200 0
";

/// Keys 01 to c8, 50 in each piece.
const FOUR: &[Step<'static>] = &[
    Step::Inserts(1, 0x01, 200),
    Step::Tree(&[], CUT_IN_FOUR),
    Step::Root(2, 5, 1),
    Step::Leads(&[], 1),
    Step::Leads(&[0x32], 1),
    Step::Leads(&[0x33], 2),
    Step::Leads(&[0x64], 2),
    Step::Leads(&[0x65], 3),
    Step::Leads(&[0x96], 3),
    Step::Leads(&[0x97], 4),
    Step::Leaf(1, 1, 2, 50),
    Step::Leaf(2, 1, 3, 50),
    Step::Leaf(3, 1, 4, 50),
    Step::Leaf(4, 1, 0, 50),
];

#[test]
fn cuts_a_leaf_of_200_records(rt: HostRuntime) -> Result<(), Fail> {
    play(rt.alloc(), FOUR)
}

/// 65 checkpoints of 64 keys each, in ascending order: the tree object is cut by the last.
const GROWN: &[Step<'static>] = &[
    Step::Grows(65),
    Step::Root(130, 68, 2),
    Step::Leads(&[], 66),
    Step::Leads(&[0x08, 0x40], 66),
    Step::Leads(&[0x08, 0x41], 67),
    Step::Node(66, 33),
    Step::Node(67, 32),
    Step::Page(
        66,
        &[],
        "take page:1:66\nget_held page:1:66\nrelease page:1:66\nnot-leaf 66\n",
    ),
];

#[test]
fn grows_to_three_levels(rt: HostRuntime) -> Result<(), Fail> {
    play(rt.alloc(), GROWN)
}

/// A checkpoint whose key stands right of the leaf to which the tree object leads.
const RIGHT_LINK: &str = "take tree:1
get_held tree:1
receive pu:1:0
take page:1:1
get_held page:1:1
release page:1:1
take page:1:2
get_held page:1:2
put_held page:1:2
release page:1:2
put_held tree:1
delete pu:1:0#1
release tree:1
done 1 1 0
";

/// The tree object names page 2 behind it.
const NAMES: &[Step<'static>] = &[
    Step::Puts(0, ROOT),
    Step::Puts(1, LEFT),
    Step::Puts(2, RIGHT),
    Step::Inserts(1, b'p', 1),
    Step::Leads(b"p", 1),
    Step::Tree(&[], RIGHT_LINK),
    Step::Leads(b"p", 2),
];

#[test]
fn names_a_page_that_it_came_to_by_a_right_link(rt: HostRuntime) -> Result<(), Fail> {
    play(rt.alloc(), NAMES)
}

/// A checkpoint that cuts page 1, and then the tree object, whose two halves are the pages 66 and 67.
const ROOT_CUT: &str = "take tree:1
get_held tree:1
receive pu:1:0
take page:1:1
get_held page:1:1
put_held tree:1
put_held page:1:65
put_held page:1:1
release page:1:1
put_held tree:1
put_held page:1:67
put_held page:1:66
put_held tree:1
delete pu:1:0#1
release tree:1
done 65 65 0
";

/// The next one goes down over page 66, and names the new page 68 in it.
const INNER_PUT: &str = "take tree:1
get_held tree:1
receive pu:1:0
get_held page:1:66
take page:1:1
get_held page:1:1
put_held tree:1
put_held page:1:68
put_held page:1:1
release page:1:1
put_held page:1:66
put_held tree:1
delete pu:1:0#66
release tree:1
done 32 32 0
";

/// Keys 21 to 61, which cut the root, and then 01 to 20.
const LEVELS: &[Step<'static>] = &[
    Step::Inserts(1, 0x21, 65),
    Step::Tree(&[], ROOT_CUT),
    Step::Root(4, 68, 2),
    Step::Inserts(66, 0x01, 32),
    Step::Tree(&[], INNER_PUT),
    Step::Root(6, 69, 2),
];

#[test]
fn cuts_the_root(rt: HostRuntime) -> Result<(), Fail> {
    let root = with_64_entries(rt.alloc(), ROOT_65)?;
    play_over(rt.alloc(), root.as_slice(), LEVELS)
}

/// The same cuts where the tree object stands at the last version but one behind the first: its reservation takes the last one.
const ROOT_CUT_SHORT: &str = "take tree:1
get_held tree:1
receive pu:1:0
take page:1:1
get_held page:1:1
put_held tree:1
put_held page:1:65
put_held page:1:1
release page:1:1
put_held tree:1
put_held page:1:67
put_held page:1:66
release tree:1
exhausted version
";

/// The pieces are put, and the tree object that stands is the reservation, which names none of them.
const LAST_VERSION: &[Step<'static>] = &[
    Step::Inserts(1, 0x21, 65),
    Step::Tree(&[], ROOT_CUT_SHORT),
    Step::Root(18446744073709551615, 68, 1),
    Step::Leads(&[0x21], 1),
    Step::Node(66, 33),
    Step::Node(67, 32),
];

#[test]
fn stops_behind_the_pieces_of_a_root_at_the_last_version(rt: HostRuntime) -> Result<(), Fail> {
    let root = with_64_entries(rt.alloc(), ROOT_65_LATE)?;
    play_over(rt.alloc(), root.as_slice(), LAST_VERSION)
}

/// A put of page 1 when its lease is over.
const LATE: &str = "take tree:1
get_held tree:1
receive pu:1:0
take page:1:1
get_held page:1:1
put_held page:1:1
release page:1:1
release tree:1
late 30 30
";

/// A late checkpoint puts nothing; the next one goes on, and one beside a holder of the tree does not.
const STOPS: &[Step<'static>] = &[
    Step::Inserts(1, b'k', 1),
    Step::Tree(&[(6, Mishap::Waits(30))], LATE),
    Step::Has(1, 1, None),
    Step::Tree(&[], ONE),
    Step::Takes(0, 10),
    Step::Tree(&[], "take tree:1\nbusy tree:1 40\n"),
];

#[test]
fn a_late_checkpoint_puts_nothing(rt: HostRuntime) -> Result<(), Fail> {
    play(rt.alloc(), STOPS)
}
