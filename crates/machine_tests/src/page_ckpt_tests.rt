use crate::checkpoints::{Mishap, Step, play};
use crate::objects::{ALONE, ALONE_UPDATED, INNER, LEFT, LEFT_RAISED, RIGHT, RIGHT_UPDATED};
use std::test::Fail;

/// A checkpoint of page 1 with a run of two, one of each of two clients.
const APPLIED: &str = "take page:1:1
get_held page:1:1
receive pu:1:1
put_held page:1:1
delete pu:1:1#1
release page:1:1
done 2 2 0
";

/// A checkpoint that receives the first message again, twice.
const AGAIN: &str = "take page:1:1
get_held page:1:1
receive pu:1:1
delete pu:1:1#1
release page:1:1
done 0 1 0
";

/// A run is applied once.
const RUN: &[Step<'static>] = &[
    Step::Puts(1, ALONE),
    Step::Updates(2, 1, b'a', b'x'),
    Step::Updates(1, 1, b'a', b'w'),
    Step::Page(1, &[], APPLIED),
    Step::Has(1, 2, Some(ALONE_UPDATED)),
    Step::Page(1, &[(3, Mishap::Gives(&[1, 1]))], AGAIN),
    Step::Has(1, 3, None),
];

#[test]
fn applies_a_run_once(rt: HostRuntime) -> Result<(), Fail> {
    play(rt.alloc(), RUN)
}

/// A checkpoint that has no run.
const NO_RUN: &str = "take page:1:1
get_held page:1:1
receive pu:1:1
release page:1:1
done 0 0 0
";

/// A checkpoint of three records, whose first deletion fails.
const LEFT_ONE: &str = "take page:1:1
get_held page:1:1
receive pu:1:1
put_held page:1:1
delete pu:1:1#1
release page:1:1
done 3 2 1
";

/// The first message is withheld, and then it is not.
const GAP: &[Step<'static>] = &[
    Step::Puts(1, ALONE),
    Step::Updates(1, 1, b'a', b'w'),
    Step::Updates(1, 2, b'a', b'x'),
    Step::Updates(1, 3, b'a', b'y'),
    Step::Page(1, &[(3, Mishap::Gives(&[2, 3]))], NO_RUN),
    Step::Page(1, &[(5, Mishap::Fails)], LEFT_ONE),
];

#[test]
fn applies_nothing_behind_a_gap(rt: HostRuntime) -> Result<(), Fail> {
    play(rt.alloc(), GAP)
}

/// A checkpoint of an absent page.
const ABSENT: &str = "take page:1:4
get_held page:1:4
release page:1:4
absent 4
";

/// Page 1 is the empty leaf where it is absent.
const ABSENT_PAGES: &[Step<'static>] = &[Step::Page(1, &[], NO_RUN), Step::Page(4, &[], ABSENT)];

#[test]
fn page_1_alone_may_be_absent(rt: HostRuntime) -> Result<(), Fail> {
    play(rt.alloc(), ABSENT_PAGES)
}

/// A checkpoint whose record a split moved to page 2.
const RIGHT_FIRST: &str = "take page:1:1
get_held page:1:1
receive pu:1:1
take page:1:2
get_held page:1:2
put_held page:1:2
release page:1:2
put_held page:1:1
delete pu:1:1#1
release page:1:1
done 1 1 0
";

/// Page 1 has nothing of the record but its number, and its put in format 2 comes all the same.
const MOVED: &[Step<'static>] = &[
    Step::Puts(1, LEFT),
    Step::Puts(2, RIGHT),
    Step::Updates(1, 1, b'c', b'w'),
    Step::Page(1, &[], RIGHT_FIRST),
    Step::Has(2, 2, Some(RIGHT_UPDATED)),
    Step::Has(1, 2, Some(LEFT_RAISED)),
];

#[test]
fn puts_the_right_page_first(rt: HostRuntime) -> Result<(), Fail> {
    play(rt.alloc(), MOVED)
}

/// A checkpoint whose lease of page 1 ends before the put of page 2, whose own lease lasts.
const HOME_LATE: &str = "take page:1:1
get_held page:1:1
receive pu:1:1
take page:1:2
get_held page:1:2
put_held page:1:2
release page:1:2
release page:1:1
late 30 30
";

/// The right page is put under both leases.
const LATE: &[Step<'static>] = &[
    Step::Puts(1, LEFT),
    Step::Puts(2, RIGHT),
    Step::Updates(1, 1, b'c', b'w'),
    Step::Page(
        1,
        &[(4, Mishap::Waits(10)), (6, Mishap::Waits(20))],
        HOME_LATE,
    ),
    Step::Has(2, 2, None),
];

#[test]
fn a_right_page_is_late_with_its_home(rt: HostRuntime) -> Result<(), Fail> {
    play(rt.alloc(), LATE)
}

/// A checkpoint of an inner node.
const NO_LEAF: &str = "take page:1:2
get_held page:1:2
release page:1:2
not-leaf 2
";

/// A checkpoint that comes to it by a right link.
const NO_RIGHT_LEAF: &str = "take page:1:1
get_held page:1:1
receive pu:1:1
take page:1:2
get_held page:1:2
release page:1:2
release page:1:1
damaged page:1:2 0
";

/// Page 2 is an inner node.
const NODE: &[Step<'static>] = &[
    Step::Puts(1, LEFT),
    Step::Puts(2, INNER),
    Step::Updates(1, 1, b'c', b'w'),
    Step::Page(2, &[], NO_LEAF),
    Step::Page(1, &[], NO_RIGHT_LEAF),
];

#[test]
fn an_inner_node_is_no_leaf(rt: HostRuntime) -> Result<(), Fail> {
    play(rt.alloc(), NODE)
}
