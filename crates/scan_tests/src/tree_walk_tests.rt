use crate::objects::{
    LEAF_3_FAR, LEAF_3_NEWER, LEAF_4_TURNING, NODE_7_HIGH, NODE_8_OF_3, ROOT_OF_7, ROOT_OF_9,
    THREE_LEVELS,
};
use crate::script::Step;
use crate::session::play;
use std::test::Fail;

/// Walks to p, to p over what is kept, a fresh one to x, which gets the tree object anew, and one to the left end, which goes down by
/// first entries.
const KEPT: &str = "get tree:1
get page:1:8
get page:1:3
leaf 3
get page:1:3
leaf 3
get tree:1
get page:1:4
leaf 4
get page:1:7
get page:1:1
leaf 1
";

#[test]
fn gets_only_the_leaf_of_a_kept_tree(rt: HostRuntime) -> Result<(), Fail> {
    let walks = [
        Step::Walks(b"p"),
        Step::Walks(b"p"),
        Step::WalksAnew(b"x"),
        Step::Walks(b""),
    ];
    play(rt.alloc(), THREE_LEVELS, &walks, KEPT)
}

/// Two walks in the empty tree, which keeps that there is no tree object.
const EMPTY: &str = "get tree:1
get page:1:1
leaf 1
get page:1:1
leaf 1
";

#[test]
fn takes_absent_objects_for_the_empty_tree(rt: HostRuntime) -> Result<(), Fail> {
    play(
        rt.alloc(),
        &[],
        &[Step::Walks(b"p"), Step::Walks(b"p")],
        EMPTY,
    )
}

/// Two walks over right links: the second one gets anew what the first one passed.
const RIGHT_LINKS: &str = "get tree:1
get page:1:7
get page:1:8
get page:1:3
get page:1:4
leaf 4
get tree:1
get page:1:7
get page:1:8
get page:1:3
get page:1:4
leaf 4
";

#[test]
fn drops_what_it_passed_where_it_follows_a_right_link(rt: HostRuntime) -> Result<(), Fail> {
    let walks = [
        Step::Puts(0, ROOT_OF_7),
        Step::Puts(8, NODE_8_OF_3),
        Step::Walks(b"x"),
        Step::Walks(b"x"),
    ];
    play(rt.alloc(), THREE_LEVELS, &walks, RIGHT_LINKS)
}

/// A walk to a leaf of version 2, and one that gets its version 1.
const OLDER: &str = "get tree:1
get page:1:8
get page:1:3
leaf 3
get page:1:3
stale 3 2 1
";

#[test]
fn stops_at_an_older_leaf(rt: HostRuntime) -> Result<(), Fail> {
    let walks = [
        Step::Puts(3, LEAF_3_NEWER),
        Step::Walks(b"p"),
        Step::GetsVersion(1),
        Step::Walks(b"p"),
    ];
    play(rt.alloc(), THREE_LEVELS, &walks, OLDER)
}

/// A walk whose first get fails, and one behind it, for which nothing is kept.
const FAILED: &str = "get tree:1
failed
get tree:1
get page:1:8
get page:1:3
leaf 3
";

#[test]
fn stops_where_a_get_fails(rt: HostRuntime) -> Result<(), Fail> {
    let walks = [Step::Fails, Step::Walks(b"p"), Step::Walks(b"p")];
    play(rt.alloc(), THREE_LEVELS, &walks, FAILED)
}

/// A tree object or a page that is put over one of the tree, the key of a walk, and what is told of it.
const TROUBLES: [(u64, &[u8], &[u8], &str); 5] = [
    (
        0,
        ROOT_OF_9,
        b"p",
        "get tree:1\nget page:1:9\nstale 9 1 0\n",
    ),
    (
        3,
        LEAF_3_FAR,
        b"p",
        "get tree:1\nget page:1:8\nget page:1:3\nbad-fence 3 6d 6e\n",
    ),
    (
        7,
        NODE_7_HIGH,
        b"c",
        "get tree:1\nget page:1:7\ndamaged page:1:7 10\n",
    ),
    (
        3,
        b"L\x03",
        b"p",
        "get tree:1\nget page:1:8\nget page:1:3\ndamaged page:1:3 1\n",
    ),
    (
        4,
        LEAF_4_TURNING,
        b"x",
        "get tree:1\nget page:1:8\nget page:1:4\nloop 4\n",
    ),
];

#[test]
fn stops_at_troubles(rt: HostRuntime) -> Result<(), Fail> {
    for (number, bytes, to, wanted) in TROUBLES {
        let walk = [Step::Puts(number, bytes), Step::Walks(to)];
        play(rt.alloc(), THREE_LEVELS, &walk, wanted)?;
    }
    Ok(())
}
