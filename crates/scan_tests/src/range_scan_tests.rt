use crate::objects::{HEAD, LEAF_3_FAR, LEAF_3_NEWER, LEAF_3_TURNING, TWO_LEVELS};
use crate::script::Step;
use crate::session::play;
use std::test::Fail;

/// A scan from h on and below q, of a client that has an insert of p pending, and an insert of j and a deletion of n noted.
const FROM_LEAF_TO_LEAF: &str = "get tree:1
get page:1:2
leaf 2
68=76
69=76
6a=61
get page:1:3
leaf 3
6f=76 61
70=77
";

#[test]
fn goes_from_leaf_to_leaf(rt: HostRuntime) -> Result<(), Fail> {
    let steps = [
        Step::HasHead(HEAD),
        Step::Inserts(b"j", b"a"),
        Step::Deletes(b"n"),
        Step::Scans(b"h", b"q"),
    ];
    play(rt.alloc(), TWO_LEVELS, &steps, FROM_LEAF_TO_LEAF)
}

/// A scan of the whole tree, and one more, over the tree object that is kept, that ends behind the leaf whose high key is its end, and
/// one whose end is not above its begin.
const FROM_THE_LEFT_END: &str = "get tree:1
get page:1:1
leaf 1
62=76
63=76
get page:1:2
leaf 2
68=76
69=76
get page:1:3
leaf 3
6e=76
6f=76 61
get page:1:4
leaf 4
75=76
76=76
get page:1:1
leaf 1
62=76
63=76
get page:1:2
leaf 2
68=76
69=76
get page:1:2
leaf 2
";

#[test]
fn goes_from_the_left_end(rt: HostRuntime) -> Result<(), Fail> {
    let steps = [
        Step::Scans(b"", b""),
        Step::Scans(b"", b"m"),
        Step::Scans(b"h", b"c"),
    ];
    play(rt.alloc(), TWO_LEVELS, &steps, FROM_THE_LEFT_END)
}

/// A scan that gets leaf 3 at version 2, and then one that gets it at version 1.
const STALE: &str = "get tree:1
get page:1:3
leaf 3
6e=76
get page:1:2
leaf 2
69=76
get page:1:3
stale 3 2 1
";

#[test]
fn stops_at_a_stale_right_page(rt: HostRuntime) -> Result<(), Fail> {
    let steps = [
        Step::Puts(3, LEAF_3_NEWER),
        Step::Scans(b"n", b"o"),
        Step::ScansLate(b"i", b"", 2),
    ];
    play(rt.alloc(), TWO_LEVELS, &steps, STALE)
}

/// A leaf 3, and what a scan over it tells.
const TROUBLES: [(&[u8], &str); 2] = [
    (
        LEAF_3_FAR,
        "get tree:1\nget page:1:2\nleaf 2\n69=76\nget page:1:3\nbad-fence 3 6d 6e\n",
    ),
    (
        LEAF_3_TURNING,
        "get tree:1\nget page:1:2\nleaf 2\n69=76\nget page:1:3\nloop 2\n",
    ),
];

#[test]
fn stops_behind_a_leaf(rt: HostRuntime) -> Result<(), Fail> {
    for (bytes, wanted) in TROUBLES {
        let steps = [Step::Puts(3, bytes), Step::Scans(b"i", b"")];
        play(rt.alloc(), TWO_LEVELS, &steps, wanted)?;
    }
    Ok(())
}

/// A scan from i on tells at each leaf the low key of the next one, and none at the right end; one that ends in leaf 1 tells it too.
const RESUMED: &str = "get tree:1
get page:1:2
leaf 2
6d
get page:1:3
leaf 3
74
get page:1:4
leaf 4
none
get page:1:1
leaf 1
67
";

#[test]
fn tells_where_a_new_scan_goes_on(rt: HostRuntime) -> Result<(), Fail> {
    let steps = [Step::Resumes(b"i", b""), Step::Resumes(b"", b"c")];
    play(rt.alloc(), TWO_LEVELS, &steps, RESUMED)
}
