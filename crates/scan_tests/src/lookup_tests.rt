use crate::index_objects::{
    CUT_1, CUT_1_WHOLE, CUT_2, CUT_3, CUT_4, CUT_ROOT_OF_1, CUT_ROOT_OF_2, HEAD_WITH_ENTRY, INDEX,
    INDEX_OF_OLD, INDEX_WITH_PREFIX, RECORDS,
};
use crate::script::Step;
use crate::session::play;
use std::test::Fail;

/// Look-ups of a, of b and of c, which no record has. They get the leaf of the index, and the leaf of each record that is listed.
const FOUND: &str = "get tree:9
get page:9:1
get tree:1
get page:1:1
get page:1:1
found 2
62=75
6263=76
get page:9:1
get page:1:1
get page:1:1
found 2
64=78
66=7a
get page:9:1
found 0
";

#[test]
fn finds_the_records_of_an_attribute(rt: HostRuntime) -> Result<(), Fail> {
    let steps = [
        Step::PutsInIndex(1, INDEX),
        Step::LooksUp(b"a"),
        Step::LooksUp(b"b"),
        Step::LooksUp(b"c"),
    ];
    play(rt.alloc(), RECORDS, &steps, FOUND)
}

/// A look-up of ab, of which a is a prefix: the entry of bc under a has the same bytes behind its first one as that of c under ab.
const FOUND_LONGER: &str = "get tree:9
get page:9:1
get tree:1
get page:1:1
found 1
63=77
";

#[test]
fn tells_an_attribute_from_its_prefix(rt: HostRuntime) -> Result<(), Fail> {
    let steps = [Step::PutsInIndex(1, INDEX), Step::LooksUp(b"ab")];
    play(rt.alloc(), RECORDS, &steps, FOUND_LONGER)
}

/// A look-up of a, which reads b, c, d, e and g: c and d have other attributes, e has none, and g is gone.
const FOUND_STILL: &str = "get tree:9
get page:9:1
get tree:1
get page:1:1
get page:1:1
get page:1:1
get page:1:1
get page:1:1
found 1
62=75
";

#[test]
fn leaves_out_what_has_the_attribute_no_more(rt: HostRuntime) -> Result<(), Fail> {
    let steps = [Step::PutsInIndex(1, INDEX_OF_OLD), Step::LooksUp(b"a")];
    play(rt.alloc(), RECORDS, &steps, FOUND_STILL)
}

/// A look-up of a in an index that has its length and its bytes alone as a key.
const FOUND_BESIDE: &str = "get tree:9
get page:9:1
get tree:1
get page:1:1
found 1
62=75
";

#[test]
fn passes_over_what_is_no_entry(rt: HostRuntime) -> Result<(), Fail> {
    let steps = [Step::PutsInIndex(1, INDEX_WITH_PREFIX), Step::LooksUp(b"a")];
    play(rt.alloc(), RECORDS, &steps, FOUND_BESIDE)
}

/// Look-ups of b, whose entries are in leaves 3 and 4. The second one gets the tree object and leaf 1 as they were before the cut, in
/// place of leaf 4, and lists no more than f there.
const FOUND_BEHIND: &str = "get tree:9
get page:9:2
get page:9:3
get tree:9
get page:9:2
get page:9:3
get page:9:4
get tree:1
get page:1:1
get page:1:1
found 2
64=78
66=7a
get tree:9
get page:9:2
get page:9:3
get tree:9
get page:9:1
get page:1:1
get page:1:1
found 2
64=78
66=7a
";

#[test]
fn lists_each_key_once(rt: HostRuntime) -> Result<(), Fail> {
    let steps = [
        Step::PutsInIndex(0, CUT_ROOT_OF_1),
        Step::PutsInIndex(1, CUT_1_WHOLE),
        Step::PutsInIndex(4, CUT_4),
        Step::PutsInIndex(3, CUT_3),
        Step::PutsInIndex(2, CUT_2),
        Step::PutsInIndex(1, CUT_1),
        Step::PutsInIndex(0, CUT_ROOT_OF_2),
        Step::LooksUp(b"b"),
        Step::LooksUpLate(b"b", 4),
    ];
    play(rt.alloc(), RECORDS, &steps, FOUND_BEHIND)
}

/// A look-up of a, of a client that has inserts of p and its entry pending, and noted inserts of q and its entry and a deletion of b.
const FOUND_OWN: &str = "get tree:9
get page:9:1
get tree:1
get page:1:1
get page:1:1
get page:1:1
get page:1:1
found 3
6263=76
70=77
71=78
";

#[test]
fn finds_what_its_client_changed(rt: HostRuntime) -> Result<(), Fail> {
    let steps = [
        Step::PutsInIndex(1, INDEX),
        Step::HasHead(HEAD_WITH_ENTRY),
        Step::InsertsWith(b"q", b"x", b"a"),
        Step::Lists(b"\x01aq"),
        Step::Deletes(b"b"),
        Step::LooksUp(b"a"),
    ];
    play(rt.alloc(), RECORDS, &steps, FOUND_OWN)
}

#[test]
fn finds_nothing_in_an_empty_index(rt: HostRuntime) -> Result<(), Fail> {
    play(
        rt.alloc(),
        RECORDS,
        &[Step::LooksUp(b"a")],
        "get tree:9\nget page:9:1\nfound 0\n",
    )
}

/// What stops a look-up of a at its first call, in the index, and at a record, and what it tells.
const TROUBLES: [(Step<'static>, &str); 3] = [
    (Step::Fails, "get tree:9\nfailed\n"),
    (
        Step::PutsInIndex(1, b"L\x03"),
        "get tree:9\nget page:9:1\ndamaged page:9:1 1\n",
    ),
    (
        Step::Puts(1, b"L\x03"),
        "get tree:9\nget page:9:1\nget tree:1\nget page:1:1\ndamaged page:1:1 1\n",
    ),
];

#[test]
fn stops_at_troubles(rt: HostRuntime) -> Result<(), Fail> {
    for (trouble, wanted) in TROUBLES {
        let steps = [Step::PutsInIndex(1, INDEX), trouble, Step::LooksUp(b"a")];
        play(rt.alloc(), RECORDS, &steps, wanted)?;
    }
    Ok(())
}
