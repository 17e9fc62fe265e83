use crate::objects::{HEAD, THREE_LEVELS};
use crate::script::Step;
use crate::session::play;
use std::test::Fail;

/// Reads of n, which leaf 3 has; of m, which it lacks; of p, of which the head has an insert of w pending; and of p again, once an
/// insert of a is noted.
const READS: &[Step<'static>] = &[
    Step::HasHead(HEAD),
    Step::Reads(b"n"),
    Step::Reads(b"m"),
    Step::Reads(b"p"),
    Step::Inserts(b"p", b"a"),
    Step::Reads(b"p"),
];

/// What they tell.
const VALUES: &str = "get tree:1
get page:1:8
get page:1:3
leaf 3
76
get page:1:3
leaf 3
none
get page:1:3
leaf 3
77
get page:1:3
leaf 3
61
";

#[test]
fn reads_what_its_client_sees(rt: HostRuntime) -> Result<(), Fail> {
    play(rt.alloc(), THREE_LEVELS, READS, VALUES)
}

/// Reads of h, in a leaf of format 1; of o, which has an attribute; of o after an update, which keeps it; and after an insert, which
/// clears it.
const READS_OF_ATTRIBUTES: &[Step<'static>] = &[
    Step::Reads(b"h"),
    Step::Reads(b"o"),
    Step::Updates(b"o", b"w"),
    Step::Reads(b"o"),
    Step::Inserts(b"o", b"x"),
    Step::Reads(b"o"),
];

/// What they tell: after a payload the attribute, where there is one.
const ATTRIBUTES: &str = "get tree:1
get page:1:7
get page:1:2
leaf 2
76
get page:1:8
get page:1:3
leaf 3
76 61
get page:1:3
leaf 3
77 61
get page:1:3
leaf 3
78
";

#[test]
fn reads_attributes(rt: HostRuntime) -> Result<(), Fail> {
    play(rt.alloc(), THREE_LEVELS, READS_OF_ATTRIBUTES, ATTRIBUTES)
}
