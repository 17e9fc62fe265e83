use crate::commits::{Edit, Mishap, Step, play};
use crate::trees::{DONE, PASSED, two_leaves};
use memory_cloud::memory::MemoryCloud;
use std::test::Fail;

/// Key a of tree 1, which is a key of leaf 1 where the tree has leaves.
const A: Edit = Edit::Insert(1, b'a');

/// A plain insert of one key: five calls.
const INSERT: &str = "send atomic:5
put_held head:5
send pu:1:0
put_held head:5
delete atomic:5#1
committed 1
";

/// One insert in each of two trees.
const BOTH_TREES: &str = "send atomic:5
send atomic:5
put_held head:5
send pu:1:0
send pu:2:0
put_held head:5
delete atomic:5#2
delete atomic:5#3
committed 2
";

/// A commit of one insert, and one of two trees.
const PLAIN: &[Step<'static>] = &[
    Step::Commits(&[A], INSERT),
    Step::Pending("0#1\n"),
    Step::Commits(&[Edit::Insert(1, b'b'), Edit::Insert(2, b'b')], BOTH_TREES),
    Step::Pending("0#1\n0#2\n0#1\n"),
];

#[test]
fn a_plain_insert_takes_five_calls(rt: HostRuntime) -> Result<(), Fail> {
    play(rt.alloc(), MemoryCloud::new(rt.alloc()), PLAIN)
}

/// An update of a key of leaf 2.
const UPDATE: &str = "get tree:1
get page:1:2
send atomic:5
put_held head:5
send pu:1:2
put_held head:5
delete atomic:5#1
committed 1
";

/// An update of a key of leaf 1 behind it; the tree object is kept.
const KEPT: &str = "get page:1:1
send atomic:5
put_held head:5
send pu:1:1
put_held head:5
delete atomic:5#2
committed 2
";

/// Updates of q and r, of which the first finds leaf 2 no more.
const STALE: &str = "get page:1:2
get page:1:2
send atomic:5
send atomic:5
put_held head:5
send pu:1:1
send pu:1:2
put_held head:5
delete atomic:5#3
delete atomic:5#4
committed 3
";

/// Commits of updates, of which the last has a stale walk.
const WALKS: &[Step<'static>] = &[
    Step::Commits(&[Edit::Update(1, b'p')], UPDATE),
    Step::Commits(&[Edit::Update(1, b'b')], KEPT),
    Step::Comes(Mishap::GetsNone(1)),
    Step::Commits(&[Edit::Update(1, b'q'), Edit::Update(1, b'r')], STALE),
];

#[test]
fn an_update_walks_to_its_leaf(rt: HostRuntime) -> Result<(), Fail> {
    play(rt.alloc(), two_leaves(rt.alloc())?, WALKS)
}

/// An update of a key that has an entry pending in the tree's queue.
const STICKY: &str = "get tree:1
get page:1:2
send atomic:5
put_held head:5
send pu:1:0
put_held head:5
delete atomic:5#2
committed 2
";

/// An insert of the key behind it.
const STICKY_INSERT: &str = "get page:1:2
send atomic:5
put_held head:5
send pu:1:0
put_held head:5
delete atomic:5#3
committed 3
";

/// Commits of one key.
const ONE_KEY: &[Step<'static>] = &[
    Step::Commits(&[Edit::Insert(1, b'p')], INSERT),
    Step::Commits(&[Edit::Update(1, b'p')], STICKY),
    Step::Commits(&[Edit::Insert(1, b'p')], STICKY_INSERT),
];

#[test]
fn a_pending_key_walks_and_keeps_its_queue(rt: HostRuntime) -> Result<(), Fail> {
    play(rt.alloc(), two_leaves(rt.alloc())?, ONE_KEY)
}

/// An insert of x, and updates of p, b and q: q is of the leaf of p.
const FOUR: &str = "get tree:1
get page:1:2
get page:1:1
send atomic:5
send atomic:5
send atomic:5
send atomic:5
put_held head:5
send pu:1:0
send pu:1:2
send pu:1:1
send pu:1:2
put_held head:5
delete atomic:5#1
delete atomic:5#2
delete atomic:5#3
delete atomic:5#4
committed 1
";

/// A commit of them.
const MIXED: &[Step<'static>] = &[Step::Commits(
    &[
        Edit::Insert(1, b'x'),
        Edit::Update(1, b'p'),
        Edit::Update(1, b'b'),
        Edit::Update(1, b'q'),
    ],
    FOUR,
)];

#[test]
fn a_walk_is_left_out_where_a_leaf_holds_the_key(rt: HostRuntime) -> Result<(), Fail> {
    play(rt.alloc(), two_leaves(rt.alloc())?, MIXED)
}

/// An update of the key of a record that its leaf has.
const PRUNED: &str = "get tree:1
get page:1:1
send atomic:5
put_held head:5
send pu:1:1
put_held head:5
delete atomic:5#2
committed 2
";

/// The walk prunes the entry of the key, so that the update goes to the leaf's queue.
const PRUNES: &[Step<'static>] = &[
    Step::Commits(&[A], INSERT),
    Step::Puts(1, DONE),
    Step::Commits(&[Edit::Update(1, b'a')], PRUNED),
    Step::Pending("1#1\n"),
];

#[test]
fn a_leaf_prunes_the_head(rt: HostRuntime) -> Result<(), Fail> {
    play(rt.alloc(), two_leaves(rt.alloc())?, PRUNES)
}

/// Two inserts.
const TWO: &str = "send atomic:5
send atomic:5
put_held head:5
send pu:1:0
send pu:1:0
put_held head:5
delete atomic:5#1
delete atomic:5#2
committed 1
";

/// An update of a key of leaf 2 behind them.
const BEHIND_TWO: &str = "get tree:1
get page:1:2
send atomic:5
put_held head:5
send pu:1:2
put_held head:5
delete atomic:5#3
committed 2
";

/// The walk prunes the entry that the tree object passed.
const PASSES: &[Step<'static>] = &[
    Step::Commits(&[A, Edit::Insert(1, b'b')], TWO),
    Step::Puts(0, PASSED),
    Step::Commits(&[Edit::Update(1, b'p')], BEHIND_TWO),
    Step::Pending("0#2\n2#1\n"),
];

#[test]
fn a_tree_object_prunes_the_head(rt: HostRuntime) -> Result<(), Fail> {
    play(rt.alloc(), two_leaves(rt.alloc())?, PASSES)
}

/// An insert over a head of 257 pending entries.
const LONG: &str = "get tree:1
get page:1:1
send atomic:5
put_held head:5
send pu:1:0
put_held head:5
delete atomic:5#258
committed 3
";

/// A commit over a head of 257 pending entries.
const LONG_HEAD: &[Step<'static>] = &[
    Step::Many(0, 200),
    Step::Many(1, 57),
    Step::Commits(&[Edit::Insert(1, b'z')], LONG),
];

#[test]
fn a_long_head_is_pruned_first(rt: HostRuntime) -> Result<(), Fail> {
    play(rt.alloc(), two_leaves(rt.alloc())?, LONG_HEAD)
}

/// A plain insert of one key whose first call fails, or whose head is put late.
const REFUSED: &[(Mishap, &str)] = &[
    (Mishap::Fails(1), "send atomic:5\nnot-committed failed\n"),
    (
        Mishap::IsLate(2),
        "send atomic:5\nput_held head:5\nnot-committed late 600 600\n",
    ),
    (
        Mishap::Fails(2),
        "send atomic:5\nput_held head:5\nin-doubt\n",
    ),
];

/// One that is committed when a call fails or is late.
const COMMITTED: &[(Mishap, &str)] = &[
    (
        Mishap::Fails(3),
        "send atomic:5\nput_held head:5\nsend pu:1:0\ncommitted-open failed\n",
    ),
    (
        Mishap::Fails(4),
        "send atomic:5\nput_held head:5\nsend pu:1:0\nput_held head:5\ncommitted-open failed\n",
    ),
    (
        Mishap::IsLate(4),
        "send atomic:5\nput_held head:5\nsend pu:1:0\nput_held head:5\ncommitted-open late 600 600\n",
    ),
    (Mishap::Fails(5), INSERT),
];

/// Plays an insert of one key with each mishap.
fn play_each(rt: HostRuntime, rows: &[(Mishap, &str)]) -> Result<(), Fail> {
    for (mishap, wanted) in rows {
        let script = [Step::Comes(*mishap), Step::Commits(&[A], wanted)];
        play(rt.alloc(), MemoryCloud::new(rt.alloc()), &script)?;
    }
    Ok(())
}

#[test]
fn a_stop_before_the_open_head_commits_nothing(rt: HostRuntime) -> Result<(), Fail> {
    play_each(rt, REFUSED)
}

#[test]
fn a_stop_behind_the_open_head_is_committed(rt: HostRuntime) -> Result<(), Fail> {
    play_each(rt, COMMITTED)
}
