use crate::recoveries::{Step, play};
use std::test::Fail;

/// The head of client 1 of epoch 1 with transaction 1, Settled, without counters and pending entries.
const SETTLED: &[u8] =
    b"H\x01\x00\x00\x00\x00\x00\x00\x00\x01\x00\x00\x00\x00\x00\x00\x00\x01\x00\x00\x00";

/// The last client of an empty cloud, the first tree, whose queue is empty and whose one leaf's queue is, and the next tree.
const EMPTY: &str = "take client:64
get_held head:64
release client:64
take tree:1
get_held tree:1
receive pu:1:0
release tree:1
take page:1:1
get_held page:1:1
receive pu:1:1
release page:1:1
take tree:2
settled 320
";

#[test]
fn settles_an_empty_cloud(rt: HostRuntime) -> Result<(), Fail> {
    play(rt.alloc(), &[Step::Settles(190, 201)], EMPTY)
}

/// One record in the queue of tree 1: two checkpoints of the tree, and one of its leaf.
const ONE: &str = "take tree:1
get_held tree:1
receive pu:1:0
take page:1:1
get_held page:1:1
put_held page:1:1
release page:1:1
put_held tree:1
delete pu:1:0#1
release tree:1
take tree:1
get_held tree:1
receive pu:1:0
release tree:1
take page:1:1
get_held page:1:1
receive pu:1:1
release page:1:1
take tree:2
settled 332
";

#[test]
fn settles_one_record(rt: HostRuntime) -> Result<(), Fail> {
    let steps = [
        Step::Leaves(SETTLED, &[]),
        Step::Inserts(1),
        Step::Settles(195, 213),
    ];
    play(rt.alloc(), &steps, ONE)
}

#[test]
fn counts_its_calls(rt: HostRuntime) -> Result<(), Fail> {
    let steps = [
        Step::Leaves(SETTLED, &[]),
        Step::Inserts(300),
        Step::Settles(0, 0),
    ];
    play(rt.alloc(), &steps, "settled 662\n")
}

#[test]
fn stops_at_an_open_client(rt: HostRuntime) -> Result<(), Fail> {
    let steps = [Step::Takes(600), Step::Settles(1, 9)];
    play(rt.alloc(), &steps, "take client:1\nbusy client:1 600\n")
}
