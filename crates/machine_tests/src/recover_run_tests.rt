use crate::recoveries::{Record, Step, play, play_failing};
use std::test::Fail;

/// A head of epoch 2 with transaction 5, Settled, without counters and pending entries.
const SETTLED: &[u8] =
    b"H\x01\x00\x00\x00\x00\x00\x00\x00\x02\x00\x00\x00\x00\x00\x00\x00\x05\x00\x00\x00";

/// The same, Open with three records.
const OPEN: &[u8] =
    b"H\x01\x00\x00\x00\x00\x00\x00\x00\x02\x00\x00\x00\x00\x00\x00\x00\x05\x01\x03\x00\x00";

/// The same as the first, of the greatest epoch.
const LAST: &[u8] =
    b"H\x01\xff\xff\xff\xff\xff\xff\xff\xff\x00\x00\x00\x00\x00\x00\x00\x05\x00\x00\x00";

/// A head that opens it again: epoch 3 with transaction 0, Settled, with the three inserts of k pending in tree 1.
const REOPENED: &[u8] =
    b"H\x01\x00\x00\x00\x00\x00\x00\x00\x03\x00\x00\x00\x00\x00\x00\x00\x00\x00\x00\
\x01\x01\x00\x00\x00\x00\x00\x00\x00\x00\x00\x00\x00\x00\x00\x00\x00\x01\x01\x01k\x00\x01v\
\x01\x01\x00\x00\x00\x00\x00\x00\x00\x07\x00\x00\x00\x00\x00\x00\x00\x02\x01\x01k\x00\x01v\
\x01\x01\x00\x00\x00\x00\x00\x00\x00\x00\x00\x00\x00\x00\x00\x00\x00\x03\x01\x01k\x00\x01v\x00";

/// A head, the records in the client's queue, and what an opening does.
#[derive(Clone, Copy)]
struct Opening {
    head: &'static [u8],
    records: &'static [Record],
    told: &'static str,
}

/// A client that has no head.
const FIRST: Opening = Opening {
    head: b"",
    records: &[],
    told: "take client:1
get_held head:1
put_held head:1
receive atomic:1
opened 1
",
};

/// An open head: the first message is of an earlier transaction, the record of index 2 comes before that of index 1, which comes
/// twice, and the last message is of a later epoch.
const SENT_ON: Opening = Opening {
    head: OPEN,
    records: &[
        (2, 4, 1, 0),
        (2, 5, 2, 7),
        (2, 5, 1, 0),
        (2, 5, 3, 0),
        (2, 5, 1, 0),
        (3, 1, 1, 0),
    ],
    told: "take client:1
get_held head:1
receive atomic:1
delete atomic:1#1
send pu:1:0
send pu:1:7
send pu:1:0
put_held head:1
delete atomic:1#3
delete atomic:1#2
delete atomic:1#4
receive atomic:1
delete atomic:1#5
receive atomic:1
opened 3
",
};

/// An open head of three records, of which the queue has two.
const WAITING: Opening = Opening {
    head: OPEN,
    records: &[(2, 5, 3, 0), (2, 5, 1, 0)],
    told: "take client:1
get_held head:1
receive atomic:1
receive atomic:1
release client:1
waiting 2 3
",
};

/// A settled head with two records of epochs that are over, and one of a later epoch between them.
const PAST: Opening = Opening {
    head: SETTLED,
    records: &[(1, 9, 1, 0), (3, 1, 1, 0), (2, 6, 1, 0)],
    told: "take client:1
get_held head:1
put_held head:1
receive atomic:1
delete atomic:1#1
delete atomic:1#3
receive atomic:1
opened 3
",
};

/// A head of the greatest epoch.
const EXHAUSTED: Opening = Opening {
    head: LAST,
    records: &[],
    told: "take client:1
get_held head:1
release client:1
exhausted epoch
",
};

const OPENINGS: [Opening; 5] = [FIRST, SENT_ON, WAITING, PAST, EXHAUSTED];

#[test]
fn opens_and_recovers(rt: HostRuntime) -> Result<(), Fail> {
    for opening in OPENINGS {
        let steps = [Step::Leaves(opening.head, opening.records), Step::Opens(0)];
        play(rt.alloc(), &steps, opening.told)?;
    }
    Ok(())
}

#[test]
fn puts_what_was_sent_on(rt: HostRuntime) -> Result<(), Fail> {
    let steps = [
        Step::Leaves(SENT_ON.head, SENT_ON.records),
        Step::Opens(0),
        Step::Has(2, REOPENED),
    ];
    play(rt.alloc(), &steps, SENT_ON.told)
}

/// What an opening does whose first receive gives the record of index 2 alone.
const IN_TWO_RECEIVES: &str = "take client:1
get_held head:1
receive atomic:1
receive atomic:1
send pu:1:0
send pu:1:7
send pu:1:0
put_held head:1
delete atomic:1#2
delete atomic:1#1
delete atomic:1#3
receive atomic:1
opened 3
";

#[test]
fn gathers_over_two_receives(rt: HostRuntime) -> Result<(), Fail> {
    let records = [(2, 5, 2, 7), (2, 5, 1, 0), (2, 5, 3, 0)];
    let steps = [Step::Leaves(OPEN, &records), Step::Opens(3)];
    play(rt.alloc(), &steps, IN_TWO_RECEIVES)
}

/// An opening with the lease of the one before, and then one while that lease lasts.
const AGAIN: &str = "take client:1
get_held head:1
put_held head:1
receive atomic:1
opened 1
release client:1
take client:1
get_held head:1
put_held head:1
receive atomic:1
opened 2
take client:1
busy client:1 600
";

#[test]
fn gives_the_old_lease_back_first(rt: HostRuntime) -> Result<(), Fail> {
    let steps = [Step::Opens(0), Step::Reopens, Step::Opens(0)];
    play(rt.alloc(), &steps, AGAIN)
}

/// Settlings of a client that has no head, and of one that has a settled one.
const SETTLINGS: &str = "take client:1
get_held head:1
release client:1
nothing
take client:1
get_held head:1
put_held head:1
receive atomic:1
release client:1
opened 3
";

#[test]
fn settles_a_client(rt: HostRuntime) -> Result<(), Fail> {
    let steps = [Step::Recovers, Step::Leaves(SETTLED, &[]), Step::Recovers];
    play(rt.alloc(), &steps, SETTLINGS)
}

/// A deletion of a lost record that fails; it is the 13th call with those that left the head and six records.
const NOT_DELETED: &str = "take client:1
get_held head:1
receive atomic:1
delete atomic:1#1
release client:1
failed
";

#[test]
fn stops_at_a_failed_deletion_of_a_lost_record(rt: HostRuntime) -> Result<(), Fail> {
    let steps = [Step::Leaves(SENT_ON.head, SENT_ON.records), Step::Opens(0)];
    play_failing(rt.alloc(), 13, &steps, NOT_DELETED)
}

/// An open head beside a message in no spelling.
const DAMAGED: &str = "take client:1
get_held head:1
receive atomic:1
release client:1
damaged atomic:1#2 0
";

#[test]
fn stops_at_a_message_that_is_no_record(rt: HostRuntime) -> Result<(), Fail> {
    let steps = [
        Step::Leaves(OPEN, &[(1, 9, 1, 0)]),
        Step::Logs(b"x"),
        Step::Opens(0),
    ];
    play(rt.alloc(), &steps, DAMAGED)
}
