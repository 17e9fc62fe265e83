use db_base::change::Change;
use db_base::cursor::Cursor;
use db_base::ids::{ClientId, MsgId};
use db_base::key::Key;
use log_codec::record::{PuItem, PuRec};
use run_cursor::covered::covered;
use run_cursor::run::{Run, take_run};
use std::alloc::Global;

/// What is received, and what comes of it. Items are id, client, number and key; cursors client and number.
struct Row {
    cursor: &'static [(u64, u64)],
    items: &'static [(u64, u64, u64, &'static [u8])],
    run: &'static [u64],
    top: &'static [(u64, u64)],
    covered: &'static [u64],
}

static ROWS: [Row; 3] = [
    // Nothing is applied while number 1 is missing.
    Row {
        cursor: &[],
        items: &[(1, 1, 2, b"a"), (2, 1, 3, b"b")],
        run: &[],
        top: &[(1, 0)],
        covered: &[],
    },
    // A number that comes twice is taken as it came first, and a gap ends the run of its client.
    Row {
        cursor: &[(1, 2)],
        items: &[
            (1, 1, 4, b"b"),
            (2, 1, 3, b"c"),
            (3, 1, 3, b"a"),
            (4, 1, 6, b"a"),
            (5, 2, 1, b"a"),
            (1, 1, 4, b"b"),
            (6, 1, 2, b"d"),
        ],
        run: &[5, 1, 2],
        top: &[(1, 4), (2, 1), (3, 0)],
        covered: &[1, 2, 3, 5, 6],
    },
    // By key, then client, then number.
    Row {
        cursor: &[(2, 7)],
        items: &[
            (9, 3, 1, b"k"),
            (8, 2, 9, b"k"),
            (7, 2, 8, b"k"),
            (6, 3, 2, b"j"),
        ],
        run: &[6, 7, 8, 9],
        top: &[(2, 9), (3, 2)],
        covered: &[9, 8, 7, 6],
    },
];

/// Whether a cursor takes a client's number.
fn is_set(cursor: &mut Cursor, client: u64, number: u64) -> bool {
    match ClientId::new(client) {
        Ok(client) => cursor.set(client, number).is_ok(),
        Err(_) => false,
    }
}

/// Whether a cursor takes these numbers.
fn are_set(cursor: &mut Cursor, numbers: &[(u64, u64)]) -> bool {
    for (client, number) in numbers {
        if !is_set(cursor, *client, *number) {
            return false;
        }
    }
    true
}

/// A deletion as it is received.
fn item(id: u64, client: ClientId, number: u64, key: Key) -> PuItem {
    PuItem {
        id: MsgId::new(id),
        rec: PuRec {
            client,
            epoch: 1,
            txn: 1,
            number,
            change: Change::Delete { key },
        },
    }
}

/// Whether an item of these numbers and key is added.
fn is_added(
    alloc: Global,
    items: &mut Vec<PuItem>,
    id: u64,
    client: u64,
    number: u64,
    key: &[u8],
) -> bool {
    let Ok(client) = ClientId::new(client) else {
        return false;
    };
    match Key::new(alloc, key) {
        Ok(key) => items.push(item(id, client, number, key)).is_ok(),
        Err(_) => false,
    }
}

/// Whether the items of a row are added.
fn are_added(alloc: Global, items: &mut Vec<PuItem>, rows: &[(u64, u64, u64, &[u8])]) -> bool {
    for (id, client, number, key) in rows {
        if !is_added(alloc, items, *id, *client, *number, key) {
            return false;
        }
    }
    true
}

/// Whether the items of a run have these ids, in their order.
fn has_ids(run: &Run, ids: &[u64]) -> bool {
    let mut count = 0;
    for item in run.items() {
        if ids.get(count) != Some(&item.id.get()) {
            return false;
        }
        count = count.saturating_add(1);
    }
    count == ids.len()
}

/// Whether a cursor has this number of a client.
fn has_number(cursor: &Cursor, client: u64, number: u64) -> bool {
    match ClientId::new(client) {
        Ok(client) => cursor.get(client) == number,
        Err(_) => false,
    }
}

/// Whether a cursor has these numbers.
fn has_numbers(cursor: &Cursor, numbers: &[(u64, u64)]) -> bool {
    for (client, number) in numbers {
        if !has_number(cursor, *client, *number) {
            return false;
        }
    }
    true
}

/// Whether messages have these ids, in their order.
fn are_ids(messages: &[MsgId], ids: &[u64]) -> bool {
    for (message, id) in messages.iter().zip(ids) {
        if message.get() != *id {
            return false;
        }
    }
    messages.len() == ids.len()
}

/// Whether a cursor covers the items of these ids.
fn covers(alloc: Global, top: &Cursor, items: &[PuItem], ids: &[u64]) -> bool {
    match covered(alloc, top, items) {
        Ok(messages) => are_ids(messages.as_slice(), ids),
        Err(_) => false,
    }
}

/// Whether what a row says comes of its items, behind its cursor.
fn is_taken(alloc: Global, row: &Row, cursor: &Cursor, items: &[PuItem]) -> bool {
    match take_run(alloc, cursor, items) {
        Ok(run) => {
            has_ids(&run, row.run)
                && has_numbers(run.top(), row.top)
                && covers(alloc, run.top(), items, row.covered)
        }
        Err(_) => false,
    }
}

/// Whether what a row says comes of what is received.
fn is_right(alloc: Global, row: &Row) -> bool {
    let mut cursor = Cursor::new(alloc);
    if !are_set(&mut cursor, row.cursor) {
        return false;
    }
    let mut items = Vec::new(alloc);
    are_added(alloc, &mut items, row.items) && is_taken(alloc, row, &cursor, items.as_slice())
}

#[test]
fn runs_are_taken_and_their_tops_cover_messages(rt: HostRuntime) {
    for row in &ROWS {
        assert!(rt; is_right(rt.alloc(), row));
    }
}
