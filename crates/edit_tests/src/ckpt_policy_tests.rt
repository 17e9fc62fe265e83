//! Which queues are due after one session's notes, by each role.

use ckpt_policy::{Ledger, Note, Role};
use db_base::ids::{ClientId, PageId, TreeId};
use db_base::names::QueueName;
use std::alloc::Global;
use std::process::Abort;

/// What a note tells.
#[derive(Clone, Copy, PartialEq, Eq)]
enum Kind {
    Sent,
    Got,
    Kept,
}

// What was noted, with a tree and a page, 0 for the tree's own queue. At the end the counts of kept, sent and got are: of tree 1 1, 1, 0; of its page 1
// 0, 0, 3; of its page 2 1, 0, 0; of tree 2 0, 1, 0.
const NOTES: [(Kind, u64, u64); 10] = [
    (Kind::Sent, 1, 2),
    (Kind::Sent, 2, 0),
    (Kind::Sent, 1, 0),
    (Kind::Sent, 1, 2),
    (Kind::Got, 1, 1),
    (Kind::Got, 1, 1),
    (Kind::Kept, 1, 0),
    (Kind::Sent, 1, 0),
    (Kind::Kept, 1, 2),
    (Kind::Got, 1, 1),
];

/// The queue of a page, of the tree itself for page 0.
fn queue(tree: TreeId, page: u64) -> QueueName {
    match PageId::new(page) {
        Ok(page) => QueueName::PagePu(tree, page),
        Err(_) => QueueName::TreePu(tree),
    }
}

fn note_of(kind: Kind, queue: QueueName) -> Note {
    match kind {
        Kind::Sent => Note::Sent(queue),
        Kind::Got => Note::Got(queue),
        Kind::Kept => Note::Kept(queue),
    }
}

/// Whether a note was taken.
fn takes(ledger: &mut Ledger, kind: Kind, tree: u64, page: u64) -> bool {
    match TreeId::new(tree) {
        Ok(tree) => ledger.note(note_of(kind, queue(tree, page))).is_ok(),
        Err(_) => false,
    }
}

fn takes_all(ledger: &mut Ledger) -> bool {
    for (kind, tree, page) in &NOTES {
        if !takes(ledger, *kind, *tree, *page) {
            return false;
        }
    }
    true
}

/// Whether a queue is that of a tree and page.
fn is_of(queue_name: QueueName, tree: u64, page: u64) -> bool {
    match TreeId::new(tree) {
        Ok(tree) => queue_name == queue(tree, page),
        Err(_) => false,
    }
}

fn are(queues: &[QueueName], wanted: &[(u64, u64)]) -> bool {
    let mut at = 0;
    for (tree, page) in wanted {
        match queues.get(at) {
            Some(queue) => {
                if !is_of(*queue, *tree, *page) {
                    return false;
                }
            }
            None => return false,
        }
        at = at + 1;
    }
    queues.len() == wanted.len()
}

fn gives(alloc: Global, ledger: &Ledger, wanted: &[(u64, u64)]) -> bool {
    match ledger.due(alloc) {
        Ok(queues) => are(queues.as_slice(), wanted),
        Err(_) => false,
    }
}

fn gives_after(alloc: Global, mut ledger: Ledger, wanted: &[(u64, u64)]) -> bool {
    takes_all(&mut ledger) && gives(alloc, &ledger, wanted)
}

/// Whether a role of this number gives a client these queues after the notes.
fn is_due(alloc: Global, role: Role, k: u64, client: ClientId, wanted: &[(u64, u64)]) -> bool {
    match Ledger::new(alloc, role, k, client) {
        Ok(ledger) => gives_after(alloc, ledger, wanted),
        Err(_) => false,
    }
}

#[test]
fn each_role_picks_its_queues(rt: HostRuntime) {
    let (Ok(one), Ok(two)) = (ClientId::new(1), ClientId::new(2)) else {
        rt.panic("no clients")
    };
    assert!(rt; is_due(rt.alloc(), Role::Writer, 1, one, &[(1, 0), (2, 0)]));
    assert!(rt; is_due(rt.alloc(), Role::Writer, 2, one, &[]));
    assert!(rt; is_due(rt.alloc(), Role::Reader, 3, one, &[(1, 1)]));
    assert!(rt; is_due(rt.alloc(), Role::Reader, 4, one, &[]));
    assert!(rt;
        is_due(
            rt.alloc(),
            Role::Watchdog,
            3,
            one,
            &[(1, 1), (2, 0), (1, 0)]
        )
    );
    assert!(rt;
        is_due(
            rt.alloc(),
            Role::Watchdog,
            56,
            one,
            &[(1, 1), (2, 0), (1, 0), (1, 2)]
        )
    );
    assert!(rt; is_due(rt.alloc(), Role::Owner, 2, one, &[(1, 1)]));
    assert!(rt; is_due(rt.alloc(), Role::Owner, 2, two, &[(1, 0), (1, 2), (2, 0)]));
}

#[test]
fn a_number_is_from_1_to_56(rt: HostRuntime) {
    let Ok(client) = ClientId::new(1) else {
        rt.panic("no client")
    };
    assert!(rt; Ledger::new(rt.alloc(), Role::Writer, 0, client).is_err());
    assert!(rt; Ledger::new(rt.alloc(), Role::Writer, 56, client).is_ok());
    assert!(rt; Ledger::new(rt.alloc(), Role::Writer, 57, client).is_err());
}
