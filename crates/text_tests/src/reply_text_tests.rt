use cloud_trait::turn::CkptAnswer;
use db_base::attr::Attr;
use db_base::blob::Blob;
use db_base::change::Change;
use db_base::ids::{ClientId, MsgId, PageId, TreeId};
use db_base::key::{Key, Payload};
use db_base::names::{Lock, ObjName, Place, QueueName};
use db_base::refusal::Refusal;
use db_base::trouble::{CommitAnswer, Counter, Trouble};
use reply_text::reply::Reply;
use report_types::entry::Entry;
use report_types::entry_log::EntryLog;
use report_types::pair_list::PairList;
use report_types::report::Report;
use report_types::stored::Stored;
use report_types::stored_list::StoredList;
use std::alloc::Global;
use std::process::Abort;

/// Whether a reply is written as this text.
fn is_written(alloc: Global, reply: Reply, text: &str) -> bool {
    match reply.write(alloc) {
        Ok(written) => written.as_slice() == text.as_bytes(),
        Err(_) => false,
    }
}

/// Whether a trouble is written as this text.
fn is_told(alloc: Global, trouble: Trouble, text: &str) -> bool {
    is_written(alloc, Reply::Trouble(trouble), text)
}

fn are_answers_written(alloc: Global) -> bool {
    is_written(alloc, Reply::Begun, "begun")
        && is_written(alloc, Reply::Called, "called")
        && is_written(alloc, Reply::Noted, "noted")
        && is_written(alloc, Reply::Aborted, "aborted")
}

fn are_ends_written(alloc: Global) -> bool {
    is_written(alloc, Reply::Crashed, "crashed")
        && is_written(alloc, Reply::Waited, "waited")
        && is_written(alloc, Reply::Closed, "closed")
        && is_written(alloc, Reply::NoValue, "none")
}

#[test]
fn answers_without_values_are_written(rt: HostRuntime) {
    assert!(rt; are_answers_written(rt.alloc()) && are_ends_written(rt.alloc()));
}

/// Whether a refusal is written as this text.
fn is_refusal_written(alloc: Global, refusal: Refusal, text: &str) -> bool {
    is_written(alloc, Reply::Refused(refusal), text)
}

#[test]
fn refusals_are_written(rt: HostRuntime) {
    assert!(rt; is_refusal_written(rt.alloc(), Refusal::LongPayload, "refused 3 long-payload"));
    assert!(rt; is_refusal_written(rt.alloc(), Refusal::NotWorking, "refused 10 not-working"));
    assert!(rt; is_refusal_written(rt.alloc(), Refusal::BadAttr, "refused 11 bad-attr"));
    assert!(rt; is_refusal_written(rt.alloc(), Refusal::LongEntry, "refused 12 long-entry"));
}

fn are_numbers_written(alloc: Global) -> bool {
    is_written(alloc, Reply::Opened { epoch: 1 }, "opened 1")
        && is_written(alloc, Reply::Renewed { end: 600 }, "renewed 600")
        && is_written(alloc, Reply::Settled { calls: 320 }, "settled 320")
        && is_written(
            alloc,
            Reply::Swept {
                kept: 7,
                removed: 2,
            },
            "swept 7 2",
        )
}

fn is_checkpoint_written(alloc: Global) -> bool {
    let done = CkptAnswer {
        applied: 1,
        deleted: 2,
        left: 3,
    };
    is_written(alloc, Reply::Done(done), "done 1 2 3")
}

/// Whether the answer to a commit is written as this text.
fn is_commit_written(alloc: Global, answer: CommitAnswer, text: &str) -> bool {
    is_written(alloc, Reply::Commit(answer), text)
}

#[test]
fn answers_with_numbers_are_written(rt: HostRuntime) {
    assert!(rt; are_numbers_written(rt.alloc()) && is_checkpoint_written(rt.alloc()));
    assert!(rt;
        is_commit_written(
            rt.alloc(),
            CommitAnswer::Committed { txn: 7 },
            "committed 7"
        )
    );
    assert!(rt; is_commit_written(rt.alloc(), CommitAnswer::InDoubt, "in-doubt"));
}

/// Adds the records k with v and l with no byte.
fn add_pairs(pairs: &mut PairList) -> bool {
    pairs.add(b"k", b"v").is_ok() && pairs.add(b"l", b"").is_ok()
}

fn is_value_written(alloc: Global) -> bool {
    match Blob::copy_of(alloc, b"v") {
        Ok(value) => is_written(alloc, Reply::Value(value), "value 76"),
        Err(_) => false,
    }
}

fn is_scan_written(alloc: Global) -> bool {
    let mut pairs = PairList::new(alloc);
    if !add_pairs(&mut pairs) {
        return false;
    }
    is_written(alloc, Reply::Scan(pairs), "scan 2 6b=76 6c=-")
}

#[test]
fn values_and_records_are_written(rt: HostRuntime) {
    assert!(rt; is_value_written(rt.alloc()) && is_scan_written(rt.alloc()));
}

fn is_closed_written(alloc: Global) -> bool {
    let late = Trouble::Late { end: 600, now: 601 };
    let answer = CommitAnswer::NotCommitted(late);
    is_commit_written(alloc, answer, "not-committed late 600 601")
}

fn is_open_written(alloc: Global) -> bool {
    let answer = CommitAnswer::CommittedOpen(Trouble::Failed);
    is_commit_written(alloc, answer, "committed-open failed")
}

fn is_settling_written(alloc: Global) -> bool {
    let waiting = Trouble::Waiting { have: 1, need: 2 };
    is_written(alloc, Reply::NotSettled(waiting), "not-settled waiting 1 2")
}

#[test]
fn troubles_of_commits_and_settlings_are_written(rt: HostRuntime) {
    assert!(rt; is_closed_written(rt.alloc()) && is_open_written(rt.alloc()));
    assert!(rt; is_settling_written(rt.alloc()));
}

fn are_pages_told(alloc: Global, tree: TreeId, page: PageId) -> bool {
    let lock = Lock::Page(tree, page);
    is_told(alloc, Trouble::Busy { lock, until: 30 }, "busy page:2:5 30")
        && is_told(alloc, Trouble::Absent { page }, "absent 5")
        && is_told(alloc, Trouble::NotALeaf { page }, "not-leaf 5")
        && is_told(alloc, Trouble::Loop { page }, "loop 5")
}

fn is_stale_told(alloc: Global, page: PageId) -> bool {
    let stale = Trouble::Stale {
        page,
        least: 2,
        got: 0,
    };
    is_told(alloc, stale, "stale 5 2 0")
}

/// Whether the trouble of a page, whose low key should be empty and is k, is written so.
fn is_fence_told(alloc: Global, page: PageId) -> bool {
    let Ok(found) = Blob::copy_of(alloc, b"k") else {
        return false;
    };
    let fence = Trouble::BadFence {
        page,
        expected: Blob::new(alloc),
        found,
    };
    is_told(alloc, fence, "bad-fence 5 - 6b")
}

#[test]
fn troubles_of_pages_are_written(rt: HostRuntime) {
    let (Ok(tree), Ok(page)) = (TreeId::new(2), PageId::new(5)) else {
        rt.panic("no names")
    };
    assert!(rt; are_pages_told(rt.alloc(), tree, page));
    assert!(rt; is_stale_told(rt.alloc(), page) && is_fence_told(rt.alloc(), page));
}

/// Whether damage is written as this text.
fn is_damage_told(alloc: Global, place: Place, offset: u64, text: &str) -> bool {
    is_told(alloc, Trouble::Damaged { place, offset }, text)
}

fn is_exhausted_told(alloc: Global) -> bool {
    let exhausted = Trouble::Exhausted {
        what: Counter::Pages,
    };
    is_told(alloc, exhausted, "exhausted pages")
}

#[test]
fn damage_is_written(rt: HostRuntime) {
    let (Ok(tree), Ok(client)) = (TreeId::new(2), ClientId::new(64)) else {
        rt.panic("no names")
    };
    let message = Place::Message(QueueName::TreePu(tree), MsgId::new(9));
    assert!(rt; is_damage_told(rt.alloc(), message, 10, "damaged pu:2:0#9 10"));
    let head = Place::Object(ObjName::Head(client));
    assert!(rt; is_damage_told(rt.alloc(), head, 0, "damaged head:64 0"));
    assert!(rt; is_exhausted_told(rt.alloc()));
}

fn insertion(alloc: Global, key: Key, attr: Option<Attr>) -> Option<Change> {
    match Payload::new(alloc, b"v") {
        Ok(payload) => Some(Change::Insert { key, payload, attr }),
        Err(_) => None,
    }
}

/// Adds an entry of client 2 in tree 1.
fn add_entry(entries: &mut EntryLog, txn: u64, change: Change) -> bool {
    let (Ok(client), Ok(tree)) = (ClientId::new(2), TreeId::new(1)) else {
        return false;
    };
    let entry = Entry {
        client,
        epoch: 3,
        txn,
        tree,
        change,
    };
    entries.push(entry).is_ok()
}

/// Adds the entry of the insert of v under the key k.
fn add_insert(alloc: Global, entries: &mut EntryLog, attr: Option<Attr>) -> bool {
    let Ok(key) = Key::new(alloc, b"k") else {
        return false;
    };
    match insertion(alloc, key, attr) {
        Some(change) => add_entry(entries, 4, change),
        None => false,
    }
}

/// Adds the entry of the insert of v with the attribute a under the key k.
fn add_insert_with(alloc: Global, entries: &mut EntryLog) -> bool {
    match Attr::new(alloc, b"a") {
        Ok(attr) => add_insert(alloc, entries, Some(attr)),
        Err(_) => false,
    }
}

/// Adds the entries of an insert, of one with an attribute, and of a deletion, by client 2.
fn add_entries(alloc: Global, entries: &mut EntryLog) -> bool {
    add_insert(alloc, entries, None)
        && add_insert_with(alloc, entries)
        && add_deletion(alloc, entries)
}

/// Adds the entry of the deletion of l.
fn add_deletion(alloc: Global, entries: &mut EntryLog) -> bool {
    match Key::new(alloc, b"l") {
        Ok(key) => add_entry(entries, 5, Change::Delete { key }),
        Err(_) => false,
    }
}

/// A report of no entry and no record.
fn report(alloc: Global, tree: TreeId) -> Report {
    Report {
        tree,
        committed: EntryLog::new(alloc),
        order: EntryLog::new(alloc),
        contents: StoredList::new(alloc),
        heads: 1,
        messages: 2,
    }
}

/// The report, as it is written.
const REPORT: &str =
    "report 1\ncommitted 3\n2 3 4 insert 6b 76\n2 3 4 insert 6b 76 61\n2 3 5 delete 6c\norder 0\ncontents 3\n6b 76\n6c -\n6d - 61\nleft 1 2";

/// A record of a leaf.
fn stored(alloc: Global, key: &[u8], payload: &[u8], attr: Option<Blob>) -> Option<Stored> {
    let Ok(key) = Blob::copy_of(alloc, key) else {
        return None;
    };
    match Blob::copy_of(alloc, payload) {
        Ok(payload) => Some(Stored { key, payload, attr }),
        Err(_) => None,
    }
}

fn add_stored(records: &mut StoredList, stored: Option<Stored>) -> bool {
    match stored {
        Some(stored) => records.push(stored).is_ok(),
        None => false,
    }
}

/// Adds the records k with v, l with no byte, and m with no byte and the attribute a.
fn add_records(alloc: Global, records: &mut StoredList) -> bool {
    let Ok(attr) = Blob::copy_of(alloc, b"a") else {
        return false;
    };
    add_stored(records, stored(alloc, b"k", b"v", None))
        && add_stored(records, stored(alloc, b"l", b"", None))
        && add_stored(records, stored(alloc, b"m", b"", Some(attr)))
}

/// Whether a report of these entries and records is written so.
fn is_report_written(alloc: Global, tree: TreeId) -> bool {
    let mut report = report(alloc, tree);
    if !add_entries(alloc, &mut report.committed) || !add_records(alloc, &mut report.contents) {
        return false;
    }
    is_written(alloc, Reply::Report(report), REPORT)
}

#[test]
fn reports_are_written(rt: HostRuntime) {
    match TreeId::new(1) {
        Ok(tree) => assert!(rt; is_report_written(rt.alloc(), tree)),
        Err(_) => rt.panic("no tree"),
    }
}
