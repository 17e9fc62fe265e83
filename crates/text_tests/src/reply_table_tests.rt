use reply_reading::read::read_reply;
use reply_text::reply::Reply;
use std::alloc::Global;
use words::fault::TextFault;

/// Every reply of one line that is no trouble.
const ANSWERS: [&str; 36] = [
    "begun",
    "called",
    "noted",
    "aborted",
    "crashed",
    "waited",
    "refused 1 empty-key",
    "refused 2 long-key",
    "refused 3 long-payload",
    "refused 4 too-many",
    "refused 5 bad-number",
    "refused 6 not-open",
    "refused 7 at-work",
    "refused 8 broken",
    "refused 9 already-open",
    "refused 10 not-working",
    "refused 11 bad-attr",
    "refused 12 long-entry",
    "opened 1",
    "closed",
    "renewed 18446744073709551615",
    "committed 0",
    "in-doubt",
    "not-committed failed",
    "committed-open late 600 601",
    "done 1 2 3",
    "value -",
    "value 00ff",
    "none",
    "scan 0",
    "scan 2 6b=76 6c=-",
    "settled 320",
    "swept 0 0",
    "swept 7 18446744073709551615",
    "not-settled failed",
    "not-settled busy client:64 600",
];

/// Every trouble, with every kind of name.
const TROUBLES: [&str; 22] = [
    "failed",
    "late 600 601",
    "busy client:1 600",
    "busy tree:16 60",
    "busy page:1:18446744073709551615 30",
    "waiting 1 2",
    "stale 5 2 0",
    "absent 5",
    "not-leaf 5",
    "damaged head:64 0",
    "damaged tree:2 10",
    "damaged page:2:5 44",
    "damaged atomic:64#1 0",
    "damaged pu:2:0#9 10",
    "damaged pu:2:7#9 10",
    "bad-fence 5 - 6b",
    "loop 5",
    "exhausted epoch",
    "exhausted txn",
    "exhausted number",
    "exhausted version",
    "exhausted pages",
];

/// Reports: an empty one, one with each kind of change, and one with attributes, of which one has 32 bytes.
const REPORTS: [&str; 3] = [
    "report 1\ncommitted 0\norder 0\ncontents 0\nleft 0 0",
    "report 16\ncommitted 3\n2 3 4 insert 6b 76\n2 3 4 update 6b -\n64 1 1 delete 6c\norder 1\n2 3 4 insert 6b 76\ncontents 2\n6b 76\n6c -\nleft 1 2",
    "report 1\ncommitted 3\n1 1 1 insert 6b 76 61\n1 1 1 insert 6c - 6161616161616161616161616161616161616161616161616161616161616161\n1 1 1 add 6c 7\norder 1\n1 1 1 insert 6b 76 61\ncontents 3\n6b 76 61\n6c -\n6d - 6261\nleft 1 2",
];

/// Lines that are nearly in the grammar.
const NEAR_ANSWERS: [&str; 44] = [
    "",
    "\n",
    "begun ",
    " begun",
    "Begun",
    "begun\n",
    "begun now",
    "memory",
    "opened",
    "opened 01",
    "opened 18446744073709551616",
    "opened +1",
    "opened 1 1",
    "opened  1",
    "opened\t1",
    "opened 1\r",
    "refused 2 empty-key",
    "refused 01 empty-key",
    "refused 1",
    "refused 10 bad-attr",
    "refused 12 bad-attr",
    "refused 11 long-entry",
    "scan 1 6b=76=61",
    "value",
    "value 7",
    "value 7F",
    "value 7g",
    "scan",
    "scan 1",
    "scan 2 6b=76",
    "scan 0 6b=76",
    "scan 1 6b",
    "scan 1 6b=76=76",
    "scan 1 6b:76",
    "committed",
    "not-committed",
    "not-committed none",
    "not-settled settled 1",
    "swept",
    "swept 7",
    "swept 7 1 1",
    "not-swept failed",
    "done 1 2",
    "done 1 2 3 4",
];

/// Troubles that are nearly in the grammar.
const NEAR_TROUBLES: [&str; 21] = [
    "late 1",
    "failed 1",
    "busy head:1 30",
    "busy client:0 30",
    "busy client:65 600",
    "busy client:01 600",
    "busy client:1:2 600",
    "busy tree:17 60",
    "busy page:1 30",
    "busy page:1:0 30",
    "stale 0 2 0",
    "absent 0",
    "damaged client:1 0",
    "damaged head:1#1 0",
    "damaged pu:2:0 10",
    "damaged pu:2:0# 10",
    "damaged pu:2:0#9#9 10",
    "bad-fence 5  6b",
    "bad-fence 0 - 6b",
    "exhausted page",
    "exhausted",
];

/// Reports that are nearly in the grammar.
const NEAR_REPORTS: [&str; 21] = [
    "report 1",
    "report 0\ncommitted 0\norder 0\ncontents 0\nleft 0 0",
    "report 17\ncommitted 0\norder 0\ncontents 0\nleft 0 0",
    "report 1 committed 0\norder 0\ncontents 0\nleft 0 0",
    "report 1\ncommitted 0\norder 0\ncontents 0\nleft 0 0\n",
    "report 1\n\ncommitted 0\norder 0\ncontents 0\nleft 0 0",
    "report 1\norder 0\ncommitted 0\ncontents 0\nleft 0 0",
    "report 1\ncommitted 0\norder 0\ncontents 0",
    "report 1\ncommitted 1\norder 0\ncontents 0\nleft 0 0",
    "report 1\ncommitted 0\norder 0\ncontents 0\n6b 76\nleft 0 0",
    "report 1\ncommitted 1\n65 1 1 delete 6b\norder 0\ncontents 0\nleft 0 0",
    "report 1\ncommitted 1\n1 1 1 delete -\norder 0\ncontents 0\nleft 0 0",
    "report 1\ncommitted 1\n1 1 1 insert 6b\norder 0\ncontents 0\nleft 0 0",
    "report 1\ncommitted 0\norder 0\ncontents 1\n6b=76\nleft 0 0",
    "report 1\ncommitted 1\n1 1 1 insert 6b 76 -\norder 0\ncontents 0\nleft 0 0",
    "report 1\ncommitted 1\n1 1 1 insert 6b 76 616161616161616161616161616161616161616161616161616161616161616161\norder 0\ncontents 0\nleft 0 0",
    "report 1\ncommitted 1\n1 1 1 insert 6b 76 61 61\norder 0\ncontents 0\nleft 0 0",
    "report 1\ncommitted 1\n1 1 1 update 6b 76 61\norder 0\ncontents 0\nleft 0 0",
    "report 1\ncommitted 1\n1 1 1 add 6b 7 61\norder 0\ncontents 0\nleft 0 0",
    "report 1\ncommitted 0\norder 0\ncontents 1\n6b 76 61 61\nleft 0 0",
    "report 1\ncommitted 0\norder 0\ncontents 1\n6b 76=61\nleft 0 0",
];

/// Whether a text is read, and what is read is written as it.
fn is_read_and_written_back(alloc: Global, text: &str) -> bool {
    match read_reply(alloc, text.as_bytes()) {
        Ok(reply) => is_written(alloc, &reply, text),
        Err(_) => false,
    }
}

/// Whether a reply is written as this text.
fn is_written(alloc: Global, reply: &Reply, text: &str) -> bool {
    match reply.write(alloc) {
        Ok(written) => written.as_slice() == text.as_bytes(),
        Err(_) => false,
    }
}

/// Whether a text is in the grammar of no reply.
fn is_refused(alloc: Global, text: &str) -> bool {
    matches!(
        read_reply(alloc, text.as_bytes()),
        Err(TextFault::NotInGrammar)
    )
}

fn are_read_and_written_back(alloc: Global, texts: &[&str]) -> bool {
    for text in texts {
        if !is_read_and_written_back(alloc, text) {
            return false;
        }
    }
    true
}

fn are_refused(alloc: Global, texts: &[&str]) -> bool {
    for text in texts {
        if !is_refused(alloc, text) {
            return false;
        }
    }
    true
}

#[test]
fn each_text_is_read_and_written_back(rt: HostRuntime) {
    assert!(rt; are_read_and_written_back(rt.alloc(), &ANSWERS));
    assert!(rt; are_read_and_written_back(rt.alloc(), &TROUBLES));
    assert!(rt; are_read_and_written_back(rt.alloc(), &REPORTS));
}

#[test]
fn near_misses_are_refused(rt: HostRuntime) {
    assert!(rt; are_refused(rt.alloc(), &NEAR_ANSWERS));
    assert!(rt; are_refused(rt.alloc(), &NEAR_TROUBLES));
    assert!(rt; are_refused(rt.alloc(), &NEAR_REPORTS));
}
