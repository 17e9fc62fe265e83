//! Replays of records that are put into an index.

use crate::bench::all_write;
use schedule_run::status::Status;

const PUTS: [(&[u8], Status, &[u8]); 7] = [
    // The record in its tree, and its entry in the tree eight above it.
    (
        b"open 1 1\nrun 1\nput 1 1 6b 76 61\ncommit 1\nrun 1\ntree 1 1\nrun 1\ntree 1 9\nrun 1\nreport 1\nreport 9\n",
        Status::Done,
        b"1 begun\n2 opened 1\n3 noted\n4 begun\n5 committed 1\n6 begun\n7 done 1 1 0\n8 begun\n9 done 1 1 0\n10 report 1\ncommitted 1\n1 1 1 insert 6b 76 61\norder 1\n1 1 1 insert 6b 76 61\ncontents 1\n6b 76 61\nleft 0 0\n11 report 9\ncommitted 1\n1 1 1 insert 01616b -\norder 1\n1 1 1 insert 01616b -\ncontents 1\n01616b -\nleft 0 0\n",
    ),
    // Another attribute has another entry, and the old one stays.
    (
        b"open 1 1\nrun 1\nput 1 1 6b 76 61\nput 1 1 6b 77 62\ncommit 1\nrun 1\ntree 1 1\nrun 1\ntree 1 9\nrun 1\nreport 1\nreport 9\n",
        Status::Done,
        b"1 begun\n2 opened 1\n3 noted\n4 noted\n5 begun\n6 committed 1\n7 begun\n8 done 1 1 0\n9 begun\n10 done 2 2 0\n11 report 1\ncommitted 1\n1 1 1 insert 6b 77 62\norder 1\n1 1 1 insert 6b 77 62\ncontents 1\n6b 77 62\nleft 0 0\n12 report 9\ncommitted 2\n1 1 1 insert 01616b -\n1 1 1 insert 01626b -\norder 2\n1 1 1 insert 01616b -\n1 1 1 insert 01626b -\ncontents 2\n01616b -\n01626b -\nleft 0 0\n",
    ),
    // Refused by the session, by the tree, by the key, by the attribute, by the entry and by the state, in this order.
    (
        b"put 17 1 - 76 -\nput 2 17 - 76 -\nput 2 9 - 76 -\nput 2 8 - 76 -\nput 2 8 6b 76 -\nput 2 8 6b6b6b6b6b6b6b6b6b6b6b6b6b6b6b6b6b6b6b6b6b6b6b6b6b6b6b6b6b6b6b6b 76 6161616161616161616161616161616161616161616161616161616161616161\nput 2 8 6b 76 61\nopen 1 1\nput 1 1 6b6b6b6b6b6b6b6b6b6b6b6b6b6b6b6b6b6b6b6b6b6b6b6b6b6b6b6b6b6b6b6b 76 6161616161616161616161616161616161616161616161616161616161616161\nput 1 1 6b 76 61\nrun 1\nput 1 9 6b 76 61\nput 1 8 6b 76 61\n",
        Status::Done,
        b"1 refused 5 bad-number\n2 refused 5 bad-number\n3 refused 5 bad-number\n4 refused 1 empty-key\n5 refused 11 bad-attr\n6 refused 12 long-entry\n7 refused 6 not-open\n8 begun\n9 refused 12 long-entry\n10 refused 7 at-work\n11 opened 1\n12 refused 5 bad-number\n13 noted\n",
    ),
    // An entry of 64 bytes.
    (
        b"open 1 1\nrun 1\nput 1 8 6b6b6b6b6b6b6b6b6b6b6b6b6b6b6b6b6b6b6b6b6b6b6b6b6b6b6b6b6b6b6b - 6161616161616161616161616161616161616161616161616161616161616161\ncommit 1\nrun 1\ntree 1 16\nrun 1\nreport 16\n",
        Status::Done,
        b"1 begun\n2 opened 1\n3 noted\n4 begun\n5 committed 1\n6 begun\n7 done 1 1 0\n8 report 16\ncommitted 1\n1 1 1 insert 2061616161616161616161616161616161616161616161616161616161616161616b6b6b6b6b6b6b6b6b6b6b6b6b6b6b6b6b6b6b6b6b6b6b6b6b6b6b6b6b6b6b -\norder 1\n1 1 1 insert 2061616161616161616161616161616161616161616161616161616161616161616b6b6b6b6b6b6b6b6b6b6b6b6b6b6b6b6b6b6b6b6b6b6b6b6b6b6b6b6b6b6b -\ncontents 1\n2061616161616161616161616161616161616161616161616161616161616161616b6b6b6b6b6b6b6b6b6b6b6b6b6b6b6b6b6b6b6b6b6b6b6b6b6b6b6b6b6b6b -\nleft 0 0\n",
    ),
    (b"put 1 1 6b 76\n", Status::BadLine, b"bad line 1\n"),
    (b"put 1 1 6b 76 6\n", Status::BadLine, b"bad line 1\n"),
    (b"put 1 1 6b 76 61 61\n", Status::BadLine, b"bad line 1\n"),
];

#[test]
fn replays_puts(rt: HostRuntime) {
    assert!(rt; all_write(rt.alloc(), &PUTS));
}
