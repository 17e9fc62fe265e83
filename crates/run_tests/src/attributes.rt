//! Replays of records with attributes.

use crate::bench::{all_run, all_write};
use schedule_run::status::Status;

const ATTRIBUTES: [(&[u8], Status, &[u8]); 10] = [
    // Kept by an update.
    (
        b"open 1 1\nrun 1\ninsert 1 1 6b 76 61\ncommit 1\nrun 1\ntree 1 1\nrun 1\nupdate 1 1 6b 77\ncommit 1\nrun 1\npage 1 1 1\nrun 1\nreport 1\n",
        Status::Done,
        b"1 begun\n2 opened 1\n3 noted\n4 begun\n5 committed 1\n6 begun\n7 done 1 1 0\n8 noted\n9 begun\n10 committed 2\n11 begun\n12 done 1 1 0\n13 report 1\ncommitted 2\n1 1 1 insert 6b 76 61\n1 1 2 update 6b 77\norder 2\n1 1 1 insert 6b 76 61\n1 1 2 update 6b 77\ncontents 1\n6b 77 61\nleft 0 0\n",
    ),
    // Kept by an addition.
    (
        b"open 1 1\nrun 1\ninsert 1 1 6b 0000000000000005 61\ncommit 1\nrun 1\ntree 1 1\nrun 1\nadd 1 1 6b 3\ncommit 1\nrun 1\npage 1 1 1\nrun 1\nreport 1\n",
        Status::Done,
        b"1 begun\n2 opened 1\n3 noted\n4 begun\n5 committed 1\n6 begun\n7 done 1 1 0\n8 noted\n9 begun\n10 committed 2\n11 begun\n12 done 1 1 0\n13 report 1\ncommitted 2\n1 1 1 insert 6b 0000000000000005 61\n1 1 2 add 6b 3\norder 2\n1 1 1 insert 6b 0000000000000005 61\n1 1 2 add 6b 3\ncontents 1\n6b 0000000000000008 61\nleft 0 0\n",
    ),
    // Cleared by an insert without one, and set by one with another.
    (
        b"open 1 1\nrun 1\ninsert 1 1 6b 76 61\ninsert 1 1 6c 76 61\ncommit 1\nrun 1\ntree 1 1\nrun 1\ninsert 1 1 6b 77\ninsert 1 1 6c 77 6263\ncommit 1\nrun 1\ntree 1 1\nrun 1\nreport 1\n",
        Status::Done,
        b"1 begun\n2 opened 1\n3 noted\n4 noted\n5 begun\n6 committed 1\n7 begun\n8 done 2 2 0\n9 noted\n10 noted\n11 begun\n12 committed 2\n13 begun\n14 done 2 2 0\n15 report 1\ncommitted 4\n1 1 1 insert 6b 76 61\n1 1 1 insert 6c 76 61\n1 1 2 insert 6b 77\n1 1 2 insert 6c 77 6263\norder 4\n1 1 1 insert 6b 76 61\n1 1 1 insert 6c 76 61\n1 1 2 insert 6b 77\n1 1 2 insert 6c 77 6263\ncontents 2\n6b 77\n6c 77 6263\nleft 0 0\n",
    ),
    // In one transaction: an insert without one, an update, an addition, and an insert behind a deletion; a read and a scan show payloads alone.
    (
        b"open 1 1\nrun 1\ninsert 1 1 61 76 6162\ninsert 1 1 61 77\ninsert 1 1 62 76 61\nupdate 1 1 62 77\ninsert 1 1 63 ffffffffffffffff 61\nadd 1 1 63 2\ninsert 1 1 64 76\ndelete 1 1 64\ninsert 1 1 64 - 61\ninsert 1 1 65 76 61\ndelete 1 1 65\nread 1 1 62\nrun 1\ncommit 1\nrun 1\ntree 1 1\nrun 1\nscan 1 1 - -\nrun 1\nread 1 1 64\nrun 1\nreport 1\n",
        Status::Done,
        b"1 begun\n2 opened 1\n3 noted\n4 noted\n5 noted\n6 noted\n7 noted\n8 noted\n9 noted\n10 noted\n11 noted\n12 noted\n13 noted\n14 begun\n15 value 77\n16 begun\n17 committed 1\n18 begun\n19 done 5 5 0\n20 begun\n21 scan 4 61=77 62=77 63=0000000000000001 64=-\n22 begun\n23 value -\n24 report 1\ncommitted 5\n1 1 1 insert 61 77\n1 1 1 insert 62 77 61\n1 1 1 insert 63 0000000000000001 61\n1 1 1 insert 64 - 61\n1 1 1 delete 65\norder 5\n1 1 1 insert 61 77\n1 1 1 insert 62 77 61\n1 1 1 insert 63 0000000000000001 61\n1 1 1 insert 64 - 61\n1 1 1 delete 65\ncontents 4\n61 77\n62 77 61\n63 0000000000000001 61\n64 - 61\nleft 0 0\n",
    ),
    // Refused by the tree, by the key, by the attribute and by the state, in this order.
    (
        b"insert 2 17 - 76 -\ninsert 2 1 - 76 -\ninsert 2 1 6c 76 -\ninsert 2 1 6c 76 616161616161616161616161616161616161616161616161616161616161616161\ninsert 2 1 6c 76 6161616161616161616161616161616161616161616161616161616161616161\ninsert 2 1 6c 76\nopen 1 1\ninsert 1 1 6c 76 -\ninsert 1 1 6c 76 61\nrun 1\ninsert 1 1 6c 76 -\ninsert 1 1 6c 76 616161616161616161616161616161616161616161616161616161616161616161\ninsert 1 1 6c 76 6161616161616161616161616161616161616161616161616161616161616161\n",
        Status::Done,
        b"1 refused 5 bad-number\n2 refused 1 empty-key\n3 refused 11 bad-attr\n4 refused 11 bad-attr\n5 refused 6 not-open\n6 refused 6 not-open\n7 begun\n8 refused 11 bad-attr\n9 refused 7 at-work\n10 opened 1\n11 refused 11 bad-attr\n12 refused 11 bad-attr\n13 noted\n",
    ),
    (b"insert 1 1 6b 76 6\n", Status::BadLine, b"bad line 1\n"),
    (
        b"insert 1 1 6b 76 61 61\n",
        Status::BadLine,
        b"bad line 1\n",
    ),
    (b"update 1 1 6b 76 61\n", Status::BadLine, b"bad line 1\n"),
    (b"add 1 1 6b 3 61\n", Status::BadLine, b"bad line 1\n"),
    (b"delete 1 1 6b 61\n", Status::BadLine, b"bad line 1\n"),
];

#[test]
fn replays_attributes(rt: HostRuntime) {
    assert!(rt; all_write(rt.alloc(), &ATTRIBUTES));
}

/// A shell whose insert has an attribute, and a schedule over the cloud that it left.
const SHELL: [(&[&str], &[u8], Status, &[u8]); 2] = [
    (
        &["shell", "1", "db"],
        b"insert 1 6b 76 61\ninsert 1 6c 76 -\ncommit\ntree 1\nread 1 6b\n",
        Status::Done,
        b"0 opened 1\n1 noted\n2 refused 11 bad-attr\n3 committed 1\n4 done 1 1 0\n5 value 76\n6 closed\n",
    ),
    (
        &["replay"],
        b"report 1\n",
        Status::Done,
        b"1 report 1\ncommitted 0\norder 0\ncontents 1\n6b 76 61\nleft 0 0\n",
    ),
];

#[test]
fn notes_an_attribute_in_a_shell(rt: HostRuntime) {
    assert!(rt; all_run(rt.alloc(), &SHELL));
}
