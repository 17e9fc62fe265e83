//! Replays of additions.

use crate::bench::all_write;
use schedule_run::status::Status;

const ADDITIONS: [(&[u8], Status, &[u8]); 10] = [
    // Messages that come three times, and once more when they are applied.
    (
        b"open 1 1\nrun 1\ninsert 1 1 6b 0000000000000005\ncommit 1\nrun 1\ntree 1 1\nrun 1\nadd 1 1 6b 3\ncommit 1\nrun 1\npage 1 1 1\nstep 1 plain\nstep 1 plain\nstep 1 give 1 1 1\nrun 1\npage 1 1 1\nstep 1 plain\nstep 1 plain\nstep 1 give 1\nrun 1\nreport 1\n",
        Status::Done,
        b"1 begun\n2 opened 1\n3 noted\n4 begun\n5 committed 1\n6 begun\n7 done 1 1 0\n8 noted\n9 begun\n10 committed 2\n11 begun\n12 called\n13 called\n14 called\n15 done 1 1 0\n16 begun\n17 called\n18 called\n19 called\n20 done 0 1 0\n21 report 1\ncommitted 2\n1 1 1 insert 6b 0000000000000005\n1 1 2 add 6b 3\norder 2\n1 1 1 insert 6b 0000000000000005\n1 1 2 add 6b 3\ncontents 1\n6b 0000000000000008\nleft 0 0\n",
    ),
    // Joined to what was noted before.
    (
        b"open 1 1\nrun 1\ninsert 1 1 61 ffffffffffffffff\nadd 1 1 61 2\ninsert 1 1 62 76\nadd 1 1 62 2\nadd 1 1 63 3\nadd 1 1 63 4\ncommit 1\nrun 1\ntree 1 1\nrun 1\npage 1 1 1\nrun 1\nreport 1\n",
        Status::Done,
        b"1 begun\n2 opened 1\n3 noted\n4 noted\n5 noted\n6 noted\n7 noted\n8 noted\n9 begun\n10 committed 1\n11 begun\n12 done 2 2 0\n13 begun\n14 done 1 1 0\n15 report 1\ncommitted 3\n1 1 1 insert 61 0000000000000001\n1 1 1 insert 62 76\n1 1 1 add 63 7\norder 3\n1 1 1 insert 61 0000000000000001\n1 1 1 insert 62 76\n1 1 1 add 63 7\ncontents 2\n61 0000000000000001\n62 76\nleft 0 0\n",
    ),
    // Behind an insert that no checkpoint took, an addition waits where that waits.
    (
        b"open 1 1\nrun 1\ninsert 1 1 6b 0000000000000001\ncommit 1\nrun 1\nadd 1 1 6b 2\ncommit 1\nrun 1\npage 1 1 1\nrun 1\ntree 1 1\nrun 1\nreport 1\n",
        Status::Done,
        b"1 begun\n2 opened 1\n3 noted\n4 begun\n5 committed 1\n6 noted\n7 begun\n8 committed 2\n9 begun\n10 done 0 0 0\n11 begun\n12 done 2 2 0\n13 report 1\ncommitted 2\n1 1 1 insert 6b 0000000000000001\n1 1 2 add 6b 2\norder 2\n1 1 1 insert 6b 0000000000000001\n1 1 2 add 6b 2\ncontents 1\n6b 0000000000000003\nleft 0 0\n",
    ),
    // To seven bytes, past the greatest number, to no record, to an update, to a deletion, and of nothing; a sum is read before any page has it.
    (
        b"open 1 1\nrun 1\ninsert 1 1 61 00000000000001\ninsert 1 1 62 ffffffffffffffff\ncommit 1\nrun 1\ntree 1 1\nrun 1\nadd 1 1 61 5\nadd 1 1 62 1\nadd 1 1 63 9\nupdate 1 1 64 313233\nadd 1 1 64 1\ndelete 1 1 65\nadd 1 1 65 1\nadd 1 1 66 0\nread 1 1 62\nrun 1\ncommit 1\nrun 1\nread 1 1 62\nrun 1\nscan 1 1 - -\nrun 1\npage 1 1 1\nrun 1\ntree 1 1\nrun 1\nscan 1 1 - -\nrun 1\nreport 1\n",
        Status::Done,
        b"1 begun\n2 opened 1\n3 noted\n4 noted\n5 begun\n6 committed 1\n7 begun\n8 done 2 2 0\n9 noted\n10 noted\n11 noted\n12 noted\n13 noted\n14 noted\n15 noted\n16 noted\n17 begun\n18 value 0000000000000000\n19 begun\n20 committed 2\n21 begun\n22 value 0000000000000000\n23 begun\n24 scan 2 61=00000000000001 62=0000000000000000\n25 begun\n26 done 5 5 0\n27 begun\n28 done 1 1 0\n29 begun\n30 scan 2 61=00000000000001 62=0000000000000000\n31 report 1\ncommitted 8\n1 1 1 insert 61 00000000000001\n1 1 1 insert 62 ffffffffffffffff\n1 1 2 add 61 5\n1 1 2 add 62 1\n1 1 2 add 63 9\n1 1 2 update 64 313233\n1 1 2 delete 65\n1 1 2 add 66 0\norder 8\n1 1 1 insert 61 00000000000001\n1 1 1 insert 62 ffffffffffffffff\n1 1 2 add 61 5\n1 1 2 add 62 1\n1 1 2 add 63 9\n1 1 2 update 64 313233\n1 1 2 add 66 0\n1 1 2 delete 65\ncontents 2\n61 00000000000001\n62 0000000000000000\nleft 0 0\n",
    ),
    // Refused as an insert is: by the tree, by the key, by the state.
    (
        b"add 1 17 6b 3\nadd 1 1 - 3\nadd 1 1 6b 18446744073709551615\n",
        Status::Done,
        b"1 refused 5 bad-number\n2 refused 1 empty-key\n3 refused 6 not-open\n",
    ),
    (
        b"add 1 1 6b 18446744073709551616\n",
        Status::BadLine,
        b"bad line 1\n",
    ),
    (b"add 1 1 6b 03\n", Status::BadLine, b"bad line 1\n"),
    (b"add 1 1 6b -1\n", Status::BadLine, b"bad line 1\n"),
    (b"add 1 1 6b\n", Status::BadLine, b"bad line 1\n"),
    (b"add 1 1 6b 3 3\n", Status::BadLine, b"bad line 1\n"),
];

#[test]
fn replays_additions(rt: HostRuntime) {
    assert!(rt; all_write(rt.alloc(), &ADDITIONS));
}
