use crate::folder_script::{Leases, Step, play};
use folder_cloud::{FolderCloud, Ticks};
use std::fs;
use std::fs::File;
use std::rt::Files;

/// A clock that goes on by one tick at each reading, from a start.
#[derive(Drop)]
pub(crate) struct Steady {
    last: u64,
}

impl Steady {
    /// A clock that begins behind a tick.
    pub fn after(last: u64) -> Steady {
        Steady { last }
    }
}

impl Ticks for Steady {
    fn now(&mut self) -> u64 {
        self.last = self.last.saturating_add(1);
        self.last
    }
}

/// A folder that is opened at a tick, and what is done then.
#[derive(Clone, Copy)]
struct Opening<'a> {
    dir: &'a str,
    start: u64,
    script: &'a [Step<'a>],
}

/// Whether a cloud answers as is wanted where a folder is opened.
fn plays<R: Files<File = File> + AllocGlobal>(
    rt: &R,
    leases: &mut Leases,
    opening: Opening<'_>,
) -> bool {
    let clock = Steady::after(opening.start);
    match FolderCloud::open(rt, opening.dir, clock) {
        Ok(mut cloud) => play(rt, &mut cloud, leases, opening.script),
        Err(_) => false,
    }
}

/// Whether a cloud answers as is wanted where an empty folder is opened after tick 10.
pub(crate) fn plays_anew<R: Files<File = File> + AllocGlobal>(
    rt: &R,
    dir: &str,
    script: &[Step<'_>],
) -> bool {
    let _old = fs::remove_dir_all(rt, dir);
    let mut leases = Leases::none();
    let opening = Opening {
        dir,
        start: 10,
        script,
    };
    plays(rt, &mut leases, opening)
}

/// The folder is opened at 11; each call is a tick later.
const OBJECTS: &[Step<'static>] = &[
    Step::Gets(None),
    Step::Takes(100, 1, 113),
    Step::Puts(b"one"),
    Step::Puts(b"two"),
    Step::Writes("objects-test/objects/notes.txt", b"kept"),
];

/// Another opening of the folder, beside a file that is none of its own.
const OBJECTS_AGAIN: &[Step<'static>] = &[
    Step::GetsHeld(Some(b"two")),
    Step::Peeks(Some(b"two")),
    Step::Has("objects-test/objects/notes.txt", "kept"),
];

/// Whether what is put in a folder is found by another opening beside the first one.
fn keeps_beside<R: Files<File = File> + AllocGlobal>(rt: &R) -> bool {
    let dir = "objects-test";
    let _old = fs::remove_dir_all(rt, dir);
    let mut leases = Leases::none();
    let again = Opening {
        dir,
        start: 20,
        script: OBJECTS_AGAIN,
    };
    match FolderCloud::open(rt, dir, Steady::after(10)) {
        Ok(mut cloud) => {
            play(rt, &mut cloud, &mut leases, OBJECTS) && plays(rt, &mut leases, again)
        }
        Err(_) => false,
    }
}

#[test]
fn keeps_objects(rt: HostRuntime) {
    assert!(rt; keeps_beside(&rt));
}

/// Pages that are put out of order, beside files that are of no page of the tree: of another tree, of page 0, in capital letters, and
/// with another ending.
const PAGES: &[Step<'static>] = &[
    Step::Takes(100, 1, 112),
    Step::Lists(&[]),
    Step::PutsPage(300, b"c"),
    Step::PutsPage(2, b"a"),
    Step::PutsPage(17, b"b"),
    Step::Writes("pages-test/objects/page-020000000000000003", b"kept"),
    Step::Writes("pages-test/objects/page-010000000000000000", b"none"),
    Step::Writes("pages-test/objects/page-01000000000000000A", b"none"),
    Step::Writes("pages-test/objects/page-010000000000000005.old", b"none"),
    Step::Writes("pages-test/objects/tree-01", b"root"),
    Step::Writes("pages-test/objects/notes.txt", b"kept"),
    Step::Lists(&[2, 17, 300]),
    Step::TakesAway(17),
    Step::Lacks("pages-test/objects/page-010000000000000011"),
    Step::Has("pages-test/in-use", ""),
    Step::Lists(&[2, 300]),
    // What is not there is removed well.
    Step::TakesAway(17),
    Step::TakesAway(2),
    Step::Lists(&[300]),
    Step::Gets(None),
    Step::GetsHeld(None),
    Step::Peeks(None),
    Step::PutsPage(2, b"anew"),
    Step::Gets(Some(b"anew")),
    Step::Lists(&[2, 300]),
    Step::Has("pages-test/objects/page-020000000000000003", "kept"),
    Step::Has("pages-test/objects/notes.txt", "kept"),
    Step::MakesFolder("pages-test/objects/page-010000000000000004"),
    Step::FailsToTakeAway(4),
    Step::Gets(Some(b"anew")),
];

#[test]
fn lists_pages_in_order_and_removes_them(rt: HostRuntime) {
    assert!(rt; plays_anew(&rt, "pages-test", PAGES));
}

/// The folder is opened at 11; each call is a tick later.
const LATE_PAGES: &[Step<'static>] = &[
    Step::Takes(2, 1, 14),
    Step::Puts(b"kept"),
    Step::TakesAwayLate(14, 14),
    Step::ListsLate(14, 15),
    Step::Gets(Some(b"kept")),
    Step::Takes(100, 2, 117),
    Step::Lists(&[2]),
];

#[test]
fn lists_and_removes_nothing_late(rt: HostRuntime) {
    assert!(rt; plays_anew(&rt, "late-test", LATE_PAGES));
}

const MESSAGES: &[Step<'static>] = &[
    Step::Receives(256, &[]),
    Step::Sends(b"a", 1),
    Step::Sends(b"b", 2),
    Step::Sends(b"c", 3),
    Step::Deletes(1),
    Step::Deletes(1),
    Step::Deletes(3),
    Step::Receives(256, &[(2, b"b")]),
    // A number does not come twice, also where the last message was deleted.
    Step::Sends(b"d", 4),
    Step::Receives(1, &[(2, b"b")]),
    Step::Counts(2),
];

#[test]
fn keeps_messages_in_order(rt: HostRuntime) {
    assert!(rt; plays_anew(&rt, "queues-test", MESSAGES));
}

/// The folder is opened at 11; each call is a tick later.
const LOCKS: &[Step<'static>] = &[
    Step::Takes(5, 1, 17),
    Step::FindsHeld(5, 17),
    Step::Renews(10, 24),
    Step::Releases,
    Step::Takes(2, 2, 18),
    Step::Gets(None),
    Step::PutsLate(b"x", 18, 18),
    Step::IsAt(18),
];

#[test]
fn gives_locks(rt: HostRuntime) {
    assert!(rt; plays_anew(&rt, "locks-test", LOCKS));
}

const FOREIGN: &[Step<'static>] = &[
    Step::Writes("foreign-test/locks/head-02", b"no lock"),
    Step::FailsToTake(5),
];

#[test]
fn fails_where_a_file_is_foreign(rt: HostRuntime) {
    assert!(rt; plays_anew(&rt, "foreign-test", FOREIGN));
}

/// A queue whose note of the last number is lost, is set back and is at its greatest.
const NOTES: &[Step<'static>] = &[
    Step::Sends(b"a", 1),
    Step::Sends(b"b", 2),
    Step::Deletes(2),
    Step::Removes("notes-test/queues/updates-010000000000000000/last"),
    Step::Sends(b"c", 2),
    Step::Writes(
        "notes-test/queues/updates-010000000000000000/last",
        b"\0\0\0\0\0\0\0\0",
    ),
    Step::Sends(b"d", 3),
    Step::Writes(
        "notes-test/queues/updates-010000000000000000/last",
        b"\xff\xff\xff\xff\xff\xff\xff\xff",
    ),
    // The number of the one that is deleted is noted anew.
    Step::Sends(b"gone", 4),
    Step::Deletes(4),
    Step::Sends(b"e", 5),
    Step::Writes("notes-test/queues/updates-010000000000000000/last", b""),
    Step::Sends(b"f", 6),
    Step::Receives(
        256,
        &[(1, b"a"), (2, b"c"), (3, b"d"), (5, b"e"), (6, b"f")],
    ),
];

#[test]
fn sends_behind_all_that_are_there(rt: HostRuntime) {
    assert!(rt; plays_anew(&rt, "notes-test", NOTES));
}

/// A lease of client 2's lock: in generation 1, from 12 to 112. The folder is opened at 11.
const TAKES: &[Step<'static>] = &[Step::Takes(100, 1, 112)];

/// Each call under it is held up until it is over, and the release too, which finds nothing to give back.
const HELD_UP: &[Step<'static>] = &[
    Step::GetsLate(112, 200),
    Step::PutsLate(b"late", 112, 200),
    Step::ListsLate(112, 200),
    Step::TakesAwayLate(112, 200),
    Step::RenewsLate(112, 200),
    Step::Releases,
    Step::Gets(None),
];

/// A clock that stands at one moment, and at a later one while the folder is locked: what reads it before it has the lock is held
/// up meanwhile.
#[derive(Drop)]
struct AtLock<R> {
    rt: R,
    early: u64,
    late: u64,
}

impl<R: Files<File = File> + Drop> Ticks for AtLock<R> {
    fn now(&mut self) -> u64 {
        match fs::open(&self.rt, "held-up-test/in-use") {
            Ok(file) => match file.try_lock() {
                Ok(()) => self.early,
                Err(_) => self.late,
            },
            Err(_) => self.early,
        }
    }
}

/// Whether each call of an opening that waits past its lease comes late.
fn comes_late(rt: &HostRuntime) -> bool {
    let dir = "held-up-test";
    let _old = fs::remove_dir_all(rt, dir);
    let mut leases = Leases::none();
    let first = Opening {
        dir,
        start: 10,
        script: TAKES,
    };
    let clock = AtLock {
        rt,
        early: 20,
        late: 200,
    };
    plays(rt, &mut leases, first)
        && match FolderCloud::open(rt, dir, clock) {
            Ok(mut cloud) => play(rt, &mut cloud, &mut leases, HELD_UP),
            Err(_) => false,
        }
}

#[test]
fn checks_leases_behind_the_lock(rt: HostRuntime) {
    assert!(rt; comes_late(&rt));
}

/// The folder is opened at 151, and its lock taken by another; the first lease is kept.
const TAKES_OVER: &[Step<'static>] = &[
    Step::Swaps,
    Step::Takes(100, 2, 252),
    Step::Puts(b"second"),
];

/// The clock stepped back to 21: both leases last by it, and the kept one's lock was given away.
const LOST: &[Step<'static>] = &[
    Step::GetsHeld(Some(b"second")),
    Step::FailsToPutUnderBoth(b"first"),
    Step::Swaps,
    Step::FailsToGetHeld,
    Step::FailsToPut(b"first"),
    Step::FailsToList,
    Step::FailsToTakeAway(2),
    Step::FailsToRenew,
    Step::FailsToRelease,
    Step::Swaps,
    Step::GetsHeld(Some(b"second")),
    Step::Renews(10, 42),
    Step::Releases,
    Step::Takes(5, 3, 39),
];

/// Whether all scripts are played, each by an opening of its own at its moment.
fn plays_in_turn(rt: &HostRuntime, dir: &str, turns: &[(u64, &[Step<'_>])]) -> bool {
    let _old = fs::remove_dir_all(rt, dir);
    let mut leases = Leases::none();
    for (start, script) in turns {
        let opening = Opening {
            dir,
            start: *start,
            script,
        };
        if !plays(rt, &mut leases, opening) {
            return false;
        }
    }
    true
}

#[test]
fn writes_nothing_under_a_lease_that_another_took(rt: HostRuntime) {
    let turns = [(10, TAKES), (150, TAKES_OVER), (20, LOST)];
    assert!(rt; plays_in_turn(&rt, "lost-test", &turns));
}

/// Locks whose end is later than any lease's that is given now, and at the latest. The folder is opened at 11.
const ENDS: &[Step<'static>] = &[
    Step::Writes(
        "ends-test/locks/head-02",
        b"\0\0\0\0\0\0\0\x04\xff\xff\xff\xff\xff\xff\xff\xff",
    ),
    Step::Takes(5, 5, 17),
    Step::Writes(
        "ends-test/locks/head-02",
        b"\0\0\0\0\0\0\0\x04\0\0\0\0\0\0\x02\x65",
    ),
    Step::FindsHeld(5, 613),
    // No lease is longer.
    Step::Removes("ends-test/locks/head-02"),
    Step::Takes(700, 1, 614),
    // An empty file was never taken.
    Step::Writes("ends-test/locks/head-02", b""),
    Step::Takes(5, 1, 20),
];

#[test]
fn obeys_no_end_that_is_too_late(rt: HostRuntime) {
    assert!(rt; plays_anew(&rt, "ends-test", ENDS));
}

/// Leftovers where a file is written, and what a killed process noted.
const LEFTOVERS: &[Step<'static>] = &[
    Step::Takes(100, 1, 112),
    Step::Writes("left-test/foreign", b"kept"),
    Step::Links("left-test/objects/aside", "../foreign"),
    Step::Puts(b"one"),
    Step::Has("left-test/foreign", "kept"),
    Step::Lacks("left-test/objects/aside"),
    Step::Writes("left-test/objects/aside", b"left"),
    Step::Writes("left-test/in-use", b"objects"),
    Step::Puts(b"two"),
    Step::Has("left-test/in-use", ""),
    Step::Writes("left-test/in-use", b"no/part"),
    Step::Gets(Some(b"two")),
    Step::Has("left-test/in-use", ""),
    Step::MakesFolder("left-test/objects/aside"),
    Step::FailsToPut(b"three"),
    Step::Gets(Some(b"two")),
];

#[test]
fn writes_beside_leftovers(rt: HostRuntime) {
    assert!(rt; plays_anew(&rt, "left-test", LEFTOVERS));
}

/// What is no file of the store, where one is looked for.
const STRANGERS: &[Step<'static>] = &[
    Step::MakesFolder("strange-test/objects/page-010000000000000002"),
    Step::FailsToGet,
    Step::Sends(b"a", 1),
    Step::MakesFolder("strange-test/queues/updates-010000000000000000/0000000000000002"),
    Step::FailsToReceive,
    Step::Sends(b"c", 3),
    Step::Receives(1, &[(1, b"a")]),
    Step::Links("strange-test/locks/head-02", "../objects"),
    Step::FailsToTake(5),
];

#[test]
fn reads_no_folders_and_no_links(rt: HostRuntime) {
    assert!(rt; plays_anew(&rt, "strange-test", STRANGERS));
}

const SIZES: &[Step<'static>] = &[
    Step::MakesLarge("large-test/objects/page-010000000000000002", 16_777_217),
    Step::FailsToGet,
    Step::Removes("large-test/objects/page-010000000000000002"),
    Step::Gets(None),
    // A lock on a file that is reached by a link is not the folder's.
    Step::Removes("large-test/in-use"),
    Step::Writes("large-test/other", b""),
    Step::Links("large-test/in-use", "other"),
    Step::FailsToGet,
];

#[test]
fn reads_no_file_that_is_too_large(rt: HostRuntime) {
    assert!(rt; plays_anew(&rt, "large-test", SIZES));
}

#[test]
fn opens_no_folder_at_an_empty_path(rt: HostRuntime) {
    let opened = FolderCloud::open(&rt, "", Steady::after(10));
    assert!(rt; opened.is_err());
}
