use crate::folder_cloud_tests::{Steady, plays_anew};
use crate::folder_script::{Leases, Step, play};
use cloud_trait::fault::CloudFault;
use folder_cloud::FolderCloud;
use std::fs;
use std::fs::File;
use std::rt::Files;

/// Whether something stands at a path.
fn stands<R: Files>(rt: &R, path: &str) -> bool {
    fs::symlink_metadata(rt, path).is_ok()
}

/// Whether no store is opened at a path.
fn finds_none<R: Files<File = File> + AllocGlobal>(rt: &R, dir: &str) -> bool {
    matches!(
        FolderCloud::open_standing(rt, dir, Steady::after(10)),
        Err(CloudFault::Failed)
    )
}

/// Whether a cloud that was opened in a store answers as is wanted.
fn plays_standing<R: Files<File = File> + AllocGlobal>(
    rt: &R,
    dir: &str,
    script: &[Step<'_>],
) -> bool {
    match FolderCloud::open_standing(rt, dir, Steady::after(20)) {
        Ok(mut cloud) => play(rt, &mut cloud, &mut Leases::none(), script),
        Err(_) => false,
    }
}

const SENDS: &[Step<'static>] = &[Step::Sends(b"a", 1)];

const FINDS: &[Step<'static>] = &[Step::Receives(256, &[(1, b"a")]), Step::Sends(b"b", 2)];

#[test]
fn opens_a_store_that_stands(rt: HostRuntime) {
    assert!(rt; plays_anew(&rt, "standing-test", SENDS));
    assert!(rt; plays_standing(&rt, "standing-test", FINDS));
}

#[test]
fn makes_no_store_where_none_stands(rt: HostRuntime) {
    let _old = fs::remove_dir_all(&rt, "no-store-test");
    assert!(rt; finds_none(&rt, "no-store-test"));
    assert!(rt; !stands(&rt, "no-store-test"));
    let made = fs::create_dir(&rt, "no-store-test").is_ok();
    assert!(rt; made && finds_none(&rt, "no-store-test"));
    assert!(rt; fs::remove_dir(&rt, "no-store-test").is_ok());
    assert!(rt; finds_none(&rt, ""));
}

#[test]
fn makes_a_store_whole_that_was_begun(rt: HostRuntime) {
    let _old = fs::remove_dir_all(&rt, "begun-test");
    assert!(rt; fs::create_dir(&rt, "begun-test").is_ok());
    assert!(rt; fs::create_dir(&rt, "begun-test/objects").is_ok());
    assert!(rt; plays_standing(&rt, "begun-test", SENDS));
}

/// The folder is made by this call.
const MAKES: &[Step<'static>] = &[
    Step::Lacks("first-test/above"),
    Step::Gets(None),
    Step::Has("first-test/above/store/in-use", ""),
    Step::Sends(b"a", 1),
    Step::Takes(5, 1, 19),
];

/// The same for a look.
const LOOKS: &[Step<'static>] = &[
    Step::Lacks("first-test/other"),
    Step::Peeks(None),
    Step::Has("first-test/other/in-use", ""),
];

/// The folder can't be made while a file stands in its place.
const HINDERED: &[Step<'static>] = &[
    Step::Writes("first-test/third", b"kept"),
    Step::FailsToGet,
    Step::FailsToTake(5),
    Step::Has("first-test/third", "kept"),
    Step::Removes("first-test/third"),
    Step::Gets(None),
    Step::Has("first-test/third/in-use", ""),
];

/// Whether a cloud that makes its folder at its first call answers as is wanted.
fn plays_at_first_call<R: Files<File = File> + AllocGlobal>(
    rt: &R,
    dir: &str,
    script: &[Step<'_>],
) -> bool {
    match FolderCloud::open_at_first_call(rt, dir, Steady::after(10)) {
        Ok(mut cloud) => play(rt, &mut cloud, &mut Leases::none(), script),
        Err(_) => false,
    }
}

#[test]
fn makes_its_folder_at_the_first_call(rt: HostRuntime) {
    let _old = fs::remove_dir_all(&rt, "first-test");
    assert!(rt; fs::create_dir(&rt, "first-test").is_ok());
    assert!(rt; plays_at_first_call(&rt, "first-test/above/store", MAKES));
    assert!(rt; plays_at_first_call(&rt, "first-test/other", LOOKS));
    assert!(rt; plays_at_first_call(&rt, "first-test/third", HINDERED));
    assert!(rt; FolderCloud::open_at_first_call(&rt, "", Steady::after(10)).is_err());
}

/// What a process that was killed, or a power failure, may leave in `in-use`: parts of a store that are there and one that is not; and
/// what names none: cut, too long, more than is read, another word, paths that lead out, and bytes that are no text.
const MARKS: &[&[u8]] = &[
    b"objects",
    b"queues",
    b"queues/updates-010000000000000000",
    b"queues/atomic-40",
    b"\0\0\0\0\0\0\0",
    b"object",
    b"objects\0",
    b"queues/updates-01000000000000000",
    b"queues/updates-010000000000000000/",
    b"queues/updates-0100000000000000000000000000000000000000000000000000",
    b"locks",
    b"queues/..",
    b"../marks-test",
    b"\xff\xff\xff\xff\xff\xff\xff\xff\xff\xff\xff",
];

/// Whether a mark is gone behind the first call, and calls do what they should.
fn drops_mark<R: Files<File = File> + AllocGlobal>(rt: &R, mark: &[u8]) -> bool {
    let script = [
        Step::Sends(b"a", 1),
        Step::Writes("marks-test/in-use", mark),
        Step::Counts(1),
        Step::Has("marks-test/in-use", ""),
        Step::Sends(b"b", 2),
        Step::Has("marks-test/in-use", ""),
    ];
    plays_anew(rt, "marks-test", &script)
}

fn drops_marks<R: Files<File = File> + AllocGlobal>(rt: &R, marks: &[&[u8]]) -> bool {
    for mark in marks {
        if !drops_mark(rt, *mark) {
            return false;
        }
    }
    true
}

#[test]
fn obeys_or_drops_a_mark(rt: HostRuntime) {
    assert!(rt; drops_marks(&rt, MARKS));
}

/// A link in the place of `in-use` that leads to nothing: no file is made where it leads. So too a folder.
const STRANGERS: &[Step<'static>] = &[
    Step::Gets(None),
    Step::Removes("in-place-test/in-use"),
    Step::Links("in-place-test/in-use", "nowhere"),
    Step::FailsToGet,
    Step::Lacks("in-place-test/nowhere"),
    Step::Removes("in-place-test/in-use"),
    Step::MakesFolder("in-place-test/in-use"),
    Step::FailsToGet,
];

#[test]
fn makes_nothing_through_a_link(rt: HostRuntime) {
    assert!(rt; plays_anew(&rt, "in-place-test", STRANGERS));
}

#[test]
fn opens_no_folder_whose_part_is_a_file(rt: HostRuntime) {
    let _old = fs::remove_dir_all(&rt, "part-test");
    assert!(rt; fs::create_dir(&rt, "part-test").is_ok());
    assert!(rt; fs::write(&rt, "part-test/objects", b"").is_ok());
    assert!(rt; FolderCloud::open(&rt, "part-test", Steady::after(10)).is_err());
    assert!(rt; finds_none(&rt, "part-test"));
}
