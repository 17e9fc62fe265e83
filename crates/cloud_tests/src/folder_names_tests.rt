use db_base::ids::{ClientId, PageId, TreeId};
use db_base::names::{Lock, ObjName, QueueName};
use folder_names::fault::NameFault;
use folder_names::files::{file_of, folder_of, lock_of};
use folder_names::objects::{object_of, page_of};
use folder_names::parts::{Part, part_of, path_of};
use folder_names::queues::queue_of;
use std::alloc::Global;
use std::process::Abort;

/// A client, a tree and a page.
type Ids = (ClientId, TreeId, PageId);

fn ids(client: u64, tree: u64, page: u64) -> Option<Ids> {
    match (ClientId::new(client), TreeId::new(tree), PageId::new(page)) {
        (Ok(client), Ok(tree), Ok(page)) => Some((client, tree, page)),
        _ => None,
    }
}

fn has_file(alloc: Global, name: ObjName, file: &str) -> bool {
    match file_of(alloc, name) {
        Ok(text) => text.as_str() == file,
        Err(_) => false,
    }
}

fn has_object(alloc: Global, file: &str, name: ObjName) -> bool {
    match object_of(alloc, file) {
        Ok(found) => found == name,
        Err(_) => false,
    }
}

/// Whether this object has this file, and the file this object.
fn is_file(alloc: Global, name: &ObjName, file: &str) -> bool {
    has_file(alloc, *name, file) && has_object(alloc, file, *name)
}

fn have_files(alloc: Global, ids: &Ids) -> bool {
    let (client, tree, page) = *ids;
    is_file(alloc, &ObjName::Head(client), "head-3f")
        && is_file(alloc, &ObjName::Tree(tree), "tree-10")
        && is_file(alloc, &ObjName::Page(tree, page), "page-100000000000000102")
}

#[test]
fn objects_have_files_and_files_objects(rt: HostRuntime) {
    match ids(63, 16, 258) {
        Some(ids) => assert!(rt; have_files(rt.alloc(), &ids)),
        None => rt.panic("no ids"),
    }
}

fn has_page(alloc: Global, tree: TreeId, file: &str, page: PageId) -> bool {
    page_of(alloc, tree, file) == Ok(page)
}

fn has_no_page(alloc: Global, tree: TreeId, file: &str) -> bool {
    page_of(alloc, tree, file) == Err(NameFault::NotOurs)
}

/// Whether pages are told from other objects and from other files, for tree 2.
fn have_pages(alloc: Global, ids: &Ids) -> bool {
    let (_, tree, page) = *ids;
    has_page(alloc, tree, "page-020000000000000003", page)
        && has_no_page(alloc, tree, "page-010000000000000003")
        && has_no_page(alloc, tree, "page-020000000000000000")
        && has_no_page(alloc, tree, "tree-02")
        && has_no_page(alloc, tree, "head-02")
        && has_no_page(alloc, tree, "aside")
}

#[test]
fn pages_of_a_tree_are_told_by_their_files(rt: HostRuntime) {
    match ids(1, 2, 3) {
        Some(ids) => assert!(rt; have_pages(rt.alloc(), &ids)),
        None => rt.panic("no ids"),
    }
}

/// Whether a folder is told to be that of this queue.
fn tells_queue(alloc: Global, folder: &str, queue: &QueueName) -> bool {
    match queue_of(alloc, folder.as_bytes()) {
        Ok(found) => found == *queue,
        Err(_) => false,
    }
}

/// Whether this queue has this folder, and the folder this queue.
fn is_folder(alloc: Global, queue: QueueName, folder: &str) -> bool {
    let is_told = tells_queue(alloc, folder, &queue);
    match folder_of(alloc, queue) {
        Ok(text) => is_told && text.as_str() == folder,
        Err(_) => false,
    }
}

/// Whether a path is told to be that of this part.
fn tells_part(alloc: Global, path: &str, part: &Part) -> bool {
    match part_of(alloc, path.as_bytes()) {
        Ok(found) => found == *part,
        Err(_) => false,
    }
}

/// Whether this part has this path, and the path this part.
fn is_path(alloc: Global, part: Part, path: &str) -> bool {
    let is_told = tells_part(alloc, path, &part);
    match path_of(alloc, part) {
        Ok(text) => is_told && text.as_str() == path,
        Err(_) => false,
    }
}

fn have_paths(alloc: Global, ids: &Ids) -> bool {
    let (client, tree, page) = *ids;
    is_path(alloc, Part::Objects, "objects")
        && is_path(alloc, Part::Queues, "queues")
        && is_path(
            alloc,
            Part::Queue(QueueName::Atomic(client)),
            "queues/atomic-01",
        )
        && is_path(
            alloc,
            Part::Queue(QueueName::TreePu(tree)),
            "queues/updates-020000000000000000",
        )
        && is_path(
            alloc,
            Part::Queue(QueueName::PagePu(tree, page)),
            "queues/updates-020000000000000003",
        )
}

#[test]
fn parts_have_paths_and_paths_parts(rt: HostRuntime) {
    match ids(1, 2, 3) {
        Some(ids) => assert!(rt; have_paths(rt.alloc(), &ids)),
        None => rt.panic("no ids"),
    }
}

const NO_PARTS: [&str; 13] = [
    "",
    "object",
    "objects/",
    "objects/head-01",
    "locks",
    "in-use",
    "queues/",
    "queues/atomic-",
    "queues/atomic-41",
    "queues/atomic-0A",
    "queues/updates-020000000000000003/last",
    "queues/updates-110000000000000003",
    "../objects",
];

/// Whether none of these is the path of a part.
fn are_no_parts(alloc: Global, paths: &[&str]) -> bool {
    for path in paths {
        if part_of(alloc, path.as_bytes()) != Err(NameFault::NotOurs) {
            return false;
        }
    }
    true
}

#[test]
fn other_paths_are_no_parts(rt: HostRuntime) {
    assert!(rt; are_no_parts(rt.alloc(), &NO_PARTS));
}

fn is_lock(alloc: Global, lock: Lock, file: &str) -> bool {
    match lock_of(alloc, lock) {
        Ok(text) => text.as_str() == file,
        Err(_) => false,
    }
}

fn have_folders(alloc: Global, ids: &Ids) -> bool {
    let (client, tree, page) = *ids;
    is_folder(alloc, QueueName::Atomic(client), "atomic-01")
        && is_folder(alloc, QueueName::TreePu(tree), "updates-020000000000000000")
        && is_folder(
            alloc,
            QueueName::PagePu(tree, page),
            "updates-020000000000000003",
        )
}

fn have_locks(alloc: Global, ids: &Ids) -> bool {
    let (client, tree, page) = *ids;
    is_lock(alloc, Lock::Client(client), "head-01")
        && is_lock(alloc, Lock::Tree(tree), "tree-02")
        && is_lock(alloc, Lock::Page(tree, page), "page-020000000000000003")
}

#[test]
fn queues_have_folders_and_locks_files(rt: HostRuntime) {
    match ids(1, 2, 3) {
        Some(ids) => {
            assert!(rt; have_folders(rt.alloc(), &ids));
            assert!(rt; have_locks(rt.alloc(), &ids));
        }
        None => rt.panic("no ids"),
    }
}

const FOREIGN: [&str; 14] = [
    "",
    "head-",
    "head-00",
    "head-41",
    "head-3F",
    "head-3f ",
    "head_3f",
    "head-3f3f",
    "tree-11",
    "page-10",
    "page-100000000000000000",
    "page-00000000000000000001",
    ".lock",
    "notes.txt",
];

/// Whether none of these is an object's file.
fn are_foreign(alloc: Global, files: &[&str]) -> bool {
    for file in files {
        if object_of(alloc, file) != Err(NameFault::NotOurs) {
            return false;
        }
    }
    true
}

#[test]
fn foreign_names_are_no_objects(rt: HostRuntime) {
    assert!(rt; are_foreign(rt.alloc(), &FOREIGN));
}
