//! How files and folders are made, read and flushed. No link is followed.

use crate::fault::FolderFault;
use std::fs::{DirBuilder, File, Metadata, OpenOptions};
use std::io::{ErrorKind, Read};
use std::os::unix::fs::{DirBuilderExt, FileExt, MetadataExt, OpenOptionsExt};
use std::rt::Files;
use std::{fs, io};

/// The most bytes that a file may have which is read.
const MOST_BYTES: u64 = 16 * 1024 * 1024;

/// A file that is made is for its owner alone.
const FILE_MODE: u32 = 0o600;

/// A folder that is made is for its owner alone.
const FOLDER_MODE: u32 = 0o700;

/// What stands at a path, a link as itself; none where there is nothing.
pub(crate) fn look<R: Files>(rt: &R, path: &str) -> Result<Option<Metadata>, FolderFault> {
    match fs::symlink_metadata(rt, path) {
        Ok(there) => Ok(Some(there)),
        Err(error) => match error.kind() {
            ErrorKind::NotFound => Ok(None),
            _ => Err(FolderFault::from(error)),
        },
    }
}

// Whether both are the same regular file.
fn is_same_file(one: &Metadata, other: &Metadata) -> bool {
    one.is_file() && other.is_file() && one.dev() == other.dev() && one.ino() == other.ino()
}

/// Opens the regular file at a path to read and write, and makes one where there is none. Failed where anything else stands there:
/// a link would be followed. What was opened all the same is told by `is_own`.
pub(crate) fn open_or_make<R: Files<File = File>>(rt: &R, path: &str) -> Result<File, FolderFault> {
    match look(rt, path)? {
        Some(there) if there.is_file() => open_both(rt, path),
        Some(_) => Err(FolderFault::Failed),
        None => match new_file().open(rt, path) {
            Ok(file) => Ok(file),
            Err(error) => match error.kind() {
                // Another process made it since.
                ErrorKind::AlreadyExists => open_both(rt, path),
                _ => Err(FolderFault::from(error)),
            },
        },
    }
}

// Opens the file at a path to read and write.
fn open_both<R: Files<File = File>>(rt: &R, path: &str) -> Result<File, FolderFault> {
    let mut options = OpenOptions::new();
    options.read(true).write(true);
    Ok(options.open(rt, path)?)
}

// How a file is made to read and write where nothing stands.
fn new_file() -> OpenOptions {
    let mut options = OpenOptions::new();
    options.read(true).write(true).create_new(true);
    options.mode(FILE_MODE);
    options
}

/// Whether an open file is the regular file that stands at a path, and stands nowhere else.
pub(crate) fn is_own<R: Files<File = File>>(
    rt: &R,
    path: &str,
    file: &File,
) -> Result<bool, FolderFault> {
    let there = fs::symlink_metadata(rt, path)?;
    let opened = file.metadata()?;
    Ok(is_same_file(&there, &opened) && opened.nlink() == 1)
}

/// Writes bytes over the first ones of a file, which is made where there is none: so few that they are written whole or not at
/// all. They are not flushed.
pub(crate) fn write_over<R: Files<File = File>>(
    rt: &R,
    path: &str,
    bytes: &[u8],
) -> Result<(), FolderFault> {
    let file = open_or_make(rt, path)?;
    if !is_own(rt, path, &file)? {
        return Err(FolderFault::Failed);
    }
    landed(file.write_all_at(bytes, 0))
}

/// What a call answers that may have failed after its effect: Failed, also for want of memory.
pub(crate) fn landed(done: io::Result<()>) -> Result<(), FolderFault> {
    match done {
        Ok(()) => Ok(()),
        Err(_) => Err(FolderFault::Failed),
    }
}

/// Makes a file at a path where nothing stands.
pub(crate) fn make_new<R: Files<File = File>>(rt: &R, path: &str) -> Result<File, FolderFault> {
    Ok(new_file().open(rt, path)?)
}

/// The bytes of the regular file at a path; none where there is nothing. Failed where it is anything else or has too many bytes. To
/// open a pipe would wait, so what stands there is looked at before.
pub(crate) fn read<R: Files<File = File> + AllocGlobal>(
    rt: &R,
    path: &str,
) -> Result<Option<Vec<u8>>, FolderFault> {
    let Some(there) = look(rt, path)? else {
        return Ok(None);
    };
    if !there.is_file() || there.len() > MOST_BYTES {
        return Err(FolderFault::Failed);
    }
    let file = fs::open(rt, path)?;
    if !is_same_file(&there, &file.metadata()?) {
        return Err(FolderFault::Failed);
    }
    let mut bytes = Vec::new(rt.alloc());
    file.take(MOST_BYTES).read_to_end(&mut bytes)?;
    Ok(Some(bytes))
}

/// Removes a file, where there is one.
pub(crate) fn remove<R: Files>(rt: &R, path: &str) -> Result<(), FolderFault> {
    match fs::remove_file(rt, path) {
        Ok(()) => Ok(()),
        Err(error) => match error.kind() {
            ErrorKind::NotFound => Ok(()),
            _ => Err(FolderFault::from(error)),
        },
    }
}

/// An entry of a folder that is read; none where its name is no text, so that it is none of the store's.
pub(crate) fn named<T: Drop>(entry: io::Result<T>) -> Result<Option<T>, FolderFault> {
    match entry {
        Ok(entry) => Ok(Some(entry)),
        Err(error) => match error.kind() {
            ErrorKind::InvalidFilename => Ok(None),
            _ => Err(FolderFault::from(error)),
        },
    }
}

/// Makes a folder, where the one above it is there.
pub(crate) fn make_folder<R: Files>(rt: &R, path: &str) -> Result<(), FolderFault> {
    let mut builder = DirBuilder::new();
    builder.mode(FOLDER_MODE);
    builder.create(rt, path)?;
    Ok(())
}

/// Makes a folder where there is none, and flushes its name, since whoever made it may have been killed before that.
pub(crate) fn keep_folder<R: Files<File = File> + AllocGlobal>(
    rt: &R,
    path: &str,
) -> Result<(), FolderFault> {
    match open_folder(rt, above(path)) {
        Ok(names) => match make_folder(rt, path) {
            Ok(()) => Ok(names.sync_all()?),
            Err(fault) => found(rt, path, fault, names.sync_all()),
        },
        Err(error) => found(rt, path, FolderFault::Failed, Err(error)),
    }
}

// The same for a folder that was not made, but found, or else this fault. No shell made it where the one above it may not be read, or
// its file system flushes no names: then none is to be flushed.
fn found<R: Files>(
    rt: &R,
    path: &str,
    fault: FolderFault,
    flushed: io::Result<()>,
) -> Result<(), FolderFault> {
    if !fs::metadata(rt, path)?.is_dir() {
        return Err(fault);
    }
    match flushed {
        Ok(()) => Ok(()),
        Err(error) => match error.kind() {
            ErrorKind::PermissionDenied | ErrorKind::InvalidInput => Ok(()),
            _ => Err(FolderFault::from(error)),
        },
    }
}

// The folder that a path lies in.
fn above(path: &str) -> &str {
    match path.rsplit_once('/') {
        Some(("", _)) => "/",
        Some((folder, _)) => folder,
        None => ".",
    }
}

/// Opens a folder to flush the names in it. A path that ends with a slash is one of a folder, so that nobody waits at a pipe.
pub(crate) fn open_folder<R: Files<File = File> + AllocGlobal>(
    rt: &R,
    folder: &str,
) -> io::Result<File> {
    let mut path = String::from_str(rt.alloc(), folder)?;
    path.push('/')?;
    fs::open(rt, path.as_str())
}

/// Flushes the names of the files and folders in a folder.
pub(crate) fn flush_names<R: Files<File = File> + AllocGlobal>(
    rt: &R,
    folder: &str,
) -> Result<(), FolderFault> {
    let names = open_folder(rt, folder)?;
    names.sync_all()?;
    Ok(())
}
