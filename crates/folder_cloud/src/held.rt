ghost use Rattle.std.specs.Prelude.{◌≡◌, ◌≢◌, IfOk, None, Ok, Some};
ghost use Rattle.folder_names.specs.declared.parts.Part.{Part};
ghost use Rattle.folder_names.specs.Parts.{part_text, IsPart};

use crate::fault::FolderFault;
use crate::files::{is_own, landed, open_or_make};
use folder_names::fault::NameFault;
use folder_names::parts::{Part, part_of};
use std::alloc::Global;
use std::fs::File;
use std::os::unix::fs::FileExt;
use std::rt::Files;
use std::{fs, io};

/// The bytes that are read of a mark, more than any part's path has.
const MOST_MARK: usize = 64;

/// That no other process is at work in a folder: the lock of its file `in-use`, which the system lets go with the process. While
/// names in a part of the folder change, the file holds the part's name, so that whoever comes next knows what may not be flushed.
#[derive(Drop)]
pub(crate) struct Held {
    file: File,
}

impl Held {
    /// Waits until no other process is at work. Failed where another file stands at the path by then, since then others may be.
    pub fn of<R: Files<File = File>>(rt: &R, path: &str) -> Result<Held, FolderFault> {
        let file = open_or_make(rt, path)?;
        file.lock()?;
        if !is_own(rt, path, &file)? {
            return Err(FolderFault::Failed);
        }
        Ok(Held { file })
    }

    /// The part of the folder whose names a process changed that did not come to flush them, if any. What else stands in the file is
    /// dropped: it is nobody's mark, as a power failure may leave it.
    pub fn marked(&self, alloc: Global) -> Result<Option<Part>, FolderFault> {
        let mut bytes = [0; MOST_MARK];
        let count = self.file.read_at(&mut bytes, 0)?;
        if count == 0 {
            return Ok(None);
        }
        let part = part_in(alloc, &bytes[..count])?;
        if part.is_none() {
            self.unmark()?;
        }
        Ok(part)
    }

    /// Notes that names in a part of the folder are about to change.
    pub fn mark(&self, part: &str) -> Result<(), FolderFault> {
        self.file.write_all_at(part.as_bytes(), 0)?;
        Ok(())
    }

    /// Flushes the names that changed, and notes that. The change has landed by now, so want of memory is a failure too.
    pub fn flush(&self, names: &File) -> Result<(), FolderFault> {
        landed(names.sync_all())?;
        self.unmark()
    }

    /// Notes that all names are flushed.
    pub fn unmark(&self) -> Result<(), FolderFault> {
        landed(self.file.set_len(0))
    }
}

// The part that a mark names, if any.
fn part_in(alloc: Global, mark: &[u8]) -> Result<Option<Part>, FolderFault>
    ensures spelled { (part : Part) → result ≡ Ok (Some part) → mark.now ≡ part_text part }
    ensures none { result ≡ Ok None → (part : Part) → IsPart part → mark.now ≢ part_text part }
{
    match part_of(alloc, mark) {
        Ok(part) => Ok(Some(part)),
        Err(NameFault::NotOurs) => Ok(None),
        Err(NameFault::Memory) => Err(FolderFault::Memory),
    }
}
