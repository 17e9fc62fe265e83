//! A sink that keeps each write by itself.

ghost use Rattle.std.specs.Prelude.{◌≡◌, [], ◌∷◌, ◌++◌, OnOk, OnErr};
ghost use Rattle.traced_cloud.specs.Replies.{told_of};

use db_base::blob::Blob;
use db_io::fault::IoFault;
use db_io::sink::Sink;
use std::alloc::{AllocError, Global};
use std::marker::Model;

/// What was written, a write for itself each: a run writes a reply in one.
pub struct Replies {
    alloc: Global,
    writes: Vec<Blob>,
}

impl Drop for Replies {
    fn drop(self) {
        let Replies {
            alloc: _,
            writes: _,
        } = self;
    }
}

impl Model for Replies {
    ghost use Rattle.std.specs.Prelude.{List, ℕ};

    ghost Value = { List (List ℕ) };

    ghost view = { λ r. r.writes.items };
}

impl Replies {
    /// No write yet. Takes no memory.
    pub fn new(alloc: Global) -> Replies
        ensures { result ≡ [] }
    {
        Replies {
            alloc,
            writes: Vec::new(alloc),
        }
    }

    /// The writes, in their order.
    pub fn writes(&self) -> &[Blob]
        ensures { result.now ≡ self.now }
    {
        self.writes.as_slice()
    }

    // Keeps a write. Where memory runs out nothing changes.
    fn keep(&mut self, bytes: &[u8]) -> Result<(), AllocError>
        ensures ok { OnOk result (self.new ≡ self.old ++ bytes.now ∷ []) }
        ensures err { OnErr result (self.new ≡ self.old) }
    {
        let bytes = Blob::copy_of(self.alloc, bytes)?;
        match self.writes.push(bytes) {
            Ok(()) => Ok(()),
            Err(_) => Err(AllocError),
        }
    }
}

impl Sink for Replies {
    ghost told = { told_of };

    fn write(&mut self, bytes: &[u8]) -> Result<(), IoFault> {
        match self.keep(bytes) {
            Ok(()) => Ok(()),
            Err(_) => Err(IoFault::Memory),
        }
    }
}
