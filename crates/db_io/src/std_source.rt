ghost use Rattle.std.specs.Prelude.{◌≡◌};
ghost use Rattle.db_io.specs.Content.{faults_alone};

use crate::fault::IoFault;
use crate::source::Source;
use db_base::blob::Blob;
use std::io::Read;
use std::marker::Model;

/// The most bytes that one read asks for.
const PIECE: usize = 4096;

/// A source over std's reader, seen as the number of its faults. It tells nothing of content.
#[derive(Drop)]
pub struct StdSource<R: Read> {
    reader: R,
    faults: u64,
}

impl<R: Read> Model for StdSource<R> {
    ghost use Rattle.std.specs.Prelude.{ℕ};

    ghost Value = { ℕ };

    ghost view = { λ s. s.faults };
}

impl<R: Read> StdSource<R> {
    /// A source over the reader.
    pub fn new(reader: R) -> StdSource<R>
        ensures { result ≡ 0 }
    {
        StdSource { reader, faults: 0 }
    }
}

impl<R: Read> Source for StdSource<R> {
    ghost told = { faults_alone };

    fn read(&mut self, into: &mut Blob, max: usize) -> Result<usize, IoFault> {
        if self.faults == u64::MAX {
            return Err(IoFault::Memory);
        }
        let mut piece = [0; PIECE];
        let wanted = max.min(PIECE);
        match self.reader.read(&mut piece[..wanted]) {
            Ok(count) => match into.add(&piece[..count]) {
                Ok(()) => Ok(count),
                Err(_) => Err(IoFault::Memory),
            },
            Err(_) => {
                self.faults += 1;
                Err(IoFault::Failed)
            }
        }
    }
}
