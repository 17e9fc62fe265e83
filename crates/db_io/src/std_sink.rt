ghost use Rattle.std.specs.Prelude.{◌≡◌};
ghost use Rattle.db_io.specs.Writes.{untold};

use crate::fault::IoFault;
use crate::sink::Sink;
use std::io;
use std::io::Write;
use std::marker::Model;

/// A sink over std's writer, seen as the number of its faults. It tells nothing of its writes.
#[derive(Drop)]
pub struct StdSink<W: Write> {
    writer: W,
    faults: u64,
}

impl<W: Write> Model for StdSink<W> {
    ghost use Rattle.std.specs.Prelude.{ℕ};

    ghost Value = { ℕ };

    ghost view = { λ s. s.faults };
}

impl<W: Write> StdSink<W> {
    /// A sink over the writer.
    pub fn new(writer: W) -> StdSink<W>
        ensures { result ≡ 0 }
    {
        StdSink { writer, faults: 0 }
    }
}

/// Writes all the bytes and flushes; a writer that takes nothing of some bytes has failed.
fn write_whole<W: Write>(writer: &mut W, bytes: &[u8]) -> io::Result<()> {
    writer.write_all(bytes)?;
    writer.flush()
}

impl<W: Write> Sink for StdSink<W> {
    ghost told = { untold };

    fn write(&mut self, bytes: &[u8]) -> Result<(), IoFault> {
        if self.faults == u64::MAX {
            return Err(IoFault::Memory);
        }
        match write_whole(&mut self.writer, bytes) {
            Ok(()) => Ok(()),
            Err(_) => {
                self.faults += 1;
                Err(IoFault::Failed)
            }
        }
    }
}
