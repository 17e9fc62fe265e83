ghost use Rattle.std.specs.Prelude.{◌<◌};
ghost use Rattle.db_io.specs.Input.{WasRead};

use crate::fault::IoFault;
use crate::source::Source;
use db_base::blob::Blob;
use std::alloc::Global;

/// The most bytes that lines have which are handled one by one: those of a schedule and of a shell.
pub const MAX_LINES: usize = 262_144;

/// The most bytes that the text of a dump has which is loaded.
pub const MAX_DUMP: usize = 16_777_216;

/// Why an input was not read whole.
#[derive(Clone, Copy, Debug, PartialEq, Eq)]
pub enum InputFault {
    /// A read failed.
    ReadFault,
    /// More bytes were read than the input may have.
    TooLong,
    /// Memory ran out.
    Memory,
}

impl From<IoFault> for InputFault {
    ghost use Rattle.std.specs.Prelude.{◌≡◌};
    ghost use Rattle.db_io.specs.Input.{input_fault};

    ghost from_gives = { λ fault gives. gives ≡ input_fault fault };

    fn from(fault: IoFault) -> InputFault {
        match fault {
            IoFault::Failed => InputFault::ReadFault,
            IoFault::Memory => InputFault::Memory,
        }
    }
}

/// Reads a source to its end, of at most `limit` bytes.
pub fn read_whole<I: Source>(
    alloc: Global,
    source: &mut I,
    limit: usize,
) -> Result<Blob, InputFault>
    requires { limit < 18446744073709551615 }
    ensures { WasRead limit (I.told source.old) (I.told source.new) result }
{
    let mut input = Blob::new(alloc);
    while input.len() <= limit {
        let room = limit + 1 - input.len();
        match source.read(&mut input, room) {
            Ok(0) => return Ok(input),
            Ok(_) => {}
            Err(fault) => return Err(InputFault::from(fault)),
        }
    }
    Err(InputFault::TooLong)
}
