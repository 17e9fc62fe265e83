ghost use Rattle.db_io.specs.Output.{WasWritten};

use crate::fault::IoFault;
use crate::sink::Sink;

/// Why a text was not written whole.
#[derive(Clone, Copy, Debug, PartialEq, Eq)]
pub enum OutputFault {
    /// A write failed.
    WriteFault,
    /// Memory ran out.
    Memory,
}

impl From<IoFault> for OutputFault {
    ghost use Rattle.std.specs.Prelude.{◌≡◌};
    ghost use Rattle.db_io.specs.Output.{output_fault};

    ghost from_gives = { λ fault gives. gives ≡ output_fault fault };

    fn from(fault: IoFault) -> OutputFault {
        match fault {
            IoFault::Failed => OutputFault::WriteFault,
            IoFault::Memory => OutputFault::Memory,
        }
    }
}

/// Writes a text in one write.
pub fn write_text<O: Sink>(sink: &mut O, text: &[u8]) -> Result<(), OutputFault>
    ensures { WasWritten (O.told sink.old) (O.told sink.new) text.now result }
{
    sink.write(text)?;
    Ok(())
}
