ghost use Rattle.std.specs.Prelude.{◌≡◌};
ghost use Rattle.log_codec.specs.declared.fault.RecFault.TheVariants.{Memory};

use std::alloc::AllocError;

/// Why a record was not read or written.
#[derive(Clone, Copy, Debug, PartialEq, Eq)]
pub enum RecFault {
    /// The bytes are in no record's spelling; the offset in bytes.
    NotRecord { offset: u64 },
    /// Memory ran out.
    Memory,
}

impl From<AllocError> for RecFault {
    ghost from_gives = { λ _ e. e ≡ Memory };

    fn from(_error: AllocError) -> Self {
        RecFault::Memory
    }
}
