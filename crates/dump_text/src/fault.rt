use std::alloc::AllocError;

/// Why a dump was not read or written.
#[derive(Clone, Copy, Debug, PartialEq, Eq)]
pub enum DumpFault {
    /// The first line with which the text is no beginning of a dump, from 1, or the number after its last line where lines are missing.
    BadLine(u64),
    /// Memory ran out.
    Memory,
}

impl From<AllocError> for DumpFault {
    ghost use Rattle.std.specs.Prelude.{◌≡◌};
    ghost use Rattle.dump_text.specs.declared.fault.DumpFault.TheVariants.{Memory};

    ghost from_gives = { λ _ e. e ≡ Memory };

    fn from(_error: AllocError) -> Self {
        DumpFault::Memory
    }
}
