use folder_names::fault::NameFault;
use std::alloc::{AllocError, AllocFailed};
use std::io;
use std::io::ErrorKind;

/// Why something was not done in a folder.
#[derive(Clone, Copy, Debug, PartialEq, Eq)]
pub(crate) enum FolderFault {
    /// A file could not be read or written, or what it holds is not what this crate writes.
    Failed,
    /// Memory ran out.
    Memory,
}

/// Why a call under a lease was not done in a folder.
#[derive(Clone, Copy, Debug, PartialEq, Eq)]
pub(crate) enum HeldStop {
    /// A lease was over: its end and the clock, in ticks.
    Late {
        /// The end of the lease.
        end: u64,
        /// The clock.
        now: u64,
    },
    /// Anything else.
    Fault(FolderFault),
}

impl From<FolderFault> for HeldStop {
    ghost use Rattle.std.specs.Prelude.{◌≡◌};
    ghost use Rattle.folder_cloud.specs.declared.fault.HeldStop.TheVariants.{Fault};

    ghost from_gives = { λ fault stop. stop ≡ Fault fault };

    fn from(fault: FolderFault) -> Self {
        HeldStop::Fault(fault)
    }
}

impl From<io::Error> for FolderFault {
    fn from(error: io::Error) -> Self {
        match error.kind() {
            ErrorKind::OutOfMemory => FolderFault::Memory,
            _ => FolderFault::Failed,
        }
    }
}

impl From<AllocError> for FolderFault {
    fn from(_error: AllocError) -> Self {
        FolderFault::Memory
    }
}

impl<T: Drop> From<AllocFailed<T>> for FolderFault {
    fn from(_error: AllocFailed<T>) -> Self {
        FolderFault::Memory
    }
}

impl From<NameFault> for FolderFault {
    fn from(fault: NameFault) -> Self {
        match fault {
            NameFault::NotOurs => FolderFault::Failed,
            NameFault::Memory => FolderFault::Memory,
        }
    }
}
