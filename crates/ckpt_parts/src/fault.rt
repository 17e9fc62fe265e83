//! Why a part of a checkpoint has no value.

use db_base::trouble::Trouble;
use std::alloc::{AllocError, AllocFailed};

/// Why a part of a checkpoint has no value.
#[derive(Debug, Drop)]
pub enum Fault {
    /// The checkpoint stops with this trouble, which is not want of memory.
    Stops(Trouble),
    /// Memory ran out.
    Memory,
}

impl From<AllocError> for Fault {
    fn from(_error: AllocError) -> Self {
        Fault::Memory
    }
}

impl<T: Drop> From<AllocFailed<T>> for Fault {
    fn from(_error: AllocFailed<T>) -> Self {
        Fault::Memory
    }
}
