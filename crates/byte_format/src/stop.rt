//! Where reading stopped.

ghost use Rattle.std.specs.Prelude.{◌≡◌, ◌-◌, length};
ghost use Rattle.byte_format.specs.declared.stop.ReadFault.TheVariants.{Stopped, Memory};

use std::alloc::{AllocError, AllocFailed};

/// A field is cut short or breaks its rule.
#[derive(Clone, Copy, Debug, PartialEq, Eq)]
pub struct Stop {
    /// How many bytes are left from the first byte of that field on.
    pub left: usize,
}

impl Stop {
    /// At the field that begins where `bytes` do.
    pub fn at(bytes: &[u8]) -> Stop
        ensures { result.left ≡ length bytes.now }
    {
        Stop { left: bytes.len() }
    }

    /// The place of the field in the whole of the bytes that were read.
    pub fn offset(self, bytes: &[u8]) -> u64
        ensures { result ≡ length bytes.now - self.left }
    {
        bytes.len().saturating_sub(self.left) as u64
    }
}

/// Why bytes were not read into memory of their own.
#[derive(Clone, Copy, Debug, PartialEq, Eq)]
pub enum ReadFault {
    /// The bytes are in no spelling.
    Stopped(Stop),
    /// Want of memory.
    Memory,
}

impl From<Stop> for ReadFault {
    ghost from_gives = { λ s f. f ≡ Stopped s };

    fn from(stop: Stop) -> ReadFault {
        ReadFault::Stopped(stop)
    }
}

impl From<AllocError> for ReadFault {
    ghost from_gives = { λ _ f. f ≡ Memory };

    fn from(_e: AllocError) -> ReadFault {
        ReadFault::Memory
    }
}

impl<T: Drop> From<AllocFailed<T>> for ReadFault {
    ghost from_gives = { λ _ f. f ≡ Memory };

    fn from(_e: AllocFailed<T>) -> ReadFault {
        ReadFault::Memory
    }
}
