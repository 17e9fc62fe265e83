use crate::blob::Blob;

/// A key and a payload.
#[derive(Debug)]
pub struct Pair {
    /// The key.
    pub key: Blob,
    /// The payload.
    pub payload: Blob,
}

impl Drop for Pair {
    fn drop(self) {
        let Pair { key: _, payload: _ } = self;
    }
}

/// Why a page could not be edited.
#[derive(Clone, Copy, Debug, PartialEq, Eq)]
pub enum EditFault {
    /// The version stands at the greatest u64, or page numbers would pass it.
    Exhausted,
    /// Memory ran out.
    Memory,
}

impl From<std::alloc::AllocError> for EditFault {
    ghost use Rattle.std.specs.Prelude.{◌≡◌};
    ghost use Rattle.db_base.specs.declared.pair.EditFault.TheVariants.{Memory};

    ghost from_gives = { λ _ e. e ≡ Memory };

    fn from(_error: std::alloc::AllocError) -> Self {
        EditFault::Memory
    }
}
