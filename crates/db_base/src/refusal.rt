ghost use Rattle.std.specs.Prelude.{◌≡◌, ℕ, IsTrue};
ghost use Rattle.db_base.specs.Refusal.{number_of_refusal};

use std::alloc::{AllocError, AllocFailed};

/// A rule by which a line or a call is refused. A refused call changes nothing.
#[derive(Clone, Copy, Debug, PartialEq, Eq)]
pub enum Refusal {
    /// A key of no byte.
    EmptyKey,
    /// A key of more than 64 bytes.
    LongKey,
    /// A payload of more than 1,024 bytes.
    LongPayload,
    /// The 201st distinct tree and key of a transaction.
    TooManyChanges,
    /// A number out of its range.
    BadNumber,
    /// The session is closed.
    NotOpen,
    /// The session is at work.
    AtWork,
    /// The session is broken.
    Broken,
    /// The session is open already.
    AlreadyOpen,
    /// The session is not at work.
    NotWorking,
    /// An attribute of no byte, or of more than 32.
    BadAttr,
    /// An attribute and a key that together are too long for an index: their entry has more than 64 bytes.
    LongEntry,
}

impl Refusal {
    /// The number under which a reply shows the rule: 1 to 12.
    pub fn number(self) -> u64
        ensures { result ≡ number_of_refusal self }
    {
        match self {
            Refusal::EmptyKey => 1,
            Refusal::LongKey => 2,
            Refusal::LongPayload => 3,
            Refusal::TooManyChanges => 4,
            Refusal::BadNumber => 5,
            Refusal::NotOpen => 6,
            Refusal::AtWork => 7,
            Refusal::Broken => 8,
            Refusal::AlreadyOpen => 9,
            Refusal::NotWorking => 10,
            Refusal::BadAttr => 11,
            Refusal::LongEntry => 12,
        }
    }
}

/// Why a call was refused: by a rule, or for want of memory.
#[derive(Clone, Copy, Debug, PartialEq, Eq)]
pub enum Refused {
    /// A rule was broken.
    Rule(Refusal),
    /// Memory ran out.
    Memory,
}

impl From<AllocError> for Refused {
    ghost use Rattle.std.specs.Prelude.{◌≡◌};
    ghost use Rattle.db_base.specs.declared.refusal.Refused.TheVariants.{Memory};

    ghost from_gives = { λ _ e. e ≡ Memory };

    fn from(_error: AllocError) -> Self {
        Refused::Memory
    }
}

impl<T: Drop> From<AllocFailed<T>> for Refused {
    ghost use Rattle.std.specs.Prelude.{◌≡◌};
    ghost use Rattle.db_base.specs.declared.refusal.Refused.TheVariants.{Memory};

    ghost from_gives = { λ _ e. e ≡ Memory };

    fn from(_error: AllocFailed<T>) -> Self {
        Refused::Memory
    }
}
