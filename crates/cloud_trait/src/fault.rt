ghost use Rattle.std.specs.Prelude.{◌≡◌};

use crate::answer::Answer;
use std::alloc::{AllocError, AllocFailed};
use thiserror::Error;

/// Why a call did not answer.
#[derive(Clone, Copy, Debug, PartialEq, Eq, Error)]
pub enum CloudFault {
    /// The call failed. Its effect may have landed.
    #[error("the call failed")]
    Failed,
    /// Memory ran out. Nothing landed.
    #[error("memory ran out")]
    Memory,
}

impl CloudFault {
    ghost use Rattle.cloud_trait.specs.Answers.{fault_answer};

    /// The answer that the fault is.
    pub fn answer(self) -> Answer
        ensures { result ≡ fault_answer self }
    {
        match self {
            CloudFault::Failed => Answer::Failed,
            CloudFault::Memory => Answer::Memory,
        }
    }
}

/// Why a call under a lease did not answer.
#[derive(Clone, Copy, Debug, PartialEq, Eq, Error)]
pub enum HeldFault {
    /// The call failed. Its effect may have landed.
    #[error("the call failed")]
    Failed,
    /// A named lease was over: its end and the clock, in ticks. Nothing landed.
    #[error("the lease ended at {end} and it is {now}")]
    Late {
        /// The end of the lease.
        end: u64,
        /// The clock.
        now: u64,
    },
    /// Memory ran out. Nothing landed.
    #[error("memory ran out")]
    Memory,
}

impl HeldFault {
    ghost use Rattle.cloud_trait.specs.Answers.{held_fault_answer};

    /// The answer that the fault is.
    pub fn answer(self) -> Answer
        ensures { result ≡ held_fault_answer self }
    {
        match self {
            HeldFault::Failed => Answer::Failed,
            HeldFault::Late { end, now } => Answer::Late { end, now },
            HeldFault::Memory => Answer::Memory,
        }
    }
}

impl From<AllocError> for CloudFault {
    ghost use Rattle.std.specs.Prelude.{◌≡◌};
    ghost use Rattle.cloud_trait.specs.declared.fault.CloudFault.TheVariants.{Memory};

    ghost from_gives = { λ _ e. e ≡ Memory };

    fn from(_error: AllocError) -> Self {
        CloudFault::Memory
    }
}

impl<T: Drop> From<AllocFailed<T>> for CloudFault {
    ghost use Rattle.std.specs.Prelude.{◌≡◌};
    ghost use Rattle.cloud_trait.specs.declared.fault.CloudFault.TheVariants.{Memory};

    ghost from_gives = { λ _ e. e ≡ Memory };

    fn from(_error: AllocFailed<T>) -> Self {
        CloudFault::Memory
    }
}

impl From<AllocError> for HeldFault {
    ghost use Rattle.std.specs.Prelude.{◌≡◌};
    ghost use Rattle.cloud_trait.specs.declared.fault.HeldFault.TheVariants.{Memory};

    ghost from_gives = { λ _ e. e ≡ Memory };

    fn from(_error: AllocError) -> Self {
        HeldFault::Memory
    }
}

impl<T: Drop> From<AllocFailed<T>> for HeldFault {
    ghost use Rattle.std.specs.Prelude.{◌≡◌};
    ghost use Rattle.cloud_trait.specs.declared.fault.HeldFault.TheVariants.{Memory};

    ghost from_gives = { λ _ e. e ≡ Memory };

    fn from(_error: AllocFailed<T>) -> Self {
        HeldFault::Memory
    }
}
