use crate::lease::Lease;

/// What a take answers.
#[derive(Debug, Drop)]
pub enum Grant {
    /// The lock was free, and here is the lease.
    Given(Lease),
    /// The lock is held until this moment, in ticks.
    Held(u64),
}
