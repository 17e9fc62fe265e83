use thiserror::Error;

/// Why a read or a write did not go through.
#[derive(Clone, Copy, Debug, PartialEq, Eq, Error)]
pub enum IoFault {
    /// The source or the sink failed; its count of faults rose.
    #[error("reading or writing failed")]
    Failed,
    /// Memory ran out, or a count stands at its last value.
    #[error("out of memory")]
    Memory,
}
