//! Reads of one record.
#![tactic(auto)]

mod read;

pub use read::RecordRead;
