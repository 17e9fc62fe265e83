//! The buffer of a transaction's changes.
#![tactic(auto)]

pub mod buffer;
mod noted_key;
