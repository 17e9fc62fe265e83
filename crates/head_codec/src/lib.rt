//! The head of a client: its epoch, its commit record, its counters and its pending entries.
#![tactic(auto)]

pub mod codec;
mod counters;
pub mod entry;
pub mod head;
pub mod laws;
pub mod lists;
mod pending;
pub mod pending_list;
pub mod slot;
