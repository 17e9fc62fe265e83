//! Log records: what a commit sends to the ATOMIC queue of its client and to the pending update queues.
#![tactic(auto)]

pub mod atomic;
pub mod fault;
pub mod laws;
pub mod pu;
pub mod record;
