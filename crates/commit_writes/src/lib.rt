//! What a commit writes: its records to the ATOMIC queue, its open head, its records to their pending update queues,
//! its settled head; then it deletes its ATOMIC messages.
#![tactic(auto)]

mod pruning;
mod routing;
mod spelling;
pub mod stage;
pub mod writes;
