//! Which queues a session is to checkpoint, by what it sent, got and checkpointed before.
#![tactic(auto)]

mod counts;
mod ledger;
mod note;
mod place;
mod rank;
mod role;

pub use ledger::{Ledger, is_number};
pub use note::Note;
pub use role::Role;
