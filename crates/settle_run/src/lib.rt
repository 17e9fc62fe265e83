//! Settling: every client is recovered, and then every queue of every tree is emptied by checkpoints.
#![tactic(auto)]

mod known;
mod part;
mod settle;
mod settled;

pub use part::Part;
pub use settle::SettleRun;
pub use settled::Settled;
