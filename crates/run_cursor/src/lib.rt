//! Which records of a pending update queue are applied next, and which messages that covers.
#![tactic(auto)]

mod chosen;
pub mod covered;
mod order;
pub mod run;
mod top;
