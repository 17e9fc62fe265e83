//! A quiet database, taken whole by looks alone.
#![tactic(auto)]

mod contents;
mod heads;
mod naming;
pub mod stop;
pub mod take;
mod trees;
