//! A commit whole: the walks for the leaves of its changes, and then what it writes.
#![tactic(auto)]

mod draft;
pub mod ended;
pub mod hand;
pub mod plan;
mod run;

pub use run::CommitRun;
