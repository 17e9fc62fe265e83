//! The replies of a replay and the service calls, and how they are written.
#![tactic(auto)]

mod call;
pub mod name;
pub mod reply;
pub mod write;

pub use call::{call_text, made_word, target_word};
