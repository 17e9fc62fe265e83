//! The lines of a schedule.
#![tactic(auto)]

pub mod event;
pub mod keyword;
pub mod read;
pub mod role_word;
pub mod write;
