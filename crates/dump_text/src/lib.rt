//! The text of a dump, both ways.
#![tactic(auto)]

pub mod dump;
pub mod fault;
mod lines;
pub mod read;
mod reading;
mod room;
pub mod write;
