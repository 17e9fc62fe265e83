//! The words of the command line.
#![tactic(auto)]

mod command;
pub mod place;
pub mod read;
pub mod shape;
