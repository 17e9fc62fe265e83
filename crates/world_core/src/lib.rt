//! The world of a replay: it handles one line after another.
#![tactic(auto)]

mod about;
pub mod asked;
mod checkpoint;
mod noting;
mod put;
pub mod quota;
mod replying;
pub mod sessions;
mod settler;
mod stepping;
pub mod world;
