//! What was seen to commit and to be applied, and the report of a tree.
#![tactic(auto)]

pub mod audit;
pub mod backlogs;
mod entries;
pub mod heads;
pub mod leaves;
pub mod look;
pub mod mark;
