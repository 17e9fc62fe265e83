//! The generator of schedules.
#![tactic(auto)]

pub mod draws;
pub mod make;
