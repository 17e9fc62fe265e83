//! What a load looks at first, and the events that it runs.
#![tactic(auto)]

pub mod first_look;
pub mod insert;
pub mod remaining;
