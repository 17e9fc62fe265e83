//! Which queues the changes of a commit go to and under which numbers, what that makes of the client's head,
//! what a leaf or a root shows to be applied, and what the client sees.
#![tactic(auto)]

pub mod heads;
pub mod index;
pub mod laws;
pub mod prune;
pub mod queue;
pub mod record;
pub mod route;
pub mod seen;
mod slots;
