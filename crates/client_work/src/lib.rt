//! What a session of a client has in hand: one operation at a time, and its machine.
#![tactic(auto)]

pub mod answer;
pub mod calls;
mod closing;
mod committing;
mod folding;
pub mod hand;
pub mod left;
pub mod listing;
mod looking;
pub mod op;
pub mod opening;
mod paging;
pub mod phase;
mod reading;
mod renewing;
mod scanning;
pub mod settling;
pub mod shown;
pub mod sweeping;
pub mod work;
