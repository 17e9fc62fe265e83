//! Walks down a tree, beside a cache, to the leaf whose range holds a key.
#![tactic(auto)]

mod laws;
mod spot;
mod walk;

pub use laws::ready_laws;
pub use spot::Spot;
pub use walk::Walk;
