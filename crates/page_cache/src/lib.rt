//! The objects that a session keeps, and the greatest version of each leaf that it was served.
#![tactic(auto)]

mod cache;
mod laws;
mod objects;
mod reading;
mod versions;

pub use cache::PageCache;
pub use laws::{accept_laws, drop_laws, refusal_law, view_laws};
pub use objects::MOST_OBJECTS;
