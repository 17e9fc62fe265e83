//! Scans of a range of keys.
#![tactic(auto)]

mod bounds;
mod items;
mod laws;
mod scan;
mod sight;

pub use items::Items;
pub use laws::{listing_laws, ready_laws};
pub use scan::RangeScan;
pub use sight::Sight;
