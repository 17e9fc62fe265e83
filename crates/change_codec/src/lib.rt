//! The one format of a change, which log records and heads share.
#![tactic(auto)]

mod ids;
mod laws;
mod reading;
mod writing;

pub use ids::{client_of, tree_of};
pub use laws::change_is_exact;
pub use reading::read_change;
pub use writing::add_change;
