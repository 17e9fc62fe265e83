//! The sweep of a tree: page objects that nothing reaches are removed.
#![tactic(auto)]

mod paths;
mod read;
mod spot;
mod stage;
mod strays;
mod sweep;
mod swept;

pub use paths::{Link, Paths};
pub use spot::Spot;
pub use stage::Stage;
pub use sweep::Sweep;
pub use swept::Swept;
