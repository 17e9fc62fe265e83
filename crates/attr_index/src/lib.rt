//! Look-ups of records by attribute, through an index.
#![tactic(auto)]

mod keys;
mod laws;
mod lookup;
mod own;
mod prefix;
mod stage;

pub use laws::prefix_laws;
pub use lookup::Lookup;
pub use own::Own;
pub use stage::Stage;
