//! New leaves, made from old ones: the records of a run applied, a leaf cut in two.
#![tactic(auto)]

mod applying;
mod buffer;
mod changes;
mod count;
mod cut;
mod held;
mod laws;
mod merging;
mod most;
mod passing;
mod spell;
mod step;
mod table;

pub use applying::apply;
pub use buffer::LeafBuf;
pub use count::fresh;
pub use held::{parted_at, within};
pub use laws::values_follow_changes;
pub use merging::{VersionSpent, merge, need};
