//! Leaves, borrowed from the bytes that spell them.
#![tactic(auto)]

mod ascent;
mod done;
mod done_list;
mod done_rules;
mod entry;
mod head;
mod laws;
mod numbers;
mod record_rules;
mod records;
mod view;

pub use done::Done;
pub use done_list::DoneList;
pub use laws::parts_lie_in_the_bytes;
pub use numbers::Numbers;
pub use records::Records;
pub use view::{LeafView, NotLeaf};
