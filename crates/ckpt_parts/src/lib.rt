//! What the checkpoints of a page and of a tree share: what a receive brings, the held read of a leaf, deletions, leases.
#![tactic(auto)]

mod deletions;
mod fault;
mod intake;
mod lacked;
mod leases;
mod leaves;

pub use deletions::Deletions;
pub use fault::Fault;
pub use intake::{Intake, MAX_MESSAGES, ids_of, take_in};
pub use lacked::lacked_of;
pub use leases::{Leases, PAGE_TICKS};
pub use leaves::{held_leaf, linked_leaf, page_damage};
