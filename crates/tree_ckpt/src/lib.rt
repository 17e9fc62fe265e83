//! The checkpoint of a tree: the run of its pending update queue is applied to its leaves in the order of keys, leaves that grew
//! too long are cut, what was found and made below goes up, and then the messages of the run are deleted.
#![tactic(auto)]

pub mod absorbed;
pub mod called;
mod checkpoint;
pub mod ending;
pub mod going;
pub mod moved;
pub mod opening;
mod release;
mod short;
pub mod work;

pub use checkpoint::TreeCkpt;
