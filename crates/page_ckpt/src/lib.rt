//! The checkpoint of a page: the run of its pending update queue is applied to it and, where splits moved the keys, to the
//! pages on its right, and then the messages of the run are deleted.
#![tactic(auto)]

mod checkpoint;
mod home;
mod leaf;
mod link;
mod stage;

pub use checkpoint::PageCkpt;
pub use stage::Stage;
