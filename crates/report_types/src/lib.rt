//! What a report of a tree shows: plain data.
#![tactic(auto)]

pub mod entry;
pub mod entry_log;
pub mod pair_list;
pub mod report;
pub mod stored;
pub mod stored_list;
