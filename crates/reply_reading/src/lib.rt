//! How the replies of a replay are read.
#![tactic(auto)]

pub mod read;
mod read_name;
mod read_report;
mod read_trouble;
pub mod reply_kind;
pub mod trouble_kind;
