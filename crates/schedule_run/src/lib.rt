//! What each command of the program does over a cloud: a replay, a generated schedule, a shell, a settling, a dump and a load.
#![tactic(auto)]

pub mod arguments;
pub mod dumping;
pub mod generated;
pub mod load;
pub mod loading;
mod play;
pub mod replay;
pub mod run;
pub mod settling;
pub mod shell;
pub mod status;
pub mod summary;
pub mod writing;
