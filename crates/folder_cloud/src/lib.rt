//! A folder that stands for a cloud: one file for each object, message and lock. It is the edge of what is proved:
//! that the files are read and written as they should be is not a theorem.
#![tactic(auto)]

mod clock;
mod fault;
mod files;
mod folder;
mod folder_cloud;
mod held;
mod numbers;
mod rules;
mod ticks;
mod timed_folder;

pub use folder_cloud::FolderCloud;
pub use ticks::Ticks;
