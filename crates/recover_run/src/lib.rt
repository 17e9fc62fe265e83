//! Opening and recovery: takes a client's lease, sends on what its open commit left behind, and begins the client's next epoch.
#![tactic(auto)]

mod gathering;
pub mod home;
mod ids;
pub mod items;
mod kept;
pub mod recover;
mod sending;
pub mod stage;
pub mod wanted;
