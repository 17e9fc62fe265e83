//! The cloud in memory, which tells its state and obeys the schedule's wishes.
#![tactic(auto)]

mod calls;
mod common;
mod copies;
mod kept;
mod locks;
pub mod memory;
pub mod mood;
mod objects;
mod queue;
mod queues;
mod service;
mod shared;
mod store;
