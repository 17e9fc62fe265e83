//! The names of the files in which a folder keeps the objects, queues and locks of a store.
#![tactic(auto)]

pub mod fault;
pub mod files;
pub mod objects;
pub mod parts;
pub mod queues;
