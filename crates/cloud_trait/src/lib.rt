//! The cloud as its clients see it: an object store, queues and a lock service.
#![tactic(auto)]

pub mod answer;
pub mod call;
pub mod cloud;
pub mod down;
pub mod fault;
pub mod grant;
pub mod lease;
pub mod listing;
pub mod message;
pub mod perform;
pub mod state;
pub mod turn;
pub mod who;
