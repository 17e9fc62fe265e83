//! The vocabulary of texts: lines of words, numbers, bytes and names.
#![tactic(auto)]

pub mod bytes;
pub mod fault;
pub mod number;
pub mod parts;
