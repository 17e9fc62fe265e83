//! The words of the store: bytes, keys, names, changes, troubles.
#![tactic(auto)]

pub mod attr;
pub mod blob;
pub mod change;
pub mod cursor;
pub mod entry;
pub mod ids;
pub mod key;
pub mod names;
pub mod pair;
pub mod refusal;
pub mod sequence;
pub mod text;
pub mod trouble;
pub mod value;
pub mod wish;
