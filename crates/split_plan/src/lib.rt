//! Pages with too many items, cut: how many pieces, what is put for each, and which entries the level above gets.
#![tactic(auto)]

pub mod count;
pub mod entry_list;
pub mod inner;
pub mod leaf;
mod page;
pub mod plan;
pub mod put_list;
pub mod root;
mod sizes;
