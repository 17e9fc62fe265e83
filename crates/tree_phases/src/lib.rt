//! The phases of a tree checkpoint: down to a leaf, a leaf under its lease, up again; and what they share.
#![tactic(auto)]

pub mod chart;
pub mod descent;
pub mod folding;
pub mod fork;
pub mod items;
pub mod kept;
pub mod link;
pub mod node;
pub mod pace;
pub mod page_plan;
pub mod pages;
pub mod placing;
pub mod plan;
pub mod read;
pub mod reserve;
pub mod rising;
pub mod root;
pub mod spelled;
