//! A cloud that notes each service call that is made of it, and the notes as lines.
#![tactic(auto)]

pub mod form;
pub mod json;
pub mod line;
pub mod note;
pub mod noting;
pub mod replies;
pub mod stamp;
pub mod trace;
pub mod woven;
