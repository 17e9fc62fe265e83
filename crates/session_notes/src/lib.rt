//! What the sessions of a replay did that counts for the choice of their checkpoints.
#![tactic(auto)]

pub mod note_of_call;
pub mod notebook;
pub mod notebooks;
