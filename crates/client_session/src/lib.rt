//! A session of a client: it notes changes and works on one operation at a time.
#![tactic(auto)]

mod calls;
pub mod session;
