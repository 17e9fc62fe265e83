//! Where bytes come from and go to: a source and a sink, in memory and over std's reader and writer.
#![tactic(auto)]

pub mod fault;
pub mod input;
pub mod laws;
pub mod lines;
pub mod memory_sink;
pub mod memory_source;
pub mod output;
pub mod sink;
pub mod source;
pub mod std_sink;
pub mod std_source;
