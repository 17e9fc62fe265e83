//! Tests of the machines that write, over a cloud in memory.
#![tactic(auto)]

#[cfg(test)]
mod checkpoints;
#[cfg(test)]
mod commit_run_tests;
#[cfg(test)]
mod commits;
#[cfg(test)]
mod machine;
#[cfg(test)]
mod objects;
#[cfg(test)]
mod orphan_sweep_tests;
#[cfg(test)]
mod page_ckpt_tests;
#[cfg(test)]
mod recover_run_tests;
#[cfg(test)]
mod recoveries;
#[cfg(test)]
mod settle_run_tests;
#[cfg(test)]
mod store;
#[cfg(test)]
mod story;
#[cfg(test)]
mod tree_ckpt_tests;
#[cfg(test)]
mod trees;
