//! Tests of runs, of new leaves, of pieces, of routing and of what is due.
#![tactic(auto)]

#[cfg(test)]
mod attribute_tests;
#[cfg(test)]
mod ckpt_policy_tests;
#[cfg(test)]
mod leaf_edit_tests;
#[cfg(test)]
mod route_plan_tests;
#[cfg(test)]
mod run_cursor_tests;
#[cfg(test)]
mod split_plan_tests;
