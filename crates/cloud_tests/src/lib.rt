//! Tests of the cloud's calls, of the clouds in memory and in a folder, and of what is read off a cloud by looks.
#![tactic(auto)]

#[cfg(test)]
mod cloud_trait_tests;
#[cfg(test)]
mod dark_cloud;
#[cfg(test)]
mod dump_take_tests;
#[cfg(test)]
mod folder_cloud_tests;
#[cfg(test)]
mod folder_names_tests;
#[cfg(test)]
mod folder_opening_tests;
#[cfg(test)]
mod folder_script;
#[cfg(test)]
mod memory_cloud_tests;
#[cfg(test)]
mod world_audit_tests;
