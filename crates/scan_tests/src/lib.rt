//! Tests of a session's cache and of the machines that read trees, by walks, reads, scans and look-ups.
#![tactic(auto)]

#[cfg(test)]
mod index_objects;
#[cfg(test)]
mod lookup_tests;
#[cfg(test)]
mod lookups;
#[cfg(test)]
mod machine;
#[cfg(test)]
mod objects;
#[cfg(test)]
mod page_cache_tests;
#[cfg(test)]
mod range_scan_tests;
#[cfg(test)]
mod record_read_tests;
#[cfg(test)]
mod script;
#[cfg(test)]
mod session;
#[cfg(test)]
mod store;
#[cfg(test)]
mod story;
#[cfg(test)]
mod tree_walk_tests;
