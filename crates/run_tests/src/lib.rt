//! Tests of what the program runs: replays, generated schedules, shells, settlings, sweeps, dumps and loads.
#![tactic(auto)]

#[cfg(test)]
mod additions;
#[cfg(test)]
mod attributes;
#[cfg(test)]
mod bench;
#[cfg(test)]
mod bytes;
#[cfg(test)]
mod commits;
#[cfg(test)]
mod dumps;
#[cfg(test)]
mod ends;
#[cfg(test)]
mod index;
#[cfg(test)]
mod killed_loads;
#[cfg(test)]
mod long_dumps;
#[cfg(test)]
mod lookups;
#[cfg(test)]
mod old_store;
#[cfg(test)]
mod planted;
#[cfg(test)]
mod policies;
#[cfg(test)]
mod replays;
#[cfg(test)]
mod shells;
#[cfg(test)]
mod short_loads;
#[cfg(test)]
mod sizes;
#[cfg(test)]
mod sweeps;
#[cfg(test)]
mod theorem;
#[cfg(test)]
mod trees;
