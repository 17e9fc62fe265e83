//! Replays each shipped schedule over an empty cloud in memory, and holds what it writes against the replies beside it.
//! Then it cuts operations off at each of their calls, and holds the report of the settled store against the one beside it.
//! At last it loads a shipped dump, and dumps it again.
#![tactic(auto)]

mod crash_table;
mod files;
mod generated;
mod grown;
mod output;
mod round_trip;
mod schedules;

use std::io;
use std::process::ExitCode;

fn main(rt: HostRuntime) -> ExitCode {
    match all(&rt) {
        Ok(true) => ExitCode::from(0),
        Ok(false) | Err(_) => ExitCode::from(1),
    }
}

/// Whether all is as written.
fn all(rt: &HostRuntime) -> io::Result<bool> {
    let schedules = schedules::run(rt)?;
    let cases = crash_table::run(rt)?;
    let generated = generated::run(rt)?;
    let grown = grown::run(rt)?;
    let kept = round_trip::run(rt)?;
    Ok(schedules && cases && generated && grown && kept)
}
