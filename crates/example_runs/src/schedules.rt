//! The shipped schedules, each with its replies.

use crate::files::read;
use crate::output::output;
use std::io;

/// Their names, the shortest walks first.
const NAMES: [&str; 24] = [
    "first-path",
    "two-transactions",
    "three-trees",
    "half-commit",
    "withheld-record",
    "odd-messages",
    "late-holder",
    "lease-ends",
    "two-writers",
    "counter",
    "attributes",
    "index",
    "old-read",
    "writer-works",
    "reader-works",
    "watchdog-works",
    "owners-work",
    "two-hundred-keys",
    "late-update",
    "half-cut",
    "sweep",
    "settling",
    "days-use",
    "three-levels",
];

/// Replays each schedule, and prints and answers whether it writes just its replies.
pub(crate) fn run(rt: &HostRuntime) -> io::Result<bool> {
    let mut all = true;
    for name in NAMES {
        let schedule = read(rt, name, "schedule")?;
        let replies = read(rt, name, "replies")?;
        let agrees = match output(rt.alloc(), schedule.as_slice()) {
            Some(sink) => sink.written() == replies.as_slice(),
            None => false,
        };
        let what = if agrees {
            "as written"
        } else {
            "NOT as written"
        };
        println!(rt; "{name}: {what}")?;
        all = all && agrees;
    }
    Ok(all)
}
