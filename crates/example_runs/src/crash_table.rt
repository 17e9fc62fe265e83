//! Operations that are cut off at each of their calls, in each of four ways.

use crate::files::read;
use crate::output::output;
use std::alloc::{AllocError, Global};
use std::io;

/// What is cut off: the name of its files, and how many calls it makes. Its script ends with the line that begins it.
const OPERATIONS: [(&str, u64); 5] = [
    ("crash/page", 10),
    ("crash/cut", 12),
    ("crash/recovery", 11),
    ("crash/commit", 11),
    ("crash/root", 13),
];

/// How it is cut off, and whether the call in hand lands: the session dies before the call or behind it, or the call
/// answers that it failed.
const HITS: [(&str, bool); 4] = [
    ("crash 1\n", false),
    ("crash 1 done\n", true),
    ("step 1 fail\n", false),
    ("step 1 lost\n", true),
];

/// The session dies in any case, its leases run out, and the store is settled.
const TAIL: &str = "crash 1\nwait 600\nsettle\nreport 1\n";

/// The call of the commit that puts its open head, behind a send for each of its three records.
const OPENS: u64 = 4;

/// Runs the cases of each operation, and prints and answers whether all of them report what they must.
pub(crate) fn run(rt: &HostRuntime) -> io::Result<bool> {
    let nothing = read(rt, "crash/nothing", "report")?;
    let mut all = true;
    for (name, calls) in OPERATIONS {
        let script = read(rt, name, "script")?;
        let report = read(rt, name, "report")?;
        let mut agrees = true;
        for call in 1..=calls {
            for (hit, lands) in HITS {
                let is_lost = name == "crash/commit" && (call < OPENS || call == OPENS && !lands);
                let want = if is_lost {
                    nothing.as_slice()
                } else {
                    report.as_slice()
                };
                let schedule = case(rt.alloc(), script.as_slice(), call, hit)?;
                agrees = agrees && reports(rt.alloc(), schedule.as_slice(), want);
            }
        }
        let what = if agrees {
            "every case as written"
        } else {
            "NOT every case as written"
        };
        println!(rt; "{name}: {what}")?;
        all = all && agrees;
    }
    Ok(all)
}

/// The schedule of a case.
fn case(alloc: Global, script: &[u8], call: u64, hit: &str) -> Result<Vec<u8>, AllocError> {
    let mut schedule = Vec::new(alloc);
    schedule.extend_from_slice(script)?;
    for _ in 1..call {
        schedule.extend_from_slice(b"step 1 plain\n")?;
    }
    schedule.extend_from_slice(hit.as_bytes())?;
    schedule.extend_from_slice(TAIL.as_bytes())?;
    Ok(schedule)
}

/// Whether the schedule settles the store, and what it writes ends with this report.
fn reports(alloc: Global, schedule: &[u8], report: &[u8]) -> bool {
    match output(alloc, schedule) {
        Some(sink) => settles(sink.written()) && sink.written().ends_with(report),
        None => false,
    }
}

/// Whether there is a reply of a settling that came to its end.
fn settles(written: &[u8]) -> bool {
    match str::from_utf8(written) {
        Ok(text) => text.contains(" settled "),
        Err(_) => false,
    }
}
