//! A generated schedule of a thousand rounds, with its summary.

ghost use Rattle.std.specs.Prelude.{◌≤◌};

use crate::files::read;
use db_io::memory_sink::MemorySink;
use memory_cloud::memory::MemoryCloud;
use schedule_run::generated::generate;
use std::alloc::Global;
use std::io;

/// Runs it, and prints and answers whether it writes just its summary.
pub(crate) fn run(rt: &HostRuntime) -> io::Result<bool> {
    let summary = read(rt, "gen-7-1000", "summary")?;
    let agrees = match output(rt.alloc(), 7, 1_000) {
        Some(sink) => sink.written() == summary.as_slice(),
        None => false,
    };
    let what = if agrees {
        "as written"
    } else {
        "NOT as written"
    };
    println!(rt; "gen-7-1000: {what}")?;
    Ok(agrees)
}

/// What the schedule of this number and so many rounds writes over an empty cloud; None where it stops.
fn output(alloc: Global, number: u64, count: u64) -> Option<MemorySink>
    requires { count ≤ 10000 }
{
    let mut cloud = MemoryCloud::new(alloc);
    match MemorySink::new(alloc, &[]) {
        Ok(mut sink) => match generate(alloc, number, count, &mut sink, &mut cloud) {
            Ok(()) => Some(sink),
            Err(_) => None,
        },
        Err(_) => None,
    }
}
