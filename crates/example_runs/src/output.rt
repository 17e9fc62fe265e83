//! What a schedule writes.

use db_io::memory_sink::MemorySink;
use memory_cloud::memory::MemoryCloud;
use schedule_run::replay::replay_lines;
use std::alloc::Global;

/// What a replay of the schedule over an empty cloud writes; None where it stops before its last line.
pub(crate) fn output(alloc: Global, schedule: &[u8]) -> Option<MemorySink> {
    let mut cloud = MemoryCloud::new(alloc);
    match MemorySink::new(alloc, &[]) {
        Ok(mut sink) => match replay_lines(alloc, schedule, &mut sink, &mut cloud) {
            Ok(()) => Some(sink),
            Err(_) => None,
        },
        Err(_) => None,
    }
}
