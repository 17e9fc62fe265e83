//! A shipped dump of 450 records in two trees, which is loaded into an empty cloud and dumped again.

use crate::files::read;
use db_io::memory_sink::MemorySink;
use memory_cloud::memory::MemoryCloud;
use schedule_run::dumping::dump;
use schedule_run::loading::fill;
use std::alloc::Global;
use std::io;

/// Loads and dumps it, and prints and answers whether the same text comes out.
pub(crate) fn run(rt: &HostRuntime) -> io::Result<bool> {
    let text = read(rt, "two-trees", "dump")?;
    let mut cloud = MemoryCloud::new(rt.alloc());
    let agrees = is_loaded(rt.alloc(), text.as_slice(), &mut cloud)
        && is_dumped(rt.alloc(), text.as_slice(), &mut cloud);
    let what = if agrees {
        "as written"
    } else {
        "NOT as written"
    };
    println!(rt; "two-trees.dump: {what}")?;
    Ok(agrees)
}

/// Whether all of its records are loaded.
fn is_loaded(alloc: Global, text: &[u8], cloud: &mut MemoryCloud) -> bool {
    match MemorySink::new(alloc, &[]) {
        Ok(mut sink) => {
            fill(alloc, text, &mut sink, cloud).is_ok()
                && sink.written().starts_with(b"loaded 450\nsettled ")
        }
        Err(_) => false,
    }
}

/// Whether a dump of the cloud is this text.
fn is_dumped(alloc: Global, text: &[u8], cloud: &mut MemoryCloud) -> bool {
    match MemorySink::new(alloc, &[]) {
        Ok(mut sink) => dump(alloc, &mut sink, cloud).is_ok() && sink.written() == text,
        Err(_) => false,
    }
}
