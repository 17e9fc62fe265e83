//! Whether a command ends with a status and writes what it must.

use cloud_trait::cloud::Bench;
use db_base::blob::Blob;
use db_io::memory_sink::MemorySink;
use db_io::memory_source::MemorySource;
use memory_cloud::memory::MemoryCloud;
use schedule_run::run::run;
use schedule_run::status::Status;
use std::alloc::Global;

// Where memory runs out, a command ends with `Status::Memory`, and nothing is as it must be.

/// Adds a word.
fn add_word(alloc: Global, words: &mut Vec<String>, word: &str) -> bool {
    match String::from_str(alloc, word) {
        Ok(word) => words.push(word).is_ok(),
        Err(_) => false,
    }
}

/// The words of a command line.
fn words_of(alloc: Global, words: &[&str]) -> Option<Vec<String>> {
    let mut list = Vec::new(alloc);
    for word in words {
        if !add_word(alloc, &mut list, word) {
            return None;
        }
    }
    Some(list)
}

/// How a command ends whose reads of these numbers fail.
fn ended<C: Bench>(
    alloc: Global,
    words: &[String],
    input: &[u8],
    reads: &[u64],
    sink: &mut MemorySink,
    cloud: &mut C,
) -> Status {
    match MemorySource::new(alloc, input, reads) {
        Ok(mut source) => run(alloc, words, &mut source, sink, cloud),
        Err(_) => Status::Memory,
    }
}

/// The same of words that are borrowed.
fn ended_by<C: Bench>(
    alloc: Global,
    words: &[&str],
    input: &[u8],
    reads: &[u64],
    sink: &mut MemorySink,
    cloud: &mut C,
) -> Status {
    match words_of(alloc, words) {
        Some(words) => ended(alloc, words.as_slice(), input, reads, sink, cloud),
        None => Status::Memory,
    }
}

/// Whether a command over this cloud ends with this status, and has written just this.
pub(crate) fn runs_over<C: Bench>(
    alloc: Global,
    words: &[&str],
    input: &[u8],
    status: Status,
    output: &[u8],
    cloud: &mut C,
) -> bool {
    match MemorySink::new(alloc, &[]) {
        Ok(mut sink) => {
            ended_by(alloc, words, input, &[], &mut sink, cloud) == status
                && sink.written() == output
        }
        Err(_) => false,
    }
}

/// Whether a command over this cloud ends with this status, and what it has written begins so.
pub(crate) fn begins_over<C: Bench>(
    alloc: Global,
    words: &[&str],
    input: &[u8],
    status: Status,
    beginning: &[u8],
    cloud: &mut C,
) -> bool {
    match MemorySink::new(alloc, &[]) {
        Ok(mut sink) => {
            ended_by(alloc, words, input, &[], &mut sink, cloud) == status
                && sink.written().starts_with(beginning)
        }
        Err(_) => false,
    }
}

/// Whether these are the writes, in their order.
pub(crate) fn are_writes(writes: &[Blob], wanted: &[&str]) -> bool {
    let mut rest = writes;
    for text in wanted {
        let Some((write, behind)) = rest.split_first() else {
            return false;
        };
        if write.as_slice() != text.as_bytes() {
            return false;
        }
        rest = behind;
    }
    rest.is_empty()
}

/// Whether a command over an empty cloud in memory ends with this status, and has made these writes and no other one.
fn writes_each(
    alloc: Global,
    words: &[&str],
    input: &[u8],
    status: Status,
    texts: &[&str],
) -> bool {
    let mut cloud = MemoryCloud::new(alloc);
    match MemorySink::new(alloc, &[]) {
        Ok(mut sink) => {
            ended_by(alloc, words, input, &[], &mut sink, &mut cloud) == status
                && are_writes(sink.writes(), texts)
        }
        Err(_) => false,
    }
}

/// Whether each command, over an empty cloud each, ends and writes as its row says.
pub(crate) fn all_write_each(alloc: Global, rows: &[(&[&str], &[u8], Status, &[&str])]) -> bool {
    for (words, input, status, texts) in rows {
        if !writes_each(alloc, words, input, *status, texts) {
            return false;
        }
    }
    true
}

/// Whether each command over this cloud, one after the other, ends and writes as its row says.
pub(crate) fn all_run_over<C: Bench>(
    alloc: Global,
    rows: &[(&[&str], &[u8], Status, &[u8])],
    cloud: &mut C,
) -> bool {
    for (words, input, status, output) in rows {
        if !runs_over(alloc, words, input, *status, output, cloud) {
            return false;
        }
    }
    true
}

/// The same over an empty cloud in memory.
pub(crate) fn all_run(alloc: Global, rows: &[(&[&str], &[u8], Status, &[u8])]) -> bool {
    let mut cloud = MemoryCloud::new(alloc);
    all_run_over(alloc, rows, &mut cloud)
}

/// Whether a replay over this cloud ends with this status, and has written just this.
pub(crate) fn replay_over<C: Bench>(
    alloc: Global,
    input: &[u8],
    status: Status,
    output: &[u8],
    cloud: &mut C,
) -> bool {
    runs_over(alloc, &["replay"], input, status, output, cloud)
}

/// How a replay over an empty cloud in memory ends whose reads of these numbers fail.
fn replayed(alloc: Global, input: &[u8], reads: &[u64], sink: &mut MemorySink) -> Status {
    let mut cloud = MemoryCloud::new(alloc);
    ended_by(alloc, &["replay"], input, reads, sink, &mut cloud)
}

/// Whether a command over an empty cloud in memory, whose reads and writes of these numbers fail, ends with this status, and has written
/// just this.
pub(crate) fn runs_failing(
    alloc: Global,
    words: &[&str],
    input: &[u8],
    reads: &[u64],
    writes: &[u64],
    status: Status,
    output: &[u8],
) -> bool {
    let mut cloud = MemoryCloud::new(alloc);
    match MemorySink::new(alloc, writes) {
        Ok(mut sink) => {
            ended_by(alloc, words, input, reads, &mut sink, &mut cloud) == status
                && sink.written() == output
        }
        Err(_) => false,
    }
}

/// Whether a replay over an empty cloud in memory, whose reads and writes of these numbers fail, ends with this status, and has written
/// just this.
pub(crate) fn replays_failing(
    alloc: Global,
    input: &[u8],
    reads: &[u64],
    writes: &[u64],
    status: Status,
    output: &[u8],
) -> bool {
    match MemorySink::new(alloc, writes) {
        Ok(mut sink) => {
            replayed(alloc, input, reads, &mut sink) == status && sink.written() == output
        }
        Err(_) => false,
    }
}

/// Whether a replay over an empty cloud in memory ends with this status, and has written just this.
pub(crate) fn writes(alloc: Global, input: &[u8], status: Status, output: &[u8]) -> bool {
    replays_failing(alloc, input, &[], &[], status, output)
}

/// Whether a replay of each row's input does so.
pub(crate) fn all_write(alloc: Global, rows: &[(&[u8], Status, &[u8])]) -> bool {
    for (input, status, output) in rows {
        if !writes(alloc, input, *status, output) {
            return false;
        }
    }
    true
}

/// Whether a replay over an empty cloud in memory ends with this status, and with this output at the end of what it has written.
pub(crate) fn ends(alloc: Global, input: &[u8], status: Status, end: &[u8]) -> bool {
    match MemorySink::new(alloc, &[]) {
        Ok(mut sink) => {
            replayed(alloc, input, &[], &mut sink) == status && sink.written().ends_with(end)
        }
        Err(_) => false,
    }
}
