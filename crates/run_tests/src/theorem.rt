//! The theorem of one replay, as a contract with no premise left.

ghost use Rattle.std.specs.Prelude.{◌≡◌, true, [], ◌∷◌, map, codes, string_bytes, IfOk, IfSome};
ghost use Rattle.run_tests.specs.Theorem.{IsReplayOf};

use crate::bench::are_writes;
use db_io::memory_sink::MemorySink;
use db_io::memory_source::MemorySource;
use memory_cloud::memory::MemoryCloud;
use schedule_run::run::run;
use schedule_run::status::Status;
use std::alloc::{AllocError, Global};

/// The one word of a replay's command line.
fn replay_word(alloc: Global) -> Result<Vec<String>, AllocError>
    ensures { IfOk result (λ words. map string_bytes words.items ≡ codes "replay" ∷ []) }
{
    let mut words = Vec::new(alloc);
    words.push(String::from_str(alloc, "replay")?)?;
    Ok(words)
}

/// Replays a text into an empty sink, over a new cloud in memory: whether it is done.
fn replay_into(alloc: Global, text: &[u8], sink: &mut MemorySink) -> bool
    requires { sink.old.content ≡ [] }
    ensures { result ≡ true → IsReplayOf text.now sink.new.content }
{
    let Ok(words) = replay_word(alloc) else {
        return false;
    };
    let Ok(mut source) = MemorySource::new(alloc, text, &[]) else {
        return false;
    };
    let mut cloud = MemoryCloud::new(alloc);
    match run(alloc, words.as_slice(), &mut source, sink, &mut cloud) {
        Status::Done => true,
        _ => false,
    }
}

/// What a replay of a text over a new cloud in memory has written; none where it did not end well.
fn replay_new(alloc: Global, text: &[u8]) -> Option<MemorySink>
    ensures { IfSome result (λ sink. IsReplayOf text.now sink.content) }
{
    let Ok(mut sink) = MemorySink::new(alloc, &[]) else {
        return None;
    };
    if replay_into(alloc, text, &mut sink) {
        Some(sink)
    } else {
        None
    }
}

/// Whether a replay of a text is done, and has written just these, each in one write.
fn replays(alloc: Global, text: &[u8], writes: &[&str]) -> bool {
    match replay_new(alloc, text) {
        Some(sink) => are_writes(sink.writes(), writes),
        None => false,
    }
}

/// A commit of one insert, a checkpoint, and a report.
const TEXT: &[u8] =
    b"open 1 1\nrun 1\ninsert 1 1 6b 76\ncommit 1\nrun 1\ntree 1 1\nrun 1\nreport 1\n";

/// A write for each line.
const WRITES: &[&str] = &[
    "1 begun\n",
    "2 opened 1\n",
    "3 noted\n",
    "4 begun\n",
    "5 committed 1\n",
    "6 begun\n",
    "7 done 1 1 0\n",
    "8 report 1\ncommitted 1\n1 1 1 insert 6b 76\norder 1\n1 1 1 insert 6b 76\ncontents 1\n6b 76\nleft 0 0\n",
];

#[test]
fn replays_by_the_theorem(rt: HostRuntime) {
    assert!(rt; replays(rt.alloc(), TEXT, WRITES));
}
