//! A replay whose service calls are noted.

ghost use Rattle.std.specs.Prelude.{◌≡◌, ◌∷◌, [], map, codes, string_bytes, IfOk};
ghost use Rattle.call_trace.specs.Trace.{Traces, Writes, traced};
ghost use Rattle.schedule_run.specs.Outside.{outside};

use cloud_trait::cloud::Bench;
use db_io::output::{OutputFault, write_text};
use db_io::sink::Sink;
use db_io::source::Source;
use schedule_run::run::run;
use schedule_run::status::Status;
use std::alloc::{AllocError, Global};
use traced_cloud::form::Form;
use traced_cloud::note::Note;
use traced_cloud::noting::NotingCloud;
use traced_cloud::replies::Replies;
use traced_cloud::woven::woven;

/// The one word of a replay's command line.
fn replay_word(alloc: Global) -> Result<Vec<String>, AllocError>
    ensures { IfOk result (λ words. map string_bytes words.items ≡ codes "replay" ∷ []) }
{
    let mut words = Vec::new(alloc);
    words.push(String::from_str(alloc, "replay")?)?;
    Ok(words)
}

/// Writes the replies, each with the calls of its line behind it, in one write; the status of the run where that went well.
fn write_woven<O: Sink>(
    alloc: Global,
    form: Form,
    status: Status,
    replies: &Replies,
    notes: &[Note],
    sink: &mut O,
) -> Status
    ensures { Writes (traced form replies.now notes.now) status result (O.told sink.old) (O.told sink.new) }
{
    match woven(alloc, form, replies.writes(), notes) {
        Ok(text) => match write_text(sink, text.as_slice()) {
            Ok(()) => status,
            Err(OutputFault::WriteFault) => Status::WriteFault,
            Err(OutputFault::Memory) => Status::Memory,
        },
        Err(_) => Status::Memory,
    }
}

/// Replays the lines of the source over a cloud, and writes behind each reply the service calls that its line made.
pub(crate) fn trace_replay<I: Source, O: Sink, C: Bench>(
    alloc: Global,
    form: Form,
    source: &mut I,
    sink: &mut O,
    cloud: &mut NotingCloud<C>,
) -> Status
    ensures { Traces form cloud.new.trace result
        (outside (I.told source.old) (O.told sink.old) (C.seen cloud.old.cloud))
        (outside (I.told source.new) (O.told sink.new) (C.seen cloud.new.cloud)) }
{
    let Ok(words) = replay_word(alloc) else {
        return Status::Memory;
    };
    let mut replies = Replies::new(alloc);
    let status = run(alloc, words.as_slice(), source, &mut replies, cloud);
    if cloud.is_short() {
        return Status::Memory;
    }
    write_woven(alloc, form, status, &replies, cloud.notes(), sink)
}
