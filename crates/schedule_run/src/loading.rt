ghost use Rattle.std.specs.Prelude.{◌≡◌, ◌<◌, ◌⊎◌, Ok, Err};
ghost use Rattle.dump_text.specs.Dump.{IsDumpable};
ghost use Rattle.db_io.specs.Output.{WasWritten};
ghost use Rattle.schedule_run.specs.Outside.{effects};
ghost use Rattle.schedule_run.specs.Written.{bad_line, plain_line};
ghost use Rattle.schedule_run.specs.Loading.{FillEnded, FillWent, SpellsNoDump, TellsLoad, end_of, load_end, load_text};

use crate::load::{LoadStop, Loaded, MOST_CALLS, load};
use crate::writing::{let_go, refuse, write_name, write_plain};
use cloud_trait::cloud::Bench;
use db_io::output::{OutputFault, write_text};
use db_io::sink::Sink;
use dump_text::dump::Dump;
use dump_text::fault::DumpFault;
use reply_text::reply::Reply;
use std::alloc::Global;

/// Why a load did not end well.
#[derive(Clone, Copy, Debug, PartialEq, Eq)]
pub enum LoadingFault {
    /// The text is no dump. The number of its first bad line is written. No call was made.
    BadLine,
    /// An object is there. Its name is written. Nothing was run.
    NotEmpty,
    /// A look failed before anything was run. That is written.
    Stopped,
    /// The session was not opened. The trouble is written.
    NotOpened,
    /// A commit was answered otherwise than as committed. Its answer is written.
    NotLoaded,
    /// The settling stopped. The trouble is written.
    NotSettled,
    /// A write failed.
    WriteFault,
    /// Memory ran out.
    Memory,
}

/// Fills the cloud from the text of a dump, and writes how many records that were and how many calls the settling made; or why it
/// stopped. The text is read before the first call.
pub fn fill<O: Sink, C: Bench>(
    alloc: Global,
    text: &[u8],
    sink: &mut O,
    cloud: &mut C,
) -> Result<(), LoadingFault>
    ensures write_fault { result ≡ Err LoadingFault.WriteFault
        → (O.told sink.old).faults < (O.told sink.new).faults }
    ensures writes { (result ≡ Err LoadingFault.WriteFault)
        ⊎ ((O.told sink.new).faults ≡ (O.told sink.old).faults) }
    ensures bad_line { result ≡ Err LoadingFault.BadLine → SpellsNoDump text.now }
    ensures went { FillEnded text.now result (effects (O.told sink.old) (C.seen cloud.old))
        (effects (O.told sink.new) (C.seen cloud.new)) }
{
    match Dump::read(alloc, text) {
        Ok(dump) => fill_from(alloc, &dump, sink, cloud),
        Err(DumpFault::BadLine(number)) => write_bad_line(alloc, sink, number),
        Err(DumpFault::Memory) => Err(LoadingFault::Memory),
    }
}

/// How a load ends, by how its text was written.
fn end_of(
    written: Result<(), OutputFault>,
    end: Result<(), LoadingFault>,
) -> Result<(), LoadingFault>
    ensures { result ≡ end_of written end }
{
    match written {
        Ok(()) => end,
        Err(OutputFault::WriteFault) => Err(LoadingFault::WriteFault),
        Err(OutputFault::Memory) => Err(LoadingFault::Memory),
    }
}

/// Writes that a line shows that the text is no dump.
fn write_bad_line<O: Sink>(alloc: Global, sink: &mut O, number: u64) -> Result<(), LoadingFault>
    ensures write_fault { result ≡ Err LoadingFault.WriteFault
        → (O.told sink.old).faults < (O.told sink.new).faults }
    ensures writes { (result ≡ Err LoadingFault.WriteFault)
        ⊎ ((O.told sink.new).faults ≡ (O.told sink.old).faults) }
    ensures told { TellsLoad (bad_line number) (Err LoadingFault.BadLine) result
        (O.told sink.old) (O.told sink.new) }
{
    end_of(refuse(alloc, sink, number), Err(LoadingFault::BadLine))
}

/// Fills the cloud from a dump.
fn fill_from<O: Sink, C: Bench>(
    alloc: Global,
    dump: &Dump,
    sink: &mut O,
    cloud: &mut C,
) -> Result<(), LoadingFault>
    requires { IsDumpable dump.now.trees }
    ensures write_fault { result ≡ Err LoadingFault.WriteFault
        → (O.told sink.old).faults < (O.told sink.new).faults }
    ensures writes { (result ≡ Err LoadingFault.WriteFault)
        ⊎ ((O.told sink.new).faults ≡ (O.told sink.old).faults) }
    ensures good { result ≡ Err LoadingFault.BadLine → ⊥ }
    ensures went { FillWent dump.now.trees result (effects (O.told sink.old) (C.seen cloud.old))
        (effects (O.told sink.new) (C.seen cloud.new)) }
{
    match load(alloc, cloud, dump, MOST_CALLS) {
        Ok(loaded) => write_loaded(alloc, sink, loaded),
        Err(stop) => write_stop(alloc, sink, stop),
    }
}

/// Writes what a load did.
fn write_loaded<O: Sink>(alloc: Global, sink: &mut O, loaded: Loaded) -> Result<(), LoadingFault>
    ensures write_fault { result ≡ Err LoadingFault.WriteFault
        → (O.told sink.old).faults < (O.told sink.new).faults }
    ensures writes { (result ≡ Err LoadingFault.WriteFault)
        ⊎ ((O.told sink.new).faults ≡ (O.told sink.old).faults) }
    ensures told { TellsLoad (load_text (Ok loaded)) (Ok tt) result
        (O.told sink.old) (O.told sink.new) }
{
    let records = loaded.records;
    let calls = loaded.calls;
    match format!(in alloc; "loaded {records}\nsettled {calls}\n") {
        Ok(text) => end_of(write_text(sink, text.as_bytes()), Ok(())),
        Err(_) => Err(LoadingFault::Memory),
    }
}

/// Writes why a load stopped. Want of memory is not written.
fn write_stop<O: Sink>(alloc: Global, sink: &mut O, stop: LoadStop) -> Result<(), LoadingFault>
    ensures write_fault { result ≡ Err LoadingFault.WriteFault
        → (O.told sink.old).faults < (O.told sink.new).faults }
    ensures writes { (result ≡ Err LoadingFault.WriteFault)
        ⊎ ((O.told sink.new).faults ≡ (O.told sink.old).faults) }
    ensures told { TellsLoad (load_text (Err stop)) (load_end (Err stop)) result
        (O.told sink.old) (O.told sink.new) }
{
    match stop {
        LoadStop::NotEmpty(name) => end_of(
            write_name(alloc, sink, "not-empty", name.as_str()),
            Err(LoadingFault::NotEmpty),
        ),
        LoadStop::Stopped(trouble) => end_of(
            write_reply(alloc, sink, Reply::Trouble(trouble)),
            Err(LoadingFault::Stopped),
        ),
        LoadStop::Opening(trouble) => end_of(
            write_reply(alloc, sink, Reply::Trouble(trouble)),
            Err(LoadingFault::NotOpened),
        ),
        LoadStop::Commit(answer) => end_of(
            write_reply(alloc, sink, Reply::Commit(answer)),
            Err(LoadingFault::NotLoaded),
        ),
        LoadStop::Settling(trouble) => end_of(
            write_reply(alloc, sink, Reply::Trouble(trouble)),
            Err(LoadingFault::NotSettled),
        ),
        LoadStop::Memory => Err(LoadingFault::Memory),
    }
}

/// Writes a reply under no number, and lets it go.
fn write_reply<O: Sink>(alloc: Global, sink: &mut O, reply: Reply) -> Result<(), OutputFault>
    ensures { WasWritten (O.told sink.old) (O.told sink.new) (plain_line reply) result }
{
    let written = write_plain(alloc, sink, &reply);
    let_go(reply);
    written
}
