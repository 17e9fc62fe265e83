ghost use Rattle.std.specs.Prelude.{◌≡◌, ◌<◌, ◌⊎◌, Ok, Err};
ghost use Rattle.dump_take.specs.declared.stop.DumpStop.TheVariants as stop;
ghost use Rattle.dump_text.specs.Dump.{IsDumpable};
ghost use Rattle.schedule_run.specs.Outside.{effects};
ghost use Rattle.schedule_run.specs.Dumping.{DumpEnded, IsTold, end_of, is_memory};

use crate::writing::{let_go, write_name, write_plain};
use cloud_trait::cloud::Bench;
use db_base::trouble::Trouble;
use db_io::output::{OutputFault, write_text};
use db_io::sink::Sink;
use dump_take::stop::DumpStop;
use dump_take::take::take_dump;
use dump_text::dump::Dump;
use reply_text::reply::Reply;
use std::alloc::Global;

/// Why a dump did not end well.
#[derive(Clone, Copy, Debug, PartialEq, Eq)]
pub enum DumpingFault {
    /// A head is open, or a pending update queue has a message. The first such name is written.
    NotQuiet,
    /// A look failed, or what it showed is damaged. The trouble is written.
    Stopped,
    /// A write failed.
    WriteFault,
    /// Memory ran out.
    Memory,
}

/// Writes the text of what is in the cloud, at which it looks alone; or why there is none.
pub fn dump<O: Sink, C: Bench>(
    alloc: Global,
    sink: &mut O,
    cloud: &mut C,
) -> Result<(), DumpingFault>
    ensures write_fault { result ≡ Err DumpingFault.WriteFault
        → (O.told sink.old).faults < (O.told sink.new).faults }
    ensures writes { (result ≡ Err DumpingFault.WriteFault)
        ⊎ ((O.told sink.new).faults ≡ (O.told sink.old).faults) }
    ensures went { DumpEnded result (effects (O.told sink.old) (C.seen cloud.old))
        (effects (O.told sink.new) (C.seen cloud.new)) }
{
    match take_dump(alloc, cloud) {
        Ok(dump) => write_dump(alloc, sink, &dump),
        Err(DumpStop::NotQuiet(name)) => write_not_quiet(alloc, sink, name.as_str()),
        Err(DumpStop::Trouble(trouble)) => write_trouble(alloc, sink, trouble),
    }
}

/// How a dump ends, by how its text was written.
fn end_of(
    written: Result<(), OutputFault>,
    end: Result<(), DumpingFault>,
) -> Result<(), DumpingFault>
    ensures { result ≡ end_of written end }
{
    match written {
        Ok(()) => end,
        Err(OutputFault::WriteFault) => Err(DumpingFault::WriteFault),
        Err(OutputFault::Memory) => Err(DumpingFault::Memory),
    }
}

/// Writes the text of a dump.
fn write_dump<O: Sink>(alloc: Global, sink: &mut O, dump: &Dump) -> Result<(), DumpingFault>
    requires { IsDumpable dump.now.trees }
    ensures write_fault { result ≡ Err DumpingFault.WriteFault
        → (O.told sink.old).faults < (O.told sink.new).faults }
    ensures writes { (result ≡ Err DumpingFault.WriteFault)
        ⊎ ((O.told sink.new).faults ≡ (O.told sink.old).faults) }
    ensures told { IsTold (Ok dump.now) result (O.told sink.old) (O.told sink.new) }
{
    match dump.write(alloc) {
        Ok(text) => end_of(write_text(sink, text.as_slice()), Ok(())),
        Err(_) => Err(DumpingFault::Memory),
    }
}

/// Writes the name that shows that a database is not quiet.
fn write_not_quiet<O: Sink>(alloc: Global, sink: &mut O, name: &str) -> Result<(), DumpingFault>
    ensures write_fault { result ≡ Err DumpingFault.WriteFault
        → (O.told sink.old).faults < (O.told sink.new).faults }
    ensures writes { (result ≡ Err DumpingFault.WriteFault)
        ⊎ ((O.told sink.new).faults ≡ (O.told sink.old).faults) }
    ensures told { IsTold (Err (stop.NotQuiet name.now)) result (O.told sink.old) (O.told sink.new) }
{
    end_of(
        write_name(alloc, sink, "not-quiet", name),
        Err(DumpingFault::NotQuiet),
    )
}

/// Writes the trouble that stopped a dump. Want of memory is not written.
fn write_trouble<O: Sink>(alloc: Global, sink: &mut O, trouble: Trouble) -> Result<(), DumpingFault>
    ensures write_fault { result ≡ Err DumpingFault.WriteFault
        → (O.told sink.old).faults < (O.told sink.new).faults }
    ensures writes { (result ≡ Err DumpingFault.WriteFault)
        ⊎ ((O.told sink.new).faults ≡ (O.told sink.old).faults) }
    ensures told { IsTold (Err (stop.Trouble trouble)) result (O.told sink.old) (O.told sink.new) }
{
    if is_memory(&trouble) {
        return Err(DumpingFault::Memory);
    }
    let reply = Reply::Trouble(trouble);
    let written = write_plain(alloc, sink, &reply);
    let_go(reply);
    end_of(written, Err(DumpingFault::Stopped))
}

/// Whether a trouble is want of memory.
fn is_memory(trouble: &Trouble) -> bool
    ensures { result ≡ is_memory trouble.now }
{
    matches!(trouble, Trouble::Memory)
}
