ghost use Rattle.std.specs.Prelude.{◌≡◌, ◌<◌, ◌≤◌, ◌⊎◌, Some, None, map, string_bytes};
ghost use Rattle.command_words.specs.Words.{shape_of};
ghost use Rattle.command_words.specs.declared.read.TheConstants.{MAX_COUNT};
ghost use Rattle.db_io.specs.declared.input.TheConstants.{MAX_DUMP, MAX_LINES};
ghost use Rattle.schedule_run.specs.Outside.{effects, outside};
ghost use Rattle.schedule_run.specs.Loading.{SpellsNoDump};
ghost use Rattle.schedule_run.specs.Replayed.{HasBadLine};
ghost use Rattle.schedule_run.specs.Shell.{HasBadShellLine};
ghost use Rattle.schedule_run.specs.Complete.{IsComplete, LoadCompletes, StopsAtBadLine};
ghost use Rattle.schedule_run.specs.Run.{AsksWithin, Generates, HasBad, IsOfShape, IsOfDump, IsOfLoad, IsOfReplay, IsOfSchedule, IsOfSettling, IsOfShell, Ran, Replays, RunsDump, RunsLoad, RunsSettling, RunsShell, WasBad, WasTooLong, WasWithin, limit_of};

use crate::dumping::{DumpingFault, dump};
use crate::generated::generate;
use crate::loading::{LoadingFault, fill};
use crate::replay::{LineFault, replay_lines};
use crate::settling::{SettleFault, settle};
use crate::shell::{ShellFault, run_shell};
use crate::status::Status;
use cloud_trait::cloud::Bench;
use command_words::read::shape;
use command_words::shape::{Shape, WordsFault};
use db_base::ids::ClientId;
use db_io::input::{InputFault, MAX_DUMP, MAX_LINES, read_whole};
use db_io::output::OutputFault;
use db_io::sink::Sink;
use db_io::source::Source;
use std::alloc::Global;

/// Runs the command that the words ask for over the cloud: a replay of the lines of the source, a generated schedule, a shell
/// over the lines of the source, a settling, a dump, or a load of the text of the source.
#[tactic(auto, using(crate::proofs::RunLemmas::reads_nothing))]
pub fn run<I: Source, O: Sink, C: Bench>(
    alloc: Global,
    words: &[String],
    source: &mut I,
    sink: &mut O,
    cloud: &mut C,
) -> Status
    ensures only { IsOfShape (shape_of (map string_bytes words.now)) result }
    ensures unread { result ≡ Status.BadWords → I.told source.new ≡ I.told source.old }
    ensures read_fault { result ≡ Status.ReadFault
        → (I.told source.old).faults < (I.told source.new).faults }
    ensures reads { (result ≡ Status.ReadFault)
        ⊎ ((I.told source.new).faults ≡ (I.told source.old).faults) }
    ensures too_long { result ≡ Status.TooLong
        → WasTooLong (limit_of (shape_of (map string_bytes words.now))) (I.told source.old) (I.told source.new) }
    ensures within { (result ≡ Status.TooLong)
        ⊎ WasWithin (limit_of (shape_of (map string_bytes words.now))) (I.told source.old) (I.told source.new) }
    ensures bad_line { result ≡ Status.BadLine
        → WasBad (HasBad (shape_of (map string_bytes words.now))) (I.told source.old) (I.told source.new) }
    ensures write_fault { result ≡ Status.WriteFault
        → (O.told sink.old).faults < (O.told sink.new).faults }
    ensures writes { (result ≡ Status.WriteFault)
        ⊎ ((O.told sink.new).faults ≡ (O.told sink.old).faults) }
    // Where no read or write failed, the input was not too long and no line of it is bad, it is done.
    ensures complete { IsComplete (shape_of (map string_bytes words.now)) result
        (outside (I.told source.old) (O.told sink.old) (C.seen cloud.old))
        (outside (I.told source.new) (O.told sink.new) (C.seen cloud.new)) }
    // A load of a dump, where besides no count of the cloud rose and each step was calm, too, unless memory ran out.
    ensures complete_load { LoadCompletes (shape_of (map string_bytes words.now)) result
        (outside (I.told source.old) (O.told sink.old) (C.seen cloud.old))
        (outside (I.told source.new) (O.told sink.new) (C.seen cloud.new)) }
    // Where a line of it is bad, it ends by that.
    ensures at_bad_line { StopsAtBadLine (shape_of (map string_bytes words.now)) result
        (outside (I.told source.old) (O.told sink.old) (C.seen cloud.old))
        (outside (I.told source.new) (O.told sink.new) (C.seen cloud.new)) }
    ensures ran { Ran (shape_of (map string_bytes words.now)) result
        (outside (I.told source.old) (O.told sink.old) (C.seen cloud.old))
        (outside (I.told source.new) (O.told sink.new) (C.seen cloud.new)) }
{
    match shape(alloc, words) {
        Ok(asked) => run_asked(alloc, asked, source, sink, cloud),
        Err(WordsFault::BadWords) => Status::BadWords,
        Err(WordsFault::Memory) => Status::Memory,
    }
}

/// Runs the command that is asked for.
#[tactic(auto, using(crate::proofs::RunLemmas::reads_nothing))]
fn run_asked<I: Source, O: Sink, C: Bench>(
    alloc: Global,
    asked: Shape,
    source: &mut I,
    sink: &mut O,
    cloud: &mut C,
) -> Status
    requires { AsksWithin asked }
    ensures only { IsOfShape (Some asked) result }
    ensures read_fault { result ≡ Status.ReadFault
        → (I.told source.old).faults < (I.told source.new).faults }
    ensures reads { (result ≡ Status.ReadFault)
        ⊎ ((I.told source.new).faults ≡ (I.told source.old).faults) }
    ensures too_long { result ≡ Status.TooLong → WasTooLong (limit_of (Some asked))
        (I.told source.old) (I.told source.new) }
    ensures within { (result ≡ Status.TooLong) ⊎ WasWithin (limit_of (Some asked))
        (I.told source.old) (I.told source.new) }
    ensures bad_line { result ≡ Status.BadLine → WasBad (HasBad (Some asked))
        (I.told source.old) (I.told source.new) }
    ensures write_fault { result ≡ Status.WriteFault
        → (O.told sink.old).faults < (O.told sink.new).faults }
    ensures writes { (result ≡ Status.WriteFault)
        ⊎ ((O.told sink.new).faults ≡ (O.told sink.old).faults) }
    ensures ran { Ran (Some asked) result
        (outside (I.told source.old) (O.told sink.old) (C.seen cloud.old))
        (outside (I.told source.new) (O.told sink.new) (C.seen cloud.new)) }
{
    match asked {
        Shape::Replay => replay(alloc, source, sink, cloud),
        Shape::Gen { number, count } => generated(alloc, number, count, sink, cloud),
        Shape::Shell { client, dir: _ } => shell(alloc, client, source, sink, cloud),
        Shape::Settle { dir: _ } => settled(alloc, sink, cloud),
        Shape::Dump { dir: _ } => dumped(alloc, sink, cloud),
        Shape::Load { dir: _ } => filled(alloc, source, sink, cloud),
    }
}

/// Replays the lines of the source.
fn replay<I: Source, O: Sink, C: Bench>(
    alloc: Global,
    source: &mut I,
    sink: &mut O,
    cloud: &mut C,
) -> Status
    ensures only { IsOfReplay result }
    ensures read_fault { result ≡ Status.ReadFault
        → (I.told source.old).faults < (I.told source.new).faults }
    ensures reads { (result ≡ Status.ReadFault)
        ⊎ ((I.told source.new).faults ≡ (I.told source.old).faults) }
    ensures too_long { result ≡ Status.TooLong → WasTooLong MAX_LINES
        (I.told source.old) (I.told source.new) }
    ensures within { (result ≡ Status.TooLong) ⊎ WasWithin MAX_LINES
        (I.told source.old) (I.told source.new) }
    ensures bad_line { result ≡ Status.BadLine
        → WasBad HasBadLine (I.told source.old) (I.told source.new) }
    ensures write_fault { result ≡ Status.WriteFault
        → (O.told sink.old).faults < (O.told sink.new).faults }
    ensures writes { (result ≡ Status.WriteFault)
        ⊎ ((O.told sink.new).faults ≡ (O.told sink.old).faults) }
    ensures ran { Replays result
        (outside (I.told source.old) (O.told sink.old) (C.seen cloud.old))
        (outside (I.told source.new) (O.told sink.new) (C.seen cloud.new)) }
{
    match read_whole(alloc, source, MAX_LINES) {
        Ok(input) => match replay_lines(alloc, input.as_slice(), sink, cloud) {
            Ok(()) => Status::Done,
            Err(LineFault::BadLine) => Status::BadLine,
            Err(LineFault::WriteFault) => Status::WriteFault,
            Err(LineFault::Memory) => Status::Memory,
        },
        Err(InputFault::ReadFault) => Status::ReadFault,
        Err(InputFault::TooLong) => Status::TooLong,
        Err(InputFault::Memory) => Status::Memory,
    }
}

/// Runs the lines of the source as those of a shell of the client.
fn shell<I: Source, O: Sink, C: Bench>(
    alloc: Global,
    client: ClientId,
    source: &mut I,
    sink: &mut O,
    cloud: &mut C,
) -> Status
    ensures only { IsOfShell result }
    ensures read_fault { result ≡ Status.ReadFault
        → (I.told source.old).faults < (I.told source.new).faults }
    ensures reads { (result ≡ Status.ReadFault)
        ⊎ ((I.told source.new).faults ≡ (I.told source.old).faults) }
    ensures too_long { result ≡ Status.TooLong → WasTooLong MAX_LINES
        (I.told source.old) (I.told source.new) }
    ensures within { (result ≡ Status.TooLong) ⊎ WasWithin MAX_LINES
        (I.told source.old) (I.told source.new) }
    ensures bad_line { result ≡ Status.BadLine
        → WasBad HasBadShellLine (I.told source.old) (I.told source.new) }
    ensures write_fault { result ≡ Status.WriteFault
        → (O.told sink.old).faults < (O.told sink.new).faults }
    ensures writes { (result ≡ Status.WriteFault)
        ⊎ ((O.told sink.new).faults ≡ (O.told sink.old).faults) }
    ensures ran { RunsShell client result
        (outside (I.told source.old) (O.told sink.old) (C.seen cloud.old))
        (outside (I.told source.new) (O.told sink.new) (C.seen cloud.new)) }
{
    match read_whole(alloc, source, MAX_LINES) {
        Ok(input) => match run_shell(alloc, client, input.as_slice(), sink, cloud) {
            Ok(()) => Status::Done,
            Err(ShellFault::NotOpened) => Status::NotOpened,
            Err(ShellFault::BadLine) => Status::BadLine,
            Err(ShellFault::WriteFault) => Status::WriteFault,
            Err(ShellFault::Memory) => Status::Memory,
        },
        Err(InputFault::ReadFault) => Status::ReadFault,
        Err(InputFault::TooLong) => Status::TooLong,
        Err(InputFault::Memory) => Status::Memory,
    }
}

/// Handles the schedule of a number and a count of rounds, and writes its summary.
fn generated<O: Sink, C: Bench>(
    alloc: Global,
    number: u64,
    count: u64,
    sink: &mut O,
    cloud: &mut C,
) -> Status
    requires { count ≤ MAX_COUNT }
    ensures only { IsOfSchedule result }
    ensures write_fault { result ≡ Status.WriteFault
        → (O.told sink.old).faults < (O.told sink.new).faults }
    ensures writes { (result ≡ Status.WriteFault)
        ⊎ ((O.told sink.new).faults ≡ (O.told sink.old).faults) }
    ensures ran { Generates number count result (effects (O.told sink.old) (C.seen cloud.old))
        (effects (O.told sink.new) (C.seen cloud.new)) }
{
    match generate(alloc, number, count, sink, cloud) {
        Ok(()) => Status::Done,
        Err(OutputFault::WriteFault) => Status::WriteFault,
        Err(OutputFault::Memory) => Status::Memory,
    }
}

/// Settles what is in the cloud.
fn settled<O: Sink, C: Bench>(alloc: Global, sink: &mut O, cloud: &mut C) -> Status
    ensures only { IsOfSettling result }
    ensures write_fault { result ≡ Status.WriteFault
        → (O.told sink.old).faults < (O.told sink.new).faults }
    ensures writes { (result ≡ Status.WriteFault)
        ⊎ ((O.told sink.new).faults ≡ (O.told sink.old).faults) }
    ensures ran { RunsSettling result (effects (O.told sink.old) (C.seen cloud.old))
        (effects (O.told sink.new) (C.seen cloud.new)) }
{
    match settle(alloc, sink, cloud) {
        Ok(()) => Status::Done,
        Err(SettleFault::NotSettled) => Status::NotSettled,
        Err(SettleFault::WriteFault) => Status::WriteFault,
        Err(SettleFault::Memory) => Status::Memory,
    }
}

/// Writes the text of what is in the cloud.
fn dumped<O: Sink, C: Bench>(alloc: Global, sink: &mut O, cloud: &mut C) -> Status
    ensures only { IsOfDump result }
    ensures write_fault { result ≡ Status.WriteFault
        → (O.told sink.old).faults < (O.told sink.new).faults }
    ensures writes { (result ≡ Status.WriteFault)
        ⊎ ((O.told sink.new).faults ≡ (O.told sink.old).faults) }
    ensures ran { RunsDump result (effects (O.told sink.old) (C.seen cloud.old))
        (effects (O.told sink.new) (C.seen cloud.new)) }
{
    match dump(alloc, sink, cloud) {
        Ok(()) => Status::Done,
        Err(DumpingFault::NotQuiet) => Status::NotQuiet,
        Err(DumpingFault::Stopped) => Status::Stopped,
        Err(DumpingFault::WriteFault) => Status::WriteFault,
        Err(DumpingFault::Memory) => Status::Memory,
    }
}

/// Loads the dump that the text of the source spells.
fn filled<I: Source, O: Sink, C: Bench>(
    alloc: Global,
    source: &mut I,
    sink: &mut O,
    cloud: &mut C,
) -> Status
    ensures only { IsOfLoad result }
    ensures read_fault { result ≡ Status.ReadFault
        → (I.told source.old).faults < (I.told source.new).faults }
    ensures reads { (result ≡ Status.ReadFault)
        ⊎ ((I.told source.new).faults ≡ (I.told source.old).faults) }
    ensures too_long { result ≡ Status.TooLong → WasTooLong MAX_DUMP
        (I.told source.old) (I.told source.new) }
    ensures within { (result ≡ Status.TooLong) ⊎ WasWithin MAX_DUMP
        (I.told source.old) (I.told source.new) }
    ensures bad_line { result ≡ Status.BadLine
        → WasBad SpellsNoDump (I.told source.old) (I.told source.new) }
    ensures write_fault { result ≡ Status.WriteFault
        → (O.told sink.old).faults < (O.told sink.new).faults }
    ensures writes { (result ≡ Status.WriteFault)
        ⊎ ((O.told sink.new).faults ≡ (O.told sink.old).faults) }
    ensures ran { RunsLoad result
        (outside (I.told source.old) (O.told sink.old) (C.seen cloud.old))
        (outside (I.told source.new) (O.told sink.new) (C.seen cloud.new)) }
{
    match read_whole(alloc, source, MAX_DUMP) {
        Ok(input) => match fill(alloc, input.as_slice(), sink, cloud) {
            Ok(()) => Status::Done,
            Err(LoadingFault::BadLine) => Status::BadLine,
            Err(LoadingFault::NotEmpty) => Status::NotEmpty,
            Err(LoadingFault::Stopped) => Status::Stopped,
            Err(LoadingFault::NotOpened) => Status::NotOpened,
            Err(LoadingFault::NotLoaded) => Status::NotLoaded,
            Err(LoadingFault::NotSettled) => Status::NotSettled,
            Err(LoadingFault::WriteFault) => Status::WriteFault,
            Err(LoadingFault::Memory) => Status::Memory,
        },
        Err(InputFault::ReadFault) => Status::ReadFault,
        Err(InputFault::TooLong) => Status::TooLong,
        Err(InputFault::Memory) => Status::Memory,
    }
}
