ghost use Rattle.std.specs.Prelude.{◌≡◌, ◌≤◌, ◌<◌, ◌+◌, ◌⊎◌, false, [], ◌∷◌, ◌++◌, Err};
ghost use Rattle.command_words.specs.declared.read.TheConstants.{MAX_COUNT};
ghost use Rattle.db_io.specs.Output.{WasWritten};
ghost use Rattle.schedule_run.specs.Outside.{effects};
ghost use Rattle.schedule_run.specs.Play.{IsFresh};
ghost use Rattle.schedule_run.specs.Summary.{summary};
ghost use Rattle.sched_gen.specs.Schedule.{schedule};
ghost use Rattle.schedule_run.specs.Generated.{GenEnded, TakesAll, TakesEach};

use crate::play::Play;
use crate::summary::summary;
use crate::writing::let_go;
use client_session::session::Session;
use client_work::calls::SessionCalls;
use cloud_trait::cloud::Bench;
use db_io::output::{OutputFault, write_text};
use db_io::sink::Sink;
use event_text::event::Event;
use reply_text::reply::Reply;
use sched_gen::make::make;
use std::alloc::Global;
use world_core::world::WorldFault;

/// Handles the schedule of a number and a count of rounds, at most 10,000, and then a report of tree 1. The summary is
/// written, in one write.
pub fn generate<O: Sink, C: Bench>(
    alloc: Global,
    number: u64,
    count: u64,
    sink: &mut O,
    cloud: &mut C,
) -> Result<(), OutputFault>
    requires { count ≤ MAX_COUNT }
    ensures write_fault { result ≡ Err OutputFault.WriteFault
        → (O.told sink.old).faults < (O.told sink.new).faults }
    ensures writes { (result ≡ Err OutputFault.WriteFault)
        ⊎ ((O.told sink.new).faults ≡ (O.told sink.old).faults) }
    ensures went { GenEnded (schedule number count) result
        (effects (O.told sink.old) (C.seen cloud.old))
        (effects (O.told sink.new) (C.seen cloud.new)) }
{
    let Ok(events) = make(alloc, number, count) else {
        return Err(OutputFault::Memory);
    };
    let Some((last, earlier)) = events.as_slice().split_last() else {
        unreachable!()
    };
    match Play::<Session>::new(alloc) {
        Ok(mut play) => generate_in(alloc, &mut play, earlier, last, sink, cloud),
        Err(_) => Err(OutputFault::Memory),
    }
}

/// Handles the events in a new world, the last one behind the earlier ones, and then a report of tree 1. The summary is written.
fn generate_in<S: SessionCalls, O: Sink, C: Bench>(
    alloc: Global,
    play: &mut Play<S>,
    earlier: &[Event],
    last: &Event,
    sink: &mut O,
    cloud: &mut C,
) -> Result<(), OutputFault>
    requires { IsFresh false play.old }
    ensures write_fault { result ≡ Err OutputFault.WriteFault
        → (O.told sink.old).faults < (O.told sink.new).faults }
    ensures writes { (result ≡ Err OutputFault.WriteFault)
        ⊎ ((O.told sink.new).faults ≡ (O.told sink.old).faults) }
    ensures went { GenEnded (earlier.now ++ last.now ∷ []) result
        (effects (O.told sink.old) (C.seen cloud.old))
        (effects (O.told sink.new) (C.seen cloud.new)) }
{
    match take_all(alloc, play, earlier, last, cloud) {
        Ok((settling, report)) => {
            let earlier = earlier.len() as u64;
            let written = write_summary(alloc, sink, earlier, &settling, &report);
            let_go(settling);
            let_go(report);
            written
        }
        Err(_) => Err(OutputFault::Memory),
    }
}

/// Handles the events and then a report of tree 1: the reply to the last event, and the report.
fn take_all<S: SessionCalls, C: Bench>(
    alloc: Global,
    play: &mut Play<S>,
    earlier: &[Event],
    last: &Event,
    cloud: &mut C,
) -> Result<(Reply, Reply), WorldFault>
    requires { IsFresh false play.old }
    ensures { TakesAll (earlier.now ++ last.now ∷ []) result (C.seen cloud.old) (C.seen cloud.new) }
{
    match take_each(alloc, play, earlier, cloud) {
        Ok(()) => {}
        Err(fault) => return Err(fault),
    }
    let settling = match play.take(alloc, cloud, last) {
        Ok(reply) => reply,
        Err(fault) => return Err(fault),
    };
    match play.take(alloc, cloud, &Event::Report { tree: 1 }) {
        Ok(report) => Ok((settling, report)),
        Err(fault) => {
            let_go(settling);
            Err(fault)
        }
    }
}

/// Handles the events.
fn take_each<S: SessionCalls, C: Bench>(
    alloc: Global,
    play: &mut Play<S>,
    events: &[Event],
    cloud: &mut C,
) -> Result<(), WorldFault>
    requires { IsFresh false play.old }
    ensures { TakesEach events.now result (C.seen cloud.old) (C.seen cloud.new) play.new }
{
    let mut left = events;
    while let Some((event, rest)) = left.split_first() {
        match play.take(alloc, cloud, event) {
            Ok(reply) => {
                let_go(reply);
                left = rest;
            }
            Err(fault) => return Err(fault),
        }
    }
    Ok(())
}

/// Writes the summary of so many events, and one.
fn write_summary<O: Sink>(
    alloc: Global,
    sink: &mut O,
    earlier: u64,
    settling: &Reply,
    report: &Reply,
) -> Result<(), OutputFault>
    ensures { WasWritten
        (O.told sink.old) (O.told sink.new) (summary (earlier + 1) settling.now report.now) result }
{
    let Some(count) = earlier.checked_add(1) else {
        return Err(OutputFault::Memory);
    };
    match summary(alloc, count, settling, report) {
        Ok(text) => write_text(sink, text.as_slice()),
        Err(_) => Err(OutputFault::Memory),
    }
}
