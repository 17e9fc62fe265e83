ghost use Rattle.std.specs.Prelude.{◌≡◌, ◌<◌, ◌⊎◌, false, Err};
ghost use Rattle.event_text.specs.declared.event.Event.{Event};
ghost use Rattle.event_text.specs.Event.{IsEvent};
ghost use Rattle.world_core.specs.Stands.{Grows};
ghost use Rattle.schedule_run.specs.Outside.{effects};
ghost use Rattle.schedule_run.specs.Answered.{IsNew};
ghost use Rattle.schedule_run.specs.Replayed.{HasBadLine, LineWent, LineHandled, ReplayWent, WentThrough};

use crate::play::let_event_go;
use crate::writing::{let_go, refuse, write_reply};
use client_session::session::Session;
use client_work::calls::SessionCalls;
use cloud_trait::cloud::Bench;
use db_io::lines::next_line;
use db_io::output::OutputFault;
use db_io::sink::Sink;
use event_text::event::Event;
use std::alloc::Global;
use words::fault::TextFault;
use world_core::quota::Quota;
use world_core::world::{World, WorldFault};

/// Why a line ends the run.
#[derive(Clone, Copy, Debug, PartialEq, Eq)]
pub enum LineFault {
    /// It is not in the grammar. What was handled before it stands.
    BadLine,
    /// A write failed.
    WriteFault,
    /// Memory ran out.
    Memory,
}

/// Replays the lines of an input: one reply a line, in one write each.
pub fn replay_lines<O: Sink, C: Bench>(
    alloc: Global,
    input: &[u8],
    sink: &mut O,
    cloud: &mut C,
) -> Result<(), LineFault>
    ensures bad_line { result ≡ Err LineFault.BadLine → HasBadLine input.now }
    ensures write_fault { result ≡ Err LineFault.WriteFault
        → (O.told sink.old).faults < (O.told sink.new).faults }
    ensures writes { (result ≡ Err LineFault.WriteFault)
        ⊎ ((O.told sink.new).faults ≡ (O.told sink.old).faults) }
    ensures went { ReplayWent result input.now (effects (O.told sink.old) (C.seen cloud.old))
        (effects (O.told sink.new) (C.seen cloud.new)) }
{
    match World::<Session>::new(alloc) {
        Ok(mut world) => go_on(alloc, &mut world, input, sink, cloud),
        Err(_) => Err(LineFault::Memory),
    }
}

/// Handles the lines of an input in a new world, up to the first that ends the run.
fn go_on<S: SessionCalls, O: Sink, C: Bench>(
    alloc: Global,
    world: &mut World<S>,
    input: &[u8],
    sink: &mut O,
    cloud: &mut C,
) -> Result<(), LineFault>
    requires fresh { IsNew false world.old }
    ensures went { WentThrough input.now result (effects (O.told sink.old) (C.seen cloud.old))
        (effects (O.told sink.new) (C.seen cloud.new)) }
    ensures bad_line { result ≡ Err LineFault.BadLine → HasBadLine input.now }
    ensures write_fault { result ≡ Err LineFault.WriteFault
        → (O.told sink.old).faults < (O.told sink.new).faults }
    ensures writes { (result ≡ Err LineFault.WriteFault)
        ⊎ ((O.told sink.new).faults ≡ (O.told sink.old).faults) }
{
    let mut rest = input;
    let mut n: u64 = 0;
    while !rest.is_empty() {
        let (line, behind) = next_line(rest);
        n = match n.checked_add(1) {
            Some(n) => n,
            None => return Err(LineFault::Memory),
        };
        match replay_line(alloc, world, sink, cloud, n, line) {
            Ok(()) => rest = behind,
            Err(fault) => return Err(fault),
        }
    }
    Ok(())
}

/// Handles one line, and writes its reply.
fn replay_line<S: SessionCalls, O: Sink, C: Bench>(
    alloc: Global,
    world: &mut World<S>,
    sink: &mut O,
    cloud: &mut C,
    n: u64,
    line: &[u8],
) -> Result<(), LineFault>
    ensures went { LineWent result n line.now (effects (O.told sink.old) (C.seen cloud.old), world.old)
        (effects (O.told sink.new) (C.seen cloud.new), world.new) }
    ensures grows { Grows n (C.seen cloud.old) (C.seen cloud.new) }
    ensures bad_line { result ≡ Err LineFault.BadLine → (event : Event) → IsEvent line.now event → ⊥ }
    ensures write_fault { result ≡ Err LineFault.WriteFault
        → (O.told sink.old).faults < (O.told sink.new).faults }
    ensures writes { (result ≡ Err LineFault.WriteFault)
        ⊎ ((O.told sink.new).faults ≡ (O.told sink.old).faults) }
{
    match Event::read(alloc, line) {
        Ok(event) => {
            let end = handle(alloc, world, sink, cloud, n, &event);
            let_event_go(event);
            end
        }
        Err(TextFault::NotInGrammar) => match refuse(alloc, sink, n) {
            Ok(()) => Err(LineFault::BadLine),
            Err(OutputFault::WriteFault) => Err(LineFault::WriteFault),
            Err(OutputFault::Memory) => Err(LineFault::Memory),
        },
        Err(TextFault::Memory) => Err(LineFault::Memory),
    }
}

/// Handles the event of a line, and writes its reply.
fn handle<S: SessionCalls, O: Sink, C: Bench>(
    alloc: Global,
    world: &mut World<S>,
    sink: &mut O,
    cloud: &mut C,
    n: u64,
    event: &Event,
) -> Result<(), LineFault>
    ensures handled { LineHandled result n event.now
        (effects (O.told sink.old) (C.seen cloud.old), world.old)
        (effects (O.told sink.new) (C.seen cloud.new), world.new) }
    ensures grows { Grows n (C.seen cloud.old) (C.seen cloud.new) }
    ensures write_fault { result ≡ Err LineFault.WriteFault
        → (O.told sink.old).faults < (O.told sink.new).faults }
    ensures writes { (result ≡ Err LineFault.WriteFault)
        ⊎ ((O.told sink.new).faults ≡ (O.told sink.old).faults) }
{
    let mut quota = Quota::new(u64::MAX);
    match world.event(alloc, cloud, &mut quota, n, event) {
        Ok(reply) => {
            let written = write_reply(alloc, sink, n, &reply);
            let_go(reply);
            match written {
                Ok(()) => Ok(()),
                Err(OutputFault::WriteFault) => Err(LineFault::WriteFault),
                Err(OutputFault::Memory) => Err(LineFault::Memory),
            }
        }
        Err(WorldFault::Memory) => Err(LineFault::Memory),
    }
}
