ghost use Rattle.std.specs.Prelude.{◌≡◌, ◌<◌, ◌⊎◌, true, Err};
ghost use Rattle.event_text.specs.declared.event.Event.{Event};
ghost use Rattle.event_text.specs.Event.{IsShellLine};
ghost use Rattle.schedule_run.specs.Outside.{effects};
ghost use Rattle.schedule_run.specs.Play.{IsFresh};
ghost use Rattle.schedule_run.specs.Shell.{HasBadShellLine, ShellWent, OpeningRan, ClosingRan, LineRan, EventRan, ended, opened_by, shown_by};

use crate::play::{Play, let_event_go};
use crate::writing::{let_go, refuse, write_reply};
use client_session::session::Session;
use client_work::calls::SessionCalls;
use cloud_trait::cloud::Bench;
use db_base::ids::ClientId;
use db_io::lines::next_line;
use db_io::output::OutputFault;
use db_io::sink::Sink;
use event_text::event::Event;
use reply_text::reply::Reply;
use std::alloc::Global;
use words::fault::TextFault;

/// Why a shell ended before its session was closed.
#[derive(Clone, Copy, Debug, PartialEq, Eq)]
pub enum ShellFault {
    /// The opening did not answer that the session is open. Its reply is written.
    NotOpened,
    /// A line is no shell's line. The session is not closed.
    BadLine,
    /// A write failed.
    WriteFault,
    /// Memory ran out.
    Memory,
}

/// Runs the lines of an input as those of a shell of the client: opens its session, runs each line to its answer, and
/// closes the session at the end. Each last reply is written, in one write.
pub fn run_shell<O: Sink, C: Bench>(
    alloc: Global,
    client: ClientId,
    input: &[u8],
    sink: &mut O,
    cloud: &mut C,
) -> Result<(), ShellFault>
    ensures bad_line { result ≡ Err ShellFault.BadLine → HasBadShellLine input.now }
    ensures write_fault { result ≡ Err ShellFault.WriteFault
        → (O.told sink.old).faults < (O.told sink.new).faults }
    ensures writes { (result ≡ Err ShellFault.WriteFault)
        ⊎ ((O.told sink.new).faults ≡ (O.told sink.old).faults) }
    ensures went { ShellWent client input.now result (effects (O.told sink.old) (C.seen cloud.old))
        (effects (O.told sink.new) (C.seen cloud.new)) }
{
    match Play::<Session>::unseeing(alloc) {
        Ok(mut play) => run_lines(alloc, &mut play, client, input, sink, cloud),
        Err(_) => Err(ShellFault::Memory),
    }
}

/// Opens the client's session in a new world, which looks at no put, runs the lines, and closes it.
fn run_lines<S: SessionCalls, O: Sink, C: Bench>(
    alloc: Global,
    play: &mut Play<S>,
    client: ClientId,
    input: &[u8],
    sink: &mut O,
    cloud: &mut C,
) -> Result<(), ShellFault>
    requires { IsFresh true play.old }
    ensures bad_line { result ≡ Err ShellFault.BadLine → HasBadShellLine input.now }
    ensures write_fault { result ≡ Err ShellFault.WriteFault
        → (O.told sink.old).faults < (O.told sink.new).faults }
    ensures writes { (result ≡ Err ShellFault.WriteFault)
        ⊎ ((O.told sink.new).faults ≡ (O.told sink.old).faults) }
    ensures went { ShellWent client input.now result (effects (O.told sink.old) (C.seen cloud.old))
        (effects (O.told sink.new) (C.seen cloud.new)) }
{
    match open(alloc, play, client, sink, cloud) {
        Ok(()) => {}
        Err(fault) => return Err(fault),
    }
    let mut rest = input;
    let mut n: u64 = 0;
    while !rest.is_empty() {
        let (line, behind) = next_line(rest);
        n = match n.checked_add(1) {
            Some(n) => n,
            None => return Err(ShellFault::Memory),
        };
        match run_line(alloc, play, sink, cloud, n, line) {
            Ok(()) => rest = behind,
            Err(fault) => return Err(fault),
        }
    }
    match n.checked_add(1) {
        Some(n) => close(alloc, play, sink, cloud, n),
        None => Err(ShellFault::Memory),
    }
}

/// Opens the client's session, and writes the reply under 0.
fn open<S: SessionCalls, O: Sink, C: Bench>(
    alloc: Global,
    play: &mut Play<S>,
    client: ClientId,
    sink: &mut O,
    cloud: &mut C,
) -> Result<(), ShellFault>
    ensures opening { OpeningRan result client (effects (O.told sink.old) (C.seen cloud.old), play.old)
        (effects (O.told sink.new) (C.seen cloud.new), play.new) }
    ensures write_fault { result ≡ Err ShellFault.WriteFault
        → (O.told sink.old).faults < (O.told sink.new).faults }
    ensures writes { (result ≡ Err ShellFault.WriteFault)
        ⊎ ((O.told sink.new).faults ≡ (O.told sink.old).faults) }
{
    let event = Event::Open {
        session: 1,
        client: client.get(),
    };
    match run_event(alloc, play, sink, cloud, 0, &event) {
        Ok(reply) => {
            let end = opened(&reply);
            let_go(reply);
            let_event_go(event);
            end
        }
        Err(fault) => {
            let_event_go(event);
            Err(fault)
        }
    }
}

/// How an opening of this reply ends: well where the session is open.
fn opened(reply: &Reply) -> Result<(), ShellFault>
    ensures { result ≡ opened_by reply.now }
{
    match reply {
        Reply::Opened { .. } => Ok(()),
        _ => Err(ShellFault::NotOpened),
    }
}

/// Runs one line to its answer, and writes the last reply.
fn run_line<S: SessionCalls, O: Sink, C: Bench>(
    alloc: Global,
    play: &mut Play<S>,
    sink: &mut O,
    cloud: &mut C,
    n: u64,
    line: &[u8],
) -> Result<(), ShellFault>
    ensures line { LineRan result n line.now (effects (O.told sink.old) (C.seen cloud.old), play.old)
        (effects (O.told sink.new) (C.seen cloud.new), play.new) }
    ensures bad_line { result ≡ Err ShellFault.BadLine
        → (event : Event) → IsShellLine line.now event → ⊥ }
    ensures write_fault { result ≡ Err ShellFault.WriteFault
        → (O.told sink.old).faults < (O.told sink.new).faults }
    ensures writes { (result ≡ Err ShellFault.WriteFault)
        ⊎ ((O.told sink.new).faults ≡ (O.told sink.old).faults) }
{
    match Event::read_shell(alloc, line) {
        Ok(event) => {
            let end = ended(run_event(alloc, play, sink, cloud, n, &event));
            let_event_go(event);
            end
        }
        Err(TextFault::NotInGrammar) => match refuse(alloc, sink, n) {
            Ok(()) => Err(ShellFault::BadLine),
            Err(OutputFault::WriteFault) => Err(ShellFault::WriteFault),
            Err(OutputFault::Memory) => Err(ShellFault::Memory),
        },
        Err(TextFault::Memory) => Err(ShellFault::Memory),
    }
}

/// Closes the session, and writes the reply under a number.
fn close<S: SessionCalls, O: Sink, C: Bench>(
    alloc: Global,
    play: &mut Play<S>,
    sink: &mut O,
    cloud: &mut C,
    n: u64,
) -> Result<(), ShellFault>
    ensures closing { ClosingRan result n (effects (O.told sink.old) (C.seen cloud.old))
        (effects (O.told sink.new) (C.seen cloud.new)) play.old play.new }
    ensures no_bad_line { result ≡ Err ShellFault.BadLine → ⊥ }
    ensures write_fault { result ≡ Err ShellFault.WriteFault
        → (O.told sink.old).faults < (O.told sink.new).faults }
    ensures writes { (result ≡ Err ShellFault.WriteFault)
        ⊎ ((O.told sink.new).faults ≡ (O.told sink.old).faults) }
{
    ended(run_event(alloc, play, sink, cloud, n, &Event::Close { session: 1 }))
}

/// The end of an event that was run, whatever its last reply.
fn ended(answer: Result<Reply, ShellFault>) -> Result<(), ShellFault>
    ensures { result ≡ ended answer }
{
    match answer {
        Ok(reply) => {
            let_go(reply);
            Ok(())
        }
        Err(fault) => Err(fault),
    }
}

/// The reply, where it was written.
fn shown(written: Result<(), OutputFault>, reply: Reply) -> Result<Reply, ShellFault>
    ensures { result ≡ shown_by written reply }
{
    match written {
        Ok(()) => Ok(reply),
        Err(OutputFault::WriteFault) => {
            let_go(reply);
            Err(ShellFault::WriteFault)
        }
        Err(OutputFault::Memory) => {
            let_go(reply);
            Err(ShellFault::Memory)
        }
    }
}

/// Runs an event to its answer, and writes the last reply under a number.
fn run_event<S: SessionCalls, O: Sink, C: Bench>(
    alloc: Global,
    play: &mut Play<S>,
    sink: &mut O,
    cloud: &mut C,
    n: u64,
    event: &Event,
) -> Result<Reply, ShellFault>
    ensures event { EventRan result n event.now (effects (O.told sink.old) (C.seen cloud.old), play.old)
        (effects (O.told sink.new) (C.seen cloud.new), play.new) }
    ensures write_fault { result ≡ Err ShellFault.WriteFault
        → (O.told sink.old).faults < (O.told sink.new).faults }
    ensures writes { (result ≡ Err ShellFault.WriteFault)
        ⊎ ((O.told sink.new).faults ≡ (O.told sink.old).faults) }
{
    match play.run_whole(alloc, cloud, event) {
        Ok(reply) => {
            let written = write_reply(alloc, sink, n, &reply);
            shown(written, reply)
        }
        Err(_) => Err(ShellFault::Memory),
    }
}
