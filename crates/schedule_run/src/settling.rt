ghost use Rattle.std.specs.Prelude.{◌≡◌, ◌<◌, ◌⊎◌, true, Err};
ghost use Rattle.schedule_run.specs.Outside.{effects};
ghost use Rattle.schedule_run.specs.Play.{IsFresh};
ghost use Rattle.schedule_run.specs.Settling.{settled_by, settle_end_of, SettleEnded};

use crate::play::Play;
use crate::writing::{let_go, write_reply};
use client_session::session::Session;
use client_work::calls::SessionCalls;
use cloud_trait::cloud::Bench;
use db_io::output::OutputFault;
use db_io::sink::Sink;
use event_text::event::Event;
use reply_text::reply::Reply;
use std::alloc::Global;

/// Why a settling did not end well.
#[derive(Clone, Copy, Debug, PartialEq, Eq)]
pub enum SettleFault {
    /// It stopped, and its reply is written.
    NotSettled,
    /// A write failed.
    WriteFault,
    /// Memory ran out.
    Memory,
}

/// Settles what is in the cloud, and writes the reply under number 1.
pub fn settle<O: Sink, C: Bench>(
    alloc: Global,
    sink: &mut O,
    cloud: &mut C,
) -> Result<(), SettleFault>
    ensures write_fault { result ≡ Err SettleFault.WriteFault
        → (O.told sink.old).faults < (O.told sink.new).faults }
    ensures writes { (result ≡ Err SettleFault.WriteFault)
        ⊎ ((O.told sink.new).faults ≡ (O.told sink.old).faults) }
    ensures went { SettleEnded result (effects (O.told sink.old) (C.seen cloud.old))
        (effects (O.told sink.new) (C.seen cloud.new)) }
{
    match Play::<Session>::unseeing(alloc) {
        Ok(mut play) => settle_in(alloc, &mut play, sink, cloud),
        Err(_) => Err(SettleFault::Memory),
    }
}

/// Settles in a new world, which looks at no put.
fn settle_in<S: SessionCalls, O: Sink, C: Bench>(
    alloc: Global,
    play: &mut Play<S>,
    sink: &mut O,
    cloud: &mut C,
) -> Result<(), SettleFault>
    requires { IsFresh true play.old }
    ensures write_fault { result ≡ Err SettleFault.WriteFault
        → (O.told sink.old).faults < (O.told sink.new).faults }
    ensures writes { (result ≡ Err SettleFault.WriteFault)
        ⊎ ((O.told sink.new).faults ≡ (O.told sink.old).faults) }
    ensures went { SettleEnded result (effects (O.told sink.old) (C.seen cloud.old))
        (effects (O.told sink.new) (C.seen cloud.new)) }
{
    match play.take(alloc, cloud, &Event::Settle) {
        Ok(reply) => {
            let written = write_reply(alloc, sink, 1, &reply);
            let end = end_of(written, &reply);
            let_go(reply);
            end
        }
        Err(_) => Err(SettleFault::Memory),
    }
}

/// How a settling of this reply ends, by how the reply was written.
fn end_of(written: Result<(), OutputFault>, reply: &Reply) -> Result<(), SettleFault>
    ensures { result ≡ settle_end_of written reply.now }
{
    match written {
        Ok(()) => settled(reply),
        Err(OutputFault::WriteFault) => Err(SettleFault::WriteFault),
        Err(OutputFault::Memory) => Err(SettleFault::Memory),
    }
}

/// Whether a reply says that the settling is done.
fn settled(reply: &Reply) -> Result<(), SettleFault>
    ensures { result ≡ settled_by reply.now }
{
    match reply {
        Reply::Settled { .. } => Ok(()),
        _ => Err(SettleFault::NotSettled),
    }
}
