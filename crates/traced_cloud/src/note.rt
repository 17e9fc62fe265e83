//! A note of a service call: who made it, what it asked, and what it answered.

ghost use Rattle.std.specs.Prelude.{◌≡◌, map, IfOk};
ghost use Rattle.cloud_trait.specs.Call.{ask_of};
ghost use Rattle.cloud_trait.specs.Answers.{fault_answer, held_fault_answer};
ghost use Rattle.cloud_trait.specs.declared.message.Message.{Message};
ghost use Rattle.traced_cloud.specs.Note.{limit_of, done_outcome, fault_outcome, held_outcome, read_outcome};

use crate::stamp::Stamp;
use cloud_trait::call::{Call, CallKind, Target};
use cloud_trait::fault::{CloudFault, HeldFault};
use cloud_trait::message::Message;
use cloud_trait::who::Who;
use db_base::blob::Blob;
use db_base::ids::MsgId;
use db_base::sequence::Sequence;
use std::alloc::{AllocError, Global};

/// What a call answered, without bytes.
#[derive(Debug)]
pub enum Outcome {
    /// A get brought bytes.
    Read,
    /// A get found none.
    Absent,
    /// A put was done.
    Landed,
    /// A removal, a deletion or a release was done.
    Done,
    /// A send: the new message.
    Sent(MsgId),
    /// A receive: the messages, in order.
    Received(Sequence<MsgId>),
    /// A listing: how many pages.
    Listed(u64),
    /// A take: the end of the lease, in ticks.
    Given(u64),
    /// A take of a lock that is held until then, in ticks.
    Held(u64),
    /// A renewal: the new end, in ticks.
    Renewed(u64),
    /// A named lease was over: its end and the clock, in ticks.
    Late {
        /// The end of the lease.
        end: u64,
        /// The clock.
        now: u64,
    },
    /// The call failed. Its effect may have landed.
    Failed,
    /// Memory ran out. Nothing landed.
    Memory,
}

impl Drop for Outcome {
    fn drop(self) {
        match self {
            Outcome::Read => {}
            Outcome::Absent => {}
            Outcome::Landed => {}
            Outcome::Done => {}
            Outcome::Sent(_) => {}
            Outcome::Received(_) => {}
            Outcome::Listed(_) => {}
            Outcome::Given(_) => {}
            Outcome::Held(_) => {}
            Outcome::Renewed(_) => {}
            Outcome::Late { end: _, now: _ } => {}
            Outcome::Failed => {}
            Outcome::Memory => {}
        }
    }
}

/// A service call that was made.
#[derive(Debug)]
pub struct Note {
    /// Who made it.
    pub who: Who,
    /// What it did.
    pub kind: CallKind,
    /// To what.
    pub target: Target,
    /// How many messages it wanted, or for how many ticks.
    pub limit: Option<u64>,
    /// What the object says of itself that it put or got.
    pub stamp: Option<Stamp>,
    /// What it answered.
    pub outcome: Outcome,
}

impl Drop for Note {
    fn drop(self) {
        let Note {
            who: _,
            kind: _,
            target: _,
            limit: _,
            stamp: _,
            outcome: _,
        } = self;
    }
}

/// How many messages a call wants, or for how many ticks.
pub(crate) fn limit_of(call: &Call<'_>) -> Option<u64>
    ensures { result ≡ limit_of (ask_of call.now) }
{
    match call {
        Call::Receive(_, most) => Some(u64::from(*most)),
        Call::Take(_, ticks) => Some(*ticks),
        Call::Renew(_, ticks) => Some(*ticks),
        _ => None,
    }
}

/// What a get that brought this answered.
pub(crate) fn read_outcome(bytes: &Option<Blob>) -> Outcome
    ensures { result ≡ read_outcome bytes.now }
{
    match bytes {
        Some(_) => Outcome::Read,
        None => Outcome::Absent,
    }
}

/// What a call of this kind that was done answered.
pub(crate) fn done_outcome(kind: CallKind) -> Outcome
    ensures { result ≡ done_outcome kind }
{
    match kind {
        CallKind::PutHeld => Outcome::Landed,
        _ => Outcome::Done,
    }
}

/// What a call that had this fault answered.
pub(crate) fn fault_outcome(fault: CloudFault) -> Outcome
    ensures { result ≡ fault_outcome fault }
{
    match fault {
        CloudFault::Failed => Outcome::Failed,
        CloudFault::Memory => Outcome::Memory,
    }
}

/// The same of a call under a lease.
pub(crate) fn held_outcome(fault: HeldFault) -> Outcome
    ensures { result ≡ held_outcome fault }
{
    match fault {
        HeldFault::Failed => Outcome::Failed,
        HeldFault::Late { end, now } => Outcome::Late { end, now },
        HeldFault::Memory => Outcome::Memory,
    }
}

/// The numbers of messages.
pub(crate) fn ids_of(alloc: Global, messages: &[Message]) -> Result<Sequence<MsgId>, AllocError>
    ensures { IfOk result (λ ids. ids ≡ map (λ (m : Message). m.id) messages.now) }
{
    let mut ids = Sequence::new(alloc);
    for message in messages {
        ids.push(message.id)?;
    }
    Ok(ids)
}
