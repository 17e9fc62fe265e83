//! What a receive brings.

ghost use Rattle.std.specs.Prelude.{◌≡◌, Some, IfOk, IfErr};
ghost use Rattle.log_codec.specs.Pu.{pu_of};
ghost use Rattle.ckpt_parts.specs.Intakes.{ids_of, item_with, items_of, message_damage, Faults, FaultsAt, TakesIn, TakesRun};
ghost use Rattle.ckpt_parts.specs.Unless.{UnlessMemory};

use crate::deletions::Deletions;
use crate::fault::Fault;
use cloud_trait::message::Message;
use db_base::cursor::Cursor;
use db_base::ids::MsgId;
use db_base::names::{Place, QueueName};
use db_base::trouble::Trouble;
use log_codec::fault::RecFault;
use log_codec::record::{PuItem, PuRec};
use run_cursor::run::{Run, take_received};
use std::alloc::{AllocError, Global};

/// The most messages of one receive.
pub const MAX_MESSAGES: u16 = 256;

/// The run of a receive, and the deletions of the messages that its top covers.
#[derive(Drop)]
pub struct Intake {
    /// The records that are applied, in the order in which they are.
    pub run: Run,
    /// The messages whose numbers are at most the run's top, each once.
    pub deletions: Deletions,
}

/// The ids of messages, in order of receipt.
pub fn ids_of(alloc: Global, messages: &[Message]) -> Result<Vec<MsgId>, AllocError>
    ensures { IfOk result (λ ids. ids.items ≡ ids_of messages.now) }
{
    let mut ids = Vec::new(alloc);
    let mut left = messages;
    while let Some((message, rest)) = left.split_first() {
        ids.push(message.id)?;
        left = rest;
    }
    Ok(ids)
}

/// The record of a message of a queue.
fn item_of(alloc: Global, queue: &QueueName, message: &Message) -> Result<PuItem, Fault>
    ensures record { IfOk result (λ x. pu_of message.now.bytes ≡ Some x.rec) }
    ensures item { IfOk result (λ x. x ≡ item_with message.now.id x.rec) }
    ensures err { IfErr result (λ t. FaultsAt queue.now t message.now) }
{
    match PuRec::read(alloc, message.bytes.as_slice()) {
        Ok(rec) => Ok(PuItem {
            id: message.id,
            rec,
        }),
        Err(RecFault::NotRecord { offset }) => Err(Fault::Stops(Trouble::Damaged {
            place: Place::Message(*queue, message.id),
            offset,
        })),
        Err(RecFault::Memory) => Err(Fault::Memory),
    }
}

/// The records of messages of a queue, in order of receipt. The first message that is none is damage.
fn items_of(alloc: Global, queue: &QueueName, messages: &[Message]) -> Result<Vec<PuItem>, Fault>
    ensures ok { IfOk result (λ items. items_of messages.now ≡ Ok items.items) }
    ensures err { IfErr result (λ t. Faults queue.now t (items_of messages.now)) }
{
    let mut items = Vec::new(alloc);
    let mut left = messages;
    while let Some((message, rest)) = left.split_first() {
        let item = item_of(alloc, queue, message)?;
        if items.push(item).is_err() {
            return Err(Fault::Memory);
        }
        left = rest;
    }
    Ok(items)
}

/// The run of items behind a cursor, and what its top covers. Refused for memory alone.
fn run_of(alloc: Global, cursor: &Cursor, items: Vec<PuItem>) -> Result<Intake, Fault>
    ensures { UnlessMemory (TakesRun cursor.now items.items) result }
{
    match take_received(alloc, cursor, items) {
        Ok((run, ids)) => Ok(Intake {
            run,
            deletions: Deletions::of(ids),
        }),
        Err(_) => Err(Fault::Memory),
    }
}

/// The run of received messages behind a cursor, and the deletions of what its top covers. The first message that is no
/// pending update record is damage.
pub fn take_in(
    alloc: Global,
    queue: &QueueName,
    cursor: &Cursor,
    messages: &[Message],
) -> Result<Intake, Fault>
    ensures { UnlessMemory (TakesIn queue.now cursor.now messages.now) result }
{
    let items = items_of(alloc, queue, messages)?;
    run_of(alloc, cursor, items)
}
