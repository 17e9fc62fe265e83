ghost use Rattle.std.specs.Prelude.{◌≡◌, Ok, Some, IfOk, IfErr};
ghost use Rattle.log_codec.specs.Atomic.{atomic_of, HasPlace};
ghost use Rattle.recover_run.specs.Items.{items_of, ids_of, item_with, Faults, FaultsAt};
ghost use Rattle.recover_run.specs.Kept.{AllPlaced};

use cloud_trait::message::Message;
use db_base::ids::MsgId;
use db_base::names::{Place, QueueName};
use db_base::trouble::Trouble;
use log_codec::fault::RecFault;
use log_codec::record::AtomicRec;
use std::alloc::{AllocError, Global};

/// An ATOMIC record as it was received.
pub struct AtomicItem {
    /// The message.
    pub id: MsgId,
    /// Its record.
    pub rec: AtomicRec,
}

impl Drop for AtomicItem {
    fn drop(self) {
        let AtomicItem { id: _, rec: _ } = self;
    }
}

/// Why received messages are no records.
#[derive(Drop)]
pub(crate) enum ItemFault {
    /// A message is in no record's spelling.
    NotRecord(Trouble),
    /// Memory ran out.
    Memory,
}

/// The record of a message of a queue.
fn item_of(alloc: Global, queue: &QueueName, message: &Message) -> Result<AtomicItem, ItemFault>
    ensures record { IfOk result (λ x. atomic_of message.now.bytes ≡ Some x.rec) }
    ensures item { IfOk result (λ x. x ≡ item_with message.now.id x.rec) }
    ensures placed { IfOk result (λ x. HasPlace x.rec) }
    ensures err { IfErr result (λ e. FaultsAt queue.now e message.now) }
{
    match AtomicRec::read(alloc, message.bytes.as_slice()) {
        Ok(rec) => Ok(AtomicItem {
            id: message.id,
            rec,
        }),
        Err(RecFault::NotRecord { offset }) => {
            Err(ItemFault::NotRecord(Trouble::Damaged {
                place: Place::Message(*queue, message.id),
                offset,
            }))
        }
        Err(RecFault::Memory) => Err(ItemFault::Memory),
    }
}

/// The records of messages of a queue, in order of receipt, or the first message that is none.
pub(crate) fn items_of(
    alloc: Global,
    queue: &QueueName,
    messages: &[Message],
) -> Result<Vec<AtomicItem>, ItemFault>
    ensures ok { IfOk result (λ items. items_of messages.now ≡ Ok items.items) }
    ensures placed { IfOk result (λ items. AllPlaced items.items) }
    ensures err { IfErr result (λ e. Faults queue.now e (items_of messages.now)) }
{
    let mut items = Vec::new(alloc);
    let mut left = messages;
    while let Some((message, rest)) = left.split_first() {
        let item = item_of(alloc, queue, message)?;
        if items.push(item).is_err() {
            return Err(ItemFault::Memory);
        }
        left = rest;
    }
    Ok(items)
}

/// The ids of messages, in their order.
pub(crate) fn ids_of(alloc: Global, items: &[AtomicItem]) -> Result<Vec<MsgId>, AllocError>
    ensures { IfOk result (λ ids. ids.items ≡ ids_of items.now) }
{
    items.iter().map(|x| x.id).collect(alloc)
}
