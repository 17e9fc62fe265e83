ghost use Rattle.std.specs.Prelude.{◌≡◌, OnErr, length, IfOk, take};
ghost use Rattle.db_base.specs.declared.names.QueueName.{QueueName};
ghost use Rattle.cloud_trait.specs.Delivery.{unmarked};
ghost use Rattle.memory_cloud.specs.Maps.{messages_in, AddsMessage, MarksMessage};

use crate::queue::Queue;
use cloud_trait::message::Message;
use cloud_trait::state::Posted;
use db_base::ids::MsgId;
use db_base::names::QueueName;
use std::alloc::{AllocError, Global};
use std::collections::BTreeMap;

/// The messages of each queue, in order of sending.
pub type Queues = BTreeMap<QueueName, Queue>;

/// The messages of a queue, deleted or not.
pub fn messages<'a>(queues: &'a Queues, name: &QueueName) -> &'a [Posted]
    ensures { result.now ≡ messages_in queues.now name.now }
{
    match queues.get(name) {
        Some(queue) => queue.messages.as_slice(),
        None => &[],
    }
}

/// Adds a message at the end of a queue.
pub fn add_message(
    alloc: Global,
    queues: &mut Queues,
    name: &QueueName,
    message: Posted,
) -> Result<(), AllocError>
    ensures ok { AddsMessage result queues.old name.now message queues.new }
    ensures err { (q : QueueName) → OnErr result (messages_in queues.new q ≡ messages_in queues.old q) }
{
    if let Some(queue) = queues.get_mut(name) {
        queue.add(message)?;
        return Ok(());
    }
    let mut queue = Queue::new(alloc);
    queue.add(message)?;
    queues.insert(*name, queue)?;
    Ok(())
}

/// Marks a message of a queue as deleted. Takes no memory.
pub fn mark_message(queues: &mut Queues, name: &QueueName, id: MsgId)
    ensures { MarksMessage queues.old name.now id queues.new }
{
    if let Some(queue) = queues.get_mut(name) {
        queue.mark(id);
    }
}

/// Copies of the first so many messages of a queue that are not deleted.
pub fn first_messages(
    alloc: Global,
    queues: &Queues,
    name: &QueueName,
    most: usize,
) -> Result<Vec<Message>, AllocError>
    ensures { IfOk result (λ v. v.items ≡ take most (unmarked (messages_in queues.now name.now))) }
{
    match queues.get(name) {
        Some(queue) => queue.deliver(alloc, most),
        None => Ok(Vec::new(alloc)),
    }
}

/// How many messages of a queue are not deleted.
pub fn count_messages(queues: &Queues, name: &QueueName) -> u64
    ensures { result ≡ length (unmarked (messages_in queues.now name.now)) }
{
    match queues.get(name) {
        Some(queue) => queue.backlog(),
        None => 0,
    }
}
