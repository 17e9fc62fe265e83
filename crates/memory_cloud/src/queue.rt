ghost use Rattle.std.specs.Prelude.{◌≡◌, ◌==◌, ◌++◌, ◌∷◌, [], length, take, OnOk, OnErr, IfOk};
ghost use Rattle.std.specs.List.{position};
ghost use Rattle.cloud_trait.specs.State.{mark_at};
ghost use Rattle.memory_cloud.specs.Choice.{open_from};

use crate::copies::{add_chosen, copy_chosen};
use cloud_trait::message::Message;
use cloud_trait::state::Posted;
use db_base::ids::MsgId;
use std::alloc::{AllocError, Global};
use std::collections::VecDeque;

/// The messages that were sent to a queue, and the numbers of those that are not deleted, so that a receive
/// does not walk over what is gone, and a deletion of the first one moves no other.
#[derive(Drop)]
pub struct Queue {
    pub messages: Vec<Posted>,
    pub kept: VecDeque<u64>,
    ghost kept_are: { kept.items ≡ open_from 1 messages.items },
}

impl Queue {
    ghost use Rattle.cloud_trait.specs.State.{marked};
    ghost use Rattle.cloud_trait.specs.Delivery.{unmarked};

    /// No message. Takes no memory.
    pub fn new(alloc: Global) -> Queue
        ensures { result.messages.items ≡ [] }
    {
        Queue {
            messages: Vec::new(alloc),
            kept: VecDeque::new(alloc),
        }
    }

    /// Adds a message at the end.
    pub fn add(&mut self, message: Posted) -> Result<(), AllocError>
        ensures ok { OnOk result (self.new.messages.items ≡ self.old.messages.items ++ message ∷ []) }
        ensures err { OnErr result (self.new.messages.items ≡ self.old.messages.items) }
    {
        self.kept.reserve(1)?;
        let is_open = !message.deleted;
        self.messages.push(message)?;
        if is_open {
            self.kept.push_back_reserved(self.messages.len() as u64);
        }
        Ok(())
    }

    /// Marks a message as deleted. Takes no memory.
    pub fn mark(&mut self, id: MsgId)
        ensures { self.new.messages.items ≡ marked self.old.messages.items id }
    {
        let number = id.get();
        if number == 0 {
            return;
        }
        if let Some(place) = place_of(&self.kept, number) {
            self.kept.remove(place);
            mark_in(&mut self.messages, (number - 1) as usize);
        }
    }

    /// Copies of the first so many messages that are not deleted.
    pub fn deliver(&self, alloc: Global, most: usize) -> Result<Vec<Message>, AllocError>
        ensures { IfOk result (λ v. v.items ≡ take most (unmarked self.now.messages.items)) }
    {
        let messages = self.messages.as_slice();
        let (front, back) = self.kept.as_slices();
        let mut out = copy_chosen(alloc, messages, front, most)?;
        add_chosen(alloc, &mut out, messages, back, most)?;
        Ok(out)
    }

    /// How many messages are not deleted.
    pub fn backlog(&self) -> u64
        ensures { result ≡ length (unmarked self.now.messages.items) }
    {
        self.kept.len() as u64
    }
}

/// Where a number stands first.
fn place_of(numbers: &VecDeque<u64>, number: u64) -> Option<usize>
    ensures { result ≡ position (λ k. k == number) numbers.now.items }
{
    numbers.iter().position(|other| *other == number)
}

/// Marks the message at a place as deleted, where there is one.
fn mark_in(messages: &mut Vec<Posted>, at: usize)
    ensures { messages.new.items ≡ mark_at messages.old.items at }
{
    if at < messages.len() {
        messages[at].deleted = true;
    }
}
