ghost use Rattle.std.specs.Prelude.{◌≡◌};
ghost use Rattle.std.specs.Option.{option_copied};
ghost use Rattle.cloud_trait.specs.Call.{ask_of, kind_of, target_of, bytes_of};

use crate::lease::Lease;
use db_base::ids::{MsgId, TreeId};
use db_base::names::{Lock, ObjName, QueueName};

/// A service call, as a machine has it in hand.
#[derive(Drop)]
pub enum Call<'a> {
    /// Reads an object.
    Get(ObjName),
    /// Reads an object under a lease.
    GetHeld(ObjName, &'a Lease),
    /// Puts an object under one or two leases.
    PutHeld(ObjName, &'a [u8], &'a Lease, Option<&'a Lease>),
    /// Lists the pages of a tree under a lease.
    ListHeld(TreeId, &'a Lease),
    /// Removes an object under a lease.
    RemoveHeld(ObjName, &'a Lease),
    /// Sends a message.
    Send(QueueName, &'a [u8]),
    /// Receives at most so many messages.
    Receive(QueueName, u16),
    /// Deletes a message.
    Delete(QueueName, MsgId),
    /// Takes a lock for some ticks.
    Take(Lock, u64),
    /// Renews a lease for some ticks.
    Renew(&'a Lease, u64),
    /// Gives a lease back.
    Release(&'a Lease),
}

/// The kind of a service call.
#[derive(Clone, Copy, Debug, PartialEq, Eq)]
pub enum CallKind {
    /// A read of an object.
    Get,
    /// A read of an object under a lease.
    GetHeld,
    /// A put of an object under leases.
    PutHeld,
    /// A listing of a tree's pages under a lease.
    ListHeld,
    /// A removal of an object under a lease.
    RemoveHeld,
    /// A send to a queue.
    Send,
    /// A receive from a queue.
    Receive,
    /// A deletion of a message.
    Delete,
    /// A take of a lock.
    Take,
    /// A renewal of a lease.
    Renew,
    /// A release of a lease.
    Release,
}

/// What a service call is about.
#[derive(Clone, Copy, Debug, PartialEq, Eq)]
pub enum Target {
    /// An object.
    Object(ObjName),
    /// A queue.
    Queue(QueueName),
    /// A message of a queue.
    Message(QueueName, MsgId),
    /// A lock.
    Lock(Lock),
}

impl<'a> Call<'a> {
    /// The kind.
    pub fn kind(&self) -> CallKind
        ensures { result ≡ kind_of (ask_of self.now) }
    {
        match self {
            Call::Get(_) => CallKind::Get,
            Call::GetHeld(_, _) => CallKind::GetHeld,
            Call::PutHeld(_, _, _, _) => CallKind::PutHeld,
            Call::ListHeld(_, _) => CallKind::ListHeld,
            Call::RemoveHeld(_, _) => CallKind::RemoveHeld,
            Call::Send(_, _) => CallKind::Send,
            Call::Receive(_, _) => CallKind::Receive,
            Call::Delete(_, _) => CallKind::Delete,
            Call::Take(_, _) => CallKind::Take,
            Call::Renew(_, _) => CallKind::Renew,
            Call::Release(_) => CallKind::Release,
        }
    }

    /// What it is about: a listing, the object of its tree.
    pub fn name(&self) -> Target
        ensures { result ≡ target_of (ask_of self.now) }
    {
        match self {
            Call::Get(name) => Target::Object(*name),
            Call::GetHeld(name, _) => Target::Object(*name),
            Call::PutHeld(name, _, _, _) => Target::Object(*name),
            Call::ListHeld(tree, _) => Target::Object(ObjName::Tree(*tree)),
            Call::RemoveHeld(name, _) => Target::Object(*name),
            Call::Send(queue, _) => Target::Queue(*queue),
            Call::Receive(queue, _) => Target::Queue(*queue),
            Call::Delete(queue, id) => Target::Message(*queue, *id),
            Call::Take(lock, _) => Target::Lock(*lock),
            Call::Renew(lease, _) => Target::Lock(lease.lock()),
            Call::Release(lease) => Target::Lock(lease.lock()),
        }
    }

    /// The bytes of a put or a send, and none of any other call.
    pub fn bytes(&self) -> Option<&'a [u8]>
        ensures { option_copied result ≡ bytes_of (ask_of self.now) }
    {
        match self {
            Call::PutHeld(_, bytes, _, _) => Some(bytes),
            Call::Send(_, bytes) => Some(bytes),
            _ => None,
        }
    }
}
