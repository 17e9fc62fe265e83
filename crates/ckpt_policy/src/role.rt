/// By which rule a session picks the queues that it checkpoints; k is the ledger's number.
#[derive(Clone, Copy, Debug, PartialEq, Eq)]
pub enum Role {
    /// Those to which it sent at least k messages since it last checkpointed them.
    Writer,
    /// Those whose leaves it got at least k times since it last checkpointed them.
    Reader,
    /// The k that it checkpointed least often.
    Watchdog,
    /// Those whose page has the client's remainder by k.
    Owner,
}
