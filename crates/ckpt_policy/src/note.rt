ghost use Rattle.std.specs.Prelude.{◌≡◌};
ghost use Rattle.ckpt_policy.specs.Notes.{queue_of};

use db_base::names::QueueName;

/// What a session did that counts for the choice of its checkpoints.
#[derive(Clone, Copy, Debug, PartialEq, Eq)]
pub enum Note {
    /// It sent a message to a pending update queue.
    Sent(QueueName),
    /// It got the page of a queue.
    Got(QueueName),
    /// Its checkpoint of a queue was done.
    Kept(QueueName),
}

impl Note {
    /// The queue that it names.
    pub fn queue(&self) -> QueueName
        ensures { result ≡ queue_of self.now }
    {
        match *self {
            Note::Sent(queue) => queue,
            Note::Got(queue) => queue,
            Note::Kept(queue) => queue,
        }
    }
}
