use db_base::blob::Blob;
use db_base::ids::MsgId;
use db_base::sequence::Sequence;

/// A message as a receive hands it out.
#[derive(Debug)]
pub struct Message {
    /// Its position among all that were ever sent to the queue.
    pub id: MsgId,
    /// What was sent.
    pub bytes: Blob,
}

impl Drop for Message {
    fn drop(self) {
        let Message { id: _, bytes: _ } = self;
    }
}

/// The messages of a receive.
pub type MessageList = Sequence<Message>;
