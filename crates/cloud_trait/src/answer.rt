ghost use Rattle.std.specs.Prelude.{◌≡◌};

use crate::lease::Lease;
use crate::listing::PageList;
use crate::message::MessageList;
use db_base::blob::Blob;
use db_base::ids::MsgId;
use db_base::names::Lock;
use db_base::trouble::Trouble;

/// What a service call answered, whatever the call.
#[derive(Debug, Drop)]
pub enum Answer {
    /// A get: the bytes of a version, or none.
    Got(Option<Blob>),
    /// A send: the new message.
    Sent(MsgId),
    /// A receive.
    Received(MessageList),
    /// A listing of pages.
    Listed(PageList),
    /// A put, a removal, a deletion or a release.
    Done,
    /// A take of a free lock.
    Given(Lease),
    /// A take of a lock that is held until this moment, in ticks.
    Held(u64),
    /// A renewal: the new end, in ticks.
    Renewed(u64),
    /// A named lease was over: its end and the clock, in ticks.
    Late {
        /// The end of the lease.
        end: u64,
        /// The clock.
        now: u64,
    },
    /// The call failed. Its effect may have landed.
    Failed,
    /// Memory ran out. Nothing landed.
    Memory,
}

impl Answer {
    ghost use Rattle.cloud_trait.specs.Views.{trouble_of, got_of, sent_of, received_of, listed_of, done_of, given_of, renewed_of};

    /// The trouble of an answer that brought no value.
    pub fn trouble(self) -> Trouble
        ensures { result ≡ trouble_of self }
    {
        match self {
            Answer::Late { end, now } => Trouble::Late { end, now },
            Answer::Memory => Trouble::Memory,
            _ => Trouble::Failed,
        }
    }

    /// The bytes of a get, or the trouble.
    pub fn got(self) -> Result<Option<Blob>, Trouble>
        ensures { result ≡ got_of self }
    {
        match self {
            Answer::Got(bytes) => Ok(bytes),
            other => Err(other.trouble()),
        }
    }

    /// The sent message, or the trouble.
    pub fn sent(self) -> Result<MsgId, Trouble>
        ensures { result ≡ sent_of self }
    {
        match self {
            Answer::Sent(id) => Ok(id),
            other => Err(other.trouble()),
        }
    }

    /// The messages of a receive, or the trouble.
    pub fn received(self) -> Result<MessageList, Trouble>
        ensures { result ≡ received_of self }
    {
        match self {
            Answer::Received(messages) => Ok(messages),
            other => Err(other.trouble()),
        }
    }

    /// The pages of a listing, or the trouble.
    pub fn listed(self) -> Result<PageList, Trouble>
        ensures { result ≡ listed_of self }
    {
        match self {
            Answer::Listed(pages) => Ok(pages),
            other => Err(other.trouble()),
        }
    }

    /// That a put, a removal, a deletion or a release was done, or the trouble.
    pub fn done(self) -> Result<(), Trouble>
        ensures { result ≡ done_of self }
    {
        match self {
            Answer::Done => Ok(()),
            other => Err(other.trouble()),
        }
    }

    /// The lease of a take of this lock, or the trouble: Busy where it is held.
    pub fn given(self, lock: Lock) -> Result<Lease, Trouble>
        ensures { result ≡ given_of lock self }
    {
        match self {
            Answer::Given(lease) => Ok(lease),
            Answer::Held(until) => Err(Trouble::Busy { lock, until }),
            other => Err(other.trouble()),
        }
    }

    /// The new end of a lease, or the trouble.
    pub fn renewed(self) -> Result<u64, Trouble>
        ensures { result ≡ renewed_of self }
    {
        match self {
            Answer::Renewed(end) => Ok(end),
            other => Err(other.trouble()),
        }
    }
}
