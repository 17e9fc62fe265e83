ghost use Rattle.std.specs.Prelude.{◌≡◌, [], ◌+◌, ◌^◌, ◌-◌, OnOk, OnErr, IfErr, ◌≤◌};
ghost use Rattle.head_codec.specs.Head.{empty_head, next_head};

use crate::lists::{CounterList, PendingList};
use std::alloc::{AllocError, Global};

/// Whether a commit of the client is under way.
#[derive(Clone, Copy, Debug, PartialEq, Eq)]
pub enum Phase {
    /// None is.
    Settled,
    /// The commit of this many records, 1 to 200, is: it is committed, and its records may not all be in their queues.
    Open(u8),
}

/// The head of a client.
#[derive(Debug)]
pub struct Head {
    /// The epoch: each opening raises it by one. An absent head has 0.
    pub epoch: u64,
    /// The newest transaction of the epoch, 0 where there is none.
    pub txn: u64,
    /// Whether that transaction is under way.
    pub phase: Phase,
    /// The last numbers that the client used.
    pub counters: CounterList,
    /// The client's records that it does not know applied.
    pub pending: PendingList,
}

impl Drop for Head {
    fn drop(self) {
        let Head {
            epoch: _,
            txn: _,
            phase: _,
            counters: _,
            pending: _,
        } = self;
    }
}

/// Why a head was refused.
#[derive(Clone, Copy, Debug, PartialEq, Eq)]
pub enum HeadFault {
    /// The bytes are in no head's spelling; the offset in bytes.
    NotHead { offset: u64 },
    /// The epoch stands at the greatest u64.
    Exhausted,
    /// Memory ran out.
    Memory,
}

impl From<AllocError> for HeadFault {
    ghost use Rattle.std.specs.Prelude.{◌≡◌};
    ghost use Rattle.head_codec.specs.declared.head.HeadFault.TheVariants.{Memory};

    ghost from_gives = { λ _ e. e ≡ Memory };

    fn from(_error: AllocError) -> Self {
        HeadFault::Memory
    }
}

impl Head {
    ghost use Rattle.head_codec.specs.Head.{empty_head, next_head};

    /// The absent head. It has no spelling.
    pub fn empty(alloc: Global) -> Head
        ensures { result ≡ empty_head }
    {
        Head {
            epoch: 0,
            txn: 0,
            phase: Phase::Settled,
            counters: CounterList::new(alloc),
            pending: PendingList::new(alloc),
        }
    }

    /// Begins the next epoch: no transaction yet, and settled. Exhausted exactly at the greatest u64, and then nothing changes.
    pub fn next_epoch(&mut self) -> Result<(), HeadFault>
        ensures ok { OnOk result (self.new ≡ next_head self.old) }
        ensures err { OnErr result (self.new ≡ self.old) }
        ensures exhausted { IfErr result (λ e. (e ≡ HeadFault.Exhausted) × (self.old.epoch ≡ 2 ^ 64 - 1)) }
        ensures good { OnOk result (self.old.epoch + 1 ≤ 2 ^ 64 - 1) }
    {
        if self.epoch == u64::MAX {
            return Err(HeadFault::Exhausted);
        }
        self.epoch += 1;
        self.txn = 0;
        self.phase = Phase::Settled;
        Ok(())
    }
}
