ghost use Rattle.std.specs.Prelude.{◌≡◌, IfOk};
ghost use Rattle.recover_run.specs.Gathering.{count_of, wanted_of, is_of, is_past, is_counted, is_lost, lost_ids, past_ids};

use crate::items::AtomicItem;
use db_base::ids::MsgId;
use head_codec::head::{Head, Phase};
use log_codec::record::AtomicRec;
use std::alloc::{AllocError, Global};

/// What a head says of the records that are to be gathered.
#[derive(Clone, Copy, Debug, PartialEq, Eq)]
pub struct Wanted {
    /// The head's epoch.
    pub epoch: u64,
    /// Its transaction.
    pub txn: u64,
    /// How many records it counts, 0 where it is settled.
    pub count: u8,
}

impl Wanted {
    /// What a head wants.
    pub fn of(head: &Head) -> Wanted
        ensures { result ≡ wanted_of head.now }
    {
        let count = match head.phase {
            Phase::Settled => 0,
            Phase::Open(count) => count,
        };
        Wanted {
            epoch: head.epoch,
            txn: head.txn,
            count,
        }
    }

    /// Whether a record is of the head's epoch and transaction.
    fn is_of(self, rec: &AtomicRec) -> bool
        ensures { result ≡ is_of self rec.now }
    {
        rec.epoch == self.epoch && rec.txn == self.txn
    }

    /// Whether a record is of an epoch that is not later than the head's.
    fn is_past(self, rec: &AtomicRec) -> bool
        ensures { result ≡ is_past self rec.now }
    {
        rec.epoch <= self.epoch
    }

    /// Whether a record is one of those that the head counts.
    pub fn counts(self, rec: &AtomicRec) -> bool
        ensures { result ≡ is_counted self rec.now }
    {
        self.is_of(rec) && rec.index <= self.count
    }

    /// Whether a record is of a past epoch and not of the head's transaction.
    fn is_lost(self, rec: &AtomicRec) -> bool
        ensures { result ≡ is_lost self rec.now }
    {
        self.is_past(rec) && !self.is_of(rec)
    }

    /// The ids of the messages of lost records, in order of receipt.
    pub(crate) fn lost_ids(
        self,
        alloc: Global,
        items: &[AtomicItem],
    ) -> Result<Vec<MsgId>, AllocError>
        ensures { IfOk result (λ ids. ids.items ≡ lost_ids self items.now) }
    {
        let mut ids = Vec::new(alloc);
        let mut left = items;
        while let Some((item, rest)) = left.split_first() {
            if self.is_lost(&item.rec) {
                ids.push(item.id)?;
            }
            left = rest;
        }
        Ok(ids)
    }

    /// The ids of the messages of records that are not of a later epoch, in order of receipt.
    pub(crate) fn past_ids(
        self,
        alloc: Global,
        items: &[AtomicItem],
    ) -> Result<Vec<MsgId>, AllocError>
        ensures { IfOk result (λ ids. ids.items ≡ past_ids self items.now) }
    {
        let mut ids = Vec::new(alloc);
        let mut left = items;
        while let Some((item, rest)) = left.split_first() {
            if self.is_past(&item.rec) {
                ids.push(item.id)?;
            }
            left = rest;
        }
        Ok(ids)
    }
}
