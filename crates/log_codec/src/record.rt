ghost use Rattle.std.specs.Prelude.{◌≡◌, IfOk};
ghost use Rattle.db_base.specs.Change.{IsChange};

use db_base::change::Change;
use db_base::ids::{ClientId, MsgId, TreeId};
use std::alloc::{AllocError, Global};

/// A record of a commit as it stands in the ATOMIC queue of its client.
#[derive(Debug)]
pub struct AtomicRec {
    /// Whose commit it is.
    pub client: ClientId,
    /// The epoch of the client, at least 1.
    pub epoch: u64,
    /// The transaction within the epoch, at least 1.
    pub txn: u64,
    /// The place of the record within the transaction, from 1.
    pub index: u8,
    /// How many records the transaction has, at most 200.
    pub count: u8,
    /// The tree of the record's pending update queue.
    pub tree: TreeId,
    /// The leaf of that queue, 0 for the tree queue.
    pub page: u64,
    /// The number of the record in that queue, counted by client from 1.
    pub number: u64,
    /// What it changes.
    pub change: Change,
}

impl Drop for AtomicRec {
    fn drop(self) {
        let AtomicRec {
            client: _,
            epoch: _,
            txn: _,
            index: _,
            count: _,
            tree: _,
            page: _,
            number: _,
            change: _,
        } = self;
    }
}

/// A record of a commit as it stands in a pending update queue.
#[derive(Debug)]
pub struct PuRec {
    /// Whose commit it is.
    pub client: ClientId,
    /// The epoch of the client, at least 1.
    pub epoch: u64,
    /// The transaction within the epoch, at least 1.
    pub txn: u64,
    /// The number of the record in its queue, counted by client from 1.
    pub number: u64,
    /// What it changes.
    pub change: Change,
}

impl Drop for PuRec {
    fn drop(self) {
        let PuRec {
            client: _,
            epoch: _,
            txn: _,
            number: _,
            change: _,
        } = self;
    }
}

/// A pending update record as it was received.
#[derive(Debug)]
pub struct PuItem {
    /// The message.
    pub id: MsgId,
    /// Its record.
    pub rec: PuRec,
}

impl Drop for PuItem {
    fn drop(self) {
        let PuItem { id: _, rec: _ } = self;
    }
}

impl PuRec {
    /// A copy. Fails for memory alone.
    pub fn copied(&self, alloc: Global) -> Result<PuRec, AllocError>
        ensures same { IfOk result (λ r. r ≡ self.now) }
        ensures is_change { IfOk result (λ _. IsChange self.now.change) }
    {
        Ok(PuRec {
            client: self.client,
            epoch: self.epoch,
            txn: self.txn,
            number: self.number,
            change: self.change.copied(alloc)?,
        })
    }
}

impl PuItem {
    /// A copy. Fails for memory alone.
    pub fn copied(&self, alloc: Global) -> Result<PuItem, AllocError>
        ensures same { IfOk result (λ x. x ≡ self.now) }
        ensures is_change { IfOk result (λ _. IsChange self.now.rec.change) }
    {
        Ok(PuItem {
            id: self.id,
            rec: self.rec.copied(alloc)?,
        })
    }
}
