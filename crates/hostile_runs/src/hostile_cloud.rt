//! The cloud.

ghost use Rattle.std.specs.Prelude.{◌≡◌, ◌<◌};

use crate::liar::{Fate, Liar};
use crate::witness::Witness;
use cloud_trait::cloud::Cloud;
use cloud_trait::fault::{CloudFault, HeldFault};
use cloud_trait::grant::Grant;
use cloud_trait::lease::Lease;
use cloud_trait::message::Message;
use cloud_trait::who::Who;
use db_base::blob::Blob;
use db_base::ids::{MsgId, PageId, TreeId};
use db_base::names::{Lock, ObjName, QueueName};
use std::alloc::Global;

/// A cloud that tells what it answered.
pub(crate) trait Hostile: Cloud {
    /// A machine begins.
    fn begin(&mut self);

    /// What it answered.
    fn witness(&self) -> &Witness;

    /// How many leases were given out and did not come back.
    fn owed(&self) -> u64;
}

/// How often a call failed.
#[derive(Drop)]
struct Faults {
    count: u64,
}

impl Faults {
    /// One more; for want of memory where the count can't rise.
    fn add(&mut self) -> CloudFault
        ensures failed { result ≡ CloudFault.Failed → self.old.count < self.new.count }
        ensures memory { result ≡ CloudFault.Memory → self.new ≡ self.old }
    {
        if self.count == u64::MAX {
            return CloudFault::Memory;
        }
        self.count += 1;
        CloudFault::Failed
    }
}

/// A cloud that keeps nothing and lies.
#[derive(Drop)]
pub(crate) struct HostileCloud {
    faults: Faults,
    liar: Liar,
}

impl HostileCloud {
    /// The cloud of a number.
    pub(crate) fn new(alloc: Global, number: u64) -> HostileCloud {
        HostileCloud {
            faults: Faults { count: 0 },
            liar: Liar::new(alloc, number),
        }
    }
}

impl Hostile for HostileCloud {
    fn begin(&mut self) {
        self.liar.witness.begin();
    }

    fn witness(&self) -> &Witness {
        &self.liar.witness
    }

    fn owed(&self) -> u64 {
        self.liar.owed
    }
}

impl Cloud for HostileCloud {
    ghost use Rattle.std.specs.Prelude.{None};
    ghost use Rattle.cloud_trait.specs.Seen.{Seen};

    ghost seen = { λ c. record { counts = record { faults = c.faults.count; withheld = 0; stale = 0; dark = 0 }; state = None; heard = None; shown = None } };

    fn now(&self) -> u64 {
        0
    }

    fn get(&mut self, _who: Who, name: ObjName) -> Result<Option<Blob>, CloudFault> {
        self.liar.witness.ask(name)?;
        match self.liar.fate() {
            Fate::Fails => Err(self.faults.add()),
            Fate::Starves => Err(CloudFault::Memory),
            fate => Ok(self.liar.object(name, fate)?),
        }
    }

    fn get_held(
        &mut self,
        _who: Who,
        name: ObjName,
        lease: &Lease,
    ) -> Result<Option<Blob>, HeldFault> {
        self.liar.witness.ask(name)?;
        match self.liar.fate() {
            Fate::Fails => match self.faults.add() {
                CloudFault::Failed => Err(HeldFault::Failed),
                CloudFault::Memory => Err(HeldFault::Memory),
            },
            Fate::Starves => Err(HeldFault::Memory),
            Fate::Misses if self.liar.tosses() => Ok(self.liar.object(name, Fate::Misses)?),
            Fate::Misses => {
                self.liar.witness.miss(lease.end(), lease.end());
                Err(HeldFault::Late {
                    end: lease.end(),
                    now: lease.end(),
                })
            }
            fate => Ok(self.liar.object(name, fate)?),
        }
    }

    fn put_held(
        &mut self,
        _who: Who,
        _name: ObjName,
        _bytes: &[u8],
        first: &Lease,
        _second: Option<&Lease>,
    ) -> Result<(), HeldFault> {
        match self.liar.fate() {
            Fate::Fails => match self.faults.add() {
                CloudFault::Failed => Err(HeldFault::Failed),
                CloudFault::Memory => Err(HeldFault::Memory),
            },
            Fate::Starves => Err(HeldFault::Memory),
            Fate::Misses => {
                self.liar.witness.miss(first.end(), u64::MAX);
                Err(HeldFault::Late {
                    end: first.end(),
                    now: u64::MAX,
                })
            }
            _ => Ok(()),
        }
    }

    fn list_held(
        &mut self,
        _who: Who,
        _tree: TreeId,
        lease: &Lease,
    ) -> Result<Vec<PageId>, HeldFault> {
        match self.liar.fate() {
            Fate::Fails => match self.faults.add() {
                CloudFault::Failed => Err(HeldFault::Failed),
                CloudFault::Memory => Err(HeldFault::Memory),
            },
            Fate::Starves => Err(HeldFault::Memory),
            Fate::Misses => {
                self.liar.witness.miss(lease.end(), lease.end());
                Err(HeldFault::Late {
                    end: lease.end(),
                    now: lease.end(),
                })
            }
            fate => Ok(self.liar.listing(fate)?),
        }
    }

    fn remove_held(&mut self, _who: Who, _name: ObjName, lease: &Lease) -> Result<(), HeldFault> {
        match self.liar.fate() {
            Fate::Fails => match self.faults.add() {
                CloudFault::Failed => Err(HeldFault::Failed),
                CloudFault::Memory => Err(HeldFault::Memory),
            },
            Fate::Starves => Err(HeldFault::Memory),
            Fate::Misses => {
                self.liar.witness.miss(lease.end(), u64::MAX);
                Err(HeldFault::Late {
                    end: lease.end(),
                    now: u64::MAX,
                })
            }
            _ => Ok(()),
        }
    }

    fn send(&mut self, _who: Who, _queue: QueueName, _bytes: &[u8]) -> Result<MsgId, CloudFault> {
        match self.liar.fate() {
            Fate::Fails => Err(self.faults.add()),
            Fate::Starves => Err(CloudFault::Memory),
            _ => Ok(self.liar.id()),
        }
    }

    fn receive(
        &mut self,
        _who: Who,
        queue: QueueName,
        max: u16,
    ) -> Result<Vec<Message>, CloudFault> {
        match self.liar.fate() {
            Fate::Fails => Err(self.faults.add()),
            Fate::Starves => Err(CloudFault::Memory),
            fate => {
                let messages = self.liar.messages(&queue, max, fate)?;
                // There are no more, which is shown here alone.
                if messages.len() > max as usize {
                    return Err(CloudFault::Memory);
                }
                Ok(messages)
            }
        }
    }

    fn delete(&mut self, _who: Who, _queue: QueueName, _id: MsgId) -> Result<(), CloudFault> {
        match self.liar.fate() {
            Fate::Fails => Err(self.faults.add()),
            Fate::Starves => Err(CloudFault::Memory),
            _ => Ok(()),
        }
    }

    fn take(&mut self, _who: Who, lock: Lock, ticks: u64) -> Result<Grant, CloudFault> {
        match self.liar.fate() {
            Fate::Fails => Err(self.faults.add()),
            Fate::Starves => Err(CloudFault::Memory),
            Fate::Misses => {
                self.liar.witness.hold(lock, ticks);
                Ok(Grant::Held(ticks))
            }
            _ => {
                self.liar.owed = self.liar.owed.wrapping_add(1);
                Ok(Grant::Given(Lease::given(lock, 1, ticks)))
            }
        }
    }

    fn renew(&mut self, _who: Who, lease: &mut Lease, ticks: u64) -> Result<(), HeldFault> {
        self.liar.witness.call();
        lease.extend(ticks);
        Ok(())
    }

    fn release(&mut self, _who: Who, _lease: Lease) -> Result<(), CloudFault> {
        self.liar.owed = self.liar.owed.wrapping_sub(1);
        match self.liar.fate() {
            Fate::Fails => Err(self.faults.add()),
            Fate::Starves => Err(CloudFault::Memory),
            _ => Ok(()),
        }
    }
}
