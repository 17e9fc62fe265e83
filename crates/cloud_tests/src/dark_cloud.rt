//! A cloud in memory at which the looks fail from one on.

ghost use Rattle.std.specs.Prelude.{◌≡◌, ◌<◌, OnOk, IfErr};

use cloud_trait::cloud::{Bench, Cloud};
use cloud_trait::fault::{CloudFault, HeldFault};
use cloud_trait::grant::Grant;
use cloud_trait::lease::Lease;
use cloud_trait::message::Message;
use cloud_trait::who::Who;
use db_base::blob::Blob;
use db_base::ids::{MsgId, PageId, TreeId};
use db_base::names::{Lock, ObjName, QueueName};
use db_base::wish::Wish;
use memory_cloud::memory::MemoryCloud;

/// How many looks are left that see, and how many failed.
#[derive(Drop)]
struct Sight {
    left: u64,
    dark: u64,
}

impl Sight {
    /// One look more. Failed where none that sees is left, and Memory where the count of those can't rise.
    fn look(&mut self) -> Result<(), CloudFault>
        ensures ok { OnOk result (self.new.dark ≡ self.old.dark) }
        ensures failed { IfErr result (λ e. e ≡ CloudFault.Failed → self.old.dark < self.new.dark) }
        ensures memory { IfErr result (λ e. e ≡ CloudFault.Memory → self.new.dark ≡ self.old.dark) }
    {
        if self.left > 0 {
            self.left -= 1;
            return Ok(());
        }
        if self.dark == u64::MAX {
            return Err(CloudFault::Memory);
        }
        self.dark += 1;
        Err(CloudFault::Failed)
    }
}

/// A cloud that is looked at alone.
#[derive(Drop)]
pub(crate) struct DarkCloud {
    cloud: MemoryCloud,
    sight: Sight,
}

impl DarkCloud {
    /// The cloud, at which so many looks see, and each later one fails.
    pub(crate) fn new(cloud: MemoryCloud, looks: u64) -> DarkCloud {
        DarkCloud {
            cloud,
            sight: Sight {
                left: looks,
                dark: 0,
            },
        }
    }
}

impl Cloud for DarkCloud {
    ghost use Rattle.std.specs.Prelude.{None};
    ghost use Rattle.cloud_trait.specs.Seen.{Seen};

    ghost seen = { λ c. record { counts = record { faults = 0; withheld = 0; stale = 0; dark = c.sight.dark }; state = None; heard = None; shown = None } };

    fn now(&self) -> u64 {
        0
    }

    fn get(&mut self, _who: Who, _name: ObjName) -> Result<Option<Blob>, CloudFault> {
        Err(CloudFault::Memory)
    }

    fn get_held(
        &mut self,
        _who: Who,
        _name: ObjName,
        _lease: &Lease,
    ) -> Result<Option<Blob>, HeldFault> {
        Err(HeldFault::Memory)
    }

    fn put_held(
        &mut self,
        _who: Who,
        _name: ObjName,
        _bytes: &[u8],
        _first: &Lease,
        _second: Option<&Lease>,
    ) -> Result<(), HeldFault> {
        Err(HeldFault::Memory)
    }

    fn list_held(
        &mut self,
        _who: Who,
        _tree: TreeId,
        _lease: &Lease,
    ) -> Result<Vec<PageId>, HeldFault> {
        Err(HeldFault::Memory)
    }

    fn remove_held(&mut self, _who: Who, _name: ObjName, _lease: &Lease) -> Result<(), HeldFault> {
        Err(HeldFault::Memory)
    }

    fn send(&mut self, _who: Who, _queue: QueueName, _bytes: &[u8]) -> Result<MsgId, CloudFault> {
        Err(CloudFault::Memory)
    }

    fn receive(
        &mut self,
        _who: Who,
        _queue: QueueName,
        _max: u16,
    ) -> Result<Vec<Message>, CloudFault> {
        Err(CloudFault::Memory)
    }

    fn delete(&mut self, _who: Who, _queue: QueueName, _id: MsgId) -> Result<(), CloudFault> {
        Err(CloudFault::Memory)
    }

    fn take(&mut self, _who: Who, _lock: Lock, _ticks: u64) -> Result<Grant, CloudFault> {
        Err(CloudFault::Memory)
    }

    fn renew(&mut self, _who: Who, _lease: &mut Lease, _ticks: u64) -> Result<(), HeldFault> {
        Err(HeldFault::Memory)
    }

    fn release(&mut self, _who: Who, _lease: Lease) -> Result<(), CloudFault> {
        Err(CloudFault::Memory)
    }
}

impl Bench for DarkCloud {
    fn wish(&mut self, _wish: Wish) {}

    fn wait(&mut self, _ticks: u64) {}

    fn peek(&mut self, name: ObjName) -> Result<Option<Blob>, CloudFault> {
        self.sight.look()?;
        match self.cloud.peek(name) {
            Ok(bytes) => Ok(bytes),
            Err(_) => Err(CloudFault::Memory),
        }
    }

    fn has(&mut self, name: ObjName, bytes: &[u8]) -> Result<bool, CloudFault> {
        self.sight.look()?;
        match self.cloud.has(name, bytes) {
            Ok(is) => Ok(is),
            Err(_) => Err(CloudFault::Memory),
        }
    }

    fn versions(&mut self, name: ObjName) -> Result<u64, CloudFault> {
        self.sight.look()?;
        match self.cloud.versions(name) {
            Ok(count) => Ok(count),
            Err(_) => Err(CloudFault::Memory),
        }
    }

    fn backlog(&mut self, queue: QueueName) -> Result<u64, CloudFault> {
        self.sight.look()?;
        match self.cloud.backlog(queue) {
            Ok(count) => Ok(count),
            Err(_) => Err(CloudFault::Memory),
        }
    }
}
