//! Looks at a cloud.

ghost use Rattle.std.specs.Prelude.{◌≡◌, ◌⊎◌, Some, length, IfOk, IfErr};
ghost use Rattle.cloud_trait.specs.State.{CloudState, newest};
ghost use Rattle.cloud_trait.specs.Bench.{IsShown};
ghost use Rattle.cloud_trait.specs.Delivery.{unmarked};
ghost use Rattle.world_audit.specs.Look.{Looked, FailsDark};

use cloud_trait::cloud::Bench;
use cloud_trait::fault::CloudFault;
use db_base::blob::Blob;
use db_base::names::{ObjName, QueueName};
use db_base::trouble::Trouble;

/// The newest version of an object. Failed or Memory.
pub fn peek<C: Bench>(cloud: &mut C, name: ObjName) -> Result<Option<Blob>, Trouble>
    ensures looked { Looked (C.seen cloud.old) (C.seen cloud.new) }
    ensures failed { FailsDark result (C.seen cloud.old) (C.seen cloud.new) }
    ensures only { IfErr result (λ e. (e ≡ Trouble.Failed) ⊎ (e ≡ Trouble.Memory)) }
    ensures newest { (s : CloudState) → (C.seen cloud.old).state ≡ Some s → IfOk result (λ v. v ≡ newest s name) }
    ensures shown { IfOk result (IsShown (C.seen cloud.old) name) }
{
    match cloud.peek(name) {
        Ok(bytes) => Ok(bytes),
        Err(CloudFault::Failed) => Err(Trouble::Failed),
        Err(CloudFault::Memory) => Err(Trouble::Memory),
    }
}

/// How many messages of a queue are not deleted. Failed or Memory.
pub fn backlog<C: Bench>(cloud: &mut C, queue: QueueName) -> Result<u64, Trouble>
    ensures looked { Looked (C.seen cloud.old) (C.seen cloud.new) }
    ensures failed { FailsDark result (C.seen cloud.old) (C.seen cloud.new) }
    ensures only { IfErr result (λ e. (e ≡ Trouble.Failed) ⊎ (e ≡ Trouble.Memory)) }
    ensures length { (s : CloudState) → (C.seen cloud.old).state ≡ Some s → IfOk result (λ n. n ≡ length (unmarked (s.messages queue))) }
{
    match cloud.backlog(queue) {
        Ok(count) => Ok(count),
        Err(CloudFault::Failed) => Err(Trouble::Failed),
        Err(CloudFault::Memory) => Err(Trouble::Memory),
    }
}
