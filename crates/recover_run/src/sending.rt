ghost use Rattle.std.specs.Prelude.{◌≡◌, ◌++◌, ◌∷◌, [], Some, IfOk, OnOk, OnErr};
ghost use Rattle.head_codec.specs.Spelling.{HasSpelling, head_bytes, head_of};
ghost use Rattle.log_codec.specs.Atomic.{HasPlace};
ghost use Rattle.log_codec.specs.Pu.{pu_bytes, pu_of};
ghost use Rattle.route_plan.specs.Record.{pu_record_of, pending_of};
ghost use Rattle.recover_run.specs.Sending.{pending_with};

use db_base::blob::Blob;
use head_codec::entry::Entry;
use head_codec::head::Head;
use head_codec::lists::Pending;
use log_codec::record::AtomicRec;
use std::alloc::{AllocError, Global};

/// The bytes of a record as it stands in its pending update queue.
pub(crate) fn sent_bytes(alloc: Global, rec: &AtomicRec) -> Result<Blob, AllocError>
    requires { HasPlace rec.now }
    ensures bytes { IfOk result (λ b. b ≡ pu_bytes (pu_record_of rec.now)) }
    ensures decoded { IfOk result (λ b. pu_of b ≡ Some (pu_record_of rec.now)) }
{
    match rec.write_pending(alloc) {
        Ok(bytes) => Ok(bytes),
        Err(_) => Err(AllocError),
    }
}

/// Adds a record that was sent to a head's pending entries. An `Err` changes nothing.
#[tactic(auto, using(crate::proofs::Spelled::pending_spelled))]
pub(crate) fn add_pending(alloc: Global, head: &mut Head, rec: &AtomicRec) -> Result<(), AllocError>
    requires placed { HasPlace rec.now }
    requires spelled { HasSpelling head.old }
    ensures ok { OnOk result (head.new ≡ pending_with head.old rec.now) }
    ensures err { OnErr result (head.new ≡ head.old) }
    ensures spelled { HasSpelling head.new }
{
    let pending = Pending {
        tree: rec.tree,
        page: rec.page,
        number: rec.number,
        change: rec.change.copied(alloc)?,
    };
    head.pending.push(Entry::of(alloc, pending)?)
}

/// The bytes of a head.
pub(crate) fn head_bytes(alloc: Global, head: &Head) -> Result<Blob, AllocError>
    requires { HasSpelling head.now }
    ensures bytes { IfOk result (λ out. out ≡ head_bytes head.now) }
    ensures decoded { IfOk result (λ out. head_of out ≡ Some head.now) }
{
    match head.write(alloc) {
        Ok(out) => Ok(out),
        Err(_) => Err(AllocError),
    }
}
