//! The messages of a tree's queues.

ghost use Rattle.std.specs.Prelude.{◌≡◌, Some, IfOk, IfErr};
ghost use Rattle.cloud_trait.specs.State.{CloudState};
ghost use Rattle.db_base.specs.declared.names.ObjName.TheVariants.{Tree};
ghost use Rattle.world_audit.specs.Counts.{IsNextPage, AreWaiting, queue_at};
ghost use Rattle.world_audit.specs.Look.{Looked, FailsDark};
ghost use Rattle.world_audit.specs.Stop.{SpellsNoRoot, MayStop};
ghost use Rattle.world_audit.specs.Finding.{Shown, RootFound};

use crate::look::{backlog, peek};
use cloud_trait::cloud::Bench;
use db_base::blob::Blob;
use db_base::ids::{PageId, TreeId};
use db_base::names::{ObjName, Place, QueueName};
use db_base::trouble::Trouble;
use node_codec::TreeView;

/// The least free page that a version of the tree's root tells, 2 where there is none. Damaged where the bytes spell no root.
pub fn next_page(tree: TreeId, bytes: &Option<Blob>) -> Result<u64, Trouble>
    ensures ok { IfOk result (λ n. IsNextPage bytes.now n) }
    ensures err { IfErr result (SpellsNoRoot bytes.now tree) }
    ensures failed { IfErr result (λ e. e ≡ Trouble.Failed → ⊥) }
    ensures kinds { IfErr result (MayStop tree) }
{
    match bytes {
        Some(bytes) => match TreeView::read(bytes.as_slice()) {
            Ok(root) => Ok(root.next()),
            Err(fault) => Err(Trouble::Damaged {
                place: Place::Object(ObjName::Tree(tree)),
                offset: fault.offset,
            }),
        },
        None => Ok(2),
    }
}

/// The queue of a page, and for page 0 that of the tree.
pub fn queue_at(tree: TreeId, page: u64) -> QueueName
    ensures { result ≡ queue_at tree page }
{
    match PageId::new(page) {
        Ok(page) => QueueName::PagePu(tree, page),
        Err(_) => QueueName::TreePu(tree),
    }
}

/// How many messages are not deleted of the tree's queue and of those of its pages. The sum stops at the greatest u64.
pub(crate) fn messages<C: Bench>(cloud: &mut C, tree: TreeId) -> Result<u64, Trouble>
    ensures looked { Looked (C.seen cloud.old) (C.seen cloud.new) }
    ensures failed { FailsDark result (C.seen cloud.old) (C.seen cloud.new) }
    ensures ok { (s : CloudState) → (C.seen cloud.old).state ≡ Some s → IfOk result (λ n. AreWaiting s tree n) }
    ensures found { Shown (C.seen cloud.old) Tree (RootFound tree result) }
    ensures kinds { IfErr result (MayStop tree) }
{
    let bytes = peek(cloud, ObjName::Tree(tree))?;
    let next = next_page(tree, &bytes)?;
    let mut sum = 0u64;
    for page in 0..next {
        let more = backlog(cloud, queue_at(tree, page))?;
        sum = sum.saturating_add(more);
    }
    Ok(sum)
}
