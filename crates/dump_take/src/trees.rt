//! Whether no pending update waits.

ghost use Rattle.std.specs.Prelude.{◌≡◌};
ghost use Rattle.world_audit.specs.Look.{Looked};
ghost use Rattle.dump_take.specs.Sight.{Sees, no_object, root_of, roots_to, one_queue, queues_of, queues_to};
ghost use Rattle.dump_take.specs.Parts.{StopsDark, QueueFound, TreeFound, TreesFound};

use crate::naming::not_quiet_queue;
use crate::stop::DumpStop;
use cloud_trait::cloud::Bench;
use db_base::ids::TreeId;
use db_base::names::{ObjName, QueueName};
use std::alloc::Global;
use world_audit::backlogs::{next_page, queue_at};
use world_audit::look::{backlog, peek};

/// Refuses a queue with a message that is not deleted.
fn check_queue<C: Bench>(alloc: Global, cloud: &mut C, queue: QueueName) -> Result<(), DumpStop>
    ensures looked { Looked (C.seen cloud.old) (C.seen cloud.new) }
    ensures failed { StopsDark result (C.seen cloud.old) (C.seen cloud.new) }
    ensures found { Sees (C.seen cloud.old) no_object (one_queue queue) (QueueFound queue result) }
{
    if backlog(cloud, queue)? == 0 {
        return Ok(());
    }
    Err(not_quiet_queue(alloc, queue))
}

/// Looks at the root of a tree, and then at its queue and those of its pages, up to the first with a message.
fn check_tree<C: Bench>(alloc: Global, cloud: &mut C, tree: TreeId) -> Result<(), DumpStop>
    ensures looked { Looked (C.seen cloud.old) (C.seen cloud.new) }
    ensures failed { StopsDark result (C.seen cloud.old) (C.seen cloud.new) }
    ensures found { Sees (C.seen cloud.old) (root_of tree) (queues_of tree) (TreeFound tree result) }
{
    let bytes = peek(cloud, ObjName::Tree(tree))?;
    let next = next_page(tree, &bytes)?;
    for page in 0..next {
        check_queue(alloc, cloud, queue_at(tree, page))?;
    }
    Ok(())
}

/// Looks at the roots and the queues by tree, up to the first queue with a message, or root that is none.
pub(crate) fn check_trees<C: Bench>(alloc: Global, cloud: &mut C) -> Result<(), DumpStop>
    ensures looked { Looked (C.seen cloud.old) (C.seen cloud.new) }
    ensures failed { StopsDark result (C.seen cloud.old) (C.seen cloud.new) }
    ensures found { Sees (C.seen cloud.old) (roots_to 16) (queues_to 16) (TreesFound result) }
{
    for number in 0..16u64 {
        let Ok(tree) = TreeId::new(number + 1) else {
            unreachable!();
        };
        check_tree(alloc, cloud, tree)?;
    }
    Ok(())
}
