ghost use Rattle.std.specs.Prelude.{◌≡◌, IfOk};
ghost use Rattle.dump_text.specs.Dump.{IsDumpable};
ghost use Rattle.world_audit.specs.Look.{Looked};
ghost use Rattle.dump_take.specs.Parts.{StopsDark};
ghost use Rattle.dump_take.specs.Taken.{Takes};

use crate::contents::all_contents;
use crate::heads::check_heads;
use crate::stop::DumpStop;
use crate::trees::check_trees;
use cloud_trait::cloud::Bench;
use dump_text::dump::Dump;
use std::alloc::Global;

/// The records of all trees, by looks at the newest versions: the heads by client, then for each tree its root and its queues by page,
/// then its leaves, tree by tree. NotQuiet at the first head that is open or queue with a message that is not deleted; Damaged at the first
/// head or root that is none, and then Absent, Damaged, BadFence and Loop where the leaves of a tree are no chain; Failed where a look failed,
/// and Memory. It holds the whole database in memory. Where others act at the same time it is no dump of one moment.
pub fn take_dump<C: Bench>(alloc: Global, cloud: &mut C) -> Result<Dump, DumpStop>
    ensures taken { Takes (C.seen cloud.old) result }
    ensures dumpable { IfOk result (λ dump. IsDumpable dump.trees) }
    ensures looked { Looked (C.seen cloud.old) (C.seen cloud.new) }
    ensures failed { StopsDark result (C.seen cloud.old) (C.seen cloud.new) }
{
    check_heads(alloc, cloud)?;
    check_trees(alloc, cloud)?;
    let trees = all_contents(alloc, cloud)?;
    Ok(Dump { trees })
}
