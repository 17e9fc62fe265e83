//! The records of all trees.

ghost use Rattle.std.specs.Prelude.{◌≡◌, [], ◌∷◌, ◌++◌, OnOk, IfOk, IfErr};
ghost use Rattle.dump_text.specs.Dump.{IsDumpable};
ghost use Rattle.dump_text.specs.Maps.{trees_from};
ghost use Rattle.world_audit.specs.Look.{Looked, FailsDark};
ghost use Rattle.dump_take.specs.Sight.{Sees, pages_to, no_queue};
ghost use Rattle.dump_take.specs.Parts.{ContentsFound};

use cloud_trait::cloud::Bench;
use db_base::ids::TreeId;
use db_base::sequence::Sequence;
use db_base::trouble::Trouble;
use dump_text::dump::DumpedTree;
use report_types::stored_list::StoredList;
use std::alloc::Global;
use world_audit::leaves::contents;

/// Adds a tree, where it has records. Fails for memory alone.
fn add_tree(
    trees: &mut Sequence<DumpedTree>,
    tree: TreeId,
    records: StoredList,
) -> Result<(), Trouble>
    ensures ok { OnOk result (trees.new ≡ trees.old ++ trees_from tree (records ∷ [])) }
    ensures memory { IfErr result (λ e. e ≡ Trouble.Memory) }
{
    if records.len() == 0 {
        return Ok(());
    }
    match trees.push(DumpedTree { tree, records }) {
        Ok(()) => Ok(()),
        Err(_) => Err(Trouble::Memory),
    }
}

/// The trees with records, by number: Absent, Damaged, BadFence and Loop where the leaves of one are no chain, Failed where a look failed,
/// and Memory.
pub(crate) fn all_contents<C: Bench>(
    alloc: Global,
    cloud: &mut C,
) -> Result<Sequence<DumpedTree>, Trouble>
    ensures looked { Looked (C.seen cloud.old) (C.seen cloud.new) }
    ensures failed { FailsDark result (C.seen cloud.old) (C.seen cloud.new) }
    ensures found { Sees (C.seen cloud.old) (pages_to 16) no_queue (ContentsFound result) }
    ensures dumpable { IfOk result IsDumpable }
{
    let mut trees = Sequence::new(alloc);
    for number in 0..16u64 {
        let Ok(tree) = TreeId::new(number + 1) else {
            unreachable!();
        };
        let records = contents(alloc, cloud, tree)?;
        add_tree(&mut trees, tree, records)?;
    }
    Ok(trees)
}
