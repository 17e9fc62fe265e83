//! A root cut into inner nodes below a new root.

ghost use Rattle.std.specs.Prelude.{◌≡◌, ◌+◌, ◌<◌, ◌≤◌, length, reverse, IfOk, IfErr, OnOk};
ghost use Rattle.std.specs.List.{AllByRecursion};
ghost use Rattle.db_base.specs.Limits.{longest_key};
ghost use Rattle.split_plan.specs.Plan.{root_above, root_entries, root_pieces, root_puts, with_children, IsNodePart, IsRootCut};
ghost use Rattle.split_plan.specs.Sizes.{count_of};

use crate::entry_list::NewEntry;
use crate::inner::cut;
use crate::page::page_behind;
use crate::plan::Pieces;
use db_base::ids::PageId;
use db_base::pair::EditFault;
use node_codec::TreeBuf;
use std::alloc::Global;

/// Adds the entries to a root. Refused for memory alone.
fn add_all(root: &mut TreeBuf, entries: &[NewEntry]) -> Result<(), EditFault>
    requires { AllByRecursion (λ e. length e.low ≤ longest_key) entries.now }
    ensures ok { OnOk result (root.new ≡ with_children entries.now root.old) }
    ensures memory { IfErr result (λ e. e ≡ EditFault.Memory) }
{
    let mut left = entries;
    'entries: while let Some((entry, rest)) = left.split_first() {
        root.add(entry.low.as_slice(), entry.page)?;
        left = rest;
    }
    Ok(())
}

/// A root cut into inner nodes of its level, all of them new, on the reserved pages from `first_free` on; and the root that names
/// them, one level higher. Refused for memory alone.
pub fn plan_root(
    alloc: Global,
    buf: TreeBuf,
    first_free: PageId,
) -> Result<(Pieces, TreeBuf), EditFault>
    requires level { buf.level < 255 }
    requires reserved { first_free + count_of (length buf.entries) ≤ buf.next }
    ensures cut { OnOk result (IsRootCut first_free buf) }
    ensures fit { OnOk result (AllByRecursion IsNodePart (root_pieces first_free buf)) }
    ensures puts { IfOk result (λ x. x.0.puts ≡ reverse (root_puts first_free buf)) }
    ensures entries { IfOk result (λ x. x.0.entries ≡ root_entries first_free buf) }
    ensures root { IfOk result (λ x. x.1 ≡ root_above x.0.entries buf) }
    ensures memory { IfErr result (λ e. e ≡ EditFault.Memory) }
{
    let (mut root, node) = buf.lower(first_free)?;
    let mut plan = cut(alloc, first_free, node, page_behind(first_free))?;
    add_all(&mut root, plan.entries.as_slice())?;
    plan.puts.reverse();
    Ok((plan, root))
}
