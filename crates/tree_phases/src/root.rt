//! The tree object as it is put last.

ghost use Rattle.std.specs.Prelude.{◌≡◌, ◌+◌, ◌<◌, ◌≤◌, Ok, length, IfErr, OnOk};
ghost use Rattle.split_plan.specs.Sizes.{count_of};
ghost use Rattle.tree_phases.specs.Going.{Finds};
ghost use Rattle.tree_phases.specs.Reserve.{next_tree};
ghost use Rattle.tree_phases.specs.Root.{is_named, with_named, risen, raised_root, root_plan, root_cut, cut_at, lowered};

use crate::link::Link;
use crate::placing::{Placing, PutQueue};
use crate::reserve::{next_tree, pages_spent, reserve, tree_spelled};
use crate::spelled::TreeBytes;
use ckpt_parts::Fault;
use db_base::cursor::Cursor;
use db_base::ids::PageId;
use db_base::pair::EditFault;
use node_codec::{TreeBuf, TreeView};
use split_plan::count::pieces;
use split_plan::root::plan_root;
use std::alloc::Global;

/// What is put, and the tree object that is put last.
#[derive(Drop)]
pub struct RootPlan {
    /// The puts before it: the reservation and the pieces, where it is cut.
    pub placing: Placing,
    /// The bytes of the tree object.
    pub last: TreeBytes,
    /// Whether the reservation takes the last version, so that the tree object is not put behind its pieces.
    pub is_spent: bool,
}

/// Whether the tree object is to name the link's page.
fn is_named(level: u64, link: &Link) -> bool
    ensures { result ≡ is_named level link.now }
{
    link.level == level && link.low.len() <= 64
}

/// Adds the links of the tree object's level. Refused for memory alone.
fn add_links(buf: &mut TreeBuf, level: u64, links: &[Link]) -> Result<(), EditFault>
    ensures ok { OnOk result (buf.new ≡ with_named level links.now buf.old) }
    ensures memory { IfErr result (λ e. e ≡ EditFault.Memory) }
{
    let mut left = links;
    while let Some((link, rest)) = left.split_first() {
        if is_named(level, link) {
            buf.add(link.low.as_slice(), link.page)?;
        }
        left = rest;
    }
    Ok(())
}

/// The tree object as it is put next, with the cursor raised to the run's top and the links of its level.
pub(crate) fn raised_root(
    alloc: Global,
    root: &TreeView<'_>,
    links: &[Link],
    top: &Cursor,
) -> Result<TreeBuf, Fault>
    ensures { Finds result (raised_root root.now links.now top.now) }
{
    match next_tree(alloc, root) {
        Ok(buf) => raised(buf, root.level() as u64, links, top),
        Err(Fault::Stops(trouble)) => Err(Fault::Stops(trouble)),
        Err(Fault::Memory) => Err(Fault::Memory),
    }
}

/// Raises the cursor, and adds the links. Refused for memory alone.
fn raised(buf: TreeBuf, level: u64, links: &[Link], top: &Cursor) -> Result<TreeBuf, Fault>
    ensures { Finds result (Ok (risen level links.now top.now buf)) }
{
    let mut buf = buf;
    if buf.raise(top).is_err() {
        return Err(Fault::Memory);
    }
    if add_links(&mut buf, level, links).is_err() {
        return Err(Fault::Memory);
    }
    Ok(buf)
}

/// A tree object under edit once more, with the next version.
fn again(alloc: Global, buf: &TreeBuf) -> Result<TreeBuf, Fault>
    ensures { Finds result (next_tree buf.now) }
{
    let _entries = buf.len();
    match tree_spelled(alloc, buf) {
        Ok(bytes) => next_tree(alloc, &bytes.view()),
        Err(_) => Err(Fault::Memory),
    }
}

/// The pieces of a tree object, all of them new, and the tree object that names them.
fn lowered(
    alloc: Global,
    buf: TreeBuf,
    first: PageId,
    reserved: Option<TreeBytes>,
    is_spent: bool,
) -> Result<RootPlan, Fault>
    requires level { buf.level < 255 }
    requires reserved { first + count_of (length buf.entries) ≤ buf.next }
    ensures { Finds result (Ok (lowered reserved is_spent buf first)) }
{
    let Ok((pieces, root)) = plan_root(alloc, buf, first) else {
        return Err(Fault::Memory);
    };
    let Ok(last) = tree_spelled(alloc, &root) else {
        return Err(Fault::Memory);
    };
    Ok(RootPlan {
        placing: Placing {
            reserved,
            puts: PutQueue::of(pieces.puts),
        },
        last,
        is_spent,
    })
}

/// The pieces on numbers that the reservation made free.
fn cut_at(
    alloc: Global,
    buf: TreeBuf,
    count: u64,
    reserved: Option<TreeBytes>,
    is_spent: bool,
) -> Result<RootPlan, Fault>
    requires level { buf.level < 255 }
    requires count { count_of (length buf.entries) ≤ count }
    ensures { Finds result (cut_at reserved count is_spent buf) }
{
    let mut buf = buf;
    match buf.reserve(count) {
        Ok(first) => lowered(alloc, buf, first, reserved, is_spent),
        Err(_) => Err(Fault::Stops(pages_spent())),
    }
}

/// The puts of a tree object with more than 64 entries.
fn root_cut(alloc: Global, root: &TreeView<'_>, buf: TreeBuf) -> Result<RootPlan, Fault>
    requires { buf.level < 255 }
    ensures { Finds result (root_cut root.now buf) }
{
    let count = pieces(buf.len() as u64);
    match reserve(alloc, root, PageId::first(), count) {
        Ok(reserved) => match again(alloc, &buf) {
            Ok(next) => cut_at(alloc, next, count, reserved.put, false),
            Err(Fault::Stops(_)) => cut_at(alloc, buf, count, reserved.put, true),
            Err(Fault::Memory) => Err(Fault::Memory),
        },
        Err(Fault::Stops(trouble)) => Err(Fault::Stops(trouble)),
        Err(Fault::Memory) => Err(Fault::Memory),
    }
}

/// The puts of a tree object under edit: it is cut where it has more than 64 entries, unless its level is 255.
pub(crate) fn root_plan(alloc: Global, root: &TreeView<'_>, buf: TreeBuf) -> Result<RootPlan, Fault>
    requires { buf.level ≡ root.now.level }
    ensures { Finds result (root_plan root.now buf) }
{
    if buf.len() > 64 && root.level() < 255 {
        return root_cut(alloc, root, buf);
    }
    match tree_spelled(alloc, &buf) {
        Ok(last) => Ok(RootPlan {
            placing: Placing::new(alloc),
            last,
            is_spent: false,
        }),
        Err(_) => Err(Fault::Memory),
    }
}
