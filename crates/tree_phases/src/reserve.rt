//! Numbers of new pages, reserved by a put of the tree object.

ghost use Rattle.std.specs.Prelude.{◌≡◌, ◌+◌, ◌≤◌, Ok, IfOk};
ghost use Rattle.node_codec.specs.Tree.{tree_bytes};
ghost use Rattle.tree_phases.specs.Going.{Finds};
ghost use Rattle.tree_phases.specs.Reserve.{reservation, reserved, next_tree, version_spent, pages_spent};

use crate::spelled::TreeBytes;
use ckpt_parts::Fault;
use db_base::ids::PageId;
use db_base::pair::EditFault;
use db_base::trouble::{Counter, Trouble};
use node_codec::{TreeBuf, TreeView};
use std::alloc::{AllocError, Global};

/// No version is left.
pub fn version_spent() -> Trouble
    ensures { result ≡ version_spent }
{
    Trouble::Exhausted {
        what: Counter::Version,
    }
}

/// No page number is left.
pub fn pages_spent() -> Trouble
    ensures { result ≡ pages_spent }
{
    Trouble::Exhausted {
        what: Counter::Pages,
    }
}

/// The tree object as it is put next, with nothing changed but its version.
pub fn next_tree(alloc: Global, view: &TreeView<'_>) -> Result<TreeBuf, Fault>
    ensures { Finds result (next_tree view.now) }
{
    match TreeBuf::of(alloc, view) {
        Ok(buf) => Ok(buf),
        Err(EditFault::Exhausted) => Err(Fault::Stops(version_spent())),
        Err(EditFault::Memory) => Err(Fault::Memory),
    }
}

/// The bytes of a tree object.
pub fn tree_spelled(alloc: Global, buf: &TreeBuf) -> Result<TreeBytes, AllocError>
    ensures { IfOk result (λ b. b ≡ tree_bytes buf.now) }
{
    match buf.write(alloc) {
        Ok(bytes) => Ok(TreeBytes::of(bytes)),
        Err(_) => Err(AllocError),
    }
}

/// Numbers for new pages.
#[derive(Drop)]
pub struct Reserved {
    /// The tree object that is put for them; none where no number is needed.
    pub put: Option<TreeBytes>,
    /// The first of the numbers; without any the page itself.
    pub first: PageId,
}

/// Reserves so many numbers for new pages beside a page, from the tree object's `next` on.
pub fn reserve(
    alloc: Global,
    view: &TreeView<'_>,
    page: PageId,
    count: u64,
) -> Result<Reserved, Fault>
    ensures found { Finds result (reservation view.now page count) }
    ensures room { IfOk result (λ r. r.first + count ≤ u64.MAX) }
{
    if count == 0 {
        let _number = page.get();
        return Ok(Reserved {
            put: None,
            first: page,
        });
    }
    let buf = match next_tree(alloc, view) {
        Ok(buf) => buf,
        Err(Fault::Stops(trouble)) => return Err(Fault::Stops(trouble)),
        Err(Fault::Memory) => return Err(Fault::Memory),
    };
    reserve_in(alloc, buf, count)
}

/// Reserves so many numbers in a tree object under edit.
fn reserve_in(alloc: Global, buf: TreeBuf, count: u64) -> Result<Reserved, Fault>
    ensures found { Finds result (reserved count buf) }
    ensures room { IfOk result (λ r. r.first + count ≤ u64.MAX) }
{
    let mut buf = buf;
    match buf.reserve(count) {
        Ok(first) => match tree_spelled(alloc, &buf) {
            Ok(bytes) => Ok(Reserved {
                put: Some(bytes),
                first,
            }),
            Err(_) => Err(Fault::Memory),
        },
        Err(_) => Err(Fault::Stops(pages_spent())),
    }
}
