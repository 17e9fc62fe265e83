ghost use Rattle.std.specs.Prelude.{◌≡◌, false};
ghost use Rattle.byte_format.specs.Order.{bytes_below};
ghost use Rattle.tree_phases.specs.Going.{Finds};
ghost use Rattle.tree_phases.specs.Fork.{down_from, forked_on, bad_fence};
ghost use Rattle.std.specs.Prelude.{Ok, IfOk};

use byte_format::is_below;
use ckpt_parts::Fault;
use db_base::blob::Blob;
use db_base::ids::PageId;
use db_base::trouble::Trouble;
use node_codec::InnerView;
use std::alloc::{AllocError, Global};

/// Where an inner node leads for a key: a low key, and the page that begins there.
#[derive(Drop)]
pub enum Fork {
    /// To the node on the right.
    Right(Blob, PageId),
    /// To the level below.
    Down(Blob, PageId),
}

/// Where the node's entries lead for the key.
fn down_from(alloc: Global, key: &[u8], node: &InnerView<'_>) -> Result<Fork, Fault>
    requires { bytes_below key.now node.now.low ≡ false }
    ensures { Finds result (Ok (down_from key.now node.now)) }
{
    let (low, page) = node.child(key);
    match Blob::copy_of(alloc, low) {
        Ok(low) => Ok(Fork::Down(low, page)),
        Err(_) => Err(Fault::Memory),
    }
}

/// Where the node leads for the key: to the right where the key is not below its high key.
pub(crate) fn forked_on(alloc: Global, key: &[u8], node: &InnerView<'_>) -> Result<Fork, Fault>
    requires { bytes_below key.now node.now.low ≡ false }
    ensures { Finds result (Ok (forked_on key.now node.now)) }
{
    let (Some(high), Some(right)) = (node.high(), node.right()) else {
        return down_from(alloc, key, node);
    };
    if is_below(key, high) {
        return down_from(alloc, key, node);
    }
    match Blob::copy_of(alloc, high) {
        Ok(low) => Ok(Fork::Right(low, right)),
        Err(_) => Err(Fault::Memory),
    }
}

/// A low key that differs from what led to its page.
pub(crate) fn bad_fence(
    alloc: Global,
    page: PageId,
    expected: &[u8],
    found: &[u8],
) -> Result<Trouble, AllocError>
    ensures { IfOk result (λ t. t ≡ bad_fence page expected.now found.now) }
{
    Ok(Trouble::BadFence {
        page,
        expected: Blob::copy_of(alloc, expected)?,
        found: Blob::copy_of(alloc, found)?,
    })
}
