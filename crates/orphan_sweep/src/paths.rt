//! Where pages lead.

ghost use Rattle.std.specs.Prelude.{◌≡◌, IfOk};
ghost use Rattle.std.specs.Option.{option_copied};
ghost use Rattle.orphan_sweep.specs.Pages.{link_by, first_page, leaf_paths, inner_paths, below_by, down_to, onward};

use crate::spot::Spot;
use db_base::blob::Blob;
use db_base::ids::PageId;
use leaf_view::LeafView;
use node_codec::{Entries, InnerView};
use std::alloc::{AllocError, Global};

/// A link to a right page, with the low key that it promises (Lehman and Yao, 1981).
#[derive(Drop)]
pub struct Link {
    /// The page.
    pub page: PageId,
    /// The low key of the page: the high key of the page on its left.
    pub low: Blob,
}

/// Where a page leads.
#[derive(Drop)]
pub struct Paths {
    /// To its right page.
    pub right: Option<Link>,
    /// To the first page below it, where it is no leaf.
    pub down: Option<PageId>,
}

/// The link to a right page, where there is one.
fn link_by(
    alloc: Global,
    right: Option<PageId>,
    high: Option<&[u8]>,
) -> Result<Option<Link>, AllocError>
    ensures { IfOk result (λ link. link ≡ link_by right (option_copied high.entry)) }
{
    match (right, high) {
        (Some(page), Some(high)) => {
            let low = Blob::copy_of(alloc, high)?;
            Ok(Some(Link { page, low }))
        }
        _ => Ok(None),
    }
}

/// Where a leaf leads. Refused for memory alone.
pub(crate) fn leaf_paths(alloc: Global, leaf: &LeafView<'_>) -> Result<Paths, AllocError>
    ensures { IfOk result (λ paths. paths ≡ leaf_paths leaf.now) }
{
    let right = link_by(alloc, leaf.right(), leaf.high())?;
    Ok(Paths { right, down: None })
}

/// The first page that entries name.
pub(crate) fn first_page(entries: Entries<'_>) -> PageId
    ensures { result ≡ first_page entries.entry }
{
    let mut left = entries;
    match left.next() {
        Some((_, page)) => page,
        None => PageId::first(),
    }
}

/// Where an inner node leads. Refused for memory alone.
pub(crate) fn inner_paths(alloc: Global, node: &InnerView<'_>) -> Result<Paths, AllocError>
    ensures { IfOk result (λ paths. paths ≡ inner_paths node.now) }
{
    let right = link_by(alloc, node.right(), node.high())?;
    Ok(Paths {
        right,
        down: Some(first_page(node.entries())),
    })
}

/// The page that begins the level below.
fn below_by(below: Option<PageId>, down: Option<PageId>) -> Option<PageId>
    ensures { result ≡ below_by below down }
{
    match below {
        Some(page) => Some(page),
        None => down,
    }
}

/// The first page of the level below, where there is one. Takes no memory.
fn down_to(alloc: Global, level: u8, page: Option<PageId>) -> Option<Spot>
    ensures { result ≡ down_to level page }
{
    match page {
        Some(page) => Some(Spot::leftmost(alloc, level.saturating_sub(1), page)),
        None => None,
    }
}

/// The page that is read behind this one: its right page; behind the last page of a level the first one of the level below; behind the
/// last leaf none. Takes no memory.
pub(crate) fn onward(alloc: Global, at: &Spot, paths: Paths) -> Option<Spot>
    ensures { result ≡ onward at.now paths }
{
    let below = below_by(at.below, paths.down);
    match paths.right {
        Some(link) => Some(Spot {
            level: at.level,
            page: link.page,
            low: link.low,
            below,
        }),
        None => down_to(alloc, at.level, below),
    }
}
