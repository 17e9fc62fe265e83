ghost use Rattle.std.specs.Prelude.{◌≡◌, ◌++◌, OnOk};
ghost use Rattle.tree_phases.specs.Kept.{links_at};

use db_base::blob::Blob;
use db_base::ids::PageId;
use db_base::sequence::Sequence;
use split_plan::entry_list::NewEntry;
use std::alloc::{AllocError, Global};

/// A page that the level above is to name.
pub struct Link {
    /// The level that names it, 1 for a leaf.
    pub level: u64,
    /// Its low key.
    pub low: Blob,
    /// The page.
    pub page: PageId,
}

impl Drop for Link {
    fn drop(self) {
        let Link {
            level: _,
            low: _,
            page: _,
        } = self;
    }
}

/// Links in the order in which they were found.
pub type LinkList = Sequence<Link>;

/// Adds a link for each new page below a level. Refused for memory alone.
pub fn add_links(
    alloc: Global,
    links: &mut LinkList,
    level: u64,
    entries: &[NewEntry],
) -> Result<(), AllocError>
    ensures { OnOk result (links.new ≡ links.old ++ links_at level entries.now) }
{
    let mut left = entries;
    while let Some((entry, rest)) = left.split_first() {
        let low = Blob::copy_of(alloc, entry.low.as_slice())?;
        links.push(Link {
            level,
            low,
            page: entry.page,
        })?;
        left = rest;
    }
    Ok(())
}
