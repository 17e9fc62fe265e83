use db_base::blob::Blob;
use db_base::ids::PageId;
use db_base::sequence::Sequence;

/// An entry for the level above.
#[derive(Debug)]
pub struct NewEntry {
    /// The low key of the page.
    pub low: Blob,
    /// The page.
    pub page: PageId,
}

impl Drop for NewEntry {
    fn drop(self) {
        let NewEntry { low: _, page: _ } = self;
    }
}

/// Entries from left to right.
pub type EntryList = Sequence<NewEntry>;
