use db_base::blob::Blob;
use db_base::ids::PageId;
use db_base::sequence::Sequence;

/// What is put on a page.
#[derive(Debug)]
pub struct PagePut {
    /// The page.
    pub page: PageId,
    /// The spelling of what it holds then.
    pub bytes: Blob,
}

impl Drop for PagePut {
    fn drop(self) {
        let PagePut { page: _, bytes: _ } = self;
    }
}

/// Puts in the order in which they are made.
pub type PutList = Sequence<PagePut>;
