use db_base::ids::PageId;
use std::alloc::{AllocError, Global};
use std::marker::Model;

/// Pages in the order in which they were come to, seen as the list of their numbers.
pub struct PageList {
    pages: Vec<PageId>,
}

impl Drop for PageList {
    fn drop(self) {
        let PageList { pages: _ } = self;
    }
}

impl Model for PageList {
    ghost use Rattle.std.specs.Prelude.{List, ℕ};

    ghost Value = { List ℕ };

    ghost view = { λ l. l.pages.items };
}

impl PageList {
    ghost use Rattle.std.specs.Prelude.{◌≡◌, [], ◌∷◌, ◌++◌, OnOk, OnErr};
    ghost use Rattle.run_cursor.specs.Covered.{is_seen};

    /// No page. Takes no memory.
    pub fn new(alloc: Global) -> PageList
        ensures { result ≡ [] }
    {
        PageList {
            pages: Vec::new(alloc),
        }
    }

    /// Whether the page is among them.
    pub fn has(&self, page: PageId) -> bool
        ensures { result ≡ is_seen self.now page }
    {
        self.pages.as_slice().contains(&page)
    }

    /// Adds a page at the end. Where memory runs out nothing changes.
    pub fn push(&mut self, page: PageId) -> Result<(), AllocError>
        ensures ok { OnOk result (self.new ≡ self.old ++ page ∷ []) }
        ensures err { OnErr result (self.new ≡ self.old) }
    {
        match self.pages.push(page) {
            Ok(()) => Ok(()),
            Err(_) => Err(AllocError),
        }
    }
}
