ghost use Rattle.std.specs.Prelude.{◌≡◌, []};

use crate::entry_list::EntryList;
use crate::put_list::PutList;
use std::alloc::Global;

/// A page cut into pieces.
#[derive(Debug, Drop)]
pub struct Pieces {
    /// What is put, the rightmost piece first and the leftmost last.
    pub puts: PutList,
    /// An entry for each new page, from left to right.
    pub entries: EntryList,
}

impl Pieces {
    /// No pieces yet. Takes no memory.
    pub(crate) fn new(alloc: Global) -> Pieces
        ensures puts { result.puts ≡ [] }
        ensures entries { result.entries ≡ [] }
    {
        Pieces {
            puts: PutList::new(alloc),
            entries: EntryList::new(alloc),
        }
    }
}
