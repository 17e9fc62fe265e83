//! What is put where a page takes what it lacks.

use crate::placing::Placing;
use split_plan::entry_list::EntryList;

/// What is put, and what the level above is to name.
#[derive(Drop)]
pub struct PagePlan {
    /// The puts: the reservation, where the page is cut, the right pieces, and the page itself last.
    pub placing: Placing,
    /// The new pages, from left to right.
    pub entries: EntryList,
}
