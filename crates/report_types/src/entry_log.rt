use crate::entry::Entry;
use db_base::sequence::Sequence;

/// Entries in order.
pub type EntryLog = Sequence<Entry>;
