use crate::stored::Stored;
use db_base::sequence::Sequence;

/// Records of leaves in the order of their keys.
pub type StoredList = Sequence<Stored>;
