use db_base::ids::PageId;
use db_base::sequence::Sequence;

/// The pages of a listing.
pub type PageList = Sequence<PageId>;
