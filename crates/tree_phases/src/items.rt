use db_base::sequence::Sequence;
use log_codec::record::PuItem;

/// Items in the order in which they are applied.
pub type ItemList = Sequence<PuItem>;
