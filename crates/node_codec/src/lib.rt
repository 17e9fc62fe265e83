//! The codecs of a tree's root and of its inner nodes: views into their bytes, and buffers that are edited and written.
#![tactic(auto)]

mod client_number;
mod entries;
mod entry;
mod entry_list;
mod entry_rules;
mod inner_buf;
mod inner_view;
mod laws;
mod raised;
mod tree_buf;
mod tree_view;

pub use entries::Entries;
pub use inner_buf::InnerBuf;
pub use inner_view::{InnerView, NotInner};
pub use laws::{child_law, inner_laws, raised_law, tree_laws};
pub use tree_buf::TreeBuf;
pub use tree_view::{NotTree, TreeView, whole_cursor};
