use db_base::ids::TreeId;
use db_base::sequence::Sequence;
use report_types::stored_list::StoredList;

/// What a quiet database holds: its trees with records, ascending.
#[derive(Debug)]
pub struct Dump {
    /// The trees.
    pub trees: Sequence<DumpedTree>,
}

impl Drop for Dump {
    fn drop(self) {
        let Dump { trees: _ } = self;
    }
}

/// A tree of a dump.
#[derive(Debug)]
pub struct DumpedTree {
    /// The tree.
    pub tree: TreeId,
    /// Its records, in the order of their keys.
    pub records: StoredList,
}

impl Drop for DumpedTree {
    fn drop(self) {
        let DumpedTree {
            tree: _,
            records: _,
        } = self;
    }
}
