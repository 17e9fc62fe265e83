use crate::kept::KeptList;
use crate::link::LinkList;
use crate::spelled::TreeBytes;
use db_base::blob::Blob;
use db_base::ids::TreeId;
use run_cursor::run::Run;

/// What a tree checkpoint knows and has found so far.
pub struct Chart {
    /// The tree.
    pub tree: TreeId,
    /// The newest tree object under the tree's lease; none where it was never put.
    pub root: Option<TreeBytes>,
    /// The run.
    pub run: Run,
    /// The records of the run with keys below it are handled; where there is none, all are.
    pub from: Option<Blob>,
    /// The least key of the run that is not handled.
    pub key: Blob,
    /// The inner nodes that were got.
    pub nodes: KeptList,
    /// What the levels above the leaves are to name.
    pub links: LinkList,
    /// How many records were applied.
    pub applied: u64,
}

impl Drop for Chart {
    fn drop(self) {
        let Chart {
            tree: _,
            root: _,
            run: _,
            from: _,
            key: _,
            nodes: _,
            links: _,
            applied: _,
        } = self;
    }
}
