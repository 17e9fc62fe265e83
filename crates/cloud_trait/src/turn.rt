use db_base::trouble::Trouble;

/// What a step of a machine answers.
#[derive(Debug, Drop)]
pub enum Turn<A> {
    /// There is a next call.
    More,
    /// The machine ended.
    Ended(A),
    /// The machine stopped.
    Stopped(Trouble),
}

/// What a checkpoint answers at its end.
#[derive(Clone, Copy, Debug, PartialEq, Eq)]
pub struct CkptAnswer {
    /// How many records it applied.
    pub applied: u64,
    /// How many messages it deleted.
    pub deleted: u64,
    /// How many deletions failed.
    pub left: u64,
}
