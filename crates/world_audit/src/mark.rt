/// How far an audit has come.
#[derive(Clone, Copy, Debug, PartialEq, Eq)]
pub struct Mark {
    /// How many entries are committed.
    pub committed: usize,
    /// How many entries are applied.
    pub order: usize,
}
