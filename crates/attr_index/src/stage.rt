/// What the walk in hand of a look-up is for.
#[derive(Clone, Copy, Debug, PartialEq, Eq)]
pub enum Stage {
    /// It lists the entries of the attribute in the index.
    Index,
    /// It reads a listed record.
    Records,
}
