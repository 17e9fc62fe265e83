/// What a sweep answers at its end.
#[derive(Clone, Copy, Debug, PartialEq, Eq)]
pub struct Swept {
    /// How many of the listed pages it came to.
    pub kept: u64,
    /// How many it removed: the others.
    pub removed: u64,
}
