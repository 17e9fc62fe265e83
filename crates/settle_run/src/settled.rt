/// How a settling ends.
#[derive(Clone, Copy, Debug, PartialEq, Eq)]
pub struct Settled {
    /// How many service calls it made.
    pub calls: u64,
}
