/// How a call goes: as its wish makes it.
#[derive(Clone, Copy, Debug, PartialEq, Eq)]
pub enum Mood {
    /// As it should.
    Plain,
    /// It fails, and nothing lands.
    Fail,
    /// It lands, and answers that it failed.
    Lost,
    /// It brings no message, or finds the lock held.
    Hide,
    /// It brings the n-th version.
    Old(u64),
    /// It brings the messages at the positions of the wish.
    Give,
}
