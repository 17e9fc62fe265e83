use db_base::trouble::Trouble;

/// How a phase goes on behind an answer.
#[derive(Drop)]
pub enum Pace<A> {
    /// There is a next call.
    More,
    /// The phase ended.
    Ended(A),
    /// The checkpoint stops.
    Stopped(Trouble),
    /// Memory ran out.
    Memory,
}
