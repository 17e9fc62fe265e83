/// A clock.
pub trait Ticks {
    /// The moment, in ticks.
    fn now(&mut self) -> u64;
}
