ghost use Rattle.std.specs.Prelude.{◌≡◌, ◌≤◌};

use crate::ticks::Ticks;

/// The greatest moment that was read of a clock.
#[derive(Drop)]
pub(crate) struct Clock<K> {
    ticks: K,
    latest: u64,
}

impl<K: Ticks + Drop> Clock<K> {
    /// Reads a clock for the first time.
    pub fn start(ticks: K) -> Clock<K> {
        let mut ticks = ticks;
        let latest = ticks.now();
        Clock { ticks, latest }
    }

    /// Reads the clock again: the moment, which never falls.
    pub fn read(&mut self) -> u64
        ensures latest { result ≡ self.new.latest }
        ensures later { self.old.latest ≤ self.new.latest }
    {
        let now = self.ticks.now();
        self.latest = self.latest.max(now);
        self.latest
    }

    /// The moment that was read last.
    pub fn latest(&self) -> u64
        ensures { result ≡ self.now.latest }
    {
        self.latest
    }
}
