use folder_cloud::Ticks;
use std::rt::Clock;
use std::time::{SystemTime, UNIX_EPOCH};

/// A clock of whole seconds since the begin of 1970, one tick each. Where the system tells no time it stands at 0.
#[derive(Drop)]
pub(crate) struct Seconds<R> {
    rt: R,
}

impl<R: Clock + Drop> Seconds<R> {
    /// The clock of the system.
    pub fn of(rt: R) -> Seconds<R> {
        Seconds { rt }
    }
}

impl<R: Clock + Drop> Ticks for Seconds<R> {
    fn now(&mut self) -> u64 {
        match SystemTime::now(&self.rt) {
            Ok(now) => match now.duration_since(UNIX_EPOCH) {
                Ok(since) => since.as_secs(),
                Err(_) => 0,
            },
            Err(_) => 0,
        }
    }
}
