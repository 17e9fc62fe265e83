ghost use Rattle.std.specs.Prelude.{◌≡◌};

use db_base::ids::SessionNo;
use std::marker::Model;

/// Who makes a call: a session, at an event of the schedule. Seen as the two numbers.
#[derive(Clone, Copy, Debug, PartialEq, Eq)]
pub struct Who {
    /// The session; 0 is the settler.
    pub session: SessionNo,
    /// The number of the event, from 1.
    pub event: u64,
}

impl Model for Who {
    ghost use Rattle.cloud_trait.specs.Caller.{Caller};

    ghost Value = { Caller };

    ghost view = { λ w. record { session = w.session; event = w.event } };

    ghost inverse = { λ c. record { session = c.session; event = c.event } };
}

impl Who {
    ghost use Rattle.cloud_trait.specs.Caller.{Caller};

    /// The session at the event.
    pub fn new(session: SessionNo, event: u64) -> Who
        ensures session { result.session ≡ session }
        ensures event { result.event ≡ event }
    {
        Who { session, event }
    }
}
