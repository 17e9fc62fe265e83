use cloud_trait::lease::Lease;
use db_base::ids::ClientId;
use head_codec::head::Head;
use std::marker::Model;

/// What an open session of a client has in hand. Its head has a spelling.
#[derive(Debug)]
pub struct Home {
    /// The client.
    pub client: ClientId,
    /// The client's lease.
    pub lease: Lease,
    /// The client's head as the session knows it.
    pub head: Head,
    /// The last transaction number of the epoch that a commit took, 0 where none did.
    pub attempt: u64,
}

impl Drop for Home {
    fn drop(self) {
        let Home {
            client: _,
            lease: _,
            head: _,
            attempt: _,
        } = self;
    }
}

impl Home {
    ghost use Rattle.std.specs.Prelude.{◌≡◌};

    /// The lease; the rest is let go.
    pub fn into_lease(self) -> Lease
        ensures { result ≡ self.lease }
    {
        let Home {
            client: _,
            lease,
            head: _,
            attempt: _,
        } = self;
        lease
    }
}

impl Model for Home {
    ghost use Rattle.head_codec.specs.Spelling.{HasSpelling};
    ghost use Rattle.recover_run.specs.Holding.{Holding};

    ghost Value = { Holding };

    ghost view = { λ h. record { client = h.client; lease = h.lease; head = h.head; attempt = h.attempt } };

    ghost invariant = { λ h. HasSpelling h.head };
}
