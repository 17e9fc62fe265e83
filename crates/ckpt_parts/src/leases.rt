//! The leases that a checkpoint holds.

use cloud_trait::lease::Lease;

/// How long a leaf's lease is given for, in ticks.
pub const PAGE_TICKS: u64 = 30;

/// The leases that a checkpoint holds: that of its page or tree, and one of a leaf that it took while it held the first.
pub struct Leases {
    /// That of the page or tree of the checkpoint.
    pub first: Option<Lease>,
    /// That of the leaf at hand.
    pub second: Option<Lease>,
}

impl Drop for Leases {
    fn drop(self) {
        let Leases {
            first: _,
            second: _,
        } = self;
    }
}

impl Leases {
    ghost use Rattle.std.specs.Prelude.{◌≡◌};
    ghost use Rattle.std.specs.Option.{option_copied};
    ghost use Rattle.ckpt_parts.specs.Leasing.{no_leases, newest_lease, without_newest};

    /// No lease.
    pub fn none() -> Leases
        ensures { result ≡ no_leases }
    {
        Leases {
            first: None,
            second: None,
        }
    }

    /// The newest lease.
    pub fn newest(&self) -> Option<&Lease>
        ensures { option_copied result ≡ newest_lease self.now }
    {
        match &self.second {
            Some(lease) => Some(lease),
            None => self.first.as_ref(),
        }
    }

    /// Hands the newest lease out.
    pub fn give_newest(&mut self) -> Option<Lease>
        ensures lease { result ≡ newest_lease self.old }
        ensures left { self.new ≡ without_newest self.old }
    {
        match self.second.take() {
            Some(lease) => Some(lease),
            None => self.first.take(),
        }
    }
}
