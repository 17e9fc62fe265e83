ghost use Rattle.std.specs.Prelude.{◌≡◌};

use db_base::names::Lock;
use std::marker::Model;

/// A lease of a lock: the generation in which it was given, and its end in ticks. It is over where
/// its end is not after the clock. It cannot be copied (Gray and Cheriton, 1989).
#[derive(Debug, Drop)]
pub struct Lease {
    lock: Lock,
    generation: u64,
    end: u64,
}

impl Model for Lease {
    ghost use Rattle.cloud_trait.specs.Claim.{Claim};

    ghost Value = { Claim };

    ghost view = { λ l. record { lock = l.lock; generation = l.generation; end = l.end } };
}

impl Lease {
    ghost use Rattle.cloud_trait.specs.Claim.{extended};

    /// A lease as a cloud gives it. For implementations of `Cloud` alone.
    pub fn given(lock: Lock, generation: u64, end: u64) -> Lease
        ensures { result ≡ record { lock = lock; generation = generation; end = end } }
    {
        Lease {
            lock,
            generation,
            end,
        }
    }

    /// Moves the end. For implementations of `Cloud` alone.
    pub fn extend(&mut self, end: u64)
        ensures { self.new ≡ extended self.old end }
    {
        self.end = end;
    }

    /// What it locks.
    pub fn lock(&self) -> Lock
        ensures { result ≡ self.now.lock }
    {
        self.lock
    }

    /// The generation of the lock in which it was given, from 1.
    pub fn generation(&self) -> u64
        ensures { result ≡ self.now.generation }
    {
        self.generation
    }

    /// Its end, in ticks.
    pub fn end(&self) -> u64
        ensures { result ≡ self.now.end }
    {
        self.end
    }
}
