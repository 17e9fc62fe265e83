//! How many calls may be made.

ghost use Rattle.std.specs.Prelude.{◌≡◌, ◌+◌, true, false};

use std::marker::Model;

/// How many service calls of sessions may still be made.
#[derive(Debug, Drop)]
pub struct Quota {
    left: u64,
}

impl Model for Quota {
    ghost use Rattle.std.specs.Prelude.{ℕ};

    ghost Value = { ℕ };

    ghost view = { λ q. q.left };
}

impl Quota {
    /// So many calls may be made.
    pub fn new(left: u64) -> Quota
        ensures { result ≡ left }
    {
        Quota { left }
    }

    /// Takes one, where one is left.
    pub(crate) fn take(&mut self) -> bool
        ensures taken { result ≡ true → self.new + 1 ≡ self.old }
        ensures spent { result ≡ false → self.new ≡ self.old }
        ensures none { result ≡ false → self.old ≡ 0 }
    {
        match self.left.checked_sub(1) {
            Some(left) => {
                self.left = left;
                true
            }
            None => false,
        }
    }
}
