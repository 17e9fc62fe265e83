ghost use Rattle.std.specs.Prelude.{◌≡◌, IfOk, OnErr};
ghost use Rattle.db_io.specs.Content.{Told, Gives, Counts};

use crate::fault::IoFault;
use db_base::blob::Blob;

/// Where bytes come from.
pub trait Source {
    // What it will give from here on, where it tells, and how many of its calls failed.
    ghost told: { Self → Told };

    /// Appends at most `max` bytes and says how many; 0 of some that were wanted is the end. An
    /// error appends nothing and takes nothing.
    fn read(&mut self, into: &mut Blob, max: usize) -> Result<usize, IoFault>
        ensures gives { IfOk result (Gives into.old into.new (told self.old) (told self.new) max) }
        ensures err { OnErr result
            ((into.new ≡ into.old) × ((told self.new).content ≡ (told self.old).content)) }
        ensures counts { Counts result (told self.old).faults (told self.new).faults };
}
