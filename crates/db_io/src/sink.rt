ghost use Rattle.std.specs.Prelude.{OnOk, OnErr};
ghost use Rattle.db_io.specs.Content.{Counts};
ghost use Rattle.db_io.specs.Writes.{Written, AddsOne, AddsPart};

use crate::fault::IoFault;

/// Where bytes go to.
pub trait Sink {
    // The writes that were made to it, where it tells them, and how many of its calls failed.
    ghost told: { Self → Written };

    /// Writes all the bytes, in one write, or at an error a prefix of them in at most one.
    fn write(&mut self, bytes: &[u8]) -> Result<(), IoFault>
        ensures all { OnOk result (AddsOne (told self.old) (told self.new) bytes.now) }
        ensures front { OnErr result (AddsPart (told self.old) (told self.new) bytes.now) }
        ensures counts { Counts result (told self.old).faults (told self.new).faults };
}
