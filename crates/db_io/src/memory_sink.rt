ghost use Rattle.std.specs.Prelude.{◌≡◌, [], ◌∷◌, ◌++◌, IfOk, OnOk, OnErr, IfErr};
ghost use Rattle.std.specs.List.{concat};
ghost use Rattle.db_io.specs.Content.{Counts};
ghost use Rattle.db_io.specs.MemoryEnd.{written_by, FailsByNumber};
ghost use Rattle.db_io.specs.Writes.{AddsOne, AddsPart};

use crate::fault::IoFault;
use crate::sink::Sink;
use db_base::blob::Blob;
use std::alloc::{AllocError, Global};
use std::marker::Model;

/// A sink in memory, which keeps each write by itself, fails at the calls that it is told and then takes nothing.
#[derive(Debug)]
pub struct MemorySink {
    alloc: Global,
    writes: Vec<Blob>,
    // The writes joined.
    written: Vec<u8>,
    failing: Vec<u64>,
    calls: u64,
    faults: u64,
}

impl Drop for MemorySink {
    fn drop(self) {
        let MemorySink {
            alloc: _,
            writes: _,
            written: _,
            failing: _,
            calls: _,
            faults: _,
        } = self;
    }
}

impl Model for MemorySink {
    ghost use Rattle.std.specs.Prelude.{◌≡◌, ◌≤◌, ℕ, List};
    ghost use Rattle.std.specs.List.{concat};
    ghost use Rattle.db_io.specs.MemoryEnd.{MemoryEnd};

    ghost Value = { MemoryEnd (List (List ℕ)) };

    ghost view = { λ s. record {
      content = s.writes.items;
      failing = s.failing.items;
      calls = s.calls;
      faults = s.faults;
    } };

    ghost invariant = { λ s. (s.written.items ≡ concat s.writes.items) × (s.faults ≤ s.calls) };
}

impl MemorySink {
    /// An empty sink, whose calls of these numbers fail; the first call is number 1. Refused for
    /// memory alone.
    pub fn new(alloc: Global, failing: &[u64]) -> Result<MemorySink, IoFault>
        ensures ok { IfOk result
            (λ s. s ≡ record { content = []; failing = failing.now; calls = 0; faults = 0 }) }
        ensures memory { IfErr result (λ e. e ≡ IoFault.Memory) }
    {
        let Ok(failing) = failing.to_vec(alloc) else {
            return Err(IoFault::Memory);
        };
        Ok(MemorySink {
            alloc,
            writes: Vec::new(alloc),
            written: Vec::new(alloc),
            failing,
            calls: 0,
            faults: 0,
        })
    }

    /// The writes, in their order.
    pub fn writes(&self) -> &[Blob]
        ensures { result.now ≡ self.now.content }
    {
        self.writes.as_slice()
    }

    /// What was written: the writes joined.
    pub fn written(&self) -> &[u8]
        ensures { result.now ≡ concat self.now.content }
    {
        self.written.as_slice()
    }
}

impl Sink for MemorySink {
    ghost told = { written_by };

    fn write(&mut self, bytes: &[u8]) -> Result<(), IoFault>
        ensures all { OnOk result (AddsOne (written_by self.old) (written_by self.new) bytes.now) }
        ensures front { OnErr result (AddsPart (written_by self.old) (written_by self.new) bytes.now) }
        ensures counts { Counts result (written_by self.old).faults (written_by self.new).faults }
        ensures nothing { OnErr result (self.new.content ≡ self.old.content) }
        ensures fails { FailsByNumber result self.old self.new }
    {
        if self.calls == u64::MAX {
            return Err(IoFault::Memory);
        }
        self.calls += 1;
        if self.failing.contains(&self.calls) {
            self.faults += 1;
            return Err(IoFault::Failed);
        }
        match keep(self.alloc, &mut self.writes, &mut self.written, bytes) {
            Ok(()) => Ok(()),
            Err(_) => Err(IoFault::Memory),
        }
    }
}

/// Keeps a write, by itself and behind what was written. Where memory runs out nothing changes.
#[tactic(auto, using(crate::proofs::WriteLemmas::concat_push))]
fn keep(
    alloc: Global,
    writes: &mut Vec<Blob>,
    written: &mut Vec<u8>,
    bytes: &[u8],
) -> Result<(), AllocError>
    requires { written.old.items ≡ concat writes.old.items }
    ensures ok { OnOk result (writes.new.items ≡ writes.old.items ++ bytes.now ∷ []) }
    ensures err { OnErr result (writes.new.items ≡ writes.old.items) }
    ensures joined { written.new.items ≡ concat writes.new.items }
{
    let write = Blob::copy_of(alloc, bytes)?;
    let before = written.len();
    written.extend_from_slice(bytes)?;
    if writes.push(write).is_err() {
        written.truncate(before);
        return Err(AllocError);
    }
    Ok(())
}
