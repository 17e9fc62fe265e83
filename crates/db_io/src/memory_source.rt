ghost use Rattle.std.specs.Prelude.{◌≡◌, IfOk, OnErr, IfErr, min, length};
ghost use Rattle.db_io.specs.Content.{Gives, Counts};
ghost use Rattle.db_io.specs.MemoryEnd.{told_by, FailsByNumber};

use crate::fault::IoFault;
use crate::source::Source;
use db_base::blob::Blob;
use std::alloc::Global;
use std::marker::Model;

/// A source over bytes in memory, which fails at the calls that it is told.
#[derive(Debug)]
pub struct MemorySource {
    bytes: Vec<u8>,
    at: usize,
    failing: Vec<u64>,
    calls: u64,
    faults: u64,
}

impl Drop for MemorySource {
    fn drop(self) {
        let MemorySource {
            bytes: _,
            at: _,
            failing: _,
            calls: _,
            faults: _,
        } = self;
    }
}

impl Model for MemorySource {
    ghost use Rattle.std.specs.Prelude.{◌≤◌, ℕ, List, drop, vec_len};
    ghost use Rattle.db_io.specs.MemoryEnd.{MemoryEnd};

    ghost Value = { MemoryEnd (List ℕ) };

    ghost view = { λ s. record {
      content = drop s.at s.bytes.items;
      failing = s.failing.items;
      calls = s.calls;
      faults = s.faults;
    } };

    ghost invariant = { λ s. (s.at ≤ vec_len s.bytes) × (s.faults ≤ s.calls) };
}

impl MemorySource {
    /// A source of these bytes, whose calls of these numbers fail; the first call is number 1.
    /// Refused for memory alone.
    pub fn new(alloc: Global, bytes: &[u8], failing: &[u64]) -> Result<MemorySource, IoFault>
        ensures ok { IfOk result
            (λ s. s ≡ record { content = bytes.now; failing = failing.now; calls = 0; faults = 0 }) }
        ensures memory { IfErr result (λ e. e ≡ IoFault.Memory) }
    {
        let Ok(bytes) = bytes.to_vec(alloc) else {
            return Err(IoFault::Memory);
        };
        let Ok(failing) = failing.to_vec(alloc) else {
            return Err(IoFault::Memory);
        };
        Ok(MemorySource {
            bytes,
            at: 0,
            failing,
            calls: 0,
            faults: 0,
        })
    }
}

impl Source for MemorySource {
    ghost told = { told_by };

    fn read(&mut self, into: &mut Blob, max: usize) -> Result<usize, IoFault>
        ensures gives { IfOk result (Gives into.old into.new (told_by self.old) (told_by self.new) max) }
        ensures err { OnErr result
            ((into.new ≡ into.old)
            × ((told_by self.new).content ≡ (told_by self.old).content)) }
        ensures counts { Counts result (told_by self.old).faults (told_by self.new).faults }
        ensures many { IfOk result (λ n. n ≡ min max (length self.old.content)) }
        ensures fails { FailsByNumber result self.old self.new }
    {
        if self.calls == u64::MAX {
            return Err(IoFault::Memory);
        }
        self.calls += 1;
        if self.failing.contains(&self.calls) {
            self.faults += 1;
            return Err(IoFault::Failed);
        }
        let rest = &self.bytes[self.at..];
        let count = rest.len().min(max);
        match into.add(&rest[..count]) {
            Ok(()) => {
                self.at += count;
                Ok(count)
            }
            Err(_) => Err(IoFault::Memory),
        }
    }
}
