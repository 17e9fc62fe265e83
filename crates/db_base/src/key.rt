ghost use Rattle.std.specs.Prelude.{◌≡◌, ℕ, ◌<◌, ◌≤◌, ◌↔◌, List, length, IfOk, IfErr, ◌⊎◌};
ghost use Rattle.db_base.specs.Key.{IsKey, IsPayload};
ghost use Rattle.db_base.specs.Limits.{longest_key, longest_payload};

use crate::refusal::{Refusal, Refused};
use crate::value::sum;
use std::alloc::{AllocError, Global};
use std::marker::Model;

/// The most bytes that a key has.
pub const MAX_KEY: usize = 64;

/// The most bytes that a payload has.
pub const MAX_PAYLOAD: usize = 1024;

/// The key of a record: 1 to 64 bytes, ordered as bytes.
#[derive(Debug)]
pub struct Key {
    bytes: Vec<u8>,
}

impl Drop for Key {
    fn drop(self) {
        let Key { bytes: _ } = self;
    }
}

impl Model for Key {
    ghost use Rattle.std.specs.Prelude.{List, ℕ};
    ghost use Rattle.db_base.specs.Key.{IsKey};

    ghost Value = { List ℕ };

    ghost view = { λ k. k.bytes.items };

    ghost invariant = { λ k. IsKey k.bytes.items };
}

impl Key {
    /// A copy of the bytes as a key.
    pub fn new(alloc: Global, bytes: &[u8]) -> Result<Key, Refused>
        ensures ok { IfOk result (λ k. (k ≡ bytes.now) × IsKey bytes.now) }
        ensures empty { (result ≡ Err (Refused.Rule Refusal.EmptyKey)) ↔ (length bytes.now ≡ 0) }
        ensures long { (result ≡ Err (Refused.Rule Refusal.LongKey)) ↔ (longest_key < length bytes.now) }
        ensures only { IfErr result (λ e. (e ≡ Refused.Rule Refusal.EmptyKey) ⊎ ((e ≡ Refused.Rule Refusal.LongKey) ⊎ (e ≡ Refused.Memory))) }
    {
        if bytes.is_empty() {
            return Err(Refused::Rule(Refusal::EmptyKey));
        }
        if bytes.len() > MAX_KEY {
            return Err(Refused::Rule(Refusal::LongKey));
        }
        match Vec::from_slice(alloc, bytes) {
            Ok(bytes) => Ok(Key { bytes }),
            Err(_) => Err(Refused::Memory),
        }
    }

    /// The key that 1 to 64 bytes are, taken over. Takes no memory.
    pub(crate) fn of(bytes: Vec<u8>) -> Key
        requires { IsKey bytes.items }
        ensures { result ≡ bytes.items }
    {
        Key { bytes }
    }

    /// The bytes, of which there are 1 to 64.
    pub fn as_slice(&self) -> &[u8]
        ensures bytes { result.now ≡ self.now }
        ensures is_key { IsKey self.now }
    {
        self.bytes.as_slice()
    }

    /// A copy.
    pub fn copied(&self, alloc: Global) -> Result<Key, AllocError>
        ensures same { IfOk result (λ k. k ≡ self.now) }
        ensures is_key { IfOk result (λ _. IsKey self.now) }
    {
        let bytes = Vec::from_slice(alloc, self.bytes.as_slice())?;
        Ok(Key { bytes })
    }
}

/// The payload of a record: 0 to 1,024 bytes.
#[derive(Debug)]
pub struct Payload {
    bytes: Vec<u8>,
}

impl Drop for Payload {
    fn drop(self) {
        let Payload { bytes: _ } = self;
    }
}

impl Model for Payload {
    ghost use Rattle.std.specs.Prelude.{List, ℕ};
    ghost use Rattle.db_base.specs.Key.{IsPayload};

    ghost Value = { List ℕ };

    ghost view = { λ p. p.bytes.items };

    ghost invariant = { λ p. IsPayload p.bytes.items };
}

impl Payload {
    ghost use Rattle.db_base.specs.Change.{plus};

    /// A copy of the bytes as a payload.
    pub fn new(alloc: Global, bytes: &[u8]) -> Result<Payload, Refused>
        ensures ok { IfOk result (λ p. (p ≡ bytes.now) × IsPayload bytes.now) }
        ensures long { (result ≡ Err (Refused.Rule Refusal.LongPayload)) ↔ (longest_payload < length bytes.now) }
        ensures only { IfErr result (λ e. (e ≡ Refused.Rule Refusal.LongPayload) ⊎ (e ≡ Refused.Memory)) }
    {
        if bytes.len() > MAX_PAYLOAD {
            return Err(Refused::Rule(Refusal::LongPayload));
        }
        match Vec::from_slice(alloc, bytes) {
            Ok(bytes) => Ok(Payload { bytes }),
            Err(_) => Err(Refused::Memory),
        }
    }

    /// The bytes, of which there are at most 1,024.
    pub fn as_slice(&self) -> &[u8]
        ensures bytes { result.now ≡ self.now }
        ensures is_payload { IsPayload self.now }
    {
        self.bytes.as_slice()
    }

    /// Adds an amount, modulo 2^64, where there are eight bytes; another payload stays. Takes no memory.
    pub(crate) fn add(&mut self, amount: u64)
        ensures { self.new ≡ plus self.old amount }
    {
        if let Some(bytes) = sum(self.bytes.as_slice(), amount) {
            self.bytes.as_mut_slice().copy_from_slice(&bytes);
        }
    }

    /// A copy.
    pub fn copied(&self, alloc: Global) -> Result<Payload, AllocError>
        ensures same { IfOk result (λ p. p ≡ self.now) }
        ensures is_payload { IfOk result (λ _. IsPayload self.now) }
    {
        let bytes = Vec::from_slice(alloc, self.bytes.as_slice())?;
        Ok(Payload { bytes })
    }
}
