//! What a record may have beside its payload.

ghost use Rattle.std.specs.Prelude.{◌≡◌, ℕ, List, Option, IfOk, IfErr, IfSome, ◌⊎◌, ◌↔◌};
ghost use Rattle.std.specs.Option.{option_copied};
ghost use Rattle.db_base.specs.Key.{IsAttr};

use crate::refusal::{Refusal, Refused};
use std::alloc::{AllocError, Global};
use std::marker::Model;

/// The most bytes that an attribute has.
pub const MAX_ATTR: usize = 32;

/// The attribute of a record: 1 to 32 bytes.
#[derive(Debug)]
pub struct Attr {
    bytes: Vec<u8>,
}

impl Drop for Attr {
    fn drop(self) {
        let Attr { bytes: _ } = self;
    }
}

impl Model for Attr {
    ghost use Rattle.std.specs.Prelude.{List, ℕ};
    ghost use Rattle.db_base.specs.Key.{IsAttr};

    ghost Value = { List ℕ };

    ghost view = { λ a. a.bytes.items };

    ghost invariant = { λ a. IsAttr a.bytes.items };
}

impl Attr {
    /// A copy of the bytes as an attribute; BadAttr exactly for no byte or more than 32.
    pub fn new(alloc: Global, bytes: &[u8]) -> Result<Attr, Refused>
        ensures ok { IfOk result (λ a. (a ≡ bytes.now) × IsAttr bytes.now) }
        ensures bad { (result ≡ Err (Refused.Rule Refusal.BadAttr)) ↔ (IsAttr bytes.now → ⊥) }
        ensures only { IfErr result (λ e. (e ≡ Refused.Rule Refusal.BadAttr) ⊎ (e ≡ Refused.Memory)) }
    {
        if bytes.is_empty() || bytes.len() > MAX_ATTR {
            return Err(Refused::Rule(Refusal::BadAttr));
        }
        match Vec::from_slice(alloc, bytes) {
            Ok(bytes) => Ok(Attr { bytes }),
            Err(_) => Err(Refused::Memory),
        }
    }

    /// The bytes, of which there are 1 to 32.
    pub fn as_slice(&self) -> &[u8]
        ensures bytes { result.now ≡ self.now }
        ensures is_attr { IsAttr self.now }
    {
        self.bytes.as_slice()
    }

    /// A copy.
    pub fn copied(&self, alloc: Global) -> Result<Attr, AllocError>
        ensures same { IfOk result (λ a. a ≡ self.now) }
        ensures is_attr { IfOk result (λ _. IsAttr self.now) }
    {
        let bytes = Vec::from_slice(alloc, self.bytes.as_slice())?;
        Ok(Attr { bytes })
    }
}

/// The bytes of an attribute that may be there.
pub fn attr_bytes(attr: &Option<Attr>) -> Option<&[u8]>
    ensures bytes { option_copied result ≡ attr.now }
    ensures is_attr { IfSome attr.now IsAttr }
{
    match attr {
        Some(attr) => Some(attr.as_slice()),
        None => None,
    }
}

/// A copy of an attribute that may be there.
pub fn attr_copied(attr: &Option<Attr>, alloc: Global) -> Result<Option<Attr>, AllocError>
    ensures same { IfOk result (λ a. a ≡ attr.now) }
    ensures is_attr { IfOk result (λ _. IfSome attr.now IsAttr) }
{
    Ok(match attr {
        Some(attr) => Some(attr.copied(alloc)?),
        None => None,
    })
}
