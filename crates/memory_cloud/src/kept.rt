ghost use Rattle.std.specs.Prelude.{◌≡◌, IfOk, None};
ghost use Rattle.std.specs.Option.{option_copied};

use crate::shared::Shared;
use cloud_trait::who::Who;
use std::alloc::{AllocError, Global};
use std::marker::Model;

/// A landed version of an object as the cloud keeps it, seen as the version.
pub struct Kept {
    who: Who,
    bytes: Option<Shared>,
}

impl Model for Kept {
    ghost use Rattle.cloud_trait.specs.declared.state.Version.{Version};

    ghost Value = { Version };

    ghost view = { λ k. record { who = k.who; bytes = k.bytes } };
}

impl Drop for Kept {
    fn drop(self) {
        let Kept { who: _, bytes: _ } = self;
    }
}

impl Kept {
    /// The version behind these: with a copy of bytes, which shares what it can with the newest, or without bytes.
    pub fn behind(
        alloc: Global,
        versions: &[Kept],
        who: Who,
        bytes: Option<&[u8]>,
    ) -> Result<Kept, AllocError>
        ensures { IfOk result (λ k. k ≡ record { who = who; bytes = option_copied bytes.entry }) }
    {
        let bytes = match bytes {
            Some(bytes) => Some(shared(alloc, versions, bytes)?),
            None => None,
        };
        Ok(Kept { who, bytes })
    }

    /// The bytes of the version; none where the object was removed.
    pub fn bytes(&self) -> Option<&Shared>
        ensures { option_copied result ≡ self.now.bytes }
    {
        match &self.bytes {
            Some(bytes) => Some(bytes),
            None => None,
        }
    }
}

// A copy of bytes, which shares what it can with the newest version.
fn shared(alloc: Global, versions: &[Kept], bytes: &[u8]) -> Result<Shared, AllocError>
    ensures { IfOk result (λ s. s ≡ bytes.now) }
{
    if let Some(newest) = versions.last() {
        if let Some(earlier) = newest.bytes() {
            return earlier.next(alloc, bytes);
        }
    }
    Shared::whole(alloc, bytes)
}
