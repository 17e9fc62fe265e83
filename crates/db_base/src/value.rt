//! What a record holds: a payload, borrowed or computed, and an attribute.

ghost use Rattle.std.specs.Prelude.{◌≡◌, ℕ, Option, IfSome, MatchOption, length};
ghost use Rattle.std.specs.Option.{option_copied};
ghost use Rattle.db_base.specs.Change.{plus};

use std::marker::Model;

// The bytes of a payload: those that something keeps, or those of a sum that nothing keeps.
#[derive(Drop)]
enum Held<'a> {
    Kept(&'a [u8]),
    Sum([u8; 8]),
}

/// What a record holds, as a change left it: a payload, whose bytes are kept somewhere or are a sum that is kept nowhere, and an attribute or none.
/// No call takes memory.
#[derive(Drop)]
pub struct Value<'a> {
    held: Held<'a>,
    attr: Option<&'a [u8]>,
}

impl<'a> Model for Value<'a> {
    ghost use Rattle.std.specs.Option.{option_copied};
    ghost use Rattle.db_base.specs.Value.{Value as Held_in, held_bytes};

    ghost Value = { Held_in };

    ghost view = { λ v. record { payload = held_bytes v.held; attr = option_copied v.attr } };
}

/// The eight bytes of a payload with an amount added, modulo 2^64; `None` where it has not eight.
pub(crate) fn sum(payload: &[u8], amount: u64) -> Option<[u8; 8]>
    ensures value { MatchOption result (plus payload.now amount ≡ payload.now) (λ bytes. plus payload.now amount ≡ bytes) }
    ensures eight { IfSome result (λ _. length payload.now ≡ 8) }
{
    if payload.len() != 8 {
        return None;
    }
    let bytes = payload.first_chunk::<8>()?;
    Some(
        u64::from_be_bytes(*bytes)
            .wrapping_add(amount)
            .to_be_bytes(),
    )
}

impl<'a> Value<'a> {
    ghost use Rattle.db_base.specs.Value.{plain};

    /// A payload of these bytes, without attribute.
    pub fn of(payload: &'a [u8]) -> Value<'a>
        ensures { result ≡ plain payload.now }
    {
        Value::with(payload, None)
    }

    /// A payload and an attribute of these bytes.
    pub fn with(payload: &'a [u8], attr: Option<&'a [u8]>) -> Value<'a>
        ensures { result ≡ record { payload = payload.now; attr = option_copied attr.entry } }
    {
        Value {
            held: Held::Kept(payload),
            attr,
        }
    }

    /// The attribute's bytes, where there is one.
    pub fn attr(&self) -> Option<&'a [u8]>
        ensures { option_copied result ≡ self.now.attr }
    {
        self.attr
    }

    /// The payload's bytes.
    pub fn payload(&self) -> &[u8]
        ensures { result.now ≡ self.now.payload }
    {
        match &self.held {
            Held::Kept(bytes) => bytes,
            Held::Sum(bytes) => bytes.as_slice(),
        }
    }

    /// The attribute with another payload.
    pub(crate) fn with_payload(self, payload: &'a [u8]) -> Value<'a>
        ensures { result ≡ record { payload = payload.now; attr = self.entry.attr } }
    {
        Value::with(payload, self.attr)
    }

    /// With an amount added, where the payload has eight bytes.
    pub(crate) fn plus(self, amount: u64) -> Value<'a>
        ensures { result ≡ record { payload = plus self.entry.payload amount; attr = self.entry.attr } }
    {
        match sum(self.payload(), amount) {
            Some(bytes) => Value {
                held: Held::Sum(bytes),
                attr: self.attr,
            },
            None => self,
        }
    }
}
