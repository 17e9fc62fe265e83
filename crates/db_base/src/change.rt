ghost use Rattle.std.specs.Prelude.{◌≡◌, ℕ, List, Option, IfOk};
ghost use Rattle.db_base.specs.Change.{key_of, act, net, IsChange};
ghost use Rattle.db_base.specs.Value.{Value as Record};

use crate::attr::{Attr, attr_bytes, attr_copied};
use crate::key::{Key, Payload};
use crate::value::Value;
use std::alloc::{AllocError, Global};

/// A change of one record. Changes are blind: they do not depend on a read.
#[derive(Debug)]
pub enum Change {
    /// Sets the payload and sets or clears the attribute, whether or not the key is there.
    Insert {
        key: Key,
        payload: Payload,
        attr: Option<Attr>,
    },
    /// Sets the payload only where the key is there, and keeps the attribute.
    Update {
        key: Key,
        payload: Payload,
    },
    /// Removes the record where it is there.
    Delete {
        key: Key,
    },
    /// Adds to the payload, modulo 2^64, where the key is there and the payload has eight bytes, and keeps the attribute.
    Add {
        key: Key,
        amount: u64,
    },
}

impl Drop for Change {
    fn drop(self) {
        match self {
            Change::Insert {
                key: _,
                payload: _,
                attr: _,
            } => {}
            Change::Update { key: _, payload: _ } => {}
            Change::Delete { key: _ } => {}
            Change::Add { key: _, amount: _ } => {}
        }
    }
}

impl Change {
    ghost use Rattle.std.specs.Prelude.{List, ℕ};
    ghost use Rattle.db_base.specs.Change.{key_of, goes_to_leaf, net};
    ghost use Rattle.db_base.specs.declared.change.Change.TheVariants.{Add};

    /// The key of the record that it changes.
    pub fn key(&self) -> &Key
        ensures { result.now ≡ key_of self.now }
    {
        match self {
            Change::Insert { key, .. } => key,
            Change::Update { key, .. } => key,
            Change::Delete { key } => key,
            Change::Add { key, .. } => key,
        }
    }

    /// Whether it goes to the queue of a leaf, where its key has no pending entry.
    pub fn goes_to_leaf(&self) -> bool
        ensures { result ≡ goes_to_leaf self.now }
    {
        match self {
            Change::Insert { .. } => false,
            Change::Update { .. } => true,
            Change::Delete { .. } => false,
            Change::Add { .. } => true,
        }
    }

    /// Becomes the one change with its own effect and then that of a later change of the same key. Takes no memory.
    pub fn join(&mut self, later: Change)
        requires { key_of self.old ≡ key_of later }
        ensures { self.new ≡ net self.old later }
    {
        match later {
            Change::Update { key, payload } => match self {
                Change::Insert { payload: old, .. } => *old = payload,
                Change::Update { payload: old, .. } => *old = payload,
                Change::Delete { .. } => {}
                Change::Add { .. } => *self = Change::Update { key, payload },
            },
            Change::Add { key: _, amount } => self.add(amount),
            other => *self = other,
        }
    }

    // The effect of an addition behind it.
    fn add(&mut self, more: u64)
        ensures { (key : List ℕ) → self.new ≡ net self.old (Add key more) }
    {
        match self {
            Change::Insert { payload, .. } => payload.add(more),
            Change::Update { payload, .. } => payload.add(more),
            Change::Delete { .. } => {}
            Change::Add { amount, .. } => *amount = amount.wrapping_add(more),
        }
    }

    /// A copy.
    pub fn copied(&self, alloc: Global) -> Result<Change, AllocError>
        ensures same { IfOk result (λ c. c ≡ self.now) }
        ensures is_change { IfOk result (λ _. IsChange self.now) }
    {
        Ok(match self {
            Change::Insert { key, payload, attr } => Change::Insert {
                key: key.copied(alloc)?,
                payload: payload.copied(alloc)?,
                attr: attr_copied(attr, alloc)?,
            },
            Change::Update { key, payload } => Change::Update {
                key: key.copied(alloc)?,
                payload: payload.copied(alloc)?,
            },
            Change::Delete { key } => Change::Delete {
                key: key.copied(alloc)?,
            },
            Change::Add { key, amount } => Change::Add {
                key: key.copied(alloc)?,
                amount: *amount,
            },
        })
    }
}

/// What the record of the change's key holds after it, from what it held before. Takes no memory.
pub fn act<'a>(old: Option<Value<'a>>, change: &'a Change) -> Option<Value<'a>>
    ensures { result ≡ act old.entry change.now }
{
    match change {
        Change::Insert { payload, attr, .. } => Some(Value::with(
            payload.as_slice(),
            attr_bytes(attr),
        )),
        Change::Update { payload, .. } => match old {
            Some(value) => Some(value.with_payload(payload.as_slice())),
            None => None,
        },
        Change::Delete { .. } => None,
        Change::Add { amount, .. } => match old {
            Some(value) => Some(value.plus(*amount)),
            None => None,
        },
    }
}

/// The one change with the effect of both in order, of two changes of one key. Takes no memory.
pub fn net(first: Change, second: Change) -> Change
    requires { key_of first ≡ key_of second }
    ensures { result ≡ net first second }
{
    let mut both = first;
    both.join(second);
    both
}

/// Two changes of one key act as their net change.
pub fn net_acts_as_both()
    ensures { (old : Option Record) (first second : Change) → act (act old first) second ≡ act old (net first second) }
{}
