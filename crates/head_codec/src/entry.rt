//! Pending entries that keep their own spelling.

ghost use Rattle.std.specs.Prelude.{◌≡◌, ◌<◌, ◌^◌, ◌∷◌, ◌++◌, None, IfOk, OnOk};
ghost use Rattle.std.specs.Int.{w64, to_be_bytes};
ghost use Rattle.db_base.specs.Change.{key_of};
ghost use Rattle.head_codec.specs.Pending.{pending_entry, FitsPending};
ghost use Rattle.head_codec.specs.Slot.{slot_of};

use crate::lists::Pending;
use crate::slot::slot_of;
use byte_format::try_add;
use change_codec::add_change;
use db_base::blob::Blob;
use db_base::change::Change;
use std::alloc::{AllocError, Global};
use std::marker::Model;

/// A pending entry with its slot and its spelling, which are made once: each head that holds it is written by a copy.
#[derive(Debug)]
pub struct Entry {
    pending: Pending,
    // The slot of its key.
    slot: usize,
    // The byte that says that an entry follows, and the entry.
    spelled: Blob,
}

impl Drop for Entry {
    fn drop(self) {
        let Entry {
            pending: _,
            slot: _,
            spelled: _,
        } = self;
    }
}

impl Model for Entry {
    ghost use Rattle.std.specs.Prelude.{◌≡◌, ◌<◌, ◌∷◌, None};
    ghost use Rattle.db_base.specs.Change.{key_of};
    ghost use Rattle.head_codec.specs.declared.lists.Pending.{Pending as Listed};
    ghost use Rattle.head_codec.specs.Pending.{pending_entry, FitsPending};
    ghost use Rattle.head_codec.specs.Slot.{slot_of};

    ghost Value = { Listed };

    ghost view = { λ e. e.pending };

    ghost invariant = { λ e. (e.spelled ≡ 1 ∷ (pending_entry None).spelling e.pending) × (FitsPending e.pending
        × ((e.slot ≡ slot_of (key_of e.pending.change)) × (e.slot < 4096))) };
}

// How many bytes stand before the key of an entry: one ahead, the tree, the page, the number, the change's kind, the key's length.
const BEFORE_KEY: usize = 20;

/// How many bytes an entry of the change is spelled in.
fn room_for(change: &Change) -> usize {
    let front = BEFORE_KEY + change.key().as_slice().len();
    match change {
        Change::Insert {
            payload,
            attr: None,
            ..
        } => front + 2 + payload.as_slice().len(),
        Change::Insert {
            payload,
            attr: Some(attr),
            ..
        } => front + 3 + payload.as_slice().len() + attr.as_slice().len(),
        Change::Update { payload, .. } => front + 2 + payload.as_slice().len(),
        Change::Delete { .. } => front,
        Change::Add { .. } => front + 8,
    }
}

/// The bytes of a number, the most significant one first.
pub(crate) fn bytes_of(number: u64) -> [u8; 8]
    ensures bytes { result ≡ to_be_bytes w64 number }
    ensures fits { number < 2 ^ 64 }
{
    number.to_be_bytes()
}

/// Appends the spelling of a pending entry, behind the byte that says that one follows. All before the change is appended at once.
fn add_entry(out: &mut Vec<u8>, entry: &Pending) -> Result<(), AllocError>
    ensures spelling { OnOk result (out.new.items ≡ out.old.items ++ (1 ∷ (pending_entry None).spelling entry.now)) }
    ensures valid { OnOk result (FitsPending entry.now) }
{
    let [a, b, c, d, e, f, g, h] = bytes_of(entry.page);
    let [i, j, k, l, m, n, o, p] = bytes_of(entry.number);
    let tree = entry.tree.get() as u8;
    try_add(
        out,
        &[1, tree, a, b, c, d, e, f, g, h, i, j, k, l, m, n, o, p],
    )?;
    add_change(out, &entry.change)?;
    Ok(())
}

impl Entry {
    /// The entry, its slot found and spelled here once for all heads that hold it. Fails for memory alone.
    pub fn of(alloc: Global, pending: Pending) -> Result<Entry, AllocError>
        ensures { IfOk result (λ e. e ≡ pending) }
    {
        let mut spelled = Vec::with_capacity(alloc, room_for(&pending.change))?;
        add_entry(&mut spelled, &pending)?;
        let slot = slot_of(pending.change.key().as_slice());
        Ok(Entry {
            pending,
            slot,
            spelled: Blob::of(spelled),
        })
    }

    /// What is pending.
    pub fn get(&self) -> &Pending
        ensures { result.now ≡ self.now }
    {
        &self.pending
    }

    /// The slot of its key: entries of different slots are of different keys.
    pub fn slot(&self) -> usize
        ensures slot { result ≡ slot_of (key_of self.now.change) }
        ensures within { result < 4096 }
    {
        self.slot
    }

    /// The spelling of the entry, behind the byte that says that one follows.
    pub(crate) fn spelled(&self) -> &[u8]
        ensures spelling { result.now ≡ 1 ∷ (pending_entry None).spelling self.now }
        ensures valid { FitsPending self.now }
    {
        self.spelled.as_slice()
    }
}
