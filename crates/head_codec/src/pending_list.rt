//! The pending entries of a head, with their spellings one behind the other.

ghost use Rattle.std.specs.Prelude.{◌≡◌, [], ◌∷◌, ◌++◌, true, take, length, None, OnOk, OnErr};
ghost use Rattle.std.specs.Fn.{CalledAt};
ghost use Rattle.std.specs.List.{AllByRecursion};
ghost use Rattle.std.specs.List.Retain.{IsFiltered};
ghost use Rattle.byte_format.specs.Format.{list_spelling};
ghost use Rattle.head_codec.specs.Pending.{pending_entry, AreSpelled, FitsPending};

use crate::entry::Entry;
use crate::pending::{add_entries, add_pending};
use byte_format::{try_add, try_add_u8};
use std::alloc::{AllocError, Global};
use std::marker::Model;

/// The pending entries of a head, in the order of commit. Their spellings are kept too, so that a head is written by one copy.
#[derive(Debug)]
pub struct PendingList {
    entries: Vec<Entry>,
    // The spellings of the entries, one behind the other, where they are known.
    spelled: Vec<u8>,
    is_spelled: bool,
}

impl Drop for PendingList {
    fn drop(self) {
        let PendingList {
            entries: _,
            spelled: _,
            is_spelled: _,
        } = self;
    }
}

impl Model for PendingList {
    ghost use Rattle.std.specs.Prelude.{◌≡◌, true, List};
    ghost use Rattle.head_codec.specs.declared.lists.Pending.{Pending};
    ghost use Rattle.head_codec.specs.Pending.{AreSpelled};

    ghost Value = { List Pending };

    ghost view = { λ l. l.entries.items };

    ghost invariant = { λ l. l.is_spelled ≡ true → AreSpelled l.entries.items l.spelled.items };
}

/// Spells entries anew, and answers whether there was memory for it.
fn spell(spelled: &mut Vec<u8>, entries: &[Entry]) -> bool
    ensures { result ≡ true → AreSpelled entries.now spelled.new.items }
{
    spelled.clear();
    add_entries(spelled, entries).is_ok()
}

/// Spells entries that are not spelled yet, and answers whether they are now.
fn spell_missing(spelled: &mut Vec<u8>, is_spelled: bool, entries: &[Entry]) -> bool
    requires { is_spelled ≡ true → AreSpelled entries.now spelled.old.items }
    ensures { result ≡ true → AreSpelled entries.now spelled.new.items }
{
    if is_spelled {
        return true;
    }
    spell(spelled, entries)
}

/// Spells one entry more behind entries that are spelled.
fn spell_next(spelled: &mut Vec<u8>, entries: &[Entry], entry: &Entry) -> Result<(), AllocError>
    requires { AreSpelled entries.now spelled.old.items }
    ensures { OnOk result (AreSpelled (entries.now ++ entry.now ∷ []) spelled.new.items) }
{
    try_add(spelled, entry.spelled())?;
    Ok(())
}

/// Spells entries and one more, and answers whether all are spelled now.
fn spell_more(spelled: &mut Vec<u8>, is_spelled: bool, entries: &[Entry], entry: &Entry) -> bool
    requires { is_spelled ≡ true → AreSpelled entries.now spelled.old.items }
    ensures { result ≡ true → AreSpelled (entries.now ++ entry.now ∷ []) spelled.new.items }
{
    if !spell_missing(spelled, is_spelled, entries) {
        return false;
    }
    spell_next(spelled, entries, entry).is_ok()
}

impl PendingList {
    /// No entry. Takes no memory.
    pub fn new(alloc: Global) -> PendingList
        ensures { result ≡ [] }
    {
        PendingList::of(alloc, Vec::new(alloc))
    }

    /// The entries of a vector, which it takes over; they are spelled once more are added. Takes no memory.
    pub fn of(alloc: Global, entries: Vec<Entry>) -> PendingList
        ensures { result ≡ entries.items }
    {
        PendingList {
            entries,
            spelled: Vec::new(alloc),
            is_spelled: false,
        }
    }

    /// The entries.
    pub fn as_slice(&self) -> &[Entry]
        ensures { result.now ≡ self.now }
    {
        self.entries.as_slice()
    }

    /// How many entries.
    pub fn len(&self) -> usize
        ensures { result ≡ length self.now }
    {
        self.entries.len()
    }

    /// Adds an entry at the end. Where memory runs out nothing changes.
    pub fn push(&mut self, entry: Entry) -> Result<(), AllocError>
        ensures ok { OnOk result (self.new ≡ self.old ++ entry ∷ []) }
        ensures err { OnErr result (self.new ≡ self.old) }
    {
        let is_spelled = spell_more(
            &mut self.spelled,
            self.is_spelled,
            self.entries.as_slice(),
            &entry,
        );
        match self.entries.push(entry) {
            Ok(()) => {
                self.is_spelled = is_spelled;
                Ok(())
            }
            Err(_) => {
                self.is_spelled = false;
                Err(AllocError)
            }
        }
    }

    /// Keeps the first entries alone, at most so many.
    pub fn truncate(&mut self, len: usize)
        ensures { self.new ≡ take len self.old }
    {
        self.entries.truncate(len);
        self.is_spelled = spell(&mut self.spelled, self.entries.as_slice());
    }

    /// Keeps the entries for which `keep` answers true, in their order.
    pub fn retain<F: FnMut(&Entry) -> bool>(&mut self, keep: F)
        requires { F.IsAlwaysCallable keep }
        ensures { IsFiltered (CalledAt F.FnMut) keep self.old self.new }
    {
        let before = self.entries.len();
        self.entries.retain(keep);
        if self.entries.len() < before {
            self.is_spelled = spell(&mut self.spelled, self.entries.as_slice());
        }
    }

    /// Appends the spelling of the list.
    pub(crate) fn add_to(&self, out: &mut Vec<u8>) -> Result<(), AllocError>
        ensures spelling { OnOk result (out.new.items ≡ out.old.items ++ list_spelling pending_entry None self.now) }
        ensures valid { OnOk result (AllByRecursion FitsPending self.now) }
    {
        if !self.is_spelled {
            return add_pending(out, self.entries.as_slice());
        }
        try_add(out, self.spelled.as_slice())?;
        try_add_u8(out, 0)?;
        Ok(())
    }
}
