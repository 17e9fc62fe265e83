//! Pending entries read from bytes and written to them.

ghost use Rattle.std.specs.Prelude.{◌≡◌, ◌++◌, None, OnOk};
ghost use Rattle.std.specs.List.{AllByRecursion};
ghost use Rattle.std.specs.Option.{option_copied};
ghost use Rattle.byte_format.specs.Format.{list_spelling};
ghost use Rattle.byte_format.specs.Gives.{GivesOwned};
ghost use Rattle.head_codec.specs.Pending.{pending_entry, spellings, FitsPending};

use crate::entry::Entry;
use crate::lists::Pending;
use byte_format::{OwnedRules, ReadFault, try_add, try_add_u8, u8_at, u64_at};
use change_codec::{read_change, tree_of};
use std::alloc::{AllocError, Global};

/// What a pending entry may be, whatever the one before it.
pub struct PendingRules;

impl OwnedRules for PendingRules {
    type Item = Entry;

    ghost item_format = { λ _ before. pending_entry before };

    fn item<'b>(
        &self,
        alloc: Global,
        _before: Option<&Entry>,
        bytes: &'b [u8],
    ) -> Result<(Entry, &'b [u8]), ReadFault> {
        let (tree, rest) = u8_at(bytes, 1, 16)?;
        let (page, rest) = u64_at(rest, 0, u64::MAX)?;
        let (number, rest) = u64_at(rest, 1, u64::MAX)?;
        let (change, rest) = read_change(alloc, rest)?;
        let pending = Pending {
            tree: tree_of(tree),
            page,
            number,
            change,
        };
        Ok((Entry::of(alloc, pending)?, rest))
    }
}

/// Appends the spellings of pending entries, which each of them keeps, one behind the other.
pub(crate) fn add_entries(out: &mut Vec<u8>, entries: &[Entry]) -> Result<(), AllocError>
    ensures spelling { OnOk result (out.new.items ≡ out.old.items ++ spellings entries.now) }
    ensures valid { OnOk result (AllByRecursion FitsPending entries.now) }
{
    let mut left = entries;
    while let Some((entry, rest)) = left.split_first() {
        try_add(out, entry.spelled())?;
        left = rest;
    }
    Ok(())
}

/// Appends the spelling of pending entries.
pub fn add_pending(out: &mut Vec<u8>, entries: &[Entry]) -> Result<(), AllocError>
    ensures spelling { OnOk result (out.new.items ≡ out.old.items ++ list_spelling pending_entry None entries.now) }
    ensures valid { OnOk result (AllByRecursion FitsPending entries.now) }
{
    add_entries(out, entries)?;
    try_add_u8(out, 0)?;
    Ok(())
}
