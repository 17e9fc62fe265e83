//! Pending entries by the slots of their keys.

ghost use Rattle.std.specs.Prelude.{◌≡◌, ◌+◌, ◌≤◌, ◌<◌, ◌==◌, ℕ, length, slice_get, slice_index, if◌then◌else◌, IfSome, OnOk};
ghost use Rattle.std.specs.Option.{option_copied};
ghost use Rattle.route_plan.specs.Index.{entry_upto, IsTable};
ghost use Rattle.route_plan.specs.Queue.{last_pending};

use crate::queue::is_of;
use db_base::ids::TreeId;
use head_codec::entry::Entry;
use head_codec::slot::{SLOTS, slot_of};
use std::alloc::{AllocError, Global};

/// A hash table of the keys of pending entries, whose chains lead from newer entries to older ones.
pub(crate) struct SlotTable {
    // By slot: how many entries there are up to the newest one of the slot.
    newest: Vec<usize>,
    // By entry: how many there are up to the one before it of its slot.
    before: Vec<usize>,
}

impl Drop for SlotTable {
    fn drop(self) {
        let SlotTable {
            newest: _,
            before: _,
        } = self;
    }
}

/// The entry at an index.
fn entry_at<'a>(pending: &'a [Entry], index: usize) -> Option<&'a Entry>
    ensures { option_copied result ≡ slice_get pending.now index }
{
    pending.get(index)
}

/// The last of the first so many entries.
fn entry_upto<'a>(pending: &'a [Entry], upto: usize) -> Option<&'a Entry>
    ensures entry { option_copied result ≡ entry_upto pending.now upto }
    ensures some { IfSome result (λ _. 1 ≤ upto) }
{
    if upto == 0 {
        return None;
    }
    pending.get(upto - 1)
}

/// Lets a slot lead to an entry.
fn put(newest: &mut Vec<usize>, slot: usize, upto: usize)
    requires { slot < length newest.old.items }
    ensures each { (s : ℕ) → slice_index newest.new.items s ≡ (if s == slot then upto else slice_index newest.old.items s) }
    ensures length { length newest.new.items ≡ length newest.old.items }
{
    newest[slot] = upto;
}

/// Lets one entry more lead to another.
fn push(before: &mut Vec<usize>, upto: usize) -> Result<(), AllocError>
    ensures kept { OnOk result ((i : ℕ) → i < length before.old.items → slice_index before.new.items i ≡ slice_index before.old.items i) }
    ensures last { OnOk result (slice_index before.new.items (length before.old.items) ≡ upto) }
    ensures length { OnOk result (length before.new.items ≡ length before.old.items + 1) }
{
    before.push(upto)?;
    Ok(())
}

impl SlotTable {
    ghost use Rattle.std.specs.Prelude.{◌≡◌, IfOk};
    ghost use Rattle.std.specs.Option.{option_copied};
    ghost use Rattle.route_plan.specs.Index.{IsTable};
    ghost use Rattle.route_plan.specs.Queue.{last_pending};

    /// The table of entries. Fails for memory alone.
    pub(crate) fn of(alloc: Global, pending: &[Entry]) -> Result<SlotTable, AllocError>
        ensures { IfOk result (λ t. IsTable pending.now t.newest.items t.before.items) }
    {
        let mut newest: Vec<usize> = Vec::from_elem(alloc, 0, SLOTS)?;
        let mut before: Vec<usize> = Vec::new(alloc);
        while let Some(entry) = entry_at(pending, before.len()) {
            let slot = entry.slot();
            let older = newest[slot];
            push(&mut before, older)?;
            let upto = before.len();
            put(&mut newest, slot, upto);
        }
        Ok(SlotTable { newest, before })
    }

    /// The last entry of a tree and key among the entries that the table is of.
    pub(crate) fn last<'a>(
        &self,
        pending: &'a [Entry],
        tree: TreeId,
        key: &[u8],
    ) -> Option<&'a Entry>
        requires { IsTable pending.now self.now.newest.items self.now.before.items }
        ensures { option_copied result ≡ last_pending pending.now tree key.now }
    {
        last_in(
            pending,
            self.newest.as_slice(),
            self.before.as_slice(),
            tree,
            key,
        )
    }
}

/// The last entry of a tree and key, by the two tables.
fn last_in<'a>(
    pending: &'a [Entry],
    newest: &[usize],
    before: &[usize],
    tree: TreeId,
    key: &[u8],
) -> Option<&'a Entry>
    requires { IsTable pending.now newest.now before.now }
    ensures { option_copied result ≡ last_pending pending.now tree key.now }
{
    let slot = slot_of(key);
    let mut upto = newest[slot];
    while let Some(entry) = entry_upto(pending, upto) {
        if is_of(entry, tree, key, slot) {
            return Some(entry);
        }
        let at = upto - 1;
        upto = before[at];
    }
    None
}
