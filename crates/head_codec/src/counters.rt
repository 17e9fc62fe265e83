//! Counters read from bytes and written to them.

ghost use Rattle.std.specs.Prelude.{◌≡◌, ◌≤◌, ◌∷◌, ◌++◌, None, OnOk};
ghost use Rattle.std.specs.List.{AllByRecursion};
ghost use Rattle.std.specs.Option.{option_copied};
ghost use Rattle.byte_format.specs.Format.{list_spelling};
ghost use Rattle.byte_format.specs.Gives.{GivesOwned};
ghost use Rattle.head_codec.specs.Counters.{least_tree, page_rises, counter};
ghost use Rattle.head_codec.specs.Spelling.{FitsCounter};

use crate::entry::bytes_of;
use crate::lists::QueueCount;
use byte_format::{OwnedRules, ReadFault, Stop, try_add, try_add_u8, u8_at, u64_at};
use change_codec::tree_of;
use std::alloc::{AllocError, Global};

/// What a counter may be behind the one before it.
pub struct CounterRules;

/// The least tree behind a counter.
fn least_tree(before: Option<&QueueCount>) -> u8
    ensures least { result ≡ least_tree (option_copied before.entry) }
    ensures some { 1 ≤ result }
{
    match before {
        None => 1,
        Some(before) => before.tree.get() as u8,
    }
}

/// Whether the page is above that of the counter before it, where that is of the same tree.
fn page_rises(before: Option<&QueueCount>, tree: u8, page: u64) -> bool
    ensures { result ≡ page_rises (option_copied before.entry) tree page }
{
    match before {
        None => true,
        Some(before) => before.tree.get() != u64::from(tree) || before.page < page,
    }
}

impl OwnedRules for CounterRules {
    type Item = QueueCount;

    ghost item_format = { λ _ before. counter before };

    fn item<'b>(
        &self,
        _alloc: Global,
        before: Option<&QueueCount>,
        bytes: &'b [u8],
    ) -> Result<(QueueCount, &'b [u8]), ReadFault> {
        let (tree, rest) = u8_at(bytes, least_tree(before), 16)?;
        let (page, behind) = u64_at(rest, 0, u64::MAX)?;
        if !page_rises(before, tree, page) {
            return Err(ReadFault::Stopped(Stop::at(rest)));
        }
        let (number, behind) = u64_at(behind, 1, u64::MAX)?;
        Ok((
            QueueCount {
                tree: tree_of(tree),
                page,
                number,
            },
            behind,
        ))
    }
}

/// Appends the spelling of a counter, behind the byte that says that one follows: all at once.
fn add_counter(out: &mut Vec<u8>, item: &QueueCount) -> Result<(), AllocError>
    ensures spelling { OnOk result (out.new.items ≡ out.old.items ++ (1 ∷ (counter None).spelling item.now)) }
    ensures valid { OnOk result (FitsCounter item.now) }
{
    let [a, b, c, d, e, f, g, h] = bytes_of(item.page);
    let [i, j, k, l, m, n, o, p] = bytes_of(item.number);
    let tree = item.tree.get() as u8;
    try_add(
        out,
        &[1, tree, a, b, c, d, e, f, g, h, i, j, k, l, m, n, o, p],
    )?;
    Ok(())
}

/// Appends the spelling of counters.
pub fn add_counters(out: &mut Vec<u8>, items: &[QueueCount]) -> Result<(), AllocError>
    ensures spelling { OnOk result (out.new.items ≡ out.old.items ++ list_spelling counter None items.now) }
    ensures valid { OnOk result (AllByRecursion FitsCounter items.now) }
{
    let mut left = items;
    while let Some((item, rest)) = left.split_first() {
        add_counter(out, item)?;
        left = rest;
    }
    try_add_u8(out, 0)
}
