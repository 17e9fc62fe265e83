//! A run merged into a leaf, straight from bytes to bytes.

ghost use Rattle.std.specs.Prelude.{◌≡◌, ◌+◌, ◌<◌, ◌≤◌, ◌↔◌, [], IfSome, IsErr, length, OnErr, OnOk, vec_len};
ghost use Rattle.std.specs.Option.{option_map};
ghost use Rattle.std.specs.Vec.{vec_capacity};
ghost use Rattle.byte_format.specs.Adds.{Adds};
ghost use Rattle.byte_format.specs.Format.{greatest};
ghost use Rattle.leaf_view.specs.Leaf.{IsLeaf};
ghost use Rattle.log_codec.specs.Order.{IsOrdered};
ghost use Rattle.leaf_view.specs.Shown.{valued};
ghost use Rattle.leaf_edit.specs.Applied.{applied, applied_length};
ghost use Rattle.leaf_edit.specs.Edited.{edited_by};
ghost use Rattle.leaf_edit.specs.Lacked.{lacked};
ghost use Rattle.leaf_edit.specs.Merging.{AreChanges, AreRecords, IsSized};
ghost use Rattle.leaf_edit.specs.Sizes.{entries_size, entry_size_of, fields_size, IsSize};
ghost use Rattle.leaf_edit.specs.Spelled.{entries_bytes, entry_bytes_of, head_bytes};

use crate::changes::Changes;
use crate::spell::{add_entry, add_fields, entry_len, fields_len, right_of};
use crate::step::next_step;
use crate::table::{add_table, table_len};
use byte_format::{add, add_u8};
use db_base::value::Value;
use leaf_view::{LeafView, Records};
use log_codec::record::PuItem;

/// A leaf has no next version: its own is the greatest u64.
#[derive(Clone, Copy, Debug, PartialEq, Eq)]
pub struct VersionSpent;

/// Appends all that stands before the lists of a leaf, under another version.
fn add_head(out: &mut Vec<u8>, leaf: &LeafView<'_>, version: u64)
    requires { vec_len out.old + fields_size leaf.now.low leaf.now.high ≤ vec_capacity out.old }
    ensures { Adds out.old out.new (head_bytes leaf.now version) }
{
    add_fields(out, version, leaf.low(), right_of(leaf), leaf.high());
}

/// How many bytes a record has, where there is one.
fn record_len(next: &Option<(&[u8], Value<'_>)>) -> usize
    requires { IfSome (option_map valued next.now) IsSized }
    ensures { result ≡ entry_size_of (option_map valued next.now) }
{
    match next {
        Some((key, value)) => entry_len(key, value.payload(), value.attr()),
        None => 0,
    }
}

/// Appends a record, where there is one.
fn add_record(out: &mut Vec<u8>, next: &Option<(&[u8], Value<'_>)>)
    requires sized { IfSome (option_map valued next.now) IsSized }
    requires room { vec_len out.old + entry_size_of (option_map valued next.now) ≤ vec_capacity out.old }
    ensures { Adds out.old out.new (entry_bytes_of (option_map valued next.now)) }
{
    match next {
        Some((key, value)) => add_entry(out, key, value.payload(), value.attr()),
        None => (),
    }
}

/// So many bytes, and those of the records as a list.
pub(crate) fn rest_len(total: usize, records: Records<'_>) -> Option<usize>
    requires { AreRecords records }
    ensures { IsSize result (total + entries_size records.entry) }
{
    match records.spelling() {
        Some(bytes) => total.checked_add(bytes.len()),
        None => each_len(total, records),
    }
}

/// The same, a record at a time.
fn each_len(total: usize, records: Records<'_>) -> Option<usize>
    requires { AreRecords records }
    ensures { IsSize result (total + entries_size records.entry) }
{
    let mut sum = total;
    let mut left = records;
    while let Some(((key, payload, attr), rest)) = left.again().split() {
        sum = sum.checked_add(entry_len(key, payload, attr))?;
        left = rest;
    }
    sum.checked_add(1)
}

/// Appends the records as a list.
fn add_rest(out: &mut Vec<u8>, records: Records<'_>)
    requires records { AreRecords records }
    requires room { vec_len out.old + entries_size records ≤ vec_capacity out.old }
    ensures { Adds out.old out.new (entries_bytes records.entry) }
{
    match records.spelling() {
        Some(bytes) => add(out, bytes),
        None => add_each(out, records),
    }
}

/// The same, a record at a time.
fn add_each(out: &mut Vec<u8>, records: Records<'_>)
    requires records { AreRecords records }
    requires room { vec_len out.old + entries_size records ≤ vec_capacity out.old }
    ensures { Adds out.old out.new (entries_bytes records.entry) }
{
    let mut left = records;
    while let Some(((key, payload, attr), rest)) = left.again().split() {
        add_entry(out, key, payload, attr);
        left = rest;
    }
    add_u8(out, 0);
}

/// So many bytes, those passed, and those of a record, where there is one.
fn step_len(total: usize, passed: &[u8], next: &Option<(&[u8], Value<'_>)>) -> Option<usize>
    requires { IfSome (option_map valued next.now) IsSized }
    ensures { IsSize result (total + (length passed.now + entry_size_of (option_map valued next.now))) }
{
    total
        .checked_add(passed.len())?
        .checked_add(record_len(next))
}

/// So many bytes, and those of the records under the changes as a list.
fn records_len<'a>(total: usize, records: Records<'a>, changes: Changes<'a>) -> Option<usize>
    requires records { AreRecords records }
    requires changes { AreChanges changes }
    ensures { IsSize result (total + entries_size (edited_by records.entry changes.entry)) }
{
    let mut sum = total;
    let mut left = records;
    let mut coming = changes;
    while let Some(x) = coming.first() {
        let (passed, step) = next_step(x, left.again(), coming.again());
        sum = step_len(sum, passed, &step.record)?;
        left = step.records;
        coming = step.changes;
    }
    rest_len(sum, left)
}

/// Appends the records under the changes as a list.
fn add_records<'a>(out: &mut Vec<u8>, records: Records<'a>, changes: Changes<'a>)
    requires records { AreRecords records }
    requires changes { AreChanges changes }
    requires room { vec_len out.old + entries_size (edited_by records changes) ≤ vec_capacity out.old }
    ensures { Adds out.old out.new (entries_bytes (edited_by records.entry changes.entry)) }
{
    let mut left = records;
    let mut coming = changes;
    while let Some(x) = coming.first() {
        let (passed, step) = next_step(x, left.again(), coming.again());
        add(out, passed);
        add_record(out, &step.record);
        left = step.records;
        coming = step.changes;
    }
    add_rest(out, left);
}

/// How many bytes `merge` needs: the length of the leaf behind the run, in format 2. `None` where it is above the greatest usize.
/// Takes no memory.
pub fn need(leaf: &LeafView<'_>, queue: u64, run: &[PuItem]) -> Option<usize>
    requires { IsOrdered run.now }
    ensures { IsSize result (applied_length leaf.now queue run.now) }
{
    let fields = fields_len(leaf.low(), leaf.high());
    let table = table_len(fields + 1, leaf, queue, run)?;
    let done = leaf.numbers(queue);
    records_len(table, leaf.records(), Changes::of(leaf, queue, &done, run))
}

/// Writes the leaf behind a run, by what it lacks of the run, into room that is there.
pub(crate) fn spell<'a>(
    out: &mut Vec<u8>,
    leaf: &LeafView<'a>,
    queue: u64,
    run: &[PuItem],
    changes: Changes<'a>,
)
    requires ordered { IsOrdered run.now }
    requires version { leaf.now.version < greatest }
    requires empty { out.old.items ≡ [] }
    requires room { applied_length leaf.now queue run.now ≤ vec_capacity out.old }
    requires changes { changes ≡ lacked leaf.now queue run.now }
    ensures spelled { IsLeaf out.new.items (applied leaf.now queue run.now) }
    ensures room { vec_capacity out.new ≡ vec_capacity out.old }
{
    add_head(out, leaf, leaf.version() + 1);
    add_table(out, leaf, queue, run);
    add_u8(out, 0);
    add_records(out, leaf.records(), changes);
}

/// Writes the leaf behind a run, the one that `apply` gives, in format 2, into room that is there. Takes no memory.
///
/// Where the leaf has no next version, nothing changes.
pub fn merge(
    leaf: &LeafView<'_>,
    queue: u64,
    run: &[PuItem],
    out: &mut Vec<u8>,
) -> Result<(), VersionSpent>
    requires ordered { IsOrdered run.now }
    requires empty { out.old.items ≡ [] }
    requires room { applied_length leaf.now queue run.now ≤ vec_capacity out.old }
    ensures spelled { OnOk result (IsLeaf out.new.items (applied leaf.now queue run.now)) }
    ensures spent { IsErr result ↔ (leaf.now.version ≡ greatest) }
    ensures unchanged { OnErr result (out.new ≡ out.old) }
    ensures room { vec_capacity out.new ≡ vec_capacity out.old }
{
    if leaf.version() == u64::MAX {
        return Err(VersionSpent);
    }
    let done = leaf.numbers(queue);
    let changes = Changes::of(leaf, queue, &done, run);
    spell(out, leaf, queue, run, changes);
    Ok(())
}
