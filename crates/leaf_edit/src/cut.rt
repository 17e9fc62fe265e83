//! A leaf cut in two.

ghost use Rattle.std.specs.Prelude.{◌≡◌, [], ◌++◌, ◌<◌, ◌≤◌, ◌-◌, IfErr, IfOk, IfSome, length, MatchOption, OnOk, take, drop};
ghost use Rattle.db_base.specs.Key.{IsKey};
ghost use Rattle.leaf_view.specs.Leaf.{IsLeaf};
ghost use Rattle.leaf_view.specs.Fits.{IsVersion};
ghost use Rattle.leaf_view.specs.Shown.{shown};
ghost use Rattle.leaf_edit.specs.Cut.{first_key, left_part, right_part, TakesNone, TakesOne};
ghost use Rattle.leaf_edit.specs.Merging.{AreRecords};
ghost use Rattle.leaf_edit.specs.Spelled.{dones_before, entries_bytes, run_bytes};

use crate::buffer::LeafBuf;
use crate::passing::before;
use crate::spell::{right_of, try_add_done, try_add_entry, try_add_fields};
use byte_format::{try_add, try_add_u8};
use db_base::ids::PageId;
use db_base::pair::EditFault;
use leaf_view::{DoneList, LeafView, Records};
use std::alloc::{AllocError, Global};

/// The first record, where `more` of the first ones are left, and those behind it.
fn next_of<'a>(
    records: Records<'a>,
    more: usize,
) -> Option<((&'a [u8], &'a [u8], Option<&'a [u8]>), Records<'a>)>
    ensures { MatchOption result (TakesNone more records.entry) (λ x. TakesOne more records.entry (shown x.0) x.1) }
{
    if more == 0 {
        return None;
    }
    match records.split() {
        Some(first) => Some(first),
        None => None,
    }
}

/// The records behind the first n.
fn skip<'a>(records: Records<'a>, n: usize) -> Records<'a>
    ensures { result ≡ drop n records.entry }
{
    let mut left = records;
    let mut more = n;
    while let Some((_, rest)) = next_of(left.again(), more) {
        left = rest;
        more -= 1;
    }
    left
}

/// The bytes of the first n records, where the leaf is of format 2.
fn front_of<'a>(records: &Records<'a>, n: usize) -> Option<&'a [u8]>
    ensures { IfSome result (λ bytes. bytes.now ≡ run_bytes (take n records.now)) }
{
    let bytes = records.spelling()?;
    let last = skip(records.again(), n).spelling()?;
    Some(before(bytes, last))
}

/// Appends the first n records as a list.
fn add_front<'a>(out: &mut Vec<u8>, records: Records<'a>, n: usize) -> Result<(), AllocError>
    requires { AreRecords records }
    ensures { OnOk result (out.new.items ≡ out.old.items ++ entries_bytes (take n records.entry)) }
{
    match front_of(&records, n) {
        Some(bytes) => {
            try_add(out, bytes)?;
            try_add_u8(out, 0)
        }
        None => add_each_front(out, records, n),
    }
}

/// The same, a record at a time.
fn add_each_front<'a>(out: &mut Vec<u8>, records: Records<'a>, n: usize) -> Result<(), AllocError>
    requires { AreRecords records }
    ensures { OnOk result (out.new.items ≡ out.old.items ++ entries_bytes (take n records.entry)) }
{
    let mut left = records;
    let mut more = n;
    while let Some(((key, payload, attr), rest)) = next_of(left.again(), more) {
        try_add_entry(out, key, payload, attr)?;
        left = rest;
        more -= 1;
    }
    try_add_u8(out, 0)
}

/// Appends all entries of a table.
fn add_dones<'a>(out: &mut Vec<u8>, list: DoneList<'a>) -> Result<(), AllocError>
    ensures { OnOk result (out.new.items ≡ out.old.items ++ dones_before list.entry []) }
{
    let mut left = list;
    while let Some((entry, rest)) = left.again().split() {
        try_add_done(out, &entry)?;
        left = rest;
    }
    Ok(())
}

/// The key of the first record.
fn first_key<'a>(records: &Records<'a>) -> &'a [u8]
    ensures { result.now ≡ first_key records.now }
{
    match records.again().split() {
        Some(((key, _, _), _)) => key,
        None => &[],
    }
}

/// Appends the spelling of the left part to no bytes.
fn spell_left(
    out: &mut Vec<u8>,
    leaf: &LeafView<'_>,
    n: usize,
    right: PageId,
) -> Result<(), AllocError>
    requires empty { out.old.items ≡ [] }
    requires version { IsVersion leaf.now.version }
    requires some { 0 < n }
    requires less { n < length leaf.now.records }
    ensures { OnOk result (IsLeaf out.new.items (left_part n right leaf.now)) }
{
    let key = first_key(&skip(leaf.records(), n));
    try_add_fields(out, leaf.version(), leaf.low(), right.get(), Some(key))?;
    add_dones(out, leaf.done_list())?;
    try_add_u8(out, 0)?;
    add_front(out, leaf.records(), n)?;
    Ok(())
}

/// The left part.
fn left_leaf(
    alloc: Global,
    leaf: &LeafView<'_>,
    n: usize,
    right: PageId,
) -> Result<LeafBuf, AllocError>
    requires version { IsVersion leaf.now.version }
    requires some { 0 < n }
    requires less { n < length leaf.now.records }
    ensures { IfOk result (λ l. l ≡ left_part n right leaf.now) }
{
    let mut out = Vec::new(alloc);
    spell_left(&mut out, leaf, n, right)?;
    Ok(LeafBuf::of(out))
}

/// Appends the spelling of the right part to no bytes.
fn spell_right(out: &mut Vec<u8>, leaf: &LeafView<'_>, n: usize) -> Result<(), AllocError>
    requires empty { out.old.items ≡ [] }
    requires less { n < length leaf.now.records }
    ensures { OnOk result (IsLeaf out.new.items (right_part n leaf.now)) }
{
    let rest = skip(leaf.records(), n);
    try_add_fields(out, 1, first_key(&rest), right_of(leaf), leaf.high())?;
    add_dones(out, leaf.done_list())?;
    try_add_u8(out, 0)?;
    add_rest(out, rest)?;
    Ok(())
}

/// The right part.
fn right_leaf(alloc: Global, leaf: &LeafView<'_>, n: usize) -> Result<LeafBuf, AllocError>
    requires { n < length leaf.now.records }
    ensures { IfOk result (λ l. l ≡ right_part n leaf.now) }
{
    let mut out = Vec::new(alloc);
    spell_right(&mut out, leaf, n)?;
    Ok(LeafBuf::of(out))
}

/// Appends the records as a list.
fn add_rest<'a>(out: &mut Vec<u8>, records: Records<'a>) -> Result<(), AllocError>
    requires { AreRecords records }
    ensures { OnOk result (out.new.items ≡ out.old.items ++ entries_bytes records.entry) }
{
    match records.spelling() {
        Some(bytes) => try_add(out, bytes),
        None => add_each_rest(out, records),
    }
}

/// The same, a record at a time.
fn add_each_rest<'a>(out: &mut Vec<u8>, records: Records<'a>) -> Result<(), AllocError>
    requires { AreRecords records }
    ensures { OnOk result (out.new.items ≡ out.old.items ++ entries_bytes records.entry) }
{
    let mut left = records;
    while let Some(((key, payload, attr), rest)) = left.again().split() {
        try_add_entry(out, key, payload, attr)?;
        left = rest;
    }
    try_add_u8(out, 0)
}

impl LeafBuf {
    /// The leaf cut behind its first n records: the left part, and the right one as version 1 of the page `right`.
    ///
    /// Both have the whole table of what is done. Refused for memory alone.
    pub fn cut_at(
        self,
        alloc: Global,
        n: usize,
        right: PageId,
    ) -> Result<(LeafBuf, LeafBuf), EditFault>
        requires some { 0 < n }
        requires less { n < length self.records }
        ensures left { IfOk result (λ parts. parts.0 ≡ left_part n right self) }
        ensures right { IfOk result (λ parts. parts.1 ≡ right_part n self) }
        ensures err { IfErr result (λ e. e ≡ EditFault.Memory) }
    {
        let view = self.view();
        let left = left_leaf(alloc, &view, n, right)?;
        let rest = right_leaf(alloc, &view, n)?;
        Ok((left, rest))
    }
}
