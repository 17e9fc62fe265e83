//! Lists of entries that are counted, added to and cut.

ghost use Rattle.std.specs.Prelude.{◌≡◌, ◌≤◌, ◌<◌, ◌++◌, ◌∷◌, [], take, drop, length, unwrap_or, IfOk, OnOk};
ghost use Rattle.db_base.specs.Limits.{longest_key};
ghost use Rattle.node_codec.specs.Node.{plain_entry, entry_bytes, with_entry};
ghost use Rattle.node_codec.specs.Plain.{IsWholeList};
ghost use Rattle.node_codec.specs.Lists.{entries_in, spelled};
ghost use Rattle.node_codec.specs.Inner.{first_low_of};

use crate::entries::Entries;
use crate::entry::first_entry;
use byte_format::{is_below, is_same, try_add, try_add_text8, try_add_u8, try_add_u64};
use std::alloc::{AllocError, Global};

/// How many entries there are.
#[tactic(auto, using(crate::proofs::PlainLemmas::list_from_whole))]
pub(crate) fn count_entries(entries: &[u8]) -> usize
    requires { IsWholeList plain_entry entries.now }
    ensures { result ≡ length (entries_in entries.now) }
{
    let most = entries.len();
    let count = Entries::of(entries).count();
    prove!(count < most);
    count
}

/// Appends an entry to a list that goes on.
pub(crate) fn push_entry(out: &mut Vec<u8>, low: &[u8], page: u64) -> Result<(), AllocError>
    requires { length low.now ≤ longest_key }
    ensures { OnOk result (out.new.items ≡ out.old.items ++ entry_bytes low.now page) }
{
    try_add_u8(out, 1)?;
    try_add_text8(out, low)?;
    try_add_u64(out, page)?;
    Ok(())
}

/// Appends an entry, and the rest of the list behind it.
fn push_last(out: &mut Vec<u8>, low: &[u8], page: u64, rest: &[u8]) -> Result<(), AllocError>
    requires { length low.now ≤ longest_key }
    ensures { OnOk result (out.new.items ≡ (out.old.items ++ entry_bytes low.now page) ++ rest.now) }
{
    push_entry(out, low, page)?;
    try_add(out, rest)?;
    Ok(())
}

/// Appends the entries with one more in its place to no bytes; as they are where its low key is there.
#[tactic(auto, using(crate::proofs::PlainLemmas::list_from_whole))]
fn add_one_more(out: &mut Vec<u8>, entries: &[u8], low: &[u8], page: u64) -> Result<(), AllocError>
    requires empty { out.old.items ≡ [] }
    requires listed { IsWholeList plain_entry entries.now }
    requires short { length low.now ≤ longest_key }
    ensures { OnOk result (out.new.items ≡ spelled (with_entry low.now page (entries_in entries.now))) }
{
    let mut rest = entries;
    'entries: while let Some((entry, behind)) = first_entry(rest) {
        let next = entry.low();
        if is_below(low, next) {
            push_last(out, low, page, rest)?;
            return Ok(());
        }
        if is_same(low, next) {
            try_add(out, rest)?;
            return Ok(());
        }
        push_entry(out, next, entry.page().get())?;
        rest = behind;
    }
    push_last(out, low, page, rest)?;
    Ok(())
}

/// The entries with one more in its place; as they are where its low key is there.
pub(crate) fn with_one_more(
    alloc: Global,
    entries: &[u8],
    low: &[u8],
    page: u64,
) -> Result<Vec<u8>, AllocError>
    requires listed { IsWholeList plain_entry entries.now }
    requires short { length low.now ≤ longest_key }
    ensures { IfOk result (λ v. v.items ≡ spelled (with_entry low.now page (entries_in entries.now))) }
{
    let mut out = Vec::new(alloc);
    add_one_more(&mut out, entries, low, page)?;
    Ok(out)
}

/// Appends the first `count` entries to no bytes as a list, and gives the bytes of the others.
#[tactic(auto, using(crate::proofs::PlainLemmas::list_from_whole))]
fn add_front<'a>(
    front: &mut Vec<u8>,
    entries: &'a [u8],
    count: usize,
) -> Result<&'a [u8], AllocError>
    requires empty { front.old.items ≡ [] }
    requires listed { IsWholeList plain_entry entries.now }
    ensures front { OnOk result (front.new.items ≡ spelled (take count (entries_in entries.now))) }
    ensures back { IfOk result (λ rest. rest.now ≡ spelled (drop count (entries_in entries.now))) }
{
    let mut left = count;
    let mut rest = entries;
    'entries: while let Some((entry, behind)) = first_entry(rest) {
        if left == 0 {
            try_add_u8(front, 0)?;
            return Ok(rest);
        }
        push_entry(front, entry.low(), entry.page().get())?;
        left -= 1;
        rest = behind;
    }
    try_add_u8(front, 0)?;
    Ok(rest)
}

/// The first `count` entries, and the others.
pub(crate) fn cut_entries(
    alloc: Global,
    entries: &[u8],
    count: usize,
) -> Result<(Vec<u8>, Vec<u8>), AllocError>
    requires { IsWholeList plain_entry entries.now }
    ensures front { IfOk result (λ v. v.0.items ≡ spelled (take count (entries_in entries.now))) }
    ensures back { IfOk result (λ v. v.1.items ≡ spelled (drop count (entries_in entries.now))) }
{
    let mut front = Vec::new(alloc);
    let rest = add_front(&mut front, entries, count)?;
    let back = rest.to_vec(alloc)?;
    Ok((front, back))
}

/// A list of one entry, from the empty key to the page.
pub(crate) fn one_entry(alloc: Global, page: u64) -> Result<Vec<u8>, AllocError>
    ensures { IfOk result (λ v. v.items ≡ spelled (([], page) ∷ [])) }
{
    let mut out = Vec::new(alloc);
    push_entry(&mut out, &[], page)?;
    try_add_u8(&mut out, 0)?;
    Ok(out)
}

/// The low key of the first entry; empty where there is none.
#[tactic(auto, using(crate::proofs::PlainLemmas::list_from_whole))]
pub(crate) fn first_low(entries: &[u8]) -> &[u8]
    requires { IsWholeList plain_entry entries.now }
    ensures { result.now ≡ unwrap_or (first_low_of (entries_in entries.now)) [] }
{
    match first_entry(entries) {
        Some((entry, _rest)) => entry.low(),
        None => &[],
    }
}
