//! An entry of a root or an inner node.

ghost use Rattle.std.specs.Prelude.{◌≡◌, ◌≤◌, length, [], None, Some, IsSome, MatchOption, if◌then◌else◌};
ghost use Rattle.db_base.specs.Limits.{longest_key};
ghost use Rattle.byte_format.specs.Gives.{Gives};
ghost use Rattle.byte_format.specs.Order.{bytes_below};
ghost use Rattle.node_codec.specs.Node.{plain_entry, later_of, child_of};
ghost use Rattle.node_codec.specs.Plain.{items_of, IsList, IsFirst};

use byte_format::{Stop, is_below, more_at, text8_at, u64_at};
use db_base::ids::PageId;
use std::marker::Model;

/// A low key and the page that holds the keys from it on.
#[derive(Drop)]
pub(crate) struct Entry<'a> {
    low: &'a [u8],
    page: PageId,
}

impl<'a> Model for Entry<'a> {
    ghost use Rattle.std.specs.Prelude.{List, ℕ, ◌≤◌, length};
    ghost use Rattle.db_base.specs.Limits.{longest_key};

    ghost Value = { List ℕ × ℕ };

    ghost view = { λ e. (e.low.now, e.page) };

    ghost invariant = { λ e. length e.low.now ≤ longest_key };
}

impl<'a> Entry<'a> {
    pub(crate) fn new(low: &'a [u8], page: PageId) -> Entry<'a>
        requires { length low.now ≤ longest_key }
        ensures { result ≡ (low.now, page) }
    {
        Entry { low, page }
    }

    pub(crate) fn low(&self) -> &'a [u8]
        ensures value { result.now ≡ self.now.0 }
        ensures short { length result.now ≤ longest_key }
    {
        self.low
    }

    pub(crate) fn page(&self) -> PageId
        ensures { result ≡ self.now.1 }
    {
        self.page
    }
}

/// The entry at the front of the bytes, and the bytes behind it.
pub(crate) fn entry_at(bytes: &[u8]) -> Result<(Entry<'_>, &[u8]), Stop>
    ensures { Gives (λ x. (x.0, x.1.now)) result (plain_entry.reading bytes.now) }
{
    let (low, behind) = text8_at(bytes, 0, 64)?;
    let (number, rest) = u64_at(behind, 1, u64::MAX)?;
    match PageId::new(number) {
        Ok(page) => Ok((Entry::new(low, page), rest)),
        Err(_) => Err(Stop::at(behind)),
    }
}

/// The first entry of a list, and the bytes behind it.
pub(crate) fn first_entry(bytes: &[u8]) -> Option<(Entry<'_>, &[u8])>
    requires { IsList plain_entry bytes.now }
    ensures { MatchOption result (items_of plain_entry bytes.now ≡ []) (λ x. IsFirst plain_entry bytes.now x.0 x.1.now) }
{
    let Ok((more, behind)) = more_at(bytes, true) else {
        return None;
    };
    if !more {
        return None;
    }
    match entry_at(behind) {
        Ok((first, rest)) => Some((first, rest)),
        Err(_stop) => None,
    }
}

/// The entry, where its low key is at most the key, and else the one before it.
fn later<'a>(key: &[u8], entry: Entry<'a>, best: Option<Entry<'a>>) -> Option<Entry<'a>>
    ensures { result ≡ later_of best.entry (if bytes_below key.now entry.entry.0 then None else Some entry.entry) }
{
    if is_below(key, entry.low()) {
        best
    } else {
        Some(entry)
    }
}

/// The last entry of a list whose low key is at most the key.
pub(crate) fn last_at_most<'a>(entries: &'a [u8], key: &[u8]) -> Option<Entry<'a>>
    requires { IsList plain_entry entries.now }
    ensures { result ≡ child_of key.now (items_of plain_entry entries.now) }
{
    let mut best: Option<Entry<'a>> = None;
    let mut rest = entries;
    'entries: while let Some((entry, behind)) = first_entry(rest) {
        best = later(key, entry, best);
        rest = behind;
    }
    best
}

/// The entry with the greatest low key that is at most the key.
pub(crate) fn child_in<'a>(entries: &'a [u8], key: &[u8]) -> (&'a [u8], PageId)
    requires listed { IsList plain_entry entries.now }
    requires there { IsSome (child_of key.now (items_of plain_entry entries.now)) }
    ensures { child_of key.now (items_of plain_entry entries.now) ≡ Some (result.0.now, result.1) }
{
    let entry = last_at_most(entries, key).unwrap();
    (entry.low(), entry.page())
}
