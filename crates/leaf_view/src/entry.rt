//! A record where it lies.

ghost use Rattle.std.specs.Prelude.{◌≡◌, [], ◌∷◌, length, IfSome, MatchOption};
ghost use Rattle.std.specs.Option.{option_copied};
ghost use Rattle.byte_format.specs.Plain.{items_in, IsListed};
ghost use Rattle.leaf_view.specs.Leaf.{entry_of, attribute, plain_entry};
ghost use Rattle.leaf_view.specs.Shown.{shown};
ghost use Rattle.leaf_view.specs.Spelled.{IsAll};
ghost use Rattle.byte_format.specs.Gives.{Gives};

use byte_format::{Stop, maybe_text8_at, more_at, text8_at, text16_at};
use std::marker::Model;

/// A record, borrowed from the bytes of a leaf.
#[derive(Drop)]
pub(crate) struct EntryView<'a> {
    key: &'a [u8],
    payload: &'a [u8],
    attr: Option<&'a [u8]>,
}

impl<'a> Model for EntryView<'a> {
    ghost use Rattle.std.specs.Option.{option_copied};
    ghost use Rattle.leaf_view.specs.Leaf.{Entry, entry_of};

    ghost Value = { Entry };

    ghost view = { λ e. entry_of (e.key.now, (e.payload.now, option_copied e.attr)) };
}

impl<'a> EntryView<'a> {
    pub(crate) fn new(key: &'a [u8], payload: &'a [u8], attr: Option<&'a [u8]>) -> EntryView<'a>
        ensures { result ≡ entry_of (key.now, (payload.now, option_copied attr.entry)) }
    {
        EntryView { key, payload, attr }
    }

    pub(crate) fn key(&self) -> &'a [u8]
        ensures { result.now ≡ self.now.key }
    {
        self.key
    }

    /// The key, the payload and the attribute.
    pub(crate) fn parts(self) -> (&'a [u8], &'a [u8], Option<&'a [u8]>)
        ensures { self.entry ≡ shown result }
    {
        (self.key, self.payload, self.attr)
    }
}

/// The attribute behind a payload, which format 2 alone has, and the bytes behind it.
pub(crate) fn attr_at(bytes: &[u8], format: u8) -> Result<(Option<&[u8]>, &[u8]), Stop>
    ensures { Gives (λ x. (option_copied x.0, x.1.now)) result ((attribute format).reading bytes.now) }
{
    if format == 2 {
        return maybe_text8_at(bytes, 1, 32);
    }
    Ok((None, bytes))
}

/// A record of a list that was checked, and the bytes behind it.
#[tactic(auto, unfolding(crate::specs::Leaf::plain_entry))]
pub(crate) fn entry_at(bytes: &[u8], format: u8) -> Result<(EntryView<'_>, &[u8]), Stop>
    ensures { Gives (λ x. (x.0, x.1.now)) result ((plain_entry format).reading bytes.now) }
{
    let (key, rest) = text8_at(bytes, 1, 64)?;
    let (payload, rest) = text16_at(rest, 0, 1024)?;
    let (attr, rest) = attr_at(rest, format)?;
    Ok((EntryView::new(key, payload, attr), rest))
}

/// The first record of a list that was checked, and the rest of the list.
pub(crate) fn split_entry(bytes: &[u8], format: u8) -> Option<(EntryView<'_>, &[u8])>
    requires { IsListed (plain_entry format) bytes.now }
    ensures first { MatchOption result (items_in (plain_entry format) bytes.now ≡ [])
        (λ x. IsListed (plain_entry format) x.1.now
        × (items_in (plain_entry format) bytes.now ≡ x.0 ∷ items_in (plain_entry format) x.1.now)) }
    ensures all { IsAll format bytes.now → IfSome result (λ x. IsAll format x.1.now) }
{
    let Ok((more, rest)) = more_at(bytes, true) else {
        unreachable!()
    };
    if !more {
        return None;
    }
    let Ok((entry, rest)) = entry_at(rest, format) else {
        unreachable!()
    };
    Some((entry, rest))
}

/// How many records a list has that was checked.
pub(crate) fn count_entries(bytes: &[u8], format: u8) -> usize
    requires { IsListed (plain_entry format) bytes.now }
    ensures { result ≡ length (items_in (plain_entry format) bytes.now) }
{
    let mut count = 0;
    let mut left = bytes;
    while let Some((_, rest)) = split_entry(left, format) {
        count += 1;
        left = rest;
    }
    count
}
