//! The records of a leaf, in key order.

use crate::entry::{count_entries, split_entry};
use std::marker::Model;

/// Records where they lie, in key order: key, payload and attribute.
#[derive(Drop)]
pub struct Records<'a> {
    format: u8,
    rest: &'a [u8],
}

impl<'a> Model for Records<'a> {
    ghost use Rattle.std.specs.Prelude.{List};
    ghost use Rattle.byte_format.specs.Plain.{items_in, IsListed};
    ghost use Rattle.leaf_view.specs.Leaf.{Entry, plain_entry};
    ghost use Rattle.leaf_view.specs.Spelled.{IsAll};

    ghost Value = { List Entry };

    ghost view = { λ r. items_in (plain_entry r.format) r.rest.now };

    ghost invariant = { λ r. IsListed (plain_entry r.format) r.rest.now × IsAll r.format r.rest.now };
}

impl<'a> Records<'a> {
    ghost use Rattle.std.specs.Prelude.{◌≡◌, [], ◌∷◌, length, ◌==◌, IfSome, MatchOption};
    ghost use Rattle.byte_format.specs.Plain.{items_in, IsListed};
    ghost use Rattle.leaf_view.specs.Leaf.{plain_entry};
    ghost use Rattle.leaf_view.specs.Shown.{shown};
    ghost use Rattle.leaf_view.specs.Spelled.{records_spelling, IsAll};

    pub(crate) fn of(format: u8, rest: &'a [u8]) -> Records<'a>
        requires listed { IsListed (plain_entry format) rest.now }
        requires all { IsAll format rest.now }
        ensures { result ≡ items_in (plain_entry format) rest.now }
    {
        Records { format, rest }
    }

    /// The same records from here on.
    pub fn again(&self) -> Records<'a>
        ensures { result ≡ self.now }
    {
        Records {
            format: self.format,
            rest: self.rest,
        }
    }

    /// The bytes that spell the records, where the leaf is of format 2: a byte 1 before each, a byte 0 at the end.
    pub fn spelling(&self) -> Option<&'a [u8]>
        ensures { IfSome result (λ bytes. bytes.now ≡ records_spelling 2 self.now) }
    {
        if self.format == 2 {
            Some(self.rest)
        } else {
            None
        }
    }

    /// How many records.
    pub fn len(&self) -> usize
        ensures { result ≡ length self.now }
    {
        count_entries(self.rest, self.format)
    }

    /// Whether there is no record.
    pub fn is_empty(&self) -> bool
        ensures { result ≡ (length self.now == 0) }
    {
        split_entry(self.rest, self.format).is_none()
    }

    /// The first record, and those behind it.
    pub fn split(self) -> Option<((&'a [u8], &'a [u8], Option<&'a [u8]>), Records<'a>)>
        ensures { MatchOption result (self.entry ≡ []) (λ x. self.entry ≡ shown x.0 ∷ x.1) }
    {
        match split_entry(self.rest, self.format) {
            Some((entry, rest)) => Some((
                entry.parts(),
                Records {
                    format: self.format,
                    rest,
                },
            )),
            None => None,
        }
    }
}

impl<'a> Iterator for Records<'a> {
    ghost use Rattle.std.specs.Iterator.{YieldsFirstBy, item_count};
    ghost use Rattle.leaf_view.specs.Shown.{shown};

    type Item = (&'a [u8], &'a [u8], Option<&'a [u8]>);

    ghost next_gives = { YieldsFirstBy shown (λ s. s) };

    ghost remaining = { item_count (λ s. s) };

    fn next(&mut self) -> Option<(&'a [u8], &'a [u8], Option<&'a [u8]>)> {
        match split_entry(self.rest, self.format) {
            Some((entry, rest)) => {
                self.rest = rest;
                Some(entry.parts())
            }
            None => None,
        }
    }
}
