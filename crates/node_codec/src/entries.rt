//! The entries of a root or an inner node, one by one.

ghost use Rattle.std.specs.Prelude.{◌≡◌};

use crate::entry::first_entry;
use db_base::ids::PageId;
use std::marker::Model;

/// Pairs of a low key and the page that holds the keys from it on, in the order of keys. Seen as the list of those that are left.
#[derive(Drop)]
pub struct Entries<'a> {
    rest: &'a [u8],
}

impl<'a> Model for Entries<'a> {
    ghost use Rattle.std.specs.Prelude.{List, ℕ};
    ghost use Rattle.node_codec.specs.Node.{plain_entry};
    ghost use Rattle.node_codec.specs.Plain.{items_of, IsList};

    ghost Value = { List (List ℕ × ℕ) };

    ghost view = { λ e. items_of plain_entry e.rest.now };

    ghost invariant = { λ e. IsList plain_entry e.rest.now };
}

impl<'a> Entries<'a> {
    ghost use Rattle.node_codec.specs.Node.{plain_entry};
    ghost use Rattle.node_codec.specs.Plain.{items_of, IsList};

    pub(crate) fn of(bytes: &'a [u8]) -> Entries<'a>
        requires { IsList plain_entry bytes.now }
        ensures { result ≡ items_of plain_entry bytes.now }
    {
        Entries { rest: bytes }
    }
}

impl<'a> Iterator for Entries<'a> {
    ghost use Rattle.std.specs.Iterator.{YieldsFirstBy, item_count};

    type Item = (&'a [u8], PageId);

    ghost next_gives = { YieldsFirstBy (λ e. (e.0.now, e.1)) (λ rest. rest) };

    ghost remaining = { item_count (λ rest. rest) };

    fn next(&mut self) -> Option<(&'a [u8], PageId)> {
        let (entry, rest) = first_entry(self.rest)?;
        self.rest = rest;
        Some((entry.low(), entry.page()))
    }
}
