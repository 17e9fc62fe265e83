//! What a leaf has applied, in order.

use crate::done::Done;
use crate::done_rules::split_done;
use std::marker::Model;

/// The table of what is done, ascending by queue and then client.
#[derive(Drop)]
pub struct DoneList<'a> {
    rest: &'a [u8],
}

impl<'a> Model for DoneList<'a> {
    ghost use Rattle.std.specs.Prelude.{List};
    ghost use Rattle.byte_format.specs.Plain.{items_in, IsListed};
    ghost use Rattle.leaf_view.specs.declared.done.Done.{Done as Item};
    ghost use Rattle.leaf_view.specs.Leaf.{plain_done};

    ghost Value = { List Item };

    ghost view = { λ d. items_in plain_done d.rest.now };

    ghost invariant = { λ d. IsListed plain_done d.rest.now };
}

impl<'a> DoneList<'a> {
    ghost use Rattle.std.specs.Prelude.{◌≡◌, [], ◌∷◌, MatchOption};
    ghost use Rattle.byte_format.specs.Plain.{items_in, IsListed};
    ghost use Rattle.leaf_view.specs.Leaf.{plain_done};

    pub(crate) fn of(rest: &'a [u8]) -> DoneList<'a>
        requires { IsListed plain_done rest.now }
        ensures { result ≡ items_in plain_done rest.now }
    {
        DoneList { rest }
    }

    /// The same items from here on.
    pub fn again(&self) -> DoneList<'a>
        ensures { result ≡ self.now }
    {
        DoneList { rest: self.rest }
    }

    /// The first item, and those behind it.
    pub fn split(self) -> Option<(Done, DoneList<'a>)>
        ensures { MatchOption result (self.entry ≡ []) (λ x. self.entry ≡ x.0 ∷ x.1) }
    {
        match split_done(self.rest) {
            Some((item, rest)) => Some((item, DoneList { rest })),
            None => None,
        }
    }
}

impl<'a> Iterator for DoneList<'a> {
    ghost use Rattle.std.specs.Iterator.{YieldsFirst, item_count};

    type Item = Done;

    ghost next_gives = { YieldsFirst (λ s. s) };

    ghost remaining = { item_count (λ s. s) };

    fn next(&mut self) -> Option<Done> {
        match split_done(self.rest) {
            Some((item, rest)) => {
                self.rest = rest;
                Some(item)
            }
            None => None,
        }
    }
}
