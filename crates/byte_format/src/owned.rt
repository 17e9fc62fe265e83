//! Lists that are read into memory of their own.

ghost use Rattle.std.specs.Prelude.{◌≡◌, Option, None};
ghost use Rattle.std.specs.Option.{option_copied};
ghost use Rattle.byte_format.specs.Format.{Format, list_at};
ghost use Rattle.byte_format.specs.Whole.{IsExact};
ghost use Rattle.byte_format.specs.Gives.{GivesOwned};

use crate::mark::more_at;
use crate::stop::ReadFault;
use std::alloc::Global;

/// What an item of a list may be, behind the item before it, where reading an item may take memory.
pub trait OwnedRules {
    /// An item that owns what it holds.
    type Item: Drop;

    /// The format of an item behind the one before it.
    ghost item_format: { Self → Option Self.Item → Format Self.Item };

    /// The item at the front of `bytes`, and the bytes behind it.
    fn item<'b>(
        &self,
        alloc: Global,
        before: Option<&Self::Item>,
        bytes: &'b [u8],
    ) -> Result<(Self::Item, &'b [u8]), ReadFault>
        ensures { GivesOwned (λ x. (x.0, x.1.now)) result ((item_format self.now (option_copied before.entry)).reading bytes.now) };
}

/// The items of a list, and the bytes behind it. `may_end`: whether it may have no item.
pub fn owned_list<'b, R: OwnedRules>(
    alloc: Global,
    rules: &R,
    may_end: bool,
    bytes: &'b [u8],
) -> Result<(Vec<R::Item>, &'b [u8]), ReadFault>
    requires { (before : Option R.Item) → IsExact (R.item_format rules.now before) }
    ensures { GivesOwned (λ x. (x.0.items, x.1.now)) result (list_at may_end (R.item_format rules.now) None bytes.now) }
{
    let mut may_stop = may_end;
    let mut items: Vec<R::Item> = Vec::new(alloc);
    let mut rest = bytes;
    'items: loop {
        let (more, behind) = more_at(rest, may_stop)?;
        if !more {
            return Ok((items, behind));
        }
        let (item, behind) = rules.item(alloc, items.as_slice().last(), behind)?;
        items.push(item)?;
        may_stop = true;
        rest = behind;
    }
}
