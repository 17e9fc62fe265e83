//! Lists that are checked and left where they are.

ghost use Rattle.std.specs.Prelude.{◌≡◌, Option, None};
ghost use Rattle.std.specs.Option.{option_copied};
ghost use Rattle.byte_format.specs.Format.{Format, list_at};
ghost use Rattle.byte_format.specs.Whole.{IsExact};
ghost use Rattle.byte_format.specs.Gives.{Gives, behind_it};

use crate::mark::more_at;
use crate::stop::Stop;

/// What an item of a list may be, behind the item before it.
pub trait Rules<'a> {
    /// An item, as it is read.
    type Item: Drop;

    /// The format of an item behind the one before it.
    ghost item_format: { Self → Option Self.Item → Format Self.Item };

    /// The item at the front of `bytes`, and the bytes behind it.
    fn item(
        &self,
        before: Option<&Self::Item>,
        bytes: &'a [u8],
    ) -> Result<(Self::Item, &'a [u8]), Stop>
        ensures { Gives (λ x. (x.0, x.1.now)) result ((item_format self.now (option_copied before.entry)).reading bytes.now) };
}

/// The bytes behind a list. `may_end`: whether it may have no item.
pub fn skip_list<'a, R: Rules<'a>>(
    rules: &R,
    may_end: bool,
    bytes: &'a [u8],
) -> Result<&'a [u8], Stop>
    requires { (before : Option R.Item) → IsExact (R.item_format rules.now before) }
    ensures { Gives (λ x. x.now) result (behind_it (list_at may_end (R.item_format rules.now) None bytes.now)) }
{
    let mut may_stop = may_end;
    let mut before: Option<R::Item> = None;
    let mut rest = bytes;
    'items: loop {
        let (more, behind) = more_at(rest, may_stop)?;
        if !more {
            return Ok(behind);
        }
        let (item, behind) = rules.item(before.as_ref(), behind)?;
        before = Some(item);
        may_stop = true;
        rest = behind;
    }
}
