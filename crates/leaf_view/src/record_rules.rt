//! The records of a leaf.

ghost use Rattle.std.specs.Prelude.{◌≡◌, ℕ, Option};
ghost use Rattle.std.specs.Option.{option_copied};
ghost use Rattle.leaf_view.specs.Leaf.{above_entry, record_item};

use crate::entry::{EntryView, attr_at};
use byte_format::{Rules, Stop, is_below, is_below_bound, text8_at, text16_at};

/// Keys ascend from `low` on, below `high`; format 2 alone has attributes.
#[derive(Clone, Copy)]
pub(crate) struct RecordRules<'a> {
    pub(crate) format: u8,
    pub(crate) low: &'a [u8],
    pub(crate) high: Option<&'a [u8]>,
}

impl<'a> Rules<'a> for RecordRules<'a> {
    type Item = EntryView<'a>;

    ghost item_format = { λ rules before. record_item rules.format rules.low.now (option_copied rules.high) before };

    #[tactic(auto, unfolding(crate::specs::Leaf::record_item))]
    fn item(
        &self,
        before: Option<&EntryView<'a>>,
        bytes: &'a [u8],
    ) -> Result<(EntryView<'a>, &'a [u8]), Stop> {
        let (key, rest) = text8_at(bytes, 1, 64)?;
        if is_below(key, self.low) || !is_below_bound(key, self.high) || !is_above(before, key) {
            return Err(Stop::at(bytes));
        }
        let (payload, rest) = text16_at(rest, 0, 1024)?;
        let (attr, rest) = attr_at(rest, self.format)?;
        Ok((EntryView::new(key, payload, attr), rest))
    }
}

/// Whether a key is above the record before, where there is one.
fn is_above(before: Option<&EntryView<'_>>, key: &[u8]) -> bool
    ensures { result ≡ above_entry (option_copied before.entry) key.now }
{
    match before {
        None => true,
        Some(last) => is_below(last.key(), key),
    }
}
