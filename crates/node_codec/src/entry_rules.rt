//! What the entries of a node may be.

ghost use Rattle.std.specs.Prelude.{◌≡◌, IfOk};
ghost use Rattle.std.specs.Option.{option_copied};
ghost use Rattle.byte_format.specs.Gives.{Gives};
ghost use Rattle.byte_format.specs.Whole.{whole};
ghost use Rattle.node_codec.specs.Node.{plain_entry, entry, may_stand, follows};
ghost use Rattle.node_codec.specs.Plain.{IsWholeList, StartsList};
ghost use Rattle.node_codec.specs.Lists.{entries_in, entries_at, entries_of};

use crate::entry::Entry;
use byte_format::{Rules, Stop, is_below, is_below_bound, is_same, skip_list, text8_at, u64_at};
use db_base::ids::PageId;

/// The rules of a node from `low` on and below `high`, whose children are numbered up to `last`.
#[derive(Drop)]
struct EntryRules<'r> {
    low: &'r [u8],
    high: Option<&'r [u8]>,
    last: u64,
}

fn is_next(low: &[u8], before: Option<&Entry<'_>>, key: &[u8]) -> bool
    ensures { result ≡ follows low.now (option_copied before.entry) key.now }
{
    match before {
        None => is_same(key, low),
        Some(before) => is_below(before.low(), key),
    }
}

fn stands(low: &[u8], high: Option<&[u8]>, before: Option<&Entry<'_>>, key: &[u8]) -> bool
    ensures { result ≡ may_stand low.now (option_copied high.entry) (option_copied before.entry) key.now }
{
    is_next(low, before, key) && is_below_bound(key, high)
}

impl<'a, 'r> Rules<'a> for EntryRules<'r> {
    type Item = Entry<'a>;

    ghost item_format = { λ r before. entry r.low.now (option_copied r.high) r.last before };

    fn item(
        &self,
        before: Option<&Entry<'a>>,
        bytes: &'a [u8],
    ) -> Result<(Entry<'a>, &'a [u8]), Stop> {
        let (low, behind) = text8_at(bytes, 0, 64)?;
        if !stands(self.low, self.high, before, low) {
            return Err(Stop::at(bytes));
        }
        let (number, rest) = u64_at(behind, 1, u64::MAX)?;
        if number > self.last {
            return Err(Stop::at(behind));
        }
        match PageId::new(number) {
            Ok(page) => Ok((Entry::new(low, page), rest)),
            Err(_) => Err(Stop::at(behind)),
        }
    }
}

/// The bytes behind the list of entries of such a node.
fn skip_entries<'a>(
    low: &[u8],
    high: Option<&[u8]>,
    last: u64,
    bytes: &'a [u8],
) -> Result<&'a [u8], Stop>
    ensures gives { Gives (λ rest. (entries_in bytes.now, rest.now)) result (entries_at low.now (option_copied high.entry) last bytes.now) }
    ensures listed { IfOk result (λ rest. StartsList plain_entry bytes.now rest.now) }
{
    skip_list(&EntryRules { low, high, last }, false, bytes)
}

/// Looks at each entry of such a node: all of the bytes are their list.
pub(crate) fn check_entries(
    low: &[u8],
    high: Option<&[u8]>,
    last: u64,
    bytes: &[u8],
) -> Result<(), Stop>
    ensures gives { Gives (λ _. entries_in bytes.now) result (whole (entries_of low.now (option_copied high.entry) last) bytes.now) }
    ensures listed { IfOk result (λ _. IsWholeList plain_entry bytes.now) }
{
    let rest = skip_entries(low, high, last, bytes)?;
    if !rest.is_empty() {
        return Err(Stop::at(rest));
    }
    Ok(())
}
