//! Records in order, skipped: only the first and the last of them are compared with the fences.

ghost use Rattle.std.specs.Prelude.{◌≡◌, true, Ok, None, Option, IfSome};
ghost use Rattle.std.specs.Option.{option_copied};
ghost use Rattle.byte_format.specs.Format.{list_at};
ghost use Rattle.byte_format.specs.Gives.{Gives, behind_it};
ghost use Rattle.byte_format.specs.Whole.{IsExact};
ghost use Rattle.leaf_view.specs.Ascent.{comes_next, last_below};
ghost use Rattle.leaf_view.specs.Leaf.{record_item};

use crate::entry::{EntryView, entry_at};
use crate::record_rules::RecordRules;
use byte_format::{Stop, is_below, is_below_bound, more_at, skip_list};

/// Whether a key may come next: above the record before, or from the low key on where there is none.
fn comes_next(low: &[u8], before: &Option<EntryView<'_>>, key: &[u8]) -> bool
    ensures { result ≡ comes_next low.now before.now key.now }
{
    match before {
        None => !is_below(key, low),
        Some(last) => is_below(last.key(), key),
    }
}

/// Whether the last record, where there is one, is below the high key.
fn last_below(before: &Option<EntryView<'_>>, high: Option<&[u8]>) -> bool
    ensures { result ≡ last_below before.now (option_copied high.entry) }
{
    match before {
        None => true,
        Some(last) => is_below_bound(last.key(), high),
    }
}

/// The bytes behind the records, where they are in order, the first not below the low key and the last below the high key.
fn behind_ascent<'a>(rules: &RecordRules<'a>, bytes: &'a [u8]) -> Option<&'a [u8]>
    ensures { IfSome result (λ rest. behind_it (list_at true (record_item rules.now.format rules.now.low.now (option_copied rules.now.high)) None bytes.now) ≡ Ok rest.now) }
{
    let mut before: Option<EntryView<'a>> = None;
    let mut rest = bytes;
    'records: loop {
        let Ok((more, behind)) = more_at(rest, true) else {
            return None;
        };
        if !more {
            return if last_below(&before, rules.high) {
                Some(behind)
            } else {
                None
            };
        }
        let Ok((entry, behind)) = entry_at(behind, rules.format) else {
            return None;
        };
        if !comes_next(rules.low, &before, entry.key()) {
            return None;
        }
        before = Some(entry);
        rest = behind;
    }
}

/// The bytes behind the records of a leaf. Each is held against all its rules only where something is amiss, to find the first fault.
pub(crate) fn skip_records<'a>(rules: &RecordRules<'a>, bytes: &'a [u8]) -> Result<&'a [u8], Stop>
    ensures { Gives (λ x. x.now) result (behind_it (list_at true (record_item rules.now.format rules.now.low.now (option_copied rules.now.high)) None bytes.now)) }
{
    match behind_ascent(rules, bytes) {
        Some(rest) => Ok(rest),
        None => skip_list(rules, true, bytes),
    }
}
