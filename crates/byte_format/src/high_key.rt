//! The high key of a page.

ghost use Rattle.std.specs.Option.{option_copied};
ghost use Rattle.byte_format.specs.HighKey.{high_key};
ghost use Rattle.byte_format.specs.Gives.{Gives};

use crate::order::is_below;
use crate::stop::Stop;
use crate::text::text8_at;

/// The key above the low key, exactly where there is a right page, and the bytes behind it. `right` is 0 where there is no right page.
pub fn high_key_at<'a>(
    bytes: &'a [u8],
    low: &[u8],
    right: u64,
) -> Result<(Option<&'a [u8]>, &'a [u8]), Stop>
    ensures { Gives (λ x. (option_copied x.0, x.1.now)) result ((high_key low.now right).reading bytes.now) }
{
    if right == 0 {
        return Ok((None, bytes));
    }
    let (high, rest) = text8_at(bytes, 1, 64)?;
    if !is_below(low, high) {
        return Err(Stop::at(bytes));
    }
    Ok((Some(high), rest))
}
