//! Fields that may be there.

ghost use Rattle.std.specs.Prelude.{◌≤◌, IfOk, IfSome, length};
ghost use Rattle.std.specs.Int.{w8};
ghost use Rattle.std.specs.Option.{option_copied};
ghost use Rattle.byte_format.specs.Format.{maybe, text};
ghost use Rattle.byte_format.specs.Gives.{Gives};

use crate::number::u8_at;
use crate::stop::Stop;
use crate::text::text8_at;

/// Nothing behind a byte 0, or behind a byte 1 from `least` to `most` bytes behind their length of one byte; and the bytes behind it.
#[tactic(auto, unfolding(crate::specs::Format::text_at))]
pub fn maybe_text8_at(bytes: &[u8], least: u8, most: u8) -> Result<(Option<&[u8]>, &[u8]), Stop>
    ensures { Gives (λ x. (option_copied x.0, x.1.now)) result ((maybe (text w8 least most)).reading bytes.now) }
{
    let (there, rest) = u8_at(bytes, 0, 1)?;
    if there == 0 {
        return Ok((None, rest));
    }
    let (text, rest) = text8_at(rest, least, most)?;
    Ok((Some(text), rest))
}
