//! Texts with their length before them.

ghost use Rattle.std.specs.Prelude.{◌≡◌, ◌≤◌, IfOk, length};
ghost use Rattle.std.specs.Int.{w8, w16};
ghost use Rattle.byte_format.specs.Format.{text_at};
ghost use Rattle.byte_format.specs.Gives.{Gives};

use crate::number::{u8_at, u16_at};
use crate::stop::Stop;

/// From `least` to `most` bytes behind a length of one byte, and the bytes behind them.
#[tactic(auto, unfolding(crate::specs::Format::text_at))]
pub fn text8_at(bytes: &[u8], least: u8, most: u8) -> Result<(&[u8], &[u8]), Stop>
    ensures gives { Gives (λ x. (x.0.now, x.1.now)) result (text_at w8 least most bytes.now) }
    ensures least { IfOk result (λ x. least ≤ length x.0.now) }
    ensures most { IfOk result (λ x. length x.0.now ≤ most) }
{
    let (len, rest) = u8_at(bytes, least, most)?;
    let len = len as usize;
    if rest.len() < len {
        return Err(Stop { left: bytes.len() });
    }
    Ok(rest.split_at(len))
}

/// From `least` to `most` bytes behind a length of two bytes, and the bytes behind them.
#[tactic(auto, unfolding(crate::specs::Format::text_at))]
pub fn text16_at(bytes: &[u8], least: u16, most: u16) -> Result<(&[u8], &[u8]), Stop>
    ensures gives { Gives (λ x. (x.0.now, x.1.now)) result (text_at w16 least most bytes.now) }
    ensures least { IfOk result (λ x. least ≤ length x.0.now) }
    ensures most { IfOk result (λ x. length x.0.now ≤ most) }
{
    let (len, rest) = u16_at(bytes, least, most)?;
    let len = len as usize;
    if rest.len() < len {
        return Err(Stop { left: bytes.len() });
    }
    Ok(rest.split_at(len))
}
