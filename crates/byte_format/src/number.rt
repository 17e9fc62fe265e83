//! Numbers, most significant byte first.

ghost use Rattle.std.specs.Prelude.{◌≡◌, ◌≤◌, IfOk};
ghost use Rattle.std.specs.Int.{w8, w16, w64};
ghost use Rattle.byte_format.specs.Format.{number_at};
ghost use Rattle.byte_format.specs.Gives.{Gives};

use crate::stop::Stop;

/// The number from `least` to `most` in the first byte, and the bytes behind it.
#[tactic(auto, unfolding(crate::specs::Format::number_at))]
pub fn u8_at(bytes: &[u8], least: u8, most: u8) -> Result<(u8, &[u8]), Stop>
    ensures gives { Gives (λ x. (x.0, x.1.now)) result (number_at w8 least most bytes.now) }
    ensures least { IfOk result (λ x. least ≤ x.0) }
    ensures most { IfOk result (λ x. x.0 ≤ most) }
{
    if bytes.is_empty() {
        return Err(Stop { left: 0 });
    }
    let (front, rest) = bytes.split_at(1);
    let number = front[0];
    if number < least || most < number {
        return Err(Stop { left: bytes.len() });
    }
    Ok((number, rest))
}

/// The number from `least` to `most` in the first two bytes, and the bytes behind it.
#[tactic(auto, unfolding(crate::specs::Format::number_at))]
pub fn u16_at(bytes: &[u8], least: u16, most: u16) -> Result<(u16, &[u8]), Stop>
    ensures gives { Gives (λ x. (x.0, x.1.now)) result (number_at w16 least most bytes.now) }
    ensures least { IfOk result (λ x. least ≤ x.0) }
    ensures most { IfOk result (λ x. x.0 ≤ most) }
{
    if bytes.len() < 2 {
        return Err(Stop { left: bytes.len() });
    }
    let (front, rest) = bytes.split_at(2);
    let number = u16::from_be_bytes([front[0], front[1]]);
    if number < least || most < number {
        return Err(Stop { left: bytes.len() });
    }
    Ok((number, rest))
}

/// The number from `least` to `most` in the first eight bytes, and the bytes behind it.
#[tactic(auto, unfolding(crate::specs::Format::number_at))]
pub fn u64_at(bytes: &[u8], least: u64, most: u64) -> Result<(u64, &[u8]), Stop>
    ensures gives { Gives (λ x. (x.0, x.1.now)) result (number_at w64 least most bytes.now) }
    ensures least { IfOk result (λ x. least ≤ x.0) }
    ensures most { IfOk result (λ x. x.0 ≤ most) }
{
    if bytes.len() < 8 {
        return Err(Stop { left: bytes.len() });
    }
    let (front, rest) = bytes.split_at(8);
    let number = u64::from_be_bytes([
        front[0], front[1], front[2], front[3], front[4], front[5], front[6], front[7],
    ]);
    if number < least || most < number {
        return Err(Stop { left: bytes.len() });
    }
    Ok((number, rest))
}
