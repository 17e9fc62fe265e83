//! Fixed bytes, and the bytes between the items of a list.

ghost use Rattle.byte_format.specs.Format.{mark_at, more_at};
ghost use Rattle.byte_format.specs.Gives.{Gives};

use crate::stop::Stop;

/// The bytes behind a fixed byte.
#[tactic(auto, unfolding(crate::specs::Format::mark_at))]
pub fn mark_at(bytes: &[u8], mark: u8) -> Result<&[u8], Stop>
    ensures { Gives (λ x. x.now) result (mark_at mark bytes.now) }
{
    match bytes {
        [first, rest @ ..] if *first == mark => Ok(rest),
        _ => Err(Stop { left: bytes.len() }),
    }
}

/// Whether an item of a list follows: a byte 1, or, where the list may end, a byte 0.
#[tactic(auto, unfolding(crate::specs::Format::more_at))]
pub fn more_at(bytes: &[u8], may_end: bool) -> Result<(bool, &[u8]), Stop>
    ensures { Gives (λ x. (x.0, x.1.now)) result (more_at may_end bytes.now) }
{
    match bytes {
        [1, rest @ ..] => Ok((true, rest)),
        [0, rest @ ..] if may_end => Ok((false, rest)),
        _ => Err(Stop { left: bytes.len() }),
    }
}
