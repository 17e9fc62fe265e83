//! The fields of a leaf before its lists.

ghost use Rattle.std.specs.Option.{option_copied};
ghost use Rattle.byte_format.specs.Gives.{Gives};
ghost use Rattle.leaf_view.specs.Leaf.{head_of, leaf_head};

use byte_format::{Stop, high_key_at, mark_at, text8_at, u8_at, u64_at};

/// The fields before the lists; `right` is 0 where there is no right page.
#[derive(Clone, Copy)]
pub(crate) struct Head<'a> {
    pub(crate) format: u8,
    pub(crate) version: u64,
    pub(crate) low: &'a [u8],
    pub(crate) right: u64,
    pub(crate) high: Option<&'a [u8]>,
}

#[tactic(auto, unfolding(crate::specs::Leaf::leaf_head))]
pub(crate) fn head_at(bytes: &[u8]) -> Result<(Head<'_>, &[u8]), Stop>
    ensures { Gives (λ x. (head_of (x.0.format, (x.0.version, (x.0.low.now, (x.0.right, option_copied x.0.high)))), x.1.now)) result (leaf_head.reading bytes.now) }
{
    let rest = mark_at(bytes, 0x4c)?;
    let (format, rest) = u8_at(rest, 1, 2)?;
    let (version, rest) = u64_at(rest, 1, u64::MAX)?;
    let (low, rest) = text8_at(rest, 0, 64)?;
    let (right, rest) = u64_at(rest, 0, u64::MAX)?;
    let (high, rest) = high_key_at(rest, low, right)?;
    Ok((
        Head {
            format,
            version,
            low,
            right,
            high,
        },
        rest,
    ))
}
