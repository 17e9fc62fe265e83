//! Between which keys something is asked for.

ghost use Rattle.std.specs.Prelude.{◌≡◌, ◌&&◌, ◌||◌, ℕ, List};
ghost use Rattle.std.specs.Option.{option_copied};
ghost use Rattle.byte_format.specs.Order.{bytes_below, below_bound};

use byte_format::{is_below, is_below_bound};
use std::marker::Model;

/// The key from which on something is asked for, and the key below which, where there is one.
#[derive(Drop)]
pub(crate) struct Bounds<'a> {
    pub(crate) from: &'a [u8],
    pub(crate) to: Option<&'a [u8]>,
}

impl<'a> Model for Bounds<'a> {
    ghost use Rattle.std.specs.Option.{option_copied};
    ghost use Rattle.range_scan.specs.Bounds.{Bounds as State};

    ghost Value = { State };

    ghost view = { λ b. record { from = b.from.now; to = option_copied b.to } };
}

impl<'a> Bounds<'a> {
    ghost use Rattle.range_scan.specs.Bounds.{is_between};

    /// Whether a key lies between them. Own keys are mostly behind a leaf, so the end is looked at first.
    pub(crate) fn hold(&self, key: &[u8]) -> bool
        ensures { result ≡ is_between self.now key.now }
    {
        is_below_bound(key, self.to) && !is_below(key, self.from)
    }
}

/// The later one of two begins.
pub(crate) fn later<'a>(a: &'a [u8], b: &'a [u8]) -> &'a [u8]
    ensures { (key : List ℕ) → bytes_below key result.now ≡ (bytes_below key a.now || bytes_below key b.now) }
{
    if is_below(a, b) { b } else { a }
}

/// The nearer one of two ends.
pub(crate) fn nearer<'a>(a: Option<&'a [u8]>, b: Option<&'a [u8]>) -> Option<&'a [u8]>
    ensures { (key : List ℕ) → below_bound key (option_copied result) ≡ (below_bound key (option_copied a.entry) && below_bound key (option_copied b.entry)) }
{
    match a {
        Some(key) if is_below_bound(key, b) => a,
        _ => b,
    }
}
