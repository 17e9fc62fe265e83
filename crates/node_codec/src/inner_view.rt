//! An inner node as it stands in its bytes.

ghost use Rattle.std.specs.Prelude.{◌≡◌, false, Err, Some, IfOk, IfErr, IsOkAnd};
ghost use Rattle.std.specs.Option.{option_copied};
ghost use Rattle.byte_format.specs.Gives.{Gives};
ghost use Rattle.byte_format.specs.Whole.{whole, offset};
ghost use Rattle.byte_format.specs.Order.{bytes_below};
ghost use Rattle.node_codec.specs.Node.{child_of, page_at};
ghost use Rattle.node_codec.specs.Inner.{Inner, inner_format, inner_in, inner_read, with_list, IsInner, IsListOf, HasInnerSpelling, AreInnerParts};

use crate::entries::Entries;
use crate::entry::child_in;
use crate::entry_rules::check_entries;
use byte_format::{Stop, high_key_at, mark_at, text8_at, u8_at, u64_at};
use db_base::ids::PageId;
use std::marker::Model;

/// The bytes are no inner node.
#[derive(Clone, Copy, Debug, PartialEq, Eq)]
pub struct NotInner {
    /// Where the first field begins that is cut short or breaks its rule, or the place behind the last field where bytes follow it.
    pub offset: u64,
}

/// An inner node, read in place. Its calls take no memory.
#[derive(Drop)]
pub struct InnerView<'a> {
    version: u64,
    level: u8,
    low: &'a [u8],
    right: u64,
    high: Option<&'a [u8]>,
    // The list of entries.
    entries: &'a [u8],
}

impl<'a> Model for InnerView<'a> {
    ghost use Rattle.std.specs.Option.{option_copied};
    ghost use Rattle.node_codec.specs.Inner.{Inner, inner_in, AreInnerParts};

    ghost Value = { Inner };

    ghost view = { λ v. inner_in v.version v.level v.low.now v.right (option_copied v.high) v.entries.now };

    ghost invariant = { λ v. AreInnerParts v.version v.level v.low.now v.right (option_copied v.high) v.entries.now };
}

/// The fields of a node, each read but for its entries.
#[derive(Clone, Copy)]
struct InnerFront<'a> {
    version: u64,
    level: u8,
    low: &'a [u8],
    right: u64,
    high: Option<&'a [u8]>,
    entries: &'a [u8],
}

/// Splits the bytes of a node at its fields.
fn front_at(bytes: &[u8]) -> Result<InnerFront<'_>, Stop>
    ensures ok { IfOk result (λ f. whole inner_format bytes.now ≡ inner_read f.version f.level f.low.now f.right (option_copied f.high) f.entries.now) }
    ensures err { IfErr result (λ stop. whole inner_format bytes.now ≡ Err stop.left) }
{
    let rest = mark_at(bytes, 0x49)?;
    let rest = mark_at(rest, 1)?;
    let (version, rest) = u64_at(rest, 1, u64::MAX)?;
    let (level, rest) = u8_at(rest, 1, 255)?;
    let (low, rest) = text8_at(rest, 0, 64)?;
    let (right, rest) = u64_at(rest, 0, u64::MAX)?;
    let (high, entries) = high_key_at(rest, low, right)?;
    Ok(InnerFront {
        version,
        level,
        low,
        right,
        high,
        entries,
    })
}

impl<'a> InnerFront<'a> {
    /// The node that has these fields.
    fn view(self) -> InnerView<'a>
        requires { AreInnerParts self.version self.level self.low.now self.right (option_copied self.high) self.entries.now }
        ensures { result ≡ inner_in self.entry.version self.entry.level self.entry.low.now self.entry.right (option_copied self.entry.high) self.entry.entries.now }
    {
        InnerView {
            version: self.version,
            level: self.level,
            low: self.low,
            right: self.right,
            high: self.high,
            entries: self.entries,
        }
    }
}

/// The node that the bytes spell.
fn inner_at(bytes: &[u8]) -> Result<InnerView<'_>, Stop>
    ensures { Gives (λ v. v) result (whole inner_format bytes.now) }
{
    let front = front_at(bytes)?;
    check_entries(front.low, front.high, u64::MAX, front.entries)?;
    Ok(front.view())
}

impl<'a> InnerView<'a> {
    /// The node that all of the bytes spell.
    pub fn read(bytes: &'a [u8]) -> Result<InnerView<'a>, NotInner>
        // What is read is spelled so.
        ensures found { IfOk result (λ v. IsInner bytes.now v) }
        // What is spelled so is read.
        ensures only { (n : Inner) → IsInner bytes.now n → IsOkAnd result (λ v. v ≡ n) }
        ensures offset { IfErr result (λ e. e.offset ≡ offset inner_format bytes.now) }
    {
        match inner_at(bytes) {
            Ok(view) => Ok(view),
            Err(stop) => Err(NotInner {
                offset: stop.offset(bytes),
            }),
        }
    }

    /// The node of bytes that spell one: its entries are not looked at again.
    pub fn known(bytes: &'a [u8]) -> InnerView<'a>
        requires { (n : Inner) × IsInner bytes.now n }
        ensures { IsInner bytes.now result }
    {
        let Ok(front) = front_at(bytes) else {
            unreachable!()
        };
        front.view()
    }

    /// How often the node was put, from 1.
    pub fn version(&self) -> u64
        ensures value { result ≡ self.now.version }
        ensures sound { HasInnerSpelling self.now }
    {
        self.version
    }

    /// The level above the leaves, from 1.
    pub fn level(&self) -> u8
        ensures { result ≡ self.now.level }
    {
        self.level
    }

    /// The low key: the node has no key below it. Empty at the left end.
    pub fn low(&self) -> &'a [u8]
        ensures { result.now ≡ self.now.low }
    {
        self.low
    }

    /// The high key: the keys of the node are below it. None at the right end.
    pub fn high(&self) -> Option<&'a [u8]>
        ensures { option_copied result ≡ self.now.high }
    {
        self.high
    }

    /// The page to the right, where there is a high key.
    pub fn right(&self) -> Option<PageId>
        ensures { result ≡ page_at self.now.right }
    {
        PageId::new(self.right).ok()
    }

    /// The entry with the greatest low key that is at most the key.
    pub fn child(&self, key: &[u8]) -> (&'a [u8], PageId)
        requires { bytes_below key.now self.now.low ≡ false }
        ensures { child_of key.now self.now.entries ≡ Some (result.0.now, result.1) }
    {
        child_in(self.entries, key)
    }

    /// The entries, in the order of keys.
    #[tactic(auto, using(crate::proofs::PlainLemmas::list_from_whole))]
    pub fn entries(&self) -> Entries<'a>
        ensures { result ≡ self.now.entries }
    {
        Entries::of(self.entries)
    }

    /// The number of the page to the right, 0 for none.
    pub(crate) fn right_number(&self) -> u64
        ensures { result ≡ self.now.right }
    {
        self.right
    }

    /// The bytes of the entries.
    pub(crate) fn list(&self) -> &'a [u8]
        ensures parts { IsListOf self.now result.now }
        ensures value { self.now ≡ with_list self.now result.now }
    {
        self.entries
    }
}
