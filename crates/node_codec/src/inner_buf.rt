//! An inner node under edit.

ghost use Rattle.std.specs.Prelude.{◌≡◌, ◌+◌, ◌<◌, ◌≤◌, ◌++◌, ◌↔◌, [], None, true, false, length, IfOk, IfErr, IfSome, OnOk, OnErr, IsErrOf};
ghost use Rattle.std.specs.Option.{option_copied};
ghost use Rattle.std.specs.Int.{w8};
ghost use Rattle.db_base.specs.Limits.{longest_key};
ghost use Rattle.byte_format.specs.Format.{option_spelling, text};
ghost use Rattle.byte_format.specs.Order.{bytes_below, below_bound};
ghost use Rattle.node_codec.specs.Inner.{Inner, IsInner, HasInnerSpelling, inner_in, AreInnerParts, left_node, right_node, with_link};

use crate::entry_list::{count_entries, cut_entries, first_low, with_one_more};
use crate::inner_view::InnerView;
use byte_format::{try_add, try_add_text8, try_add_u8, try_add_u64};
use db_base::blob::Blob;
use db_base::ids::PageId;
use db_base::pair::EditFault;
use std::alloc::{AllocError, Global};
use std::marker::Model;

/// An inner node that is edited and then written.
pub struct InnerBuf {
    alloc: Global,
    version: u64,
    level: u8,
    low: Blob,
    right: u64,
    high: Option<Blob>,
    // The list of entries.
    entries: Vec<u8>,
}

impl Drop for InnerBuf {
    fn drop(self) {
        let InnerBuf {
            alloc: _,
            version: _,
            level: _,
            low: _,
            right: _,
            high: _,
            entries: _,
        } = self;
    }
}

impl Model for InnerBuf {
    ghost use Rattle.node_codec.specs.Inner.{Inner, inner_in, AreInnerParts};

    ghost Value = { Inner };

    ghost view = { λ b. inner_in b.version b.level b.low b.right b.high b.entries.items };

    ghost invariant = { λ b. AreInnerParts b.version b.level b.low b.right b.high b.entries.items };
}

/// A copy of the bytes that are there.
fn copied(alloc: Global, bytes: Option<&[u8]>) -> Result<Option<Blob>, AllocError>
    ensures { IfOk result (λ b. b ≡ option_copied bytes.entry) }
{
    match bytes {
        None => Ok(None),
        Some(bytes) => {
            let copy = Blob::copy_of(alloc, bytes)?;
            Ok(Some(copy))
        }
    }
}

/// Appends a high key, where there is one.
fn push_high(out: &mut Vec<u8>, high: &Option<Blob>) -> Result<(), AllocError>
    requires { IfSome high.now (λ h. length h ≤ longest_key) }
    ensures { OnOk result (out.new.items ≡ out.old.items ++ option_spelling (text w8 1 longest_key) high.now) }
{
    match high {
        None => Ok(()),
        Some(high) => try_add_text8(out, high.as_slice()),
    }
}

impl InnerBuf {
    /// The node as it is put next: its version is one more. Exhausted exactly where the version is the greatest u64.
    pub fn of(alloc: Global, view: &InnerView<'_>) -> Result<InnerBuf, EditFault>
        ensures ok { IfOk result (λ b. b ≡ record view.now { version = view.now.version + 1 }) }
        ensures exhausted { IsErrOf result EditFault.Exhausted ↔ (view.now.version ≡ u64.MAX) }
    {
        let version = view.version();
        if version == u64::MAX {
            return Err(EditFault::Exhausted);
        }
        let low = Blob::copy_of(alloc, view.low())?;
        let high = copied(alloc, view.high())?;
        let entries = view.list().to_vec(alloc)?;
        Ok(InnerBuf {
            alloc,
            version: version + 1,
            level: view.level(),
            low,
            right: view.right_number(),
            high,
            entries,
        })
    }

    /// A node with these entries that was never put, and has no left and no right end.
    pub(crate) fn first(alloc: Global, level: u8, entries: Vec<u8>) -> InnerBuf
        requires { AreInnerParts 1 level [] 0 None entries.items }
        ensures { result ≡ inner_in 1 level [] 0 None entries.items }
    {
        InnerBuf {
            alloc,
            version: 1,
            level,
            low: Blob::new(alloc),
            right: 0,
            high: None,
            entries,
        }
    }

    /// Adds an entry, unless its low key is there. Refused for memory alone, and then nothing changes.
    pub fn add(&mut self, low: &[u8], page: PageId) -> Result<(), EditFault>
        requires short { length low.now ≤ longest_key }
        requires from_low { bytes_below low.now self.old.low ≡ false }
        requires to_high { below_bound low.now self.old.high ≡ true }
        ensures ok { OnOk result (self.new ≡ with_link self.old low.now page) }
        ensures err { OnErr result (self.new ≡ self.old) }
        ensures memory { IfErr result (λ e. e ≡ EditFault.Memory) }
    {
        let number = page.get();
        let entries = self.entries.as_slice();
        self.entries = with_one_more(self.alloc, entries, low, number)?;
        Ok(())
    }

    /// How many entries there are.
    pub fn len(&self) -> usize
        ensures count { result ≡ length self.now.entries }
        ensures sound { HasInnerSpelling self.now }
    {
        count_entries(self.entries.as_slice())
    }

    /// Cuts the node behind its first `count` entries: this part keeps its page and links to the right one, which is new. Refused for memory alone.
    pub fn cut_at(self, count: usize, right: PageId) -> Result<(InnerBuf, InnerBuf), EditFault>
        requires some { 0 < count }
        requires left { count < length self.entries }
        ensures left { IfOk result (λ x. x.0 ≡ left_node count right self) }
        ensures right { IfOk result (λ x. x.1 ≡ right_node count self) }
        ensures memory { IfErr result (λ e. e ≡ EditFault.Memory) }
    {
        let number = right.get();
        let (front, back) = cut_entries(self.alloc, self.entries.as_slice(), count)?;
        let low = first_low(back.as_slice());
        let high = Blob::copy_of(self.alloc, low)?;
        let low = Blob::copy_of(self.alloc, low)?;
        let InnerBuf {
            alloc,
            version,
            level,
            low: left_low,
            right: end,
            high: end_high,
            entries,
        } = self;
        drop(entries);
        let left = InnerBuf {
            alloc,
            version,
            level,
            low: left_low,
            right: number,
            high: Some(high),
            entries: front,
        };
        let right = InnerBuf {
            alloc,
            version: 1,
            level,
            low,
            right: end,
            high: end_high,
            entries: back,
        };
        Ok((left, right))
    }

    /// Appends the spelling of the node to no bytes.
    fn spell(&self, out: &mut Vec<u8>) -> Result<(), AllocError>
        requires { out.old.items ≡ [] }
        ensures { OnOk result (IsInner out.new.items self.now) }
    {
        let low = self.low.as_slice();
        let entries = self.entries.as_slice();
        try_add_u8(out, 0x49)?;
        try_add_u8(out, 1)?;
        try_add_u64(out, self.version)?;
        try_add_u8(out, self.level)?;
        try_add_text8(out, low)?;
        try_add_u64(out, self.right)?;
        push_high(out, &self.high)?;
        try_add(out, entries)?;
        Ok(())
    }

    /// The one spelling of the node. Refused for memory alone.
    pub fn write(&self, alloc: Global) -> Result<Blob, EditFault>
        ensures ok { IfOk result (λ b. IsInner b self.now) }
        ensures memory { IfErr result (λ e. e ≡ EditFault.Memory) }
    {
        let mut out = Vec::with_capacity(alloc, self.entries.len().saturating_add(148))?;
        self.spell(&mut out)?;
        Ok(Blob::of(out))
    }
}
