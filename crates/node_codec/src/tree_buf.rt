//! A root under edit.

ghost use Rattle.std.specs.Prelude.{◌≡◌, ◌+◌, ◌<◌, ◌≤◌, ◌↔◌, [], length, IfOk, IfErr, OnOk, OnErr, IsErrOf};
ghost use Rattle.db_base.specs.Limits.{longest_key};
ghost use Rattle.node_codec.specs.Tree.{Tree, IsTree, HasTreeSpelling, with_child, with_raised, raised_root};
ghost use Rattle.node_codec.specs.Inner.{node_of_root};

use crate::entry_list::{count_entries, one_entry, with_one_more};
use crate::inner_buf::InnerBuf;
use crate::raised::raised_numbers;
use crate::tree_view::TreeView;
use byte_format::{try_add, try_add_u8, try_add_u64};
use db_base::blob::Blob;
use db_base::cursor::Cursor;
use db_base::ids::PageId;
use db_base::pair::EditFault;
use std::alloc::{AllocError, Global};
use std::marker::Model;

/// The root of a tree that is edited and then written.
pub struct TreeBuf {
    alloc: Global,
    version: u64,
    next: u64,
    level: u8,
    // The list of numbers by client.
    cursor: Vec<u8>,
    // The list of entries.
    entries: Vec<u8>,
}

impl Drop for TreeBuf {
    fn drop(self) {
        let TreeBuf {
            alloc: _,
            version: _,
            next: _,
            level: _,
            cursor: _,
            entries: _,
        } = self;
    }
}

impl Model for TreeBuf {
    ghost use Rattle.node_codec.specs.Tree.{Tree, tree_in, AreWrittenParts};

    ghost Value = { Tree };

    ghost view = { λ b. tree_in b.version b.next b.level b.cursor.items b.entries.items };

    ghost invariant = { λ b. AreWrittenParts b.version b.next b.level b.cursor.items b.entries.items };
}

/// The page of a number that is no 0.
fn page_of(number: u64) -> PageId
    requires { 1 ≤ number }
    ensures { result ≡ number }
{
    PageId::new(number).unwrap()
}

impl TreeBuf {
    /// The root as it is put next: its version is one more. Exhausted exactly where the version is the greatest u64.
    pub fn of(alloc: Global, view: &TreeView<'_>) -> Result<TreeBuf, EditFault>
        ensures ok { IfOk result (λ b. b ≡ record view.now { version = view.now.version + 1 }) }
        ensures exhausted { IsErrOf result EditFault.Exhausted ↔ (view.now.version ≡ u64.MAX) }
    {
        let version = view.version();
        if version == u64::MAX {
            return Err(EditFault::Exhausted);
        }
        let (cursor, entries) = view.lists();
        let cursor = cursor.to_vec(alloc)?;
        let entries = entries.to_vec(alloc)?;
        Ok(TreeBuf {
            alloc,
            version: version + 1,
            next: view.next(),
            level: view.level(),
            cursor,
            entries,
        })
    }

    /// Gives each client the greater of its number and its number in the cursor. Refused for memory alone, and then nothing changes.
    pub fn raise(&mut self, cursor: &Cursor) -> Result<(), EditFault>
        ensures ok { OnOk result (self.new ≡ with_raised self.old cursor.now) }
        ensures err { OnErr result (self.new ≡ self.old) }
        ensures memory { IfErr result (λ e. e ≡ EditFault.Memory) }
    {
        let numbers = self.cursor.as_slice();
        self.cursor = raised_numbers(self.alloc, numbers, cursor)?;
        Ok(())
    }

    /// Adds an entry, unless its low key is there or the page was not reserved. Refused for memory alone, and then nothing changes.
    pub fn add(&mut self, low: &[u8], page: PageId) -> Result<(), EditFault>
        requires { length low.now ≤ longest_key }
        ensures ok { OnOk result (self.new ≡ with_child low.now page self.old) }
        ensures err { OnErr result (self.new ≡ self.old) }
        ensures memory { IfErr result (λ e. e ≡ EditFault.Memory) }
    {
        let number = page.get();
        if number >= self.next {
            return Ok(());
        }
        let entries = self.entries.as_slice();
        self.entries = with_one_more(self.alloc, entries, low, number)?;
        Ok(())
    }

    /// Reserves page numbers, and gives the first. Exhausted exactly where they pass the greatest u64, and then nothing changes.
    pub fn reserve(&mut self, count: u64) -> Result<PageId, EditFault>
        ensures ok { OnOk result (self.new ≡ record self.old { next = self.old.next + count }) }
        ensures first { IfOk result (λ p. p ≡ self.old.next) }
        ensures exhausted { IsErrOf result EditFault.Exhausted ↔ (u64.MAX < self.old.next + count) }
        ensures err { OnErr result (self.new ≡ self.old) }
        ensures only { IfErr result (λ e. e ≡ EditFault.Exhausted) }
    {
        let first = self.next;
        if count > u64::MAX - first {
            return Err(EditFault::Exhausted);
        }
        self.next = first + count;
        Ok(page_of(first))
    }

    /// Puts all entries into an inner node below the root, which is one level higher and names that node by the page. Refused for memory alone.
    pub fn lower(self, page: PageId) -> Result<(TreeBuf, InnerBuf), EditFault>
        requires level { self.level < 255 }
        requires page { page < self.next }
        ensures root { IfOk result (λ x. x.0 ≡ raised_root page self) }
        ensures node { IfOk result (λ x. x.1 ≡ node_of_root self) }
        ensures memory { IfErr result (λ e. e ≡ EditFault.Memory) }
    {
        let number = page.get();
        let root = one_entry(self.alloc, number)?;
        let TreeBuf {
            alloc,
            version,
            next,
            level,
            cursor,
            entries,
        } = self;
        let node = InnerBuf::first(alloc, level, entries);
        let root = TreeBuf {
            alloc,
            version,
            next,
            level: level + 1,
            cursor,
            entries: root,
        };
        Ok((root, node))
    }

    /// How many entries there are.
    pub fn len(&self) -> usize
        ensures count { result ≡ length self.now.entries }
        ensures sound { HasTreeSpelling self.now }
    {
        count_entries(self.entries.as_slice())
    }

    /// Appends the spelling of the root to no bytes.
    fn spell(&self, out: &mut Vec<u8>) -> Result<(), AllocError>
        requires { out.old.items ≡ [] }
        ensures { OnOk result (IsTree out.new.items self.now) }
    {
        let cursor = self.cursor.as_slice();
        let entries = self.entries.as_slice();
        try_add_u8(out, 0x54)?;
        try_add_u8(out, 1)?;
        try_add_u64(out, self.version)?;
        try_add_u64(out, self.next)?;
        try_add_u8(out, self.level)?;
        try_add(out, cursor)?;
        try_add(out, entries)?;
        Ok(())
    }

    /// The one spelling of the root. Refused for memory alone.
    pub fn write(&self, alloc: Global) -> Result<Blob, EditFault>
        ensures ok { IfOk result (λ b. IsTree b self.now) }
        ensures memory { IfErr result (λ e. e ≡ EditFault.Memory) }
    {
        let room = self
            .cursor
            .len()
            .saturating_add(self.entries.len())
            .saturating_add(19);
        let mut out = Vec::with_capacity(alloc, room)?;
        self.spell(&mut out)?;
        Ok(Blob::of(out))
    }
}
