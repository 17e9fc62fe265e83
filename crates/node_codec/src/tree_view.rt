//! A root as it stands in its bytes.

ghost use Rattle.std.specs.Prelude.{◌≡◌, ◌≤◌, Err, Some, IfOk, IfErr, IsOkAnd};
ghost use Rattle.byte_format.specs.Gives.{Gives};
ghost use Rattle.byte_format.specs.Whole.{whole, offset};
ghost use Rattle.db_base.specs.Cursor.{number_of};
ghost use Rattle.node_codec.specs.Node.{child_of, plain_number};
ghost use Rattle.node_codec.specs.Plain.{IsWholeList};
ghost use Rattle.node_codec.specs.Tree.{Tree, empty_tree, tree_format, tree_in, tree_read, with_lists, IsTree, IsSoundTree, AreTreeParts};

use crate::client_number::{cursor_of, number_in, split_numbers};
use crate::entries::Entries;
use crate::entry::child_in;
use crate::entry_rules::check_entries;
use byte_format::{Stop, mark_at, u8_at, u64_at};
use db_base::cursor::Cursor;
use db_base::ids::{ClientId, PageId};
use db_base::refusal::Refused;
use std::alloc::Global;
use std::marker::Model;

/// The bytes are no root.
#[derive(Clone, Copy, Debug, PartialEq, Eq)]
pub struct NotTree {
    /// Where the first field begins that is cut short or breaks its rule, or the place behind the last field where bytes follow it.
    pub offset: u64,
}

// A list of no numbers.
static NO_NUMBERS: [u8; 1] = [0];

// A list of the one entry from the empty key to page 1.
static FIRST_PAGE: [u8; 11] = [1, 0, 0, 0, 0, 0, 0, 0, 0, 1, 0];

/// The root of a tree, read in place. No call takes memory.
#[derive(Drop)]
pub struct TreeView<'a> {
    version: u64,
    next: u64,
    level: u8,
    // The list of numbers by client.
    cursor: &'a [u8],
    // The list of entries.
    entries: &'a [u8],
}

impl<'a> Model for TreeView<'a> {
    ghost use Rattle.node_codec.specs.Tree.{Tree, tree_in, AreTreeParts};

    ghost Value = { Tree };

    ghost view = { λ v. tree_in v.version v.next v.level v.cursor.now v.entries.now };

    ghost invariant = { λ v. AreTreeParts v.next v.level v.cursor.now v.entries.now };
}

/// The fields of a root, each read but for its entries.
#[derive(Clone, Copy)]
struct TreeFront<'a> {
    version: u64,
    next: u64,
    level: u8,
    cursor: &'a [u8],
    entries: &'a [u8],
}

/// Splits the bytes of a root at its fields.
fn front_at(bytes: &[u8]) -> Result<TreeFront<'_>, Stop>
    ensures ok { IfOk result (λ f. whole tree_format bytes.now ≡ tree_read f.version f.next f.level f.cursor.now f.entries.now) }
    ensures numbers { IfOk result (λ f. IsWholeList plain_number f.cursor.now) }
    ensures next { IfOk result (λ f. 1 ≤ f.next) }
    ensures err { IfErr result (λ stop. whole tree_format bytes.now ≡ Err stop.left) }
{
    let rest = mark_at(bytes, 0x54)?;
    let rest = mark_at(rest, 1)?;
    let (version, rest) = u64_at(rest, 1, u64::MAX)?;
    let (next, rest) = u64_at(rest, 2, u64::MAX)?;
    let (level, rest) = u8_at(rest, 1, 255)?;
    let (cursor, entries) = split_numbers(rest)?;
    Ok(TreeFront {
        version,
        next,
        level,
        cursor,
        entries,
    })
}

impl<'a> TreeFront<'a> {
    /// The root that has these fields.
    fn view(self) -> TreeView<'a>
        requires { AreTreeParts self.next self.level self.cursor.now self.entries.now }
        ensures { result ≡ tree_in self.entry.version self.entry.next self.entry.level self.entry.cursor.now self.entry.entries.now }
    {
        TreeView {
            version: self.version,
            next: self.next,
            level: self.level,
            cursor: self.cursor,
            entries: self.entries,
        }
    }
}

/// The root that the bytes spell.
fn tree_at(bytes: &[u8]) -> Result<TreeView<'_>, Stop>
    ensures { Gives (λ v. v) result (whole tree_format bytes.now) }
{
    let front = front_at(bytes)?;
    check_entries(&[], None, front.next - 1, front.entries)?;
    Ok(front.view())
}

impl<'a> TreeView<'a> {
    /// The root that all of the bytes spell.
    pub fn read(bytes: &'a [u8]) -> Result<TreeView<'a>, NotTree>
        // What is read is spelled so.
        ensures found { IfOk result (λ v. IsTree bytes.now v) }
        // What is spelled so is read.
        ensures only { (t : Tree) → IsTree bytes.now t → IsOkAnd result (λ v. v ≡ t) }
        ensures offset { IfErr result (λ e. e.offset ≡ offset tree_format bytes.now) }
    {
        match tree_at(bytes) {
            Ok(view) => Ok(view),
            Err(stop) => Err(NotTree {
                offset: stop.offset(bytes),
            }),
        }
    }

    /// The root of bytes that spell one: its entries are not looked at again.
    pub fn known(bytes: &'a [u8]) -> TreeView<'a>
        requires { (t : Tree) × IsTree bytes.now t }
        ensures { IsTree bytes.now result }
    {
        let Ok(front) = front_at(bytes) else {
            unreachable!()
        };
        front.view()
    }

    /// How often the root was put; 0 where it never was.
    pub fn version(&self) -> u64
        ensures value { result ≡ self.now.version }
        ensures sound { IsSoundTree self.now }
    {
        self.version
    }

    /// The least page number that is free.
    pub fn next(&self) -> u64
        ensures { result ≡ self.now.next }
    {
        self.next
    }

    /// How many levels there are above the leaves, from 1.
    pub fn level(&self) -> u8
        ensures { result ≡ self.now.level }
    {
        self.level
    }

    /// The number up to which the client's records of the tree's queue are applied.
    #[tactic(auto, using(crate::proofs::PlainLemmas::list_from_whole))]
    pub fn cursor(&self, client: ClientId) -> u64
        ensures { result ≡ number_of self.now.cursor client }
    {
        number_in(self.cursor, client)
    }

    /// The entry with the greatest low key that is at most the key.
    pub fn child(&self, key: &[u8]) -> (&'a [u8], PageId)
        ensures { child_of key.now self.now.entries ≡ Some (result.0.now, result.1) }
    {
        child_in(self.entries, key)
    }

    /// The entries, in the order of keys.
    #[tactic(auto, using(crate::proofs::PlainLemmas::list_from_whole))]
    pub fn entries(&self) -> Entries<'a>
        ensures { result ≡ self.now.entries }
    {
        Entries::of(self.entries)
    }

    /// The root of a tree that was never put.
    pub fn empty() -> TreeView<'a>
        ensures { result ≡ empty_tree }
    {
        TreeView {
            version: 0,
            next: 2,
            level: 1,
            cursor: &NO_NUMBERS,
            entries: &FIRST_PAGE,
        }
    }

    fn copy_cursor(&self, alloc: Global) -> Result<Cursor, Refused>
        ensures ok { IfOk result (λ c. c ≡ self.now.cursor) }
        ensures memory { IfErr result (λ e. e ≡ Refused.Memory) }
    {
        cursor_of(alloc, self.cursor)
    }

    /// The bytes of the numbers by client and of the entries.
    pub(crate) fn lists(&self) -> (&'a [u8], &'a [u8])
        ensures parts { AreTreeParts self.now.next self.now.level result.0.now result.1.now }
        ensures value { self.now ≡ with_lists self.now result.0.now result.1.now }
    {
        (self.cursor, self.entries)
    }
}

/// The numbers of all clients, in memory of their own. Refused for memory alone.
pub fn whole_cursor(tree: &TreeView<'_>, alloc: Global) -> Result<Cursor, Refused>
    ensures ok { IfOk result (λ c. c ≡ tree.now.cursor) }
    ensures memory { IfErr result (λ e. e ≡ Refused.Memory) }
{
    tree.copy_cursor(alloc)
}
