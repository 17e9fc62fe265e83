ghost use Rattle.std.specs.Prelude.{◌≡◌, ◌≢◌, ◌+◌, ◌≤◌, ◌<◌, ◌↔◌, List, [], length, slice_get, IfOk, OnOk, OnErr, IfErr, IsTrue, is_some, IsOk, if◌then◌else◌, map};
ghost use Rattle.std.specs.Option.{option_copied, option_map};
ghost use Rattle.db_base.specs.Change.{key_of, net};
ghost use Rattle.db_base.specs.Limits.{longest_key, most_changes};
ghost use Rattle.txn_buffer.specs.Noted.{Noted, found_in, noted_in, both_noted_in, AreNoted, FindsFull, AreTooMany, TooManyOrMemory};
ghost use Rattle.indexmap.specs.IndexMap.{index_map_len, values, spare, with_value_at};
ghost use Rattle.txn_buffer.specs.Kept.{noted_of, KeysMatch, IsKept, change_at, HasRoomFor, AddsChange, IfAt};

use crate::noted_key::NotedKey;
use db_base::change::Change;
use db_base::ids::TreeId;
use db_base::refusal::{Refusal, Refused};
use indexmap::IndexMap;
use std::alloc::Global;
use std::marker::Model;
use std::mem;

/// The most changes that a transaction has, each of a tree and key of its own.
pub const MAX_CHANGES: usize = 200;

/// The changes of a transaction, one net change for each tree and key, in the order of first noting.
pub struct TxnBuffer {
    changes: IndexMap<NotedKey, Change>,
    alloc: Global,
}

impl Drop for TxnBuffer {
    fn drop(self) {
        let TxnBuffer {
            changes: _,
            alloc: _,
        } = self;
    }
}

impl Model for TxnBuffer {
    ghost use Rattle.std.specs.Prelude.{List, map};
    ghost use Rattle.txn_buffer.specs.Noted.{Noted};

    ghost Value = { List Noted };

    ghost use Rattle.txn_buffer.specs.Kept.{noted_of, IsKept};

    ghost view = { λ b. map noted_of b.changes.entries };

    ghost invariant = { λ b. IsKept b.changes.entries };
}

/// The change at a key of the map.
fn lookup<'a>(changes: &'a IndexMap<NotedKey, Change>, key: &NotedKey) -> Option<&'a Change>
    requires { KeysMatch changes.now.entries }
    ensures { option_copied result ≡ change_at changes.now.entries key.now }
{
    changes.get(key)
}

/// How many changes a tree and key add: none where they are there.
fn added(changes: &IndexMap<NotedKey, Change>, key: &NotedKey) -> usize
    requires { KeysMatch changes.now.entries }
    ensures { result ≡ (if is_some (change_at changes.now.entries key.now) then 0 else 1) }
{
    match lookup(changes, key) {
        Some(_) => 0,
        None => 1,
    }
}

/// Joins a later change to the one at an index.
fn join_at(changes: &mut IndexMap<NotedKey, Change>, index: usize, later: Change)
    requires within { index < index_map_len changes.old }
    requires of { IfAt (values changes.old) index (λ first. key_of first ≡ key_of later) }
    ensures { IfAt (values changes.old) index (λ first. changes.new ≡ with_value_at changes.old index (net first later)) }
{
    changes[index].join(later);
}

/// Stores a change, joined to the one at its key where there is one.
fn store(
    changes: &mut IndexMap<NotedKey, Change>,
    key: NotedKey,
    change: Change,
) -> Result<(), Refused>
    requires kept { IsKept changes.old.entries }
    requires of { key.key.items ≡ key_of change }
    requires short { length key.key.items ≤ longest_key }
    requires room { HasRoomFor changes.old.entries key.tree change }
    ensures ok { OnOk result (AddsChange changes.old.entries key.tree change changes.new.entries) }
    ensures err { OnErr result (changes.new.entries ≡ changes.old.entries) }
    ensures memory { IfErr result (λ e. e ≡ Refused.Memory) }
    ensures kept { IsKept changes.new.entries }
    ensures succeeds { 0 < spare changes.old → IsOk result }
    ensures uses_one { spare changes.old ≤ spare changes.new + 1 }
{
    match changes.get_index_of(&key) {
        Some(index) => {
            join_at(changes, index, change);
            Ok(())
        }
        None => match changes.insert(key, change) {
            Ok(_) => Ok(()),
            Err(_) => Err(Refused::Memory),
        },
    }
}

impl TxnBuffer {
    /// A buffer without changes. Refused for memory alone.
    pub fn new(alloc: Global) -> Result<TxnBuffer, Refused>
        ensures ok { IfOk result (λ b. b ≡ []) }
        ensures memory { IfErr result (λ e. e ≡ Refused.Memory) }
    {
        Ok(TxnBuffer {
            changes: IndexMap::new(alloc),
            alloc,
        })
    }

    /// Notes a change: where its tree and key are there, the net change takes its place; else it goes last.
    /// TooManyChanges exactly where it would be the 201st tree and key. A refusal changes nothing.
    pub fn note(&mut self, tree: TreeId, change: Change) -> Result<(), Refused>
        ensures ok { OnOk result (self.new ≡ noted_in self.old tree change) }
        ensures err { OnErr result (self.new ≡ self.old) }
        ensures many { AreTooMany result ↔ FindsFull self.old tree change }
        ensures only { IfErr result TooManyOrMemory }
    {
        let key = NotedKey::of_change(tree, &change);
        let is_new = lookup(&self.changes, &key).is_none();
        if is_new && self.changes.len() >= MAX_CHANGES {
            return Err(Refused::Rule(Refusal::TooManyChanges));
        }
        store(&mut self.changes, key, change)
    }

    /// Notes two changes, of different trees, or neither. TooManyChanges exactly where there would be more than 200 changes.
    /// A refusal changes nothing.
    pub fn note_both(
        &mut self,
        tree: TreeId,
        change: Change,
        other_tree: TreeId,
        other: Change,
    ) -> Result<(), Refused>
        requires { tree ≢ other_tree }
        ensures ok { OnOk result (self.new ≡ both_noted_in self.old tree change other_tree other) }
        ensures err { OnErr result (self.new ≡ self.old) }
        ensures many { AreTooMany result ↔ (most_changes < length (both_noted_in self.old tree change other_tree other)) }
        ensures only { IfErr result TooManyOrMemory }
    {
        let key = NotedKey::of_change(tree, &change);
        let other_key = NotedKey::of_change(other_tree, &other);
        let new = added(&self.changes, &key) + added(&self.changes, &other_key);
        if self.changes.len() + new > MAX_CHANGES {
            return Err(Refused::Rule(Refusal::TooManyChanges));
        }
        // With room for both neither store is refused.
        if self.changes.reserve(2).is_err() {
            return Err(Refused::Memory);
        }
        match store(&mut self.changes, key, change) {
            Ok(()) => store(&mut self.changes, other_key, other),
            Err(e) => Err(e),
        }
    }

    /// How many changes, at most 200, each of a tree and key of its own.
    pub fn len(&self) -> usize
        ensures is { result ≡ length self.now }
        ensures few { length self.now ≤ most_changes }
        ensures noted { AreNoted self.now }
    {
        self.changes.len()
    }

    /// Whether there is no change.
    pub fn is_empty(&self) -> bool
        ensures { IsTrue result ↔ (self.now ≡ []) }
    {
        self.changes.is_empty()
    }

    /// The change at an index with its tree, in the order of first noting. Takes no memory.
    pub fn at(&self, index: usize) -> Option<(TreeId, &Change)>
        ensures { option_map (λ p. record { tree = p.0; change = p.1.now }) result ≡ slice_get self.now index }
    {
        let (key, change) = self.changes.get_index(index)?;
        Some((key.tree, change))
    }

    /// The change of a tree and key. Takes no memory.
    pub fn find(&self, tree: TreeId, key: &[u8]) -> Option<&Change>
        ensures { option_copied result ≡ found_in self.now tree key.now }
    {
        let changes = &self.changes;
        match NotedKey::of(tree, key) {
            Some(key) => lookup(changes, &key),
            None => None,
        }
    }

    /// Forgets all changes. Takes no memory.
    #[inline(never)]
    pub fn clear(&mut self)
        ensures { self.new ≡ [] }
    {
        self.changes.clear();
    }

    /// Moves the changes out, and is empty from then on. Takes no memory.
    pub fn take(&mut self) -> TxnBuffer
        ensures taken { result ≡ self.old }
        ensures empty { self.new ≡ [] }
    {
        TxnBuffer {
            changes: mem::replace(&mut self.changes, IndexMap::new(self.alloc)),
            alloc: self.alloc,
        }
    }
}
