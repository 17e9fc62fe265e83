//! The pairs of a leaf.

ghost use Rattle.std.specs.Prelude.{◌≡◌, ◌≤◌, ◌∷◌, [], ◌++◌, length, take, drop, fold, OnOk, IfOk, MatchOption};
ghost use Rattle.std.specs.Option.{option_copied};
ghost use Rattle.leaf_view.specs.Fits.{IsWellFormed};
ghost use Rattle.leaf_view.specs.Shown.{valued};
ghost use Rattle.txn_buffer.specs.Noted.{AreNoted};
ghost use Rattle.range_scan.specs.Bounds.{AreBoundsOf, from_on, up_to, place_of, first_value, without_first};
ghost use Rattle.range_scan.specs.Pairs.{AreItems, IsAscending, acted, with_records, with_pending, with_noted, items_of};

use crate::bounds::Bounds;
use crate::sight::Sight;
use byte_format::{is_below, is_below_bound, is_same};
use db_base::change::{Change, act};
use db_base::ids::TreeId;
use db_base::value::Value;
use head_codec::entry::Entry;
use leaf_view::Records;
use std::alloc::{AllocError, Global};
use std::collections::VecDeque;
use std::marker::Model;
use txn_buffer::buffer::TxnBuffer;

/// The pairs of a leaf as a client sees them, borrowed, in key order.
pub struct Items<'a> {
    pairs: VecDeque<(&'a [u8], Value<'a>)>,
}

impl<'a> Drop for Items<'a> {
    fn drop(self) {
        let Items { pairs: _ } = self;
    }
}

impl<'a> Model for Items<'a> {
    ghost use Rattle.std.specs.Prelude.{List, map};
    ghost use Rattle.leaf_view.specs.Leaf.{Entry};
    ghost use Rattle.leaf_view.specs.Shown.{valued};

    ghost Value = { List Entry };

    ghost view = { λ x. map valued x.pairs.items };
}

/// The records from the first one on that is not below a key.
fn skip_below<'a>(records: Records<'a>, key: &[u8]) -> Records<'a>
    ensures { result ≡ from_on key.now records.entry }
{
    let mut left = records;
    while let Some(((found, _, _), rest)) = left.again().split() {
        if !is_below(found, key) {
            return left;
        }
        left = rest;
    }
    left
}

impl<'a> Items<'a> {
    /// No pairs. Takes no memory.
    pub(crate) fn none(alloc: Global) -> Items<'a>
        ensures { result ≡ [] }
    {
        Items {
            pairs: VecDeque::new(alloc),
        }
    }

    /// Adds a pair at the end. Fails for memory alone.
    fn push(&mut self, key: &'a [u8], value: Value<'a>) -> Result<(), AllocError>
        ensures { OnOk result (self.new ≡ self.old ++ record { key = key.now; value = value.entry } ∷ []) }
    {
        self.pairs.push_back((key, value))?;
        Ok(())
    }

    /// Adds the records that stand before the first one that is not below a bound. Fails for memory alone.
    fn push_below(&mut self, records: Records<'a>, bound: Option<&[u8]>) -> Result<(), AllocError>
        ensures { OnOk result (self.new ≡ self.old ++ up_to (option_copied bound.entry) records.entry) }
    {
        let mut left = records;
        while let Some(((key, payload, attr), rest)) = left.split() {
            if !is_below_bound(key, bound) {
                return Ok(());
            }
            self.push(key, Value::with(payload, attr))?;
            left = rest;
        }
        Ok(())
    }

    /// The leaf's records whose keys are asked for. They ascend, so none is put before another, and a key is compared only where a bound lies
    /// inside the leaf's range. Fails for memory alone.
    fn of_records(alloc: Global, sight: &Sight<'a>) -> Result<Items<'a>, AllocError>
        ensures records { IfOk result (λ items. items ≡ with_records sight.now) }
        ensures formed { IsWellFormed sight.now.leaf }
    {
        let mut items = Items::none(alloc);
        let records = skip_below(sight.leaf.records(), sight.from);
        items.push_below(records, sight.cut())?;
        Ok(items)
    }

    /// How many pairs are below a key.
    fn place(&self, key: &[u8]) -> usize
        requires { IsAscending self.now }
        ensures { result ≡ place_of key.now self.now }
    {
        self.pairs.partition_point(|pair| is_below(pair.0, key))
    }

    /// Takes the pair at a place out where it is of this key, and gives its value.
    fn take_at(&mut self, place: usize, key: &[u8]) -> Option<Value<'a>>
        ensures value { result ≡ first_value key.now (drop place self.old) }
        ensures rest { self.new ≡ take place self.old ++ without_first key.now (drop place self.old) }
    {
        let Some((found, _)) = self.pairs.get(place) else {
            return None;
        };
        if !is_same(found, key) {
            return None;
        }
        match self.pairs.remove(place) {
            Some((_, value)) => Some(value),
            None => unreachable!(),
        }
    }

    /// Puts a pair at a place. Fails for memory alone.
    fn put_at(&mut self, place: usize, key: &'a [u8], value: Value<'a>) -> Result<(), AllocError>
        requires { place ≤ length self.old }
        ensures { OnOk result (self.new ≡ take place self.old ++ record { key = key.now; value = value.entry } ∷ drop place self.old) }
    {
        self.pairs.insert(place, (key, value))?;
        Ok(())
    }

    /// Has a change act on the pair of its key. Fails for memory alone.
    fn change(&mut self, change: &'a Change) -> Result<(), AllocError>
        requires { IsAscending self.old }
        ensures { OnOk result (self.new ≡ acted self.old change.now) }
    {
        let key = change.key().as_slice();
        let place = self.place(key);
        let old = self.take_at(place, key);
        if let Some(value) = act(old, change) {
            self.put_at(place, key, value)?;
        }
        Ok(())
    }

    fn add_entry(
        &mut self,
        sight: &Sight<'a>,
        bounds: &Bounds<'a>,
        entry: &'a Entry,
    ) -> Result<(), AllocError>
        requires bounds { AreBoundsOf sight.now bounds.now }
        requires ascending { IsAscending self.old }
        ensures { OnOk result (self.new ≡ with_pending sight.now self.old entry.now) }
    {
        if sight.lists_pending(bounds, entry) {
            self.change(&entry.get().change)?;
        }
        Ok(())
    }

    fn add_noted(
        &mut self,
        sight: &Sight<'a>,
        bounds: &Bounds<'a>,
        noted: (TreeId, &'a Change),
    ) -> Result<(), AllocError>
        requires bounds { AreBoundsOf sight.now bounds.now }
        requires ascending { IsAscending self.old }
        ensures { OnOk result (self.new ≡ with_noted sight.now self.old (record { tree = noted.entry.0; change = noted.entry.1.now })) }
    {
        let (tree, change) = noted;
        if sight.lists_noted(bounds, tree, change) {
            self.change(change)?;
        }
        Ok(())
    }

    fn add_pending(
        &mut self,
        sight: &Sight<'a>,
        bounds: &Bounds<'a>,
        pending: &'a [Entry],
    ) -> Result<(), AllocError>
        requires bounds { AreBoundsOf sight.now bounds.now }
        requires ascending { IsAscending self.old }
        ensures added { OnOk result (self.new ≡ fold (with_pending sight.now) self.old pending.now) }
        ensures ascending { OnOk result (IsAscending self.new) }
    {
        let mut left = pending;
        while let Some((entry, rest)) = left.split_first() {
            self.add_entry(sight, bounds, entry)?;
            left = rest;
        }
        Ok(())
    }

    fn add_buffered(
        &mut self,
        sight: &Sight<'a>,
        bounds: &Bounds<'a>,
        buffer: &'a TxnBuffer,
    ) -> Result<(), AllocError>
        requires bounds { AreBoundsOf sight.now bounds.now }
        requires ascending { IsAscending self.old }
        ensures added { OnOk result (self.new ≡ fold (with_noted sight.now) self.old buffer.now) }
        ensures noted { AreNoted buffer.now }
    {
        for i in 0..buffer.len() {
            let Some(noted) = buffer.at(i) else {
                unreachable!();
            };
            self.add_noted(sight, bounds, noted)?;
        }
        Ok(())
    }

    /// All pairs that are in sight. Fails for memory alone.
    pub fn of(alloc: Global, sight: &Sight<'a>) -> Result<Items<'a>, AllocError>
        ensures list { IfOk result (λ items. items ≡ items_of sight.now) }
        ensures are { IfOk result (λ items. AreItems sight.now items) }
    {
        let bounds = sight.bounds();
        let mut items = Items::of_records(alloc, sight)?;
        items.add_pending(sight, &bounds, sight.head.pending.as_slice())?;
        items.add_buffered(sight, &bounds, sight.buffer)?;
        Ok(items)
    }

    /// Takes the first pair off, its key and its value; none where none is left.
    pub fn take_first(&mut self) -> Option<(&'a [u8], Value<'a>)>
        ensures { MatchOption result (self.old ≡ []) (λ x. self.old ≡ valued x ∷ self.new) }
    {
        self.pairs.pop_front()
    }
}
