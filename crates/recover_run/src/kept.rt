ghost use Rattle.std.specs.Prelude.{◌≡◌, [], length, IfOk};
ghost use Rattle.log_codec.specs.Atomic.{HasPlace};
ghost use Rattle.recover_run.specs.Gathering.{kept_with};
ghost use Rattle.recover_run.specs.Kept.{with_item, Places, AllPlaced};

use crate::items::AtomicItem;
use crate::wanted::Wanted;
use std::alloc::{AllocError, Global};
use std::cmp::Ordering;
use std::collections::VecDeque;
use std::marker::Model;

/// The records of one transaction that were kept, in order of index, one of each. Seen as the list of them.
pub(crate) struct Kept {
    items: Vec<AtomicItem>,
}

impl Drop for Kept {
    fn drop(self) {
        let Kept { items: _ } = self;
    }
}

impl Model for Kept {
    ghost use Rattle.std.specs.Prelude.{List};
    ghost use Rattle.recover_run.specs.declared.items.AtomicItem.{AtomicItem};
    ghost use Rattle.recover_run.specs.Kept.{AllPlaced};

    ghost Value = { List AtomicItem };

    ghost view = { λ k. k.items.items };

    ghost invariant = { λ k. AllPlaced k.items.items };
}

/// The place at which a record of this index is put, none where one of the index is there.
fn place_of(items: &[AtomicItem], index: u8) -> Option<usize>
    ensures { Places items.now index result }
{
    for i in 0..items.len() {
        match index.cmp(&items[i].rec.index) {
            Ordering::Less => return Some(i),
            Ordering::Equal => return None,
            Ordering::Greater => {}
        }
    }
    Some(items.len())
}

impl Kept {
    /// Nothing kept. Takes no memory.
    pub fn new(alloc: Global) -> Kept
        ensures { result ≡ [] }
    {
        Kept {
            items: Vec::new(alloc),
        }
    }

    /// Keeps nothing any more. Takes no memory.
    pub fn clear(&mut self)
        ensures { self.new ≡ [] }
    {
        self.items.clear();
    }

    /// The records in order of index.
    pub fn as_slice(&self) -> &[AtomicItem]
        ensures items { result.now ≡ self.now }
        ensures placed { AllPlaced self.now }
    {
        self.items.as_slice()
    }

    /// How many records.
    pub fn len(&self) -> usize
        ensures { result ≡ length self.now }
    {
        self.items.len()
    }

    /// Keeps a record, unless one of its index is kept.
    fn add(&mut self, item: AtomicItem) -> Result<(), AllocError>
        requires { HasPlace item.rec }
        ensures { IfOk result (λ _. self.new ≡ with_item self.old item) }
    {
        if let Some(place) = place_of(self.items.as_slice(), item.rec.index) {
            self.items.insert(place, item)?;
        }
        Ok(())
    }

    /// Keeps the records that are counted, the first of each index.
    pub fn add_all(&mut self, wanted: Wanted, items: Vec<AtomicItem>) -> Result<(), AllocError>
        requires { AllPlaced items.items }
        ensures { IfOk result (λ _. self.new ≡ kept_with wanted self.old items.items) }
    {
        let mut left = VecDeque::from_vec(items);
        while let Some(item) = left.pop_front() {
            if wanted.counts(&item.rec) {
                self.add(item)?;
            }
        }
        Ok(())
    }
}
