use crate::spelled::TreeBytes;
use split_plan::put_list::{PagePut, PutList};
use std::alloc::Global;
use std::marker::Model;

/// Pages that are to be put, in this order. Seen as the list of the puts.
pub struct PutQueue {
    puts: Vec<PagePut>,
}

impl Drop for PutQueue {
    fn drop(self) {
        let PutQueue { puts: _ } = self;
    }
}

impl Model for PutQueue {
    ghost use Rattle.std.specs.Prelude.{List};
    ghost use Rattle.split_plan.specs.declared.put_list.PagePut.{PagePut};

    ghost Value = { List PagePut };

    ghost view = { λ l. l.puts.items };
}

impl PutQueue {
    ghost use Rattle.std.specs.Prelude.{◌≡◌, [], drop, length, slice_get};
    ghost use Rattle.std.specs.Option.{option_copied};

    /// Nothing to put. Takes no memory.
    pub fn new(alloc: Global) -> PutQueue
        ensures { result ≡ [] }
    {
        PutQueue {
            puts: Vec::new(alloc),
        }
    }

    /// The puts of a plan. Takes no memory.
    pub fn of(puts: PutList) -> PutQueue
        ensures { result ≡ puts }
    {
        PutQueue {
            puts: puts.into_vec(),
        }
    }

    /// The puts.
    pub fn as_slice(&self) -> &[PagePut]
        ensures { result.now ≡ self.now }
    {
        self.puts.as_slice()
    }

    /// How many puts are left.
    pub fn len(&self) -> usize
        ensures { result ≡ length self.now }
    {
        self.puts.len()
    }

    /// Leaves the first put out, where there is one. Takes no memory.
    pub fn drop_first(&mut self)
        ensures { self.new ≡ drop 1 self.old }
    {
        if !self.puts.as_slice().is_empty() {
            let _first = self.puts.remove(0);
        }
    }
}

/// What is to be put: first the tree object that reserves the numbers of new pages, where there are such, then pages.
pub struct Placing {
    /// The tree object with the reservation.
    pub reserved: Option<TreeBytes>,
    /// The pages, the rightmost first.
    pub puts: PutQueue,
}

impl Drop for Placing {
    fn drop(self) {
        let Placing {
            reserved: _,
            puts: _,
        } = self;
    }
}

ghost use Rattle.std.specs.Prelude.{◌≡◌, [], None};
ghost use Rattle.std.specs.Option.{option_copied, option_map};
ghost use Rattle.cloud_trait.specs.Call.{ask_of};
ghost use Rattle.tree_phases.specs.Placing.{put_in_hand, landed_root, landed_placing, has_nothing, has_one_page};

use cloud_trait::call::Call;
use cloud_trait::lease::Lease;
use db_base::ids::TreeId;
use db_base::names::ObjName;

impl Placing {
    /// Nothing to put. Takes no memory.
    pub fn new(alloc: Global) -> Placing
        ensures { result ≡ record { reserved = None; puts = [] } }
    {
        Placing {
            reserved: None,
            puts: PutQueue::new(alloc),
        }
    }

    /// The put in hand, under the tree's lease, a page also under the second one; none where nothing is to be put.
    pub fn call<'a>(
        &'a self,
        tree: TreeId,
        lease: &'a Lease,
        second: Option<&'a Lease>,
    ) -> Option<Call<'a>>
        ensures { option_map ask_of result ≡ put_in_hand self.now tree lease.now (option_copied second.entry) }
    {
        match (&self.reserved, self.puts.as_slice().split_first()) {
            (Some(bytes), _) => Some(Call::PutHeld(
                ObjName::Tree(tree),
                bytes.as_slice(),
                lease,
                None,
            )),
            (None, Some((put, _))) => Some(Call::PutHeld(
                ObjName::Page(tree, put.page),
                put.bytes.as_slice(),
                lease,
                second,
            )),
            (None, None) => None,
        }
    }

    /// The put in hand landed: a tree object is the newest one now.
    pub fn land(&mut self, root: &mut Option<TreeBytes>)
        ensures root { root.new ≡ landed_root self.old root.old }
        ensures left { self.new ≡ landed_placing self.old }
    {
        match self.reserved.take() {
            Some(bytes) => *root = Some(bytes),
            None => self.puts.drop_first(),
        }
    }

    /// Whether nothing is to be put.
    pub fn is_empty(&self) -> bool
        ensures { result ≡ has_nothing self.now }
    {
        self.reserved.is_none() && self.puts.as_slice().is_empty()
    }

    /// Whether the put in hand is the last one.
    pub fn is_last(&self) -> bool
        ensures { result ≡ has_one_page self.now }
    {
        self.reserved.is_none() && self.puts.len() == 1
    }
}
