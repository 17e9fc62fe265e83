ghost use Rattle.std.specs.Prelude.{◌≡◌, ◌<◌, ◌^◌, length, IfOk};
ghost use Rattle.recover_run.specs.Gathering.{nothing_gathered, gathered_with, lost_now};
ghost use Rattle.recover_run.specs.Kept.{AllPlaced};

use crate::ids::IdSet;
use crate::items::{AtomicItem, ids_of};
use crate::kept::Kept;
use crate::wanted::Wanted;
use db_base::ids::MsgId;
use std::alloc::{AllocError, Global};
use std::collections::VecDeque;
use std::marker::Model;

/// What a recovery gathered of the records of an open head.
pub(crate) struct Gathering {
    kept: Kept,
    seen: IdSet,
    fresh: bool,
    lost: IdSet,
}

impl Drop for Gathering {
    fn drop(self) {
        let Gathering {
            kept: _,
            seen: _,
            fresh: _,
            lost: _,
        } = self;
    }
}

impl Model for Gathering {
    ghost use Rattle.recover_run.specs.Gathering.{Gathered};

    ghost Value = { Gathered };

    ghost view = { λ g. record { kept = g.kept; seen = g.seen; fresh = g.fresh; lost = g.lost } };
}

impl Gathering {
    /// Nothing gathered. Takes no memory.
    pub fn new(alloc: Global) -> Gathering
        ensures { result ≡ nothing_gathered }
    {
        Gathering {
            kept: Kept::new(alloc),
            seen: IdSet::new(alloc),
            fresh: false,
            lost: IdSet::new(alloc),
        }
    }

    /// Forgets what was gathered. Takes no memory.
    pub fn clear(&mut self)
        ensures { self.new ≡ nothing_gathered }
    {
        self.kept.clear();
        self.seen.clear();
        self.fresh = false;
        self.lost.clear();
    }

    /// The kept records, in order of index.
    pub fn kept(&self) -> &[AtomicItem]
        ensures items { result.now ≡ self.now.kept }
        ensures placed { AllPlaced result.now }
    {
        self.kept.as_slice()
    }

    /// How many records are kept.
    pub fn have(&self) -> usize
        ensures { result ≡ length self.now.kept }
    {
        self.kept.len()
    }

    /// Whether the newest receive brought a message that was new.
    pub fn is_fresh(&self) -> bool
        ensures { result ≡ self.now.fresh }
    {
        self.fresh
    }

    /// No more ids than memory has places.
    pub fn few(&self)
        ensures seen { length self.now.seen < 2 ^ 64 }
        ensures lost { length self.now.lost < 2 ^ 64 }
    {
        self.seen.few();
        self.lost.few();
    }

    /// Takes what a receive brought, and answers the ids of lost records that are to be deleted.
    pub fn add(
        &mut self,
        alloc: Global,
        wanted: Wanted,
        items: Vec<AtomicItem>,
    ) -> Result<VecDeque<MsgId>, AllocError>
        requires { AllPlaced items.items }
        ensures lost { IfOk result (λ ids. ids.items ≡ lost_now wanted self.old items.items) }
        ensures gathered { IfOk result (λ _. self.new ≡ gathered_with wanted self.old items.items) }
    {
        let lost = wanted.lost_ids(alloc, items.as_slice())?;
        let all = ids_of(alloc, items.as_slice())?;
        let ids = self.lost.add_all(alloc, lost.as_slice())?;
        let fresh = self.seen.add_all(alloc, all.as_slice())?;
        self.fresh = !fresh.is_empty();
        self.kept.add_all(wanted, items)?;
        Ok(ids)
    }
}
