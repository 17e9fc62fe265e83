//! A session's account of its notes.

ghost use Rattle.std.specs.Prelude.{◌≡◌, ◌↔◌, ◌≤◌, true, All, [], ◌∷◌, ◌++◌, if◌then◌else◌, map, take, List, IfErr, IfOk, IsOk, OnErr, OnOk};
ghost use Rattle.ckpt_policy.specs.declared.note.Note.{Note as Noted};
ghost use Rattle.ckpt_policy.specs.Due.{due};
ghost use Rattle.ckpt_policy.specs.Ledger.{Account, IsNumber, MayRefuse, StandsFor, StaysShort};
ghost use Rattle.ckpt_policy.specs.Notes.{queue_at, IsPending};
ghost use Rattle.ckpt_policy.specs.Picking.{picks, picked_from, ranked_from, ranks_from};

use crate::counts::Counts;
use crate::note::Note;
use crate::place::Place;
use crate::rank::Rank;
use crate::role::Role;
use db_base::ids::ClientId;
use db_base::names::QueueName;
use db_base::refusal::{Refusal, Refused};
use std::alloc::Global;
use std::collections::{BTreeMap, BTreeSet};
use std::marker::Model;

/// What a session's notes come to, a queue at a time: it keeps counts, and no list of notes.
pub struct Ledger {
    role: Role,
    k: u64,
    client: ClientId,
    counts: BTreeMap<Place, Counts>,
}

impl Drop for Ledger {
    fn drop(self) {
        let Ledger {
            role: _,
            k: _,
            client: _,
            counts: _,
        } = self;
    }
}

impl Model for Ledger {
    ghost use Rattle.ckpt_policy.specs.Ledger.{Account, IsNumber};

    ghost Value = { Account };

    ghost view = { λ l. record { role = l.role; k = l.k; client = l.client; counts = l.counts.entries } };

    ghost invariant = { λ l. IsNumber l.k };
}

/// Appends the queue at a place, where it is due.
fn push_if(queues: &mut Vec<QueueName>, place: &Place, is_due: bool) -> Result<(), Refused>
    ensures ok { OnOk result (queues.new.items ≡ queues.old.items ++ (if is_due then queue_at place.now ∷ [] else [])) }
    ensures memory { IfErr result (λ e. e ≡ Refused.Memory) }
{
    if is_due {
        queues.push(place.queue())?;
    }
    Ok(())
}

/// Whether a ledger may have this number: where the queues of its writer stay shorter than what one receive takes.
pub fn is_number(k: u64) -> bool
    ensures number { result ≡ true ↔ IsNumber k }
    // Why 56 is the greatest: with 200 changes a commit, and 256 messages a receive.
    ensures short { IsNumber k ↔ ((1 ≤ k) × StaysShort k) }
{
    k >= 1 && k <= 56
}

impl Ledger {
    /// A ledger without notes. BadNumber exactly where `k` is not in 1 to 56.
    pub fn new(alloc: Global, role: Role, k: u64, client: ClientId) -> Result<Ledger, Refused>
        ensures ok { IfOk result (λ l. l ≡ record { role = role; k = k; client = client; counts = [] }) }
        ensures stands { IfOk result (λ l. StandsFor l []) }
        ensures number { IsOk result ↔ IsNumber k }
        ensures refused { IfErr result (λ e. e ≡ Refused.Rule Refusal.BadNumber) }
    {
        if !is_number(k) {
            return Err(Refused::Rule(Refusal::BadNumber));
        }
        Ok(Ledger {
            role,
            k,
            client,
            counts: BTreeMap::new(alloc),
        })
    }

    /// One note more. Refused where its queue is new and memory runs out, or where its count would pass the greatest u64, and then nothing
    /// changes.
    ///
    /// A note of an ATOMIC queue says nothing.
    pub fn note(&mut self, note: Note) -> Result<(), Refused>
        ensures stands { OnOk result ((notes : List Noted) → StandsFor self.old notes → StandsFor self.new (notes ++ note ∷ [])) }
        ensures rule { (self.new.role ≡ self.old.role) × (self.new.k ≡ self.old.k) × (self.new.client ≡ self.old.client) }
        ensures err { OnErr result (self.new ≡ self.old) }
        ensures memory { IfErr result (λ e. e ≡ Refused.Memory) }
        // A queue that is known is refused where its count is full alone.
        ensures cause { OnErr result (MayRefuse self.old note) }
    {
        let Some(place) = Place::of(note.queue()) else {
            return Ok(());
        };
        let before = self.counts.get(&place).copied().unwrap_or(Counts::none());
        let Some(counts) = before.after(note) else {
            return Err(Refused::Memory);
        };
        self.counts.insert(place, counts)?;
        Ok(())
    }

    /// The queues that its session is to checkpoint, in their order: pending update queues. Refused for memory alone.
    pub fn due(&self, alloc: Global) -> Result<Vec<QueueName>, Refused>
        ensures due { IfOk result (λ queues. (notes : List Noted) → StandsFor self.now notes
            → queues.items ≡ due self.now.role self.now.k self.now.client notes) }
        ensures pending { IfOk result (λ queues. All IsPending queues.items) }
        ensures memory { IfErr result (λ e. e ≡ Refused.Memory) }
    {
        match self.role {
            Role::Writer => self.picked(alloc),
            Role::Reader => self.picked(alloc),
            Role::Watchdog => self.least_kept(alloc),
            Role::Owner => self.picked(alloc),
        }
    }

    /// Whether a queue is due by what is known of it alone.
    fn picks(&self, place: &Place, counts: &Counts) -> bool
        ensures { result ≡ picks self.now.role self.now.k self.now.client place.now counts.now }
    {
        match self.role {
            Role::Writer => counts.sent >= self.k,
            Role::Reader => counts.got >= self.k,
            Role::Watchdog => false,
            Role::Owner => place.page % self.k == self.client.get() % self.k,
        }
    }

    fn picked(&self, alloc: Global) -> Result<Vec<QueueName>, Refused>
        ensures ok { IfOk result (λ queues. queues.items ≡ picked_from self.now) }
        ensures memory { IfErr result (λ e. e ≡ Refused.Memory) }
    {
        let mut queues = Vec::new(alloc);
        for (place, counts) in &self.counts {
            push_if(&mut queues, place, self.picks(place, counts))?;
        }
        Ok(queues)
    }

    fn least_kept(&self, alloc: Global) -> Result<Vec<QueueName>, Refused>
        ensures ok { IfOk result (λ queues. queues.items ≡ take self.now.k (map queue_at (ranked_from self.now.counts))) }
        ensures memory { IfErr result (λ e. e ≡ Refused.Memory) }
    {
        let ranks = self.ranks(alloc)?;
        let mut queues = Vec::new(alloc);
        for rank in &ranks {
            queues.push(rank.place().queue())?;
        }
        queues.truncate(self.k as usize);
        Ok(queues)
    }

    fn ranks(&self, alloc: Global) -> Result<BTreeSet<Rank>, Refused>
        ensures ok { IfOk result (λ ranks. ranks.keys ≡ ranks_from self.now.counts) }
        ensures memory { IfErr result (λ e. e ≡ Refused.Memory) }
    {
        let mut ranks = BTreeSet::new(alloc);
        for (place, counts) in &self.counts {
            ranks.insert(Rank {
                kept: counts.kept,
                tree: place.tree,
                page: place.page,
            })?;
        }
        Ok(ranks)
    }
}
