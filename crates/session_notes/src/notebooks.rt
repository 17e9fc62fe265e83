//! What is kept of all sessions.

ghost use Rattle.std.specs.Prelude.{◌≡◌, ◌<◌};

use crate::notebook::Notebook;
use ckpt_policy::{Ledger, Note};
use db_base::ids::SessionNo;
use db_base::names::QueueName;
use db_base::refusal::Refused;
use std::alloc::Global;
use std::marker::Model;

/// The notebooks of the sessions of a replay, by their numbers.
pub struct Notebooks {
    list: Vec<Notebook>,
}

// Written out, so that what holds notebooks need not look into them to let them go.
impl Drop for Notebooks {
    fn drop(self) {
        let Notebooks { list: _ } = self;
    }
}

impl Model for Notebooks {
    ghost use Rattle.std.specs.Prelude.{List, ◌≡◌, length};
    ghost use Rattle.session_notes.specs.declared.notebook.Notebook.{Notebook as Book};

    ghost Value = { List Book };

    ghost view = { λ n. n.list.items };

    ghost invariant = { λ n. length n.list.items ≡ 17 };
}

impl Notebooks {
    ghost use Rattle.std.specs.Prelude.{replicate, All, IfOk, IfErr, OnOk, OnErr, Some, None, true};
    ghost use Rattle.ckpt_policy.specs.Notes.{IsPending};
    ghost use Rattle.session_notes.specs.Notebook.{blank, ChangesBook, GoesOnBy, GoesOnEnded, IsDueAt};

    /// Blank ones. Refused for memory alone.
    #[tactic(auto, using(crate::proofs::Blank::one_more, crate::proofs::Blank::seventeen))]
    pub fn new(alloc: Global) -> Result<Notebooks, Refused>
        ensures ok { IfOk result (λ n. n ≡ replicate 17 blank) }
        ensures memory { IfErr result (λ e. e ≡ Refused.Memory) }
    {
        let mut list = Vec::new(alloc);
        for _count in 0..17u64 {
            list.push(Notebook::blank())?;
        }
        Ok(Notebooks { list })
    }

    /// The session of a number has this ledger from now on.
    pub fn give(&mut self, number: SessionNo, ledger: Ledger)
        ensures { ChangesBook number (λ a b. b ≡ record a { ledger = Some ledger }) self.old self.new }
    {
        self.list[place_of(number)].ledger = Some(ledger);
    }

    /// The session of a number has no ledger any more, nor a checkpoint in hand.
    pub fn clear(&mut self, number: SessionNo)
        ensures { ChangesBook number (λ a b. b ≡ blank) self.old self.new }
    {
        self.list[place_of(number)] = Notebook::blank();
    }

    /// The session of a number began an operation: the checkpoint of this queue, or another.
    pub fn begin(&mut self, number: SessionNo, queue: Option<QueueName>)
        ensures { ChangesBook number (λ a b. b ≡ record a { queue = queue }) self.old self.new }
    {
        self.list[place_of(number)].queue = queue;
    }

    /// A note more of the session of a number, where there is one. Refused for memory alone, and then nothing changes.
    pub fn take(&mut self, number: SessionNo, note: Option<Note>) -> Result<(), Refused>
        ensures ok { OnOk result (ChangesBook number (GoesOnBy note) self.old self.new) }
        ensures err { OnErr result (self.new ≡ self.old) }
        ensures memory { IfErr result (λ e. e ≡ Refused.Memory) }
    {
        self.list[place_of(number)].take(note)
    }

    /// What the session of a number had in hand came to its end; done where that is a checkpoint that was done. Refused for memory
    /// alone, and then nothing changes.
    pub fn end(&mut self, number: SessionNo, done: bool) -> Result<(), Refused>
        ensures ok { OnOk result (ChangesBook number (GoesOnEnded done) self.old self.new) }
        ensures err { OnErr result (self.new ≡ self.old) }
        ensures done { OnErr result (done ≡ true) }
        ensures memory { IfErr result (λ e. e ≡ Refused.Memory) }
    {
        self.list[place_of(number)].end(done)
    }

    /// The queues that are due to the session of a number. Refused for memory alone.
    pub fn due(&self, alloc: Global, number: SessionNo) -> Result<Vec<QueueName>, Refused>
        ensures due { IfOk result (λ queues. IsDueAt number self.now queues.items) }
        ensures pending { IfOk result (λ queues. All IsPending queues.items) }
        ensures memory { IfErr result (λ e. e ≡ Refused.Memory) }
    {
        self.list[place_of(number)].due(alloc)
    }
}

/// The place of the session of a number.
fn place_of(number: SessionNo) -> usize
    ensures is { result ≡ number }
    ensures within { result < 17 }
{
    number.get() as usize
}
