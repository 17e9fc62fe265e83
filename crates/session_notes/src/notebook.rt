//! What is kept of one session.

ghost use Rattle.std.specs.Prelude.{◌≡◌, All, List, Some, None, true, OnOk, OnErr, IfOk, IfErr};
ghost use Rattle.ckpt_policy.specs.declared.note.Note.{Note as Noted};
ghost use Rattle.ckpt_policy.specs.Notes.{IsPending};
ghost use Rattle.session_notes.specs.Notebook.{blank, GoesOnBy, GoesOnEnded, GoesOnKept, IsDue};

use ckpt_policy::{Ledger, Note};
use db_base::names::QueueName;
use db_base::refusal::Refused;
use std::alloc::Global;

/// What is kept of a session: its ledger, where a line gave it one, and the queue of the checkpoint that it began last.
pub struct Notebook {
    /// Its ledger.
    pub ledger: Option<Ledger>,
    /// The queue whose checkpoint it has in hand, where it has one.
    pub queue: Option<QueueName>,
}

impl Drop for Notebook {
    fn drop(self) {
        let Notebook {
            ledger: _,
            queue: _,
        } = self;
    }
}

impl Notebook {
    /// That of a session without a ledger.
    pub fn blank() -> Notebook
        ensures { result ≡ blank }
    {
        Notebook {
            ledger: None,
            queue: None,
        }
    }

    /// One note more, where the session has a ledger. Refused for memory alone, and then nothing changes.
    pub fn note(&mut self, note: Note) -> Result<(), Refused>
        ensures ok { OnOk result (GoesOnBy (Some note) self.old self.new) }
        ensures err { OnErr result (self.new ≡ self.old) }
        ensures memory { IfErr result (λ e. e ≡ Refused.Memory) }
    {
        match &mut self.ledger {
            Some(ledger) => ledger.note(note),
            None => Ok(()),
        }
    }

    /// The checkpoint in hand was done. Refused for memory alone, and then nothing changes.
    pub fn keep(&mut self) -> Result<(), Refused>
        ensures ok { OnOk result (GoesOnKept self.old self.new) }
        ensures err { OnErr result (self.new ≡ self.old) }
        ensures memory { IfErr result (λ e. e ≡ Refused.Memory) }
    {
        match self.queue {
            Some(queue) => self.note(Note::Kept(queue)),
            None => Ok(()),
        }
    }

    /// A note more, where there is one. Refused for memory alone, and then nothing changes.
    pub fn take(&mut self, note: Option<Note>) -> Result<(), Refused>
        ensures ok { OnOk result (GoesOnBy note self.old self.new) }
        ensures err { OnErr result (self.new ≡ self.old) }
        ensures some { OnErr result (note ≡ None → ⊥) }
        ensures memory { IfErr result (λ e. e ≡ Refused.Memory) }
    {
        match note {
            Some(note) => self.note(note),
            None => Ok(()),
        }
    }

    /// What the session had in hand came to its end; done where that is a checkpoint that was done. Refused for memory alone, and
    /// then nothing changes.
    pub fn end(&mut self, done: bool) -> Result<(), Refused>
        ensures ok { OnOk result (GoesOnEnded done self.old self.new) }
        ensures err { OnErr result (self.new ≡ self.old) }
        ensures done { OnErr result (done ≡ true) }
        ensures memory { IfErr result (λ e. e ≡ Refused.Memory) }
    {
        if done { self.keep() } else { self.take(None) }
    }

    /// The queues that are due, pending update queues: none without a ledger. Refused for memory alone.
    pub fn due(&self, alloc: Global) -> Result<Vec<QueueName>, Refused>
        ensures due { IfOk result (λ queues. IsDue self.now queues.items) }
        ensures pending { IfOk result (λ queues. All IsPending queues.items) }
        ensures memory { IfErr result (λ e. e ≡ Refused.Memory) }
    {
        match &self.ledger {
            Some(ledger) => ledger.due(alloc),
            None => Ok(Vec::new(alloc)),
        }
    }
}
