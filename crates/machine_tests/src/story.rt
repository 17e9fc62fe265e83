//! What machines did, as a text: a line for each call, and one for each answer.

use cloud_trait::call::{Call, CallKind};
use cloud_trait::turn::{CkptAnswer, Turn};
use db_base::trouble::{CommitAnswer, Trouble};
use orphan_sweep::Swept;
use recover_run::stage::RecoverAnswer;
use reply_text::call_text;
use reply_text::write::trouble_text;
use settle_run::Settled;
use std::alloc::Global;
use std::test::Fail;

#[derive(Drop)]
pub(crate) struct Story {
    alloc: Global,
    text: String,
    is_brief: bool,
    is_deleting: bool,
}

impl Story {
    /// A story that tells of each call.
    pub(crate) fn new(alloc: Global) -> Story {
        Story {
            alloc,
            text: String::new(alloc),
            is_brief: false,
            is_deleting: false,
        }
    }

    /// A story that tells of a run of deletions the first alone.
    pub(crate) fn brief(alloc: Global) -> Story {
        Story {
            alloc,
            text: String::new(alloc),
            is_brief: true,
            is_deleting: false,
        }
    }

    /// Whether this was to be told.
    pub(crate) fn is(&self, wanted: &str) -> Result<(), Fail> {
        if self.text.as_str() == wanted {
            Ok(())
        } else {
            Err(Fail::from("another story"))
        }
    }

    /// Whether it was to end so.
    pub(crate) fn ends(&self, wanted: &str) -> Result<(), Fail> {
        if self.text.as_str().ends_with(wanted) {
            Ok(())
        } else {
            Err(Fail::from("another end"))
        }
    }

    /// Adds a line.
    fn line(&mut self, text: &str) -> Result<(), Fail> {
        self.text.push_str(text)?;
        self.text.push_str("\n")?;
        Ok(())
    }

    /// Adds a word and a number.
    fn number(&mut self, word: &str, number: u64) -> Result<(), Fail> {
        let text = format!(in self.alloc; "{word} {number}")?;
        self.line(text.as_str())
    }

    /// Adds a call.
    pub(crate) fn call(&mut self, call: &Call<'_>) -> Result<(), Fail> {
        let deletes = call.kind() == CallKind::Delete;
        let goes_on = self.is_brief && self.is_deleting && deletes;
        self.is_deleting = deletes;
        if goes_on {
            return Ok(());
        }
        let text = call_text(self.alloc, call)?;
        self.line(text.as_str())
    }

    /// Adds a trouble.
    fn trouble(&mut self, trouble: &Trouble) -> Result<(), Fail> {
        let text = trouble_text(self.alloc, trouble).ok().ok_or("no text")?;
        self.line(text.as_str())
    }

    /// Adds a kind of answer with its trouble.
    fn kind(&mut self, kind: &str, trouble: &Trouble) -> Result<(), Fail> {
        self.text.push_str(kind)?;
        self.text.push_str(" ")?;
        self.trouble(trouble)
    }

    /// Adds the answer of a checkpoint; true where there is one.
    pub(crate) fn checkpoint(&mut self, turn: &Turn<CkptAnswer>) -> Result<bool, Fail> {
        match turn {
            Turn::More => return Ok(false),
            Turn::Ended(answer) => self.done(*answer)?,
            Turn::Stopped(trouble) => self.trouble(trouble)?,
        }
        Ok(true)
    }

    /// Adds the counts of a checkpoint's end.
    fn done(&mut self, answer: CkptAnswer) -> Result<(), Fail> {
        let (applied, deleted, left) = (answer.applied, answer.deleted, answer.left);
        let text = format!(in self.alloc; "done {applied} {deleted} {left}")?;
        self.line(text.as_str())
    }

    /// Adds the answer of a recovery; true where there is one.
    pub(crate) fn recovery(&mut self, turn: &Turn<RecoverAnswer>) -> Result<bool, Fail> {
        match turn {
            Turn::More => return Ok(false),
            Turn::Ended(RecoverAnswer::Opened { epoch }) => self.number("opened", *epoch)?,
            Turn::Ended(RecoverAnswer::Nothing) => self.line("nothing")?,
            Turn::Stopped(trouble) => self.trouble(trouble)?,
        }
        Ok(true)
    }

    /// Adds the answer of a settling; true where there is one.
    pub(crate) fn settled(&mut self, turn: &Turn<Settled>) -> Result<bool, Fail> {
        match turn {
            Turn::More => return Ok(false),
            Turn::Ended(settled) => self.number("settled", settled.calls)?,
            Turn::Stopped(trouble) => self.trouble(trouble)?,
        }
        Ok(true)
    }

    /// Adds the answer of a sweep; true where there is one.
    pub(crate) fn swept(&mut self, turn: &Turn<Swept>) -> Result<bool, Fail> {
        match turn {
            Turn::More => return Ok(false),
            Turn::Ended(swept) => self.kept(*swept)?,
            Turn::Stopped(trouble) => self.trouble(trouble)?,
        }
        Ok(true)
    }

    /// Adds the counts of a sweep's end.
    fn kept(&mut self, swept: Swept) -> Result<(), Fail> {
        let (kept, removed) = (swept.kept, swept.removed);
        let text = format!(in self.alloc; "swept {kept} {removed}")?;
        self.line(text.as_str())
    }

    /// Adds the answer of a commit; true where there is one.
    pub(crate) fn commit(&mut self, turn: &Turn<CommitAnswer>) -> Result<bool, Fail> {
        match turn {
            Turn::More => Ok(false),
            Turn::Ended(answer) => {
                self.committed(answer)?;
                Ok(true)
            }
            Turn::Stopped(_) => Err(Fail::from("stopped")),
        }
    }

    fn committed(&mut self, answer: &CommitAnswer) -> Result<(), Fail> {
        match answer {
            CommitAnswer::Committed { txn } => self.number("committed", *txn),
            CommitAnswer::NotCommitted(trouble) => self.kind("not-committed", trouble),
            CommitAnswer::InDoubt => self.line("in-doubt"),
            CommitAnswer::CommittedOpen(trouble) => self.kind("committed-open", trouble),
        }
    }

    /// Adds a pending entry: its page, 0 for the tree, with its number in the queue there.
    pub(crate) fn pending(&mut self, page: u64, number: u64) -> Result<(), Fail> {
        let text = format!(in self.alloc; "{page}#{number}")?;
        self.line(text.as_str())
    }
}
