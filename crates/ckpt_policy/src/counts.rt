//! What the notes say of one queue.

ghost use Rattle.std.specs.Prelude.{◌≡◌, ◌+◌, IfSome, IfNone, MatchOption};
ghost use Rattle.ckpt_policy.specs.Counting.{after_note, no_counts, IsFull};

use crate::note::Note;

/// Counts of notes of one queue.
#[derive(Clone, Copy, Debug, PartialEq, Eq)]
pub struct Counts {
    /// How many checkpoints of it were done.
    pub kept: u64,
    /// How many messages were sent to it since the last of these.
    pub sent: u64,
    /// How many times its page was got since then.
    pub got: u64,
}

impl Counts {
    /// Those of a queue that no note names.
    pub fn none() -> Counts
        ensures { result ≡ no_counts }
    {
        Counts {
            kept: 0,
            sent: 0,
            got: 0,
        }
    }

    /// With one note of the queue more; `None` where its count would pass the greatest u64.
    pub fn after(self, note: Note) -> Option<Counts>
        ensures some { IfSome result (λ c. c ≡ after_note self note) }
        ensures full { IfNone result (IsFull self note) }
    {
        match note {
            Note::Sent(_) => Some(Counts {
                sent: self.sent.checked_add(1)?,
                ..self
            }),
            Note::Got(_) => Some(Counts {
                got: self.got.checked_add(1)?,
                ..self
            }),
            Note::Kept(_) => Some(Counts {
                kept: self.kept.checked_add(1)?,
                ..Counts::none()
            }),
        }
    }
}
