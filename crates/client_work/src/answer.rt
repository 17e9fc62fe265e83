ghost use Rattle.std.specs.Prelude.{◌≡◌};

use cloud_trait::turn::{CkptAnswer, Turn};
use db_base::trouble::{CommitAnswer, Trouble};
use orphan_sweep::Swept;
use settle_run::Settled;

/// What the begin of an operation answers.
#[derive(Drop)]
pub enum Begun {
    /// The operation has a call in hand.
    Working,
    /// It is answered at once, without a call.
    Answered(Answer),
}

/// What an operation answers.
#[derive(Drop)]
pub enum Answer {
    /// The client is open in this epoch.
    Opened { epoch: u64 },
    /// The client is closed, and its lease given back.
    Closed,
    /// The client's lease lasts until this moment, in ticks.
    Renewed { end: u64 },
    /// How a commit ended.
    Commit(CommitAnswer),
    /// What a checkpoint did.
    Done(CkptAnswer),
    /// A read found its leaf: the session shows the value.
    Value,
    /// A scan or a look-up came to its end: the session shows the records.
    Scan,
    /// A settling came to its end.
    Settled(Settled),
    /// A sweep came to its end.
    Swept(Swept),
    /// Why the operation stopped.
    Trouble(Trouble),
}

/// The turn itself. Looked at as it is handed on: nearly each one goes on, and then the room of an answer is not copied.
#[inline]
pub fn handed(turn: Turn<Answer>) -> Turn<Answer>
    ensures { result ≡ turn }
{
    match turn {
        Turn::More => Turn::More,
        Turn::Ended(answer) => Turn::Ended(answer),
        Turn::Stopped(trouble) => Turn::Stopped(trouble),
    }
}
