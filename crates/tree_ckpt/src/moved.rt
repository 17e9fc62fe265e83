//! What a step comes to.

ghost use Rattle.std.specs.Prelude.{◌≡◌, Err};
ghost use Rattle.tree_ckpt.specs.Moves.{turn_of};

use crate::work::Work;
use ckpt_parts::Leases;
use cloud_trait::turn::{CkptAnswer, Turn};
use db_base::trouble::Trouble;

/// Where a checkpoint stands behind a call, and what its step answers.
#[derive(Drop)]
pub struct Moved {
    /// Where it stands.
    pub work: Work,
    /// What the step answers.
    pub turn: Turn<CkptAnswer>,
}

impl Moved {
    /// There is a next call.
    pub fn goes(work: Work) -> Moved
        ensures { result ≡ record { work = work; turn = Turn.More } }
    {
        Moved {
            work,
            turn: Turn::More,
        }
    }

    /// The leases are given back, the newest first, and then the checkpoint stops.
    pub fn stops(held: Leases, trouble: Trouble) -> Moved
        ensures { result ≡ record { work = Work.Releasing held (Err trouble); turn = Turn.More } }
    {
        Moved::goes(Work::Releasing(held, Err(trouble)))
    }

    /// Memory ran out. The leases are kept.
    pub fn no_memory(held: Leases) -> Moved
        ensures { result ≡ record { work = Work.Releasing held (Err Trouble.Memory); turn = Turn.Stopped Trouble.Memory } }
    {
        Moved {
            work: Work::Releasing(held, Err(Trouble::Memory)),
            turn: Turn::Stopped(Trouble::Memory),
        }
    }

    /// No lease is held any more.
    pub fn finished(end: Result<CkptAnswer, Trouble>) -> Moved
        ensures { result ≡ record { work = Work.Finished; turn = turn_of end } }
    {
        match end {
            Ok(answer) => Moved {
                work: Work::Finished,
                turn: Turn::Ended(answer),
            },
            Err(trouble) => Moved {
                work: Work::Finished,
                turn: Turn::Stopped(trouble),
            },
        }
    }
}
