use cloud_trait::turn::CkptAnswer;
use db_base::blob::Blob;
use db_base::refusal::Refusal;
use db_base::trouble::{CommitAnswer, Trouble};
use report_types::pair_list::PairList;
use report_types::report::Report;

/// What is answered to an event.
#[derive(Drop)]
pub enum Reply {
    /// An operation began and has a call in hand.
    Begun,
    /// A step was made and the operation goes on.
    Called,
    /// A change was noted.
    Noted,
    /// The buffer was dropped.
    Aborted,
    /// The session ended without an answer.
    Crashed,
    /// The clock went on.
    Waited,
    /// A rule refused the line.
    Refused(Refusal),
    /// The session is open in this epoch.
    Opened { epoch: u64 },
    /// The session is closed.
    Closed,
    /// The client's lease lasts until this moment, in ticks.
    Renewed { end: u64 },
    /// How a commit ended.
    Commit(CommitAnswer),
    /// What a checkpoint did.
    Done(CkptAnswer),
    /// The payload of the key.
    Value(Blob),
    /// The key has no record.
    NoValue,
    /// The records of a scan.
    Scan(PairList),
    /// The settling is done, after so many calls.
    Settled { calls: u64 },
    /// The sweep is done: so many of the listed pages were kept, and so many were removed.
    Swept { kept: u64, removed: u64 },
    /// The checkpoints of what was due are made: so many were done, and so many were passed over.
    Worked { done: u64, passed: u64 },
    /// Why the settling stopped.
    NotSettled(Trouble),
    /// Why an operation stopped.
    Trouble(Trouble),
    /// The report of a tree.
    Report(Report),
}
