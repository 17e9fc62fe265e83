//! The checkpoints of a session's work.

ghost use Rattle.std.specs.Prelude.{◌≡◌, ◌+◌, ◌<◌};
ghost use Rattle.ckpt_policy.specs.Notes.{IsPending};
ghost use Rattle.session_facts.specs.Sessions.Knows.{IsRightOp};
ghost use Rattle.session_notes.specs.Notebook.{ChangesBook};
ghost use Rattle.world_core.specs.Handled.{as_one, book_begun, checkpoint_of};

use client_work::answer::Begun;
use client_work::op::Op;
use db_base::ids::SessionNo;
use db_base::names::QueueName;
use db_base::refusal::Refused;
use session_notes::notebooks::Notebooks;

/// The checkpoint of a pending update queue.
pub(crate) fn checkpoint_of(queue: QueueName) -> Op
    requires { IsPending queue }
    ensures is { result ≡ checkpoint_of queue }
    ensures right { IsRightOp (checkpoint_of queue) }
{
    match queue {
        QueueName::TreePu(tree) => Op::Tree(tree),
        QueueName::PagePu(tree, page) => Op::Page(tree, page),
        QueueName::Atomic(_) => unreachable!(),
    }
}

/// What is kept of an open session behind the begin of an operation.
pub(crate) fn begin_notes(notes: &mut Notebooks, number: SessionNo, op: &Op)
    ensures { ChangesBook number (λ a b. b ≡ book_begun op.now a) notes.old notes.new }
{
    match op {
        Op::Page(tree, page) => notes.begin(number, Some(QueueName::PagePu(*tree, *page))),
        Op::Tree(tree) => notes.begin(number, Some(QueueName::TreePu(*tree))),
        Op::Close => notes.clear(number),
        Op::Open(_) => notes.begin(number, None),
        Op::Renew => notes.begin(number, None),
        Op::Commit => notes.begin(number, None),
        Op::Read(_, _) => notes.begin(number, None),
        Op::Scan(_, _, _) => notes.begin(number, None),
        Op::Lookup(_, _) => notes.begin(number, None),
    }
}

/// Forgets what a begin came to.
pub(crate) fn forget(_begun: Result<Begun, Refused>) {}

/// A count that is below the most, and one more where there is one.
pub(crate) fn count_if(count: u64, most: u64, more: bool) -> u64
    requires { count < most }
    ensures { result ≡ count + as_one more }
{
    if more { count + 1 } else { count }
}
