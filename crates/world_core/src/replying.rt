//! The reply of a line.

ghost use Rattle.std.specs.Prelude.{◌≡◌};
ghost use Rattle.client_work.specs.Session.{items_of, value_of};
ghost use Rattle.world_core.specs.Handled.{is_done};
ghost use Rattle.world_core.specs.Replying.{commit_reply, declined, done_reply, told, trouble_reply, unsettled_reply, IsOfSettling, IsOfSweeping, ShowsItems, ShowsValue, RepliesTo, RepliesBegun, RepliesSettled, RepliesSwept, RepliesTurn};

use crate::world::WorldFault;
use client_work::answer::{Answer, Begun};
use client_work::calls::SessionCalls;
use cloud_trait::turn::Turn;
use db_base::blob::Blob;
use db_base::refusal::Refused;
use db_base::trouble::{CommitAnswer, Trouble};
use reply_text::reply::Reply;
use std::alloc::Global;

/// The answer to a line that is not done.
pub(crate) fn declined(why: Refused) -> Result<Reply, WorldFault>
    ensures { result ≡ declined why }
{
    match why {
        Refused::Rule(rule) => Ok(Reply::Refused(rule)),
        Refused::Memory => Err(WorldFault::Memory),
    }
}

/// Whether a step is the last of a checkpoint that was done.
pub(crate) fn is_done(turn: &Turn<Answer>) -> bool
    ensures { result ≡ is_done turn.now }
{
    match turn {
        Turn::Ended(Answer::Done(_)) => true,
        Turn::Ended(Answer::Opened { .. }) => false,
        Turn::Ended(Answer::Closed) => false,
        Turn::Ended(Answer::Renewed { .. }) => false,
        Turn::Ended(Answer::Commit(_)) => false,
        Turn::Ended(Answer::Value) => false,
        Turn::Ended(Answer::Scan) => false,
        Turn::Ended(Answer::Settled(_)) => false,
        Turn::Ended(Answer::Swept(_)) => false,
        Turn::Ended(Answer::Trouble(_)) => false,
        Turn::More => false,
        Turn::Stopped(_) => false,
    }
}

/// The reply to the begin of an operation of the session.
pub(crate) fn begun_reply<S: SessionCalls>(
    alloc: Global,
    session: &S,
    begun: Result<Begun, Refused>,
) -> Result<Reply, WorldFault>
    ensures { RepliesBegun begun (S.acting session.now) result }
{
    match begun {
        Ok(Begun::Working) => Ok(Reply::Begun),
        Ok(Begun::Answered(answer)) => reply_of(alloc, session, answer),
        Err(why) => declined(why),
    }
}

/// The reply to what was done, where it was.
pub(crate) fn done(reply: Reply, done: Result<(), Refused>) -> Result<Reply, WorldFault>
    ensures { result ≡ done_reply reply done }
{
    match done {
        Ok(()) => Ok(reply),
        Err(why) => declined(why),
    }
}

/// The reply to a step of the session.
pub(crate) fn turn_reply<S: SessionCalls>(
    alloc: Global,
    session: &S,
    turn: Turn<Answer>,
) -> Result<Reply, WorldFault>
    ensures { RepliesTurn turn (S.acting session.now) result }
{
    match turn {
        Turn::More => Ok(Reply::Called),
        Turn::Ended(answer) => reply_of(alloc, session, answer),
        Turn::Stopped(trouble) => trouble_reply(trouble),
    }
}

/// The reply to the answer of an operation of the session.
pub(crate) fn reply_of<S: SessionCalls>(
    alloc: Global,
    session: &S,
    answer: Answer,
) -> Result<Reply, WorldFault>
    ensures { RepliesTo answer (S.acting session.now) result }
{
    match answer {
        Answer::Opened { epoch } => Ok(Reply::Opened { epoch }),
        Answer::Closed => Ok(Reply::Closed),
        Answer::Renewed { end } => Ok(Reply::Renewed { end }),
        Answer::Done(answer) => Ok(Reply::Done(answer)),
        Answer::Commit(answer) => commit_reply(answer),
        Answer::Value => value_reply(alloc, session),
        Answer::Scan => scan_reply(alloc, session),
        Answer::Settled(settled) => Ok(Reply::Settled {
            calls: settled.calls,
        }),
        Answer::Swept(swept) => Ok(Reply::Swept {
            kept: swept.kept,
            removed: swept.removed,
        }),
        Answer::Trouble(trouble) => trouble_reply(trouble),
    }
}

/// The reply that shows what the session read.
fn value_reply<S: SessionCalls>(alloc: Global, session: &S) -> Result<Reply, WorldFault>
    ensures { ShowsValue (value_of (S.acting session.now)) result }
{
    match session.value() {
        Some(value) => match Blob::copy_of(alloc, value.payload()) {
            Ok(payload) => Ok(Reply::Value(payload)),
            Err(_) => Err(WorldFault::Memory),
        },
        None => Ok(Reply::NoValue),
    }
}

/// The reply that shows what the session listed.
fn scan_reply<S: SessionCalls>(alloc: Global, session: &S) -> Result<Reply, WorldFault>
    ensures { ShowsItems (items_of (S.acting session.now)) result }
{
    match session.items().to_list(alloc) {
        Ok(pairs) => Ok(Reply::Scan(pairs)),
        Err(_) => Err(WorldFault::Memory),
    }
}

/// The reply to how a commit ended; want of memory has none.
fn commit_reply(answer: CommitAnswer) -> Result<Reply, WorldFault>
    ensures { result ≡ commit_reply answer }
{
    match answer {
        CommitAnswer::Committed { txn } => Ok(Reply::Commit(CommitAnswer::Committed { txn })),
        CommitAnswer::NotCommitted(trouble) => match told(trouble) {
            Ok(trouble) => Ok(Reply::Commit(CommitAnswer::NotCommitted(trouble))),
            Err(fault) => Err(fault),
        },
        CommitAnswer::InDoubt => Ok(Reply::Commit(CommitAnswer::InDoubt)),
        CommitAnswer::CommittedOpen(trouble) => match told(trouble) {
            Ok(trouble) => Ok(Reply::Commit(CommitAnswer::CommittedOpen(trouble))),
            Err(fault) => Err(fault),
        },
    }
}

/// The reply to the answer of a settling.
pub(crate) fn settled_reply(answer: Answer) -> Result<Reply, WorldFault>
    requires { IsOfSettling answer }
    ensures { RepliesSettled answer result }
{
    match answer {
        Answer::Settled(settled) => Ok(Reply::Settled {
            calls: settled.calls,
        }),
        Answer::Trouble(trouble) => unsettled_reply(trouble),
        _ => unreachable!(),
    }
}

/// The reply to the answer of a sweep.
pub(crate) fn swept_reply(answer: Answer) -> Result<Reply, WorldFault>
    requires { IsOfSweeping answer }
    ensures { RepliesSwept answer result }
{
    match answer {
        Answer::Swept(swept) => Ok(Reply::Swept {
            kept: swept.kept,
            removed: swept.removed,
        }),
        Answer::Trouble(trouble) => trouble_reply(trouble),
        _ => unreachable!(),
    }
}

/// The reply to a trouble; want of memory has none.
pub(crate) fn trouble_reply(trouble: Trouble) -> Result<Reply, WorldFault>
    ensures { result ≡ trouble_reply trouble }
{
    match told(trouble) {
        Ok(trouble) => Ok(Reply::Trouble(trouble)),
        Err(fault) => Err(fault),
    }
}

/// The reply to a trouble that stopped a settling; want of memory has none.
fn unsettled_reply(trouble: Trouble) -> Result<Reply, WorldFault>
    ensures { result ≡ unsettled_reply trouble }
{
    match told(trouble) {
        Ok(trouble) => Ok(Reply::NotSettled(trouble)),
        Err(fault) => Err(fault),
    }
}

/// The trouble, where a reply can tell it: want of memory is a fault.
pub(crate) fn told(trouble: Trouble) -> Result<Trouble, WorldFault>
    ensures { result ≡ told trouble }
{
    match trouble {
        Trouble::Memory => Err(WorldFault::Memory),
        trouble => Ok(trouble),
    }
}
