ghost use Rattle.std.specs.Prelude.{◌≡◌, ◌≤◌, length};
ghost use Rattle.commit_run.specs.Run.{home_of as home_of_run};
ghost use Rattle.commit_run.specs.Sound.{IsSoundRun};
ghost use Rattle.commit_run.specs.Stepped.{Stepped as StepsRun};
ghost use Rattle.client_work.specs.declared.work.Work.TheVariants as work;
ghost use Rattle.client_work.specs.Causes.{CommitBy};
ghost use Rattle.client_work.specs.Left.{at_rest, behind_commit};
ghost use Rattle.client_work.specs.Session.{CommitsNoted, StepsCommit, behind_step, committed_work};

use crate::answer::{Answer, Begun};
use crate::left::{Left, Rest};
use cloud_trait::cloud::Cloud;
use cloud_trait::turn::Turn;
use cloud_trait::who::Who;
use commit_run::CommitRun;
use db_base::trouble::CommitAnswer;
use page_cache::PageCache;
use recover_run::home::Home;
use std::alloc::Global;
use txn_buffer::buffer::TxnBuffer;

/// Begins the commit of what a home's session noted: what is in hand then. That of nothing is answered at once.
#[inline(never)]
pub(crate) fn commit_noted(
    alloc: Global,
    home: Home,
    changes: TxnBuffer,
    cache: &mut PageCache,
) -> (Left<CommitRun>, Begun)
    ensures { CommitsNoted home changes cache.old cache.new (behind_commit result.0) result.1 }
{
    if changes.is_empty() {
        let answer = CommitAnswer::Committed { txn: 0 };
        return (
            Left::Rests(Rest::Idle(home)),
            Begun::Answered(Answer::Commit(answer)),
        );
    }
    commit_of(alloc, home, changes, cache)
}

/// Begins the commit of changes by a home: what is in hand then.
fn commit_of(
    alloc: Global,
    home: Home,
    changes: TxnBuffer,
    cache: &mut PageCache,
) -> (Left<CommitRun>, Begun)
    requires { 1 ≤ length changes }
    ensures { CommitsNoted home changes cache.old cache.new (behind_commit result.0) result.1 }
{
    let mut commit = CommitRun::new(alloc, home, changes);
    match commit.ready(alloc, cache) {
        Turn::More => (Left::Goes(commit), Begun::Working),
        Turn::Ended(answer) => (
            Left::Rests(Rest::Idle(commit.finish())),
            Begun::Answered(Answer::Commit(answer)),
        ),
        Turn::Stopped(trouble) => (
            Left::Rests(broken(commit)),
            Begun::Answered(Answer::Trouble(trouble)),
        ),
    }
}

/// Makes the call in hand of a commit where it stands, beside the cache.
#[inline(never)]
pub(crate) fn advance<C: Cloud>(
    alloc: Global,
    cloud: &mut C,
    who: Who,
    machine: &mut CommitRun,
    cache: &mut PageCache,
) -> Turn<Answer>
    ensures sound { IsSoundRun machine.old }
    ensures steps { StepsCommit who (C.seen cloud.old) (C.seen cloud.new)
        (machine.old, cache.old) (behind_step machine.new result, cache.new) result }
    ensures machine { CommitBy
        (λ n. StepsRun who (C.seen cloud.old) (C.seen cloud.new) (machine.old, cache.old) (n, cache.new))
        (behind_step machine.new result) result }
{
    match machine.step(alloc, cloud, who, cache) {
        Turn::More => Turn::More,
        Turn::Ended(answer) => Turn::Ended(Answer::Commit(answer)),
        Turn::Stopped(trouble) => Turn::Ended(Answer::Trouble(trouble)),
    }
}

/// What a commit leaves in hand whose newest step came to this.
pub(crate) fn left_by(machine: CommitRun, turn: &Turn<Answer>) -> Left<CommitRun>
    ensures { behind_commit result ≡ behind_step machine turn.now }
{
    match turn {
        Turn::Ended(Answer::Commit(answer)) => Left::Rests(committed(answer, machine)),
        Turn::Ended(Answer::Trouble(_)) => Left::Rests(broken(machine)),
        _ => Left::Goes(machine),
    }
}

/// A client after its commit: in doubt where it is not known whether the commit or all of its records landed.
fn committed(answer: &CommitAnswer, machine: CommitRun) -> Rest
    ensures { at_rest result ≡ committed_work answer.now (home_of_run machine) }
{
    match answer {
        CommitAnswer::InDoubt => broken(machine),
        CommitAnswer::CommittedOpen(_) => broken(machine),
        CommitAnswer::Committed { .. } => Rest::Idle(machine.finish()),
        CommitAnswer::NotCommitted(_) => Rest::Idle(machine.finish()),
    }
}

/// A client in doubt: its lease alone is left.
pub(crate) fn broken(machine: CommitRun) -> Rest
    ensures { at_rest result ≡ work.Broken (home_of_run machine).lease }
{
    Rest::Broken(machine.finish().into_lease())
}
