ghost use Rattle.std.specs.Prelude.{◌≡◌};
ghost use Rattle.recover_run.specs.declared.home.Home.{Home as AnyHome};
ghost use Rattle.tree_ckpt.specs.Stepped.{Stepped as StepsMaking};
ghost use Rattle.client_work.specs.Causes.{FoldingBy};
ghost use Rattle.client_work.specs.Left.{behind_tree};
ghost use Rattle.client_work.specs.Session.{StepsFolding, behind_fold};

use crate::answer::Answer;
use crate::left::{Left, Rest};
use crate::work::stopped;
use cloud_trait::cloud::Cloud;
use cloud_trait::turn::Turn;
use cloud_trait::who::Who;
use recover_run::home::Home;
use std::alloc::Global;
use tree_ckpt::TreeCkpt;

/// Makes the call in hand of a tree checkpoint where it stands, beside any open client.
#[inline(never)]
pub(crate) fn fold<C: Cloud>(
    alloc: Global,
    cloud: &mut C,
    who: Who,
    machine: &mut TreeCkpt,
) -> Turn<Answer>
    ensures steps { (home : AnyHome) → StepsFolding who (C.seen cloud.old) (C.seen cloud.new)
        (home, machine.old) (behind_fold home machine.new result) result }
    ensures machine { (home : AnyHome) → FoldingBy home
        (StepsMaking who (C.seen cloud.old) (C.seen cloud.new) machine.old)
        (behind_fold home machine.new result) result }
{
    match machine.step(alloc, cloud, who) {
        Turn::More => Turn::More,
        Turn::Ended(answer) => Turn::Ended(Answer::Done(answer)),
        Turn::Stopped(trouble) => Turn::Ended(Answer::Trouble(trouble)),
    }
}

/// What a tree checkpoint leaves in hand whose newest step came to this.
pub(crate) fn left_by_fold(
    home: Home,
    machine: TreeCkpt,
    turn: &Turn<Answer>,
) -> Left<(Home, TreeCkpt)>
    ensures { behind_tree result ≡ behind_fold home machine turn.now }
{
    match turn {
        Turn::Ended(Answer::Done(_)) => Left::Rests(Rest::Idle(home)),
        Turn::Ended(Answer::Trouble(trouble)) => Left::Rests(stopped(trouble, home)),
        _ => Left::Goes((home, machine)),
    }
}
