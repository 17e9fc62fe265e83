ghost use Rattle.std.specs.Prelude.{◌≡◌};
ghost use Rattle.recover_run.specs.declared.home.Home.{Home as AnyHome};
ghost use Rattle.page_ckpt.specs.Stepped.{Stepped as StepsPage};
ghost use Rattle.client_work.specs.Causes.{PagingBy};
ghost use Rattle.client_work.specs.Left.{behind_page};
ghost use Rattle.client_work.specs.Session.{StepsPaging, behind_paging};

use crate::answer::Answer;
use crate::left::{Left, Rest};
use crate::work::{drop_paging, stopped};
use cloud_trait::cloud::Cloud;
use cloud_trait::turn::Turn;
use cloud_trait::who::Who;
use page_ckpt::PageCkpt;
use recover_run::home::Home;
use std::alloc::Global;

/// Makes the call in hand of a page checkpoint where it stands, beside any open client.
#[inline(never)]
pub(crate) fn page<C: Cloud>(
    alloc: Global,
    cloud: &mut C,
    who: Who,
    machine: &mut PageCkpt,
) -> Turn<Answer>
    ensures steps { (home : AnyHome) → StepsPaging who (C.seen cloud.old) (C.seen cloud.new)
        (home, machine.old) (behind_paging home machine.new result) result }
    ensures machine { (home : AnyHome) → PagingBy home
        (StepsPage who (C.seen cloud.old) (C.seen cloud.new) machine.old)
        (behind_paging home machine.new result) result }
{
    match machine.step(alloc, cloud, who) {
        Turn::More => Turn::More,
        Turn::Ended(answer) => Turn::Ended(Answer::Done(answer)),
        Turn::Stopped(trouble) => Turn::Ended(Answer::Trouble(trouble)),
    }
}

/// What a page checkpoint leaves in hand whose newest step came to this.
pub(crate) fn left_by_page(
    home: Home,
    machine: PageCkpt,
    turn: &Turn<Answer>,
) -> Left<(Home, PageCkpt)>
    ensures { behind_page result ≡ behind_paging home machine turn.now }
{
    match turn {
        Turn::Ended(Answer::Done(_)) => {
            drop_paging(machine);
            Left::Rests(Rest::Idle(home))
        }
        Turn::Ended(Answer::Trouble(trouble)) => {
            drop_paging(machine);
            Left::Rests(stopped(trouble, home))
        }
        _ => Left::Goes((home, machine)),
    }
}
