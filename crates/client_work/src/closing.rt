ghost use Rattle.client_work.specs.declared.work.Work.TheVariants as work;
ghost use Rattle.client_work.specs.Session.{StepsClosing};

use crate::answer::Answer;
use cloud_trait::cloud::Cloud;
use cloud_trait::lease::Lease;
use cloud_trait::perform::let_go;
use cloud_trait::turn::Turn;
use cloud_trait::who::Who;

/// Gives the lease of a client back. Whatever that answers, the client is closed.
pub(crate) fn step_close<C: Cloud>(cloud: &mut C, who: Who, lease: Lease) -> Turn<Answer>
    ensures { StepsClosing lease who (C.seen cloud.old) (C.seen cloud.new) work.Closed result }
{
    match let_go(cloud, who, lease).done() {
        Ok(()) => Turn::Ended(Answer::Closed),
        Err(trouble) => Turn::Ended(Answer::Trouble(trouble)),
    }
}
