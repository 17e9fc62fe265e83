ghost use Rattle.client_work.specs.Left.{at_rest};
ghost use Rattle.client_work.specs.Session.{StepsRenewing};

use crate::answer::Answer;
use crate::left::Rest;
use crate::work::stopped;
use cloud_trait::cloud::Cloud;
use cloud_trait::perform::renew;
use cloud_trait::turn::Turn;
use cloud_trait::who::Who;
use recover_run::home::Home;
use recover_run::recover::CLIENT_TICKS;

/// Renews the lease of an open client.
pub(crate) fn step_renewal<C: Cloud>(
    cloud: &mut C,
    who: Who,
    mut home: Home,
) -> (Rest, Turn<Answer>)
    ensures { StepsRenewing home who (C.seen cloud.old) (C.seen cloud.new) (at_rest result.0) result.1 }
{
    match renew(cloud, who, &mut home.lease, CLIENT_TICKS).renewed() {
        Ok(end) => (Rest::Idle(home), Turn::Ended(Answer::Renewed { end })),
        Err(trouble) => (
            stopped(&trouble, home),
            Turn::Ended(Answer::Trouble(trouble)),
        ),
    }
}
