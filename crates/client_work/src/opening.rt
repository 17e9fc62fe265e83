ghost use Rattle.std.specs.Prelude.{◌≡◌};
ghost use Rattle.cloud_trait.specs.Call.{ask_of};
ghost use Rattle.recover_run.specs.declared.stage.Aim.TheVariants as aim;
ghost use Rattle.recover_run.specs.Recovery.{home_of, new_recovery, recovery_ask, IsSound as IsSoundOpening};
ghost use Rattle.recover_run.specs.Stepped.{Stepped as StepsRecovery};
ghost use Rattle.client_work.specs.Causes.{OpeningBy};
ghost use Rattle.client_work.specs.Left.{at_rest, behind_opening};
ghost use Rattle.client_work.specs.Session.{StepsOpening, opened_work};

use crate::answer::Answer;
use crate::left::{Left, Rest};
use cloud_trait::call::Call;
use cloud_trait::cloud::Cloud;
use cloud_trait::lease::Lease;
use cloud_trait::turn::Turn;
use cloud_trait::who::Who;
use db_base::ids::ClientId;
use recover_run::recover::RecoverRun;
use recover_run::stage::{Aim, RecoverAnswer};
use std::alloc::Global;
use std::marker::Model;

/// The opening of a client: a recovery that settles none.
pub struct OpeningRun {
    run: RecoverRun,
}

impl Model for OpeningRun {
    ghost use Rattle.recover_run.specs.Recovery.{Recovery};
    ghost use Rattle.client_work.specs.Opening.{IsOpening};

    ghost Value = { Recovery };

    ghost view = { λ o. o.run };

    ghost invariant = { λ o. IsOpening o.run };
}

// Written out, so that what holds an opening need not look into it to let it go.
impl Drop for OpeningRun {
    fn drop(self) {
        let OpeningRun { run } = self;
        drop_run(run);
    }
}

impl OpeningRun {
    /// The opening of a client; an old lease is given back first.
    pub(crate) fn new(alloc: Global, client: ClientId, old: Option<Lease>) -> OpeningRun
        ensures { result ≡ new_recovery client aim.Opening old }
    {
        OpeningRun {
            run: RecoverRun::new(alloc, client, Aim::Opening, old),
        }
    }

    /// The service call that the next step makes.
    pub(crate) fn in_hand(&self) -> Call<'_>
        ensures { ask_of result ≡ recovery_ask self.now }
    {
        self.run.in_hand()
    }

    /// Makes the call in hand: what is in hand then, and what it came to.
    pub(crate) fn step<C: Cloud>(
        self,
        alloc: Global,
        cloud: &mut C,
        who: Who,
    ) -> (Left<OpeningRun>, Turn<Answer>)
        ensures sound { IsSoundOpening self }
        ensures steps { StepsOpening who (C.seen cloud.old) (C.seen cloud.new) self
            (behind_opening result.0) result.1 }
        ensures machine { OpeningBy (StepsRecovery who (C.seen cloud.old) (C.seen cloud.new) self)
            (behind_opening result.0) result.1 }
    {
        let OpeningRun { mut run } = self;
        match run.step(alloc, cloud, who) {
            Turn::More => (Left::Goes(OpeningRun { run }), Turn::More),
            Turn::Ended(RecoverAnswer::Opened { epoch }) => {
                (
                    Left::Rests(opened(run)),
                    Turn::Ended(Answer::Opened { epoch }),
                )
            }
            Turn::Ended(RecoverAnswer::Nothing) => unreachable!(),
            Turn::Stopped(trouble) => {
                drop_run(run);
                (
                    Left::Rests(Rest::Closed),
                    Turn::Ended(Answer::Trouble(trouble)),
                )
            }
        }
    }
}

/// An open client after its opening.
fn opened(run: RecoverRun) -> Rest
    ensures { at_rest result ≡ opened_work (home_of run) }
{
    match run.finish() {
        Some(home) => Rest::Idle(home),
        None => Rest::Closed,
    }
}

/// Lets a recovery go.
fn drop_run(_run: RecoverRun) {}
