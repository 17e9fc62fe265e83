ghost use Rattle.std.specs.Prelude.{◌≡◌};
ghost use Rattle.cloud_trait.specs.Call.{ask_of};
ghost use Rattle.settle_run.specs.Parts.{IsSoundPart, part_applying};
ghost use Rattle.settle_run.specs.Settling.{new_settling, settle_ask};
ghost use Rattle.client_work.specs.Session.{StepsSettling, behind_settling};

use crate::answer::Answer;
use cloud_trait::call::Call;
use cloud_trait::cloud::Cloud;
use cloud_trait::turn::Turn;
use cloud_trait::who::Who;
use log_codec::record::PuItem;
use settle_run::SettleRun;
use std::alloc::Global;
use std::marker::Model;

/// A settling that came here from its first call on.
pub struct SettlingRun {
    run: SettleRun,
}

impl Model for SettlingRun {
    ghost use Rattle.settle_run.specs.Settling.{Settling};
    ghost use Rattle.client_work.specs.Settling.{IsSettling};

    ghost Value = { Settling };

    ghost view = { λ s. s.run };

    ghost invariant = { λ s. IsSettling s.run };
}

// Written out, so that what holds a settling need not look into it to let it go.
impl Drop for SettlingRun {
    fn drop(self) {
        let SettlingRun { run } = self;
        drop_run(run);
    }
}

impl SettlingRun {
    /// A settling before its first call.
    pub(crate) fn new(alloc: Global) -> SettlingRun
        ensures { result ≡ new_settling }
    {
        SettlingRun {
            run: SettleRun::new(alloc),
        }
    }

    /// The service call that the next step makes.
    pub(crate) fn in_hand(&self) -> Call<'_>
        ensures { ask_of result ≡ settle_ask self.now }
    {
        self.run.in_hand()
    }

    /// The items that the put in hand of the checkpoint at work applies; none where no checkpoint is at work.
    pub(crate) fn applying(&self) -> &[PuItem]
        ensures { result.now ≡ part_applying self.now.part }
    {
        self.run.applying()
    }

    /// Makes the call in hand where the settling stands.
    #[inline(never)]
    pub(crate) fn step<C: Cloud>(&mut self, alloc: Global, cloud: &mut C, who: Who) -> Turn<Answer>
        ensures sound { IsSoundPart self.old.part }
        ensures steps { StepsSettling who (C.seen cloud.old) (C.seen cloud.new)
            self.old (behind_settling self.new result) result }
    {
        match self.run.step(alloc, cloud, who) {
            Turn::More => Turn::More,
            Turn::Ended(settled) => {
                restart(&mut self.run, alloc);
                Turn::Ended(Answer::Settled(settled))
            }
            Turn::Stopped(trouble) => {
                restart(&mut self.run, alloc);
                Turn::Ended(Answer::Trouble(trouble))
            }
        }
    }
}

/// Lets a settling go.
fn drop_run(_run: SettleRun) {}

/// Begins a settling anew, so that the one that ended is let go.
#[inline(never)]
fn restart(run: &mut SettleRun, alloc: Global)
    ensures { run.new ≡ new_settling }
{
    *run = SettleRun::new(alloc);
}
