ghost use Rattle.std.specs.Prelude.{◌≡◌};
ghost use Rattle.cloud_trait.specs.Call.{ask_of};
ghost use Rattle.orphan_sweep.specs.Sweeping.{new_sweeping, sweep_ask};
ghost use Rattle.client_work.specs.Session.{StepsSweeping, behind_sweeping};

use crate::answer::Answer;
use cloud_trait::call::Call;
use cloud_trait::cloud::Cloud;
use cloud_trait::turn::Turn;
use cloud_trait::who::Who;
use db_base::ids::TreeId;
use orphan_sweep::Sweep;
use std::alloc::Global;
use std::marker::Model;

/// A sweep that came here from its first call on, and its tree.
pub struct SweepingRun {
    tree: TreeId,
    run: Sweep,
}

impl Model for SweepingRun {
    ghost use Rattle.orphan_sweep.specs.Sweeping.{Sweeping};
    ghost use Rattle.client_work.specs.Sweeping.{IsSweeping};

    ghost Value = { Sweeping };

    ghost view = { λ s. s.run };

    ghost invariant = { λ s. IsSweeping s.run };
}

// Written out, so that what holds a sweep need not look into it to let it go.
impl Drop for SweepingRun {
    fn drop(self) {
        let SweepingRun { tree: _, run } = self;
        drop_run(run);
    }
}

impl SweepingRun {
    /// The sweep of a tree before its first call.
    pub(crate) fn new(alloc: Global, tree: TreeId) -> SweepingRun
        ensures { result ≡ new_sweeping tree }
    {
        SweepingRun {
            tree,
            run: Sweep::new(alloc, tree),
        }
    }

    /// The service call that the next step makes.
    pub(crate) fn in_hand(&self) -> Call<'_>
        ensures { ask_of result ≡ sweep_ask self.now }
    {
        self.run.in_hand()
    }

    /// Makes the call in hand where the sweep stands.
    #[inline(never)]
    pub(crate) fn step<C: Cloud>(&mut self, alloc: Global, cloud: &mut C, who: Who) -> Turn<Answer>
        ensures { StepsSweeping who (C.seen cloud.old) (C.seen cloud.new)
            self.old (behind_sweeping self.new result) result }
    {
        match self.run.step(alloc, cloud, who) {
            Turn::More => Turn::More,
            Turn::Ended(swept) => {
                restart(&mut self.run, alloc, self.tree);
                Turn::Ended(Answer::Swept(swept))
            }
            Turn::Stopped(trouble) => {
                restart(&mut self.run, alloc, self.tree);
                Turn::Ended(Answer::Trouble(trouble))
            }
        }
    }
}

/// Lets a sweep go.
fn drop_run(_run: Sweep) {}

/// Begins a sweep anew, so that the one that ended is let go.
fn restart(run: &mut Sweep, alloc: Global, tree: TreeId)
    ensures { run.new ≡ new_sweeping tree }
{
    *run = Sweep::new(alloc, tree);
}
