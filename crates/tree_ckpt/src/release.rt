//! Letting go of what a checkpoint has in hand, each part in one place.

ghost use Rattle.std.specs.Prelude.{◌≡◌, true};
ghost use Rattle.tree_ckpt.specs.Work.{is_bare, one_lease, two_leases};

use crate::work::{Coming, Held, Onward, Work, one_lease, two_leases};
use ckpt_parts::Leases;
use cloud_trait::answer::Answer;
use std::mem;
use tree_phases::chart::Chart;
use tree_phases::descent::Descent;
use tree_phases::folding::Folding;
use tree_phases::placing::Placing;
use tree_phases::rising::Rising;

/// The tree's lease alone; the messages that the run covers are let go.
pub(crate) fn tree_lease(held: Held) -> Leases
    ensures { result ≡ one_lease held.lease }
{
    one_lease(held.lease)
}

/// The tree's lease and then a leaf's; all else is let go.
pub(crate) fn both_leases(held: Held, folding: Folding) -> Leases
    ensures { result ≡ two_leases held.lease folding.lease }
{
    drop_chart(folding.chart);
    drop_placing(folding.placing);
    two_leases(held.lease, folding.lease)
}

pub(crate) fn drop_answer(_answer: Answer) {}

pub(crate) fn drop_chart(_chart: Chart) {}

pub(crate) fn drop_placing(_placing: Placing) {}

pub(crate) fn drop_descent(descent: Descent) {
    drop_chart(descent.chart);
}

pub(crate) fn drop_coming(coming: Coming) {
    drop_chart(coming.chart);
}

pub(crate) fn drop_rising(rising: Rising) {
    drop_chart(rising.chart);
    drop_placing(rising.placing);
}

pub(crate) fn drop_onward(onward: Onward) {
    match onward {
        Onward::Right(coming) => drop_coming(coming),
        Onward::Handled(chart) => drop_chart(chart),
    }
}

/// Lets go of where a checkpoint stands. That of a tree without a run has little in hand.
pub(crate) fn let_go(work: Work) {
    match work {
        Work::TakingTree => {}
        Work::GettingTree(_) => {}
        Work::Receiving(_, _) => {}
        Work::Deleting(_, _) => {}
        Work::Releasing(_, _) => {}
        Work::Finished => {}
        work => let_go_apart(work),
    }
}

#[inline(never)]
fn let_go_apart(work: Work) {
    match work {
        Work::TakingTree => {}
        Work::GettingTree(_) => {}
        Work::Receiving(_, _) => {}
        Work::Descending(_, descent) => drop_descent(descent),
        Work::TakingPage(_, coming) => drop_coming(coming),
        Work::Folding(_, folding) => drop_folding(folding),
        Work::ReleasingPage(_, _, onward) => drop_onward(onward),
        Work::LeftPage(_, onward) => drop_onward(onward),
        Work::Rising(_, rising) => drop_rising(rising),
        Work::Deleting(_, _) => {}
        Work::Releasing(_, _) => {}
        Work::Finished => {}
    }
}

/// Hands out where a checkpoint stands.
pub(crate) fn take(place: &mut Work) -> Work
    ensures work { result ≡ place.old }
    ensures left { place.new ≡ Work.Finished }
{
    mem::replace(place, Work::Finished)
}

/// A checkpoint stands so from now on that stands where nothing has to be let go.
pub(crate) fn stand(place: &mut Work, work: Work)
    requires { is_bare place.old ≡ true }
    ensures { place.new ≡ work }
{
    match mem::replace(place, work) {
        Work::TakingTree => {}
        Work::Releasing(_, _) => {}
        Work::Finished => {}
        _ => unreachable!(),
    }
}

fn drop_folding(folding: Folding) {
    drop_chart(folding.chart);
    drop_placing(folding.placing);
}
