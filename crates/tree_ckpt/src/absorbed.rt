//! Where the answer of each call leads.

ghost use Rattle.std.specs.Prelude.{◌≡◌, [], ◌∷◌, true};
ghost use Rattle.cloud_trait.specs.Machine.{Next};
ghost use Rattle.cloud_trait.specs.Views.{given_of};
ghost use Rattle.tree_phases.specs.Going.{Went};
ghost use Rattle.tree_phases.specs.declared.folding.Folding.{Folding};
ghost use Rattle.tree_phases.specs.declared.folding.Left.{Left};
ghost use Rattle.tree_phases.specs.Folding.{folding_next};
ghost use Rattle.tree_phases.specs.Descent.{descent_next};
ghost use Rattle.tree_phases.specs.Rising.{rising_next};
ghost use Rattle.tree_ckpt.specs.Work.{claims_in, is_bare, is_getting, is_receiving, is_releasing, is_taking};
ghost use Rattle.tree_ckpt.specs.Moves.{Moves, MovesTo, MovesOn, descending_on, page_taken, folding_on, onward_from, page_left, rising_on, Absorbs};

use crate::ending::{deleted, released};
use crate::going::{ascend, descend, go};
use crate::moved::Moved;
use crate::opening::{received, tree_got, tree_taken};
use crate::release::{
    both_leases, drop_answer, drop_coming, drop_onward, drop_placing, stand, take, tree_lease,
};
use crate::work::{Coming, Held, Onward, Work};
use cloud_trait::answer::Answer;
use cloud_trait::lease::Lease;
use cloud_trait::turn::{CkptAnswer, Turn};
use db_base::ids::TreeId;
use db_base::names::Lock;
use db_base::trouble::Trouble;
use std::alloc::Global;
use std::mem;
use tree_phases::descent::Descent;
use tree_phases::folding::{Folding, Left};
use tree_phases::pace::Pace;
use tree_phases::rising::Rising;

/// An inner node was got.
fn descended(alloc: Global, held: Held, descent: Descent, answer: Answer) -> Moved
    ensures { MovesOn (descending_on held (descent_next descent answer)) (held.lease ∷ []) result }
{
    let mut descent = descent;
    let pace = descent.absorb(alloc, answer);
    descend(held, descent, pace)
}

/// The way up put something.
fn risen(alloc: Global, held: Held, rising: Rising, answer: Answer) -> Moved
    ensures { MovesOn (rising_on held (rising_next rising answer)) (held.lease ∷ []) result }
{
    let mut rising = rising;
    let pace = rising.absorb(alloc, answer);
    ascend(held, rising, pace)
}

/// The lock of a leaf that was come to.
fn lock_of(coming: &Coming) -> Lock
    ensures { result ≡ Lock.Page coming.now.chart.tree coming.now.page }
{
    Lock::Page(coming.chart.tree, coming.page)
}

/// A leaf's lease was taken.
fn page_answered(alloc: Global, held: Held, coming: Coming, answer: Answer) -> Moved
    ensures { MovesOn (page_taken held coming (given_of (Lock.Page coming.chart.tree coming.page) answer)) (held.lease ∷ []) result }
{
    let given = answer.given(lock_of(&coming));
    page_taken(alloc, held, coming, given)
}

/// A leaf's lease was given, or it was not.
fn page_taken(alloc: Global, held: Held, coming: Coming, given: Result<Lease, Trouble>) -> Moved
    ensures { MovesOn (page_taken held coming given) (held.lease ∷ []) result }
{
    match given {
        Ok(lease) => {
            let Coming {
                chart,
                page,
                low,
                visited,
            } = coming;
            let folding = Folding::begin(alloc, chart, lease, page, low, visited);
            Moved::goes(Work::Folding(held, folding))
        }
        Err(trouble) => {
            drop_coming(coming);
            Moved::stops(tree_lease(held), trouble)
        }
    }
}

/// The leaf is given back.
fn leave_page(held: Held, folding: Folding, left: Left) -> Moved
    ensures { result ≡ record { work = Work.ReleasingPage held folding.lease (onward_from folding left); turn = Turn.More } }
{
    let Folding {
        chart,
        lease,
        page: _,
        low: _,
        visited,
        placing,
        lacked: _,
    } = folding;
    drop_placing(placing);
    let onward = match left {
        Left::Right(low, page) => Onward::Right(Coming {
            chart,
            page,
            low,
            visited,
        }),
        Left::Handled => Onward::Handled(chart),
    };
    Moved::goes(Work::ReleasingPage(held, lease, onward))
}

/// The leaf's next put comes next, or its release.
fn fold_on(held: Held, folding: Folding, pace: Pace<Left>) -> Moved
    ensures { (next : Next Folding Left) → Went next folding pace → MovesOn (folding_on held next) (folding.lease ∷ held.lease ∷ []) result }
{
    match pace {
        Pace::More => Moved::goes(Work::Folding(held, folding)),
        Pace::Ended(left) => leave_page(held, folding, left),
        Pace::Stopped(trouble) => Moved::stops(both_leases(held, folding), trouble),
        Pace::Memory => Moved::no_memory(both_leases(held, folding)),
    }
}

/// A leaf was got, or something of it was put.
fn folded(alloc: Global, held: Held, folding: Folding, answer: Answer) -> Moved
    ensures { MovesOn (folding_on held (folding_next folding answer)) (folding.lease ∷ held.lease ∷ []) result }
{
    let mut folding = folding;
    let pace = folding.absorb(alloc, answer);
    fold_on(held, folding, pace)
}

/// A leaf's lease was given back.
fn page_left(alloc: Global, held: Held, onward: Onward) -> Moved
    ensures { MovesOn (page_left held onward) (held.lease ∷ []) result }
{
    match onward {
        Onward::Right(coming) => Moved::goes(Work::TakingPage(held, coming)),
        Onward::Handled(chart) => go(alloc, held, chart),
    }
}

/// Goes where an answer leads. A lease that the call gave back has left.
fn lead(alloc: Global, tree: TreeId, work: Work, answer: Answer) -> Moved
    ensures { Moves (Absorbs tree work answer) (claims_in work) result }
{
    match work {
        Work::TakingTree => tree_taken(answer.given(Lock::Tree(tree))),
        Work::GettingTree(lease) => tree_got(tree, lease, answer.got()),
        Work::Receiving(lease, root) => received(alloc, tree, lease, root, answer.received()),
        Work::Descending(held, descent) => descended(alloc, held, descent, answer),
        Work::TakingPage(held, coming) => page_answered(alloc, held, coming, answer),
        Work::Folding(held, folding) => folded(alloc, held, folding, answer),
        Work::ReleasingPage(_, _, onward) => {
            drop_answer(answer);
            drop_onward(onward);
            Moved::finished(Err(Trouble::Failed))
        }
        Work::LeftPage(held, onward) => {
            drop_answer(answer);
            page_left(alloc, held, onward)
        }
        Work::Rising(held, rising) => risen(alloc, held, rising, answer),
        Work::Deleting(held, applied) => deleted(held, applied, answer.done()),
        Work::Releasing(held, end) => {
            drop_answer(answer);
            released(held, end)
        }
        Work::Finished => {
            drop_answer(answer);
            Moved::finished(Err(Trouble::Failed))
        }
    }
}

/// Goes on so, where nothing has to be let go.
fn moves_to(place: &mut Work, moved: Moved) -> Turn<CkptAnswer>
    requires { is_bare place.old ≡ true }
    ensures work { place.new ≡ moved.work }
    ensures turn { result ≡ moved.turn }
{
    let Moved { work, turn } = moved;
    stand(place, work);
    turn
}

/// Goes where an answer leads, with what stands taken out for it.
#[inline(never)]
fn lead_apart(alloc: Global, tree: TreeId, place: &mut Work, answer: Answer) -> Turn<CkptAnswer>
    ensures { MovesTo (Absorbs tree place.old answer) (claims_in place.old) place.new result }
{
    let work = take(place);
    moves_to(place, lead(alloc, tree, work, answer))
}

/// The same, where the tree's lease was taken.
#[inline(never)]
fn lead_taken(tree: TreeId, place: &mut Work, answer: Answer) -> Turn<CkptAnswer>
    requires { is_taking place.old ≡ true }
    ensures { MovesTo (Absorbs tree place.old answer) (claims_in place.old) place.new result }
{
    match place {
        Work::TakingTree => moves_to(place, tree_taken(answer.given(Lock::Tree(tree)))),
        _ => unreachable!(),
    }
}

/// The same, where the tree object was got.
#[inline(never)]
fn lead_got(tree: TreeId, place: &mut Work, answer: Answer) -> Turn<CkptAnswer>
    requires { is_getting place.old ≡ true }
    ensures { MovesTo (Absorbs tree place.old answer) (claims_in place.old) place.new result }
{
    match take(place) {
        Work::GettingTree(lease) => moves_to(place, tree_got(tree, lease, answer.got())),
        _ => unreachable!(),
    }
}

/// The same, where the queue was received from.
#[inline(never)]
fn lead_received(alloc: Global, tree: TreeId, place: &mut Work, answer: Answer) -> Turn<CkptAnswer>
    requires { is_receiving place.old ≡ true }
    ensures { MovesTo (Absorbs tree place.old answer) (claims_in place.old) place.new result }
{
    match take(place) {
        Work::Receiving(lease, root) => moves_to(
            place,
            received(alloc, tree, lease, root, answer.received()),
        ),
        _ => unreachable!(),
    }
}

/// The same, where the newest lease was given back.
#[inline(never)]
fn lead_released(tree: TreeId, place: &mut Work, answer: Answer) -> Turn<CkptAnswer>
    requires { is_releasing place.old ≡ true }
    ensures { MovesTo (Absorbs tree place.old answer) (claims_in place.old) place.new result }
{
    drop_answer(answer);
    match place {
        Work::Releasing(held, end) => match held.newest() {
            Some(_) => Turn::More,
            None => {
                let end = mem::replace(end, Err(Trouble::Failed));
                moves_to(place, Moved::finished(end))
            }
        },
        _ => unreachable!(),
    }
}

/// Goes where an answer leads. The calls of a tree without a run stand apart, each with room for what it moves alone.
fn lead_on(alloc: Global, tree: TreeId, place: &mut Work, answer: Answer) -> Turn<CkptAnswer>
    ensures { MovesTo (Absorbs tree place.old answer) (claims_in place.old) place.new result }
{
    match place {
        Work::TakingTree => lead_taken(tree, place, answer),
        Work::GettingTree(_) => lead_got(tree, place, answer),
        Work::Receiving(_, _) => lead_received(alloc, tree, place, answer),
        Work::Releasing(_, _) => lead_released(tree, place, answer),
        _ => lead_apart(alloc, tree, place, answer),
    }
}

/// Takes the answer of the call in hand. At want of memory it stays where it is.
pub fn absorbed(alloc: Global, tree: TreeId, place: &mut Work, answer: Answer) -> Turn<CkptAnswer>
    ensures { MovesTo (Absorbs tree place.old answer) (claims_in place.old) place.new result }
{
    if let Answer::Memory = answer {
        return Turn::Stopped(Trouble::Memory);
    }
    lead_on(alloc, tree, place, answer)
}
