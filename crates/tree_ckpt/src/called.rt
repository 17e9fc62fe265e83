//! The call in hand.

ghost use Rattle.std.specs.Prelude.{◌≡◌};
ghost use Rattle.cloud_trait.specs.Weather.{Makes};
ghost use Rattle.tree_ckpt.specs.Work.{work_ask, handed, leaving};

use crate::release::{stand, take};
use crate::work::Work;
use cloud_trait::answer::Answer;
use cloud_trait::cloud::Cloud;
use cloud_trait::lease::Lease;
use cloud_trait::perform::{let_go, perform};
use cloud_trait::who::Who;
use db_base::ids::TreeId;

/// The lease that a call gives back, apart from the rest.
#[derive(Drop)]
struct Parted {
    lease: Option<Lease>,
    work: Work,
}

/// Takes the lease out that the call in hand gives back, where it gives one back.
fn part(work: Work) -> Parted
    ensures lease { result.lease ≡ leaving work }
    ensures left { result.work ≡ handed work }
{
    match work {
        Work::ReleasingPage(held, lease, onward) => Parted {
            lease: Some(lease),
            work: Work::LeftPage(held, onward),
        },
        Work::Releasing(held, end) => {
            let mut held = held;
            let lease = held.give_newest();
            Parted {
                lease,
                work: Work::Releasing(held, end),
            }
        }
        work => Parted { lease: None, work },
    }
}

/// Takes the lease out of what is taken apart for it.
fn part_page(place: &mut Work) -> Option<Lease>
    ensures lease { result ≡ leaving place.old }
    ensures left { place.new ≡ handed place.old }
{
    let Parted { lease, work } = part(take(place));
    stand(place, work);
    lease
}

/// Takes the lease out that the call in hand gives back, where it gives one back. Most calls give none, and move nothing.
fn give(place: &mut Work) -> Option<Lease>
    ensures lease { result ≡ leaving place.old }
    ensures left { place.new ≡ handed place.old }
{
    match place {
        Work::Releasing(held, _) => held.give_newest(),
        Work::ReleasingPage(_, _, _) => part_page(place),
        _ => None,
    }
}

/// Makes the call in hand; a release hands its lease out.
pub fn make_call<C: Cloud>(cloud: &mut C, who: Who, tree: TreeId, place: &mut Work) -> Answer
    ensures made { Makes who (work_ask tree place.old) result (C.seen cloud.old) (C.seen cloud.new) }
    ensures left { place.new ≡ handed place.old }
{
    match give(place) {
        Some(lease) => let_go(cloud, who, lease),
        None => perform(cloud, who, &place.in_hand(tree)),
    }
}
