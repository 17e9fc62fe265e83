use super::keeper::Keeper;
use super::{Mishap, Names, Shown, befall, ends_at, usual_names};
use cloud_trait::cloud::Bench;
use cloud_trait::turn::Turn;
use cloud_trait::who::Who;
use db_base::blob::Blob;
use db_base::trouble::Trouble;
use memory_cloud::memory::MemoryCloud;
use std::alloc::Global;
use std::process::Abort;

// What a keeper answers.
#[derive(Clone, Copy)]
enum Outcome {
    Ended(u64),
    Failed,
    Busy(u64),
    Late(u64, u64),
}

// The n-th call of a keeper that goes by a wish or comes 40 ticks late; then what the keeper answers, whether the object was
// put, and the end of the lock.
const ROWS: [(u64, Mishap, Outcome, bool, u64); 13] = [
    (1, Mishap::Plain, Outcome::Ended(70), true, 0),
    (1, Mishap::Fail, Outcome::Failed, false, 0),
    (1, Mishap::Hide, Outcome::Busy(10), false, 0),
    (1, Mishap::Lost, Outcome::Failed, false, 40),
    (2, Mishap::Fail, Outcome::Failed, false, 0),
    (2, Mishap::Lost, Outcome::Failed, true, 0),
    (2, Mishap::Late, Outcome::Late(40, 50), false, 0),
    (3, Mishap::Fail, Outcome::Failed, true, 40),
    (3, Mishap::Lost, Outcome::Failed, true, 70),
    (3, Mishap::Late, Outcome::Late(40, 50), true, 0),
    (4, Mishap::Fail, Outcome::Failed, true, 70),
    (4, Mishap::Lost, Outcome::Failed, true, 0),
    (4, Mishap::Late, Outcome::Ended(70), true, 0),
];

// Whether a keeper stopped so.
fn is_stopped(trouble: &Trouble, wanted: Outcome) -> bool {
    match (trouble, wanted) {
        (Trouble::Failed, Outcome::Failed) => true,
        (Trouble::Busy { until, .. }, Outcome::Busy(moment)) => *until == moment,
        (Trouble::Late { end, now }, Outcome::Late(over, moment)) => {
            *end == over && *now == moment
        }
        _ => false,
    }
}

// Whether a keeper ended so.
fn is_ended(until: u64, wanted: Outcome) -> bool {
    match wanted {
        Outcome::Ended(end) => until == end,
        _ => false,
    }
}

// Whether the next call of a keeper brings what is wanted; none where it goes on.
fn is_outcome<C: Bench>(
    keeper: &mut Keeper,
    cloud: &mut C,
    who: Who,
    wanted: Outcome,
) -> Option<bool> {
    match keeper.step(cloud, who) {
        Turn::More => None,
        Turn::Ended(until) => Some(is_ended(until, wanted)),
        Turn::Stopped(trouble) => Some(is_stopped(&trouble, wanted)),
    }
}

// Whether a keeper whose call of this number goes so ends within four calls, as is wanted.
fn is_kept<C: Bench>(
    alloc: Global,
    keeper: &mut Keeper,
    cloud: &mut C,
    who: Who,
    at: u64,
    mishap: Mishap,
    wanted: Outcome,
) -> bool {
    for call in 1..5u64 {
        if call == at && !befall(alloc, cloud, mishap) {
            return false;
        }
        if let Some(is_wanted) = is_outcome(keeper, cloud, who, wanted) {
            return is_wanted;
        }
    }
    false
}

// Whether a keeper answers and leaves what a row says, over a cloud at moment 10.
fn is_right<C: Shown>(
    alloc: Global,
    cloud: &mut C,
    names: &Names,
    row: &(u64, Mishap, Outcome, bool, u64),
) -> bool {
    let (at, mishap, wanted, is_put, end) = *row;
    let Ok(bytes) = Blob::copy_of(alloc, b"kept") else {
        return false;
    };
    let mut keeper = Keeper::new(names.object, names.tree, bytes);
    cloud.wait(10);
    is_kept(alloc, &mut keeper, cloud, names.who, at, mishap, wanted)
        && cloud.has_version(names.object, 1) == is_put
        && cloud.has(names.object, b"kept").ok() == Some(is_put)
        && ends_at(cloud, names.who, names.tree, end)
}

fn is_right_in_memory(
    alloc: Global,
    names: &Names,
    row: &(u64, Mishap, Outcome, bool, u64),
) -> bool {
    is_right(alloc, &mut MemoryCloud::new(alloc), names, row)
}

#[test]
fn keeps_an_object_under_a_lease(rt: HostRuntime) {
    let Some(names) = usual_names() else {
        rt.panic("no names")
    };
    for row in &ROWS {
        assert!(rt; is_right_in_memory(rt.alloc(), &names, row));
    }
}
