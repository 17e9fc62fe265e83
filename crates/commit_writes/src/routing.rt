//! The records of a commit's changes.

ghost use Rattle.std.specs.Prelude.{◌≡◌, ◌⊎◌, ◌≤◌, length, true, false, IfOk, IfErr, OnOk};
ghost use Rattle.std.specs.List.{AllByRecursion};
ghost use Rattle.db_base.specs.Limits.{most_changes};
ghost use Rattle.log_codec.specs.Atomic.{HasPlace};
ghost use Rattle.route_plan.specs.Route.{routed, AllFit, PassesGreatest};
ghost use Rattle.commit_writes.specs.Writing.{routed_of, passes};

use db_base::ids::PageId;
use db_base::trouble::{Counter, Trouble};
use log_codec::record::AtomicRec;
use recover_run::home::Home;
use route_plan::route::route;
use std::alloc::Global;
use txn_buffer::buffer::TxnBuffer;

/// The records of changes by a home, each with the leaf that it came to.
#[tactic(auto, using(crate::proofs::RoutedLaws::routed_few, crate::proofs::RoutedLaws::routed_some, crate::proofs::RoutedLaws::routed_length, crate::proofs::RoutedLaws::routed_placed, crate::proofs::RoutedLaws::fits_passes, crate::proofs::RoutedLaws::full_passes, std::proofs::lemmas::Grind::common_steps))]
pub(crate) fn records_of(
    alloc: Global,
    home: &Home,
    changes: &TxnBuffer,
    leaves: &[PageId],
) -> Result<Vec<AtomicRec>, Trouble>
    requires leaves { length leaves.now ≡ length changes.now }
    requires attempt { 1 ≤ home.now.attempt }
    requires some { 1 ≤ length changes.now }
    ensures ok { IfOk result (λ records. records.items ≡ routed_of home.now changes.now leaves.now) }
    ensures fits { OnOk result (passes (routed_of home.now changes.now leaves.now) ≡ false) }
    ensures length { length (routed_of home.now changes.now leaves.now) ≡ length changes.now }
    ensures few { length (routed_of home.now changes.now leaves.now) ≤ most_changes }
    ensures some { 1 ≤ length (routed_of home.now changes.now leaves.now) }
    ensures placed { AllByRecursion HasPlace (routed_of home.now changes.now leaves.now) }
    ensures err { IfErr result (λ e. (e ≡ Trouble.Memory) ⊎ ((e ≡ Trouble.Exhausted Counter.Number)
        × (passes (routed_of home.now changes.now leaves.now) ≡ true))) }
{
    let head = &home.head;
    // Read for the clause `few`.
    let _ = changes.len();
    route(
        alloc,
        home.client,
        head.epoch,
        home.attempt,
        head,
        changes,
        leaves,
    )
}
