//! What is decided by values alone.

ghost use Rattle.std.specs.Prelude.{ℕ, ◌≡◌, ◌≤◌, ◌<◌, ◌+◌, ◌↔◌, ◌⊎◌, Contains, IsTrue, IfSome, None, min};
ghost use Rattle.cloud_trait.specs.Listing.{AscendAbove};
ghost use Rattle.cloud_trait.specs.State.{end_after, greatest};
ghost use Rattle.folder_cloud.specs.Rules.{longest, IsHeld, WasGiven};

use cloud_trait::lease::Lease;
use cloud_trait::state::Hold;
use db_base::ids::PageId;

/// The longest that a lease lasts, in ticks. No operation asks for longer.
pub(crate) const LONGEST: u64 = 600;

/// The end of a lease that is given now for some ticks.
pub(crate) fn lease_end(now: u64, ticks: u64) -> u64
    ensures { result ≡ end_after now (min ticks longest) }
{
    now.saturating_add(ticks.min(LONGEST))
}

/// Whether a lock is held now: its end is to come, and no lease that was given by a right clock ends later.
pub(crate) fn is_held(now: u64, until: u64) -> bool
    ensures { IsTrue result ↔ IsHeld now until }
{
    now < until && until - now <= LONGEST
}

/// Whether a lock was given to a lease, and to nobody since.
pub(crate) fn was_given(hold: Hold, lease: &Lease) -> bool
    ensures { IsTrue result ↔ WasGiven hold.generation lease.now }
{
    hold.generation > 0 && hold.generation == lease.generation()
}

/// The number behind that of the newest message that is there, and behind the count of those that were deleted, but for one that
/// leaves no number behind it. None where there is no number.
pub(crate) fn next_number(counted: u64, newest: u64) -> Option<u64>
    ensures behind { IfSome result (λ n. newest < n) }
    ensures counted { IfSome result (λ n. (counted < n) ⊎ (counted ≡ greatest)) }
    ensures none { result ≡ None → newest ≡ greatest }
{
    if counted == u64::MAX {
        return newest.checked_add(1);
    }
    counted.max(newest).checked_add(1)
}

/// Puts pages in ascending order, each once. That the least is above 0 is seen where it is read.
pub(crate) fn put_in_order(pages: &mut Vec<PageId>)
    ensures ascending { AscendAbove 0 pages.new.items }
    ensures same { (page : ℕ) → Contains pages.old.items page ↔ Contains pages.new.items page }
{
    pages.sort_unstable();
    pages.dedup();
    match pages.as_slice() {
        [] => {}
        [least, ..] => {
            let _number = least.get();
        }
    }
}
