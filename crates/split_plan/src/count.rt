ghost use Rattle.std.specs.Prelude.{◌≡◌};
ghost use Rattle.split_plan.specs.Sizes.{count_of, IsLeastCount};

/// The most items of a page that is not cut.
pub const CAPACITY: u64 = 64;

/// How many pieces so many items are cut into: the least number of pieces of at most 64 items, and one where there is no item.
pub fn pieces(len: u64) -> u64
    ensures count { result ≡ count_of len }
    ensures least { IsLeastCount len result }
{
    len.saturating_sub(1) / CAPACITY + 1
}
