//! Laws of a scan.

ghost use Rattle.std.specs.Prelude.{◌≡◌, ℕ, List, Option, Some};
ghost use Rattle.std.specs.List.{AllByRecursion};
ghost use Rattle.cloud_trait.specs.declared.turn.Turn.{Turn as TurnOf};
ghost use Rattle.leaf_view.specs.Leaf.{Leaf, IsLeaf};
ghost use Rattle.db_base.specs.declared.trouble.Trouble.{Trouble};
ghost use Rattle.page_cache.specs.Cache.{Cache, IsCache};
ghost use Rattle.page_cache.specs.Held.{as_leaf};
ghost use Rattle.tree_walk.specs.Causes.{IsStopped, Meets};
ghost use Rattle.tree_walk.specs.Moves.{Moves};
ghost use Rattle.range_scan.specs.Causes.{CausesReady};
ghost use Rattle.range_scan.specs.Meaning.{Range, scan_of, AreMeeting};
ghost use Rattle.range_scan.specs.Scan.{Scan, scan_ready};
ghost use Rattle.range_scan.specs.Whole.{Listed, leaves_in, IsFenced, IsListed, IsWhole};

/// What the local work before the first call comes to.
pub fn ready_laws()
    // A trouble is shown by the objects that the cache keeps and the links between them.
    ensures causes { (s : Scan) (c : Cache) (n : Scan × Cache) (t : TurnOf ℕ) → Moves (scan_ready (s, c)) n t → CausesReady (s, c) n t }
    // Where those show a trouble on the way of its walk, it stops with that.
    ensures exact { (r : Range) (c : Cache) (n : Scan × Cache) (t : TurnOf ℕ) (k : Trouble) → IsCache c → Moves (scan_ready (scan_of r, c)) n t → Meets c (scan_of r).walk k → IsStopped t k }
{}

/// What the lists of a scan's leaves come to over the whole scan.
pub fn listing_laws()
    // The lists of leaves that meet are, one behind the other, the list of their whole range.
    ensures whole { (r : Range) (xs : List Listed) → AreMeeting r (leaves_in xs) → AllByRecursion IsListed xs → IsWhole xs }
    // A leaf that is spelled begins below its high key.
    ensures spelled { (bytes : List ℕ) (l : Leaf) → IsLeaf bytes l → IsFenced l }
    // .. and so does one that a get answered.
    ensures fenced { (got : Option (List ℕ)) (l : Leaf) → as_leaf (Some got) ≡ Some l → IsFenced l }
{}
