//! Laws of a walk.

ghost use Rattle.std.specs.Prelude.{◌≡◌, ℕ, Bool, false, List, Option};
ghost use Rattle.cloud_trait.specs.declared.turn.Turn.{Turn as TurnOf};
ghost use Rattle.cloud_trait.specs.declared.turn.Turn.TheVariants as turn;
ghost use Rattle.page_cache.specs.Cache.{Cache, IsCache};
ghost use Rattle.db_base.specs.declared.trouble.Trouble.{Trouble};
ghost use Rattle.tree_walk.specs.Causes.{CausesReady, IsStopped, Meets};
ghost use Rattle.tree_walk.specs.Moves.{Moves};
ghost use Rattle.tree_walk.specs.Served.{MustGet};
ghost use Rattle.tree_walk.specs.Walk.{Walk as State, new_walk, walk_ready};

/// What the local work before the first call comes to.
pub fn ready_laws()
    // A trouble is shown by the objects that the cache keeps and the links between them.
    ensures causes { (w : State) (c : Cache) (n : State × Cache) (t : TurnOf ℕ) → Moves (walk_ready (w, c)) n t → CausesReady (w, c) n.0 t }
    // Where those show a trouble on the way of a new walk that is not fresh, it stops with that.
    ensures exact { (tree : ℕ) (key : Option (List ℕ)) (c : Cache) (n : State × Cache) (t : TurnOf ℕ) (k : Trouble) → IsCache c → Moves (walk_ready (new_walk tree key false, c)) n t → Meets c (new_walk tree key false) k → IsStopped t k }
    // What a new walk gets first is a leaf, the tree object of a fresh walk, or what the cache does not keep.
    ensures gets { (tree : ℕ) (key : Option (List ℕ)) (fresh : Bool) (c : Cache) (n : State × Cache) (t : TurnOf ℕ) → IsCache c → Moves (walk_ready (new_walk tree key fresh, c)) n t → t ≡ turn.More → MustGet n.0 n.1 }
{}
