//! Laws of a cache.

ghost use Rattle.std.specs.Prelude.{◌≡◌, ◌≤◌, ◌⊎◌, ℕ, Bool, true, List, Option, false, Some, None, Ok, Err};
ghost use Rattle.db_base.specs.declared.names.ObjName.{ObjName};
ghost use Rattle.db_base.specs.declared.names.ObjName.TheVariants as object;
ghost use Rattle.db_base.specs.declared.trouble.Trouble.{Trouble};
ghost use Rattle.leaf_view.specs.Leaf.{Leaf};
ghost use Rattle.node_codec.specs.Inner.{Inner};
ghost use Rattle.node_codec.specs.Tree.{Tree as Root};
ghost use Rattle.page_cache.specs.Held.{leaf_at, inner_at, root_at};
ghost use Rattle.page_cache.specs.Accepted.{Accept, OthersStayOrGo, NoVersionFalls};
ghost use Rattle.page_cache.specs.Refused.{IsStale, IsDamaged};
ghost use Rattle.page_cache.specs.Spelled.{version_read};
ghost use Rattle.page_cache.specs.Cache.{Cache, IsCache, kept_at, served_at, placed_in, accepts, dropped};

/// What an accept leaves.
pub fn accept_laws()
    // The object goes first among those that are kept, and of 65 the last goes.
    ensures first { (a : Accept) → a.after.objects ≡ placed_in a.before.objects a.name a.got }
    // It is kept with what the get answered.
    ensures kept { (a : Accept) → kept_at a.after a.name ≡ Some a.got }
    // What is kept of another object is as it was, or gone.
    ensures others { (a : Accept) → OthersStayOrGo a }
    // The greatest version served of a leaf never falls.
    ensures rises { (a : Accept) → NoVersionFalls a.before a.after }
    // The version of a leaf is not below the greatest one served before, and is that from then on.
    ensures serves { (c : Cache) (tree page : ℕ) (got : Option (List ℕ)) (version : ℕ) (d : Cache) → accepts c (object.Page tree page) true got ≡ Ok (version, d) → (served_at c (object.Page tree page) ≤ version) × (served_at d (object.Page tree page) ≡ version) }
    // The version is that of the bytes, and 0 of what is absent.
    ensures version { (c : Cache) (name : ObjName) (as_leaf : Bool) (bytes : List ℕ) (version : ℕ) (d : Cache) → accepts c name as_leaf (Some bytes) ≡ Ok (version, d) → version_read name as_leaf bytes ≡ Ok version }
    ensures absent { (c : Cache) (name : ObjName) (as_leaf : Bool) (version : ℕ) (d : Cache) → accepts c name as_leaf None ≡ Ok (version, d) → version ≡ 0 }
{}

/// What an accept hands out from then on: a leaf, an inner node or a root of the version that it gave.
pub fn view_laws()
    ensures leaf { (c : Cache) (tree page : ℕ) (got : Option (List ℕ)) (version : ℕ) (d : Cache) → accepts c (object.Page tree page) true got ≡ Ok (version, d) → (l : Leaf) × (leaf_at d (object.Page tree page) ≡ Some l) × (l.version ≡ version) }
    ensures inner { (c : Cache) (tree page : ℕ) (got : Option (List ℕ)) (version : ℕ) (d : Cache) → accepts c (object.Page tree page) false got ≡ Ok (version, d) → (n : Inner) × (inner_at d (object.Page tree page) ≡ Some n) × (n.version ≡ version) }
    ensures root { (c : Cache) (tree : ℕ) (as_leaf : Bool) (got : Option (List ℕ)) (version : ℕ) (d : Cache) → accepts c (object.Tree tree) as_leaf got ≡ Ok (version, d) → (t : Root) × (root_at d (object.Tree tree) ≡ Some t) × (t.version ≡ version) }
{}

/// Why an accept refuses: the page is absent or older than the session may see, or the bytes are in no spelling of their kind.
pub fn refusal_law()
    ensures { (c : Cache) (name : ObjName) (as_leaf : Bool) (got : Option (List ℕ)) (t : Trouble) → accepts c name as_leaf got ≡ Err t → IsStale c name as_leaf t ⊎ IsDamaged name as_leaf got t }
{}

/// What a drop leaves: the object is not kept, the others are as they were, and so is each version served.
pub fn drop_laws()
    ensures gone { (c : Cache) (name : ObjName) → IsCache c → kept_at (dropped c name) name ≡ None }
    ensures others { (c : Cache) (name other : ObjName) → (other ≡ name → ⊥) → kept_at (dropped c name) other ≡ kept_at c other }
    ensures served { (c : Cache) (name other : ObjName) → served_at (dropped c name) other ≡ served_at c other }
{}
