//! Laws of roots and inner nodes, and of their spellings.

ghost use Rattle.std.specs.Prelude.{◌≡◌, ℕ, List, Some, IfSome, max};
ghost use Rattle.db_base.specs.Cursor.{number_of};
ghost use Rattle.db_base.specs.Ids.{IsClient};
ghost use Rattle.byte_format.specs.Whole.{IsBytes};
ghost use Rattle.node_codec.specs.Node.{LiesIn, LowKeysLieIn, raised};
ghost use Rattle.node_codec.specs.Greatest.{FindsGreatest};
ghost use Rattle.node_codec.specs.Tree.{Tree, IsTree, IsSoundTree, HasTreeSpelling, tree_bytes, tree_of};
ghost use Rattle.node_codec.specs.Inner.{Inner, IsInner, HasInnerSpelling, inner_bytes, inner_of};

/// The spelling of a root is read as the root, and bytes that are read are the spelling of what they are read as.
pub fn tree_laws()
    ensures again { (t : Tree) → HasTreeSpelling t → tree_of (tree_bytes t) ≡ Some t }
    ensures only { (bytes : List ℕ) (t : Tree) → IsTree bytes t → tree_of bytes ≡ Some t }
    ensures found { (bytes : List ℕ) (t : Tree) → IsBytes bytes → tree_of bytes ≡ Some t → IsTree bytes t }
    // Each low key lies in the bytes.
    ensures parts { (bytes : List ℕ) (t : Tree) → IsTree bytes t → LowKeysLieIn bytes t.entries }
{}

/// The same of inner nodes.
pub fn inner_laws()
    ensures again { (n : Inner) → HasInnerSpelling n → inner_of (inner_bytes n) ≡ Some n }
    ensures only { (bytes : List ℕ) (n : Inner) → IsInner bytes n → inner_of bytes ≡ Some n }
    ensures found { (bytes : List ℕ) (n : Inner) → IsBytes bytes → inner_of bytes ≡ Some n → IsInner bytes n }
    // Each low key lies in the bytes.
    ensures parts { (bytes : List ℕ) (n : Inner) → IsInner bytes n → LowKeysLieIn bytes n.entries }
    // So does the node's own low key, and its high key, where there is one.
    ensures low { (bytes : List ℕ) (n : Inner) → IsInner bytes n → LiesIn n.low bytes }
    ensures high { (bytes : List ℕ) (n : Inner) → IsInner bytes n → IfSome n.high (λ k. LiesIn k bytes) }
{}

/// The child of a key is the entry with the greatest low key that is at most the key.
pub fn child_law()
    ensures root { (t : Tree) (key : List ℕ) → IsSoundTree t → FindsGreatest key t.entries }
    ensures node { (n : Inner) (key : List ℕ) → HasInnerSpelling n → FindsGreatest key n.entries }
{}

/// A client has the greater of its two numbers once they are raised.
pub fn raised_law()
    ensures { (numbers others : List (ℕ × ℕ)) (c : ℕ) → IsClient c → number_of (raised numbers others) c ≡ max (number_of numbers c) (number_of others c) }
{}
