ghost use Rattle.std.specs.Prelude.{◌≡◌, ℕ, ◌+◌, ◌≤◌, List, length, take, Some, count_by, slice_get};
ghost use Rattle.std.specs.List.{AllByRecursion};
ghost use Rattle.db_base.specs.Limits.{most_changes};
ghost use Rattle.head_codec.specs.Spelling.{HasSpelling};
ghost use Rattle.head_codec.specs.declared.head.Head.{Head};
ghost use Rattle.leaf_view.specs.Leaf.{Leaf};
ghost use Rattle.log_codec.specs.Atomic.{HasPlace};
ghost use Rattle.log_codec.specs.declared.record.AtomicRec.{AtomicRec};
ghost use Rattle.node_codec.specs.Tree.{Tree};
ghost use Rattle.txn_buffer.specs.Noted.{Noted};
ghost use Rattle.route_plan.specs.Heads.{opened_head, raised_by, settled_head};
ghost use Rattle.route_plan.specs.Prune.{pruned_by_leaf, pruned_by_tree};
ghost use Rattle.route_plan.specs.Queue.{number_of_queue};
ghost use Rattle.route_plan.specs.Route.{goes_to, record_behind, routed, transaction};

/// A commit has a record for each change, in the order of the changes: that of its change and leaf, behind the records before it.
pub fn each_change_has_its_record()
    ensures length { (client epoch txn : ℕ) (head : Head) (changes : List Noted) (leaves : List ℕ) →
        length leaves ≡ length changes → length (routed client epoch txn head changes leaves) ≡ length changes }
    ensures record_at { (client epoch txn : ℕ) (head : Head) (changes : List Noted) (leaves : List ℕ) (i : ℕ) (noted : Noted) (leaf : ℕ) →
        slice_get changes i ≡ Some noted → slice_get leaves i ≡ Some leaf →
        slice_get (routed client epoch txn head changes leaves) i
        ≡ Some (record_behind (transaction client epoch txn (length changes)) head (take i (routed client epoch txn head changes leaves)) noted leaf) }
{}

/// The counters of the head that commits are raised by one for each record of their queue, and by nothing else.
pub fn counters_count_the_records()
    ensures { (client epoch txn : ℕ) (head : Head) (changes : List Noted) (leaves : List ℕ) (tree page : ℕ) →
        number_of_queue (raised_by head.counters (routed client epoch txn head changes leaves)) tree page
        ≡ number_of_queue head.counters tree page + count_by (goes_to tree page) (routed client epoch txn head changes leaves) }
{}

/// What a commit sends and puts has spellings, where the home's head has one.
pub fn a_commit_has_spellings()
    ensures records { (client epoch txn : ℕ) (head : Head) (changes : List Noted) (leaves : List ℕ) →
        1 ≤ epoch → 1 ≤ txn → length changes ≤ most_changes → AllByRecursion HasPlace (routed client epoch txn head changes leaves) }
    ensures opened { (head : Head) (txn : ℕ) (records : List AtomicRec) → HasSpelling head →
        1 ≤ length records → length records ≤ most_changes → AllByRecursion HasPlace records → HasSpelling (opened_head head txn records) }
    ensures settled { (head : Head) (records : List AtomicRec) → HasSpelling head →
        AllByRecursion HasPlace records → HasSpelling (settled_head head records) }
    ensures pruned_by_leaf { (head : Head) (client tree : ℕ) (leaf : Leaf) → HasSpelling head → HasSpelling (pruned_by_leaf head client tree leaf) }
    ensures pruned_by_tree { (head : Head) (client tree : ℕ) (root : Tree) → HasSpelling head → HasSpelling (pruned_by_tree head client tree root) }
{}
