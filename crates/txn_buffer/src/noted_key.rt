ghost use Rattle.std.specs.Prelude.{◌≡◌, ℕ, ◌<◌, ◌≤◌, length, IfSome, IfNone};
ghost use Rattle.db_base.specs.Change.{key_of};
ghost use Rattle.db_base.specs.Limits.{longest_key};

use arrayvec::ArrayVec;
use db_base::change::Change;
use db_base::ids::TreeId;
use db_base::key::MAX_KEY;

/// A tree and a key of it, which lie in the value itself, so that a change is looked up without memory.
#[derive(PartialEq, Eq, Hash)]
pub struct NotedKey {
    pub tree: TreeId,
    pub key: ArrayVec<u8, MAX_KEY>,
}

impl Drop for NotedKey {
    fn drop(self) {
        let NotedKey { tree: _, key: _ } = self;
    }
}

impl NotedKey {
    /// The tree and the key, or nothing where the bytes are more than a key has.
    pub fn of(tree: TreeId, key: &[u8]) -> Option<NotedKey>
        ensures some { IfSome result (λ k. (k.tree ≡ tree) × (k.key.items ≡ key.now)) }
        ensures none { IfNone result (longest_key < length key.now) }
    {
        match ArrayVec::try_from(key) {
            Ok(key) => Some(NotedKey { tree, key }),
            Err(_) => None,
        }
    }

    /// The tree and the key of a change.
    pub fn of_change(tree: TreeId, change: &Change) -> NotedKey
        ensures tree { result.tree ≡ tree }
        ensures key { result.key.items ≡ key_of change.now }
        ensures short { length result.key.items ≤ longest_key }
    {
        match NotedKey::of(tree, change.key().as_slice()) {
            Some(key) => key,
            None => unreachable!(),
        }
    }
}
