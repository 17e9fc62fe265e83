ghost use Rattle.std.specs.Prelude.{◌≡◌, ℕ, ◌≤◌, List, [], length, IfOk, IfErr, IfSome, OnOk, OnErr};
ghost use Rattle.std.specs.Option.{option_copied};
ghost use Rattle.std.specs.Map.{lookup, remove_entry};
ghost use Rattle.page_cache.specs.Cache.{AreObjects, placed_in};
ghost use Rattle.page_cache.specs.Names.{same_name};
ghost use Rattle.page_cache.specs.Spelled.{IsSpelled};

use db_base::blob::Blob;
use db_base::names::ObjName;
use db_base::trouble::Trouble;
use lru::LruCache;
use std::alloc::Global;
use std::marker::Model;
use std::num::NonZeroUsize;

/// The most objects that a cache keeps.
pub const MOST_OBJECTS: usize = 64;

/// The objects that are kept, the newest first, each with its bytes or as absent.
pub(crate) struct Objects {
    kept: LruCache<ObjName, Option<Blob>>,
}

impl Drop for Objects {
    fn drop(self) {
        let Objects { kept: _ } = self;
    }
}

impl Model for Objects {
    ghost use Rattle.std.specs.Prelude.{◌≡◌, ℕ, List, Option};
    ghost use Rattle.db_base.specs.declared.names.ObjName.{ObjName};
    ghost use Rattle.page_cache.specs.Cache.{AreObjects, most_kept};

    ghost Value = { List (ObjName × Option (List ℕ)) };

    ghost view = { λ o. o.kept.entries };

    ghost invariant = { λ o. (o.kept.cap ≡ most_kept) × AreObjects o.kept.entries };
}

impl Objects {
    /// No objects. Memory alone is refused.
    pub fn new(alloc: Global) -> Result<Objects, Trouble>
        ensures ok { IfOk result (λ o. o ≡ []) }
        ensures memory { IfErr result (λ e. e ≡ Trouble.Memory) }
    {
        match NonZeroUsize::new(MOST_OBJECTS) {
            Some(most) => match LruCache::new(alloc, most) {
                Ok(kept) => Ok(Objects { kept }),
                Err(_) => Err(Trouble::Memory),
            },
            None => unreachable!(),
        }
    }

    /// What is kept of an object: nothing, its bytes, or that it is absent.
    pub fn get(&self, name: &ObjName) -> Option<&Option<Blob>>
        ensures found { option_copied result ≡ lookup (same_name name.now) self.now }
        ensures spelled { IfSome (option_copied result) (λ bytes. IsSpelled name.now bytes) }
    {
        self.kept.peek(name)
    }

    /// Puts an object first; of 65 the last goes. Memory alone is refused, and then nothing changes.
    pub fn put(&mut self, name: &ObjName, bytes: Option<Blob>) -> Result<(), Trouble>
        requires { IsSpelled name.now bytes }
        ensures ok { OnOk result (self.new ≡ placed_in self.old name.now bytes) }
        ensures err { OnErr result (self.new ≡ self.old) }
        ensures memory { IfErr result (λ e. e ≡ Trouble.Memory) }
    {
        match self.kept.put(*name, bytes) {
            Ok(_) => Ok(()),
            Err(_) => Err(Trouble::Memory),
        }
    }

    /// Forgets an object.
    pub fn remove(&mut self, name: &ObjName)
        ensures { self.new ≡ remove_entry (same_name name.now) self.old }
    {
        self.kept.pop(name);
    }

    /// Forgets all objects.
    pub fn clear(&mut self)
        ensures { self.new ≡ [] }
    {
        self.kept.clear();
    }

    /// How many objects are kept.
    pub fn len(&self) -> usize
        ensures len { result ≡ length self.now }
        ensures kept { AreObjects self.now }
    {
        self.kept.len()
    }
}
