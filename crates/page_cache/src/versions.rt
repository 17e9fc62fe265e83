ghost use Rattle.std.specs.Prelude.{◌≡◌, ℕ, ◌<◌, ◌≤◌, List, [], length, unwrap_or, IsOk, IfErr, OnOk, OnErr};
ghost use Rattle.std.specs.Map.{lookup};
ghost use Rattle.indexmap.specs.IndexMap.{insert_entry, spare};
ghost use Rattle.page_cache.specs.Names.{same_name};

use db_base::names::ObjName;
use db_base::trouble::Trouble;
use indexmap::IndexMap;
use std::alloc::Global;

/// The greatest version served of each leaf, in the order of first service.
pub(crate) struct Versions {
    served: IndexMap<ObjName, u64>,
}

impl Drop for Versions {
    fn drop(self) {
        let Versions { served: _ } = self;
    }
}

impl Versions {
    /// No versions. Takes no memory.
    pub fn new(alloc: Global) -> Versions
        ensures { result.served.entries ≡ [] }
    {
        Versions {
            served: IndexMap::new(alloc),
        }
    }

    /// The greatest version served of a leaf, 0 where none was.
    pub fn of(&self, name: &ObjName) -> u64
        ensures { result ≡ unwrap_or (lookup (same_name name.now) self.now.served.entries) 0 }
    {
        match self.served.get(name) {
            Some(version) => *version,
            None => 0,
        }
    }

    /// Makes room for one more leaf. Memory alone is refused. Nothing else changes.
    pub fn make_room(&mut self) -> Result<(), Trouble>
        ensures same { self.new.served.entries ≡ self.old.served.entries }
        ensures room { OnOk result (0 < spare self.new.served) }
        ensures memory { IfErr result (λ e. e ≡ Trouble.Memory) }
    {
        match self.served.reserve(1) {
            Ok(()) => Ok(()),
            Err(_) => Err(Trouble::Memory),
        }
    }

    /// Notes the version of a leaf, for which there is room. Takes no memory.
    pub fn note(&mut self, name: ObjName, version: u64)
        requires { 0 < spare self.old.served }
        ensures { self.new.served.entries ≡ insert_entry same_name self.old.served.entries name version }
    {
        match self.served.insert(name, version) {
            Ok(_) => {}
            Err(_) => unreachable!(),
        }
    }

    /// Forgets all versions. Takes no memory.
    pub fn clear(&mut self)
        ensures { self.new.served.entries ≡ [] }
    {
        self.served.clear();
    }
}
