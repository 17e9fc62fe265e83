ghost use Rattle.std.specs.Prelude.{◌≡◌, ℕ, List, [], OnOk, OnErr, IfOk, IfErr};
ghost use Rattle.std.specs.Ordering.{nat_cmp};
ghost use Rattle.std.specs.BTreeMap.{insert_entry};
ghost use Rattle.db_base.specs.Cursor.{number_of, SetsNumber};

use crate::ids::ClientId;
use crate::refusal::Refused;
use std::alloc::Global;
use std::collections::BTreeMap;
use std::marker::Model;

/// For each client the number up to which its records of a queue are applied: pairs of client and number, ascending by client.
#[derive(Debug)]
pub struct Cursor {
    numbers: BTreeMap<u64, u64>,
}

impl Drop for Cursor {
    fn drop(self) {
        let Cursor { numbers: _ } = self;
    }
}

impl Model for Cursor {
    ghost use Rattle.std.specs.Prelude.{List, ℕ};

    ghost Value = { List (ℕ × ℕ) };

    ghost view = { λ c. c.numbers.entries };
}

impl Cursor {
    /// The cursor of a queue of which nothing is applied. Takes no memory.
    pub fn new(alloc: Global) -> Cursor
        ensures { result ≡ [] }
    {
        Cursor {
            numbers: BTreeMap::new(alloc),
        }
    }

    /// Sets a client's number. Refused for memory alone, and then nothing changes.
    pub fn set(&mut self, client: ClientId, number: u64) -> Result<(), Refused>
        ensures ok { OnOk result (self.new ≡ insert_entry nat_cmp self.old client number) }
        ensures numbers { OnOk result (SetsNumber self.old self.new client number) }
        ensures err { OnErr result (self.new ≡ self.old) }
        ensures memory { IfErr result (λ e. e ≡ Refused.Memory) }
    {
        match self.numbers.insert(client.get(), number) {
            Ok(_) => Ok(()),
            Err(_) => Err(Refused::Memory),
        }
    }

    /// A client's number, 0 where there is none. Takes no memory.
    pub fn get(&self, client: ClientId) -> u64
        ensures { result ≡ number_of self.now client }
    {
        self.numbers.get(&client.get()).copied().unwrap_or(0)
    }

    /// A copy. Refused for memory alone.
    pub fn copied(&self) -> Result<Cursor, Refused>
        ensures ok { IfOk result (λ c. c ≡ self.now) }
        ensures memory { IfErr result (λ e. e ≡ Refused.Memory) }
    {
        match self.numbers.clone() {
            Ok(numbers) => Ok(Cursor { numbers }),
            Err(_) => Err(Refused::Memory),
        }
    }
}
