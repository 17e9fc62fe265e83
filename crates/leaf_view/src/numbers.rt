//! The numbers of one queue by client.

use crate::done::Done;
use db_base::cursor::Cursor;
use db_base::ids::ClientId;
use db_base::refusal::Refused;
use std::marker::Model;

/// A number for each client, 0 where there is none: at the place of the client's own number.
#[derive(Drop)]
pub struct Numbers {
    by_client: [u64; 65],
}

impl Model for Numbers {
    ghost use Rattle.std.specs.Prelude.{◌≡◌, List, ℕ, length};

    ghost Value = { List ℕ };

    ghost view = { λ n. n.by_client };

    ghost invariant = { λ n. length n.by_client ≡ 65 };
}

ghost use Rattle.std.specs.Prelude.{◌≡◌, ℕ, ◌∷◌, [], ◌==◌, slice_index, if◌then◌else◌, OnOk, IfErr};
ghost use Rattle.db_base.specs.Cursor.{number_of as cursor_number};
ghost use Rattle.db_base.specs.Ids.{IsClient};
ghost use Rattle.leaf_view.specs.Lookup.{number_of, or_else};

impl Numbers {
    ghost use Rattle.std.specs.Prelude.{◌≡◌, ℕ, ◌∷◌, [], ◌==◌, slice_index, if◌then◌else◌};
    ghost use Rattle.db_base.specs.Ids.{IsClient};
    ghost use Rattle.leaf_view.specs.Lookup.{number_of, or_else};

    /// No number.
    pub fn new() -> Numbers
        ensures { (client : ℕ) → slice_index result client ≡ 0 }
    {
        Numbers { by_client: [0; 65] }
    }

    /// A client's number.
    pub fn get(&self, client: ClientId) -> u64
        ensures number { result ≡ slice_index self.now client }
        ensures client { IsClient client }
    {
        self.by_client[client.get() as usize]
    }

    /// Sets a client's number.
    pub fn set(&mut self, client: ClientId, number: u64)
        ensures { (q : ℕ) → slice_index self.new q ≡ (if q == client then number else slice_index self.old q) }
    {
        self.by_client[client.get() as usize] = number;
    }

    /// Notes what an entry says of a queue, where its client has no number yet.
    pub(crate) fn note(&mut self, queue: u64, item: &Done)
        ensures { (client : ℕ) → slice_index self.new client ≡ or_else (slice_index self.old client) (number_of (item.now ∷ []) queue client) }
    {
        if item.queue == queue && self.get(item.client) == 0 {
            self.set(item.client, item.number);
        }
    }
}

/// Notes in a cursor what an entry says of a queue, where its client has no number yet.
pub(crate) fn note(cursor: &mut Cursor, queue: u64, item: &Done) -> Result<(), Refused>
    ensures ok { OnOk result ((client : ℕ) → cursor_number cursor.new client ≡ or_else (cursor_number cursor.old client) (number_of (item.now ∷ []) queue client)) }
    ensures memory { IfErr result (λ e. e ≡ Refused.Memory) }
{
    if item.queue == queue && cursor.get(item.client) == 0 {
        cursor.set(item.client, item.number)?;
    }
    Ok(())
}
