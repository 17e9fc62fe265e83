//! Clients and trees of one byte.

ghost use Rattle.std.specs.Prelude.{◌≡◌};
ghost use Rattle.db_base.specs.Ids.{IsClient, IsTree};

use db_base::ids::{ClientId, TreeId};

/// The client of this number.
pub fn client_of(number: u8) -> ClientId
    requires { IsClient number }
    ensures { result ≡ number }
{
    match ClientId::new(u64::from(number)) {
        Ok(client) => client,
        Err(_) => unreachable!(),
    }
}

/// The tree of this number.
pub fn tree_of(number: u8) -> TreeId
    requires { IsTree number }
    ensures { result ≡ number }
{
    match TreeId::new(u64::from(number)) {
        Ok(tree) => tree,
        Err(_) => unreachable!(),
    }
}
