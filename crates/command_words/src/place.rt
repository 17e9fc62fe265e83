ghost use Rattle.std.specs.Prelude.{map, string_bytes};
ghost use Rattle.command_words.specs.Words.{shape_of};
ghost use Rattle.command_words.specs.Place.{Finds};

use crate::read::shape;
use crate::shape::{Shape, WordsFault};
use db_base::text::Text;
use std::alloc::Global;

/// Where a command runs.
#[derive(Debug, Drop)]
pub enum Place {
    /// In memory, over nothing.
    InMemory,
    /// In a folder, which is made where it is missing.
    Made { dir: Text },
    /// In a folder where a store stands.
    Standing { dir: Text },
    /// In a folder, which is made at the first call where it is missing.
    MadeAtFirstCall { dir: Text },
}

impl Place {
    ghost use Rattle.std.specs.Prelude.{◌≡◌};
    ghost use Rattle.command_words.specs.Place.{place_of};

    /// Where a command of this shape runs.
    fn of(asked: Shape) -> Place
        ensures { result ≡ place_of asked }
    {
        match asked {
            Shape::Replay => Place::InMemory,
            Shape::Gen { .. } => Place::InMemory,
            Shape::Shell { dir, .. } => Place::Made { dir },
            Shape::Settle { dir } => Place::Standing { dir },
            Shape::Dump { dir } => Place::Standing { dir },
            Shape::Load { dir } => Place::MadeAtFirstCall { dir },
        }
    }
}

/// Where the command of the words runs. BadWords exactly where they are of no shape, and else want of memory alone.
pub fn place_of(alloc: Global, words: &[String]) -> Result<Place, WordsFault>
    ensures { Finds result (shape_of (map string_bytes words.now)) }
{
    match shape(alloc, words) {
        Ok(asked) => Ok(Place::of(asked)),
        Err(fault) => Err(fault),
    }
}
