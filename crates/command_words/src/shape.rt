use db_base::ids::ClientId;
use db_base::text::Text;

/// What the command line asks for.
#[derive(Debug, Drop)]
pub enum Shape {
    /// A replay of a schedule.
    Replay,
    /// A generated schedule: the number that it is made from, and how many rounds.
    Gen { number: u64, count: u64 },
    /// A shell of a client over a folder.
    Shell { client: ClientId, dir: Text },
    /// A settling of a folder.
    Settle { dir: Text },
    /// The text of what is in a folder.
    Dump { dir: Text },
    /// A folder that is filled from the text of a dump.
    Load { dir: Text },
}

/// Why the words were not read.
#[derive(Clone, Copy, Debug, PartialEq, Eq)]
pub enum WordsFault {
    /// The words are of no shape.
    BadWords,
    /// Memory ran out.
    Memory,
}
