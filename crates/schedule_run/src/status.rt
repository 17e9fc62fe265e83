ghost use Rattle.std.specs.Prelude.{◌≡◌};
ghost use Rattle.schedule_run.specs.Status.{code_of};

use command_words::shape::WordsFault;

/// How a run ended. Its number is the program's exit status.
#[derive(Clone, Copy, Debug, PartialEq, Eq)]
pub enum Status {
    /// The input was read to its end, where the command reads it, and every event has its reply in the sink.
    Done,
    /// A line is not in the grammar. What ran before it stands.
    BadLine,
    /// The words of the command line are of no shape.
    BadWords,
    /// A read of the input failed. Nothing ran.
    ReadFault,
    /// A write failed. A prefix of the text is written.
    WriteFault,
    /// A settling stopped. Its reply is written.
    NotSettled,
    /// The input is too long. Nothing ran.
    TooLong,
    /// The opening of a shell did not open its session. Its reply is written.
    NotOpened,
    /// Memory ran out.
    Memory,
    /// A database that is dumped is not quiet. The name that shows it is written.
    NotQuiet,
    /// A database that is filled is not empty. The name that shows it is written. Nothing ran.
    NotEmpty,
    /// A commit of a load did not end well. Its answer is written.
    NotLoaded,
    /// A look at what is dumped or filled failed, or showed what is damaged. The trouble is written.
    Stopped,
}

impl Status {
    /// The exit status.
    pub fn code(self) -> u8
        ensures { result ≡ code_of self }
    {
        match self {
            Status::Done => 0,
            Status::BadLine => 1,
            Status::BadWords => 2,
            Status::ReadFault => 3,
            Status::WriteFault => 4,
            Status::NotSettled => 5,
            Status::TooLong => 6,
            Status::NotOpened => 7,
            Status::Memory => 9,
            Status::NotQuiet => 11,
            Status::NotEmpty => 12,
            Status::NotLoaded => 13,
            Status::Stopped => 14,
        }
    }
}

impl From<WordsFault> for Status {
    ghost use Rattle.std.specs.Prelude.{◌≡◌};
    ghost use Rattle.schedule_run.specs.Status.{status_of_words};

    ghost from_gives = { λ fault status. status ≡ status_of_words fault };

    fn from(fault: WordsFault) -> Status {
        match fault {
            WordsFault::BadWords => Status::BadWords,
            WordsFault::Memory => Status::Memory,
        }
    }
}
