use db_base::text::Text;
use db_base::trouble::Trouble;

/// Why no dump was taken.
#[derive(Debug, Drop)]
pub enum DumpStop {
    /// The database is not quiet: the word of the first open head, or of the first pending update queue with a message.
    NotQuiet(Text),
    /// A look failed, memory ran out, or bytes are damaged.
    Trouble(Trouble),
}

impl From<Trouble> for DumpStop {
    ghost use Rattle.std.specs.Prelude.{◌≡◌};
    ghost use Rattle.dump_take.specs.declared.stop.DumpStop.TheVariants as stop;

    ghost from_gives = { λ trouble e. e ≡ stop.Trouble trouble };

    fn from(trouble: Trouble) -> Self {
        DumpStop::Trouble(trouble)
    }
}
