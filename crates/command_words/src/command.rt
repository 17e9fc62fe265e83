ghost use Rattle.std.specs.Prelude.{◌≡◌, IfOk};
ghost use Rattle.clap.specs.Words.{app_of};
ghost use Rattle.command_words.specs.Command.{command_app};

use clap::{Arg, Command};
use std::alloc::{AllocError, Global};

/// The program's command: six subcommands, of which one is required.
pub fn command<'a>(alloc: Global) -> Result<Command<'a>, AllocError>
    ensures { IfOk result (λ c. app_of c ≡ command_app) }
{
    let number = Arg::new(alloc, "number").required(true);
    let count = Arg::new(alloc, "count").required(true);
    let generate = Command::new(alloc, "gen").arg(number)?.arg(count)?;
    let client = Arg::new(alloc, "client").required(true);
    let home = Arg::new(alloc, "dir").required(true);
    let shell = Command::new(alloc, "shell").arg(client)?.arg(home)?;
    let dir = Arg::new(alloc, "dir").required(true);
    let settle = Command::new(alloc, "settle").arg(dir)?;
    let source = Arg::new(alloc, "dir").required(true);
    let dump = Command::new(alloc, "dump").arg(source)?;
    let target = Arg::new(alloc, "dir").required(true);
    let load = Command::new(alloc, "load").arg(target)?;
    Command::new(alloc, "s3db")
        .no_binary_name(true)
        .disable_help_subcommand(true)
        .subcommand_required(true)
        .subcommand(Command::new(alloc, "replay"))?
        .subcommand(generate)?
        .subcommand(shell)?
        .subcommand(settle)?
        .subcommand(dump)?
        .subcommand(load)
}
