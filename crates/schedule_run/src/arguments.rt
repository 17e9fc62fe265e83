//! The words of the command line.

ghost use Rattle.std.specs.Prelude.{◌≡◌};
ghost use Rattle.std.specs.IoError.{error_kind};
ghost use Rattle.schedule_run.specs.Arguments.{words_fault};

use command_words::shape::WordsFault;
use std::{env, io};

/// What an error of the words is: of no shape where a word is not UTF-8, and else want of memory.
pub fn fault_of(error: &io::Error) -> WordsFault
    ensures { result ≡ words_fault (error_kind error.now) }
{
    match error.kind() {
        io::ErrorKind::InvalidData => WordsFault::BadWords,
        _ => WordsFault::Memory,
    }
}

/// The words of the command line, without the program's name.
pub fn arguments(rt: &HostRuntime) -> Result<Vec<String>, WordsFault> {
    let given = match env::args(rt) {
        Ok(given) => given,
        Err(error) => return Err(fault_of(&error)),
    };
    let mut words = Vec::new(rt.alloc());
    for word in given.skip(1) {
        if words.push(word).is_err() {
            return Err(WordsFault::Memory);
        }
    }
    Ok(words)
}
