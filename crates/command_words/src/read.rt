ghost use Rattle.std.specs.Prelude.{◌≡◌, map, string_bytes, option_map, MatchResult};
ghost use Rattle.std.specs.List.{list_all};
ghost use Rattle.clap.specs.Words.{first_of, found_of, rows_of, subcommand_rows_of};
ghost use Rattle.command_words.specs.Words.{Answers, Names, generated, shape_of, is_folder};
ghost use Rattle.command_words.specs.Command.{number_in, dumping_in, loading_in, shell_in, settling_in, shape_of_values, shape_in};

use crate::command::command;
use crate::shape::{Shape, WordsFault};
use clap::ArgMatches;
use clap::error::ErrorKind;
use db_base::ids::ClientId;
use db_base::text::Text;
use std::alloc::Global;
use words::number::number_of;

/// The most rounds that are generated.
pub const MAX_COUNT: u64 = 10_000;

/// Whether a word is no flag: whether it does not begin with a hyphen.
fn is_no_flag(word: &[u8]) -> bool
    ensures { result ≡ is_folder word.now }
{
    match word {
        [] => true,
        [first, ..] => *first != b'-',
    }
}

/// Whether none of the words is a flag.
fn are_no_flags(words: &[String]) -> bool
    ensures { result ≡ list_all (λ w. is_folder (string_bytes w)) words.now }
{
    words.iter().all(|word| is_no_flag(word.as_bytes()))
}

/// A copy of a word.
fn text(alloc: Global, word: &str) -> Result<Text, WordsFault>
    ensures { MatchResult result (λ t. t ≡ word.now) (λ e. e ≡ WordsFault.Memory) }
{
    match Text::new(alloc, word) {
        Ok(text) => Ok(text),
        Err(_) => Err(WordsFault::Memory),
    }
}

/// The value of an argument.
fn value<'a>(values: &ArgMatches<'a>, id: &str) -> Option<&'a str>
    ensures { option_map (λ s. s.now) result ≡ first_of id.now (rows_of (found_of values.now)) }
{
    values.get_str(id)
}

/// The value of an argument, as a number.
fn number(values: &ArgMatches<'_>, id: &str) -> Option<u64>
    ensures { result ≡ number_in id.now (rows_of (found_of values.now)) }
{
    number_of(value(values, id)?.as_bytes())
}

/// What is generated, by its number and how many rounds.
fn generated(number: Option<u64>, count: Option<u64>) -> Result<Shape, WordsFault>
    ensures { Answers result (generated number count) }
{
    let Some(number) = number else {
        return Err(WordsFault::BadWords);
    };
    let Some(count) = count else {
        return Err(WordsFault::BadWords);
    };
    if count > MAX_COUNT {
        return Err(WordsFault::BadWords);
    }
    Ok(Shape::Gen { number, count })
}

/// A shell of a client over a folder.
fn shell(alloc: Global, client: Option<u64>, dir: Option<&str>) -> Result<Shape, WordsFault>
    ensures { Answers result (shell_in client (option_map (λ s. s.now) dir.entry)) }
{
    let Some(number) = client else {
        return Err(WordsFault::BadWords);
    };
    let Some(dir) = dir else {
        return Err(WordsFault::BadWords);
    };
    let Ok(client) = ClientId::new(number) else {
        return Err(WordsFault::BadWords);
    };
    let dir = text(alloc, dir)?;
    Ok(Shape::Shell { client, dir })
}

/// A folder's name, where there is one.
fn folder(alloc: Global, dir: Option<&str>) -> Result<Text, WordsFault>
    ensures { Names result (option_map (λ s. s.now) dir.entry) }
{
    match dir {
        Some(dir) => text(alloc, dir),
        None => Err(WordsFault::BadWords),
    }
}

/// A settling of a folder.
fn settling(alloc: Global, dir: Option<&str>) -> Result<Shape, WordsFault>
    ensures { Answers result (settling_in (option_map (λ s. s.now) dir.entry)) }
{
    Ok(Shape::Settle {
        dir: folder(alloc, dir)?,
    })
}

/// A dump of a folder.
fn dumping(alloc: Global, dir: Option<&str>) -> Result<Shape, WordsFault>
    ensures { Answers result (dumping_in (option_map (λ s. s.now) dir.entry)) }
{
    Ok(Shape::Dump {
        dir: folder(alloc, dir)?,
    })
}

/// A folder that is filled.
fn loading(alloc: Global, dir: Option<&str>) -> Result<Shape, WordsFault>
    ensures { Answers result (loading_in (option_map (λ s. s.now) dir.entry)) }
{
    Ok(Shape::Load {
        dir: folder(alloc, dir)?,
    })
}

/// What a subcommand and its values ask for.
fn asked(alloc: Global, name: &str, values: &ArgMatches<'_>) -> Result<Shape, WordsFault>
    ensures { Answers result (shape_of_values name.now (rows_of (found_of values.now))) }
{
    match name {
        "replay" => Ok(Shape::Replay),
        "gen" => generated(number(values, "number"), number(values, "count")),
        "shell" => shell(alloc, number(values, "client"), value(values, "dir")),
        "settle" => settling(alloc, value(values, "dir")),
        "dump" => dumping(alloc, value(values, "dir")),
        "load" => loading(alloc, value(values, "dir")),
        _ => Err(WordsFault::BadWords),
    }
}

/// What the words ask for, by what the parser made of them.
fn parsed(alloc: Global, matches: &ArgMatches<'_>) -> Result<Shape, WordsFault>
    ensures { Answers result (shape_in (subcommand_rows_of matches.now)) }
{
    match matches.subcommand() {
        Some((name, values)) => asked(alloc, name, values),
        None => Err(WordsFault::BadWords),
    }
}

/// Reads the words of the command line, without the program's name. BadWords exactly where they are of no shape.
pub fn shape(alloc: Global, words: &[String]) -> Result<Shape, WordsFault>
    ensures { Answers result (shape_of (map string_bytes words.now)) }
{
    if !are_no_flags(words) {
        return Err(WordsFault::BadWords);
    }
    let Ok(command) = command(alloc) else {
        return Err(WordsFault::Memory);
    };
    match command.try_get_matches_from(words) {
        Ok(matches) => parsed(alloc, &matches),
        Err(error) => match error.kind() {
            ErrorKind::OutOfMemory => Err(WordsFault::Memory),
            _ => Err(WordsFault::BadWords),
        },
    }
}
