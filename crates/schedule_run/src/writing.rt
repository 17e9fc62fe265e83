//! The lines that are written of replies.

ghost use Rattle.std.specs.Prelude.{◌≡◌, IfOk};
ghost use Rattle.db_io.specs.Output.{WasWritten};
ghost use Rattle.schedule_run.specs.Written.{reply_line, bad_line, name_line, plain_line};

use db_base::blob::Blob;
use db_base::refusal::Refused;
use db_io::output::{OutputFault, write_text};
use db_io::sink::Sink;
use reply_text::reply::Reply;
use std::alloc::Global;

/// Writes that a line is in no grammar.
pub fn refuse<O: Sink>(alloc: Global, sink: &mut O, n: u64) -> Result<(), OutputFault>
    ensures { WasWritten (O.told sink.old) (O.told sink.new) (bad_line n) result }
{
    match format!(in alloc; "bad line {n}\n") {
        Ok(text) => write_text(sink, text.as_bytes()),
        Err(_) => Err(OutputFault::Memory),
    }
}

/// Writes a line of a word and a name.
pub fn write_name<O: Sink>(
    alloc: Global,
    sink: &mut O,
    word: &str,
    name: &str,
) -> Result<(), OutputFault>
    ensures { WasWritten (O.told sink.old) (O.told sink.new) (name_line word.now name.now) result }
{
    match format!(in alloc; "{word} {name}\n") {
        Ok(text) => write_text(sink, text.as_bytes()),
        Err(_) => Err(OutputFault::Memory),
    }
}

/// Writes a reply under no number.
pub fn write_plain<O: Sink>(alloc: Global, sink: &mut O, reply: &Reply) -> Result<(), OutputFault>
    ensures { WasWritten (O.told sink.old) (O.told sink.new) (plain_line reply.now) result }
{
    match plain_line(alloc, reply) {
        Ok(line) => write_text(sink, line.as_slice()),
        Err(_) => Err(OutputFault::Memory),
    }
}

/// The line of a reply under no number: the text, a line feed.
fn plain_line(alloc: Global, reply: &Reply) -> Result<Blob, Refused>
    ensures { IfOk result (λ line. line ≡ plain_line reply.now) }
{
    let text = match reply.write(alloc) {
        Ok(text) => text,
        Err(_) => return Err(Refused::Memory),
    };
    let mut line = Blob::new(alloc);
    line.add(text.as_slice())?;
    line.add(b"\n")?;
    Ok(line)
}

/// Writes a reply under a number.
pub fn write_reply<O: Sink>(
    alloc: Global,
    sink: &mut O,
    n: u64,
    reply: &Reply,
) -> Result<(), OutputFault>
    ensures { WasWritten (O.told sink.old) (O.told sink.new) (reply_line n reply.now) result }
{
    match reply_line(alloc, n, reply) {
        Ok(text) => write_text(sink, text.as_slice()),
        Err(_) => Err(OutputFault::Memory),
    }
}

/// The line of a reply: the number, a space, the text, a line feed.
fn reply_line(alloc: Global, n: u64, reply: &Reply) -> Result<Blob, Refused>
    ensures { IfOk result (λ line. line ≡ reply_line n reply.now) }
{
    let text = match reply.write(alloc) {
        Ok(text) => text,
        Err(_) => return Err(Refused::Memory),
    };
    let mut number = itoa::Buffer::new();
    let mut line = Blob::new(alloc);
    line.add(number.format(n).as_bytes())?;
    line.add(b" ")?;
    line.add(text.as_slice())?;
    line.add(b"\n")?;
    Ok(line)
}

/// Lets a reply go: no other function has to look into its parts for that.
pub fn let_go(_reply: Reply) {}
