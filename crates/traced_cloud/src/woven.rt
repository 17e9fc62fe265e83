//! Replies with the calls behind them.

ghost use Rattle.std.specs.Prelude.{◌≡◌, ◌++◌, OnOk, IfOk};
ghost use Rattle.traced_cloud.specs.Woven.{call_in, reply_in, calls_of, calls_upto, behind, woven};

use crate::form::Form;
use crate::note::Note;
use crate::{json, line};
use db_base::blob::Blob;
use db_base::refusal::Refused;
use std::alloc::Global;

/// Adds a call.
fn add_call(alloc: Global, form: Form, text: &mut Blob, note: &Note) -> Result<(), Refused>
    ensures { OnOk result (text.new ≡ text.old ++ call_in form note.now) }
{
    match form {
        Form::Text => line::add_line(alloc, text, note),
        Form::Json => json::add_call(alloc, text, note),
    }
}

/// Adds a reply.
fn add_reply(form: Form, text: &mut Blob, n: u64, reply: &[u8]) -> Result<(), Refused>
    ensures { OnOk result (text.new ≡ text.old ++ reply_in form n reply.now) }
{
    match form {
        Form::Text => text.add(reply),
        Form::Json => json::add_reply(text, n, reply),
    }
}

/// Adds the calls up to an event, and gives those behind.
fn add_upto<'a>(
    alloc: Global,
    form: Form,
    text: &mut Blob,
    n: u64,
    notes: &'a [Note],
) -> Result<&'a [Note], Refused>
    ensures added { OnOk result (text.new ≡ text.old ++ calls_upto form n notes.now) }
    ensures rest { IfOk result (λ rest. rest.now ≡ behind n notes.now) }
{
    let mut rest = notes;
    while let [note, others @ ..] = rest {
        if note.who.event > n {
            return Ok(rest);
        }
        add_call(alloc, form, text, note)?;
        rest = others;
    }
    Ok(rest)
}

/// Adds all of these calls.
fn add_calls(alloc: Global, form: Form, text: &mut Blob, notes: &[Note]) -> Result<(), Refused>
    ensures { OnOk result (text.new ≡ text.old ++ calls_of form notes.now) }
{
    let mut rest = notes;
    while let [note, others @ ..] = rest {
        add_call(alloc, form, text, note)?;
        rest = others;
    }
    Ok(())
}

/// Adds the replies, the first of line 1, each with the calls of its line behind it, and at the end the calls that are left.
fn add_woven(
    alloc: Global,
    form: Form,
    text: &mut Blob,
    replies: &[Blob],
    notes: &[Note],
) -> Result<(), Refused>
    ensures { OnOk result (text.new ≡ text.old ++ woven form 1 replies.now notes.now) }
{
    let mut left = replies;
    let mut rest = notes;
    let mut n: u64 = 1;
    while let [reply, others @ ..] = left {
        add_reply(form, text, n, reply.as_slice())?;
        rest = add_upto(alloc, form, text, n, rest)?;
        n = match n.checked_add(1) {
            Some(n) => n,
            None => return Err(Refused::Memory),
        };
        left = others;
    }
    add_calls(alloc, form, text, rest)
}

/// The replies, the first of line 1, each with the calls of its line behind it. Refused for memory alone.
pub fn woven(alloc: Global, form: Form, replies: &[Blob], notes: &[Note]) -> Result<Blob, Refused>
    ensures { IfOk result (λ text. text ≡ woven form 1 replies.now notes.now) }
{
    let mut text = Blob::new(alloc);
    add_woven(alloc, form, &mut text, replies, notes)?;
    Ok(text)
}
