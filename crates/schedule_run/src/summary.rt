//! The summary of a generated schedule.

ghost use Rattle.std.specs.Prelude.{◌≡◌, [], ◌∷◌, ◌++◌, codes, IfOk, OnOk};
ghost use Rattle.std.specs.Fmt.{decimal};
ghost use Rattle.words.specs.Word.{newline};
ghost use Rattle.schedule_run.specs.Summary.{labelled, committed_word, order_word, contents_word, left_words, summary};
ghost use Rattle.reply_text.specs.Reply.{reply_text};

use db_base::blob::Blob;
use db_base::refusal::Refused;
use reply_text::reply::Reply;
use report_types::report::Report;
use std::alloc::Global;

/// Adds a line of a name, a space and a value.
fn add_labelled(text: &mut Blob, name: &str, value: &[u8]) -> Result<(), Refused>
    ensures { OnOk result (text.new ≡ text.old ++ labelled name.now value.now) }
{
    text.add(name.as_bytes())?;
    text.add(b" ")?;
    text.add(value)?;
    text.add(b"\n")
}

/// Adds a line of a name and a number, decimal.
fn add_number(text: &mut Blob, name: &str, n: u64) -> Result<(), Refused>
    ensures { OnOk result (text.new ≡ text.old ++ labelled name.now (decimal n)) }
{
    let mut number = itoa::Buffer::new();
    add_labelled(text, name, number.format(n).as_bytes())
}

/// The text of a reply.
fn text_of(alloc: Global, reply: &Reply) -> Result<Blob, Refused>
    ensures { IfOk result (λ text. text ≡ reply_text reply.now) }
{
    match reply.write(alloc) {
        Ok(text) => Ok(text),
        Err(_) => Err(Refused::Memory),
    }
}

/// Adds a line of a name and the text of a reply.
fn add_reply(alloc: Global, text: &mut Blob, name: &str, reply: &Reply) -> Result<(), Refused>
    ensures { OnOk result (text.new ≡ text.old ++ labelled name.now (reply_text reply.now)) }
{
    let word = text_of(alloc, reply)?;
    add_labelled(text, name, word.as_slice())
}

/// The summary: how many events, the figures of the report, and the text of the settling's reply.
pub fn summary(alloc: Global, count: u64, settling: &Reply, report: &Reply) -> Result<Blob, Refused>
    ensures { IfOk result (λ text. text ≡ summary count settling.now report.now) }
{
    let mut text = Blob::new(alloc);
    add_summary(alloc, &mut text, count, settling, report)?;
    Ok(text)
}

/// Adds the lines of the summary.
fn add_summary(
    alloc: Global,
    text: &mut Blob,
    count: u64,
    settling: &Reply,
    report: &Reply,
) -> Result<(), Refused>
    ensures { OnOk result (text.new ≡ text.old ++ summary count settling.now report.now) }
{
    add_number(text, "events", count)?;
    add_committed(alloc, text, report)?;
    add_order(alloc, text, report)?;
    add_contents(alloc, text, report)?;
    add_text(alloc, text, settling)?;
    add_left(alloc, text, report)
}

/// Adds how many entries are committed, or the text of a reply that is no report.
fn add_committed(alloc: Global, text: &mut Blob, reply: &Reply) -> Result<(), Refused>
    ensures { OnOk result (text.new
        ≡ text.old ++ labelled (codes "committed") (committed_word reply.now)) }
{
    match reply {
        Reply::Report(report) => add_number(text, "committed", report.committed.len() as u64),
        _ => add_reply(alloc, text, "committed", reply),
    }
}

/// Adds how many entries are in order, or the text of a reply that is no report.
fn add_order(alloc: Global, text: &mut Blob, reply: &Reply) -> Result<(), Refused>
    ensures { OnOk result (text.new ≡ text.old ++ labelled (codes "order") (order_word reply.now)) }
{
    match reply {
        Reply::Report(report) => add_number(text, "order", report.order.len() as u64),
        _ => add_reply(alloc, text, "order", reply),
    }
}

/// Adds how many records there are, or the text of a reply that is no report.
fn add_contents(alloc: Global, text: &mut Blob, reply: &Reply) -> Result<(), Refused>
    ensures { OnOk result (text.new
        ≡ text.old ++ labelled (codes "contents") (contents_word reply.now)) }
{
    match reply {
        Reply::Report(report) => add_number(text, "contents", report.contents.len() as u64),
        _ => add_reply(alloc, text, "contents", reply),
    }
}

/// Adds a line of the text of a reply.
fn add_text(alloc: Global, text: &mut Blob, reply: &Reply) -> Result<(), Refused>
    ensures { OnOk result (text.new ≡ text.old ++ reply_text reply.now ++ newline ∷ []) }
{
    let line = text_of(alloc, reply)?;
    text.add(line.as_slice())?;
    text.add(b"\n")
}

/// Adds how many heads and messages are left, or the text of a reply that is no report.
fn add_left(alloc: Global, text: &mut Blob, reply: &Reply) -> Result<(), Refused>
    ensures { OnOk result (text.new ≡ text.old ++ labelled (codes "left") (left_words reply.now)) }
{
    match reply {
        Reply::Report(report) => add_counts(text, report),
        _ => add_reply(alloc, text, "left", reply),
    }
}

/// Adds how many heads and messages are left.
fn add_counts(text: &mut Blob, report: &Report) -> Result<(), Refused>
    ensures { OnOk result (text.new
        ≡ text.old ++ labelled (codes "left") (left_words (Reply.Report report.now))) }
{
    let mut heads = itoa::Buffer::new();
    let mut messages = itoa::Buffer::new();
    text.add(b"left ")?;
    text.add(heads.format(report.heads).as_bytes())?;
    text.add(b" ")?;
    text.add(messages.format(report.messages).as_bytes())?;
    text.add(b"\n")
}
