//! A call as a line of words.

ghost use Rattle.std.specs.Prelude.{◌≡◌, ◌∷◌, ◌++◌, [], codes, OnOk};
ghost use Rattle.std.specs.Fmt.{decimal};
ghost use Rattle.words.specs.Word.{space};
ghost use Rattle.reply_text.specs.Call.{target_word};
ghost use Rattle.traced_cloud.specs.Line.{limit_text, ids_text, more_text, outcome_text, stamp_text, lead_text, shown_text, phase_text, answer_text, named_text, call_line, dot};

use crate::note::{Note, Outcome};
use crate::stamp::Stamp;
use cloud_trait::call::Target;
use db_base::blob::Blob;
use db_base::ids::MsgId;
use db_base::refusal::Refused;
use reply_text::{made_word, target_word};
use std::alloc::Global;

/// Adds a number, decimal.
pub(crate) fn add_number(text: &mut Blob, n: u64) -> Result<(), Refused>
    ensures { OnOk result (text.new ≡ text.old ++ decimal n) }
{
    let mut number = itoa::Buffer::new();
    text.add(number.format(n).as_bytes())
}

/// Adds a space and a number.
fn add_behind(text: &mut Blob, n: u64) -> Result<(), Refused>
    ensures { OnOk result (text.new ≡ text.old ++ (space ∷ decimal n)) }
{
    text.add(b" ")?;
    add_number(text, n)
}

/// Adds a word, a space and a number.
fn add_counted(text: &mut Blob, word: &str, n: u64) -> Result<(), Refused>
    ensures { OnOk result (text.new ≡ text.old ++ (word.now ++ space ∷ decimal n)) }
{
    text.add(word.as_bytes())?;
    add_behind(text, n)
}

/// Adds how many messages a call wanted, or for how many ticks.
fn add_limit(text: &mut Blob, limit: Option<u64>) -> Result<(), Refused>
    ensures { OnOk result (text.new ≡ text.old ++ limit_text limit) }
{
    match limit {
        Some(n) => add_behind(text, n),
        None => Ok(()),
    }
}

/// Adds numbers of messages, each behind a space.
fn add_more(text: &mut Blob, ids: &[MsgId]) -> Result<(), Refused>
    ensures { OnOk result (text.new ≡ text.old ++ more_text ids.now) }
{
    let mut rest = ids;
    while let [id, others @ ..] = rest {
        add_behind(text, id.get())?;
        rest = others;
    }
    Ok(())
}

/// Adds numbers of messages, or that there are none.
fn add_ids(text: &mut Blob, ids: &[MsgId]) -> Result<(), Refused>
    ensures { OnOk result (text.new ≡ text.old ++ ids_text ids.now) }
{
    match ids {
        [] => text.add(b"none"),
        [id, others @ ..] => {
            add_number(text, id.get())?;
            add_more(text, others)
        }
    }
}

/// Adds that a lease was over: its end and the clock.
fn add_late(text: &mut Blob, end: u64, now: u64) -> Result<(), Refused>
    ensures { OnOk result (text.new ≡ text.old ++ (codes "late" ++ space ∷ decimal end ++ space ∷ decimal now)) }
{
    add_counted(text, "late", end)?;
    add_behind(text, now)
}

/// Adds what a call answered.
fn add_outcome(text: &mut Blob, outcome: &Outcome) -> Result<(), Refused>
    ensures { OnOk result (text.new ≡ text.old ++ outcome_text outcome.now) }
{
    match outcome {
        Outcome::Read => text.add(b"version"),
        Outcome::Absent => text.add(b"absent"),
        Outcome::Landed => text.add(b"landed"),
        Outcome::Done => text.add(b"done"),
        Outcome::Sent(id) => add_counted(text, "sent", id.get()),
        Outcome::Received(ids) => add_ids(text, ids.as_slice()),
        Outcome::Listed(count) => add_counted(text, "listed", *count),
        Outcome::Given(end) => add_counted(text, "given", *end),
        Outcome::Held(until) => add_counted(text, "held", *until),
        Outcome::Renewed(end) => add_counted(text, "renewed", *end),
        Outcome::Late { end, now } => add_late(text, *end, *now),
        Outcome::Failed => text.add(b"failed"),
        Outcome::Memory => text.add(b"memory"),
    }
}

/// Adds a phase.
fn add_phase(text: &mut Blob, is_open: bool) -> Result<(), Refused>
    ensures { OnOk result (text.new ≡ text.old ++ phase_text is_open) }
{
    if is_open {
        text.add(b" open")
    } else {
        text.add(b" settled")
    }
}

/// Adds the epoch and the transaction of a head, and its phase.
fn add_head(text: &mut Blob, epoch: u64, txn: u64, is_open: bool) -> Result<(), Refused>
    ensures { OnOk result (text.new ≡ text.old ++ (space ∷ decimal epoch ++ dot ∷ decimal txn ++ phase_text is_open)) }
{
    add_behind(text, epoch)?;
    text.add(b".")?;
    add_number(text, txn)?;
    add_phase(text, is_open)
}

/// Adds what an object says of itself.
fn add_stamp(text: &mut Blob, stamp: Option<Stamp>) -> Result<(), Refused>
    ensures { OnOk result (text.new ≡ text.old ++ stamp_text stamp) }
{
    match stamp {
        None => Ok(()),
        Some(Stamp::Version(version)) => add_behind(text, version),
        Some(Stamp::Head { epoch, txn, open }) => add_head(text, epoch, txn, open),
    }
}

/// Adds the word before what an object says of itself that was not put.
fn add_lead(text: &mut Blob, outcome: &Outcome) -> Result<(), Refused>
    ensures { OnOk result (text.new ≡ text.old ++ lead_text outcome.now) }
{
    match outcome {
        Outcome::Read => Ok(()),
        Outcome::Landed => Ok(()),
        _ => text.add(b" of"),
    }
}

/// Adds what an object says of itself, behind what the call answered.
fn add_shown(text: &mut Blob, outcome: &Outcome, stamp: Option<Stamp>) -> Result<(), Refused>
    ensures { OnOk result (text.new ≡ text.old ++ shown_text outcome.now stamp) }
{
    match stamp {
        None => Ok(()),
        Some(stamp) => {
            add_lead(text, outcome)?;
            add_stamp(text, Some(stamp))
        }
    }
}

/// Adds what a call answered, and what the object says of itself that it put or got.
pub(crate) fn add_answer(text: &mut Blob, note: &Note) -> Result<(), Refused>
    ensures { OnOk result (text.new ≡ text.old ++ answer_text note.now) }
{
    add_outcome(text, &note.outcome)?;
    add_shown(text, &note.outcome, note.stamp)
}

/// Adds what a call is about, as a word.
pub(crate) fn add_target(alloc: Global, text: &mut Blob, target: Target) -> Result<(), Refused>
    ensures { OnOk result (text.new ≡ text.old ++ target_word target) }
{
    match target_word(alloc, target) {
        Ok(word) => text.add(word.as_bytes()),
        Err(_) => Err(Refused::Memory),
    }
}

/// Adds what a call did, to what, and what it wanted.
fn add_named(alloc: Global, text: &mut Blob, note: &Note) -> Result<(), Refused>
    ensures { OnOk result (text.new ≡ text.old ++ named_text note.now) }
{
    text.add(made_word(note.kind).as_bytes())?;
    text.add(b" ")?;
    add_target(alloc, text, note.target)?;
    add_limit(text, note.limit)
}

/// Adds a call as a line: `5 get page:1:1 -> version 2`, `5 put head:1 -> landed 1.3 open`, `5 receive pu:1:0 256 -> 1 2 3`.
pub(crate) fn add_line(alloc: Global, text: &mut Blob, note: &Note) -> Result<(), Refused>
    ensures { OnOk result (text.new ≡ text.old ++ call_line note.now) }
{
    add_number(text, note.who.event)?;
    text.add(b" ")?;
    add_named(alloc, text, note)?;
    text.add(b" -> ")?;
    add_answer(text, note)?;
    text.add(b"\n")
}
