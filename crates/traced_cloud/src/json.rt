//! Calls and replies as JSON objects. Words and numbers need no escape there; a reply's bytes may.

ghost use Rattle.std.specs.Prelude.{◌≡◌, ◌∷◌, ◌++◌, [], codes, OnOk};
ghost use Rattle.std.specs.Fmt.{decimal};
ghost use Rattle.reply_text.specs.Call.{made_word, target_word};
ghost use Rattle.traced_cloud.specs.Json.{number_member, object_begin, session_member, asked_members, answered_members, word_member, limit_member, call_words, call_object, escaped, escaped_all, reply_object};

use crate::line::{add_answer, add_number, add_target};
use crate::note::Note;
use reply_text::made_word;
use cloud_trait::who::Who;
use db_base::blob::Blob;
use db_base::refusal::Refused;
use std::alloc::Global;

/// Adds a member that is a number, behind a byte that leads to it.
fn add_number_member(text: &mut Blob, lead: u8, name: &str, n: u64) -> Result<(), Refused>
    ensures { OnOk result (text.new ≡ text.old ++ number_member lead name.now n) }
{
    text.add(&[lead, b'"'])?;
    text.add(name.as_bytes())?;
    text.add(b"\":")?;
    add_number(text, n)
}

/// Adds a member behind a comma whose value is a string, up to the string.
fn begin_word(text: &mut Blob, name: &str) -> Result<(), Refused>
    ensures { OnOk result (text.new ≡ text.old ++ word_member name.now) }
{
    text.add(b",\"")?;
    text.add(name.as_bytes())?;
    text.add(b"\":\"")
}

/// Adds how many messages a call wanted, or for how many ticks.
fn add_limit(text: &mut Blob, limit: Option<u64>) -> Result<(), Refused>
    ensures { OnOk result (text.new ≡ text.old ++ limit_member limit) }
{
    match limit {
        Some(n) => add_number_member(text, b',', "limit", n),
        None => Ok(()),
    }
}

/// Adds what a call did and to what, up to the end of the second string.
#[tactic(auto, unfolding(crate::specs::Json::call_words))]
fn add_words(alloc: Global, text: &mut Blob, note: &Note) -> Result<(), Refused>
    ensures { OnOk result (text.new ≡ text.old ++ call_words note.now) }
{
    begin_word(text, "call")?;
    text.add(made_word(note.kind).as_bytes())?;
    text.add(b"\"")?;
    begin_word(text, "name")?;
    add_target(alloc, text, note.target)?;
    text.add(b"\"")
}

/// Begins the object of a line.
#[tactic(auto, unfolding(crate::specs::Json::object_begin))]
fn begin_object(text: &mut Blob, n: u64) -> Result<(), Refused>
    ensures { OnOk result (text.new ≡ text.old ++ object_begin n) }
{
    add_number_member(text, b'{', "line", n)
}

/// The number of the session that made a call.
fn session_of(who: &Who) -> u64
    ensures { result ≡ who.now.session }
{
    who.session.get()
}

/// Adds the session.
#[tactic(auto, unfolding(crate::specs::Json::session_member))]
fn add_session(text: &mut Blob, session: u64) -> Result<(), Refused>
    ensures { OnOk result (text.new ≡ text.old ++ session_member session) }
{
    add_number_member(text, b',', "session", session)
}

/// Adds what a call did, to what, what it wanted, and the session.
#[tactic(auto, unfolding(crate::specs::Json::asked_members))]
fn add_asked(alloc: Global, text: &mut Blob, note: &Note) -> Result<(), Refused>
    ensures { OnOk result (text.new ≡ text.old ++ asked_members note.now) }
{
    add_session(text, session_of(&note.who))?;
    add_words(alloc, text, note)?;
    add_limit(text, note.limit)
}

/// Adds the last member of a call, what it answered, and the end of the object.
#[tactic(auto, unfolding(crate::specs::Json::answered_members))]
fn add_answered(text: &mut Blob, note: &Note) -> Result<(), Refused>
    ensures { OnOk result (text.new ≡ text.old ++ answered_members note.now) }
{
    begin_word(text, "answer")?;
    add_answer(text, note)?;
    text.add(b"\"}\n")
}

/// Adds a call as an object and a line feed.
pub(crate) fn add_call(alloc: Global, text: &mut Blob, note: &Note) -> Result<(), Refused>
    ensures { OnOk result (text.new ≡ text.old ++ call_object note.now) }
{
    begin_object(text, note.who.event)?;
    add_asked(alloc, text, note)?;
    add_answered(text, note)
}

/// Adds a byte of a string.
fn add_escaped(text: &mut Blob, byte: u8) -> Result<(), Refused>
    ensures { OnOk result (text.new ≡ text.old ++ escaped byte) }
{
    if byte == b'\n' {
        text.add(b"\\n")
    } else if byte == b'"' || byte == b'\\' {
        text.add(&[b'\\', byte])
    } else {
        text.add(&[byte])
    }
}

/// Adds the bytes of a string.
fn add_string(text: &mut Blob, bytes: &[u8]) -> Result<(), Refused>
    ensures { OnOk result (text.new ≡ text.old ++ escaped_all bytes.now) }
{
    let mut rest = bytes;
    while let [byte, others @ ..] = rest {
        add_escaped(text, *byte)?;
        rest = others;
    }
    Ok(())
}

/// Adds a reply under the number of its line, as an object and a line feed.
pub(crate) fn add_reply(text: &mut Blob, n: u64, reply: &[u8]) -> Result<(), Refused>
    ensures { OnOk result (text.new ≡ text.old ++ reply_object n reply.now) }
{
    begin_object(text, n)?;
    begin_word(text, "reply")?;
    add_string(text, reply)?;
    text.add(b"\"}\n")
}
