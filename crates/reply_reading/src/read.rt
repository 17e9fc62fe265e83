ghost use Rattle.std.specs.Prelude.{◌≡◌, IfOk};
ghost use Rattle.words.specs.Word.{Reads, IsReadTo};
ghost use Rattle.reply_reading.specs.Kind.{refusal_of};
ghost use Rattle.reply_reading.specs.Reading.{refused_of, bytes_alone, reply_by, reply_behind, reply_of_words, reply_of_lines};
ghost use Rattle.reply_text.specs.Grammar.{IsReply};

use crate::read_report::{report_of, scan_of};
use crate::read_trouble::{trouble_behind, trouble_of};
use crate::reply_kind::ReplyKind;
use cloud_trait::turn::CkptAnswer;
use db_base::blob::Blob;
use db_base::refusal::Refusal;
use db_base::trouble::CommitAnswer;
use reply_text::reply::Reply;
use reply_text::write::refusal_word;
use std::alloc::Global;
use words::fault::TextFault;
use words::parts::Parts;

/// All rules.
const REFUSALS: [Refusal; 12] = [
    Refusal::EmptyKey,
    Refusal::LongKey,
    Refusal::LongPayload,
    Refusal::TooManyChanges,
    Refusal::BadNumber,
    Refusal::NotOpen,
    Refusal::AtWork,
    Refusal::Broken,
    Refusal::AlreadyOpen,
    Refusal::NotWorking,
    Refusal::BadAttr,
    Refusal::LongEntry,
];

/// The rule that a word names, where it names one. Takes no memory.
fn refusal_of(word: &[u8]) -> Option<Refusal>
    ensures { result ≡ refusal_of word.now }
{
    REFUSALS
        .iter()
        .find(|r| refusal_word(**r).as_bytes() == word)
        .copied()
}

/// A rule's number, its word and nothing else.
#[tactic(auto, unfolding(crate::specs::Reading::refused_of))]
fn refused_of(words: Parts<'_>) -> Result<Refusal, TextFault>
    ensures { Reads result (refused_of words.entry) }
{
    let (number, words) = words.number()?;
    let (word, words) = words.word()?;
    words.end()?;
    match refusal_of(word) {
        Some(refusal) => {
            if refusal.number() != number {
                return Err(TextFault::NotInGrammar);
            }
            Ok(refusal)
        }
        None => Err(TextFault::NotInGrammar),
    }
}

/// Bytes and nothing else.
#[tactic(auto, unfolding(crate::specs::Reading::bytes_alone))]
fn bytes_alone(alloc: Global, words: Parts<'_>) -> Result<Blob, TextFault>
    ensures { Reads result (bytes_alone words.entry) }
{
    let (bytes, words) = words.bytes(alloc)?;
    words.end()?;
    Ok(bytes)
}

/// The reply that a kind begins.
#[tactic(auto, unfolding(crate::specs::Reading::reply_by, crate::specs::Reading::alone))]
fn reply_by(alloc: Global, kind: ReplyKind, words: Parts<'_>) -> Result<Reply, TextFault>
    ensures { Reads result (reply_by kind words.entry) }
{
    match kind {
        ReplyKind::Begun => {
            words.end()?;
            Ok(Reply::Begun)
        }
        ReplyKind::Called => {
            words.end()?;
            Ok(Reply::Called)
        }
        ReplyKind::Noted => {
            words.end()?;
            Ok(Reply::Noted)
        }
        ReplyKind::Aborted => {
            words.end()?;
            Ok(Reply::Aborted)
        }
        ReplyKind::Crashed => {
            words.end()?;
            Ok(Reply::Crashed)
        }
        ReplyKind::Waited => {
            words.end()?;
            Ok(Reply::Waited)
        }
        ReplyKind::Refused => Ok(Reply::Refused(refused_of(words)?)),
        ReplyKind::Opened => {
            let epoch = words.one_number()?;
            Ok(Reply::Opened { epoch })
        }
        ReplyKind::Closed => {
            words.end()?;
            Ok(Reply::Closed)
        }
        ReplyKind::Renewed => {
            let end = words.one_number()?;
            Ok(Reply::Renewed { end })
        }
        ReplyKind::Committed => {
            let txn = words.one_number()?;
            Ok(Reply::Commit(CommitAnswer::Committed { txn }))
        }
        ReplyKind::InDoubt => {
            words.end()?;
            Ok(Reply::Commit(CommitAnswer::InDoubt))
        }
        ReplyKind::NotCommitted => {
            let trouble = trouble_of(alloc, words)?;
            Ok(Reply::Commit(CommitAnswer::NotCommitted(trouble)))
        }
        ReplyKind::CommittedOpen => {
            let trouble = trouble_of(alloc, words)?;
            Ok(Reply::Commit(CommitAnswer::CommittedOpen(trouble)))
        }
        ReplyKind::Done => {
            let (applied, deleted, left) = words.three_numbers()?;
            Ok(Reply::Done(CkptAnswer {
                applied,
                deleted,
                left,
            }))
        }
        ReplyKind::Value => Ok(Reply::Value(bytes_alone(alloc, words)?)),
        ReplyKind::NoValue => {
            words.end()?;
            Ok(Reply::NoValue)
        }
        ReplyKind::Scan => Ok(Reply::Scan(scan_of(alloc, words)?)),
        ReplyKind::Settled => {
            let calls = words.one_number()?;
            Ok(Reply::Settled { calls })
        }
        ReplyKind::Swept => {
            let (kept, removed) = words.two_numbers()?;
            Ok(Reply::Swept { kept, removed })
        }
        ReplyKind::Worked => {
            let (done, passed) = words.two_numbers()?;
            Ok(Reply::Worked { done, passed })
        }
        ReplyKind::NotSettled => Ok(Reply::NotSettled(trouble_of(alloc, words)?)),
    }
}

/// The reply of one line, of its first word and those behind it.
#[tactic(auto, unfolding(crate::specs::Reading::reply_behind, crate::specs::Reading::reply_or_trouble))]
fn reply_behind(alloc: Global, word: &[u8], words: Parts<'_>) -> Result<Reply, TextFault>
    ensures { Reads result (reply_behind word.now words.entry) }
{
    match ReplyKind::of(word) {
        Some(kind) => reply_by(alloc, kind, words),
        None => Ok(Reply::Trouble(trouble_behind(alloc, word, words)?)),
    }
}

/// The reply of the words of its first line, and of its other lines.
#[tactic(auto, unfolding(crate::specs::Reading::reply_of_words, crate::specs::Reading::alone_reply))]
fn reply_of_words(alloc: Global, words: Parts<'_>, lines: Parts<'_>) -> Result<Reply, TextFault>
    ensures { Reads result (reply_of_words words.entry lines.entry) }
{
    let (word, words) = words.word()?;
    if word == b"report".as_slice() {
        Ok(Reply::Report(report_of(alloc, words, lines)?))
    } else {
        lines.end()?;
        reply_behind(alloc, word, words)
    }
}

/// The reply of lines.
#[tactic(auto, unfolding(crate::specs::Reading::reply_of_lines))]
fn reply_of_lines(alloc: Global, lines: Parts<'_>) -> Result<Reply, TextFault>
    ensures { Reads result (reply_of_lines lines.entry) }
{
    let (line, lines) = lines.word()?;
    reply_of_words(alloc, Parts::of(b' ', line), lines)
}

/// The reply that a text spells, without its event's number and without a line feed at its end; NotInGrammar
/// exactly where it spells none.
pub fn read_reply(alloc: Global, text: &[u8]) -> Result<Reply, TextFault>
    // What is read is spelled so.
    ensures found { IfOk result (IsReply text.now) }
    // What is spelled so is read, unless memory runs out.
    ensures only { (reply : Reply) → IsReply text.now reply → IsReadTo result reply }
{
    reply_of_lines(alloc, Parts::of(b'\n', text))
}
