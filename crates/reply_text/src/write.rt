ghost use Rattle.std.specs.Prelude.{◌≡◌, [], ◌∷◌, ◌++◌, IfOk, IfErr, OnOk, map, codes, length};
ghost use Rattle.std.specs.Fmt.{decimal};
ghost use Rattle.std.specs.String.{string_bytes};
ghost use Rattle.words.specs.Word.{hexadecimal, space, newline};
ghost use Rattle.reply_text.specs.Reply.{refusal_word, counter_word, trouble_words, HasText, behind_each, pair_word, stored_words, entry_words, change_words, commit_words, CommitHasText, report_lines, reply_text, ReplyHasText, refusal_words, count_text, stored_text, entry_text, Spells, SpellsLines, AddsText};

use crate::name::{lock_word, place_word};
use crate::reply::Reply;
use db_base::attr::Attr;
use db_base::blob::Blob;
use db_base::change::Change;
use db_base::key::{Key, Payload};
use db_base::refusal::Refusal;
use db_base::trouble::{CommitAnswer, Counter, Trouble};
use report_types::entry::Entry;
use report_types::pair_list::{PairList, Pairs};
use report_types::report::Report;
use report_types::stored::Stored;
use std::alloc::{AllocError, Global};
use words::bytes::{add_hexadecimal, hexadecimal};
use words::fault::TextFault;

/// A word alone.
fn plain_text(alloc: Global, word: &str) -> Result<String, TextFault>
    ensures ok { IfOk result (λ text. string_bytes text ≡ word.now) }
    ensures memory { IfErr result (λ e. e ≡ TextFault.Memory) }
{
    Ok(String::from_str(alloc, word)?)
}

/// A kind and a number.
fn number_text(alloc: Global, kind: &str, number: u64) -> Result<String, TextFault>
    ensures ok { Spells result (kind.now ∷ decimal number ∷ []) }
    ensures memory { IfErr result (λ e. e ≡ TextFault.Memory) }
{
    let text = format!(in alloc; "{kind} {number}")?;
    Ok(text)
}

/// A kind and two numbers.
fn two_numbers_text(alloc: Global, kind: &str, first: u64, second: u64) -> Result<String, TextFault>
    ensures ok { Spells result (kind.now ∷ decimal first ∷ decimal second ∷ []) }
    ensures memory { IfErr result (λ e. e ≡ TextFault.Memory) }
{
    let text = format!(in alloc; "{kind} {first} {second}")?;
    Ok(text)
}

/// A kind and three numbers.
fn three_numbers_text(
    alloc: Global,
    kind: &str,
    first: u64,
    second: u64,
    third: u64,
) -> Result<String, TextFault>
    ensures ok { Spells result (kind.now ∷ decimal first ∷ decimal second ∷ decimal third ∷ []) }
    ensures memory { IfErr result (λ e. e ≡ TextFault.Memory) }
{
    let text = format!(in alloc; "{kind} {first} {second} {third}")?;
    Ok(text)
}

/// A kind and a word.
fn word_text(alloc: Global, kind: &str, word: &str) -> Result<String, TextFault>
    ensures ok { Spells result (kind.now ∷ word.now ∷ []) }
    ensures memory { IfErr result (λ e. e ≡ TextFault.Memory) }
{
    let text = format!(in alloc; "{kind} {word}")?;
    Ok(text)
}

/// A kind, a word and a number.
fn place_text(alloc: Global, kind: &str, word: &str, number: u64) -> Result<String, TextFault>
    ensures ok { Spells result (kind.now ∷ word.now ∷ decimal number ∷ []) }
    ensures memory { IfErr result (λ e. e ≡ TextFault.Memory) }
{
    let text = format!(in alloc; "{kind} {word} {number}")?;
    Ok(text)
}

/// A kind and bytes.
fn bytes_text(alloc: Global, kind: &str, bytes: &[u8]) -> Result<String, AllocError>
    ensures { Spells result (kind.now ∷ hexadecimal bytes.now ∷ []) }
{
    let word = hexadecimal(alloc, bytes)?;
    format!(in alloc; "{kind} {word}")
}

/// A kind, a key and a payload.
fn record_text(alloc: Global, kind: &str, key: &[u8], payload: &[u8]) -> Result<String, AllocError>
    ensures { Spells result (kind.now ∷ hexadecimal key.now ∷ hexadecimal payload.now ∷ []) }
{
    let key = hexadecimal(alloc, key)?;
    let payload = hexadecimal(alloc, payload)?;
    format!(in alloc; "{kind} {key} {payload}")
}

/// An insert: a key, a payload, and an attribute where there is one.
fn insert_text(
    alloc: Global,
    key: &Key,
    payload: &Payload,
    attr: &Option<Attr>,
) -> Result<String, AllocError>
    ensures { Spells result (change_words (Change.Insert key.now payload.now attr.now)) }
{
    match attr {
        None => record_text(alloc, "insert", key.as_slice(), payload.as_slice()),
        Some(attr) => {
            let key = hexadecimal(alloc, key.as_slice())?;
            let payload = hexadecimal(alloc, payload.as_slice())?;
            let attr = hexadecimal(alloc, attr.as_slice())?;
            format!(in alloc; "insert {key} {payload} {attr}")
        }
    }
}

/// An addition: a key and an amount.
fn sum_text(alloc: Global, key: &[u8], amount: u64) -> Result<String, AllocError>
    ensures { Spells result (codes "add" ∷ hexadecimal key.now ∷ decimal amount ∷ []) }
{
    let key = hexadecimal(alloc, key)?;
    format!(in alloc; "add {key} {amount}")
}

/// A low key that differs from what led to it.
fn fence_text(alloc: Global, page: u64, expected: &Blob, found: &Blob) -> Result<String, TextFault>
    ensures ok { Spells result (trouble_words (Trouble.BadFence page expected.now found.now)) }
    ensures memory { IfErr result (λ e. e ≡ TextFault.Memory) }
{
    let expected = hexadecimal(alloc, expected.as_slice())?;
    let found = hexadecimal(alloc, found.as_slice())?;
    let text = format!(in alloc; "bad-fence {page} {expected} {found}")?;
    Ok(text)
}

/// The word of a rule.
pub fn refusal_word(refusal: Refusal) -> &'static str
    ensures { result.now ≡ refusal_word refusal }
{
    match refusal {
        Refusal::EmptyKey => "empty-key",
        Refusal::LongKey => "long-key",
        Refusal::LongPayload => "long-payload",
        Refusal::TooManyChanges => "too-many",
        Refusal::BadNumber => "bad-number",
        Refusal::NotOpen => "not-open",
        Refusal::AtWork => "at-work",
        Refusal::Broken => "broken",
        Refusal::AlreadyOpen => "already-open",
        Refusal::NotWorking => "not-working",
        Refusal::BadAttr => "bad-attr",
        Refusal::LongEntry => "long-entry",
    }
}

/// The word of a counter.
pub fn counter_word(counter: Counter) -> &'static str
    ensures { result.now ≡ counter_word counter }
{
    match counter {
        Counter::Epoch => "epoch",
        Counter::Txn => "txn",
        Counter::Number => "number",
        Counter::Version => "version",
        Counter::Pages => "pages",
    }
}

/// A rule's number and word.
fn refused_text(alloc: Global, refusal: Refusal) -> Result<String, TextFault>
    ensures ok { Spells result (refusal_words refusal) }
    ensures memory { IfErr result (λ e. e ≡ TextFault.Memory) }
{
    let number = refusal.number();
    let word = refusal_word(refusal);
    let text = format!(in alloc; "refused {number} {word}")?;
    Ok(text)
}

/// The text of a trouble. Want of memory has none, and is answered as such.
pub fn trouble_text(alloc: Global, trouble: &Trouble) -> Result<String, TextFault>
    ensures ok { Spells result (trouble_words trouble.now) }
    ensures some { OnOk result (HasText trouble.now) }
    ensures memory { IfErr result (λ e. e ≡ TextFault.Memory) }
{
    match trouble {
        Trouble::Failed => plain_text(alloc, "failed"),
        Trouble::Late { end, now } => two_numbers_text(alloc, "late", *end, *now),
        Trouble::Busy { lock, until } => {
            let word = lock_word(alloc, lock)?;
            place_text(alloc, "busy", word.as_str(), *until)
        }
        Trouble::Waiting { have, need } => two_numbers_text(alloc, "waiting", *have, *need),
        Trouble::Stale { page, least, got } => three_numbers_text(
            alloc,
            "stale",
            page.get(),
            *least,
            *got,
        ),
        Trouble::Absent { page } => number_text(alloc, "absent", page.get()),
        Trouble::NotALeaf { page } => number_text(alloc, "not-leaf", page.get()),
        Trouble::Damaged { place, offset } => {
            let word = place_word(alloc, place)?;
            place_text(alloc, "damaged", word.as_str(), *offset)
        }
        Trouble::BadFence {
            page,
            expected,
            found,
        } => fence_text(alloc, page.get(), expected, found),
        Trouble::Loop { page } => number_text(alloc, "loop", page.get()),
        Trouble::Exhausted { what } => word_text(alloc, "exhausted", counter_word(*what)),
        Trouble::Memory => Err(TextFault::Memory),
    }
}

/// A kind with a trouble behind it.
#[tactic(auto, using(crate::proofs::Texts::text_of_trouble))]
fn stopped_text(alloc: Global, kind: &str, trouble: &Trouble) -> Result<String, TextFault>
    ensures ok { Spells result (kind.now ∷ trouble_words trouble.now) }
    ensures some { OnOk result (HasText trouble.now) }
    ensures memory { IfErr result (λ e. e ≡ TextFault.Memory) }
{
    let trouble = trouble_text(alloc, trouble)?;
    let text = format!(in alloc; "{kind} {trouble}")?;
    Ok(text)
}

/// How a commit ended.
fn commit_text(alloc: Global, answer: &CommitAnswer) -> Result<String, TextFault>
    ensures ok { Spells result (commit_words answer.now) }
    ensures some { OnOk result (CommitHasText answer.now) }
    ensures memory { IfErr result (λ e. e ≡ TextFault.Memory) }
{
    match answer {
        CommitAnswer::Committed { txn } => number_text(alloc, "committed", *txn),
        CommitAnswer::NotCommitted(trouble) => stopped_text(alloc, "not-committed", trouble),
        CommitAnswer::InDoubt => plain_text(alloc, "in-doubt"),
        CommitAnswer::CommittedOpen(trouble) => stopped_text(alloc, "committed-open", trouble),
    }
}

/// A record of a leaf as a line.
fn stored_text(alloc: Global, stored: &Stored) -> Result<String, AllocError>
    ensures { Spells result (stored_words stored.now) }
{
    let key = hexadecimal(alloc, stored.key.as_slice())?;
    let payload = hexadecimal(alloc, stored.payload.as_slice())?;
    match &stored.attr {
        None => format!(in alloc; "{key} {payload}"),
        Some(attr) => {
            let attr = hexadecimal(alloc, attr.as_slice())?;
            format!(in alloc; "{key} {payload} {attr}")
        }
    }
}

/// A change.
fn change_text(alloc: Global, change: &Change) -> Result<String, AllocError>
    ensures { Spells result (change_words change.now) }
{
    match change {
        Change::Insert { key, payload, attr } => insert_text(alloc, key, payload, attr),
        Change::Update { key, payload } => record_text(
            alloc,
            "update",
            key.as_slice(),
            payload.as_slice(),
        ),
        Change::Delete { key } => bytes_text(alloc, "delete", key.as_slice()),
        Change::Add { key, amount } => sum_text(alloc, key.as_slice(), *amount),
    }
}

/// An entry of a report.
#[tactic(auto, using(crate::proofs::Texts::text_of_entry))]
fn entry_text(alloc: Global, entry: &Entry) -> Result<String, AllocError>
    ensures { Spells result (entry_words entry.now) }
{
    let change = change_text(alloc, &entry.change)?;
    let client = entry.client.get();
    let epoch = entry.epoch;
    let txn = entry.txn;
    format!(in alloc; "{client} {epoch} {txn} {change}")
}

/// Adds a text with a separator before it.
fn add_text(text: &mut String, separator: &str, more: &str) -> Result<(), AllocError>
    ensures { OnOk result (AddsText text.old text.new (separator.now ++ more.now)) }
{
    text.push_str(separator)?;
    text.push_str(more)?;
    Ok(())
}

/// Adds a record as a word behind a space, with no text of its own: a scan writes thousands.
fn add_pair_word(text: &mut String, key: &[u8], payload: &[u8]) -> Result<(), AllocError>
    ensures { OnOk result (AddsText text.old text.new (space ∷ pair_word (record { key = key.now; payload = payload.now }))) }
{
    text.push(' ')?;
    add_hexadecimal(text, key)?;
    text.push('=')?;
    add_hexadecimal(text, payload)
}

/// Adds each record as a word behind a space.
fn add_pair_words(text: &mut String, pairs: Pairs<'_>) -> Result<(), AllocError>
    ensures { OnOk result (AddsText text.old text.new (behind_each 32 (map pair_word pairs.entry))) }
{
    let mut left = pairs;
    while let Some((key, payload, rest)) = left.split() {
        add_pair_word(text, key, payload)?;
        left = rest;
    }
    Ok(())
}

/// Adds each record as a line behind a line feed.
fn add_contents(alloc: Global, text: &mut String, records: &[Stored]) -> Result<(), AllocError>
    ensures { OnOk result (AddsText text.old text.new (behind_each 10 (map stored_text records.now))) }
{
    let mut left = records;
    while let Some((stored, rest)) = left.split_first() {
        let line = stored_text(alloc, stored)?;
        add_text(text, "\n", line.as_str())?;
        left = rest;
    }
    Ok(())
}

/// Adds each entry as a line behind a line feed.
fn add_entries(alloc: Global, text: &mut String, entries: &[Entry]) -> Result<(), AllocError>
    ensures { OnOk result (AddsText text.old text.new (behind_each 10 (map entry_text entries.now))) }
{
    let mut left = entries;
    while let Some((entry, rest)) = left.split_first() {
        let line = entry_text(alloc, entry)?;
        add_text(text, "\n", line.as_str())?;
        left = rest;
    }
    Ok(())
}

/// Adds the line of a list's name and length behind a line feed.
fn add_count(alloc: Global, text: &mut String, name: &str, count: usize) -> Result<(), TextFault>
    ensures ok { OnOk result (AddsText text.old text.new (newline ∷ count_text name.now count)) }
    ensures memory { IfErr result (λ e. e ≡ TextFault.Memory) }
{
    let count = count as u64;
    let line = number_text(alloc, name, count)?;
    add_text(text, "\n", line.as_str())?;
    Ok(())
}

/// The lines of a report.
fn report_text(alloc: Global, report: &Report) -> Result<String, TextFault>
    ensures ok { SpellsLines result (report_lines report.now) }
    ensures memory { IfErr result (λ e. e ≡ TextFault.Memory) }
{
    let mut text = number_text(alloc, "report", report.tree.get())?;
    add_count(alloc, &mut text, "committed", report.committed.len())?;
    add_entries(alloc, &mut text, report.committed.as_slice())?;
    add_count(alloc, &mut text, "order", report.order.len())?;
    add_entries(alloc, &mut text, report.order.as_slice())?;
    add_count(alloc, &mut text, "contents", report.contents.len())?;
    add_contents(alloc, &mut text, report.contents.as_slice())?;
    let left = two_numbers_text(alloc, "left", report.heads, report.messages)?;
    add_text(&mut text, "\n", left.as_str())?;
    Ok(text)
}

/// The records of a scan.
#[tactic(auto, using(crate::proofs::Texts::text_of_scan))]
fn scan_text(alloc: Global, pairs: &PairList) -> Result<String, TextFault>
    ensures ok { Spells result (codes "scan" ∷ decimal (length pairs.now) ∷ map pair_word pairs.now) }
    ensures memory { IfErr result (λ e. e ≡ TextFault.Memory) }
{
    let count = pairs.len() as u64;
    let mut text = number_text(alloc, "scan", count)?;
    add_pair_words(&mut text, pairs.pairs())?;
    Ok(text)
}

impl Reply {
    /// The text of the reply.
    fn text(&self, alloc: Global) -> Result<String, TextFault>
        ensures ok { IfOk result (λ text. string_bytes text ≡ reply_text self.now) }
        ensures some { OnOk result (ReplyHasText self.now) }
        ensures memory { IfErr result (λ e. e ≡ TextFault.Memory) }
    {
        match self {
            Reply::Begun => plain_text(alloc, "begun"),
            Reply::Called => plain_text(alloc, "called"),
            Reply::Noted => plain_text(alloc, "noted"),
            Reply::Aborted => plain_text(alloc, "aborted"),
            Reply::Crashed => plain_text(alloc, "crashed"),
            Reply::Waited => plain_text(alloc, "waited"),
            Reply::Refused(refusal) => refused_text(alloc, *refusal),
            Reply::Opened { epoch } => number_text(alloc, "opened", *epoch),
            Reply::Closed => plain_text(alloc, "closed"),
            Reply::Renewed { end } => number_text(alloc, "renewed", *end),
            Reply::Commit(answer) => commit_text(alloc, answer),
            Reply::Done(answer) => three_numbers_text(
                alloc,
                "done",
                answer.applied,
                answer.deleted,
                answer.left,
            ),
            Reply::Value(payload) => Ok(bytes_text(alloc, "value", payload.as_slice())?),
            Reply::NoValue => plain_text(alloc, "none"),
            Reply::Scan(pairs) => scan_text(alloc, pairs),
            Reply::Settled { calls } => number_text(alloc, "settled", *calls),
            Reply::Swept { kept, removed } => two_numbers_text(alloc, "swept", *kept, *removed),
            Reply::Worked { done, passed } => two_numbers_text(alloc, "worked", *done, *passed),
            Reply::NotSettled(trouble) => stopped_text(alloc, "not-settled", trouble),
            Reply::Trouble(trouble) => trouble_text(alloc, trouble),
            Reply::Report(report) => report_text(alloc, report),
        }
    }

    /// The one text that spells the reply, without its event's number and without a line feed at its end. Memory is the
    /// one refusal, and the one answer to a reply that shows want of memory, which has no text.
    pub fn write(&self, alloc: Global) -> Result<Blob, TextFault>
        ensures ok { IfOk result (λ text. text ≡ reply_text self.now) }
        ensures some { OnOk result (ReplyHasText self.now) }
        ensures memory { IfErr result (λ e. e ≡ TextFault.Memory) }
    {
        let text = self.text(alloc)?;
        Ok(Blob::of(text.into_bytes()))
    }
}
