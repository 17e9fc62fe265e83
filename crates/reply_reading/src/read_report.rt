ghost use Rattle.std.specs.Prelude.{◌≡◌};
ghost use Rattle.words.specs.Word.{Reads};
ghost use Rattle.reply_reading.specs.Counted.{counted, pair_of, pair_by, stored_of, stored_by, scan_of, key_of, payload_of, attr_of, key_alone, record_alone, insert_alone, sum_alone, change_by, change_of, entry_of, entry_by, named, count_at, section_at, left_of, report_of};

use crate::read_name::{client_of, tree_alone};
use db_base::attr::Attr;
use db_base::blob::Blob;
use db_base::change::Change;
use db_base::ids::TreeId;
use db_base::key::{Key, Payload};
use db_base::pair::Pair;
use db_base::refusal::Refused;
use report_types::entry::Entry;
use report_types::entry_log::EntryLog;
use report_types::pair_list::PairList;
use report_types::report::Report;
use report_types::stored::Stored;
use report_types::stored_list::StoredList;
use std::alloc::Global;
use words::fault::TextFault;
use words::parts::Parts;

/// A record of a key, a payload and nothing else.
#[tactic(auto, unfolding(crate::specs::Counted::pair_of))]
fn pair_of(alloc: Global, parts: Parts<'_>) -> Result<Pair, TextFault>
    ensures { Reads result (pair_of parts.entry) }
{
    let (key, parts) = parts.bytes(alloc)?;
    let (payload, parts) = parts.bytes(alloc)?;
    parts.end()?;
    Ok(Pair { key, payload })
}

/// So many texts, each as a record with a separator between key and payload, and the texts behind them.
fn pairs_at<'a>(
    alloc: Global,
    separator: u8,
    count: u64,
    texts: Parts<'a>,
) -> Result<(PairList, Parts<'a>), TextFault>
    ensures { Reads result (counted (pair_by separator) count texts.entry) }
{
    let mut pairs = PairList::new(alloc);
    let mut left = texts;
    let mut missing = count;
    while missing > 0 {
        let (text, rest) = left.word()?;
        let pair = pair_of(alloc, Parts::of(separator, text))?;
        pairs.add(pair.key.as_slice(), pair.payload.as_slice())?;
        left = rest;
        missing -= 1;
    }
    Ok((pairs, left))
}

/// A record of a key, a payload, an attribute or none, and nothing else.
#[tactic(auto, unfolding(crate::specs::Counted::stored_of))]
fn stored_of(alloc: Global, words: Parts<'_>) -> Result<Stored, TextFault>
    ensures { Reads result (stored_of words.entry) }
{
    let (key, words) = words.bytes(alloc)?;
    let (payload, words) = words.bytes(alloc)?;
    let attr = words.last(alloc)?;
    Ok(Stored { key, payload, attr })
}

/// So many lines, each as a record of a leaf, and the lines behind them.
fn records_at<'a>(
    alloc: Global,
    count: u64,
    lines: Parts<'a>,
) -> Result<(StoredList, Parts<'a>), TextFault>
    ensures { Reads result (counted stored_by count lines.entry) }
{
    let mut records = StoredList::new(alloc);
    let mut left = lines;
    let mut missing = count;
    while missing > 0 {
        let (line, rest) = left.word()?;
        let stored = stored_of(alloc, Parts::of(b' ', line))?;
        records.push(stored)?;
        left = rest;
        missing -= 1;
    }
    Ok((records, left))
}

/// The records of a scan: a number, so many records as words, and nothing else.
#[tactic(auto, unfolding(crate::specs::Counted::scan_of))]
pub fn scan_of(alloc: Global, words: Parts<'_>) -> Result<PairList, TextFault>
    ensures { Reads result (scan_of words.entry) }
{
    let (count, words) = words.number()?;
    let (pairs, words) = pairs_at(alloc, b'=', count, words)?;
    words.end()?;
    Ok(pairs)
}

/// Bytes as a key, of which there are 1 to 64.
#[tactic(auto, unfolding(crate::specs::Counted::key_of))]
fn key_of(alloc: Global, bytes: &Blob) -> Result<Key, TextFault>
    ensures { Reads result (key_of bytes.now) }
{
    match Key::new(alloc, bytes.as_slice()) {
        Ok(key) => Ok(key),
        Err(Refused::Rule(_)) => Err(TextFault::NotInGrammar),
        Err(Refused::Memory) => Err(TextFault::Memory),
    }
}

/// Bytes as a payload, of which there are at most 1,024.
#[tactic(auto, unfolding(crate::specs::Counted::payload_of))]
fn payload_of(alloc: Global, bytes: &Blob) -> Result<Payload, TextFault>
    ensures { Reads result (payload_of bytes.now) }
{
    match Payload::new(alloc, bytes.as_slice()) {
        Ok(payload) => Ok(payload),
        Err(Refused::Rule(_)) => Err(TextFault::NotInGrammar),
        Err(Refused::Memory) => Err(TextFault::Memory),
    }
}

/// Bytes as an attribute, of which there are 1 to 32, or none.
#[tactic(auto, unfolding(crate::specs::Counted::attr_of))]
fn attr_of(alloc: Global, bytes: &Option<Blob>) -> Result<Option<Attr>, TextFault>
    ensures { Reads result (attr_of bytes.now) }
{
    match bytes {
        None => Ok(None),
        Some(bytes) => match Attr::new(alloc, bytes.as_slice()) {
            Ok(attr) => Ok(Some(attr)),
            Err(Refused::Rule(_)) => Err(TextFault::NotInGrammar),
            Err(Refused::Memory) => Err(TextFault::Memory),
        },
    }
}

/// A key and nothing else.
#[tactic(auto, unfolding(crate::specs::Counted::key_alone))]
fn key_alone(alloc: Global, words: Parts<'_>) -> Result<Key, TextFault>
    ensures { Reads result (key_alone words.entry) }
{
    let (key, words) = words.bytes(alloc)?;
    words.end()?;
    key_of(alloc, &key)
}

/// A key, a payload and nothing else.
#[tactic(auto, unfolding(crate::specs::Counted::record_alone))]
fn record_alone(alloc: Global, words: Parts<'_>) -> Result<(Key, Payload), TextFault>
    ensures { Reads result (record_alone words.entry) }
{
    let (key, words) = words.bytes(alloc)?;
    let (payload, words) = words.bytes(alloc)?;
    words.end()?;
    let key = key_of(alloc, &key)?;
    let payload = payload_of(alloc, &payload)?;
    Ok((key, payload))
}

/// A key, a payload, an attribute or none, and nothing else.
#[tactic(auto, unfolding(crate::specs::Counted::insert_alone))]
fn insert_alone(alloc: Global, words: Parts<'_>) -> Result<(Key, Payload, Option<Attr>), TextFault>
    ensures { Reads result (insert_alone words.entry) }
{
    let (key, words) = words.bytes(alloc)?;
    let (payload, words) = words.bytes(alloc)?;
    let attr = words.last(alloc)?;
    let key = key_of(alloc, &key)?;
    let payload = payload_of(alloc, &payload)?;
    let attr = attr_of(alloc, &attr)?;
    Ok((key, payload, attr))
}

/// A key, an amount and nothing else.
#[tactic(auto, unfolding(crate::specs::Counted::sum_alone))]
fn sum_alone(alloc: Global, words: Parts<'_>) -> Result<(Key, u64), TextFault>
    ensures { Reads result (sum_alone words.entry) }
{
    let (key, words) = words.bytes(alloc)?;
    let (amount, words) = words.number()?;
    words.end()?;
    let key = key_of(alloc, &key)?;
    Ok((key, amount))
}

/// The change that a word begins.
#[tactic(auto, unfolding(crate::specs::Counted::change_by))]
fn change_by(alloc: Global, kind: &[u8], words: Parts<'_>) -> Result<Change, TextFault>
    ensures { Reads result (change_by kind.now words.entry) }
{
    if kind == b"insert".as_slice() {
        let (key, payload, attr) = insert_alone(alloc, words)?;
        Ok(Change::Insert { key, payload, attr })
    } else if kind == b"update".as_slice() {
        let (key, payload) = record_alone(alloc, words)?;
        Ok(Change::Update { key, payload })
    } else if kind == b"delete".as_slice() {
        let key = key_alone(alloc, words)?;
        Ok(Change::Delete { key })
    } else if kind == b"add".as_slice() {
        let (key, amount) = sum_alone(alloc, words)?;
        Ok(Change::Add { key, amount })
    } else {
        Err(TextFault::NotInGrammar)
    }
}

/// The change of words.
#[tactic(auto, unfolding(crate::specs::Counted::change_of))]
fn change_of(alloc: Global, words: Parts<'_>) -> Result<Change, TextFault>
    ensures { Reads result (change_of words.entry) }
{
    let (kind, words) = words.word()?;
    change_by(alloc, kind, words)
}

/// An entry of a tree.
#[tactic(auto, unfolding(crate::specs::Counted::entry_of))]
fn entry_of(alloc: Global, tree: TreeId, words: Parts<'_>) -> Result<Entry, TextFault>
    ensures { Reads result (entry_of tree words.entry) }
{
    let (client, words) = words.number()?;
    let client = client_of(client)?;
    let (epoch, words) = words.number()?;
    let (txn, words) = words.number()?;
    let change = change_of(alloc, words)?;
    Ok(Entry {
        client,
        epoch,
        txn,
        tree,
        change,
    })
}

/// So many lines, each as an entry of a tree, and the lines behind them.
fn entries_at<'a>(
    alloc: Global,
    tree: TreeId,
    count: u64,
    lines: Parts<'a>,
) -> Result<(EntryLog, Parts<'a>), TextFault>
    ensures { Reads result (counted (entry_by tree) count lines.entry) }
{
    let mut entries = EntryLog::new(alloc);
    let mut left = lines;
    let mut missing = count;
    while missing > 0 {
        let (line, rest) = left.word()?;
        let entry = entry_of(alloc, tree, Parts::of(b' ', line))?;
        entries.push(entry)?;
        left = rest;
        missing -= 1;
    }
    Ok((entries, left))
}

/// The words behind a name. Takes no memory.
#[tactic(auto, unfolding(crate::specs::Counted::named))]
fn named<'a>(name: &[u8], words: Parts<'a>) -> Result<Parts<'a>, TextFault>
    ensures { Reads result (named name.now words.entry) }
{
    let (word, words) = words.word()?;
    if word != name {
        return Err(TextFault::NotInGrammar);
    }
    Ok(words)
}

/// The number of a line with a name, and the lines behind it.
#[tactic(auto, unfolding(crate::specs::Counted::count_at))]
fn count_at<'a>(name: &[u8], lines: Parts<'a>) -> Result<(u64, Parts<'a>), TextFault>
    ensures { Reads result (count_at name.now lines.entry) }
{
    let (line, lines) = lines.word()?;
    let words = named(name, Parts::of(b' ', line))?;
    let count = words.one_number()?;
    Ok((count, lines))
}

/// A list of entries behind the line of its name and length, and the lines behind it.
#[tactic(auto, unfolding(crate::specs::Counted::section_at))]
fn entries_of<'a>(
    alloc: Global,
    tree: TreeId,
    name: &[u8],
    lines: Parts<'a>,
) -> Result<(EntryLog, Parts<'a>), TextFault>
    ensures { Reads result (section_at (entry_by tree) name.now lines.entry) }
{
    let (count, lines) = count_at(name, lines)?;
    entries_at(alloc, tree, count, lines)
}

/// A list of records behind the line of its name and length, and the lines behind it.
#[tactic(auto, unfolding(crate::specs::Counted::section_at))]
fn records_of<'a>(
    alloc: Global,
    name: &[u8],
    lines: Parts<'a>,
) -> Result<(StoredList, Parts<'a>), TextFault>
    ensures { Reads result (section_at stored_by name.now lines.entry) }
{
    let (count, lines) = count_at(name, lines)?;
    records_at(alloc, count, lines)
}

/// The last line of a report: how many heads and messages are left.
#[tactic(auto, unfolding(crate::specs::Counted::left_of))]
fn left_of(lines: Parts<'_>) -> Result<(u64, u64), TextFault>
    ensures { Reads result (left_of lines.entry) }
{
    let (line, lines) = lines.word()?;
    lines.end()?;
    let words = named(b"left", Parts::of(b' ', line))?;
    words.two_numbers()
}

/// The report of the words behind its first one, and of its other lines.
#[tactic(auto, unfolding(crate::specs::Counted::report_of))]
pub fn report_of(alloc: Global, words: Parts<'_>, lines: Parts<'_>) -> Result<Report, TextFault>
    ensures { Reads result (report_of words.entry lines.entry) }
{
    let tree = tree_alone(words)?;
    let (committed, lines) = entries_of(alloc, tree, b"committed", lines)?;
    let (order, lines) = entries_of(alloc, tree, b"order", lines)?;
    let (contents, lines) = records_of(alloc, b"contents", lines)?;
    let (heads, messages) = left_of(lines)?;
    Ok(Report {
        tree,
        committed,
        order,
        contents,
        heads,
        messages,
    })
}
