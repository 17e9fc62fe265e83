ghost use Rattle.std.specs.Prelude.{◌≡◌};
ghost use Rattle.words.specs.Word.{Reads};
ghost use Rattle.reply_reading.specs.Kind.{counter_of};
ghost use Rattle.reply_reading.specs.Reading.{busy_of, stale_of, damaged_of, fence_of, exhausted_of, trouble_by, trouble_behind, trouble_of};

use crate::read_name::{lock_of, page_alone, page_of, place_of};
use crate::trouble_kind::TroubleKind;
use db_base::trouble::{Counter, Trouble};
use reply_text::write::counter_word;
use std::alloc::Global;
use words::fault::TextFault;
use words::parts::Parts;

/// All counters.
const COUNTERS: [Counter; 5] = [
    Counter::Epoch,
    Counter::Txn,
    Counter::Number,
    Counter::Version,
    Counter::Pages,
];

/// The counter that a word names, where it names one. Takes no memory.
fn counter_of(word: &[u8]) -> Option<Counter>
    ensures { result ≡ counter_of word.now }
{
    COUNTERS
        .iter()
        .find(|c| counter_word(**c).as_bytes() == word)
        .copied()
}

/// A lock, a number and nothing else.
#[tactic(auto, unfolding(crate::specs::Reading::busy_of))]
fn busy(words: Parts<'_>) -> Result<Trouble, TextFault>
    ensures { Reads result (busy_of words.entry) }
{
    let (word, words) = words.word()?;
    let lock = lock_of(word)?;
    let until = words.one_number()?;
    Ok(Trouble::Busy { lock, until })
}

/// A page, two numbers and nothing else.
#[tactic(auto, unfolding(crate::specs::Reading::stale_of))]
fn stale(words: Parts<'_>) -> Result<Trouble, TextFault>
    ensures { Reads result (stale_of words.entry) }
{
    let (page, least, got) = words.three_numbers()?;
    let page = page_of(page)?;
    Ok(Trouble::Stale { page, least, got })
}

/// A place, a number and nothing else.
#[tactic(auto, unfolding(crate::specs::Reading::damaged_of))]
fn damaged(words: Parts<'_>) -> Result<Trouble, TextFault>
    ensures { Reads result (damaged_of words.entry) }
{
    let (word, words) = words.word()?;
    let place = place_of(word)?;
    let offset = words.one_number()?;
    Ok(Trouble::Damaged { place, offset })
}

/// A page, bytes twice and nothing else.
#[tactic(auto, unfolding(crate::specs::Reading::fence_of))]
fn bad_fence(alloc: Global, words: Parts<'_>) -> Result<Trouble, TextFault>
    ensures { Reads result (fence_of words.entry) }
{
    let (page, words) = words.number()?;
    let (expected, words) = words.bytes(alloc)?;
    let (found, words) = words.bytes(alloc)?;
    words.end()?;
    let page = page_of(page)?;
    Ok(Trouble::BadFence {
        page,
        expected,
        found,
    })
}

/// A counter and nothing else.
#[tactic(auto, unfolding(crate::specs::Reading::exhausted_of))]
fn exhausted(words: Parts<'_>) -> Result<Trouble, TextFault>
    ensures { Reads result (exhausted_of words.entry) }
{
    let (word, words) = words.word()?;
    words.end()?;
    match counter_of(word) {
        Some(what) => Ok(Trouble::Exhausted { what }),
        None => Err(TextFault::NotInGrammar),
    }
}

/// The trouble that a kind begins.
#[tactic(auto, unfolding(crate::specs::Reading::trouble_by, crate::specs::Reading::alone))]
fn trouble_by(alloc: Global, kind: TroubleKind, words: Parts<'_>) -> Result<Trouble, TextFault>
    ensures { Reads result (trouble_by kind words.entry) }
{
    match kind {
        TroubleKind::Failed => {
            words.end()?;
            Ok(Trouble::Failed)
        }
        TroubleKind::Late => {
            let (end, now) = words.two_numbers()?;
            Ok(Trouble::Late { end, now })
        }
        TroubleKind::Busy => busy(words),
        TroubleKind::Waiting => {
            let (have, need) = words.two_numbers()?;
            Ok(Trouble::Waiting { have, need })
        }
        TroubleKind::Stale => stale(words),
        TroubleKind::Absent => {
            let page = page_alone(words)?;
            Ok(Trouble::Absent { page })
        }
        TroubleKind::NotALeaf => {
            let page = page_alone(words)?;
            Ok(Trouble::NotALeaf { page })
        }
        TroubleKind::Damaged => damaged(words),
        TroubleKind::BadFence => bad_fence(alloc, words),
        TroubleKind::Loop => {
            let page = page_alone(words)?;
            Ok(Trouble::Loop { page })
        }
        TroubleKind::Exhausted => exhausted(words),
    }
}

/// The trouble of a first word and those behind it.
#[tactic(auto, unfolding(crate::specs::Reading::trouble_behind))]
pub fn trouble_behind(alloc: Global, word: &[u8], words: Parts<'_>) -> Result<Trouble, TextFault>
    ensures { Reads result (trouble_behind word.now words.entry) }
{
    match TroubleKind::of(word) {
        Some(kind) => trouble_by(alloc, kind, words),
        None => Err(TextFault::NotInGrammar),
    }
}

/// The trouble of words.
#[tactic(auto, unfolding(crate::specs::Reading::trouble_of))]
pub fn trouble_of(alloc: Global, words: Parts<'_>) -> Result<Trouble, TextFault>
    ensures { Reads result (trouble_of words.entry) }
{
    let (word, words) = words.word()?;
    trouble_behind(alloc, word, words)
}
