//! The lines of a dump, one by one.

ghost use Rattle.std.specs.Prelude.{◌≡◌, ◌∷◌, ◌++◌, IfSome, IfNone};
ghost use Rattle.words.specs.Word.{Reads, newline};
ghost use Rattle.dump_text.specs.BadLine.{line_feeds};
ghost use Rattle.dump_text.specs.Words.{tree_of_words, stored_of_words};

use report_types::stored::Stored;
use std::alloc::Global;
use words::fault::TextFault;
use words::parts::Parts;

/// The text before the first line feed, and the text behind it; none where there is no line feed.
pub(crate) fn split_line(text: &[u8]) -> Option<(&[u8], &[u8])>
    ensures some { IfSome result (λ x. text.now ≡ x.0.now ++ newline ∷ x.1.now) }
    ensures first { IfSome result (λ x. line_feeds x.0.now ≡ 0) }
    ensures none { IfNone result (line_feeds text.now ≡ 0) }
{
    match text.iter().position(|b| *b == b'\n') {
        None => None,
        Some(at) => Some((&text[..at], &text[at + 1..])),
    }
}

/// The tree and the number of records of a tree's line. Takes no memory.
#[tactic(auto, unfolding(words::specs::Line::word_at, crate::specs::Words::tree_of_words))]
pub(crate) fn tree_of_words(words: Parts<'_>) -> Result<(u64, u64), TextFault>
    ensures value { Reads result (tree_of_words words.entry) }
    ensures memory { result ≡ Err TextFault.Memory → ⊥ }
{
    let (first, words) = words.word()?;
    if first != b"tree".as_slice() {
        return Err(TextFault::NotInGrammar);
    }
    words.two_numbers()
}

/// The record of a record's line, whatever its lengths.
#[tactic(auto, unfolding(crate::specs::Words::stored_of_words))]
pub(crate) fn stored_of_words(alloc: Global, words: Parts<'_>) -> Result<Stored, TextFault>
    ensures { Reads result (stored_of_words words.entry) }
{
    let (key, words) = words.bytes(alloc)?;
    let (payload, words) = words.bytes(alloc)?;
    let attr = words.last(alloc)?;
    Ok(Stored { key, payload, attr })
}
