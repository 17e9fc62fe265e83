ghost use Rattle.std.specs.Prelude.{◌≡◌, ◌↔◌, ◌∷◌, [], IfSome, IfNone};
ghost use Rattle.std.specs.Option.{option_copied, option_map};
ghost use Rattle.words.specs.Word.{Reads, ReadsBy};
ghost use Rattle.words.specs.Line.{parts_of, parts_left, word_at, number_at, bytes_at, end_at, last_of, numbers_of, one_of, two_of, three_of, place_of, record_of, sum_of};

use crate::bytes::bytes_of;
use crate::fault::TextFault;
use crate::number::number_of;
use db_base::blob::Blob;
use std::alloc::Global;
use std::marker::Model;

/// The parts of a text between separators that are not taken yet, seen as the list of them.
#[derive(Drop)]
pub struct Parts<'a> {
    separator: u8,
    left: Option<&'a [u8]>,
}

impl<'a> Model for Parts<'a> {
    ghost use Rattle.std.specs.Prelude.{List, ℕ};
    ghost use Rattle.std.specs.Option.{option_copied};
    ghost use Rattle.words.specs.Line.{parts_left};

    ghost Value = { List (List ℕ) };

    ghost view = { λ p. parts_left p.separator (option_copied p.left) };
}

/// The text before the first separator, and the text after it where there is one.
fn split_first(separator: u8, text: &[u8]) -> (&[u8], Option<&[u8]>)
    ensures { parts_of separator text.now ≡ result.0.now ∷ parts_left separator (option_copied result.1) }
{
    match text.iter().position(|b| *b == separator) {
        None => (text, None),
        Some(at) => (&text[..at], Some(&text[at + 1..])),
    }
}

impl<'a> Parts<'a> {
    /// The parts of a text, of which there is at least one.
    pub fn of(separator: u8, text: &'a [u8]) -> Parts<'a>
        ensures { result ≡ parts_of separator text.now }
    {
        Parts {
            separator,
            left: Some(text),
        }
    }

    /// Takes the next part, where one is left.
    pub fn next(&mut self) -> Option<&'a [u8]>
        ensures some { IfSome result (λ w. self.old ≡ w.now ∷ self.new) }
        ensures none { IfNone result (self.old ≡ []) }
    {
        match self.left {
            None => None,
            Some(text) => {
                let (word, left) = split_first(self.separator, text);
                self.left = left;
                Some(word)
            }
        }
    }

    /// The next part, and the parts behind it; NotInGrammar exactly where none is left. Takes no memory.
    #[tactic(auto, unfolding(crate::specs::Line::word_at))]
    pub fn word(self) -> Result<(&'a [u8], Parts<'a>), TextFault>
        ensures value { ReadsBy (λ x. (x.0.now, x.1)) result (word_at self.entry) }
        ensures memory { result ≡ Err TextFault.Memory → ⊥ }
    {
        let Parts { separator, left } = self;
        match left {
            None => Err(TextFault::NotInGrammar),
            Some(text) => {
                let (word, left) = split_first(separator, text);
                Ok((word, Parts { separator, left }))
            }
        }
    }

    /// The next part as a number, and the parts behind it. Takes no memory.
    #[tactic(auto, unfolding(crate::specs::Line::word_at, crate::specs::Line::number_at))]
    pub fn number(self) -> Result<(u64, Parts<'a>), TextFault>
        ensures value { Reads result (number_at self.entry) }
        ensures memory { result ≡ Err TextFault.Memory → ⊥ }
    {
        let (word, left) = self.word()?;
        match number_of(word) {
            Some(number) => Ok((number, left)),
            None => Err(TextFault::NotInGrammar),
        }
    }

    /// The next part as bytes in hexadecimal, and the parts behind it.
    #[tactic(auto, unfolding(crate::specs::Line::word_at, crate::specs::Line::bytes_at))]
    pub fn bytes(self, alloc: Global) -> Result<(Blob, Parts<'a>), TextFault>
        ensures { Reads result (bytes_at self.entry) }
    {
        let (word, left) = self.word()?;
        Ok((bytes_of(alloc, word)?, left))
    }

    /// NotInGrammar exactly where a part is left. Takes no memory.
    #[tactic(auto, unfolding(crate::specs::Line::word_at, crate::specs::Line::end_at))]
    pub fn end(self) -> Result<(), TextFault>
        ensures value { Reads result (end_at self.entry) }
        ensures memory { result ≡ Err TextFault.Memory → ⊥ }
    {
        let Parts { separator: _, left } = self;
        match left {
            None => Ok(()),
            Some(_) => Err(TextFault::NotInGrammar),
        }
    }

    /// The last part as bytes in hexadecimal, or none where no part is left; NotInGrammar where another part is behind it.
    #[tactic(auto, unfolding(crate::specs::Line::last_of))]
    pub fn last(self, alloc: Global) -> Result<Option<Blob>, TextFault>
        ensures { Reads result (last_of self.entry) }
    {
        let mut left = self;
        match left.next() {
            None => Ok(None),
            Some(word) => {
                let bytes = bytes_of(alloc, word)?;
                left.end()?;
                Ok(Some(bytes))
            }
        }
    }

    /// All parts as numbers.
    pub fn numbers(self, alloc: Global) -> Result<Vec<u64>, TextFault>
        ensures { ReadsBy (λ v. v.items) result (numbers_of self.entry) }
    {
        let mut left = self;
        let mut numbers = Vec::new(alloc);
        while let Some(word) = left.next() {
            match number_of(word) {
                Some(number) => numbers.push(number)?,
                None => return Err(TextFault::NotInGrammar),
            }
        }
        Ok(numbers)
    }

    /// One number and nothing else. Takes no memory.
    #[tactic(auto, unfolding(crate::specs::Line::one_of))]
    pub fn one_number(self) -> Result<u64, TextFault>
        ensures value { Reads result (one_of self.entry) }
        ensures memory { result ≡ Err TextFault.Memory → ⊥ }
    {
        let (number, left) = self.number()?;
        left.end()?;
        Ok(number)
    }

    /// Two numbers and nothing else. Takes no memory.
    #[tactic(auto, unfolding(crate::specs::Line::two_of))]
    pub fn two_numbers(self) -> Result<(u64, u64), TextFault>
        ensures value { Reads result (two_of self.entry) }
        ensures memory { result ≡ Err TextFault.Memory → ⊥ }
    {
        let (first, left) = self.number()?;
        let (second, left) = left.number()?;
        left.end()?;
        Ok((first, second))
    }

    /// Three numbers and nothing else. Takes no memory.
    #[tactic(auto, unfolding(crate::specs::Line::three_of))]
    pub fn three_numbers(self) -> Result<(u64, u64, u64), TextFault>
        ensures value { Reads result (three_of self.entry) }
        ensures memory { result ≡ Err TextFault.Memory → ⊥ }
    {
        let (first, left) = self.number()?;
        let (second, left) = left.number()?;
        let (third, left) = left.number()?;
        left.end()?;
        Ok((first, second, third))
    }

    /// A number, bytes in hexadecimal, and nothing else.
    #[tactic(auto, unfolding(crate::specs::Line::place_of))]
    pub fn place(self, alloc: Global) -> Result<(u64, Blob), TextFault>
        ensures { Reads result (place_of self.entry) }
    {
        let (number, left) = self.number()?;
        let (bytes, left) = left.bytes(alloc)?;
        left.end()?;
        Ok((number, bytes))
    }

    /// A number, bytes in hexadecimal, a number, and nothing else.
    #[tactic(auto, unfolding(crate::specs::Line::sum_of))]
    pub fn sum(self, alloc: Global) -> Result<(u64, Blob, u64), TextFault>
        ensures { Reads result (sum_of self.entry) }
    {
        let (number, left) = self.number()?;
        let (bytes, left) = left.bytes(alloc)?;
        let (amount, left) = left.number()?;
        left.end()?;
        Ok((number, bytes, amount))
    }

    /// A number, bytes in hexadecimal twice, and nothing else.
    #[tactic(auto, unfolding(crate::specs::Line::record_of))]
    pub fn record(self, alloc: Global) -> Result<(u64, Blob, Blob), TextFault>
        ensures { Reads result (record_of self.entry) }
    {
        let (number, left) = self.number()?;
        let (first, left) = left.bytes(alloc)?;
        let (second, left) = left.bytes(alloc)?;
        left.end()?;
        Ok((number, first, second))
    }
}
