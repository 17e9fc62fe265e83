ghost use Rattle.std.specs.Prelude.{◌≡◌, ◌≢◌, ℕ, List, [], ◌∷◌, ◌++◌, IfOk, IfSome, IfNone};
ghost use Rattle.words.specs.Word.{Reads, IsReadTo, newline};
ghost use Rattle.words.specs.Line.{parts_of};
ghost use Rattle.event_text.specs.Reading.{alone, positions_of, wish_by, wish_of, done_of, insert_of, put_of, policy_of, event_by, session_event, event_behind, event_of_words, shell_event_of_words};
ghost use Rattle.event_text.specs.Event.{IsEvent, IsShellLine};

use crate::event::Event;
use crate::keyword::Keyword;
use crate::role_word::role_of;
use ckpt_policy::Role;
use db_base::blob::Blob;
use db_base::refusal::Refused;
use db_base::wish::{Positions, Wish};
use std::alloc::Global;
use words::fault::TextFault;
use words::parts::Parts;

/// The text before the line feed that ends a line.
fn text_before_line_feed(line: &[u8]) -> Option<&[u8]>
    ensures some { IfSome result (λ text. line.now ≡ text.now ++ newline ∷ []) }
    ensures none { IfNone result ((text : List ℕ) → line.now ≢ text ++ newline ∷ []) }
{
    line.strip_suffix(b"\n")
}

/// The positions of a `give`, 1 to 256 numbers.
#[tactic(auto, unfolding(crate::specs::Reading::positions_of))]
fn positions(alloc: Global, words: Parts<'_>) -> Result<Positions, TextFault>
    ensures { Reads result (positions_of words.entry) }
{
    let numbers = words.numbers(alloc)?;
    match Positions::new(alloc, numbers.as_slice()) {
        Ok(positions) => Ok(positions),
        Err(Refused::Rule(_)) => Err(TextFault::NotInGrammar),
        Err(Refused::Memory) => Err(TextFault::Memory),
    }
}

/// A wish behind whose first word nothing is left.
#[tactic(auto, unfolding(crate::specs::Reading::alone))]
fn wish_alone(wish: Wish, words: Parts<'_>) -> Result<Wish, TextFault>
    ensures { Reads result (alone wish words.entry) }
{
    words.end()?;
    Ok(wish)
}

/// The wish that a word begins.
#[tactic(auto, unfolding(crate::specs::Reading::wish_by))]
fn wish_by(alloc: Global, kind: &[u8], words: Parts<'_>) -> Result<Wish, TextFault>
    ensures { Reads result (wish_by kind.now words.entry) }
{
    if kind == b"plain".as_slice() {
        wish_alone(Wish::Plain, words)
    } else if kind == b"fail".as_slice() {
        wish_alone(Wish::Fail, words)
    } else if kind == b"lost".as_slice() {
        wish_alone(Wish::Lost, words)
    } else if kind == b"hide".as_slice() {
        wish_alone(Wish::Hide, words)
    } else if kind == b"old".as_slice() {
        Ok(Wish::Old(words.one_number()?))
    } else if kind == b"give".as_slice() {
        Ok(Wish::Give(positions(alloc, words)?))
    } else {
        Err(TextFault::NotInGrammar)
    }
}

/// The wish of a step.
#[tactic(auto, unfolding(crate::specs::Reading::wish_of))]
fn wish(alloc: Global, words: Parts<'_>) -> Result<Wish, TextFault>
    ensures { Reads result (wish_of words.entry) }
{
    let (kind, words) = words.word()?;
    wish_by(alloc, kind, words)
}

/// Whether `done` stands alone, or nothing.
#[tactic(auto, unfolding(crate::specs::Reading::done_of, crate::specs::Reading::alone))]
fn done(words: Parts<'_>) -> Result<bool, TextFault>
    ensures { Reads result (done_of words.entry) }
{
    let mut words = words;
    match words.next() {
        None => Ok(false),
        Some(word) => {
            if word != b"done".as_slice() {
                return Err(TextFault::NotInGrammar);
            }
            words.end()?;
            Ok(true)
        }
    }
}

/// A tree, a key, a payload, an attribute or none, and nothing else.
#[tactic(auto, unfolding(crate::specs::Reading::insert_of))]
fn insert(alloc: Global, words: Parts<'_>) -> Result<(u64, Blob, Blob, Option<Blob>), TextFault>
    ensures { Reads result (insert_of words.entry) }
{
    let (tree, words) = words.number()?;
    let (key, words) = words.bytes(alloc)?;
    let (payload, words) = words.bytes(alloc)?;
    let attr = words.last(alloc)?;
    Ok((tree, key, payload, attr))
}

/// A tree, a key, a payload, an attribute, and nothing else.
#[tactic(auto, unfolding(crate::specs::Reading::put_of))]
fn put(alloc: Global, words: Parts<'_>) -> Result<(u64, Blob, Blob, Blob), TextFault>
    ensures { Reads result (put_of words.entry) }
{
    let (tree, words) = words.number()?;
    let (key, words) = words.bytes(alloc)?;
    let (payload, words) = words.bytes(alloc)?;
    let (attr, words) = words.bytes(alloc)?;
    words.end()?;
    Ok((tree, key, payload, attr))
}

/// A role and a number, and nothing else.
#[tactic(auto, unfolding(crate::specs::Reading::policy_of))]
fn policy(words: Parts<'_>) -> Result<(Role, u64), TextFault>
    ensures { Reads result (policy_of words.entry) }
{
    let (word, words) = words.word()?;
    match role_of(word) {
        Some(role) => {
            let number = words.one_number()?;
            Ok((role, number))
        }
        None => Err(TextFault::NotInGrammar),
    }
}

/// An event behind which nothing is left.
#[tactic(auto, unfolding(crate::specs::Reading::alone))]
fn alone(event: Event, words: Parts<'_>) -> Result<Event, TextFault>
    ensures { Reads result (alone event words.entry) }
{
    words.end()?;
    Ok(event)
}

/// The event of a session that a keyword begins.
#[tactic(auto, unfolding(crate::specs::Reading::event_by))]
fn event_by(
    alloc: Global,
    keyword: Keyword,
    session: u64,
    words: Parts<'_>,
) -> Result<Event, TextFault>
    ensures { Reads result (event_by keyword session words.entry) }
{
    match keyword {
        Keyword::Open => {
            let client = words.one_number()?;
            Ok(Event::Open { session, client })
        }
        Keyword::Close => alone(Event::Close { session }, words),
        Keyword::Renew => alone(Event::Renew { session }, words),
        Keyword::Insert => {
            let (tree, key, payload, attr) = insert(alloc, words)?;
            Ok(Event::Insert {
                session,
                tree,
                key,
                payload,
                attr,
            })
        }
        Keyword::Put => {
            let (tree, key, payload, attr) = put(alloc, words)?;
            Ok(Event::Put {
                session,
                tree,
                key,
                payload,
                attr,
            })
        }
        Keyword::Update => {
            let (tree, key, payload) = words.record(alloc)?;
            Ok(Event::Update {
                session,
                tree,
                key,
                payload,
            })
        }
        Keyword::Delete => {
            let (tree, key) = words.place(alloc)?;
            Ok(Event::Delete { session, tree, key })
        }
        Keyword::Add => {
            let (tree, key, amount) = words.sum(alloc)?;
            Ok(Event::Add {
                session,
                tree,
                key,
                amount,
            })
        }
        Keyword::Commit => alone(Event::Commit { session }, words),
        Keyword::Abort => alone(Event::Abort { session }, words),
        Keyword::Read => {
            let (tree, key) = words.place(alloc)?;
            Ok(Event::Read { session, tree, key })
        }
        Keyword::Scan => {
            let (tree, from, to) = words.record(alloc)?;
            Ok(Event::Scan {
                session,
                tree,
                from,
                to,
            })
        }
        Keyword::Lookup => {
            let (tree, attr) = words.place(alloc)?;
            Ok(Event::Lookup {
                session,
                tree,
                attr,
            })
        }
        Keyword::Page => {
            let (tree, page) = words.two_numbers()?;
            Ok(Event::Page {
                session,
                tree,
                page,
            })
        }
        Keyword::Tree => {
            let tree = words.one_number()?;
            Ok(Event::Tree { session, tree })
        }
        Keyword::Policy => {
            let (role, k) = policy(words)?;
            Ok(Event::Policy { session, role, k })
        }
        Keyword::Work => alone(Event::Work { session }, words),
        Keyword::Step => {
            let wish = wish(alloc, words)?;
            Ok(Event::Step { session, wish })
        }
        Keyword::Run => alone(Event::Run { session }, words),
        Keyword::Crash => {
            let done = done(words)?;
            Ok(Event::Crash { session, done })
        }
        Keyword::Wait => Err(TextFault::NotInGrammar),
        Keyword::Report => Err(TextFault::NotInGrammar),
        Keyword::Sweep => Err(TextFault::NotInGrammar),
        Keyword::Settle => Err(TextFault::NotInGrammar),
    }
}

/// The event of a session's line behind its keyword.
#[tactic(auto, unfolding(crate::specs::Reading::session_event))]
fn session_event(alloc: Global, keyword: Keyword, words: Parts<'_>) -> Result<Event, TextFault>
    ensures { Reads result (session_event keyword words.entry) }
{
    let (session, words) = words.number()?;
    event_by(alloc, keyword, session, words)
}

/// The event of a line behind its keyword.
#[tactic(auto, unfolding(crate::specs::Reading::event_behind))]
fn event_behind(alloc: Global, keyword: Keyword, words: Parts<'_>) -> Result<Event, TextFault>
    ensures { Reads result (event_behind keyword words.entry) }
{
    match keyword {
        Keyword::Wait => {
            let ticks = words.one_number()?;
            Ok(Event::Wait { ticks })
        }
        Keyword::Report => {
            let tree = words.one_number()?;
            Ok(Event::Report { tree })
        }
        Keyword::Sweep => {
            let tree = words.one_number()?;
            Ok(Event::Sweep { tree })
        }
        Keyword::Settle => alone(Event::Settle, words),
        other => session_event(alloc, other, words),
    }
}

/// The event of the words of a line.
#[tactic(auto, unfolding(crate::specs::Reading::event_of_words))]
fn event_of_words(alloc: Global, words: Parts<'_>) -> Result<Event, TextFault>
    ensures { Reads result (event_of_words words.entry) }
{
    let (first, words) = words.word()?;
    match Keyword::of(first) {
        Some(keyword) => event_behind(alloc, keyword, words),
        None => Err(TextFault::NotInGrammar),
    }
}

/// The event of session 1 of the words of a shell's line.
#[tactic(auto, unfolding(crate::specs::Reading::shell_event_of_words))]
fn shell_event_of_words(alloc: Global, words: Parts<'_>) -> Result<Event, TextFault>
    ensures { Reads result (shell_event_of_words words.entry) }
{
    let (first, words) = words.word()?;
    match Keyword::of(first) {
        Some(keyword) => {
            if !keyword.is_shell() {
                return Err(TextFault::NotInGrammar);
            }
            event_by(alloc, keyword, 1, words)
        }
        None => Err(TextFault::NotInGrammar),
    }
}

impl Event {
    /// The event that a line spells, its line feed included; NotInGrammar exactly where it spells none.
    pub fn read(alloc: Global, line: &[u8]) -> Result<Event, TextFault>
        // What is read is spelled so.
        ensures found { IfOk result (IsEvent line.now) }
        // What is spelled so is read, unless memory runs out.
        ensures only { (event : Event) → IsEvent line.now event → IsReadTo result event }
    {
        match text_before_line_feed(line) {
            Some(text) => event_of_words(alloc, Parts::of(b' ', text)),
            None => Err(TextFault::NotInGrammar),
        }
    }

    /// The event of session 1 that a shell's line spells, its line feed included; NotInGrammar exactly where it spells none.
    pub fn read_shell(alloc: Global, line: &[u8]) -> Result<Event, TextFault>
        // What is read is spelled so.
        ensures found { IfOk result (IsShellLine line.now) }
        // What is spelled so is read, unless memory runs out.
        ensures only { (event : Event) → IsShellLine line.now event → IsReadTo result event }
    {
        match text_before_line_feed(line) {
            Some(text) => shell_event_of_words(alloc, Parts::of(b' ', text)),
            None => Err(TextFault::NotInGrammar),
        }
    }
}
