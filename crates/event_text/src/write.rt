ghost use Rattle.std.specs.Prelude.{◌≡◌, [], ◌∷◌, IfOk, IfErr};
ghost use Rattle.std.specs.Fmt.{decimal};
ghost use Rattle.std.specs.String.{string_bytes};
ghost use Rattle.words.specs.Word.{hexadecimal};
ghost use Rattle.event_text.specs.RoleWord.{role_text};
ghost use Rattle.event_text.specs.Event.{event_words, Spells, spelling};

use crate::event::Event;
use crate::role_word::role_text;
use ckpt_policy::Role;
use db_base::blob::Blob;
use db_base::wish::Wish;
use std::alloc::{AllocError, Global};
use words::bytes::hexadecimal;
use words::fault::TextFault;

/// The line of a keyword and a number.
fn number_line(alloc: Global, keyword: &str, number: u64) -> Result<String, AllocError>
    ensures { Spells result (keyword.now ∷ decimal number ∷ []) }
{
    let line = format!(in alloc; "{keyword} {number}\n")?;
    Ok(line)
}

/// The line of a keyword and two numbers.
fn two_numbers_line(
    alloc: Global,
    keyword: &str,
    first: u64,
    second: u64,
) -> Result<String, AllocError>
    ensures { Spells result (keyword.now ∷ decimal first ∷ decimal second ∷ []) }
{
    let line = format!(in alloc; "{keyword} {first} {second}\n")?;
    Ok(line)
}

/// The line of a keyword and three numbers.
fn three_numbers_line(
    alloc: Global,
    keyword: &str,
    first: u64,
    second: u64,
    third: u64,
) -> Result<String, AllocError>
    ensures { Spells result (keyword.now ∷ decimal first ∷ decimal second ∷ decimal third ∷ []) }
{
    let line = format!(in alloc; "{keyword} {first} {second} {third}\n")?;
    Ok(line)
}

/// The line of a keyword, a number and a word.
fn word_line(alloc: Global, keyword: &str, number: u64, word: &str) -> Result<String, AllocError>
    ensures { Spells result (keyword.now ∷ decimal number ∷ word.now ∷ []) }
{
    let line = format!(in alloc; "{keyword} {number} {word}\n")?;
    Ok(line)
}

/// The line of a policy: a session, a role and a number.
fn policy_line(alloc: Global, session: u64, role: Role, k: u64) -> Result<String, AllocError>
    ensures { Spells result (event_words (Event.Policy session role k)) }
{
    let role = role_text(role);
    let line = format!(in alloc; "policy {session} {role} {k}\n")?;
    Ok(line)
}

/// The line of a step under a wish for a landed version.
fn old_line(alloc: Global, session: u64, version: u64) -> Result<String, AllocError>
    ensures { Spells result (event_words (Event.Step session (Wish.Old version))) }
{
    let line = format!(in alloc; "step {session} old {version}\n")?;
    Ok(line)
}

/// The line of a keyword, a session, a tree, and a key or an attribute.
fn place_line(
    alloc: Global,
    keyword: &str,
    session: u64,
    tree: u64,
    key: &Blob,
) -> Result<String, AllocError>
    ensures { Spells result (keyword.now ∷ decimal session ∷ decimal tree ∷ hexadecimal key.now ∷ []) }
{
    let key = hexadecimal(alloc, key.as_slice())?;
    let line = format!(in alloc; "{keyword} {session} {tree} {key}\n")?;
    Ok(line)
}

/// The line of an addition: a session, a tree, a key and an amount.
fn add_line(
    alloc: Global,
    session: u64,
    tree: u64,
    key: &Blob,
    amount: u64,
) -> Result<String, AllocError>
    ensures { Spells result (event_words (Event.Add session tree key.now amount)) }
{
    let key = hexadecimal(alloc, key.as_slice())?;
    let line = format!(in alloc; "add {session} {tree} {key} {amount}\n")?;
    Ok(line)
}

/// The line of a keyword, a session, a tree and bytes twice.
fn record_line(
    alloc: Global,
    keyword: &str,
    session: u64,
    tree: u64,
    first: &Blob,
    second: &Blob,
) -> Result<String, AllocError>
    ensures { Spells result (keyword.now ∷ decimal session ∷ decimal tree ∷ hexadecimal first.now ∷ hexadecimal second.now ∷ []) }
{
    let first = hexadecimal(alloc, first.as_slice())?;
    let second = hexadecimal(alloc, second.as_slice())?;
    let line = format!(in alloc; "{keyword} {session} {tree} {first} {second}\n")?;
    Ok(line)
}

/// The line of an insert: a session, a tree, a key, a payload, and an attribute where there is one.
fn insert_line(
    alloc: Global,
    session: u64,
    tree: u64,
    key: &Blob,
    payload: &Blob,
    attr: &Option<Blob>,
) -> Result<String, AllocError>
    ensures { Spells result (event_words (Event.Insert session tree key.now payload.now attr.now)) }
{
    match attr {
        None => record_line(alloc, "insert", session, tree, key, payload),
        Some(attr) => {
            let key = hexadecimal(alloc, key.as_slice())?;
            let payload = hexadecimal(alloc, payload.as_slice())?;
            let attr = hexadecimal(alloc, attr.as_slice())?;
            let line = format!(in alloc; "insert {session} {tree} {key} {payload} {attr}\n")?;
            Ok(line)
        }
    }
}

/// The line of a record that is put: a session, a tree, a key, a payload and an attribute.
fn put_line(
    alloc: Global,
    session: u64,
    tree: u64,
    key: &Blob,
    payload: &Blob,
    attr: &Blob,
) -> Result<String, AllocError>
    ensures { Spells result (event_words (Event.Put session tree key.now payload.now attr.now)) }
{
    let key = hexadecimal(alloc, key.as_slice())?;
    let payload = hexadecimal(alloc, payload.as_slice())?;
    let attr = hexadecimal(alloc, attr.as_slice())?;
    let line = format!(in alloc; "put {session} {tree} {key} {payload} {attr}\n")?;
    Ok(line)
}

/// The line of a step under a wish that names positions.
fn give_line(alloc: Global, session: u64, positions: &[u64]) -> Result<String, AllocError>
    ensures { Spells result (event_words (Event.Step session (Wish.Give positions.now))) }
{
    let mut line = format!(in alloc; "step {session} give")?;
    let mut left = positions;
    while let Some((position, rest)) = left.split_first() {
        let word = format!(in alloc; " {position}")?;
        line.push_str(word.as_str())?;
        left = rest;
    }
    line.push('\n')?;
    Ok(line)
}

/// The line of a step.
fn step_line(alloc: Global, session: u64, wish: &Wish) -> Result<String, AllocError>
    ensures { Spells result (event_words (Event.Step session wish.now)) }
{
    match wish {
        Wish::Plain => word_line(alloc, "step", session, "plain"),
        Wish::Fail => word_line(alloc, "step", session, "fail"),
        Wish::Lost => word_line(alloc, "step", session, "lost"),
        Wish::Hide => word_line(alloc, "step", session, "hide"),
        Wish::Old(version) => old_line(alloc, session, *version),
        Wish::Give(positions) => give_line(alloc, session, positions.as_slice()),
    }
}

impl Event {
    /// The line of the event.
    fn line(&self, alloc: Global) -> Result<String, AllocError>
        ensures { IfOk result (λ line. string_bytes line ≡ spelling self.now) }
    {
        match self {
            Event::Open { session, client } => two_numbers_line(alloc, "open", *session, *client),
            Event::Close { session } => number_line(alloc, "close", *session),
            Event::Renew { session } => number_line(alloc, "renew", *session),
            Event::Insert {
                session,
                tree,
                key,
                payload,
                attr,
            } => insert_line(alloc, *session, *tree, key, payload, attr),
            Event::Put {
                session,
                tree,
                key,
                payload,
                attr,
            } => put_line(alloc, *session, *tree, key, payload, attr),
            Event::Update {
                session,
                tree,
                key,
                payload,
            } => record_line(alloc, "update", *session, *tree, key, payload),
            Event::Delete { session, tree, key } => place_line(
                alloc, "delete", *session, *tree, key,
            ),
            Event::Add {
                session,
                tree,
                key,
                amount,
            } => add_line(alloc, *session, *tree, key, *amount),
            Event::Commit { session } => number_line(alloc, "commit", *session),
            Event::Abort { session } => number_line(alloc, "abort", *session),
            Event::Read { session, tree, key } => place_line(alloc, "read", *session, *tree, key),
            Event::Scan {
                session,
                tree,
                from,
                to,
            } => record_line(alloc, "scan", *session, *tree, from, to),
            Event::Lookup {
                session,
                tree,
                attr,
            } => place_line(alloc, "lookup", *session, *tree, attr),
            Event::Page {
                session,
                tree,
                page,
            } => three_numbers_line(alloc, "page", *session, *tree, *page),
            Event::Tree { session, tree } => two_numbers_line(alloc, "tree", *session, *tree),
            Event::Policy { session, role, k } => policy_line(alloc, *session, *role, *k),
            Event::Work { session } => number_line(alloc, "work", *session),
            Event::Step { session, wish } => step_line(alloc, *session, wish),
            Event::Run { session } => number_line(alloc, "run", *session),
            Event::Crash {
                session,
                done: true,
            } => word_line(alloc, "crash", *session, "done"),
            Event::Crash {
                session,
                done: false,
            } => number_line(alloc, "crash", *session),
            Event::Wait { ticks } => number_line(alloc, "wait", *ticks),
            Event::Report { tree } => number_line(alloc, "report", *tree),
            Event::Sweep { tree } => number_line(alloc, "sweep", *tree),
            Event::Settle => String::from_str(alloc, "settle\n"),
        }
    }

    /// The one line that spells the event, its line feed included. Memory is the one refusal.
    pub fn write(&self, alloc: Global) -> Result<Blob, TextFault>
        ensures ok { IfOk result (λ line. line ≡ spelling self.now) }
        ensures memory { IfErr result (λ e. e ≡ TextFault.Memory) }
    {
        let line = self.line(alloc)?;
        Ok(Blob::of(line.into_bytes()))
    }
}
