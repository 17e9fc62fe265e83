ghost use Rattle.std.specs.Prelude.{◌≡◌, IfOk};
ghost use Rattle.std.specs.String.{string_bytes};
ghost use Rattle.cloud_trait.specs.Call.{ask_of};
ghost use Rattle.reply_text.specs.Call.{kind_word, made_word, target_word, call_text};

use crate::name::{lock_word, object_word, place_word, queue_word};
use cloud_trait::call::{Call, CallKind, Target};
use db_base::names::Place;
use std::alloc::{AllocError, Global};

/// What a call does, as a word.
fn kind_word(kind: CallKind) -> &'static str
    ensures { result.now ≡ kind_word kind }
{
    match kind {
        CallKind::Get => "get",
        CallKind::GetHeld => "get_held",
        CallKind::PutHeld => "put_held",
        CallKind::ListHeld => "list_held",
        CallKind::RemoveHeld => "remove_held",
        CallKind::Send => "send",
        CallKind::Receive => "receive",
        CallKind::Delete => "delete",
        CallKind::Take => "take",
        CallKind::Renew => "renew",
        CallKind::Release => "release",
    }
}

/// The same of a call that was made, among others of its kind: there is one kind of put, of listing and of removal.
pub fn made_word(kind: CallKind) -> &'static str
    ensures { result.now ≡ made_word kind }
{
    match kind {
        CallKind::PutHeld => "put",
        CallKind::ListHeld => "list",
        CallKind::RemoveHeld => "remove",
        other => kind_word(other),
    }
}

/// What a call is about, as a word.
pub fn target_word(alloc: Global, target: Target) -> Result<String, AllocError>
    ensures { IfOk result (λ word. string_bytes word ≡ target_word target) }
{
    match target {
        Target::Object(name) => object_word(alloc, &name),
        Target::Queue(queue) => queue_word(alloc, &queue),
        Target::Message(queue, id) => place_word(alloc, &Place::Message(queue, id)),
        Target::Lock(lock) => lock_word(alloc, &lock),
    }
}

/// What a call does and to what: `put_held head:5`, `delete atomic:5#1`.
pub fn call_text(alloc: Global, call: &Call<'_>) -> Result<String, AllocError>
    ensures { IfOk result (λ text. string_bytes text ≡ call_text (ask_of call.now)) }
{
    let kind = kind_word(call.kind());
    let target = target_word(alloc, call.name())?;
    let text = format!(in alloc; "{kind} {target}")?;
    Ok(text)
}
