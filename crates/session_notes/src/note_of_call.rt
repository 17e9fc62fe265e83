//! Which calls count.

ghost use Rattle.std.specs.Prelude.{◌≡◌};
ghost use Rattle.cloud_trait.specs.Call.{ask_of};
ghost use Rattle.session_notes.specs.Notebook.{note_of_ask, note_of_get, note_of_send};

use ckpt_policy::Note;
use cloud_trait::call::Call;
use db_base::names::{ObjName, QueueName};

/// The note of a call, where it counts: of a send to a pending update queue, and of a get of a page.
pub fn note_of_call(call: &Call<'_>) -> Option<Note>
    ensures { result ≡ note_of_ask (ask_of call.now) }
{
    match call {
        Call::Get(name) => note_of_get(*name),
        Call::Send(queue, _) => note_of_send(*queue),
        Call::GetHeld(_, _) => None,
        Call::PutHeld(_, _, _, _) => None,
        Call::ListHeld(_, _) => None,
        Call::RemoveHeld(_, _) => None,
        Call::Receive(_, _) => None,
        Call::Delete(_, _) => None,
        Call::Take(_, _) => None,
        Call::Renew(_, _) => None,
        Call::Release(_) => None,
    }
}

/// That of a send to the queue.
fn note_of_send(queue: QueueName) -> Option<Note>
    ensures { result ≡ note_of_send queue }
{
    match queue {
        QueueName::Atomic(_) => None,
        QueueName::TreePu(tree) => Some(Note::Sent(QueueName::TreePu(tree))),
        QueueName::PagePu(tree, page) => Some(Note::Sent(QueueName::PagePu(tree, page))),
    }
}

/// That of a get of the object.
fn note_of_get(name: ObjName) -> Option<Note>
    ensures { result ≡ note_of_get name }
{
    match name {
        ObjName::Head(_) => None,
        ObjName::Tree(_) => None,
        ObjName::Page(tree, page) => Some(Note::Got(QueueName::PagePu(tree, page))),
    }
}
