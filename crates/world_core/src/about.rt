//! What is done about a call that a session has in hand, besides making it.

ghost use Rattle.std.specs.Prelude.{◌≡◌};
ghost use Rattle.cloud_trait.specs.Call.{ask_of};
ghost use Rattle.world_core.specs.About.{IsAbout, IsAboutAsk};

use ckpt_policy::Note;
use client_work::calls::SessionCalls;
use cloud_trait::call::Call;
use session_notes::note_of_call::note_of_call;

/// What is done about a call besides making it.
#[derive(Clone, Copy)]
pub(crate) enum About {
    /// It is a put: its object is looked at before and behind it.
    Looks,
    /// It is none: this is noted of it, where it counts.
    Notes(Option<Note>),
}

/// What is done about the call.
fn about_call(call: &Call<'_>) -> About
    ensures { IsAboutAsk (ask_of call.now) result }
{
    match call {
        Call::PutHeld(_, _, _, _) => About::Looks,
        Call::Get(_) => About::Notes(note_of_call(call)),
        Call::Send(_, _) => About::Notes(note_of_call(call)),
        Call::GetHeld(_, _) => About::Notes(None),
        Call::ListHeld(_, _) => About::Notes(None),
        Call::RemoveHeld(_, _) => About::Notes(None),
        Call::Receive(_, _) => About::Notes(None),
        Call::Delete(_, _) => About::Notes(None),
        Call::Take(_, _) => About::Notes(None),
        Call::Renew(_, _) => About::Notes(None),
        Call::Release(_) => About::Notes(None),
    }
}

/// What is done about the call that the session has in hand, where it has one.
pub(crate) fn about_in_hand<S: SessionCalls>(session: &S) -> About
    ensures { IsAbout (S.acting session.now).work result }
{
    match session.in_hand() {
        Some(call) => about_call(&call),
        None => About::Notes(None),
    }
}
