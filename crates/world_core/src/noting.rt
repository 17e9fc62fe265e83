//! What the audit takes of a put that a session has in hand.

ghost use Rattle.std.specs.Prelude.{◌≡◌, Some, OnOk};
ghost use Rattle.client_work.specs.Session.{opens_of, committing_of};
ghost use Rattle.session_facts.specs.Sessions.Audited.{noted_head};
ghost use Rattle.world_core.specs.Put.{noted_put, kept_of};
ghost use Rattle.world_core.specs.Sessions.{NotesPut};

use crate::sessions::Sessions;
use client_work::calls::SessionCalls;
use db_base::ids::{ClientId, SessionNo};
use db_base::names::ObjName;
use db_base::refusal::Refused;
use std::alloc::Global;
use world_audit::audit::Audit;
use world_audit::mark::Mark;

/// Notes what a put of the object by the session of a number commits or applies. Refused for memory alone.
pub(crate) fn note_put<S: SessionCalls>(
    alloc: Global,
    audit: &mut Audit,
    sessions: &Sessions<S>,
    number: SessionNo,
    name: ObjName,
) -> Result<(), Refused>
    ensures { OnOk result (NotesPut number sessions.now name audit.old audit.new) }
{
    note_put_of(alloc, audit, sessions.get(number), name)
}

/// Notes what a put of the object by the session commits or applies.
fn note_put_of<S: SessionCalls>(
    alloc: Global,
    audit: &mut Audit,
    session: &S,
    name: ObjName,
) -> Result<(), Refused>
    ensures { OnOk result (audit.new ≡ noted_put name (S.acting session.now).work audit.old) }
{
    match name {
        ObjName::Head(client) => note_head(alloc, audit, session, client),
        ObjName::Page(tree, _) => audit.page_landed(alloc, tree, session.applying()),
        ObjName::Tree(_) => Ok(()),
    }
}

/// Notes the changes that a put of the client's head commits, where it opens a head.
fn note_head<S: SessionCalls>(
    alloc: Global,
    audit: &mut Audit,
    session: &S,
    client: ClientId,
) -> Result<(), Refused>
    ensures { OnOk result (audit.new
        ≡ noted_head client (opens_of (S.acting session.now).work) (committing_of (S.acting session.now).work) audit.old) }
{
    match session.opens() {
        Some(head) => match session.committing() {
            Some(changes) => audit.head_landed(alloc, client, head, changes),
            None => Ok(()),
        },
        None => Ok(()),
    }
}

/// Keeps what was noted since the mark where the put was seen to land: its bytes were not the newest, and are.
pub(crate) fn keep_landed(audit: &mut Audit, mark: Mark, before: Option<bool>, after: Option<bool>)
    ensures { audit.new ≡ kept_of before after mark audit.old }
{
    if before.unwrap_or(false) || !after.unwrap_or(false) {
        audit.withdraw(mark);
    }
}
