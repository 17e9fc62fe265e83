//! The notes of the calls so far.

ghost use Rattle.std.specs.Prelude.{◌≡◌, false, [], None};
ghost use Rattle.std.specs.Option.{option_and_then, option_copied};
ghost use Rattle.cloud_trait.specs.Call.{ask_of, kind_of, target_of, bytes_of};
ghost use Rattle.cloud_trait.specs.Answers.{fault_answer, granted_by, held_fault_answer};
ghost use Rattle.cloud_trait.specs.declared.answer.Answer.TheVariants as answer;
ghost use Rattle.traced_cloud.specs.Stamp.{stamp_of};
ghost use Rattle.traced_cloud.specs.Note.{limit_of, note_of, shown};

use crate::note::{
    Note, Outcome, done_outcome, fault_outcome, held_outcome, ids_of, limit_of, read_outcome,
};
use crate::stamp::{Stamp, stamp_of};
use cloud_trait::call::{Call, CallKind, Target};
use cloud_trait::fault::{CloudFault, HeldFault};
use cloud_trait::grant::Grant;
use cloud_trait::message::Message;
use cloud_trait::who::Who;
use db_base::blob::Blob;
use db_base::ids::{MsgId, PageId};
use db_base::names::{Lock, ObjName};
use std::alloc::Global;
use std::marker::Model;

/// The notes of the calls so far, in their order; and whether memory ran out for one.
pub struct Trace {
    alloc: Global,
    notes: Vec<Note>,
    short: bool,
}

impl Drop for Trace {
    fn drop(self) {
        let Trace {
            alloc: _,
            notes: _,
            short: _,
        } = self;
    }
}

impl Model for Trace {
    ghost use Rattle.traced_cloud.specs.Notes.{Notes};

    ghost Value = { Notes };

    ghost view = { λ t. record { made = t.notes.items; short = t.short } };
}

/// What the bytes say that were put, or else those that were got.
fn stamp_in(put: Option<&[u8]>, got: Option<&[u8]>) -> Option<Stamp>
    ensures { result ≡ option_and_then stamp_of (shown (option_copied put.entry) (option_copied got.entry)) }
{
    match put {
        Some(bytes) => stamp_of(bytes),
        None => match got {
            Some(bytes) => stamp_of(bytes),
            None => None,
        },
    }
}

/// The bytes of a blob, where there is one.
fn bytes_in(bytes: &Option<Blob>) -> Option<&[u8]>
    ensures { option_copied result ≡ bytes.now }
{
    match bytes {
        Some(bytes) => Some(bytes.as_slice()),
        None => None,
    }
}

impl Trace {
    ghost use Rattle.traced_cloud.specs.Notes.{Adds, AddsPut, AddsRenewal, AddsRelease};

    /// No call yet. Takes no memory.
    pub fn new(alloc: Global) -> Trace
        ensures { result ≡ record { made = []; short = false } }
    {
        Trace {
            alloc,
            notes: Vec::new(alloc),
            short: false,
        }
    }

    /// The notes.
    pub fn notes(&self) -> &[Note]
        ensures { result.now ≡ self.now.made }
    {
        self.notes.as_slice()
    }

    /// Whether memory ran out for a note.
    pub fn is_short(&self) -> bool
        ensures { result ≡ self.now.short }
    {
        self.short
    }

    // Adds a note.
    fn add(&mut self, note: Note)
        ensures { Adds note self.old self.new }
    {
        if self.notes.push(note).is_err() {
            self.short = true;
        }
    }

    // Notes a call that had this outcome, and brought these bytes.
    fn note(&mut self, who: Who, call: &Call<'_>, got: Option<&[u8]>, outcome: Outcome)
        ensures { Adds (record {
          who = who;
          kind = kind_of (ask_of call.now);
          target = target_of (ask_of call.now);
          limit = limit_of (ask_of call.now);
          stamp = option_and_then stamp_of (shown (bytes_of (ask_of call.now)) (option_copied got.entry));
          outcome = outcome;
        }) self.old self.new }
    {
        self.add(Note {
            who,
            kind: call.kind(),
            target: call.name(),
            limit: limit_of(call),
            stamp: stamp_in(call.bytes(), got),
            outcome,
        });
    }

    /// Notes a call that had this fault.
    pub fn failed(&mut self, who: Who, call: &Call<'_>, fault: CloudFault)
        ensures { Adds (note_of who (ask_of call.now) (fault_answer fault)) self.old self.new }
    {
        self.note(who, call, None, fault_outcome(fault));
    }

    /// The same of a call under a lease.
    pub fn failed_held(&mut self, who: Who, call: &Call<'_>, fault: HeldFault)
        ensures { Adds (note_of who (ask_of call.now) (held_fault_answer fault)) self.old self.new }
    {
        self.note(who, call, None, held_outcome(fault));
    }

    /// Notes a get that brought this.
    pub fn got(&mut self, who: Who, call: &Call<'_>, bytes: &Option<Blob>)
        ensures { Adds (note_of who (ask_of call.now) (answer.Got bytes.now)) self.old self.new }
    {
        self.note(who, call, bytes_in(bytes), read_outcome(bytes));
    }

    /// Notes a send of this message.
    pub fn sent(&mut self, who: Who, call: &Call<'_>, id: MsgId)
        ensures { Adds (note_of who (ask_of call.now) (answer.Sent id)) self.old self.new }
    {
        self.note(who, call, None, Outcome::Sent(id));
    }

    /// Notes a receive of these messages.
    pub fn received(&mut self, who: Who, call: &Call<'_>, messages: &[Message])
        ensures { Adds (note_of who (ask_of call.now) (answer.Received messages.now)) self.old self.new }
    {
        match ids_of(self.alloc, messages) {
            Ok(ids) => self.note(who, call, None, Outcome::Received(ids)),
            Err(_) => self.short = true,
        }
    }

    /// Notes a listing of these pages.
    pub fn listed(&mut self, who: Who, call: &Call<'_>, pages: &[PageId])
        ensures { Adds (note_of who (ask_of call.now) (answer.Listed pages.now)) self.old self.new }
    {
        self.note(who, call, None, Outcome::Listed(pages.len() as u64));
    }

    /// Notes a call that was done.
    pub fn done(&mut self, who: Who, call: &Call<'_>)
        ensures { Adds (note_of who (ask_of call.now) answer.Done) self.old self.new }
    {
        self.note(who, call, None, done_outcome(call.kind()));
    }

    /// Notes a take that was answered so.
    pub fn granted(&mut self, who: Who, call: &Call<'_>, grant: &Grant)
        ensures { Adds (note_of who (ask_of call.now) (granted_by grant.now)) self.old self.new }
    {
        match grant {
            Grant::Given(lease) => self.note(who, call, None, Outcome::Given(lease.end())),
            Grant::Held(until) => self.note(who, call, None, Outcome::Held(*until)),
        }
    }

    // Notes a put that had this outcome.
    fn put_so(&mut self, who: Who, name: ObjName, bytes: &[u8], outcome: Outcome)
        ensures { Adds (record {
          who = who;
          kind = CallKind.PutHeld;
          target = Target.Object name;
          limit = None;
          stamp = stamp_of bytes.now;
          outcome = outcome;
        }) self.old self.new }
    {
        self.add(Note {
            who,
            kind: CallKind::PutHeld,
            target: Target::Object(name),
            limit: None,
            stamp: stamp_of(bytes),
            outcome,
        });
    }

    /// Notes a put that was done.
    pub fn put(&mut self, who: Who, name: ObjName, bytes: &[u8])
        ensures { AddsPut who name bytes.now answer.Done self.old self.new }
    {
        self.put_so(who, name, bytes, Outcome::Landed);
    }

    /// Notes a put that had this fault.
    pub fn not_put(&mut self, who: Who, name: ObjName, bytes: &[u8], fault: HeldFault)
        ensures { AddsPut who name bytes.now (held_fault_answer fault) self.old self.new }
    {
        self.put_so(who, name, bytes, held_outcome(fault));
    }

    // Notes a call about a lock that moves a lease.
    fn moved(&mut self, who: Who, kind: CallKind, lock: Lock, limit: Option<u64>, outcome: Outcome)
        ensures { Adds (record {
          who = who;
          kind = kind;
          target = Target.Lock lock;
          limit = limit;
          stamp = None;
          outcome = outcome;
        }) self.old self.new }
    {
        self.add(Note {
            who,
            kind,
            target: Target::Lock(lock),
            limit,
            stamp: None,
            outcome,
        });
    }

    /// Notes a renewal of a lease of this lock, that led to this end.
    pub fn renewed(&mut self, who: Who, lock: Lock, ticks: u64, end: u64)
        ensures { AddsRenewal who lock ticks (answer.Renewed end) self.old self.new }
    {
        self.moved(
            who,
            CallKind::Renew,
            lock,
            Some(ticks),
            Outcome::Renewed(end),
        );
    }

    /// Notes a renewal of a lease of this lock that had this fault.
    pub fn not_renewed(&mut self, who: Who, lock: Lock, ticks: u64, fault: HeldFault)
        ensures { AddsRenewal who lock ticks (held_fault_answer fault) self.old self.new }
    {
        self.moved(who, CallKind::Renew, lock, Some(ticks), held_outcome(fault));
    }

    /// Notes a release of a lease of this lock.
    pub fn released(&mut self, who: Who, lock: Lock)
        ensures { AddsRelease who lock answer.Done self.old self.new }
    {
        self.moved(who, CallKind::Release, lock, None, Outcome::Done);
    }

    /// Notes a release of a lease of this lock that had this fault.
    pub fn not_released(&mut self, who: Who, lock: Lock, fault: CloudFault)
        ensures { AddsRelease who lock (fault_answer fault) self.old self.new }
    {
        self.moved(who, CallKind::Release, lock, None, fault_outcome(fault));
    }
}
