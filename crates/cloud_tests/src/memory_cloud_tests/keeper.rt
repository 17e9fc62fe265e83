//! A machine of the tests that takes, renews and releases a lease of its own.

ghost use Rattle.std.specs.Prelude.{◌≡◌, ℕ, List, None, Some};
ghost use Rattle.cloud_trait.specs.Ask.{Renew};
ghost use Rattle.cloud_trait.specs.Call.{ask_of};
ghost use Rattle.cloud_trait.specs.Machine.{LeadsBy, Took, Steps, Deed, Came, occasion_of};
ghost use Rattle.cloud_trait.specs.Weather.{Makes};

use cloud_trait::answer::Answer;
use cloud_trait::call::{Call, CallKind};
use cloud_trait::cloud::Cloud;
use cloud_trait::lease::Lease;
use cloud_trait::perform::{let_go, perform, renew};
use cloud_trait::turn::Turn;
use cloud_trait::who::Who;
use db_base::blob::Blob;
use db_base::names::{Lock, ObjName};
use db_base::trouble::Trouble;
use std::marker::Model;

const TAKE_TICKS: u64 = 30;

const RENEW_TICKS: u64 = 60;

/// Keeps an object: under a lease it puts the object, renews the lease, and gives it back.
#[derive(Drop)]
pub struct Keeper {
    object: ObjName,
    lock: Lock,
    bytes: Blob,
    kind: CallKind,
    lease: Option<Lease>,
    until: u64,
    trouble: Option<Trouble>,
}

impl Model for Keeper {
    ghost use Rattle.cloud_tests.specs.Keeping.{Keeping};

    ghost Value = { Keeping };

    ghost view = { λ k. record { object = k.object; lock = k.lock; bytes = k.bytes; kind = k.kind; lease = k.lease; until = k.until; trouble = k.trouble } };
}

impl Keeper {
    ghost use Rattle.cloud_tests.specs.Keeping.{Keeping, new_keeping, keeping_ask, keeping_next, lease_renewed, handed, absorbed, taken_by, put_by, renewed_by, released_by, fresh, SameLease, HasKept, keeping_machine};

    /// A keeper that puts these bytes under a lease of the lock. Takes no memory.
    pub fn new(object: ObjName, lock: Lock, bytes: Blob) -> Keeper
        ensures { result ≡ new_keeping object lock bytes }
    {
        Keeper {
            object,
            lock,
            bytes,
            kind: CallKind::Take,
            lease: None,
            until: 0,
            trouble: None,
        }
    }

    /// The service call that the next step makes.
    pub fn in_hand(&self) -> Call<'_>
        ensures { ask_of result ≡ keeping_ask self.now }
    {
        match (self.kind, &self.lease) {
            (CallKind::PutHeld, Some(lease)) => Call::PutHeld(
                self.object,
                self.bytes.as_slice(),
                lease,
                None,
            ),
            (CallKind::Renew, Some(lease)) => Call::Renew(lease, RENEW_TICKS),
            (CallKind::Release, Some(lease)) => Call::Release(lease),
            _ => Call::Take(self.lock, TAKE_TICKS),
        }
    }

    // Renews the lease, and keeps it where the new end was answered.
    fn renew<C: Cloud>(&mut self, cloud: &mut C, who: Who, mut lease: Lease) -> Answer
        requires { self.old.lease ≡ None }
        ensures made { Makes who (Renew lease 60) result (C.seen cloud.old) (C.seen cloud.new) }
        ensures kept { self.new ≡ record self.old { lease = lease_renewed (Some lease) result } }
    {
        match renew(cloud, who, &mut lease, RENEW_TICKS) {
            Answer::Renewed(end) => {
                self.lease = Some(lease);
                Answer::Renewed(end)
            }
            other => other,
        }
    }

    // Makes the call in hand; a release hands the lease out.
    fn call<C: Cloud>(&mut self, cloud: &mut C, who: Who) -> Answer
        ensures made { Makes who (keeping_ask self.old) result (C.seen cloud.old) (C.seen cloud.new) }
        ensures left { self.new ≡ handed self.old result }
    {
        if self.kind == CallKind::Renew {
            if let Some(lease) = self.lease.take() {
                return self.renew(cloud, who, lease);
            }
        }
        if self.kind == CallKind::Release {
            if let Some(lease) = self.lease.take() {
                return let_go(cloud, who, lease);
            }
        }
        perform(cloud, who, &self.in_hand())
    }

    fn taken(&mut self, given: Result<Lease, Trouble>) -> Turn<u64>
        ensures { Took (λ k _ n. taken_by k given ≡ n) SameLease self.old Answer.Failed self.new result }
    {
        match given {
            Ok(lease) => {
                self.kind = CallKind::PutHeld;
                self.lease = Some(lease);
                Turn::More
            }
            Err(trouble) => Turn::Stopped(trouble),
        }
    }

    fn put(&mut self, done: Result<(), Trouble>) -> Turn<u64>
        ensures { Took (λ k _ n. put_by k done ≡ n) SameLease self.old Answer.Failed self.new result }
    {
        match done {
            Ok(()) => self.kind = CallKind::Renew,
            Err(trouble) => {
                self.kind = CallKind::Release;
                self.trouble = Some(trouble);
            }
        }
        Turn::More
    }

    fn renewed(&mut self, end: Result<u64, Trouble>) -> Turn<u64>
        ensures { Took (λ k _ n. renewed_by k end ≡ n) SameLease self.old Answer.Failed self.new result }
    {
        match end {
            Ok(end) => {
                self.kind = CallKind::Release;
                self.until = end;
                Turn::More
            }
            Err(trouble) => Turn::Stopped(trouble),
        }
    }

    fn released(&mut self, done: Result<(), Trouble>) -> Turn<u64>
        ensures { Took (λ k _ n. released_by k k.trouble done ≡ n) SameLease self.old Answer.Failed self.new result }
    {
        match (self.trouble.take(), done) {
            (Some(trouble), _) => Turn::Stopped(trouble),
            (None, Ok(())) => Turn::Ended(self.until),
            (None, Err(trouble)) => Turn::Stopped(trouble),
        }
    }

    // Takes the answer of the call in hand.
    fn absorb(&mut self, answer: Answer) -> Turn<u64>
        ensures { Took (LeadsBy absorbed) SameLease self.old answer self.new result }
    {
        match (self.kind, answer) {
            (_, Answer::Memory) => Turn::Stopped(Trouble::Memory),
            (CallKind::PutHeld, answer) => self.put(answer.done()),
            (CallKind::Renew, answer) => self.renewed(answer.renewed()),
            (CallKind::Release, answer) => self.released(answer.done()),
            (_, answer) => self.taken(answer.given(self.lock)),
        }
    }

    /// Makes the call in hand, and takes the step of its answer.
    pub fn step<C: Cloud>(&mut self, cloud: &mut C, who: Who) -> Turn<u64>
        ensures steps { Steps keeping_machine (occasion_of who (C.seen cloud.old) (C.seen cloud.new)) self.old self.new result }
        ensures kept { (h : List Deed) (end : ℕ) → result ≡ Turn.Ended end → Came keeping_ask (LeadsBy keeping_next) (fresh self.old) h self.old → HasKept self.old h end }
    {
        let answer = self.call(cloud, who);
        self.absorb(answer)
    }
}
