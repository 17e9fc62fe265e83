ghost use Rattle.std.specs.Prelude.{◌≡◌, true, None};
ghost use Rattle.client_work.specs.Causes.{MachineSteps};
ghost use Rattle.client_work.specs.Left.{at_rest, behind_opening, behind_commit, behind_read, behind_scan, behind_look, behind_page, behind_tree};
ghost use Rattle.client_work.specs.Session.{ShowsAt, StepsAt, behind_settling, behind_sweeping, ended_by, is_other, old_lease, rule_of, stopped_work, acting_of};

use crate::answer::{Answer, Begun, handed};
use crate::closing::step_close;
use crate::committing::{advance, broken, commit_noted, left_by};
use crate::folding::{fold, left_by_fold};
use crate::hand::Hand;
use crate::left::{Left, Rest};
use crate::listing::Listing;
use crate::looking::{begin_looking, step_looking};
use crate::op::Op;
use crate::opening::OpeningRun;
use crate::paging::{left_by_page, page};
use crate::phase::Phase;
use crate::reading::{begin_reading, step_reading};
use crate::renewing::step_renewal;
use crate::scanning::{begin_scanning, step_scanning};
use crate::settling::SettlingRun;
use crate::shown::Shown;
use crate::sweeping::SweepingRun;
use attr_index::Lookup;
use cloud_trait::call::Call;
use cloud_trait::cloud::Cloud;
use cloud_trait::lease::Lease;
use cloud_trait::turn::Turn;
use cloud_trait::who::Who;
use commit_run::CommitRun;
use db_base::ids::{ClientId, TreeId};
use db_base::refusal::Refusal;
use db_base::trouble::Trouble;
use db_base::value::Value;
use head_codec::head::Head;
use log_codec::record::PuItem;
use page_cache::PageCache;
use page_ckpt::PageCkpt;
use range_scan::RangeScan;
use record_read::RecordRead;
use recover_run::home::Home;
use recover_run::recover::CLIENT_TICKS;
use std::alloc::Global;
use std::mem;
use tree_ckpt::TreeCkpt;
use txn_buffer::buffer::TxnBuffer;

/// What a session has in hand.
pub enum Work {
    /// Nothing: no client is open.
    Closed,
    /// An open client.
    Idle(Home),
    /// An opening under way.
    Opening(OpeningRun),
    /// A commit under way.
    Committing(CommitRun),
    /// A read under way, beside the open client.
    Reading(Home, RecordRead),
    /// A scan under way, beside the open client.
    Scanning(Home, Listing),
    /// A look-up under way, beside the open client.
    Looking(Home, Lookup),
    /// A page checkpoint under way, beside the open client.
    Paging(Home, PageCkpt),
    /// A tree checkpoint under way, beside the open client.
    Folding(Home, TreeCkpt),
    /// The lease of a client that is being closed.
    Closing(Lease),
    /// An open client whose lease is being renewed.
    Renewing(Home),
    /// A settling under way: no client is open.
    Settling(SettlingRun),
    /// A sweep of a tree under way: no client is open.
    Sweeping(SweepingRun),
    /// The lease of a client whose newest operation left it in doubt.
    Broken(Lease),
}

// Written out, machine by machine, so that no other function has to look into them to let one go.
impl Drop for Work {
    fn drop(self) {
        match self {
            Work::Closed => {}
            Work::Idle(_) => {}
            Work::Opening(_) => {}
            Work::Committing(_) => {}
            Work::Reading(_, _) => {}
            Work::Scanning(_, _) => {}
            Work::Looking(_, _) => {}
            Work::Paging(_, machine) => drop_paging(machine),
            Work::Folding(_, _) => {}
            Work::Closing(_) => {}
            Work::Renewing(_) => {}
            Work::Settling(_) => {}
            Work::Sweeping(_) => {}
            Work::Broken(_) => {}
        }
    }
}

/// Lets a page checkpoint go.
pub(crate) fn drop_paging(_machine: PageCkpt) {}

impl Hand for Work {
    ghost use Rattle.client_work.specs.declared.work.Work.{Work};

    ghost work = { λ (w : Work). w };

    fn closed() -> Work {
        Work::Closed
    }

    fn settling(alloc: Global) -> Work {
        Work::Settling(SettlingRun::new(alloc))
    }

    fn sweeping(alloc: Global, tree: TreeId) -> Work {
        Work::Sweeping(SweepingRun::new(alloc, tree))
    }

    fn phase(&self) -> Phase {
        match self {
            Work::Closed => Phase::Closed,
            Work::Idle(_) => Phase::Idle,
            Work::Opening(_) => Phase::Working,
            Work::Committing(_) => Phase::Working,
            Work::Reading(_, _) => Phase::Working,
            Work::Scanning(_, _) => Phase::Working,
            Work::Looking(_, _) => Phase::Working,
            Work::Paging(_, _) => Phase::Working,
            Work::Folding(_, _) => Phase::Working,
            Work::Closing(_) => Phase::Closing,
            Work::Renewing(_) => Phase::Working,
            Work::Settling(_) => Phase::Working,
            Work::Sweeping(_) => Phase::Working,
            Work::Broken(_) => Phase::Broken,
        }
    }

    fn client(&self) -> Result<ClientId, Refusal> {
        match self {
            Work::Idle(home) => Ok(home.client),
            Work::Closed => Err(Refusal::NotOpen),
            Work::Opening(_) => Err(Refusal::AtWork),
            Work::Committing(_) => Err(Refusal::AtWork),
            Work::Reading(_, _) => Err(Refusal::AtWork),
            Work::Scanning(_, _) => Err(Refusal::AtWork),
            Work::Looking(_, _) => Err(Refusal::AtWork),
            Work::Paging(_, _) => Err(Refusal::AtWork),
            Work::Folding(_, _) => Err(Refusal::AtWork),
            Work::Closing(_) => Err(Refusal::AtWork),
            Work::Renewing(_) => Err(Refusal::AtWork),
            Work::Settling(_) => Err(Refusal::AtWork),
            Work::Sweeping(_) => Err(Refusal::AtWork),
            Work::Broken(_) => Err(Refusal::Broken),
        }
    }

    fn in_hand(&self) -> Option<Call<'_>> {
        match self {
            Work::Opening(machine) => Some(machine.in_hand()),
            Work::Committing(machine) => Some(machine.in_hand()),
            Work::Reading(_, machine) => Some(machine.in_hand()),
            Work::Scanning(_, listing) => Some(listing.scan.in_hand()),
            Work::Looking(_, machine) => Some(machine.in_hand()),
            Work::Paging(_, machine) => Some(machine.in_hand()),
            Work::Folding(_, machine) => Some(machine.in_hand()),
            Work::Closing(lease) => Some(Call::Release(lease)),
            Work::Renewing(home) => Some(Call::Renew(&home.lease, CLIENT_TICKS)),
            Work::Settling(machine) => Some(machine.in_hand()),
            Work::Sweeping(machine) => Some(machine.in_hand()),
            Work::Closed => None,
            Work::Idle(_) => None,
            Work::Broken(_) => None,
        }
    }

    fn committing(&self) -> Option<&TxnBuffer> {
        match self {
            Work::Committing(machine) => Some(machine.changes()),
            Work::Closed => None,
            Work::Idle(_) => None,
            Work::Opening(_) => None,
            Work::Reading(_, _) => None,
            Work::Scanning(_, _) => None,
            Work::Looking(_, _) => None,
            Work::Paging(_, _) => None,
            Work::Folding(_, _) => None,
            Work::Closing(_) => None,
            Work::Renewing(_) => None,
            Work::Settling(_) => None,
            Work::Sweeping(_) => None,
            Work::Broken(_) => None,
        }
    }

    fn opens(&self) -> Option<&Head> {
        match self {
            Work::Committing(machine) => machine.opens(),
            Work::Closed => None,
            Work::Idle(_) => None,
            Work::Opening(_) => None,
            Work::Reading(_, _) => None,
            Work::Scanning(_, _) => None,
            Work::Looking(_, _) => None,
            Work::Paging(_, _) => None,
            Work::Folding(_, _) => None,
            Work::Closing(_) => None,
            Work::Renewing(_) => None,
            Work::Settling(_) => None,
            Work::Sweeping(_) => None,
            Work::Broken(_) => None,
        }
    }

    fn applying(&self) -> &[PuItem] {
        match self {
            Work::Reading(_, _) => &[],
            Work::Scanning(_, _) => &[],
            Work::Looking(_, _) => &[],
            Work::Paging(_, machine) => machine.applying(),
            Work::Folding(_, machine) => machine.applying(),
            Work::Closed => &[],
            Work::Idle(_) => &[],
            Work::Opening(_) => &[],
            Work::Committing(_) => &[],
            Work::Closing(_) => &[],
            Work::Renewing(_) => &[],
            Work::Settling(machine) => machine.applying(),
            Work::Sweeping(_) => &[],
            Work::Broken(_) => &[],
        }
    }

    fn value<'a>(
        &'a self,
        shown: &'a Shown,
        cache: &'a PageCache,
        buffer: &'a TxnBuffer,
    ) -> Option<Value<'a>> {
        match (self, shown) {
            (Work::Idle(home), Shown::Read(read)) => {
                read.value(cache, home.client, &home.head, buffer)
            }
            _ => None,
        }
    }

    fn begin(
        self,
        alloc: Global,
        op: Op,
        buffer: &mut TxnBuffer,
        cache: &mut PageCache,
    ) -> (Work, Shown, Begun) {
        match op {
            Op::Open(client) => {
                buffer.clear();
                cache.clear();
                let opening = OpeningRun::new(alloc, client, self.into_lease());
                (Work::Opening(opening), Shown::Nothing, Begun::Working)
            }
            Op::Close => {
                let lease = self.into_home().into_lease();
                (Work::Closing(lease), Shown::Nothing, Begun::Working)
            }
            Op::Renew => (
                Work::Renewing(self.into_home()),
                Shown::Nothing,
                Begun::Working,
            ),
            Op::Commit => {
                let (left, begun) = commit_noted(alloc, self.into_home(), buffer.take(), cache);
                (after_commit(left), Shown::Nothing, begun)
            }
            Op::Read(tree, key) => {
                let read = RecordRead::new(alloc, tree, key);
                let (left, shown, begun) = begin_reading(alloc, self.into_home(), read, cache);
                (after_read(left), shown, begun)
            }
            Op::Scan(tree, from, to) => {
                let scan = RangeScan::new(alloc, tree, from, to);
                let (left, shown, begun) = begin_scanning(
                    alloc,
                    self.into_home(),
                    scan,
                    cache,
                    buffer,
                );
                (after_scan(left), shown, begun)
            }
            Op::Lookup(tree, attr) => {
                let (left, shown, begun) = begin_looking(
                    alloc,
                    self.into_home(),
                    tree,
                    attr,
                    cache,
                );
                (after_look(left), shown, begun)
            }
            Op::Page(tree, page) => {
                let machine = PageCkpt::new(alloc, tree, page);
                let work = Work::Paging(self.into_home(), machine);
                (work, Shown::Nothing, Begun::Working)
            }
            Op::Tree(tree) => {
                let machine = TreeCkpt::new(alloc, tree);
                let work = Work::Folding(self.into_home(), machine);
                (work, Shown::Nothing, Begun::Working)
            }
        }
    }

    fn break_off(self) -> Work {
        match self {
            Work::Idle(home) => Work::Broken(home.into_lease()),
            Work::Committing(machine) => resting(broken(machine)),
            Work::Reading(home, _) => Work::Broken(home.into_lease()),
            Work::Scanning(home, _) => Work::Broken(home.into_lease()),
            Work::Looking(home, _) => Work::Broken(home.into_lease()),
            Work::Paging(home, machine) => {
                drop_paging(machine);
                Work::Broken(home.into_lease())
            }
            Work::Folding(home, _) => Work::Broken(home.into_lease()),
            Work::Renewing(home) => Work::Broken(home.into_lease()),
            Work::Broken(lease) => Work::Broken(lease),
            Work::Closed => Work::Closed,
            Work::Opening(_) => Work::Closed,
            Work::Closing(_) => Work::Closed,
            Work::Settling(_) => Work::Closed,
            Work::Sweeping(_) => Work::Closed,
        }
    }

    // Commits, checkpoints, settlings and sweeps go on where they stand: most steps are theirs, and to move one costs as much as a
    // step of it. Here stands nothing that would need room for a whole machine or for what it shows, since that would be cleared at each
    // step.
    #[inline(always)]
    fn step<C: Cloud>(
        &mut self,
        alloc: Global,
        cloud: &mut C,
        who: Who,
        cache: &mut PageCache,
        buffer: &TxnBuffer,
        shown: &mut Shown,
    ) -> Turn<Answer> {
        shown.clear();
        let turn = match self {
            Work::Committing(machine) => advance(alloc, cloud, who, machine, cache),
            Work::Paging(_, machine) => page(alloc, cloud, who, machine),
            Work::Folding(_, machine) => fold(alloc, cloud, who, machine),
            Work::Settling(machine) => machine.step(alloc, cloud, who),
            Work::Sweeping(machine) => machine.step(alloc, cloud, who),
            _ => return handed(self.step_apart(alloc, cloud, who, cache, buffer, shown)),
        };
        self.end(&turn);
        handed(turn)
    }
}

impl Work {
    /// What is in hand behind the last step of a commit, a checkpoint, a settling or a sweep.
    fn ended(self, turn: &Turn<Answer>) -> Work
        ensures { result ≡ ended_by self turn.now }
    {
        match self {
            Work::Committing(machine) => ended_commit(machine, turn),
            Work::Paging(home, machine) => ended_page(home, machine, turn),
            Work::Folding(home, machine) => ended_tree(home, machine, turn),
            Work::Settling(machine) => after_settling(machine, turn),
            Work::Sweeping(machine) => after_sweeping(machine, turn),
            other => other,
        }
    }

    /// Has in hand what a step of a commit, a checkpoint, a settling or a sweep leaves, which stays where it goes on.
    #[inline(always)]
    fn end(&mut self, turn: &Turn<Answer>)
        ensures { self.new ≡ ended_by self.old turn.now }
    {
        match turn {
            Turn::More => {}
            _ => self.end_last(turn),
        }
    }

    /// Has in hand what the last step of a commit, a checkpoint, a settling or a sweep leaves.
    #[inline(never)]
    fn end_last(&mut self, turn: &Turn<Answer>)
        ensures { self.new ≡ ended_by self.old turn.now }
    {
        let work = mem::replace(self, Work::Closed);
        *self = work.ended(turn);
    }

    /// Takes out what is none of these, makes its step, and puts back what that leaves.
    #[inline(never)]
    fn step_apart<C: Cloud>(
        &mut self,
        alloc: Global,
        cloud: &mut C,
        who: Who,
        cache: &mut PageCache,
        buffer: &TxnBuffer,
        shown: &mut Shown,
    ) -> Turn<Answer>
        requires { is_other self.old ≡ true }
        ensures steps { StepsAt who (C.seen cloud.old) (C.seen cloud.new) self.old self.new result }
        ensures shows { ShowsAt who (C.seen cloud.old) (C.seen cloud.new) (self.old, cache.old)
            (acting_of buffer.now self.new cache.new shown.new) result }
        ensures machine { MachineSteps who (C.seen cloud.old) (C.seen cloud.new)
            (self.old, cache.old) (self.new, cache.new) result }
    {
        let work = mem::replace(self, Work::Closed);
        let (work, shows, turn) = work.step_other(alloc, cloud, who, cache, buffer);
        *self = work;
        *shown = shows;
        turn
    }

    /// The step of what is none of these.
    fn step_other<C: Cloud>(
        self,
        alloc: Global,
        cloud: &mut C,
        who: Who,
        cache: &mut PageCache,
        buffer: &TxnBuffer,
    ) -> (Work, Shown, Turn<Answer>)
        requires { is_other self ≡ true }
        ensures steps { StepsAt who (C.seen cloud.old) (C.seen cloud.new) self result.0 result.2 }
        ensures shows { ShowsAt who (C.seen cloud.old) (C.seen cloud.new) (self, cache.old)
            (acting_of buffer.now result.0 cache.new result.1) result.2 }
        ensures machine { MachineSteps who (C.seen cloud.old) (C.seen cloud.new)
            (self, cache.old) (result.0, cache.new) result.2 }
    {
        match self {
            Work::Reading(home, read) => {
                let (left, shown, turn) = step_reading(alloc, cloud, who, home, read, cache);
                (after_read(left), shown, turn)
            }
            Work::Scanning(home, listing) => {
                let (left, shown, turn) = step_scanning(
                    alloc, cloud, who, home, listing, cache, buffer,
                );
                (after_scan(left), shown, turn)
            }
            Work::Looking(home, look) => {
                let (left, shown, turn) = step_looking(
                    alloc, cloud, who, home, look, cache, buffer,
                );
                (after_look(left), shown, turn)
            }
            Work::Opening(machine) => {
                let (left, turn) = machine.step(alloc, cloud, who);
                (after_opening(left), Shown::Nothing, turn)
            }
            Work::Closing(lease) => {
                let turn = step_close(cloud, who, lease);
                (Work::Closed, Shown::Nothing, turn)
            }
            Work::Renewing(home) => {
                let (rest, turn) = step_renewal(cloud, who, home);
                (resting(rest), Shown::Nothing, turn)
            }
            Work::Committing(_) => unreachable!(),
            Work::Paging(_, _) => unreachable!(),
            Work::Folding(_, _) => unreachable!(),
            Work::Settling(_) => unreachable!(),
            Work::Sweeping(_) => unreachable!(),
            Work::Closed => unreachable!(),
            Work::Idle(_) => unreachable!(),
            Work::Broken(_) => unreachable!(),
        }
    }
    /// The home of an open client with nothing at work.
    fn into_home(self) -> Home
        requires { rule_of self ≡ None }
        ensures { self ≡ Work.Idle result }
    {
        match self {
            Work::Idle(home) => home,
            _ => unreachable!(),
        }
    }

    /// The lease that a broken session still has.
    fn into_lease(self) -> Option<Lease>
        ensures { result ≡ old_lease self }
    {
        match self {
            Work::Broken(lease) => Some(lease),
            _ => None,
        }
    }
}

/// Nothing is at work.
fn resting(rest: Rest) -> Work
    ensures { result ≡ at_rest rest }
{
    match rest {
        Rest::Closed => Work::Closed,
        Rest::Idle(home) => Work::Idle(home),
        Rest::Broken(lease) => Work::Broken(lease),
    }
}

// What one machine leaves stands in a function of its own, not inlined: the room of a whole machine is cleared where a function is entered.

/// What is in hand behind the last step of a commit.
#[inline(never)]
fn ended_commit(machine: CommitRun, turn: &Turn<Answer>) -> Work
    ensures { result ≡ ended_by (Work.Committing machine) turn.now }
{
    after_commit(left_by(machine, turn))
}

/// What is in hand behind the last step of a page checkpoint.
#[inline(never)]
fn ended_page(home: Home, machine: PageCkpt, turn: &Turn<Answer>) -> Work
    ensures { result ≡ ended_by (Work.Paging home machine) turn.now }
{
    after_page(left_by_page(home, machine, turn))
}

/// What is in hand behind the last step of a tree checkpoint.
#[inline(never)]
fn ended_tree(home: Home, machine: TreeCkpt, turn: &Turn<Answer>) -> Work
    ensures { result ≡ ended_by (Work.Folding home machine) turn.now }
{
    after_tree(left_by_fold(home, machine, turn))
}

/// What is in hand behind an opening.
fn after_opening(left: Left<OpeningRun>) -> Work
    ensures { result ≡ behind_opening left }
{
    match left {
        Left::Goes(machine) => Work::Opening(machine),
        Left::Rests(rest) => resting(rest),
    }
}

/// What is in hand behind a commit.
fn after_commit(left: Left<CommitRun>) -> Work
    ensures { result ≡ behind_commit left }
{
    match left {
        Left::Goes(machine) => Work::Committing(machine),
        Left::Rests(rest) => resting(rest),
    }
}

/// What is in hand behind a read.
fn after_read(left: Left<(Home, RecordRead)>) -> Work
    ensures { result ≡ behind_read left }
{
    match left {
        Left::Goes((home, read)) => Work::Reading(home, read),
        Left::Rests(rest) => resting(rest),
    }
}

/// What is in hand behind a scan.
fn after_scan(left: Left<(Home, Listing)>) -> Work
    ensures { result ≡ behind_scan left }
{
    match left {
        Left::Goes((home, listing)) => Work::Scanning(home, listing),
        Left::Rests(rest) => resting(rest),
    }
}

/// What is in hand behind a look-up.
fn after_look(left: Left<(Home, Lookup)>) -> Work
    ensures { result ≡ behind_look left }
{
    match left {
        Left::Goes((home, look)) => Work::Looking(home, look),
        Left::Rests(rest) => resting(rest),
    }
}

/// What is in hand behind a page checkpoint.
fn after_page(left: Left<(Home, PageCkpt)>) -> Work
    ensures { result ≡ behind_page left }
{
    match left {
        Left::Goes((home, machine)) => Work::Paging(home, machine),
        Left::Rests(rest) => resting(rest),
    }
}

/// What is in hand behind a tree checkpoint.
fn after_tree(left: Left<(Home, TreeCkpt)>) -> Work
    ensures { result ≡ behind_tree left }
{
    match left {
        Left::Goes((home, machine)) => Work::Folding(home, machine),
        Left::Rests(rest) => resting(rest),
    }
}

/// What is in hand behind a settling.
#[inline(never)]
fn after_settling(machine: SettlingRun, turn: &Turn<Answer>) -> Work
    ensures { result ≡ behind_settling machine turn.now }
{
    match turn {
        Turn::More => Work::Settling(machine),
        _ => Work::Closed,
    }
}

/// What is in hand behind a sweep.
#[inline(never)]
fn after_sweeping(machine: SweepingRun, turn: &Turn<Answer>) -> Work
    ensures { result ≡ behind_sweeping machine turn.now }
{
    match turn {
        Turn::More => Work::Sweeping(machine),
        _ => Work::Closed,
    }
}

/// An open client behind an operation that stopped: want of memory leaves its lease alone.
pub(crate) fn stopped(trouble: &Trouble, home: Home) -> Rest
    ensures { at_rest result ≡ stopped_work trouble.now home }
{
    match trouble {
        Trouble::Memory => Rest::Broken(home.into_lease()),
        _ => Rest::Idle(home),
    }
}
