//! Filling an empty database from a dump by ordinary commits.

ghost use Rattle.std.specs.Prelude.{◌≡◌, ◌<◌, ◌^◌, [], ◌∷◌, map, take, drop, length, IfOk, OnOk};
ghost use Rattle.db_base.specs.Limits.{most_changes};
ghost use Rattle.dump_text.specs.Dump.{IsDumpable};
ghost use Rattle.event_text.specs.declared.event.Event.TheVariants.{Open, Commit};
ghost use Rattle.schedule_run.specs.Load.{LoadEnded, Loads, Settles, Runs, IsPassedOver, GoesThrough, answer_of, calls_of, stop_of_look};
ghost use Rattle.load_plan.specs.Events.{Placed, records_of, parts, parts_of, insert_of, checkpoint_at, checkpoints_of, part_events, later_events, commit_events};
ghost use Rattle.schedule_run.specs.LoadComplete.{Completes};
ghost use Rattle.schedule_run.specs.LoadLeft.{LeavesLoaded};
ghost use Rattle.schedule_run.specs.PlainCalls.{CallsPlainly};

use crate::play::{Play, let_event_go};
use crate::writing::let_go;
use client_session::session::Session;
use client_work::calls::SessionCalls;
use cloud_trait::cloud::Bench;
use db_base::text::Text;
use db_base::trouble::{CommitAnswer, Trouble};
use dump_text::dump::Dump;
use event_text::event::Event;
use load_plan::first_look::{LookStop, look_first};
use load_plan::insert::{count_records, insert_of};
use load_plan::remaining::Remaining;
use reply_text::reply::Reply;
use report_types::stored::Stored;
use std::alloc::Global;

/// How many records a transaction takes.
const PART: u64 = 200;

/// How many service calls a load makes at most, far more than the longest text takes: 2^27 - 1. Before as many puts and sends
/// landed no counter of a store that was empty is spent.
pub const MOST_CALLS: u64 = 134_217_727;

/// What a load did.
#[derive(Clone, Copy, Debug, PartialEq, Eq)]
pub struct Loaded {
    /// How many records it committed.
    pub records: u64,
    /// How many service calls its settling made.
    pub calls: u64,
}

/// Why a load stopped.
#[derive(Debug, Drop)]
pub enum LoadStop {
    /// An object is there: its name. Nothing was run.
    NotEmpty(Text),
    /// A look failed before anything was run.
    Stopped(Trouble),
    /// The session was not opened.
    Opening(Trouble),
    /// A commit was answered otherwise than as committed.
    Commit(CommitAnswer),
    /// The settling stopped.
    Settling(Trouble),
    /// Memory ran out, or as many calls were made as the load may make.
    Memory,
}

/// Commits the records of a dump to an empty database, 200 a transaction, by session 1 of client 1, and settles. One call more than
/// `most`, which is below 2^27, is not made: the load stops as where memory ran out.
pub fn load<C: Bench>(
    alloc: Global,
    cloud: &mut C,
    dump: &Dump,
    most: u64,
) -> Result<Loaded, LoadStop>
    requires dumpable { IsDumpable dump.now.trees }
    requires bounded { most < 2 ^ 27 }
    ensures went { LoadEnded result dump.now.trees (C.seen cloud.old) (C.seen cloud.new) }
    // Over a cloud that was empty, where no count rose and each step was calm: it is done, or memory ran out.
    ensures complete { Completes result dump.now.trees (C.seen cloud.old) (C.seen cloud.new) }
    // Done, over a cloud that was empty: what is logged, what each tree has, and that a dump of it writes the same text.
    ensures leaves { IfOk result (λ loaded. LeavesLoaded dump.now.trees
        (C.seen cloud.old) (C.seen cloud.new)) }
    // Whatever it answers: its calls are plain steps of its session and of its settling.
    ensures calls { CallsPlainly (C.seen cloud.old) (C.seen cloud.new) }
{
    match look_first(alloc, cloud) {
        Ok(()) => {}
        Err(stop) => return Err(stopped_looking(stop)),
    }
    match Play::<Session>::within(alloc, most) {
        Ok(mut play) => load_in(alloc, &mut play, cloud, dump),
        Err(_) => Err(LoadStop::Memory),
    }
}

/// Loads in a new world.
fn load_in<S: SessionCalls, C: Bench>(
    alloc: Global,
    play: &mut Play<S>,
    cloud: &mut C,
    dump: &Dump,
) -> Result<Loaded, LoadStop>
    ensures { Loads dump.now.trees result (C.seen cloud.old) (C.seen cloud.new) play.old play.new }
{
    let Some(records) = count_records(dump) else {
        return Err(LoadStop::Memory);
    };
    open(alloc, play, cloud)?;
    commit_all(alloc, play, cloud, dump, records)?;
    pass_over(alloc, play, cloud, Event::Close { session: 1 })?;
    let calls = settle(alloc, play, cloud)?;
    Ok(Loaded { records, calls })
}

/// Commits all records, of which there are so many.
fn commit_all<S: SessionCalls, C: Bench>(
    alloc: Global,
    play: &mut Play<S>,
    cloud: &mut C,
    dump: &Dump,
    records: u64,
) -> Result<(), LoadStop>
    requires { records ≡ length (records_of dump.now.trees) }
    ensures { GoesThrough (commit_events (parts_of dump.now.trees)) result
        (C.seen cloud.old) (C.seen cloud.new) play.old play.new }
{
    let Some(sum) = records.checked_add(PART - 1) else {
        return Err(LoadStop::Memory);
    };
    let transactions = sum / PART;
    if transactions == 0 {
        return Ok(());
    }
    let mut left = Remaining::of(dump.trees.as_slice());
    commit_part(alloc, play, cloud, &mut left)?;
    commit_later(alloc, play, cloud, &mut left, transactions - 1)
}

/// Commits so many transactions behind an earlier one.
fn commit_later<S: SessionCalls, C: Bench>(
    alloc: Global,
    play: &mut Play<S>,
    cloud: &mut C,
    left: &mut Remaining<'_>,
    transactions: u64,
) -> Result<(), LoadStop>
    ensures { GoesThrough (later_events (parts transactions left.old)) result
        (C.seen cloud.old) (C.seen cloud.new) play.old play.new }
{
    for made in 0..transactions {
        pass_over(alloc, play, cloud, Event::Renew { session: 1 })?;
        commit_part(alloc, play, cloud, left)?;
    }
    Ok(())
}

/// Commits the next records in one transaction, and makes a checkpoint of each tree that it names.
fn commit_part<S: SessionCalls, C: Bench>(
    alloc: Global,
    play: &mut Play<S>,
    cloud: &mut C,
    left: &mut Remaining<'_>,
) -> Result<(), LoadStop>
    ensures went { GoesThrough (part_events (take most_changes left.old)) result
        (C.seen cloud.old) (C.seen cloud.new) play.old play.new }
    ensures left { OnOk result (left.new ≡ drop most_changes left.old) }
{
    let part = left.again();
    note_part(alloc, play, cloud, left)?;
    commit(alloc, play, cloud)?;
    checkpoint_part(alloc, play, cloud, part)
}

/// Notes the inserts of the next records.
fn note_part<S: SessionCalls, C: Bench>(
    alloc: Global,
    play: &mut Play<S>,
    cloud: &mut C,
    left: &mut Remaining<'_>,
) -> Result<(), LoadStop>
    ensures went { GoesThrough (map insert_of (take most_changes left.old)) result
        (C.seen cloud.old) (C.seen cloud.new) play.old play.new }
    ensures left { OnOk result (left.new ≡ drop most_changes left.old) }
{
    for noted in 0..PART {
        let Some((tree, record)) = left.next() else {
            return Ok(());
        };
        note(alloc, play, cloud, tree, record)?;
    }
    Ok(())
}

/// Makes a checkpoint of each tree that the first of these records name.
fn checkpoint_part<S: SessionCalls, C: Bench>(
    alloc: Global,
    play: &mut Play<S>,
    cloud: &mut C,
    part: Remaining<'_>,
) -> Result<(), LoadStop>
    ensures { GoesThrough (checkpoints_of (take most_changes part.entry)) result
        (C.seen cloud.old) (C.seen cloud.new) play.old play.new }
{
    let mut left = part;
    let mut last = 0;
    for seen in 0..PART {
        let Some((tree, _)) = left.next() else {
            return Ok(());
        };
        checkpoint_at(alloc, play, cloud, last, tree)?;
        last = tree;
    }
    Ok(())
}

/// Makes a checkpoint of a tree, where it is another than the last one.
fn checkpoint_at<S: SessionCalls, C: Bench>(
    alloc: Global,
    play: &mut Play<S>,
    cloud: &mut C,
    last: u64,
    tree: u64,
) -> Result<(), LoadStop>
    ensures { GoesThrough (checkpoint_at last tree) result
        (C.seen cloud.old) (C.seen cloud.new) play.old play.new }
{
    if tree == last {
        return Ok(());
    }
    pass_over(alloc, play, cloud, Event::Tree { session: 1, tree })
}

/// Opens session 1 of client 1.
fn open<S: SessionCalls, C: Bench>(
    alloc: Global,
    play: &mut Play<S>,
    cloud: &mut C,
) -> Result<(), LoadStop>
    ensures { GoesThrough (Open 1 1 ∷ []) result
        (C.seen cloud.old) (C.seen cloud.new) play.old play.new }
{
    let event = Event::Open {
        session: 1,
        client: 1,
    };
    opened(run(alloc, play, cloud, event)?)
}

/// Notes the insert of a record.
fn note<S: SessionCalls, C: Bench>(
    alloc: Global,
    play: &mut Play<S>,
    cloud: &mut C,
    tree: u64,
    stored: &Stored,
) -> Result<(), LoadStop>
    ensures { GoesThrough (insert_of (record { tree = tree; stored = stored.now }) ∷ []) result
        (C.seen cloud.old) (C.seen cloud.new) play.old play.new }
{
    match insert_of(alloc, tree, stored) {
        Ok(event) => noted(run(alloc, play, cloud, event)?),
        Err(_) => Err(LoadStop::Memory),
    }
}

/// Commits what was noted.
fn commit<S: SessionCalls, C: Bench>(
    alloc: Global,
    play: &mut Play<S>,
    cloud: &mut C,
) -> Result<(), LoadStop>
    ensures { GoesThrough (Commit 1 ∷ []) result
        (C.seen cloud.old) (C.seen cloud.new) play.old play.new }
{
    committed(run(alloc, play, cloud, Event::Commit { session: 1 })?)
}

/// Settles: how many service calls that made.
fn settle<S: SessionCalls, C: Bench>(
    alloc: Global,
    play: &mut Play<S>,
    cloud: &mut C,
) -> Result<u64, LoadStop>
    ensures { Settles result (C.seen cloud.old) (C.seen cloud.new) play.old play.new }
{
    settled(run(alloc, play, cloud, Event::Settle)?)
}

/// Runs an event, whatever it is answered.
fn pass_over<S: SessionCalls, C: Bench>(
    alloc: Global,
    play: &mut Play<S>,
    cloud: &mut C,
    event: Event,
) -> Result<(), LoadStop>
    requires { IsPassedOver event }
    ensures { GoesThrough (event ∷ []) result (C.seen cloud.old) (C.seen cloud.new) play.old play.new }
{
    let_go(run(alloc, play, cloud, event)?);
    Ok(())
}

/// Runs an event: its last reply.
fn run<S: SessionCalls, C: Bench>(
    alloc: Global,
    play: &mut Play<S>,
    cloud: &mut C,
    event: Event,
) -> Result<Reply, LoadStop>
    ensures { Runs event result (C.seen cloud.old) (C.seen cloud.new) play.old play.new }
{
    let answer = play.run_whole(alloc, cloud, &event);
    let_event_go(event);
    match answer {
        Ok(reply) => Ok(reply),
        Err(_) => Err(LoadStop::Memory),
    }
}

/// Goes on where the session is open.
fn opened(reply: Reply) -> Result<(), LoadStop>
    ensures { result ≡ answer_of (Open 1 1) reply }
{
    match reply {
        Reply::Opened { .. } => Ok(()),
        Reply::Trouble(trouble) => Err(LoadStop::Opening(trouble)),
        other => Err(unfit(other)),
    }
}

/// Goes on where the insert was noted.
fn noted(reply: Reply) -> Result<(), LoadStop>
    ensures { (p : Placed) → result ≡ answer_of (insert_of p) reply }
{
    match reply {
        Reply::Noted => Ok(()),
        other => Err(unfit(other)),
    }
}

/// Goes on where the commit is committed.
fn committed(reply: Reply) -> Result<(), LoadStop>
    ensures { result ≡ answer_of (Commit 1) reply }
{
    match reply {
        Reply::Commit(CommitAnswer::Committed { .. }) => Ok(()),
        Reply::Commit(answer) => Err(LoadStop::Commit(answer)),
        other => Err(unfit(other)),
    }
}

/// How many calls a settling made, where it is done.
fn settled(reply: Reply) -> Result<u64, LoadStop>
    ensures { result ≡ calls_of reply }
{
    match reply {
        Reply::Settled { calls } => Ok(calls),
        Reply::NotSettled(trouble) => Err(LoadStop::Settling(trouble)),
        other => Err(unfit(other)),
    }
}

/// A reply that is none of its event's is told as want of memory.
fn unfit(reply: Reply) -> LoadStop
    ensures { result ≡ LoadStop.Memory }
{
    let_go(reply);
    LoadStop::Memory
}

/// Why a load stopped at its first looks.
fn stopped_looking(stop: LookStop) -> LoadStop
    ensures { result ≡ stop_of_look stop }
{
    match stop {
        LookStop::NotEmpty(name) => LoadStop::NotEmpty(name),
        LookStop::Failed => LoadStop::Stopped(Trouble::Failed),
        LookStop::Memory => LoadStop::Memory,
    }
}
