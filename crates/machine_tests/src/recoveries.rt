//! Openings, recoveries and settlings, step by step. It is told of any cloud, so that it is proved without the types of one.

use crate::machine::{Calls, run};
use crate::store::{put, queue, send, take};
use crate::story::Story;
use cloud_trait::cloud::Bench;
use cloud_trait::lease::Lease;
use db_base::ids::ClientId;
use db_base::names::{Lock, ObjName, QueueName};
use memory_cloud::memory::MemoryCloud;
use recover_run::home::Home;
use recover_run::recover::RecoverRun;
use recover_run::stage::Aim;
use settle_run::SettleRun;
use std::alloc::Global;
use std::test::Fail;

/// A cloud that tells all versions of an object.
trait Store: Bench {
    /// Whether the version of this number is these bytes.
    fn has_version(&self, name: ObjName, number: u64, wanted: &[u8]) -> bool;
}

impl Store for MemoryCloud {
    fn has_version(&self, name: ObjName, number: u64, wanted: &[u8]) -> bool {
        self.version_is(name, number, wanted)
    }
}

fn client() -> Result<ClientId, Fail> {
    Ok(ClientId::new(1)?)
}

/// The client's lock.
fn lock() -> Result<Lock, Fail> {
    Ok(Lock::Client(client()?))
}

/// The client's head.
fn head() -> Result<ObjName, Fail> {
    Ok(ObjName::Head(client()?))
}

/// The client's queue.
fn atomic() -> Result<QueueName, Fail> {
    Ok(QueueName::Atomic(client()?))
}

/// A record by its epoch, transaction, index and page.
pub(crate) type Record = (u8, u8, u8, u8);

/// A step of a script.
#[derive(Clone, Copy)]
pub(crate) enum Step<'a> {
    /// Client 1 leaves a head, none of no byte, and records in its queue.
    Leaves(&'a [u8], &'a [Record]),
    /// It leaves bytes in its queue.
    Logs(&'a [u8]),
    /// It leaves so many inserts in the queue of tree 1.
    Inserts(u16),
    /// It takes its lease for so many ticks.
    Takes(u64),
    /// An opening, whose call of this number, from 1, gets the first message alone, 0 for none.
    Opens(u64),
    /// An opening with the lease of the one before.
    Reopens,
    /// A settling of the client.
    Recovers,
    /// A settling of all, of which the calls from this one to that are told.
    Settles(u64, u64),
    /// The client's head has this version.
    Has(u64, &'a [u8]),
}

/// A record of a commit of three: client 1's insert of k in tree 1, with its index as its number.
fn record(record: Record) -> [u8; 44] {
    let (epoch, txn, index, page) = record;
    [
        0x41, 1, 1, 0, 0, 0, 0, 0, 0, 0, epoch, 0, 0, 0, 0, 0, 0, 0, txn, index, 3, 1, 0, 0, 0, 0,
        0, 0, 0, page, 0, 0, 0, 0, 0, 0, 0, index, 1, 1, 0x6b, 0, 1, 0x76,
    ]
}

/// Client 1's insert of this number; its key is the number in two bytes.
fn insert(number: u16) -> [u8; 34] {
    let [high, low] = number.to_be_bytes();
    [
        0x50, 1, 1, 0, 0, 0, 0, 0, 0, 0, 1, 0, 0, 0, 0, 0, 0, 0, 1, 0, 0, 0, 0, 0, 0, high, low, 1,
        2, high, low, 0, 1, 0x76,
    ]
}

/// Plays a script over an empty cloud, and compares what is told.
pub(crate) fn play(alloc: Global, script: &[Step<'_>], wanted: &str) -> Result<(), Fail> {
    let mut cloud = MemoryCloud::new(alloc);
    play_all(alloc, &mut cloud, script, wanted)
}

/// Plays a script over a cloud of which one call fails, all calls counted.
pub(crate) fn play_failing(
    alloc: Global,
    call: u64,
    script: &[Step<'_>],
    wanted: &str,
) -> Result<(), Fail> {
    let mut cloud = MemoryCloud::with_failures(alloc, &[call])?;
    play_all(alloc, &mut cloud, script, wanted)
}

fn play_all<S: Store>(
    alloc: Global,
    cloud: &mut S,
    script: &[Step<'_>],
    wanted: &str,
) -> Result<(), Fail> {
    let mut story = Story::new(alloc);
    play_each(alloc, cloud, &mut story, script)?;
    story.is(wanted)
}

fn play_each<S: Store>(
    alloc: Global,
    cloud: &mut S,
    story: &mut Story,
    script: &[Step<'_>],
) -> Result<(), Fail> {
    let mut home: Option<Home> = None;
    for step in script {
        play_step(alloc, cloud, story, &mut home, *step)?;
    }
    Ok(())
}

fn play_step<S: Store>(
    alloc: Global,
    cloud: &mut S,
    story: &mut Story,
    home: &mut Option<Home>,
    step: Step<'_>,
) -> Result<(), Fail> {
    match step {
        Step::Leaves(head, records) => leave(cloud, head, records),
        Step::Logs(bytes) => send(cloud, atomic()?, bytes),
        Step::Inserts(count) => insert_all(cloud, count),
        Step::Takes(ticks) => hold(cloud, ticks),
        Step::Opens(short) => recover(alloc, cloud, story, home, Aim::Opening, None, short),
        Step::Reopens => {
            let former = lease_of(home.take());
            recover(alloc, cloud, story, home, Aim::Opening, former, 0)
        }
        Step::Recovers => recover(alloc, cloud, story, home, Aim::Settling, None, 0),
        Step::Settles(first, last) => settle(alloc, cloud, story, first, last),
        Step::Has(number, bytes) => has(cloud, number, bytes),
    }
}

fn leave<S: Store>(cloud: &mut S, bytes: &[u8], records: &[Record]) -> Result<(), Fail> {
    if !bytes.is_empty() {
        put(cloud, lock()?, head()?, bytes)?;
    }
    for left in records {
        send(cloud, atomic()?, &record(*left))?;
    }
    Ok(())
}

fn insert_all<S: Store>(cloud: &mut S, count: u16) -> Result<(), Fail> {
    for number in 1..=count {
        send(cloud, queue(0)?, &insert(number))?;
    }
    Ok(())
}

fn hold<S: Store>(cloud: &mut S, ticks: u64) -> Result<(), Fail> {
    let _lease = take(cloud, lock()?, ticks)?;
    Ok(())
}

fn has<S: Store>(cloud: &S, number: u64, bytes: &[u8]) -> Result<(), Fail> {
    if cloud.has_version(head()?, number, bytes) {
        Ok(())
    } else {
        Err(Fail::from("another head"))
    }
}

fn lease_of(home: Option<Home>) -> Option<Lease> {
    match home {
        Some(home) => Some(home.into_lease()),
        None => None,
    }
}

/// A recovery: its calls and its answer are told, and it leaves the client's home.
fn recover<S: Store>(
    alloc: Global,
    cloud: &mut S,
    story: &mut Story,
    home: &mut Option<Home>,
    aim: Aim,
    former: Option<Lease>,
    short: u64,
) -> Result<(), Fail> {
    let calls = Calls {
        first: 1,
        last: 40,
        short,
    };
    let mut recovery = RecoverRun::new(alloc, client()?, aim, former);
    run(&mut recovery, alloc, cloud, story, calls)?;
    *home = recovery.finish();
    Ok(())
}

/// A settling: some of its calls and its answer are told.
fn settle<S: Store>(
    alloc: Global,
    cloud: &mut S,
    story: &mut Story,
    first: u64,
    last: u64,
) -> Result<(), Fail> {
    let calls = Calls {
        first,
        last,
        short: 0,
    };
    let mut settling = SettleRun::new(alloc);
    run(&mut settling, alloc, cloud, story, calls)
}
