//! What is done with a cloud, call by call, and what each call is to answer.

use cloud_trait::cloud::{Bench, Cloud};
use cloud_trait::fault::{CloudFault, HeldFault};
use cloud_trait::grant::Grant;
use cloud_trait::lease::Lease;
use cloud_trait::message::Message;
use cloud_trait::who::Who;
use db_base::blob::Blob;
use db_base::ids::{ClientId, MsgId, PageId, SessionNo, TreeId};
use db_base::names::{Lock, ObjName, QueueName};
use std::fs;
use std::fs::File;
use std::os::unix::fs::symlink;
use std::rt::Files;

/// A step of a script: a call about one page, one queue or one lock, by one session, and its answer.
#[derive(Clone, Copy)]
pub(crate) enum Step<'a> {
    /// A get: the page's bytes, or none.
    Gets(Option<&'a [u8]>),
    /// A get under the lease in hand.
    GetsHeld(Option<&'a [u8]>),
    /// A look.
    Peeks(Option<&'a [u8]>),
    /// A put under the lease in hand.
    Puts(&'a [u8]),
    /// A put that comes late: the end of the lease in hand, and the clock.
    PutsLate(&'a [u8], u64, u64),
    /// A get under the lease in hand that comes late: the end of the lease, and the clock.
    GetsLate(u64, u64),
    /// A renewal that comes late: the end of the lease, and the clock.
    RenewsLate(u64, u64),
    /// A put of a page, by its number, under the lease in hand.
    PutsPage(u64, &'a [u8]),
    /// A listing under the lease in hand: the numbers of the pages.
    Lists(&'a [u64]),
    /// A listing that comes late: the end of the lease in hand, and the clock.
    ListsLate(u64, u64),
    /// A listing under the lease in hand that fails.
    FailsToList,
    /// A removal of a page, by its number, under the lease in hand.
    TakesAway(u64),
    /// A removal that comes late: the end of the lease in hand, and the clock.
    TakesAwayLate(u64, u64),
    /// A removal of a page, by its number, under the lease in hand, which fails.
    FailsToTakeAway(u64),
    /// A get that fails.
    FailsToGet,
    /// A get under the lease in hand that fails.
    FailsToGetHeld,
    /// A put under the lease in hand that fails.
    FailsToPut(&'a [u8]),
    /// A put under the lease in hand and the one that was kept, which fails.
    FailsToPutUnderBoth(&'a [u8]),
    /// A renewal of the lease in hand that fails, and leaves its end.
    FailsToRenew,
    /// A release of the lease in hand that fails.
    FailsToRelease,
    /// A receive that fails.
    FailsToReceive,
    /// The lease in hand and the one that was kept change places.
    Swaps,
    /// A take for some ticks: the generation and the end of the lease, which is in hand then.
    Takes(u64, u64, u64),
    /// A take for some ticks, while the lock is held: until when.
    FindsHeld(u64, u64),
    /// A take for some ticks that fails.
    FailsToTake(u64),
    /// A renewal of the lease in hand for some ticks: its end.
    Renews(u64, u64),
    /// A release of the lease in hand.
    Releases,
    /// A send: the number of the message.
    Sends(&'a [u8], u64),
    /// A send that fails.
    FailsToSend(&'a [u8]),
    /// A receive of at most so many messages: their numbers and bytes.
    Receives(u16, &'a [(u64, &'a [u8])]),
    /// A deletion of a message by its number.
    Deletes(u64),
    /// How many messages are there.
    Counts(u64),
    /// The clock.
    IsAt(u64),
    /// A file is written by another program.
    Writes(&'a str, &'a [u8]),
    /// A file is removed by another program.
    Removes(&'a str),
    /// A folder is made by another program.
    MakesFolder(&'a str),
    /// A file of so many bytes, all 0, is made by another program.
    MakesLarge(&'a str, u64),
    /// A link to a path is made by another program.
    Links(&'a str, &'a str),
    /// A file has this text.
    Has(&'a str, &'a str),
    /// Nothing is there.
    Lacks(&'a str),
}

/// The lease in hand, and one that was kept.
#[derive(Drop)]
pub(crate) struct Leases {
    lease: Option<Lease>,
    kept: Option<Lease>,
}

impl Leases {
    /// None yet.
    pub fn none() -> Leases {
        Leases {
            lease: None,
            kept: None,
        }
    }

    fn swap(&mut self) -> bool {
        let lease = self.lease.take();
        self.lease = self.kept.take();
        self.kept = lease;
        true
    }
}

/// Who calls, and what about.
#[derive(Clone, Copy)]
struct Names {
    who: Who,
    tree: TreeId,
    page: ObjName,
    queue: QueueName,
    lock: Lock,
}

/// Event 7 of session 3, tree 1 with its page 2 and its queue, and the lock of client 2.
fn those() -> Option<Names> {
    let (Ok(session), Ok(client)) = (SessionNo::new(3), ClientId::new(2)) else {
        return None;
    };
    let (Ok(tree), Ok(page)) = (TreeId::new(1), PageId::new(2)) else {
        return None;
    };
    Some(Names {
        who: Who::new(session, 7),
        tree,
        page: ObjName::Page(tree, page),
        queue: QueueName::TreePu(tree),
        lock: Lock::Client(client),
    })
}

/// Whether all steps of a script answer as they are to, with leases at hand or none.
pub(crate) fn play<R: Files<File = File> + AllocGlobal, C: Bench>(
    rt: &R,
    cloud: &mut C,
    leases: &mut Leases,
    script: &[Step<'_>],
) -> bool {
    match those() {
        Some(names) => play_all(rt, cloud, &names, leases, script),
        None => false,
    }
}

fn play_all<R: Files<File = File> + AllocGlobal, C: Bench>(
    rt: &R,
    cloud: &mut C,
    names: &Names,
    leases: &mut Leases,
    script: &[Step<'_>],
) -> bool {
    for step in script {
        if !play_step(rt, cloud, names, leases, *step) {
            return false;
        }
    }
    true
}

fn play_step<R: Files<File = File> + AllocGlobal, C: Bench>(
    rt: &R,
    cloud: &mut C,
    names: &Names,
    leases: &mut Leases,
    step: Step<'_>,
) -> bool {
    match step {
        Step::Gets(wanted) => gets(cloud, names, wanted),
        Step::FailsToGet => fails_to_get(cloud, names),
        Step::Peeks(wanted) => peeks(cloud, names, wanted),
        Step::Sends(bytes, id) => sends(cloud, names, bytes, id),
        Step::FailsToSend(bytes) => fails_to_send(cloud, names, bytes),
        Step::Receives(most, wanted) => receives(cloud, names, most, wanted),
        Step::FailsToReceive => fails_to_receive(cloud, names),
        Step::Deletes(id) => cloud.delete(names.who, names.queue, MsgId::new(id)).is_ok(),
        Step::Counts(wanted) => counts(cloud, names, wanted),
        Step::IsAt(wanted) => cloud.now() == wanted,
        Step::Writes(path, bytes) => fs::write(rt, path, bytes).is_ok(),
        Step::Removes(path) => fs::remove_file(rt, path).is_ok(),
        Step::MakesFolder(path) => fs::create_dir(rt, path).is_ok(),
        Step::MakesLarge(path, len) => makes_large(rt, path, len),
        Step::Links(path, target) => symlink(rt, target, path).is_ok(),
        Step::Has(path, text) => has(rt, path, text),
        Step::Lacks(path) => fs::symlink_metadata(rt, path).is_err(),
        _ => play_held(cloud, names, leases, step),
    }
}

/// The same for a step that is about a lease.
fn play_held<C: Cloud>(cloud: &mut C, names: &Names, leases: &mut Leases, step: Step<'_>) -> bool {
    let lease = &mut leases.lease;
    match step {
        Step::GetsHeld(wanted) => gets_held(cloud, names, lease, wanted),
        Step::GetsLate(end, now) => gets_late(cloud, names, lease, (end, now)),
        Step::FailsToGetHeld => fails_to_get_held(cloud, names, lease),
        Step::Puts(bytes) => puts(cloud, names, lease, bytes),
        Step::PutsLate(bytes, end, now) => puts_late(cloud, names, lease, bytes, (end, now)),
        Step::FailsToPut(bytes) => fails_to_put(cloud, names, lease, bytes),
        Step::FailsToPutUnderBoth(bytes) => fails_to_put_both(cloud, names, leases, bytes),
        Step::Takes(ticks, generation, end) => takes(cloud, names, lease, ticks, (generation, end)),
        Step::FindsHeld(ticks, until) => finds_held(cloud, names, ticks, until),
        Step::FailsToTake(ticks) => fails_to_take(cloud, names, ticks),
        Step::Renews(ticks, end) => renews(cloud, names, lease, ticks, end),
        Step::RenewsLate(end, now) => renews_late(cloud, names, lease, (end, now)),
        Step::FailsToRenew => fails_to_renew(cloud, names, lease),
        Step::Releases => releases(cloud, names, lease),
        Step::FailsToRelease => fails_to_release(cloud, names, lease),
        Step::Swaps => leases.swap(),
        _ => play_pages(cloud, names, lease, step),
    }
}

/// The same for a step that is about the pages of the tree.
fn play_pages<C: Cloud>(
    cloud: &mut C,
    names: &Names,
    lease: &Option<Lease>,
    step: Step<'_>,
) -> bool {
    let Some(lease) = lease else {
        return false;
    };
    match step {
        Step::PutsPage(number, bytes) => puts_page(cloud, names, lease, number, bytes),
        Step::Lists(wanted) => lists(cloud, names, lease, wanted),
        Step::ListsLate(end, now) => lists_late(cloud, names, lease, (end, now)),
        Step::FailsToList => fails_to_list(cloud, names, lease),
        Step::TakesAway(number) => takes_away(cloud, names, lease, number),
        Step::TakesAwayLate(end, now) => takes_away_late(cloud, names, lease, (end, now)),
        Step::FailsToTakeAway(number) => fails_to_take_away(cloud, names, lease, number),
        _ => false,
    }
}

/// Whether what was read of an object is this.
fn is_read(got: &Option<Blob>, wanted: Option<&[u8]>) -> bool {
    match (got, wanted) {
        (Some(got), Some(wanted)) => got.as_slice() == wanted,
        (None, None) => true,
        _ => false,
    }
}

fn gets<C: Cloud>(cloud: &mut C, names: &Names, wanted: Option<&[u8]>) -> bool {
    match cloud.get(names.who, names.page) {
        Ok(got) => is_read(&got, wanted),
        Err(_) => false,
    }
}

fn gets_under<C: Cloud>(
    cloud: &mut C,
    names: &Names,
    lease: &Lease,
    wanted: Option<&[u8]>,
) -> bool {
    match cloud.get_held(names.who, names.page, lease) {
        Ok(got) => is_read(&got, wanted),
        Err(_) => false,
    }
}

fn gets_held<C: Cloud>(
    cloud: &mut C,
    names: &Names,
    lease: &Option<Lease>,
    wanted: Option<&[u8]>,
) -> bool {
    match lease {
        Some(lease) => gets_under(cloud, names, lease, wanted),
        None => false,
    }
}

fn peeks<C: Bench>(cloud: &mut C, names: &Names, wanted: Option<&[u8]>) -> bool {
    match cloud.peek(names.page) {
        Ok(got) => is_read(&got, wanted) && finds(cloud, names, wanted),
        Err(_) => false,
    }
}

/// Whether a look finds the wanted bytes in the page, and no others.
fn finds<C: Bench>(cloud: &mut C, names: &Names, wanted: Option<&[u8]>) -> bool {
    let same = match wanted {
        Some(bytes) => cloud.has(names.page, bytes).ok() == Some(true),
        None => true,
    };
    same && cloud.has(names.page, b"another").ok() == Some(false)
}

fn puts<C: Cloud>(cloud: &mut C, names: &Names, lease: &Option<Lease>, bytes: &[u8]) -> bool {
    match lease {
        Some(lease) => cloud
            .put_held(names.who, names.page, bytes, lease, None)
            .is_ok(),
        None => false,
    }
}

/// Whether a put comes late: the end of the lease and the clock.
fn puts_late<C: Cloud>(
    cloud: &mut C,
    names: &Names,
    lease: &Option<Lease>,
    bytes: &[u8],
    wanted: (u64, u64),
) -> bool {
    let Some(lease) = lease else {
        return false;
    };
    match cloud.put_held(names.who, names.page, bytes, lease, None) {
        Err(HeldFault::Late { end, now }) => (end, now) == wanted,
        _ => false,
    }
}

/// Whether a take gives a lease of this generation and end.
fn takes<C: Cloud>(
    cloud: &mut C,
    names: &Names,
    lease: &mut Option<Lease>,
    ticks: u64,
    wanted: (u64, u64),
) -> bool {
    match cloud.take(names.who, names.lock, ticks) {
        Ok(Grant::Given(given)) => {
            let so = (given.generation(), given.end()) == wanted;
            *lease = Some(given);
            so
        }
        _ => false,
    }
}

fn finds_held<C: Cloud>(cloud: &mut C, names: &Names, ticks: u64, wanted: u64) -> bool {
    match cloud.take(names.who, names.lock, ticks) {
        Ok(Grant::Held(until)) => until == wanted,
        _ => false,
    }
}

fn fails_to_take<C: Cloud>(cloud: &mut C, names: &Names, ticks: u64) -> bool {
    matches!(
        cloud.take(names.who, names.lock, ticks),
        Err(CloudFault::Failed)
    )
}

fn fails_to_send<C: Cloud>(cloud: &mut C, names: &Names, bytes: &[u8]) -> bool {
    matches!(
        cloud.send(names.who, names.queue, bytes),
        Err(CloudFault::Failed)
    )
}

fn renews<C: Cloud>(
    cloud: &mut C,
    names: &Names,
    lease: &mut Option<Lease>,
    ticks: u64,
    end: u64,
) -> bool {
    match lease {
        Some(lease) => cloud.renew(names.who, lease, ticks).is_ok() && lease.end() == end,
        None => false,
    }
}

fn releases<C: Cloud>(cloud: &mut C, names: &Names, lease: &mut Option<Lease>) -> bool {
    match lease.take() {
        Some(lease) => cloud.release(names.who, lease).is_ok(),
        None => false,
    }
}

fn sends<C: Cloud>(cloud: &mut C, names: &Names, bytes: &[u8], wanted: u64) -> bool {
    match cloud.send(names.who, names.queue, bytes) {
        Ok(id) => id.get() == wanted,
        Err(_) => false,
    }
}

fn is_message(message: Option<&Message>, id: u64, bytes: &[u8]) -> bool {
    match message {
        Some(message) => message.id.get() == id && message.bytes.as_slice() == bytes,
        None => false,
    }
}

fn are_messages(messages: &[Message], wanted: &[(u64, &[u8])]) -> bool {
    for (index, (id, bytes)) in wanted.iter().enumerate() {
        if !is_message(messages.get(index), *id, bytes) {
            return false;
        }
    }
    messages.len() == wanted.len()
}

fn receives<C: Cloud>(cloud: &mut C, names: &Names, most: u16, wanted: &[(u64, &[u8])]) -> bool {
    match cloud.receive(names.who, names.queue, most) {
        Ok(messages) => are_messages(messages.as_slice(), wanted),
        Err(_) => false,
    }
}

fn counts<C: Bench>(cloud: &mut C, names: &Names, wanted: u64) -> bool {
    match cloud.backlog(names.queue) {
        Ok(count) => count == wanted,
        Err(_) => false,
    }
}

fn has<R: Files<File = File> + AllocGlobal>(rt: &R, path: &str, wanted: &str) -> bool {
    match fs::read_to_string(rt, path) {
        Ok(text) => text.as_str() == wanted,
        Err(_) => false,
    }
}

fn fails_to_get<C: Cloud>(cloud: &mut C, names: &Names) -> bool {
    matches!(cloud.get(names.who, names.page), Err(CloudFault::Failed))
}

fn fails_to_receive<C: Cloud>(cloud: &mut C, names: &Names) -> bool {
    matches!(
        cloud.receive(names.who, names.queue, 256),
        Err(CloudFault::Failed)
    )
}

/// Whether a get under the lease in hand comes late: the end of the lease and the clock.
fn gets_late<C: Cloud>(
    cloud: &mut C,
    names: &Names,
    lease: &Option<Lease>,
    wanted: (u64, u64),
) -> bool {
    let Some(lease) = lease else {
        return false;
    };
    match cloud.get_held(names.who, names.page, lease) {
        Err(HeldFault::Late { end, now }) => (end, now) == wanted,
        _ => false,
    }
}

fn fails_to_get_held<C: Cloud>(cloud: &mut C, names: &Names, lease: &Option<Lease>) -> bool {
    match lease {
        Some(lease) => matches!(
            cloud.get_held(names.who, names.page, lease),
            Err(HeldFault::Failed)
        ),
        None => false,
    }
}

fn fails_to_put<C: Cloud>(
    cloud: &mut C,
    names: &Names,
    lease: &Option<Lease>,
    bytes: &[u8],
) -> bool {
    match lease {
        Some(lease) => matches!(
            cloud.put_held(names.who, names.page, bytes, lease, None),
            Err(HeldFault::Failed)
        ),
        None => false,
    }
}

/// Whether a put under the lease in hand fails, and one under both leases, whichever comes first.
fn fails_to_put_both<C: Cloud>(
    cloud: &mut C,
    names: &Names,
    leases: &Leases,
    bytes: &[u8],
) -> bool {
    let (Some(lease), Some(kept)) = (&leases.lease, &leases.kept) else {
        return false;
    };
    let one = cloud.put_held(names.who, names.page, bytes, lease, Some(kept));
    let other = cloud.put_held(names.who, names.page, bytes, kept, Some(lease));
    matches!(one, Err(HeldFault::Failed)) && matches!(other, Err(HeldFault::Failed))
}

/// Whether a renewal comes late, and leaves the lease: its end and the clock.
fn renews_late<C: Cloud>(
    cloud: &mut C,
    names: &Names,
    lease: &mut Option<Lease>,
    wanted: (u64, u64),
) -> bool {
    let Some(lease) = lease else {
        return false;
    };
    match cloud.renew(names.who, lease, 100) {
        Err(HeldFault::Late { end, now }) => (end, now) == wanted && lease.end() == end,
        _ => false,
    }
}

/// Whether a renewal fails, and leaves the end of the lease.
fn fails_to_renew<C: Cloud>(cloud: &mut C, names: &Names, lease: &mut Option<Lease>) -> bool {
    let Some(lease) = lease else {
        return false;
    };
    let end = lease.end();
    let renewed = cloud.renew(names.who, lease, 100);
    matches!(renewed, Err(HeldFault::Failed)) && lease.end() == end
}

fn fails_to_release<C: Cloud>(cloud: &mut C, names: &Names, lease: &mut Option<Lease>) -> bool {
    match lease.take() {
        Some(lease) => matches!(cloud.release(names.who, lease), Err(CloudFault::Failed)),
        None => false,
    }
}

/// Whether a file of so many bytes is made, which takes no space.
fn makes_large<R: Files<File = File>>(rt: &R, path: &str, len: u64) -> bool {
    match fs::create(rt, path) {
        Ok(file) => file.set_len(len).is_ok(),
        Err(_) => false,
    }
}

/// A page of the tree.
fn page_at(names: &Names, number: u64) -> Option<ObjName> {
    match PageId::new(number) {
        Ok(page) => Some(ObjName::Page(names.tree, page)),
        Err(_) => None,
    }
}

fn puts_page<C: Cloud>(
    cloud: &mut C,
    names: &Names,
    lease: &Lease,
    number: u64,
    bytes: &[u8],
) -> bool {
    match page_at(names, number) {
        Some(page) => cloud.put_held(names.who, page, bytes, lease, None).is_ok(),
        None => false,
    }
}

fn is_page(page: Option<&PageId>, number: u64) -> bool {
    match page {
        Some(page) => page.get() == number,
        None => false,
    }
}

fn are_pages(pages: &[PageId], wanted: &[u64]) -> bool {
    for (index, number) in wanted.iter().enumerate() {
        if !is_page(pages.get(index), *number) {
            return false;
        }
    }
    pages.len() == wanted.len()
}

fn lists<C: Cloud>(cloud: &mut C, names: &Names, lease: &Lease, wanted: &[u64]) -> bool {
    match cloud.list_held(names.who, names.tree, lease) {
        Ok(pages) => are_pages(pages.as_slice(), wanted),
        Err(_) => false,
    }
}

/// Whether a listing comes late: the end of the lease and the clock.
fn lists_late<C: Cloud>(cloud: &mut C, names: &Names, lease: &Lease, wanted: (u64, u64)) -> bool {
    match cloud.list_held(names.who, names.tree, lease) {
        Err(HeldFault::Late { end, now }) => (end, now) == wanted,
        _ => false,
    }
}

fn fails_to_list<C: Cloud>(cloud: &mut C, names: &Names, lease: &Lease) -> bool {
    matches!(
        cloud.list_held(names.who, names.tree, lease),
        Err(HeldFault::Failed)
    )
}

fn takes_away<C: Cloud>(cloud: &mut C, names: &Names, lease: &Lease, number: u64) -> bool {
    match page_at(names, number) {
        Some(page) => cloud.remove_held(names.who, page, lease).is_ok(),
        None => false,
    }
}

/// Whether a removal comes late: the end of the lease and the clock.
fn takes_away_late<C: Cloud>(
    cloud: &mut C,
    names: &Names,
    lease: &Lease,
    wanted: (u64, u64),
) -> bool {
    match cloud.remove_held(names.who, names.page, lease) {
        Err(HeldFault::Late { end, now }) => (end, now) == wanted,
        _ => false,
    }
}

fn fails_to_take_away<C: Cloud>(cloud: &mut C, names: &Names, lease: &Lease, number: u64) -> bool {
    match page_at(names, number) {
        Some(page) => matches!(
            cloud.remove_held(names.who, page, lease),
            Err(HeldFault::Failed)
        ),
        None => false,
    }
}
