ghost use Rattle.cloud_trait.specs.Call.{ask_of, Lends};

use super::{Mishap, Names, Shown, befall, ends_at, taken, usual_names};
use cloud_trait::answer::Answer;
use cloud_trait::call::Call;
use cloud_trait::cloud::{Bench, Cloud};
use cloud_trait::lease::Lease;
use cloud_trait::message::Message;
use cloud_trait::perform::{let_go, perform, renew};
use db_base::blob::Blob;
use db_base::ids::{MsgId, PageId};
use db_base::names::ObjName;
use memory_cloud::memory::MemoryCloud;
use std::alloc::Global;
use std::process::Abort;

// A call of the tests.
#[derive(Clone, Copy)]
enum Asked {
    Get,
    GetHeld,
    PutHeld,
    ListHeld,
    ListOther,
    RemoveHeld,
    Send,
    Receive,
    Delete,
    DeleteAgain,
    DeleteNone,
    Take,
    TakeHeld,
    Renew,
    Release,
}

// What a call is to answer: bytes, a message's number, the numbers of messages or of pages, a lease's generation and end, the end
// of a lock or of a lease, or the end of a lease that is over and the clock.
#[derive(Clone, Copy)]
enum Wanted {
    Got(&'static [u8]),
    Nothing,
    Sent(u64),
    Received(&'static [u64]),
    Listed(&'static [u64]),
    Done,
    Given(u64, u64),
    Held(u64),
    Renewed(u64),
    Late(u64, u64),
    Failed,
}

// What a call lands: a third version of the object, with bytes or without, or a fourth message.
#[derive(Clone, Copy)]
enum Lands {
    Nothing,
    Version,
    Removal,
    Message,
}

// What a call answers under each of some mishaps, after so many ticks; what it lands; and how many messages it leaves, and the ends
// of the locks of page and tree. The lease of the tree ends after ten ticks.
struct Row {
    asked: Asked,
    ticks: u64,
    mishaps: &'static [Mishap],
    wanted: Wanted,
    lands: Lands,
    left: (u64, u64, u64),
}

static ROWS: [Row; 56] = [
    Row {
        asked: Asked::Get,
        ticks: 0,
        mishaps: &[Mishap::Plain, Mishap::Hide, Mishap::Give, Mishap::Newest],
        wanted: Wanted::Got(b"b"),
        lands: Lands::Nothing,
        left: (2, 0, 20),
    },
    Row {
        asked: Asked::Get,
        ticks: 0,
        mishaps: &[Mishap::Fail, Mishap::Lost],
        wanted: Wanted::Failed,
        lands: Lands::Nothing,
        left: (2, 0, 20),
    },
    Row {
        asked: Asked::Get,
        ticks: 0,
        mishaps: &[Mishap::Old],
        wanted: Wanted::Got(b"a"),
        lands: Lands::Nothing,
        left: (2, 0, 20),
    },
    Row {
        asked: Asked::Get,
        ticks: 0,
        mishaps: &[Mishap::Oldest],
        wanted: Wanted::Nothing,
        lands: Lands::Nothing,
        left: (2, 0, 20),
    },
    Row {
        asked: Asked::GetHeld,
        ticks: 0,
        mishaps: &[Mishap::Plain, Mishap::Hide, Mishap::Old, Mishap::Give],
        wanted: Wanted::Got(b"b"),
        lands: Lands::Nothing,
        left: (2, 0, 20),
    },
    Row {
        asked: Asked::GetHeld,
        ticks: 0,
        mishaps: &[Mishap::Fail, Mishap::Lost],
        wanted: Wanted::Failed,
        lands: Lands::Nothing,
        left: (2, 0, 20),
    },
    Row {
        asked: Asked::GetHeld,
        ticks: 10,
        mishaps: &[Mishap::Plain, Mishap::Lost, Mishap::Hide],
        wanted: Wanted::Late(20, 20),
        lands: Lands::Nothing,
        left: (2, 0, 0),
    },
    Row {
        asked: Asked::GetHeld,
        ticks: 10,
        mishaps: &[Mishap::Old, Mishap::Give],
        wanted: Wanted::Late(20, 20),
        lands: Lands::Nothing,
        left: (2, 0, 0),
    },
    Row {
        asked: Asked::GetHeld,
        ticks: 10,
        mishaps: &[Mishap::Fail],
        wanted: Wanted::Failed,
        lands: Lands::Nothing,
        left: (2, 0, 0),
    },
    Row {
        asked: Asked::PutHeld,
        ticks: 0,
        mishaps: &[Mishap::Plain, Mishap::Hide, Mishap::Old, Mishap::Give],
        wanted: Wanted::Done,
        lands: Lands::Version,
        left: (2, 0, 20),
    },
    Row {
        asked: Asked::PutHeld,
        ticks: 0,
        mishaps: &[Mishap::Fail],
        wanted: Wanted::Failed,
        lands: Lands::Nothing,
        left: (2, 0, 20),
    },
    Row {
        asked: Asked::PutHeld,
        ticks: 0,
        mishaps: &[Mishap::Lost],
        wanted: Wanted::Failed,
        lands: Lands::Version,
        left: (2, 0, 20),
    },
    Row {
        asked: Asked::PutHeld,
        ticks: 10,
        mishaps: &[Mishap::Plain, Mishap::Lost, Mishap::Hide],
        wanted: Wanted::Late(20, 20),
        lands: Lands::Nothing,
        left: (2, 0, 0),
    },
    Row {
        asked: Asked::PutHeld,
        ticks: 10,
        mishaps: &[Mishap::Old, Mishap::Give],
        wanted: Wanted::Late(20, 20),
        lands: Lands::Nothing,
        left: (2, 0, 0),
    },
    Row {
        asked: Asked::PutHeld,
        ticks: 10,
        mishaps: &[Mishap::Fail],
        wanted: Wanted::Failed,
        lands: Lands::Nothing,
        left: (2, 0, 0),
    },
    Row {
        asked: Asked::ListHeld,
        ticks: 0,
        mishaps: &[Mishap::Plain, Mishap::Hide, Mishap::Old, Mishap::Give],
        wanted: Wanted::Listed(&[1, 2, 3]),
        lands: Lands::Nothing,
        left: (2, 0, 20),
    },
    Row {
        asked: Asked::ListHeld,
        ticks: 0,
        mishaps: &[Mishap::Fail, Mishap::Lost],
        wanted: Wanted::Failed,
        lands: Lands::Nothing,
        left: (2, 0, 20),
    },
    Row {
        asked: Asked::ListHeld,
        ticks: 10,
        mishaps: &[Mishap::Plain, Mishap::Lost, Mishap::Hide],
        wanted: Wanted::Late(20, 20),
        lands: Lands::Nothing,
        left: (2, 0, 0),
    },
    Row {
        asked: Asked::ListHeld,
        ticks: 10,
        mishaps: &[Mishap::Old, Mishap::Give],
        wanted: Wanted::Late(20, 20),
        lands: Lands::Nothing,
        left: (2, 0, 0),
    },
    Row {
        asked: Asked::ListHeld,
        ticks: 10,
        mishaps: &[Mishap::Fail],
        wanted: Wanted::Failed,
        lands: Lands::Nothing,
        left: (2, 0, 0),
    },
    Row {
        asked: Asked::ListOther,
        ticks: 0,
        mishaps: &[Mishap::Plain, Mishap::Oldest, Mishap::Newest],
        wanted: Wanted::Listed(&[]),
        lands: Lands::Nothing,
        left: (2, 0, 20),
    },
    Row {
        asked: Asked::RemoveHeld,
        ticks: 0,
        mishaps: &[Mishap::Plain, Mishap::Hide, Mishap::Old, Mishap::Give],
        wanted: Wanted::Done,
        lands: Lands::Removal,
        left: (2, 0, 20),
    },
    Row {
        asked: Asked::RemoveHeld,
        ticks: 0,
        mishaps: &[Mishap::Fail],
        wanted: Wanted::Failed,
        lands: Lands::Nothing,
        left: (2, 0, 20),
    },
    Row {
        asked: Asked::RemoveHeld,
        ticks: 0,
        mishaps: &[Mishap::Lost],
        wanted: Wanted::Failed,
        lands: Lands::Removal,
        left: (2, 0, 20),
    },
    Row {
        asked: Asked::RemoveHeld,
        ticks: 10,
        mishaps: &[Mishap::Plain, Mishap::Lost, Mishap::Hide],
        wanted: Wanted::Late(20, 20),
        lands: Lands::Nothing,
        left: (2, 0, 0),
    },
    Row {
        asked: Asked::RemoveHeld,
        ticks: 10,
        mishaps: &[Mishap::Old, Mishap::Give],
        wanted: Wanted::Late(20, 20),
        lands: Lands::Nothing,
        left: (2, 0, 0),
    },
    Row {
        asked: Asked::RemoveHeld,
        ticks: 10,
        mishaps: &[Mishap::Fail],
        wanted: Wanted::Failed,
        lands: Lands::Nothing,
        left: (2, 0, 0),
    },
    Row {
        asked: Asked::Send,
        ticks: 0,
        mishaps: &[Mishap::Plain, Mishap::Hide, Mishap::Old, Mishap::Give],
        wanted: Wanted::Sent(4),
        lands: Lands::Message,
        left: (3, 0, 20),
    },
    Row {
        asked: Asked::Send,
        ticks: 0,
        mishaps: &[Mishap::Fail],
        wanted: Wanted::Failed,
        lands: Lands::Nothing,
        left: (2, 0, 20),
    },
    Row {
        asked: Asked::Send,
        ticks: 0,
        mishaps: &[Mishap::Lost],
        wanted: Wanted::Failed,
        lands: Lands::Message,
        left: (3, 0, 20),
    },
    Row {
        asked: Asked::Receive,
        ticks: 0,
        mishaps: &[Mishap::Plain, Mishap::Old],
        wanted: Wanted::Received(&[2, 3]),
        lands: Lands::Nothing,
        left: (2, 0, 20),
    },
    Row {
        asked: Asked::Receive,
        ticks: 0,
        mishaps: &[Mishap::Fail, Mishap::Lost],
        wanted: Wanted::Failed,
        lands: Lands::Nothing,
        left: (2, 0, 20),
    },
    Row {
        asked: Asked::Receive,
        ticks: 0,
        mishaps: &[Mishap::Hide],
        wanted: Wanted::Received(&[]),
        lands: Lands::Nothing,
        left: (2, 0, 20),
    },
    Row {
        asked: Asked::Receive,
        ticks: 0,
        mishaps: &[Mishap::Give],
        wanted: Wanted::Received(&[3, 1]),
        lands: Lands::Nothing,
        left: (2, 0, 20),
    },
    Row {
        asked: Asked::Delete,
        ticks: 0,
        mishaps: &[Mishap::Plain, Mishap::Hide, Mishap::Old, Mishap::Give],
        wanted: Wanted::Done,
        lands: Lands::Nothing,
        left: (1, 0, 20),
    },
    Row {
        asked: Asked::Delete,
        ticks: 0,
        mishaps: &[Mishap::Fail],
        wanted: Wanted::Failed,
        lands: Lands::Nothing,
        left: (2, 0, 20),
    },
    Row {
        asked: Asked::Delete,
        ticks: 0,
        mishaps: &[Mishap::Lost],
        wanted: Wanted::Failed,
        lands: Lands::Nothing,
        left: (1, 0, 20),
    },
    Row {
        asked: Asked::DeleteAgain,
        ticks: 0,
        mishaps: &[Mishap::Plain, Mishap::Hide, Mishap::Old, Mishap::Give],
        wanted: Wanted::Done,
        lands: Lands::Nothing,
        left: (2, 0, 20),
    },
    Row {
        asked: Asked::DeleteNone,
        ticks: 0,
        mishaps: &[Mishap::Plain, Mishap::Hide, Mishap::Old, Mishap::Give],
        wanted: Wanted::Done,
        lands: Lands::Nothing,
        left: (2, 0, 20),
    },
    Row {
        asked: Asked::Take,
        ticks: 0,
        mishaps: &[Mishap::Plain, Mishap::Old, Mishap::Give],
        wanted: Wanted::Given(1, 15),
        lands: Lands::Nothing,
        left: (2, 15, 20),
    },
    Row {
        asked: Asked::Take,
        ticks: 0,
        mishaps: &[Mishap::Fail],
        wanted: Wanted::Failed,
        lands: Lands::Nothing,
        left: (2, 0, 20),
    },
    Row {
        asked: Asked::Take,
        ticks: 0,
        mishaps: &[Mishap::Lost],
        wanted: Wanted::Failed,
        lands: Lands::Nothing,
        left: (2, 15, 20),
    },
    Row {
        asked: Asked::Take,
        ticks: 0,
        mishaps: &[Mishap::Hide],
        wanted: Wanted::Held(10),
        lands: Lands::Nothing,
        left: (2, 0, 20),
    },
    Row {
        asked: Asked::TakeHeld,
        ticks: 0,
        mishaps: &[Mishap::Plain, Mishap::Old, Mishap::Give],
        wanted: Wanted::Held(20),
        lands: Lands::Nothing,
        left: (2, 0, 20),
    },
    Row {
        asked: Asked::TakeHeld,
        ticks: 0,
        mishaps: &[Mishap::Fail, Mishap::Lost],
        wanted: Wanted::Failed,
        lands: Lands::Nothing,
        left: (2, 0, 20),
    },
    Row {
        asked: Asked::TakeHeld,
        ticks: 0,
        mishaps: &[Mishap::Hide],
        wanted: Wanted::Held(10),
        lands: Lands::Nothing,
        left: (2, 0, 20),
    },
    Row {
        asked: Asked::Renew,
        ticks: 0,
        mishaps: &[Mishap::Plain, Mishap::Hide, Mishap::Old, Mishap::Give],
        wanted: Wanted::Renewed(40),
        lands: Lands::Nothing,
        left: (2, 0, 40),
    },
    Row {
        asked: Asked::Renew,
        ticks: 0,
        mishaps: &[Mishap::Fail],
        wanted: Wanted::Failed,
        lands: Lands::Nothing,
        left: (2, 0, 20),
    },
    Row {
        asked: Asked::Renew,
        ticks: 0,
        mishaps: &[Mishap::Lost],
        wanted: Wanted::Failed,
        lands: Lands::Nothing,
        left: (2, 0, 40),
    },
    Row {
        asked: Asked::Renew,
        ticks: 10,
        mishaps: &[Mishap::Plain, Mishap::Lost, Mishap::Hide],
        wanted: Wanted::Late(20, 20),
        lands: Lands::Nothing,
        left: (2, 0, 0),
    },
    Row {
        asked: Asked::Renew,
        ticks: 10,
        mishaps: &[Mishap::Old, Mishap::Give],
        wanted: Wanted::Late(20, 20),
        lands: Lands::Nothing,
        left: (2, 0, 0),
    },
    Row {
        asked: Asked::Renew,
        ticks: 10,
        mishaps: &[Mishap::Fail],
        wanted: Wanted::Failed,
        lands: Lands::Nothing,
        left: (2, 0, 0),
    },
    Row {
        asked: Asked::Release,
        ticks: 0,
        mishaps: &[Mishap::Plain, Mishap::Hide, Mishap::Old, Mishap::Give],
        wanted: Wanted::Done,
        lands: Lands::Nothing,
        left: (2, 0, 0),
    },
    Row {
        asked: Asked::Release,
        ticks: 0,
        mishaps: &[Mishap::Fail],
        wanted: Wanted::Failed,
        lands: Lands::Nothing,
        left: (2, 0, 20),
    },
    Row {
        asked: Asked::Release,
        ticks: 0,
        mishaps: &[Mishap::Lost],
        wanted: Wanted::Failed,
        lands: Lands::Nothing,
        left: (2, 0, 0),
    },
    Row {
        asked: Asked::Release,
        ticks: 10,
        mishaps: &[Mishap::Plain, Mishap::Hide, Mishap::Old, Mishap::Give],
        wanted: Wanted::Done,
        lands: Lands::Nothing,
        left: (2, 0, 0),
    },
];

// Whether an object is put under a lease.
fn is_put<C: Cloud>(cloud: &mut C, names: &Names, lease: &Lease, bytes: &[u8]) -> bool {
    cloud
        .put_held(names.who, names.object, bytes, lease, None)
        .is_ok()
}

// Whether a page of the tree is put under a lease.
fn is_page_put<C: Cloud>(cloud: &mut C, names: &Names, lease: &Lease, number: u64) -> bool {
    match PageId::new(number) {
        Ok(page) => {
            let name = ObjName::Page(names.of, page);
            cloud.put_held(names.who, name, b"p", lease, None).is_ok()
        }
        Err(_) => false,
    }
}

// Whether three pages of the tree are put, not in their order.
fn are_put<C: Cloud>(cloud: &mut C, names: &Names, lease: &Lease) -> bool {
    is_page_put(cloud, names, lease, 3)
        && is_page_put(cloud, names, lease, 1)
        && is_page_put(cloud, names, lease, 2)
}

// Whether a message is sent.
fn is_sent<C: Cloud>(cloud: &mut C, names: &Names, bytes: &[u8]) -> bool {
    cloud.send(names.who, names.queue, bytes).is_ok()
}

// Whether three messages are sent and the first is deleted.
fn are_sent<C: Cloud>(cloud: &mut C, names: &Names) -> bool {
    match cloud.send(names.who, names.queue, b"m1") {
        Ok(first) => {
            is_sent(cloud, names, b"m2")
                && is_sent(cloud, names, b"m3")
                && cloud.delete(names.who, names.queue, first).is_ok()
        }
        Err(_) => false,
    }
}

// Fills a cloud, and gives a lease of the tree: at moment 10 there are two versions of the object, three pages of its tree, three
// messages of which the first is deleted, and the lease until 20.
fn filled<C: Bench>(cloud: &mut C, names: &Names) -> Option<Lease> {
    cloud.wait(10);
    let lease = taken(cloud, names.who, names.tree, 10)?;
    if is_put(cloud, names, &lease, b"a")
        && is_put(cloud, names, &lease, b"b")
        && are_put(cloud, names, &lease)
        && are_sent(cloud, names)
    {
        Some(lease)
    } else {
        None
    }
}

// The call that leaves every lease where it is.
fn call<'a>(names: &Names, lease: &'a Lease, asked: Asked) -> Call<'a>
    ensures { Lends (ask_of result) }
{
    match asked {
        Asked::Get => Call::Get(names.object),
        Asked::GetHeld => Call::GetHeld(names.object, lease),
        Asked::PutHeld => Call::PutHeld(names.object, b"c", lease, None),
        Asked::ListHeld => Call::ListHeld(names.of, lease),
        Asked::ListOther => Call::ListHeld(names.other, lease),
        Asked::RemoveHeld => Call::RemoveHeld(names.object, lease),
        Asked::Send => Call::Send(names.queue, b"m4"),
        Asked::Receive => Call::Receive(names.queue, 2),
        Asked::Delete => Call::Delete(names.queue, MsgId::new(2)),
        Asked::DeleteAgain => Call::Delete(names.queue, MsgId::new(1)),
        Asked::DeleteNone => Call::Delete(names.queue, MsgId::new(9)),
        Asked::Take => Call::Take(names.page, 5),
        _ => Call::Take(names.tree, 5),
    }
}

// Makes a call.
fn made<C: Cloud>(cloud: &mut C, names: &Names, mut lease: Lease, asked: Asked) -> Answer {
    match asked {
        Asked::Renew => renew(cloud, names.who, &mut lease, 30),
        Asked::Release => let_go(cloud, names.who, lease),
        _ => perform(cloud, names.who, &call(names, &lease, asked)),
    }
}

// Whether these bytes were got, none for no object.
pub(super) fn are_got(got: &Option<Blob>, wanted: Option<&[u8]>) -> bool {
    match (got, wanted) {
        (Some(got), Some(wanted)) => got.as_slice() == wanted,
        (None, None) => true,
        _ => false,
    }
}

// Whether messages have these numbers, in their order.
fn are_numbered(messages: &[Message], numbers: &[u64]) -> bool {
    for (message, number) in messages.iter().zip(numbers) {
        if message.id.get() != *number {
            return false;
        }
    }
    messages.len() == numbers.len()
}

// Whether pages have these numbers, in their order.
pub(super) fn are_pages(pages: &[PageId], numbers: &[u64]) -> bool {
    for (page, number) in pages.iter().zip(numbers) {
        if page.get() != *number {
            return false;
        }
    }
    pages.len() == numbers.len()
}

// Whether this was answered.
fn is_answered(answer: &Answer, wanted: Wanted) -> bool {
    match (answer, wanted) {
        (Answer::Got(got), Wanted::Got(bytes)) => are_got(got, Some(bytes)),
        (Answer::Got(got), Wanted::Nothing) => are_got(got, None),
        (Answer::Sent(id), Wanted::Sent(number)) => id.get() == number,
        (Answer::Received(messages), Wanted::Received(numbers)) => {
            are_numbered(messages.as_slice(), numbers)
        }
        (Answer::Listed(pages), Wanted::Listed(numbers)) => are_pages(pages.as_slice(), numbers),
        (Answer::Done, Wanted::Done) => true,
        (Answer::Given(lease), Wanted::Given(generation, end)) => {
            lease.generation() == generation && lease.end() == end
        }
        (Answer::Held(until), Wanted::Held(moment)) => *until == moment,
        (Answer::Renewed(end), Wanted::Renewed(moment)) => *end == moment,
        (Answer::Late { end, now }, Wanted::Late(over, moment)) => {
            *end == over && *now == moment
        }
        (Answer::Failed, Wanted::Failed) => true,
        _ => false,
    }
}

// Whether the newest version of the object has these bytes, or none.
fn shows<C: Bench>(cloud: &mut C, names: &Names, newest: Option<&[u8]>) -> bool {
    match cloud.peek(names.object) {
        Ok(got) => are_got(&got, newest),
        Err(_) => false,
    }
}

// Whether this landed and nothing else.
fn has_landed<C: Shown>(cloud: &mut C, names: &Names, lands: Lands) -> bool {
    let (newest, put, sent): (Option<&[u8]>, bool, bool) = match lands {
        Lands::Nothing => (Some(b"b"), false, false),
        Lands::Version => (Some(b"c"), true, false),
        Lands::Removal => (None, false, false),
        Lands::Message => (Some(b"b"), false, true),
    };
    shows(cloud, names, newest)
        && cloud.has_version(names.object, 3) == put
        && cloud.has_message(names.queue, 4) == sent
}

// Whether so many messages and locks up to these ends are left.
fn is_left<C: Bench>(cloud: &mut C, names: &Names, left: (u64, u64, u64)) -> bool {
    let (backlog, page, tree) = left;
    cloud.backlog(names.queue).ok() == Some(backlog)
        && ends_at(cloud, names.who, names.page, page)
        && ends_at(cloud, names.who, names.tree, tree)
}

// Whether the call of a row answers and leaves what the row says, in a cloud that is filled.
fn obeys<C: Shown>(
    alloc: Global,
    cloud: &mut C,
    names: &Names,
    lease: Lease,
    row: &Row,
    mishap: Mishap,
) -> bool {
    cloud.wait(row.ticks);
    befall(alloc, cloud, mishap)
        && is_answered(&made(cloud, names, lease, row.asked), row.wanted)
        && has_landed(cloud, names, row.lands)
        && is_left(cloud, names, row.left)
}

// Whether a cloud in memory does what a row says under a mishap.
fn is_right(alloc: Global, names: &Names, row: &Row, mishap: Mishap) -> bool {
    let mut cloud = MemoryCloud::new(alloc);
    match filled(&mut cloud, names) {
        Some(lease) => obeys(alloc, &mut cloud, names, lease, row, mishap),
        None => false,
    }
}

// Whether it does so under each of the row's.
fn are_right(alloc: Global, names: &Names, row: &Row) -> bool {
    for mishap in row.mishaps {
        if !is_right(alloc, names, row, *mishap) {
            return false;
        }
    }
    true
}

#[test]
fn obeys_wishes(rt: HostRuntime) {
    let Some(names) = usual_names() else {
        rt.panic("no names")
    };
    for row in &ROWS {
        assert!(rt; are_right(rt.alloc(), &names, row));
    }
}
