ghost use Rattle.std.specs.Prelude.{◌≡◌};
ghost use Rattle.cloud_trait.specs.Ask.{Renew, Release};
ghost use Rattle.cloud_trait.specs.Call.{ask_of, Lends};
ghost use Rattle.cloud_trait.specs.Weather.{leased, Makes, RenewsLease};

use crate::answer::Answer;
use crate::call::Call;
use crate::cloud::Cloud;
use crate::grant::Grant;
use crate::lease::Lease;
use crate::listing::PageList;
use crate::message::MessageList;
use crate::who::Who;

/// Makes one call, whatever it is, but for the two that move a lease. What it answered is a value.
pub fn perform<C: Cloud>(cloud: &mut C, who: Who, call: &Call<'_>) -> Answer
    requires { Lends (ask_of call.now) }
    ensures { Makes who (ask_of call.now) result (C.seen cloud.old) (C.seen cloud.new) }
{
    match call {
        Call::Get(name) => match cloud.get(who, *name) {
            Ok(bytes) => Answer::Got(bytes),
            Err(fault) => fault.answer(),
        },
        Call::GetHeld(name, lease) => match cloud.get_held(who, *name, lease) {
            Ok(bytes) => Answer::Got(bytes),
            Err(fault) => fault.answer(),
        },
        Call::PutHeld(name, bytes, first, second) => match cloud.put_held(
            who, *name, bytes, first, *second,
        ) {
            Ok(()) => Answer::Done,
            Err(fault) => fault.answer(),
        },
        Call::ListHeld(tree, lease) => match cloud.list_held(who, *tree, lease) {
            Ok(pages) => Answer::Listed(PageList::of(pages)),
            Err(fault) => fault.answer(),
        },
        Call::RemoveHeld(name, lease) => match cloud.remove_held(who, *name, lease) {
            Ok(()) => Answer::Done,
            Err(fault) => fault.answer(),
        },
        Call::Send(queue, bytes) => match cloud.send(who, *queue, bytes) {
            Ok(id) => Answer::Sent(id),
            Err(fault) => fault.answer(),
        },
        Call::Receive(queue, most) => match cloud.receive(who, *queue, *most) {
            Ok(messages) => Answer::Received(MessageList::of(messages)),
            Err(fault) => fault.answer(),
        },
        Call::Delete(queue, id) => match cloud.delete(who, *queue, *id) {
            Ok(()) => Answer::Done,
            Err(fault) => fault.answer(),
        },
        Call::Take(lock, ticks) => match cloud.take(who, *lock, *ticks) {
            Ok(Grant::Given(lease)) => Answer::Given(lease),
            Ok(Grant::Held(until)) => Answer::Held(until),
            Err(fault) => fault.answer(),
        },
        Call::Renew(_, _) => unreachable!(),
        Call::Release(_) => unreachable!(),
    }
}

/// Gives a lease back.
pub fn let_go<C: Cloud>(cloud: &mut C, who: Who, lease: Lease) -> Answer
    ensures { Makes who (Release lease) result (C.seen cloud.old) (C.seen cloud.new) }
{
    match cloud.release(who, lease) {
        Ok(()) => Answer::Done,
        Err(fault) => fault.answer(),
    }
}

/// Renews a lease for some ticks from now.
pub fn renew<C: Cloud>(cloud: &mut C, who: Who, lease: &mut Lease, ticks: u64) -> Answer
    ensures made { Makes who (Renew lease.old ticks) result (C.seen cloud.old) (C.seen cloud.new) }
    ensures lease { RenewsLease who ticks result (leased lease.old (C.seen cloud.old)) (leased lease.new (C.seen cloud.new)) }
{
    match cloud.renew(who, lease, ticks) {
        Ok(()) => Answer::Renewed(lease.end()),
        Err(fault) => fault.answer(),
    }
}
