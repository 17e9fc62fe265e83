ghost use Rattle.std.specs.Prelude.{List};
ghost use Rattle.txn_buffer.specs.Noted.{Noted};
ghost use Rattle.client_work.specs.Left.{behind_read};
ghost use Rattle.client_work.specs.Session.{ReadsBy, ReadsOf, StepsReading, acting_of, in_hand};

use crate::answer::{Answer, Begun};
use crate::left::{Left, Rest};
use crate::shown::Shown;
use crate::work::stopped;
use cloud_trait::cloud::Cloud;
use cloud_trait::turn::Turn;
use cloud_trait::who::Who;
use page_cache::PageCache;
use record_read::RecordRead;
use recover_run::home::Home;
use std::alloc::Global;

/// Begins a read beside the open client: what is in hand then, and what it shows where it ended at once.
#[inline(never)]
pub(crate) fn begin_reading(
    alloc: Global,
    home: Home,
    mut read: RecordRead,
    cache: &mut PageCache,
) -> (Left<(Home, RecordRead)>, Shown, Begun)
    ensures { ReadsOf home (read, cache.old) (behind_read result.0, cache.new) result.1 result.2 }
{
    match read.ready(alloc, cache) {
        Turn::More => (Left::Goes((home, read)), Shown::Nothing, Begun::Working),
        Turn::Ended(_) => (
            Left::Rests(Rest::Idle(home)),
            Shown::Read(read),
            Begun::Answered(Answer::Value),
        ),
        Turn::Stopped(trouble) => (
            Left::Rests(stopped(&trouble, home)),
            Shown::Nothing,
            Begun::Answered(Answer::Trouble(trouble)),
        ),
    }
}

/// Makes the call in hand of a read, beside the open client: what is in hand then, and what it shows where it ended.
pub(crate) fn step_reading<C: Cloud>(
    alloc: Global,
    cloud: &mut C,
    who: Who,
    home: Home,
    mut read: RecordRead,
    cache: &mut PageCache,
) -> (Left<(Home, RecordRead)>, Shown, Turn<Answer>)
    ensures steps { StepsReading who (C.seen cloud.old) (C.seen cloud.new)
        (home, read) (behind_read result.0) result.2 }
    ensures reads { (buffer : List Noted) → ReadsBy who (C.seen cloud.old) (C.seen cloud.new)
        (in_hand home read cache.old) (acting_of buffer (behind_read result.0) cache.new result.1) result.2 }
{
    match read.step(alloc, cloud, who, cache) {
        Turn::More => (Left::Goes((home, read)), Shown::Nothing, Turn::More),
        Turn::Ended(_) => (
            Left::Rests(Rest::Idle(home)),
            Shown::Read(read),
            Turn::Ended(Answer::Value),
        ),
        Turn::Stopped(trouble) => (
            Left::Rests(stopped(&trouble, home)),
            Shown::Nothing,
            Turn::Ended(Answer::Trouble(trouble)),
        ),
    }
}
