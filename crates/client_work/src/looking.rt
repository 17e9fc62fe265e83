ghost use Rattle.std.specs.Prelude.{◌≤◌};
ghost use Rattle.db_base.specs.Limits.{last_indexed};
ghost use Rattle.client_work.specs.Left.{behind_look};
ghost use Rattle.client_work.specs.Session.{LooksBy, LooksOf, acting_of, in_hand};

use crate::answer::{Answer, Begun};
use crate::left::{Left, Rest};
use crate::shown::Shown;
use crate::work::stopped;
use attr_index::{Lookup, Own};
use cloud_trait::cloud::Cloud;
use cloud_trait::turn::Turn;
use cloud_trait::who::Who;
use db_base::attr::Attr;
use db_base::ids::TreeId;
use page_cache::PageCache;
use recover_run::home::Home;
use std::alloc::Global;
use txn_buffer::buffer::TxnBuffer;

/// Begins a look-up beside the open client: what is in hand then.
#[inline(never)]
pub(crate) fn begin_looking(
    alloc: Global,
    home: Home,
    tree: TreeId,
    attr: Attr,
    cache: &mut PageCache,
) -> (Left<(Home, Lookup)>, Shown, Begun)
    requires { tree ≤ last_indexed }
    ensures { LooksOf home (record { tree = tree; attr = attr }) cache.old
        (behind_look result.0, cache.new) result.1 result.2 }
{
    match Lookup::begin(alloc, tree, attr, cache) {
        Ok(look) => (Left::Goes((home, look)), Shown::Nothing, Begun::Working),
        Err(trouble) => (
            Left::Rests(stopped(&trouble, home)),
            Shown::Nothing,
            Begun::Answered(Answer::Trouble(trouble)),
        ),
    }
}

/// Makes the call in hand of a look-up, beside the open client: what is in hand then, and the records found where it ended.
pub(crate) fn step_looking<C: Cloud>(
    alloc: Global,
    cloud: &mut C,
    who: Who,
    home: Home,
    mut look: Lookup,
    cache: &mut PageCache,
    buffer: &TxnBuffer,
) -> (Left<(Home, Lookup)>, Shown, Turn<Answer>)
    ensures { LooksBy who (C.seen cloud.old) (C.seen cloud.new) (in_hand home look cache.old)
        (acting_of buffer.now (behind_look result.0) cache.new result.1) result.2 }
{
    let own = Own {
        client: home.client,
        head: &home.head,
        buffer,
    };
    let turn = look.step(alloc, cloud, who, cache, &own);
    drop(own);
    match turn {
        Turn::More => (Left::Goes((home, look)), Shown::Nothing, Turn::More),
        Turn::Ended(()) => (
            Left::Rests(Rest::Idle(home)),
            Shown::Listed(look.into_pairs()),
            Turn::Ended(Answer::Scan),
        ),
        Turn::Stopped(trouble) => (
            Left::Rests(stopped(&trouble, home)),
            Shown::Nothing,
            Turn::Ended(Answer::Trouble(trouble)),
        ),
    }
}
