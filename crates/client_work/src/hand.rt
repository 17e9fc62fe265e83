//! What a session has in hand, whatever machines work in it.

ghost use Rattle.std.specs.Prelude.{◌≡◌, true, None, Ok};
ghost use Rattle.std.specs.Option.{option_map, option_copied};
ghost use Rattle.cloud_trait.specs.Call.{ask_of};
ghost use Rattle.orphan_sweep.specs.Sweeping.{new_sweeping};
ghost use Rattle.settle_run.specs.Settling.{new_settling};
ghost use Rattle.client_work.specs.declared.shown.Shown.TheVariants.{Nothing};
ghost use Rattle.client_work.specs.declared.work.Work.{Work};
ghost use Rattle.client_work.specs.declared.work.Work.TheVariants.{Closed, Settling, Sweeping};
ghost use Rattle.client_work.specs.BrokenOff.{broken_work};
ghost use Rattle.client_work.specs.Causes.{MachineSteps};
ghost use Rattle.client_work.specs.Phase.{bar_of, phase_of};
ghost use Rattle.client_work.specs.Session.{ShowsAt, StepsAt, ask_of_work, committing_of, opens_of, applying_of, value_in, is_working, open_client, acting_of, Begins};

use crate::answer::{Answer, Begun};
use crate::op::Op;
use crate::phase::Phase;
use crate::shown::Shown;
use cloud_trait::call::Call;
use cloud_trait::cloud::Cloud;
use cloud_trait::turn::Turn;
use cloud_trait::who::Who;
use db_base::ids::{ClientId, TreeId};
use db_base::refusal::Refusal;
use db_base::value::Value;
use head_codec::head::Head;
use log_codec::record::PuItem;
use page_cache::PageCache;
use std::alloc::Global;
use txn_buffer::buffer::TxnBuffer;

/// What a session has in hand, by what the session asks of it.
pub trait Hand: Drop {
    /// The machine that is in hand, as it stands.
    ghost work: { Self → Work };

    /// Nothing: no client is open.
    fn closed() -> Self
        ensures { work result ≡ Closed };

    /// A settling before its first call: no client is open.
    fn settling(alloc: Global) -> Self
        ensures { work result ≡ Settling new_settling };

    /// A sweep of a tree before its first call: no client is open.
    fn sweeping(alloc: Global, tree: TreeId) -> Self
        ensures { work result ≡ Sweeping (new_sweeping tree) };

    /// How a session stands that has this in hand.
    fn phase(&self) -> Phase
        ensures { result ≡ phase_of (work self.now) };

    /// The client that is open, with nothing at work; or the rule that refuses an operation of it.
    fn client(&self) -> Result<ClientId, Refusal>
        ensures { result ≡ open_client (work self.now) };

    /// The service call that the next step makes; none where nothing is at work.
    fn in_hand(&self) -> Option<Call<'_>>
        ensures { option_map ask_of result ≡ ask_of_work (work self.now) };

    /// The changes of the commit at work; none where none is.
    fn committing(&self) -> Option<&TxnBuffer>
        ensures { option_copied result ≡ committing_of (work self.now) };

    /// The head that the put in hand opens, where it is the one that commits.
    fn opens(&self) -> Option<&Head>
        ensures { option_copied result ≡ opens_of (work self.now) };

    /// The items that the put in hand of a checkpoint applies.
    fn applying(&self) -> &[PuItem]
        ensures { result.now ≡ applying_of (work self.now) };

    /// The value that a read shows, as the client sees it; none where anything else is shown, or another is in hand than an
    /// open client.
    fn value<'a>(
        &'a self,
        shown: &'a Shown,
        cache: &'a PageCache,
        buffer: &'a TxnBuffer,
    ) -> Option<Value<'a>>
        ensures { result ≡ value_in (work self.now) shown.now cache.now buffer.now };

    /// Begins an operation that no rule bars: what is in hand then, what that shows, and what it came to.
    fn begin(
        self,
        alloc: Global,
        op: Op,
        buffer: &mut TxnBuffer,
        cache: &mut PageCache,
    ) -> (Self, Shown, Begun)
        requires { bar_of op (work self) ≡ None }
        ensures { Begins op (acting_of buffer.old (work self) cache.old Nothing)
            (acting_of buffer.new (work result.0) cache.new result.1) (Ok result.2) };

    /// What is left in hand once this is broken off: of an open client its lease, and nothing of an opening, a close, a settling
    /// or a sweep.
    fn break_off(self) -> Self
        ensures { work result ≡ broken_work (work self) };

    /// Makes the call in hand of what is at work, where so much is noted: what that shows from now on, and what it came to.
    fn step<C: Cloud>(
        &mut self,
        alloc: Global,
        cloud: &mut C,
        who: Who,
        cache: &mut PageCache,
        buffer: &TxnBuffer,
        shown: &mut Shown,
    ) -> Turn<Answer>
        requires { is_working (work self.old) ≡ true }
        ensures steps { StepsAt who (C.seen cloud.old) (C.seen cloud.new)
            (work self.old) (work self.new) result }
        ensures shows { ShowsAt who (C.seen cloud.old) (C.seen cloud.new) (work self.old, cache.old)
            (acting_of buffer.now (work self.new) cache.new shown.new) result }
        ensures machine { MachineSteps who (C.seen cloud.old) (C.seen cloud.new)
            (work self.old, cache.old) (work self.new, cache.new) result };
}
