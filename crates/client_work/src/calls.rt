//! The calls of a session that a world makes, whatever works inside it.

ghost use Rattle.std.specs.Prelude.{◌≡◌, ◌≤◌, true, length, Ok, IfOk, IfErr, OnOk, OnErr};
ghost use Rattle.std.specs.Option.{option_map, option_copied};
ghost use Rattle.db_base.specs.Limits.{most_changes};
ghost use Rattle.cloud_trait.specs.Call.{ask_of};
ghost use Rattle.client_work.specs.BrokenOff.{broken_off};
ghost use Rattle.client_work.specs.Session.{Acting, HasNoted, HasPut, HasDropped, closed_session, settling_session, sweeping_session, MayIndex, NoteRefused, PutRefused, AbortRefused, Begins, StepsSession, ask_of_work, committing_of, opens_of, applying_of, value_of, items_of, is_working, open_client};

use crate::answer::{Answer, Begun};
use crate::op::Op;
use cloud_trait::call::Call;
use cloud_trait::cloud::Cloud;
use cloud_trait::turn::Turn;
use cloud_trait::who::Who;
use db_base::attr::Attr;
use db_base::change::Change;
use db_base::ids::{ClientId, TreeId};
use db_base::key::{Key, Payload};
use db_base::refusal::{Refusal, Refused};
use db_base::value::Value;
use head_codec::head::Head;
use log_codec::record::PuItem;
use report_types::pair_list::Pairs;
use std::alloc::Global;
use txn_buffer::buffer::TxnBuffer;

/// The calls of a session that a world makes.
pub trait SessionCalls: Drop {
    /// How the session stands.
    ghost acting: { Self → Acting };

    /// A closed session without changes. Refused for memory alone.
    fn new(alloc: Global) -> Result<Self, Refused>
        ensures ok { IfOk result (λ s. acting s ≡ closed_session) }
        ensures memory { IfErr result (λ e. e ≡ Refused.Memory) };

    /// A session that stands for no client and settles. Refused for memory alone.
    fn settling(alloc: Global) -> Result<Self, Refused>
        ensures ok { IfOk result (λ s. acting s ≡ settling_session) }
        ensures memory { IfErr result (λ e. e ≡ Refused.Memory) };

    /// A session that stands for no client and sweeps a tree. Refused for memory alone.
    fn sweeping(alloc: Global, tree: TreeId) -> Result<Self, Refused>
        ensures ok { IfOk result (λ s. acting s ≡ sweeping_session tree) }
        ensures memory { IfErr result (λ e. e ≡ Refused.Memory) };

    /// Notes a change of an open client. A refusal changes nothing.
    fn note(&mut self, tree: TreeId, change: Change) -> Result<(), Refused>
        ensures ok { OnOk result (HasNoted tree change (acting self.old) (acting self.new)) }
        ensures err { OnErr result (acting self.new ≡ acting self.old) }
        ensures cause { IfErr result (NoteRefused (acting self.old) tree change) }
        ensures few { OnOk result (length (acting self.new).buffer ≤ most_changes) };

    /// Notes the insert of a record with an attribute, and that of its entry into the index of its tree. A refusal changes nothing.
    fn put(
        &mut self,
        alloc: Global,
        tree: TreeId,
        key: Key,
        payload: Payload,
        attr: Attr,
    ) -> Result<(), Refused>
        ensures ok { OnOk result (HasPut tree key payload attr (acting self.old) (acting self.new)) }
        ensures indexed { OnOk result (MayIndex tree key attr) }
        ensures err { OnErr result (acting self.new ≡ acting self.old) }
        ensures cause { IfErr result (PutRefused (acting self.old) tree key payload attr) }
        ensures few { OnOk result (length (acting self.new).buffer ≤ most_changes) };

    /// Drops the changes of an open client. A refusal changes nothing.
    fn abort(&mut self) -> Result<(), Refused>
        ensures ok { OnOk result (HasDropped (acting self.old) (acting self.new)) }
        ensures err { OnErr result (acting self.new ≡ acting self.old) }
        ensures cause { IfErr result (AbortRefused (acting self.old)) };

    /// Closes the session at once, whatever it has in hand: no call is made, and leases run out by themselves.
    fn crash(&mut self)
        ensures { acting self.new ≡ closed_session };

    /// Breaks off what the session has in hand, as want of memory does: of an open client its lease is left, and nothing of an
    /// opening, a close, a settling or a sweep. No call is made.
    fn break_off(&mut self)
        ensures { acting self.new ≡ broken_off (acting self.old) };

    /// Begins an operation. A refusal changes nothing.
    fn begin(&mut self, alloc: Global, op: Op) -> Result<Begun, Refused>
        ensures { Begins op (acting self.old) (acting self.new) result };

    /// Makes the call in hand of the operation at work, and does the local work up to the next one.
    fn step<C: Cloud>(
        &mut self,
        alloc: Global,
        cloud: &mut C,
        who: Who,
    ) -> Result<Turn<Answer>, Refused>
        ensures { StepsSession who (C.seen cloud.old) (C.seen cloud.new)
            (acting self.old) (acting self.new) result };

    /// The same of a session that is known to be at work, which is never refused.
    fn step_at_work<C: Cloud>(&mut self, alloc: Global, cloud: &mut C, who: Who) -> Turn<Answer>
        requires { is_working (acting self.old).work ≡ true }
        ensures { StepsSession who (C.seen cloud.old) (C.seen cloud.new)
            (acting self.old) (acting self.new) (Ok result) };

    /// The client of an open session with nothing at work; or the rule that refuses an operation of it.
    fn client(&self) -> Result<ClientId, Refusal>
        ensures { result ≡ open_client (acting self.now).work };

    /// The service call that the next step makes; none where nothing is at work.
    fn in_hand(&self) -> Option<Call<'_>>
        ensures { option_map ask_of result ≡ ask_of_work (acting self.now).work };

    /// The changes of the commit at work; none where none is.
    fn committing(&self) -> Option<&TxnBuffer>
        ensures { option_copied result ≡ committing_of (acting self.now).work };

    /// The head that the put in hand opens, where it is the one that commits.
    fn opens(&self) -> Option<&Head>
        ensures { option_copied result ≡ opens_of (acting self.now).work };

    /// The items that the put in hand of a checkpoint applies.
    fn applying(&self) -> &[PuItem]
        ensures { result.now ≡ applying_of (acting self.now).work };

    /// The value that the newest operation read, as the client sees it; none where it was no read, or where there is no record.
    fn value(&self) -> Option<Value<'_>>
        ensures { result ≡ value_of (acting self.now) };

    /// The records that the newest operation listed, in the order of their keys; none where it was neither a scan nor a look-up.
    fn items(&self) -> Pairs<'_>
        ensures { result ≡ items_of (acting self.now) };
}
