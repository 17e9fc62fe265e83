//! A session makes the calls that a world asks of it.

use crate::session::Session;
use client_work::answer::{Answer, Begun};
use client_work::calls::SessionCalls;
use client_work::hand::Hand;
use client_work::op::Op;
use cloud_trait::call::Call;
use cloud_trait::cloud::Cloud;
use cloud_trait::turn::Turn;
use cloud_trait::who::Who;
use db_base::attr::Attr;
use db_base::change::Change;
use db_base::ids::{ClientId, TreeId};
use db_base::key::{Key, Payload};
use db_base::refusal::{Refusal, Refused};
use db_base::value::Value;
use head_codec::head::Head;
use log_codec::record::PuItem;
use report_types::pair_list::Pairs;
use std::alloc::Global;
use txn_buffer::buffer::TxnBuffer;

impl<H: Hand> SessionCalls for Session<H> {
    ghost acting = { λ s. s };

    fn new(alloc: Global) -> Result<Session<H>, Refused> {
        Session::new(alloc)
    }

    fn settling(alloc: Global) -> Result<Session<H>, Refused> {
        Session::settling(alloc)
    }

    fn sweeping(alloc: Global, tree: TreeId) -> Result<Session<H>, Refused> {
        Session::sweeping(alloc, tree)
    }

    fn note(&mut self, tree: TreeId, change: Change) -> Result<(), Refused> {
        Session::note(self, tree, change)
    }

    fn put(
        &mut self,
        alloc: Global,
        tree: TreeId,
        key: Key,
        payload: Payload,
        attr: Attr,
    ) -> Result<(), Refused> {
        Session::put(self, alloc, tree, key, payload, attr)
    }

    fn abort(&mut self) -> Result<(), Refused> {
        Session::abort(self)
    }

    fn crash(&mut self) {
        Session::crash(self);
    }

    fn break_off(&mut self) {
        Session::break_off(self);
    }

    fn begin(&mut self, alloc: Global, op: Op) -> Result<Begun, Refused> {
        Session::begin(self, alloc, op)
    }

    fn step<C: Cloud>(
        &mut self,
        alloc: Global,
        cloud: &mut C,
        who: Who,
    ) -> Result<Turn<Answer>, Refused> {
        Session::step(self, alloc, cloud, who)
    }

    #[inline(always)]
    fn step_at_work<C: Cloud>(&mut self, alloc: Global, cloud: &mut C, who: Who) -> Turn<Answer> {
        Session::step_at_work(self, alloc, cloud, who)
    }

    fn client(&self) -> Result<ClientId, Refusal> {
        Session::client(self)
    }

    fn in_hand(&self) -> Option<Call<'_>> {
        Session::in_hand(self)
    }

    fn committing(&self) -> Option<&TxnBuffer> {
        Session::committing(self)
    }

    fn opens(&self) -> Option<&Head> {
        Session::opens(self)
    }

    fn applying(&self) -> &[PuItem] {
        Session::applying(self)
    }

    fn value(&self) -> Option<Value<'_>> {
        Session::value(self)
    }

    fn items(&self) -> Pairs<'_> {
        Session::items(self)
    }
}
