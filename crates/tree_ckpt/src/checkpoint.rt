//! The machine.

ghost use Rattle.std.specs.Prelude.{◌≡◌, ◌<◌, List, OnOk, OnErr};
ghost use Rattle.cloud_trait.specs.Call.{ask_of};
ghost use Rattle.cloud_trait.specs.Weather.{Makes};
ghost use Rattle.cloud_trait.specs.Machine.{Took, Deed};

use crate::absorbed::absorbed;
use crate::called::make_call;
use crate::release::let_go;
use crate::short::work_is_short;
use crate::work::Work;
use ckpt_parts::ids_of;
use cloud_trait::answer::Answer;
use cloud_trait::call::Call;
use cloud_trait::cloud::Cloud;
use cloud_trait::turn::{CkptAnswer, Turn};
use cloud_trait::who::Who;
use db_base::ids::{MsgId, TreeId};
use db_base::trouble::Trouble;
use log_codec::record::PuItem;
use std::alloc::{AllocError, Global};
use std::marker::Model;

/// A checkpoint of a tree (the right links and the cuts after Lehman and Yao, 1981).
pub struct TreeCkpt {
    tree: TreeId,
    received: Vec<MsgId>,
    work: Work,
}

// Written out, so that what holds a checkpoint need not look into it to let it go.
impl Drop for TreeCkpt {
    fn drop(self) {
        let TreeCkpt {
            tree: _,
            received: _,
            work,
        } = self;
        let_go(work);
    }
}

impl Model for TreeCkpt {
    ghost use Rattle.tree_ckpt.specs.Making.{Making};

    ghost Value = { Making };

    ghost view = { λ c. record { tree = c.tree; received = c.received.items; work = c.work } };
}

impl TreeCkpt {
    ghost use Rattle.ckpt_parts.specs.Leasing.{outstanding};
    ghost use Rattle.tree_ckpt.specs.Work.{applying_in, claims_in};
    ghost use Rattle.tree_ckpt.specs.End.{calls_in, IsShort};
    ghost use Rattle.tree_ckpt.specs.Leases.{Went, Names, GivesBack};
    ghost use Rattle.tree_ckpt.specs.Stepped.{Stepped};
    ghost use Rattle.tree_ckpt.specs.Making.{new_making, making_ask, with_received, with_work, handed_over, AbsorbsBy, WentBy, SameLeases, MakingLeads, KeepsLeases};

    /// The checkpoint of a tree. Takes no memory.
    pub fn new(alloc: Global, tree: TreeId) -> TreeCkpt
        ensures { result ≡ new_making tree }
    {
        TreeCkpt {
            tree,
            received: Vec::new(alloc),
            work: Work::TakingTree,
        }
    }

    /// The messages that the receive answered, in order of receipt.
    pub fn received(&self) -> &[MsgId]
        ensures { result.now ≡ self.now.received }
    {
        self.received.as_slice()
    }

    /// The items that the put in hand applies, in the order in which it applies them: those of a leaf's own put.
    pub fn applying(&self) -> &[PuItem]
        ensures { result.now ≡ applying_in self.now.work }
    {
        match &self.work {
            Work::Folding(_, folding) => folding.applying(),
            _ => &[],
        }
    }

    /// The service call that the next step makes.
    pub fn in_hand(&self) -> Call<'_>
        ensures { ask_of result ≡ making_ask self.now }
    {
        self.work.in_hand(self.tree)
    }

    /// Keeps the ids of a receive's messages. Refused for memory alone.
    fn note(&mut self, alloc: Global, answer: &Answer) -> Result<(), AllocError>
        ensures ok { OnOk result (self.new ≡ with_received self.old answer.now) }
        ensures err { OnErr result (self.new ≡ self.old) }
    {
        if let Answer::Received(messages) = answer {
            self.received = ids_of(alloc, messages.as_slice())?;
        }
        Ok(())
    }

    /// Makes the call in hand; a release hands its lease out.
    fn call<C: Cloud>(&mut self, cloud: &mut C, who: Who) -> Answer
        ensures made { Makes who (making_ask self.old) result (C.seen cloud.old) (C.seen cloud.new) }
        ensures left { self.new ≡ handed_over self.old }
    {
        make_call(cloud, who, self.tree, &mut self.work)
    }

    /// Goes where the answer of the call in hand leads.
    #[inline(always)]
    fn go(&mut self, alloc: Global, answer: Answer) -> Turn<CkptAnswer>
        ensures went { WentBy self.old answer self.new result }
        ensures short { IsShort self.new.work }
    {
        let turn = absorbed(alloc, self.tree, &mut self.work, answer);
        work_is_short(&self.work);
        turn
    }

    /// Takes the answer of the call in hand. A lease that the call gave back has left.
    #[inline(always)]
    fn absorb(&mut self, alloc: Global, answer: Answer) -> Turn<CkptAnswer>
        ensures took { Took AbsorbsBy SameLeases self.old answer self.new result }
        ensures short { result ≡ Turn.More → IsShort self.new.work }
        ensures memory { answer ≡ Answer.Memory → result ≡ Turn.Stopped Trouble.Memory }
    {
        if let Answer::Memory = answer {
            return Turn::Stopped(Trouble::Memory);
        }
        match self.note(alloc, &answer) {
            Ok(()) => self.go(alloc, answer),
            Err(_) => Turn::Stopped(Trouble::Memory),
        }
    }

    /// Makes the call in hand, and does the local work up to the next one.
    #[inline(always)]
    pub fn step<C: Cloud>(&mut self, alloc: Global, cloud: &mut C, who: Who) -> Turn<CkptAnswer>
        // By one answer: where it leads, why it stops and what makes it stop, what Done means, and what comes where all calls were calm.
        ensures steps { Stepped who (C.seen cloud.old) (C.seen cloud.new) self.old self.new result }
        // Each step that goes on leaves fewer calls.
        ensures less { result ≡ Turn.More → calls_in self.new.work < calls_in self.old.work }
        // The leases that it holds are those that it took and has not given back.
        ensures leases { (h : List Deed) → Went h self.old → claims_in self.old.work ≡ outstanding h }
        // The call names leases that it holds, and takes no lock that it holds.
        ensures names { (h : List Deed) → Went h self.old → Names (making_ask self.old) (outstanding h) }
        // Before an end all leases are given back.
        ensures gives_back { (h : List Deed) → Went h self.old → GivesBack self.new result }
    {
        let answer = self.call(cloud, who);
        self.absorb(alloc, answer)
    }
}
