//! The machine.

ghost use Rattle.std.specs.Prelude.{◌≡◌, ◌≢◌, ◌<◌, ◌≤◌, ◌+◌, ◌^◌, ◌==◌, List, length, Some, IfSome, IfNone, IfOk, IfErr};
ghost use Rattle.std.specs.List.{list_any};
ghost use Rattle.cloud_trait.specs.Ask.{Release};
ghost use Rattle.cloud_trait.specs.Call.{ask_of, Lends};
ghost use Rattle.cloud_trait.specs.Machine.{Took, Deed};
ghost use Rattle.cloud_trait.specs.Weather.{Makes};

use crate::home::Home;
use crate::leaf::{Made, held_bytes, made_leaf, named_leaf};
use crate::link::{Link, link_of};
use crate::stage::Stage;
use ckpt_parts::{
    Deletions, Fault, Intake, Leases, MAX_MESSAGES, PAGE_TICKS, ids_of, lacked_of, linked_leaf,
    take_in,
};
use cloud_trait::answer::Answer;
use cloud_trait::call::Call;
use cloud_trait::cloud::Cloud;
use cloud_trait::lease::Lease;
use cloud_trait::message::{Message, MessageList};
use cloud_trait::perform::{let_go, perform};
use cloud_trait::turn::{CkptAnswer, Turn};
use cloud_trait::who::Who;
use db_base::blob::Blob;
use db_base::ids::{MsgId, PageId, TreeId};
use db_base::names::{Lock, ObjName, QueueName};
use db_base::trouble::{Counter, Trouble};
use leaf_view::LeafView;
use log_codec::record::PuItem;
use run_cursor::run::Run;
use std::alloc::{AllocError, Global};
use std::marker::Model;

/// A checkpoint of a page: the run of its pending update queue is applied to the pages on its right that hold the run's keys,
/// then to the page itself, and then the messages that its numbers cover are deleted.
pub struct PageCkpt {
    tree: TreeId,
    page: PageId,
    stage: Stage,
    held: Leases,
    received: Vec<MsgId>,
    // None where the page is absent: the empty leaf.
    home: Option<Home>,
    run: Option<Run>,
    deletions: Deletions,
    at: Link,
    onward: Option<Link>,
    visited: Vec<PageId>,
    applying: Vec<PuItem>,
    out: Blob,
    applied: u64,
    trouble: Option<Trouble>,
}

// Written out, so that what holds a checkpoint need not look into it to let it go.
impl Drop for PageCkpt {
    fn drop(self) {
        let PageCkpt {
            tree: _,
            page: _,
            stage: _,
            held: _,
            received: _,
            home: _,
            run: _,
            deletions: _,
            at: _,
            onward: _,
            visited: _,
            applying: _,
            out: _,
            applied: _,
            trouble: _,
        } = self;
    }
}

impl Model for PageCkpt {
    ghost use Rattle.ckpt_parts.specs.Intakes.{run_or_none};
    ghost use Rattle.page_ckpt.specs.Paging.{Paging, leaf_or_empty};

    ghost Value = { Paging };

    ghost view = { λ p. record {
      tree = p.tree;
      page = p.page;
      stage = p.stage;
      held = p.held;
      received = p.received.items;
      home = leaf_or_empty p.home;
      run = run_or_none p.run;
      deletions = p.deletions;
      at = p.at;
      onward = p.onward;
      visited = p.visited.items;
      applying = p.applying.items;
      out = p.out;
      applied = p.applied;
      trouble = p.trouble;
    } };
}

impl PageCkpt {
    ghost use Rattle.std.specs.Prelude.{Ok};
    ghost use Rattle.std.specs.Option.{option_copied};
    ghost use Rattle.leaf_edit.specs.Lacked.{lacked};
    ghost use Rattle.ckpt_parts.specs.Deleting.{next_id};
    ghost use Rattle.ckpt_parts.specs.Intakes.{has_items};
    ghost use Rattle.ckpt_parts.specs.Leasing.{newest_lease, claims_of, outstanding};
    ghost use Rattle.page_ckpt.specs.Ample.{IsCountFull, IsRefusal, WantsMemory, WantsMore};
    ghost use Rattle.page_ckpt.specs.Stepped.{Stepped};
    ghost use Rattle.page_ckpt.specs.Leases.{Went, Names, GivesBack, AreFew};
    ghost use Rattle.leaf_view.specs.Lookup.{page_at};
    ghost use Rattle.log_codec.specs.Order.{IsOrdered};
    ghost use Rattle.page_ckpt.specs.End.{calls_left};
    ghost use Rattle.page_ckpt.specs.Paging.{new_paging, paging_ask, take_home, under, delete_next, handed, stopping, home_taken_by, HomeGot, ReceivedBy, MessagesRead, IntakeTaken, GoesOnBy, without_onward, to_right, is_visited, LeafPut, MakesLeaf, MadePut, right_taken_by, RightGot, RightRead, RightLacks, right_put_by, home_put_by, deleted_by, deleting, released_by, finished_by, Absorbs, SameLeases, TurnsBy};

    /// The checkpoint of a page of a tree. Takes no memory.
    pub fn new(alloc: Global, tree: TreeId, page: PageId) -> PageCkpt
        ensures { result ≡ new_paging tree page }
    {
        PageCkpt {
            tree,
            page,
            stage: Stage::TakingHome,
            held: Leases::none(),
            received: Vec::new(alloc),
            home: None,
            run: None,
            deletions: Deletions::none(alloc),
            at: Link {
                page,
                low: Blob::new(alloc),
            },
            onward: None,
            visited: Vec::new(alloc),
            applying: Vec::new(alloc),
            out: Blob::new(alloc),
            applied: 0,
            trouble: None,
        }
    }

    /// The messages that the receive answered, in order of receipt.
    pub fn received(&self) -> &[MsgId]
        ensures { result.now ≡ self.now.received }
    {
        self.received.as_slice()
    }

    /// The items that the put in hand applies, in the order in which it applies them.
    pub fn applying(&self) -> &[PuItem]
        ensures { result.now ≡ self.now.applying }
    {
        self.applying.as_slice()
    }

    /// The right page of the page as it was read, where there is one.
    pub fn right(&self) -> Option<PageId>
        ensures { result ≡ page_at self.now.home.right }
    {
        self.home_view().right()
    }

    /// The page as it was read; the empty leaf where it was absent.
    fn home_view(&self) -> LeafView<'_>
        ensures { result ≡ self.now.home }
    {
        match &self.home {
            Some(home) => home.view(),
            None => LeafView::empty(),
        }
    }

    /// The items of the run.
    fn run_items(&self) -> &[PuItem]
        ensures items { result.now ≡ self.now.run.items }
        ensures ordered { IsOrdered result.now }
    {
        match &self.run {
            Some(run) => run.items(),
            None => &[],
        }
    }

    fn home_name(&self) -> ObjName
        ensures { result ≡ ObjName.Page self.now.tree self.now.page }
    {
        ObjName::Page(self.tree, self.page)
    }

    fn right_name(&self) -> ObjName
        ensures { result ≡ ObjName.Page self.now.tree self.now.at.page }
    {
        ObjName::Page(self.tree, self.at.page)
    }

    fn queue(&self) -> QueueName
        ensures { result ≡ QueueName.PagePu self.now.tree self.now.page }
    {
        QueueName::PagePu(self.tree, self.page)
    }

    fn take_home(&self) -> Call<'_>
        ensures { ask_of result ≡ take_home self.now }
    {
        Call::Take(Lock::Page(self.tree, self.page), PAGE_TICKS)
    }

    /// The service call that the next step makes.
    pub fn in_hand(&self) -> Call<'_>
        ensures { ask_of result ≡ paging_ask self.now }
    {
        match (self.stage, &self.held.first, &self.held.second) {
            (Stage::Receiving, _, _) => Call::Receive(self.queue(), MAX_MESSAGES),
            (Stage::Deleting, _, _) => self.delete_call(),
            (Stage::Releasing, _, _) => self.release_call(),
            (Stage::TakingRight, _, _) => {
                Call::Take(Lock::Page(self.tree, self.at.page), PAGE_TICKS)
            }
            (Stage::GettingRight, _, Some(lease)) => Call::GetHeld(self.right_name(), lease),
            (Stage::ReleasingRight, _, Some(lease)) => Call::Release(lease),
            (Stage::GettingHome, Some(lease), _) => Call::GetHeld(self.home_name(), lease),
            (Stage::PuttingRight, Some(lease), Some(right)) => Call::PutHeld(
                self.right_name(),
                self.out.as_slice(),
                lease,
                Some(right),
            ),
            (Stage::PuttingHome, Some(lease), _) => Call::PutHeld(
                self.home_name(),
                self.out.as_slice(),
                lease,
                None,
            ),
            _ => self.take_home(),
        }
    }

    fn delete_call(&self) -> Call<'_>
        ensures { ask_of result ≡ delete_next self.now (next_id self.now.deletions.ids) }
    {
        match self.deletions.next() {
            Some(id) => Call::Delete(self.queue(), id),
            None => self.take_home(),
        }
    }

    fn release_call(&self) -> Call<'_>
        ensures { ask_of result ≡ under self.now (newest_lease self.now.held) Release }
    {
        match self.held.newest() {
            Some(lease) => Call::Release(lease),
            None => self.take_home(),
        }
    }

    /// The lease that the call in hand gives back, where it gives one back.
    fn leaving(&mut self) -> Option<Lease>
        ensures lease { IfSome result (λ l. paging_ask self.old ≡ Release l) }
        ensures none { IfNone result (Lends (paging_ask self.new)) }
        ensures same { IfNone result (paging_ask self.new ≡ paging_ask self.old) }
        ensures left { self.new ≡ handed self.old }
    {
        match self.stage {
            Stage::ReleasingRight => self.held.second.take(),
            Stage::Releasing => self.held.give_newest(),
            _ => None,
        }
    }

    /// Makes the call in hand; a release hands its lease out.
    fn call<C: Cloud>(&mut self, cloud: &mut C, who: Who) -> Answer
        ensures made { Makes who (paging_ask self.old) result (C.seen cloud.old) (C.seen cloud.new) }
        ensures left { self.new ≡ handed self.old }
    {
        match self.leaving() {
            Some(lease) => let_go(cloud, who, lease),
            None => perform(cloud, who, &self.in_hand()),
        }
    }

    fn stop(&mut self, trouble: Trouble) -> Turn<CkptAnswer>
        ensures took { TurnsBy (λ p next. next ≡ stopping p trouble) self.old self.new result }
        ensures more { result ≡ Turn.More }
    {
        self.stage = Stage::Releasing;
        self.trouble = Some(trouble);
        Turn::More
    }

    fn home_taken(&mut self, given: Result<Lease, Trouble>) -> Turn<CkptAnswer>
        ensures took { TurnsBy (λ p next. next ≡ home_taken_by p given) self.old self.new result }
        ensures refused { IfErr given (λ t. result ≡ Turn.Stopped t) }
        ensures given { IfOk given (λ _. result ≡ Turn.More) }
    {
        match given {
            Ok(lease) => {
                self.stage = Stage::GettingHome;
                self.held = Leases {
                    first: Some(lease),
                    second: None,
                };
                Turn::More
            }
            Err(trouble) => Turn::Stopped(trouble),
        }
    }

    fn home_got(&mut self, got: Result<Option<Blob>, Trouble>) -> Turn<CkptAnswer>
        ensures took { TurnsBy (λ p next. HomeGot p got next) self.old self.new result }
        ensures more { result ≡ Turn.More }
    {
        match got {
            Ok(got) => self.read_home(got),
            Err(trouble) => self.stop(trouble),
        }
    }

    fn read_home(&mut self, got: Option<Blob>) -> Turn<CkptAnswer>
        ensures took { TurnsBy (λ p next. HomeGot p (Ok got) next) self.old self.new result }
        ensures more { result ≡ Turn.More }
    {
        match named_leaf(self.tree, self.page, got) {
            Ok(home) => {
                self.stage = Stage::Receiving;
                self.home = home;
                Turn::More
            }
            Err(trouble) => self.stop(trouble),
        }
    }

    fn received_by(
        &mut self,
        alloc: Global,
        received: Result<MessageList, Trouble>,
    ) -> Turn<CkptAnswer>
        ensures took { TurnsBy (λ p next. ReceivedBy p received next) self.old self.new result }
        ensures refused { IfErr received (λ _. result ≡ Turn.More) }
    {
        match received {
            Ok(messages) => self.note_messages(alloc, messages.as_slice()),
            Err(trouble) => self.stop(trouble),
        }
    }

    fn note_messages(&mut self, alloc: Global, messages: &[Message]) -> Turn<CkptAnswer>
        ensures { TurnsBy (λ p next. ReceivedBy p (Ok messages.now) next) self.old self.new result }
    {
        match ids_of(alloc, messages) {
            Ok(received) => {
                self.received = received;
                self.read_messages(alloc, messages)
            }
            Err(_) => Turn::Stopped(Trouble::Memory),
        }
    }

    /// Takes the run after the page's own numbers of its queue.
    fn read_messages(&mut self, alloc: Global, messages: &[Message]) -> Turn<CkptAnswer>
        ensures { TurnsBy (λ p next. MessagesRead p messages.now next) self.old self.new result }
    {
        let Ok(cursor) = self.home_view().cursor(alloc, self.page.get()) else {
            return Turn::Stopped(Trouble::Memory);
        };
        match take_in(alloc, &self.queue(), &cursor, messages) {
            Ok(intake) => self.start(alloc, intake),
            Err(Fault::Stops(trouble)) => self.stop(trouble),
            Err(Fault::Memory) => Turn::Stopped(Trouble::Memory),
        }
    }

    /// Keeps the run; a right page or the page itself is next, or the deletions where the run is empty.
    fn start(&mut self, alloc: Global, intake: Intake) -> Turn<CkptAnswer>
        ensures { TurnsBy (λ p next. IntakeTaken p (Ok intake) next) self.old self.new result }
    {
        let Intake { run, deletions } = intake;
        let is_empty = run.items().is_empty();
        self.run = Some(run);
        self.deletions = deletions;
        if is_empty {
            return self.delete_next();
        }
        match link_of(alloc, &self.home_view(), self.run_items()) {
            Ok(link) => self.go_on(alloc, link),
            Err(_) => Turn::Stopped(Trouble::Memory),
        }
    }

    /// The right page to which the link leads is next, or the page itself where there is no link.
    fn go_on(&mut self, alloc: Global, link: Option<Link>) -> Turn<CkptAnswer>
        ensures { TurnsBy (λ p next. GoesOnBy p link next) self.old self.new result }
    {
        match link {
            Some(link) => self.go_right(link),
            None => self.put_home(alloc),
        }
    }

    fn go_right(&mut self, link: Link) -> Turn<CkptAnswer>
        ensures { TurnsBy (λ p next. next ≡ to_right p link (is_visited p link.page)) self.old self.new result }
    {
        if self.is_visited(link.page) {
            return self.stop(Trouble::Loop { page: link.page });
        }
        if self.visited.push(link.page).is_err() {
            return Turn::Stopped(Trouble::Memory);
        }
        self.stage = Stage::TakingRight;
        self.at = link;
        Turn::More
    }

    fn is_visited(&self, page: PageId) -> bool
        ensures { result ≡ is_visited self.now page }
    {
        page.get() == self.page.get() || self.came_right(page)
    }

    fn came_right(&self, page: PageId) -> bool
        ensures { result ≡ list_any (λ q. q == page) self.now.visited }
    {
        self.visited.iter().any(|q| q.get() == page.get())
    }

    fn put_home(&mut self, alloc: Global) -> Turn<CkptAnswer>
        ensures { TurnsBy (λ p next. LeafPut p Stage.PuttingHome p.home next) self.old self.new result }
    {
        match self.home_with_run(alloc) {
            Ok((items, made)) => self.put_made(Stage::PuttingHome, items, made),
            Err(_) => Turn::Stopped(Trouble::Memory),
        }
    }

    /// The items of the run that the page lacks, and the page with the run applied.
    fn home_with_run(&self, alloc: Global) -> Result<(Vec<PuItem>, Made), AllocError>
        ensures items { IfOk result (λ x. x.0.items ≡ lacked self.now.home self.now.page self.now.run.items) }
        ensures made { IfOk result (λ x. MakesLeaf self.now.home self.now.page self.now.run.items x.1) }
    {
        let home = self.home_view();
        let page = self.page.get();
        let items = lacked_of(alloc, &home, page, self.run_items())?;
        Ok((items, made_leaf(alloc, &home, page, self.run_items())))
    }

    fn put_made(&mut self, stage: Stage, lacked: Vec<PuItem>, made: Made) -> Turn<CkptAnswer>
        ensures { TurnsBy (λ p next. MadePut p stage lacked.items made next) self.old self.new result }
    {
        match made {
            Made::Leaf(out) => {
                self.stage = stage;
                self.applying = lacked;
                self.out = out;
                Turn::More
            }
            Made::Exhausted => self.stop(Trouble::Exhausted {
                what: Counter::Version,
            }),
            Made::Memory => Turn::Stopped(Trouble::Memory),
        }
    }

    fn right_taken(&mut self, given: Result<Lease, Trouble>) -> Turn<CkptAnswer>
        ensures took { TurnsBy (λ p next. next ≡ right_taken_by p given) self.old self.new result }
        ensures more { result ≡ Turn.More }
    {
        match given {
            Ok(lease) => {
                self.stage = Stage::GettingRight;
                self.held.second = Some(lease);
                Turn::More
            }
            Err(trouble) => self.stop(trouble),
        }
    }

    fn right_got(&mut self, alloc: Global, got: Result<Option<Blob>, Trouble>) -> Turn<CkptAnswer>
        ensures took { TurnsBy (λ p next. RightGot p got next) self.old self.new result }
        ensures refused { IfErr got (λ _. result ≡ Turn.More) }
    {
        match got {
            Ok(got) => self.read_right_bytes(alloc, held_bytes(&got)),
            Err(trouble) => self.stop(trouble),
        }
    }

    fn read_right_bytes(&mut self, alloc: Global, got: Option<&[u8]>) -> Turn<CkptAnswer>
        ensures { TurnsBy (λ p next. RightGot p (Ok (option_copied got.entry)) next) self.old self.new result }
    {
        let page = self.at.page;
        match linked_leaf(alloc, self.tree, page, self.at.low.as_slice(), got) {
            Ok(leaf) => self.read_right(alloc, &leaf),
            Err(Fault::Stops(trouble)) => self.stop(trouble),
            Err(Fault::Memory) => Turn::Stopped(Trouble::Memory),
        }
    }

    /// Puts the right page with what it lacks of the run next, or leaves it where it lacks nothing.
    fn read_right(&mut self, alloc: Global, leaf: &LeafView<'_>) -> Turn<CkptAnswer>
        ensures { TurnsBy (λ p next. RightRead p (Ok leaf.now) next) self.old self.new result }
    {
        match link_of(alloc, leaf, self.run_items()) {
            Ok(onward) => {
                self.onward = onward;
                self.put_right(alloc, leaf)
            }
            Err(_) => Turn::Stopped(Trouble::Memory),
        }
    }

    fn put_right(&mut self, alloc: Global, leaf: &LeafView<'_>) -> Turn<CkptAnswer>
        ensures { TurnsBy (λ p next. RightLacks p leaf.now (has_items (lacked leaf.now p.page p.run.items)) next) self.old self.new result }
    {
        match lacked_of(alloc, leaf, self.page.get(), self.run_items()) {
            Ok(lacked) => self.put_lacked(alloc, leaf, lacked),
            Err(_) => Turn::Stopped(Trouble::Memory),
        }
    }

    fn put_lacked(
        &mut self,
        alloc: Global,
        leaf: &LeafView<'_>,
        items: Vec<PuItem>,
    ) -> Turn<CkptAnswer>
        requires { items.items ≡ lacked leaf.now self.old.page self.old.run.items }
        ensures { TurnsBy (λ p next. RightLacks p leaf.now (has_items items.items) next) self.old self.new result }
    {
        if items.is_empty() {
            self.stage = Stage::ReleasingRight;
            return Turn::More;
        }
        let made = made_leaf(alloc, leaf, self.page.get(), self.run_items());
        self.put_made(Stage::PuttingRight, items, made)
    }

    fn right_put(&mut self, alloc: Global, done: Result<(), Trouble>) -> Turn<CkptAnswer>
        ensures took { TurnsBy (λ p next. next ≡ right_put_by p done) self.old self.new result }
        ensures refused { IfErr done (λ _. result ≡ Turn.More) }
        ensures full { result ≡ Turn.Stopped Trouble.Memory → IsCountFull self.old }
    {
        match done {
            Ok(()) => {
                let Some(applied) = counted_after(self.applied, self.applying.as_slice()) else {
                    return Turn::Stopped(Trouble::Memory);
                };
                self.applied = applied;
                self.applying = Vec::new(alloc);
                self.stage = Stage::ReleasingRight;
                Turn::More
            }
            Err(trouble) => {
                self.applying = Vec::new(alloc);
                self.stop(trouble)
            }
        }
    }

    fn right_released(&mut self, alloc: Global) -> Turn<CkptAnswer>
        ensures { TurnsBy (λ p next. GoesOnBy (without_onward p) p.onward next) self.old self.new result }
    {
        let onward = self.onward.take();
        self.go_on(alloc, onward)
    }

    fn home_put(&mut self, alloc: Global, done: Result<(), Trouble>) -> Turn<CkptAnswer>
        ensures took { TurnsBy (λ p next. next ≡ home_put_by p done) self.old self.new result }
        ensures refused { IfErr done (λ _. result ≡ Turn.More) }
        ensures full { result ≡ Turn.Stopped Trouble.Memory → IsCountFull self.old }
    {
        match done {
            Ok(()) => {
                let Some(applied) = counted_after(self.applied, self.applying.as_slice()) else {
                    return Turn::Stopped(Trouble::Memory);
                };
                self.applied = applied;
                self.applying = Vec::new(alloc);
                self.delete_next()
            }
            Err(trouble) => {
                self.applying = Vec::new(alloc);
                self.stop(trouble)
            }
        }
    }

    /// Deletes the next message next, or gives the leases back where none is left.
    fn delete_next(&mut self) -> Turn<CkptAnswer>
        ensures took { TurnsBy (λ p next. next ≡ deleting p) self.old self.new result }
        ensures more { result ≡ Turn.More }
    {
        match self.deletions.next() {
            Some(_) => {
                self.stage = Stage::Deleting;
                Turn::More
            }
            None => {
                self.stage = Stage::Releasing;
                Turn::More
            }
        }
    }

    fn deleted(&mut self, done: Result<(), Trouble>) -> Turn<CkptAnswer>
        ensures took { TurnsBy (λ p next. next ≡ deleted_by p done) self.old self.new result }
        ensures more { result ≡ Turn.More }
    {
        self.deletions.note(done.is_ok());
        self.delete_next()
    }

    /// The next lease is given back next, or the checkpoint ends.
    fn released(&mut self) -> Turn<CkptAnswer>
        ensures took { TurnsBy (λ p next. next ≡ released_by p (newest_lease p.held)) self.old self.new result }
        ensures kept { result ≡ Turn.Stopped Trouble.Memory → self.old.trouble ≡ Some Trouble.Memory }
    {
        match self.held.newest() {
            Some(_) => Turn::More,
            None => self.finish(),
        }
    }

    fn finish(&mut self) -> Turn<CkptAnswer>
        ensures took { TurnsBy (λ p next. next ≡ finished_by p p.trouble) self.old self.new result }
        ensures kept { result ≡ Turn.Stopped Trouble.Memory → self.old.trouble ≡ Some Trouble.Memory }
    {
        self.stage = Stage::Finished;
        match self.trouble.take() {
            Some(trouble) => Turn::Stopped(trouble),
            None => Turn::Ended(CkptAnswer {
                applied: self.applied,
                deleted: self.deletions.deleted(),
                left: self.deletions.left(),
            }),
        }
    }

    /// Takes the answer of the call in hand. A lease that the call gave back has left.
    #[inline(always)]
    fn absorb(&mut self, alloc: Global, answer: Answer) -> Turn<CkptAnswer>
        ensures took { Took Absorbs SameLeases self.old answer self.new result }
        ensures memory { answer ≡ Answer.Memory → result ≡ Turn.Stopped Trouble.Memory }
        ensures refused { IsRefusal answer → result ≡ Turn.Stopped Trouble.Memory → WantsMore self.old.stage self.old }
        ensures wants { answer ≢ Answer.Memory → result ≡ Turn.Stopped Trouble.Memory → WantsMemory self.old.stage self.old }
    {
        if let Answer::Memory = answer {
            return Turn::Stopped(Trouble::Memory);
        }
        // The answer stays where it lies: an arm that had one of its own would clear room for it at each step.
        match self.stage {
            Stage::TakingHome => self.home_taken(answer.given(Lock::Page(self.tree, self.page))),
            Stage::GettingHome => self.home_got(answer.got()),
            Stage::Receiving => self.received_by(alloc, answer.received()),
            Stage::TakingRight => {
                self.right_taken(answer.given(Lock::Page(self.tree, self.at.page)))
            }
            Stage::GettingRight => self.right_got(alloc, answer.got()),
            Stage::PuttingRight => self.right_put(alloc, answer.done()),
            Stage::ReleasingRight => self.right_released(alloc),
            Stage::PuttingHome => self.home_put(alloc, answer.done()),
            Stage::Deleting => self.deleted(answer.done()),
            Stage::Releasing => self.released(),
            Stage::Finished => Turn::Stopped(Trouble::Failed),
        }
    }

    /// Makes the call in hand, and does the local work up to the next one.
    #[inline(always)]
    pub fn step<C: Cloud>(&mut self, alloc: Global, cloud: &mut C, who: Who) -> Turn<CkptAnswer>
        // The call in hand was made, and all that follows from its one answer.
        ensures steps { Stepped who (C.seen cloud.old) (C.seen cloud.new) self.old self.new result }
        ensures less { result ≡ Turn.More → calls_left self.new < calls_left self.old }
        // The leases that it holds are those that it took and has not given back.
        ensures leases { (h : List Deed) → Went h self.old → claims_of self.old.held ≡ outstanding h }
        // The call names leases that it holds, and takes no lock that it holds.
        ensures names { (h : List Deed) → Went h self.old → Names (paging_ask self.old) (outstanding h) }
        // Before an end all leases are given back.
        ensures gives_back { (h : List Deed) → Went h self.old → GivesBack self.new result }
        // Five calls, one for each id that is deleted, and four for each right page that is come to, are all.
        ensures few { (h : List Deed) → Went h self.old → AreFew self.old (length h + 1) }
    {
        let answer = self.call(cloud, who);
        let turn = self.absorb(alloc, answer);
        self.has_few_visited();
        turn
    }

    /// A list is no longer than the greatest usize.
    fn has_few_visited(&self)
        ensures { length self.now.visited ≤ 2 ^ 64 }
    {
        let _visited = self.visited.len();
    }
}

/// A count with so many items more; none where it would pass the greatest u64, and its checkpoint stops there as for want of memory.
fn counted_after(count: u64, items: &[PuItem]) -> Option<u64>
    ensures counted { IfSome result (λ n. n ≡ count + length items.now) }
    ensures full { IfNone result (2 ^ 64 ≤ count + length items.now) }
{
    count.checked_add(items.len() as u64)
}
