//! What a line asks, and of which session.

ghost use Rattle.std.specs.Prelude.{◌≡◌};
ghost use Rattle.world_core.specs.Asked.{Asks, IsBound, IsMade, IsMaybeAttr, IsOpening, IsReading, IsScanning, IsTreeWithIndex, IsLookingUp, IsPaging, IsFolding, IsNoted, IsStep, IsTreeOf};
ghost use Rattle.world_core.specs.declared.asked.Noting.TheVariants.{Single, Indexed};
ghost use Rattle.db_base.specs.declared.change.Change.TheVariants.{Insert, Update, Delete, Add};

use ckpt_policy::Role;
use client_work::op::Op;
use db_base::attr::Attr;
use db_base::blob::Blob;
use db_base::change::Change;
use db_base::ids::{ClientId, PageId, TreeId};
use db_base::key::{Key, Payload};
use db_base::refusal::{Refusal, Refused};
use db_base::wish::{Positions, Wish};
use event_text::event::Event;
use std::alloc::Global;

/// What a line notes.
#[derive(Drop)]
pub enum Noting {
    /// A change of a tree.
    Single(TreeId, Change),
    /// The insert of a record with an attribute, and that of its entry into the index of the tree.
    Indexed(TreeId, Key, Payload, Attr),
}

/// What a line asks of its session.
#[derive(Drop)]
pub enum Request {
    /// To begin an operation.
    Begin(Op),
    /// To note a change, or a record and its entry.
    Note(Noting),
    /// To drop the changes that it noted.
    Abort,
    /// To have a ledger of a role and a number.
    Policy(Role, u64),
    /// To make one checkpoint of each queue that is due.
    Work,
    /// To make one step under a wish.
    Step(Wish),
    /// To make plain steps until the answer.
    Run,
    /// To die: at once, or once the call in hand is made.
    Crash(bool),
}

/// What a line asks.
#[derive(Drop)]
pub enum Asked {
    /// Something of the session of this number, or why it is refused.
    Session(u64, Result<Request, Refused>),
    /// That the clock goes on for some ticks.
    Wait(u64),
    /// The report of the tree of this number.
    Report(u64),
    /// A settling.
    Settle,
    /// The sweep of a tree, or why it is refused.
    Sweep(Result<TreeId, Refused>),
}

impl Asked {
    /// What a line asks.
    pub(crate) fn of(alloc: Global, event: &Event) -> Asked
        ensures { Asks event.now result }
    {
        match event {
            Event::Open { session, client } => Asked::Session(*session, opening_of(*client)),
            Event::Insert {
                session,
                tree,
                key,
                payload,
                attr,
            } => Asked::Session(*session, insert_noted(alloc, *tree, key, payload, attr)),
            Event::Put {
                session,
                tree,
                key,
                payload,
                attr,
            } => Asked::Session(*session, put_noted(alloc, *tree, key, payload, attr)),
            Event::Update {
                session,
                tree,
                key,
                payload,
            } => Asked::Session(*session, update_noted(alloc, *tree, key, payload)),
            Event::Delete { session, tree, key } => {
                Asked::Session(*session, delete_noted(alloc, *tree, key))
            }
            Event::Add {
                session,
                tree,
                key,
                amount,
            } => Asked::Session(*session, add_noted(alloc, *tree, key, *amount)),
            Event::Close { session } => Asked::Session(*session, Ok(Request::Begin(Op::Close))),
            Event::Renew { session } => Asked::Session(*session, Ok(Request::Begin(Op::Renew))),
            Event::Commit { session } => Asked::Session(*session, Ok(Request::Begin(Op::Commit))),
            Event::Abort { session } => Asked::Session(*session, Ok(Request::Abort)),
            Event::Read { session, tree, key } => {
                Asked::Session(*session, reading_of(alloc, *tree, key))
            }
            Event::Scan {
                session,
                tree,
                from,
                to,
            } => Asked::Session(*session, scanning_of(alloc, *tree, from, to)),
            Event::Lookup {
                session,
                tree,
                attr,
            } => Asked::Session(*session, lookup_of(alloc, *tree, attr)),
            Event::Page {
                session,
                tree,
                page,
            } => Asked::Session(*session, paging_of(*tree, *page)),
            Event::Tree { session, tree } => Asked::Session(*session, folding_of(*tree)),
            Event::Policy { session, role, k } => {
                Asked::Session(*session, Ok(Request::Policy(*role, *k)))
            }
            Event::Work { session } => Asked::Session(*session, Ok(Request::Work)),
            Event::Run { session } => Asked::Session(*session, Ok(Request::Run)),
            Event::Step { session, wish } => Asked::Session(*session, step_of(alloc, wish)),
            Event::Crash { session, done } => Asked::Session(*session, Ok(Request::Crash(*done))),
            Event::Wait { ticks } => Asked::Wait(*ticks),
            Event::Report { tree } => Asked::Report(*tree),
            Event::Settle => Asked::Settle,
            Event::Sweep { tree } => Asked::Sweep(tree_of(*tree)),
        }
    }
}

/// The tree of this number.
fn tree_of(number: u64) -> Result<TreeId, Refused>
    ensures { IsTreeOf number result }
{
    match TreeId::new(number) {
        Ok(tree) => Ok(tree),
        Err(rule) => Err(Refused::Rule(rule)),
    }
}

/// The opening of the client of this number.
fn opening_of(client: u64) -> Result<Request, Refused>
    ensures { IsOpening client result }
{
    match ClientId::new(client) {
        Ok(client) => Ok(Request::Begin(Op::Open(client))),
        Err(rule) => Err(Refused::Rule(rule)),
    }
}

/// The read of a key of the tree of this number.
fn reading_of(alloc: Global, tree: u64, key: &Blob) -> Result<Request, Refused>
    ensures { IsReading tree key.now result }
{
    let tree = match TreeId::new(tree) {
        Ok(tree) => tree,
        Err(rule) => return Err(Refused::Rule(rule)),
    };
    match Key::new(alloc, key.as_slice()) {
        Ok(key) => Ok(Request::Begin(Op::Read(tree, key))),
        Err(why) => Err(why),
    }
}

/// The scan of the records of the tree of this number, from one bound on and below the other.
fn scanning_of(alloc: Global, tree: u64, from: &Blob, to: &Blob) -> Result<Request, Refused>
    ensures { IsScanning tree from.now to.now result }
{
    let tree = match TreeId::new(tree) {
        Ok(tree) => tree,
        Err(rule) => return Err(Refused::Rule(rule)),
    };
    let from = match bound_of(alloc, from) {
        Ok(from) => from,
        Err(why) => return Err(why),
    };
    match bound_of(alloc, to) {
        Ok(to) => Ok(Request::Begin(Op::Scan(tree, from, to))),
        Err(why) => Err(why),
    }
}

/// The key that bounds a scan; no byte is no bound.
fn bound_of(alloc: Global, bytes: &Blob) -> Result<Option<Key>, Refused>
    ensures { IsBound bytes.now result }
{
    if bytes.as_slice().is_empty() {
        return Ok(None);
    }
    match Key::new(alloc, bytes.as_slice()) {
        Ok(key) => Ok(Some(key)),
        Err(why) => Err(why),
    }
}

/// The tree of this number, which has an index by attribute.
fn tree_with_index(number: u64) -> Result<TreeId, Refused>
    ensures { IsTreeWithIndex number result }
{
    let tree = match TreeId::new(number) {
        Ok(tree) => tree,
        Err(rule) => return Err(Refused::Rule(rule)),
    };
    if tree.index().is_none() {
        return Err(Refused::Rule(Refusal::BadNumber));
    }
    Ok(tree)
}

/// The look-up of the records with an attribute in the tree of this number, which has an index.
fn lookup_of(alloc: Global, tree: u64, attr: &Blob) -> Result<Request, Refused>
    ensures { IsLookingUp tree attr.now result }
{
    let tree = tree_with_index(tree)?;
    match Attr::new(alloc, attr.as_slice()) {
        Ok(attr) => Ok(Request::Begin(Op::Lookup(tree, attr))),
        Err(why) => Err(why),
    }
}

/// The checkpoint of the page of this number, of the tree of this number.
fn paging_of(tree: u64, page: u64) -> Result<Request, Refused>
    ensures { IsPaging tree page result }
{
    let tree = match TreeId::new(tree) {
        Ok(tree) => tree,
        Err(rule) => return Err(Refused::Rule(rule)),
    };
    match PageId::new(page) {
        Ok(page) => Ok(Request::Begin(Op::Page(tree, page))),
        Err(rule) => Err(Refused::Rule(rule)),
    }
}

/// The checkpoint of the tree of this number.
fn folding_of(tree: u64) -> Result<Request, Refused>
    ensures { IsFolding tree result }
{
    match TreeId::new(tree) {
        Ok(tree) => Ok(Request::Begin(Op::Tree(tree))),
        Err(rule) => Err(Refused::Rule(rule)),
    }
}

/// One step under a copy of the wish. Refused for memory alone.
fn step_of(alloc: Global, wish: &Wish) -> Result<Request, Refused>
    ensures { IsStep wish.now result }
{
    match wish {
        Wish::Plain => Ok(Request::Step(Wish::Plain)),
        Wish::Fail => Ok(Request::Step(Wish::Fail)),
        Wish::Lost => Ok(Request::Step(Wish::Lost)),
        Wish::Hide => Ok(Request::Step(Wish::Hide)),
        Wish::Old(version) => Ok(Request::Step(Wish::Old(*version))),
        Wish::Give(positions) => match Positions::new(alloc, positions.as_slice()) {
            Ok(positions) => Ok(Request::Step(Wish::Give(positions))),
            Err(_) => Err(Refused::Memory),
        },
    }
}

/// The insert of a key, a payload and maybe an attribute into the tree of this number.
fn insert_noted(
    alloc: Global,
    tree: u64,
    key: &Blob,
    payload: &Blob,
    attr: &Option<Blob>,
) -> Result<Request, Refused>
    ensures { IsNoted (Single tree (Insert key.now payload.now attr.now)) result }
{
    let tree = match TreeId::new(tree) {
        Ok(tree) => tree,
        Err(rule) => return Err(Refused::Rule(rule)),
    };
    match insert_of(alloc, key, payload, attr) {
        Ok(change) => Ok(Request::Note(Noting::Single(tree, change))),
        Err(why) => Err(why),
    }
}

/// The insert of a key, a payload and an attribute into the tree of this number, which has an index, and of their entry there.
fn put_noted(
    alloc: Global,
    tree: u64,
    key: &Blob,
    payload: &Blob,
    attr: &Blob,
) -> Result<Request, Refused>
    ensures { IsNoted (Indexed tree key.now payload.now attr.now) result }
{
    let tree = tree_with_index(tree)?;
    let key = Key::new(alloc, key.as_slice())?;
    let payload = Payload::new(alloc, payload.as_slice())?;
    let attr = Attr::new(alloc, attr.as_slice())?;
    Ok(Request::Note(Noting::Indexed(tree, key, payload, attr)))
}

/// The update of a key by a payload in the tree of this number.
fn update_noted(alloc: Global, tree: u64, key: &Blob, payload: &Blob) -> Result<Request, Refused>
    ensures { IsNoted (Single tree (Update key.now payload.now)) result }
{
    let tree = match TreeId::new(tree) {
        Ok(tree) => tree,
        Err(rule) => return Err(Refused::Rule(rule)),
    };
    match update_of(alloc, key, payload) {
        Ok(change) => Ok(Request::Note(Noting::Single(tree, change))),
        Err(why) => Err(why),
    }
}

/// The deletion of a key in the tree of this number.
fn delete_noted(alloc: Global, tree: u64, key: &Blob) -> Result<Request, Refused>
    ensures { IsNoted (Single tree (Delete key.now)) result }
{
    let tree = match TreeId::new(tree) {
        Ok(tree) => tree,
        Err(rule) => return Err(Refused::Rule(rule)),
    };
    match delete_of(alloc, key) {
        Ok(change) => Ok(Request::Note(Noting::Single(tree, change))),
        Err(why) => Err(why),
    }
}

/// The addition to a key's payload in the tree of this number.
fn add_noted(alloc: Global, tree: u64, key: &Blob, amount: u64) -> Result<Request, Refused>
    ensures { IsNoted (Single tree (Add key.now amount)) result }
{
    let tree = match TreeId::new(tree) {
        Ok(tree) => tree,
        Err(rule) => return Err(Refused::Rule(rule)),
    };
    match add_of(alloc, key, amount) {
        Ok(change) => Ok(Request::Note(Noting::Single(tree, change))),
        Err(why) => Err(why),
    }
}

/// The insert of a key, a payload and maybe an attribute, where they are ones.
fn insert_of(
    alloc: Global,
    key: &Blob,
    payload: &Blob,
    attr: &Option<Blob>,
) -> Result<Change, Refused>
    ensures { IsMade (Insert key.now payload.now attr.now) result }
{
    let key = Key::new(alloc, key.as_slice())?;
    let payload = Payload::new(alloc, payload.as_slice())?;
    let attr = attr_of(alloc, attr)?;
    Ok(Change::Insert { key, payload, attr })
}

/// The attribute of these bytes, where there are any.
fn attr_of(alloc: Global, bytes: &Option<Blob>) -> Result<Option<Attr>, Refused>
    ensures { IsMaybeAttr bytes.now result }
{
    match bytes {
        Some(bytes) => Ok(Some(Attr::new(alloc, bytes.as_slice())?)),
        None => Ok(None),
    }
}

/// The update of a key by a payload, where they are ones.
fn update_of(alloc: Global, key: &Blob, payload: &Blob) -> Result<Change, Refused>
    ensures { IsMade (Update key.now payload.now) result }
{
    let key = Key::new(alloc, key.as_slice())?;
    let payload = Payload::new(alloc, payload.as_slice())?;
    Ok(Change::Update { key, payload })
}

/// The deletion of a key, where it is one.
fn delete_of(alloc: Global, key: &Blob) -> Result<Change, Refused>
    ensures { IsMade (Delete key.now) result }
{
    let key = Key::new(alloc, key.as_slice())?;
    Ok(Change::Delete { key })
}

/// The addition to the payload of a key, where it is one.
fn add_of(alloc: Global, key: &Blob, amount: u64) -> Result<Change, Refused>
    ensures { IsMade (Add key.now amount) result }
{
    let key = Key::new(alloc, key.as_slice())?;
    Ok(Change::Add { key, amount })
}
