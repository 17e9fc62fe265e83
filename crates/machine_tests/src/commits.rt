//! A client that commits over a cloud in memory, step by step of a script.

use crate::machine::{Calls, run};
use crate::store::{put_numbered, who};
use crate::story::Story;
use cloud_trait::cloud::Bench as Schedule;
use cloud_trait::lease::Lease;
use cloud_trait::turn::Turn;
use commit_run::CommitRun;
use db_base::change::Change;
use db_base::ids::{ClientId, TreeId};
use db_base::key::{Key, Payload};
use db_base::trouble::CommitAnswer;
use db_base::wish::Wish;
use memory_cloud::memory::MemoryCloud;
use page_cache::PageCache;
use recover_run::home::Home;
use recover_run::recover::RecoverRun;
use recover_run::stage::Aim;
use std::alloc::Global;
use std::test::Fail;
use txn_buffer::buffer::TxnBuffer;

/// What is to come over a call of the next commit, by its number from 1.
#[derive(Clone, Copy)]
pub(crate) enum Mishap {
    /// Nothing.
    Nothing,
    /// The call fails.
    Fails(u64),
    /// The client's lease ends before the call.
    IsLate(u64),
    /// The call gets no version.
    GetsNone(u64),
}

/// A change of a tree, by its number, at a key of one byte.
#[derive(Clone, Copy)]
pub(crate) enum Edit {
    Insert(u64, u8),
    Update(u64, u8),
}

/// A step of a script.
#[derive(Clone, Copy)]
pub(crate) enum Step<'a> {
    /// Something is to come over the next commit.
    Comes(Mishap),
    /// A commit, and what it tells: its calls and its answer, a line for each.
    Commits(&'a [Edit], &'a str),
    /// A commit of so many inserts of keys of two bytes that begin with this one.
    Many(u8, u8),
    /// An object that another client puts, 0 for the tree object.
    Puts(u64, &'a [u8]),
    /// What is pending: the page of each entry, 0 for the tree, with its number in the queue there.
    Pending(&'a str),
}

/// Of an opening no call is told.
const UNTOLD: Calls = Calls {
    first: 0,
    last: 0,
    short: 0,
};

/// An open client 5 with its cache, over a cloud.
#[derive(Drop)]
struct Bench {
    alloc: Global,
    cloud: MemoryCloud,
    cache: PageCache,
    home: Option<Home>,
    mishap: Mishap,
}

/// Plays a script over a cloud.
pub(crate) fn play(alloc: Global, cloud: MemoryCloud, script: &[Step<'_>]) -> Result<(), Fail> {
    let mut bench = opened(alloc, cloud)?;
    bench.play(script)
}

/// The client as it is opened over a cloud.
fn opened(alloc: Global, cloud: MemoryCloud) -> Result<Bench, Fail> {
    let mut bench = Bench {
        alloc,
        cloud,
        cache: PageCache::new(alloc)?,
        home: None,
        mishap: Mishap::Nothing,
    };
    bench.open()?;
    Ok(bench)
}

impl Bench {
    /// Opens the client.
    fn open(&mut self) -> Result<(), Fail> {
        let client = ClientId::new(5)?;
        let mut opening = RecoverRun::new(self.alloc, client, Aim::Opening, None);
        let mut untold = Story::new(self.alloc);
        run(
            &mut opening,
            self.alloc,
            &mut self.cloud,
            &mut untold,
            UNTOLD,
        )?;
        self.home = opening.finish();
        Ok(())
    }

    /// Plays a script.
    fn play(&mut self, script: &[Step<'_>]) -> Result<(), Fail> {
        for step in script {
            self.step(step)?;
        }
        Ok(())
    }

    /// Plays a step of a script.
    fn step(&mut self, step: &Step<'_>) -> Result<(), Fail> {
        match *step {
            Step::Comes(mishap) => {
                self.mishap = mishap;
                Ok(())
            }
            Step::Commits(edits, wanted) => self.commits(edits, wanted),
            Step::Many(first, count) => self.many(first, count),
            Step::Puts(number, bytes) => put_numbered(&mut self.cloud, number, bytes),
            Step::Pending(wanted) => self.pending(wanted),
        }
    }

    fn commits(&mut self, edits: &[Edit], wanted: &str) -> Result<(), Fail> {
        let mut changes = TxnBuffer::new(self.alloc)?;
        note_all(self.alloc, &mut changes, edits)?;
        let story = self.commit(changes)?;
        story.is(wanted)
    }

    fn many(&mut self, first: u8, count: u8) -> Result<(), Fail> {
        let mut changes = TxnBuffer::new(self.alloc)?;
        for second in 0..count {
            note_insert(self.alloc, &mut changes, 1, &[first, second])?;
        }
        let _story = self.commit(changes)?;
        Ok(())
    }

    fn pending(&self, wanted: &str) -> Result<(), Fail> {
        match &self.home {
            Some(home) => pending_of(self.alloc, home)?.is(wanted),
            None => Err(Fail::from("no home")),
        }
    }

    /// Commits changes: its calls and its answer, a line for each.
    fn commit(&mut self, changes: TxnBuffer) -> Result<Story, Fail> {
        let home = self.home.take().ok_or("no home")?;
        let mut run = begun(self.alloc, home, changes)?;
        let story = self.run(&mut run)?;
        self.home = Some(run.finish());
        self.mishap = Mishap::Nothing;
        Ok(story)
    }

    /// Runs a commit to its end.
    fn run(&mut self, run: &mut CommitRun) -> Result<Story, Fail> {
        let mut story = Story::new(self.alloc);
        match run.ready(self.alloc, &mut self.cache) {
            Turn::More => self.drive(run, &mut story)?,
            _ => return Err(Fail::from("no call")),
        }
        Ok(story)
    }

    /// Makes the calls of a commit.
    fn drive(&mut self, run: &mut CommitRun, story: &mut Story) -> Result<(), Fail> {
        for call in 1..900u64 {
            if self.go(run, story, call)? {
                return Ok(());
            }
        }
        Err(Fail::from("no end"))
    }

    /// Tells of a call of a commit, and makes it; true where the commit ended.
    fn go(&mut self, run: &mut CommitRun, story: &mut Story, call: u64) -> Result<bool, Fail> {
        tell(run, story)?;
        self.spoil(call);
        let turn = self.turn(run)?;
        story.commit(&turn)
    }

    /// Makes a call of a commit.
    fn turn(&mut self, run: &mut CommitRun) -> Result<Turn<CommitAnswer>, Fail> {
        let who = who()?;
        Ok(run.step(self.alloc, &mut self.cloud, who, &mut self.cache))
    }

    /// Lets the mishap come where it is this call's.
    fn spoil(&mut self, call: u64) {
        match self.mishap {
            Mishap::Nothing => {}
            Mishap::Fails(number) => self.wish(number == call, Wish::Fail),
            Mishap::GetsNone(number) => self.wish(number == call, Wish::Old(0)),
            Mishap::IsLate(number) => self.wait(number == call),
        }
    }

    fn wish(&mut self, comes: bool, wish: Wish) {
        if comes {
            self.cloud.wish(wish);
        }
    }

    fn wait(&mut self, comes: bool) {
        if comes {
            self.cloud.wait(600);
        }
    }
}

/// Tells of the call in hand. The type of a lease is named, for the checker of borrows wants it beside a call.
fn tell(run: &CommitRun, story: &mut Story) -> Result<(), Fail> {
    let _none: Option<Lease> = None;
    story.call(&run.in_hand())
}

/// What is pending: the page of each entry, 0 for the tree, with its number in the queue there.
fn pending_of(alloc: Global, home: &Home) -> Result<Story, Fail> {
    let mut story = Story::new(alloc);
    for entry in home.head.pending.as_slice() {
        let entry = entry.get();
        story.pending(entry.page, entry.number)?;
    }
    Ok(story)
}

/// A commit before its first call.
fn begun(alloc: Global, home: Home, changes: TxnBuffer) -> Result<CommitRun, Fail> {
    if changes.is_empty() {
        return Err(Fail::from("no change"));
    }
    Ok(CommitRun::new(alloc, home, changes))
}

/// Notes an insert of a key in a tree.
fn note_insert(alloc: Global, changes: &mut TxnBuffer, tree: u64, key: &[u8]) -> Result<(), Fail> {
    let key = Key::new(alloc, key)?;
    let payload = Payload::new(alloc, b"v")?;
    let change = Change::Insert {
        key,
        payload,
        attr: None,
    };
    changes.note(TreeId::new(tree)?, change)?;
    Ok(())
}

/// Notes an update of a key in a tree.
fn note_update(alloc: Global, changes: &mut TxnBuffer, tree: u64, key: &[u8]) -> Result<(), Fail> {
    let key = Key::new(alloc, key)?;
    let payload = Payload::new(alloc, b"w")?;
    changes.note(TreeId::new(tree)?, Change::Update { key, payload })?;
    Ok(())
}

/// Notes changes.
fn note_all(alloc: Global, changes: &mut TxnBuffer, edits: &[Edit]) -> Result<(), Fail> {
    for edit in edits {
        match *edit {
            Edit::Insert(tree, key) => note_insert(alloc, changes, tree, &[key])?,
            Edit::Update(tree, key) => note_update(alloc, changes, tree, &[key])?,
        }
    }
    Ok(())
}
