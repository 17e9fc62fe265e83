//! What the cloud answers: mostly what fits, and at its rate a lie or a fault.

use crate::ascending::Ascending;
use crate::objects::{HEADS, INDEX_1, INDEX_2, INDEX_ROOT, LIES};
use crate::witness::Witness;
use cloud_trait::message::Message;
use db_base::blob::Blob;
use db_base::ids::{MsgId, PageId, TreeId};
use db_base::names::{ObjName, QueueName};
use sched_gen::draws::Draws;
use std::alloc::{AllocError, Global};
use tree_bytes::{LEAF_1, LEAF_2, LEAF_3, LEAF_4, NODE_7, NODE_8, ROOT};

/// How a call fares.
#[derive(Clone, Copy, PartialEq, Eq)]
pub(crate) enum Fate {
    /// It has an answer that fits.
    Fits,
    /// It has a lie.
    Lies,
    /// It has none, since a lease is over, a lock is held or an object is absent.
    Misses,
    /// It fails.
    Fails,
    /// Memory runs out.
    Starves,
}

/// The generator with what it answered.
#[derive(Drop)]
pub(crate) struct Liar {
    alloc: Global,
    draws: Draws,
    rate: u64,
    /// What it answered.
    pub(crate) witness: Witness,
    /// The leases that were given out and did not come back.
    pub(crate) owed: u64,
}

/// Client 1's record of a commit of three in tree 1, an insert: epoch, transaction, index, page and number.
fn atomic_record(epoch: u8, txn: u8, index: u8, page: u8, number: u8) -> [u8; 44] {
    [
        0x41, 1, 1, 0, 0, 0, 0, 0, 0, 0, epoch, 0, 0, 0, 0, 0, 0, 0, txn, index, 3, 1, 0, 0, 0, 0,
        0, 0, 0, page, 0, 0, 0, 0, 0, 0, 0, number, 1, 1, 0x6b, 0, 1, 0x76,
    ]
}

/// A client's pending insert (1) or update (2) of a key of two bytes, the second of which is its number.
fn pending_record(client: u8, number: u8, kind: u8, key: u8) -> [u8; 34] {
    [
        0x50, 1, client, 0, 0, 0, 0, 0, 0, 0, 1, 0, 0, 0, 0, 0, 0, 0, 1, 0, 0, 0, 0, 0, 0, 0,
        number, kind, 2, key, number, 0, 1, 0x76,
    ]
}

/// Sets so many bytes from a place on, as far as there are any.
fn fill(bytes: &mut Vec<u8>, from: usize, count: usize, value: u8) {
    for offset in 0..count {
        if let Some(byte) = bytes.get_mut(from.saturating_add(offset)) {
            *byte = value;
        }
    }
}

/// Whether a tree is an index.
fn is_index(tree: TreeId) -> bool {
    tree.get() > 8
}

/// The tree object of the tree or of its index.
fn root_bytes(tree: TreeId) -> &'static [u8] {
    if is_index(tree) { INDEX_ROOT } else { ROOT }
}

/// The object of a page of the tree or of its index.
fn page_bytes(tree: TreeId, page: PageId) -> &'static [u8] {
    if is_index(tree) {
        index_page(page.get())
    } else {
        tree_page(page.get())
    }
}

/// The object of a page of the index.
fn index_page(page: u64) -> &'static [u8] {
    match page {
        1 => INDEX_1,
        2 => INDEX_2,
        _ => b"",
    }
}

/// The object of a page of the tree.
fn tree_page(page: u64) -> &'static [u8] {
    match page {
        1 => LEAF_1,
        2 => LEAF_2,
        3 => LEAF_3,
        4 => LEAF_4,
        7 => NODE_7,
        8 => NODE_8,
        _ => b"",
    }
}

/// Adds the page of a number to a listing, where there is one and it ascends.
fn add_page(pages: &mut Ascending, number: u64) -> Result<(), AllocError> {
    if let Ok(page) = PageId::new(number) {
        pages.add(page)?;
    }
    Ok(())
}

impl Liar {
    ghost use Rattle.std.specs.Prelude.{IfOk};
    ghost use Rattle.cloud_trait.specs.Listing.{AscendAbove};

    /// The liar of a number. One of 2, 8, 64 or 1024 calls fares badly.
    pub(crate) fn new(alloc: Global, number: u64) -> Liar {
        Liar {
            alloc,
            draws: Draws::new(number),
            rate: match number % 4 {
                0 => 2,
                1 => 8,
                2 => 64,
                _ => 1024,
            },
            witness: Witness::new(alloc),
            owed: 0,
        }
    }

    fn small(&mut self) -> u8 {
        (self.draws.draw() % 256) as u8
    }

    /// How the next call fares.
    pub(crate) fn fate(&mut self) -> Fate {
        self.witness.call();
        let fate = self.luck();
        match fate {
            Fate::Fails => self.witness.fail(),
            Fate::Starves => self.witness.starve(),
            Fate::Fits | Fate::Lies | Fate::Misses => {}
        }
        fate
    }

    /// How a call or a message of a list fares.
    fn luck(&mut self) -> Fate {
        if self.rate == 0 || self.draws.draw() % self.rate != 0 {
            return Fate::Fits;
        }
        match self.draws.draw() % 16 {
            0 => Fate::Starves,
            1 | 2 => Fate::Fails,
            3 | 4 | 5 => Fate::Misses,
            _ => Fate::Lies,
        }
    }

    /// One of two.
    pub(crate) fn tosses(&mut self) -> bool {
        self.draws.draw() % 2 == 0
    }

    /// One of the lies, or no byte.
    fn lie(&mut self) -> &'static [u8] {
        match LIES.get((self.draws.draw() % 13) as usize) {
            Some(bytes) => bytes,
            None => b"",
        }
    }

    fn head(&mut self) -> &'static [u8] {
        match HEADS.get((self.draws.draw() % 5) as usize) {
            Some(bytes) => bytes,
            None => b"",
        }
    }

    /// The object of a name.
    fn truth(&mut self, name: ObjName) -> &'static [u8] {
        match name {
            ObjName::Head(_) => self.head(),
            ObjName::Tree(tree) => root_bytes(tree),
            ObjName::Page(tree, page) => page_bytes(tree, page),
        }
    }

    /// Spoils bytes: one of them, what is behind a place, the version or epoch, another number, or the last byte of the version.
    fn spoil(&mut self, bytes: &mut Vec<u8>) {
        let place = (self.draws.draw() % 48) as usize;
        let value = self.small();
        match self.draws.draw() % 6 {
            0 => fill(bytes, place, 1, value),
            1 => bytes.truncate(place),
            2 => fill(bytes, 2, 8, 255),
            3 => fill(bytes, place, 8, 255),
            _ => fill(bytes, 9, 1, value % 4),
        }
    }

    /// A copy of bytes, which a lie spoils.
    fn copy(&mut self, bytes: &[u8], fate: Fate) -> Result<Vec<u8>, AllocError> {
        let mut copy = bytes.to_vec(self.alloc)?;
        if fate == Fate::Lies {
            self.spoil(&mut copy);
        }
        Ok(copy)
    }

    /// What a get answers.
    pub(crate) fn object(&mut self, name: ObjName, fate: Fate) -> Result<Option<Blob>, AllocError> {
        if fate == Fate::Misses {
            self.witness.lack(name)?;
            return Ok(None);
        }
        let bytes = self.chosen(name, fate)?;
        Ok(Some(self.noted(&name, bytes, fate)?))
    }

    /// The object of a name, which the witness notes.
    fn noted(&mut self, name: &ObjName, bytes: Vec<u8>, fate: Fate) -> Result<Blob, AllocError> {
        let object = Blob::of(bytes);
        self.witness.answer(name, &object, fate == Fate::Fits)?;
        Ok(object)
    }

    /// The object of a name, or of a lie one of the lies or what is spoiled.
    fn chosen(&mut self, name: ObjName, fate: Fate) -> Result<Vec<u8>, AllocError> {
        let bytes = self.truth(name);
        if fate == Fate::Lies && self.draws.draw() % 2 == 0 {
            let lie = self.lie();
            return self.copy(lie, Fate::Fits);
        }
        self.copy(bytes, fate)
    }

    /// What a listing answers: some of the first pages, or of a lie any pages, in ascending order.
    pub(crate) fn listing(&mut self, fate: Fate) -> Result<Vec<PageId>, AllocError>
        ensures ascending { IfOk result (λ pages. AscendAbove 0 pages.items) }
    {
        let mut pages = Ascending::new(self.alloc);
        for number in 1..17u64 {
            let any = self.draws.draw();
            if any % 2 == 0 {
                add_page(&mut pages, if fate == Fate::Lies { any } else { number })?;
            }
        }
        let pages = pages.into_pages();
        self.witness.list(pages.len() as u64);
        Ok(pages)
    }

    /// The bytes of a message of this number.
    fn message(
        &mut self,
        queue: &QueueName,
        number: u8,
        fate: Fate,
    ) -> Result<Vec<u8>, AllocError> {
        let (one, two) = (self.small(), self.small());
        match queue {
            QueueName::Atomic(_) => {
                let bytes = atomic_record(2, 5 - one % 8 / 7, 1 + number % 3, two % 3, number);
                self.copy(&bytes, fate)
            }
            _ => {
                let bytes = pending_record(1 + one % 2, number, 1 + two % 2, b'b' + one % 22);
                self.copy(&bytes, fate)
            }
        }
    }

    /// How many messages come, at most so many.
    fn count(&mut self, most: u16) -> u16 {
        let count = match self.draws.draw() % 8 {
            0 => self.draws.draw() % 90,
            _ => self.draws.draw() % 5,
        };
        (count as u16).min(most)
    }

    /// What a receive answers: the first messages of a queue, at most so many. Of a lie each has its own fate.
    pub(crate) fn messages(
        &mut self,
        queue: &QueueName,
        most: u16,
        fate: Fate,
    ) -> Result<Vec<Message>, AllocError> {
        let count = self.count(most);
        let mut messages = Vec::new(self.alloc);
        for index in 0..count {
            let message = self.one_of(queue, index, fate)?;
            messages.push(message)?;
        }
        Ok(messages)
    }

    /// A message, which the witness notes.
    fn one_of(&mut self, queue: &QueueName, index: u16, fate: Fate) -> Result<Message, AllocError> {
        let number = (index % 250) as u8 + 1;
        let (id, own) = if fate == Fate::Fits {
            (MsgId::new(u64::from(number)), fate)
        } else {
            (self.id(), self.luck())
        };
        let bytes = self.message(queue, number, own)?;
        self.witness
            .deliver(*queue, id, bytes.len(), own == Fate::Fits)?;
        Ok(Message {
            id,
            bytes: Blob::of(bytes),
        })
    }

    /// The id of a message, some of them the greatest.
    pub(crate) fn id(&mut self) -> MsgId {
        match self.draws.draw() % 40 {
            0 => MsgId::new(u64::MAX),
            id => MsgId::new(id),
        }
    }
}
