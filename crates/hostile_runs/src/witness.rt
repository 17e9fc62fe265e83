//! What the cloud answered, and which troubles it shows. It reads bytes by their places in the formats and asks no decoder of the store.

use db_base::blob::Blob;
use db_base::ids::{MsgId, PageId};
use db_base::names::{Lock, ObjName, Place, QueueName};
use db_base::trouble::{Counter, Trouble};
use std::alloc::{AllocError, Global};

/// An object that a get answered; `fits` where it is the one of the tree.
#[derive(Drop)]
struct Got {
    name: ObjName,
    bytes: Option<Blob>,
    fits: bool,
}

/// A message that a receive answered; `fits` where nothing in it is spoiled.
#[derive(Drop)]
struct Heard {
    queue: QueueName,
    id: MsgId,
    len: usize,
    fits: bool,
}

/// All that a cloud answered, and from where on the machine that runs now was answered.
#[derive(Drop)]
pub(crate) struct Witness {
    alloc: Global,
    asked: Vec<ObjName>,
    objects: Vec<Got>,
    messages: Vec<Heard>,
    from_asked: usize,
    from_object: usize,
    from_message: usize,
    calls: u64,
    listed: u64,
    failed: bool,
    starved: bool,
    late: Option<(u64, u64)>,
    held: Option<(Lock, u64)>,
}

/// A byte, 0 behind the end.
fn byte_at(bytes: &[u8], at: usize) -> u8 {
    match bytes.get(at) {
        Some(byte) => *byte,
        None => 0,
    }
}

/// The number of eight bytes from a place on.
fn number_at(bytes: &[u8], at: usize) -> u64 {
    let mut number = 0u64;
    for offset in 0..8usize {
        let byte = byte_at(bytes, at.saturating_add(offset));
        number = number.wrapping_mul(256).wrapping_add(u64::from(byte));
    }
    number
}

/// Whether it is one of the greatest numbers, as far as one operation raises any.
fn is_high(number: u64) -> bool {
    number >= u64::MAX - 300
}

/// Whether some eight bytes are one of the greatest numbers.
fn has_high(bytes: &[u8]) -> bool {
    for at in 0..bytes.len() {
        if is_high(number_at(bytes, at)) {
            return true;
        }
    }
    false
}

/// Whether these are an inner node's by their first byte.
fn is_inner(bytes: &[u8]) -> bool {
    byte_at(bytes, 0) == b'I'
}

/// The low key of a leaf or an inner node: its length stands behind the version, and in an inner node behind the level.
fn low_key(bytes: &[u8]) -> &[u8] {
    let at = if is_inner(bytes) { 11usize } else { 10usize };
    let end = at + 1 + byte_at(bytes, at) as usize;
    match bytes.get(at + 1..end) {
        Some(key) => key,
        None => b"",
    }
}

/// How many records an open head counts, else 0.
fn open_count(bytes: &[u8]) -> u64 {
    if byte_at(bytes, 18) == 1 {
        u64::from(byte_at(bytes, 19))
    } else {
        0
    }
}

impl Got {
    fn slice(&self) -> &[u8] {
        match &self.bytes {
            Some(bytes) => bytes.as_slice(),
            None => b"",
        }
    }

    fn is_page(&self, page: PageId) -> bool {
        match self.name {
            ObjName::Page(_, own) => own == page,
            ObjName::Head(_) | ObjName::Tree(_) => false,
        }
    }

    fn is_head(&self) -> bool {
        matches!(self.name, ObjName::Head(_))
    }

    fn is_tree(&self) -> bool {
        matches!(self.name, ObjName::Tree(_))
    }

    fn is_absent(&self, page: PageId) -> bool {
        self.is_page(page) && self.bytes.is_none()
    }

    fn is_inner_at(&self, page: PageId) -> bool {
        self.is_page(page) && is_inner(self.slice())
    }

    fn has_version(&self, page: PageId, version: u64) -> bool {
        self.is_page(page) && number_at(self.slice(), 2) == version
    }

    fn has_low_key(&self, page: PageId, key: &[u8]) -> bool {
        self.is_page(page) && low_key(self.slice()) == key
    }

    /// Another kind shows at the first byte and another level at the eleventh, in whole bytes too.
    fn is_damaged(&self, name: ObjName, offset: u64) -> bool {
        self.name == name
            && offset <= self.slice().len() as u64
            && (!self.fits || offset == 0 || offset == 10)
    }

    fn is_spent(&self, what: Counter) -> bool {
        match what {
            Counter::Epoch => self.is_head() && is_high(number_at(self.slice(), 2)),
            Counter::Txn => self.is_head() && is_high(number_at(self.slice(), 10)),
            Counter::Number => self.is_head() && has_high(self.slice()),
            Counter::Version => !self.is_head() && is_high(number_at(self.slice(), 2)),
            Counter::Pages => self.is_tree() && is_high(number_at(self.slice(), 10)),
        }
    }
}

impl Heard {
    fn is_damaged(&self, queue: &QueueName, id: MsgId, offset: u64) -> bool {
        self.queue == *queue && self.id == id && offset <= self.len as u64 && !self.fits
    }
}

/// What stands from a place on.
fn behind<T>(all: &[T], from: usize) -> &[T] {
    match all.get(from..) {
        Some(rest) => rest,
        None => &[],
    }
}

/// Whether what is asked for at a place is a page that is not asked for again.
fn is_last_page(asked: &[ObjName], place: usize) -> bool {
    match behind(asked, place).split_first() {
        Some((name, rest)) => matches!(name, ObjName::Page(_, _)) && !rest.contains(name),
        None => false,
    }
}

/// Whether the message comes again.
fn is_sent_again(heard: &Heard, rest: &[Heard]) -> bool {
    rest.iter()
        .any(|other| other.queue == heard.queue && other.id == heard.id)
}

/// Whether there is a message at a place that does not come again.
fn is_last_sent(messages: &[Heard], place: usize) -> bool {
    match behind(messages, place).split_first() {
        Some((heard, rest)) => !is_sent_again(heard, rest),
        None => false,
    }
}

impl Witness {
    /// Of nothing.
    pub(crate) fn new(alloc: Global) -> Witness {
        Witness {
            alloc,
            asked: Vec::new(alloc),
            objects: Vec::new(alloc),
            messages: Vec::new(alloc),
            from_asked: 0,
            from_object: 0,
            from_message: 0,
            calls: 0,
            listed: 0,
            failed: false,
            starved: false,
            late: None,
            held: None,
        }
    }

    /// A machine begins. What was answered before stays, since caches and homes keep it.
    pub(crate) fn begin(&mut self) {
        self.from_asked = self.asked.len();
        self.from_object = self.objects.len();
        self.from_message = self.messages.len();
        self.calls = 0;
        self.listed = 0;
        self.failed = false;
        self.starved = false;
        self.late = None;
        self.held = None;
    }

    /// A call is made.
    pub(crate) fn call(&mut self) {
        self.calls = self.calls.wrapping_add(1);
    }

    /// It asks for an object.
    pub(crate) fn ask(&mut self, name: ObjName) -> Result<(), AllocError> {
        self.asked.push(name)?;
        Ok(())
    }

    /// It listed so many pages.
    pub(crate) fn list(&mut self, count: u64) {
        self.listed = count;
    }

    /// It failed.
    pub(crate) fn fail(&mut self) {
        self.failed = true;
    }

    /// It had no memory.
    pub(crate) fn starve(&mut self) {
        self.starved = true;
    }

    /// It was too late.
    pub(crate) fn miss(&mut self, end: u64, now: u64) {
        self.late = Some((end, now));
    }

    /// A lock was held.
    pub(crate) fn hold(&mut self, lock: Lock, until: u64) {
        self.held = Some((lock, until));
    }

    /// It answered an object.
    pub(crate) fn answer(
        &mut self,
        name: &ObjName,
        object: &Blob,
        fits: bool,
    ) -> Result<(), AllocError> {
        let bytes = Some(Blob::copy_of(self.alloc, object.as_slice())?);
        self.objects.push(Got {
            name: *name,
            bytes,
            fits,
        })?;
        Ok(())
    }

    /// It answered that an object is absent.
    pub(crate) fn lack(&mut self, name: ObjName) -> Result<(), AllocError> {
        self.objects.push(Got {
            name,
            bytes: None,
            fits: false,
        })?;
        Ok(())
    }

    /// It answered a message of so many bytes.
    pub(crate) fn deliver(
        &mut self,
        queue: QueueName,
        id: MsgId,
        len: usize,
        fits: bool,
    ) -> Result<(), AllocError> {
        self.messages.push(Heard {
            queue,
            id,
            len,
            fits,
        })?;
        Ok(())
    }

    /// The objects that this machine was answered.
    fn own(&self) -> &[Got] {
        behind(self.objects.as_slice(), self.from_object)
    }

    /// The messages that this machine was answered.
    fn own_messages(&self) -> &[Heard] {
        behind(self.messages.as_slice(), self.from_message)
    }

    /// How many calls it made.
    pub(crate) fn calls(&self) -> u64 {
        self.calls
    }

    /// How many pages it was shown by a listing.
    pub(crate) fn listed(&self) -> u64 {
        self.listed
    }

    /// How many distinct pages it came to.
    pub(crate) fn pages(&self) -> u64 {
        let asked = behind(self.asked.as_slice(), self.from_asked);
        let mut count = 0u64;
        for place in 0..asked.len() {
            if is_last_page(asked, place) {
                count = count.wrapping_add(1);
            }
        }
        count
    }

    /// How many distinct messages it received.
    pub(crate) fn ids(&self) -> u64 {
        let messages = self.own_messages();
        let mut count = 0u64;
        for place in 0..messages.len() {
            if is_last_sent(messages, place) {
                count = count.wrapping_add(1);
            }
        }
        count
    }

    /// The greatest count of an open head that it got, else 0.
    pub(crate) fn open_count(&self) -> u64 {
        let mut most = 0u64;
        for got in self.own() {
            if got.is_head() {
                most = most.max(open_count(got.slice()));
            }
        }
        most
    }

    /// Whether an answer shows what a machine stopped for.
    pub(crate) fn shows(&self, trouble: &Trouble) -> bool {
        match trouble {
            Trouble::Failed => self.failed,
            Trouble::Memory => self.starved,
            Trouble::Late { end, now } => self.late == Some((*end, *now)),
            Trouble::Busy { lock, until } => self.held == Some((*lock, *until)),
            Trouble::Waiting { have, need } => have < need && self.is_open_with(*need),
            Trouble::Stale { page, least, got } => got < least && self.was_old(*page, *got),
            Trouble::Absent { page } => self.was_absent(*page),
            Trouble::NotALeaf { page } => self.was_inner(*page),
            Trouble::Damaged { place, offset } => self.was_damaged(place, *offset),
            Trouble::BadFence {
                page,
                expected,
                found,
            } => {
                expected.as_slice() != found.as_slice() && self.had_low_key(*page, found.as_slice())
            }
            Trouble::Loop { page } => self.was_met(*page),
            Trouble::Exhausted { what } => self.was_spent(*what),
        }
    }

    fn is_open_with(&self, count: u64) -> bool {
        self.own()
            .iter()
            .any(|got| got.is_head() && open_count(got.slice()) == count)
    }

    fn was_old(&self, page: PageId, version: u64) -> bool {
        self.own().iter().any(|got| got.has_version(page, version))
    }

    fn was_absent(&self, page: PageId) -> bool {
        self.own().iter().any(|got| got.is_absent(page))
    }

    fn was_inner(&self, page: PageId) -> bool {
        self.own().iter().any(|got| got.is_inner_at(page))
    }

    fn was_damaged(&self, place: &Place, offset: u64) -> bool {
        match place {
            Place::Object(name) => self.had_damage(*name, offset),
            Place::Message(queue, id) => self.heard_damage(queue, *id, offset),
        }
    }

    fn had_damage(&self, name: ObjName, offset: u64) -> bool {
        self.objects
            .as_slice()
            .iter()
            .any(|got| got.is_damaged(name, offset))
    }

    fn heard_damage(&self, queue: &QueueName, id: MsgId, offset: u64) -> bool {
        self.own_messages()
            .iter()
            .any(|heard| heard.is_damaged(queue, id, offset))
    }

    fn had_low_key(&self, page: PageId, key: &[u8]) -> bool {
        self.objects
            .as_slice()
            .iter()
            .any(|got| got.has_low_key(page, key))
    }

    fn was_met(&self, page: PageId) -> bool {
        self.objects.as_slice().iter().any(|got| got.is_page(page))
    }

    fn was_spent(&self, what: Counter) -> bool {
        self.objects.as_slice().iter().any(|got| got.is_spent(what))
    }
}
