//! A leaf, borrowed from its bytes.

use crate::ascent::skip_records;
use crate::done_list::DoneList;
use crate::done_rules::DoneRules;
use crate::head::head_at;
use crate::numbers::{Numbers, note};
use crate::record_rules::RecordRules;
use crate::records::Records;
use byte_format::{Stop, is_below, is_below_bound, is_same, skip_list};
use db_base::cursor::Cursor;
use db_base::ids::{ClientId, PageId};
use db_base::refusal::Refused;
use db_base::value::Value;
use std::alloc::Global;
use std::marker::Model;

/// Bytes that are in no leaf spelling.
#[derive(Clone, Copy, Debug, PartialEq, Eq)]
pub struct NotLeaf {
    /// The place of the first field that is cut short or breaks its rule, or that behind the last field.
    pub offset: u64,
}

/// A leaf of a B-link tree (Lehman and Yao, 1981), borrowed from the bytes that spell it.
#[derive(Drop)]
pub struct LeafView<'a> {
    format: u8,
    version: u64,
    low: &'a [u8],
    right: u64,
    high: Option<&'a [u8]>,
    done: &'a [u8],
    records: &'a [u8],
}

impl<'a> Model for LeafView<'a> {
    ghost use Rattle.std.specs.Prelude.{ℕ, List};
    ghost use Rattle.std.specs.Option.{option_copied};
    ghost use Rattle.leaf_view.specs.Leaf.{Leaf, head_of};
    ghost use Rattle.leaf_view.specs.Sound.{leaf_with, IsSound};

    ghost Value = { Leaf };

    ghost view = { λ v. leaf_with (head_of (v.format, (v.version, (v.low.now, (v.right, option_copied v.high))))) v.done.now v.records.now };

    ghost invariant = { λ v. IsSound (head_of (v.format, (v.version, (v.low.now, (v.right, option_copied v.high))))) v.done.now v.records.now };
}

impl<'a> LeafView<'a> {
    ghost use Rattle.std.specs.Prelude.{◌≡◌, ℕ, Ok, IfOk, IfErr, slice_index};
    ghost use Rattle.std.specs.Option.{option_copied};
    ghost use Rattle.byte_format.specs.Whole.{whole, offset};
    ghost use Rattle.byte_format.specs.Gives.{Gives};
    ghost use Rattle.leaf_view.specs.Leaf.{Leaf, IsLeaf, leaf};
    ghost use Rattle.leaf_view.specs.Fits.{IsWellFormed};
    ghost use Rattle.db_base.specs.Cursor.{number_of as cursor_number};
    ghost use Rattle.leaf_view.specs.Lookup.{holds, value_of, number_of, AreNumbers, page_at, empty_leaf};

    /// The leaf that the bytes spell, all of the bytes.
    pub fn read(bytes: &'a [u8]) -> Result<LeafView<'a>, NotLeaf>
        // What is read is spelled so.
        ensures found { IfOk result (λ v. IsLeaf bytes.now v) }
        // What is spelled so is read.
        ensures only { (l : Leaf) → IsLeaf bytes.now l → result ≡ Ok l }
        // Where the first fault is.
        ensures offset { IfErr result (λ e. e.offset ≡ offset leaf bytes.now) }
    {
        match LeafView::whole(bytes) {
            Ok(view) => Ok(view),
            Err(stop) => Err(NotLeaf {
                offset: stop.offset(bytes),
            }),
        }
    }

    fn whole(bytes: &'a [u8]) -> Result<LeafView<'a>, Stop>
        ensures { Gives (λ v. v) result (whole leaf bytes.now) }
    {
        let (head, done) = head_at(bytes)?;
        let records = skip_list(&DoneRules, true, done)?;
        let rules = RecordRules {
            format: head.format,
            low: head.low,
            high: head.high,
        };
        let rest = skip_records(&rules, records)?;
        if !rest.is_empty() {
            return Err(Stop::at(rest));
        }
        Ok(LeafView {
            format: head.format,
            version: head.version,
            low: head.low,
            right: head.right,
            high: head.high,
            done,
            records,
        })
    }

    /// The leaf of bytes that spell one: its records are not checked again. Takes no memory.
    pub fn known(bytes: &'a [u8]) -> LeafView<'a>
        requires { (l : Leaf) × IsLeaf bytes.now l }
        ensures { IsLeaf bytes.now result }
    {
        match LeafView::front(bytes) {
            Ok(view) => view,
            Err(_) => LeafView::empty(),
        }
    }

    /// The leaf of bytes that spell one, by its head and the table of what is done.
    fn front(bytes: &'a [u8]) -> Result<LeafView<'a>, Stop>
        requires { (l : Leaf) × IsLeaf bytes.now l }
        ensures { Gives (λ v. v) result (whole leaf bytes.now) }
    {
        let (head, done) = head_at(bytes)?;
        let records = skip_list(&DoneRules, true, done)?;
        Ok(LeafView {
            format: head.format,
            version: head.version,
            low: head.low,
            right: head.right,
            high: head.high,
            done,
            records,
        })
    }

    /// The page 1 that was never put: version 0, no fence, no table, no record.
    pub fn empty() -> LeafView<'a>
        ensures { result ≡ empty_leaf }
    {
        LeafView {
            format: 2,
            version: 0,
            low: &[],
            right: 0,
            high: None,
            done: &[0],
            records: &[0],
        }
    }

    /// The format: 1, whose records have no attribute, or 2.
    pub fn format(&self) -> u8
        ensures format { result ≡ self.now.format }
        ensures formed { IsWellFormed self.now }
    {
        let _ = &self.low;
        self.format
    }

    /// The version: 0 for the page that was never put.
    pub fn version(&self) -> u64
        ensures version { result ≡ self.now.version }
        ensures formed { IsWellFormed self.now }
    {
        let _ = &self.low;
        self.version
    }

    /// The low key: the least key of the leaf's range, empty at the left end.
    pub fn low(&self) -> &'a [u8]
        ensures low { result.now ≡ self.now.low }
        ensures formed { IsWellFormed self.now }
    {
        self.low
    }

    /// The high key: the keys of the leaf are below it.
    pub fn high(&self) -> Option<&'a [u8]>
        ensures high { option_copied result ≡ self.now.high }
        ensures formed { IsWellFormed self.now }
    {
        self.high
    }

    /// The page to the right, which is there exactly where there is a high key.
    pub fn right(&self) -> Option<PageId>
        ensures right { result ≡ page_at self.now.right }
        ensures formed { IsWellFormed self.now }
    {
        PageId::new(self.right).ok()
    }

    /// Whether the key is in the leaf's range.
    pub fn holds(&self, key: &[u8]) -> bool
        ensures { result ≡ holds self.now key.now }
    {
        !is_below(key, self.low) && is_below_bound(key, self.high)
    }

    /// The records, in key order.
    pub fn records(&self) -> Records<'a>
        ensures records { result ≡ self.now.records }
        ensures formed { IsWellFormed self.now }
    {
        Records::of(self.format, self.records)
    }

    /// The table of what is done, in order of queue and client.
    pub fn done_list(&self) -> DoneList<'a>
        ensures done { result ≡ self.now.done }
        ensures formed { IsWellFormed self.now }
    {
        DoneList::of(self.done)
    }

    /// The value of the record with this key.
    pub fn value(&self, key: &[u8]) -> Option<Value<'a>>
        ensures { result ≡ value_of key.now self.now.records }
    {
        let mut left = self.records();
        while let Some(((found, payload, attr), rest)) = left.split() {
            if is_same(found, key) {
                return Some(Value::with(payload, attr));
            }
            left = rest;
        }
        None
    }

    /// The number up to which the records of a queue and client are applied, 0 where none is.
    pub fn done(&self, queue: u64, client: ClientId) -> u64
        ensures { result ≡ number_of self.now.done queue client }
    {
        let mut left = self.done_list();
        while let Some((item, rest)) = left.split() {
            if item.queue == queue && item.client == client {
                return item.number;
            }
            left = rest;
        }
        0
    }

    /// What is done of a queue, by client. Takes no memory.
    pub fn numbers(&self, queue: u64) -> Numbers
        ensures { AreNumbers self.now.done queue (λ client. slice_index result client) }
    {
        let mut numbers = Numbers::new();
        let mut left = self.done_list();
        while let Some((item, rest)) = left.split() {
            numbers.note(queue, &item);
            left = rest;
        }
        numbers
    }

    /// What is done of a queue, as a cursor. Refused for memory alone.
    pub fn cursor(&self, alloc: Global, queue: u64) -> Result<Cursor, Refused>
        ensures ok { IfOk result (λ c. AreNumbers self.now.done queue (cursor_number c)) }
        ensures memory { IfErr result (λ e. e ≡ Refused.Memory) }
    {
        let mut cursor = Cursor::new(alloc);
        let mut left = self.done_list();
        while let Some((item, rest)) = left.split() {
            note(&mut cursor, queue, &item)?;
            left = rest;
        }
        Ok(cursor)
    }
}
