//! A text that is read line by line.

ghost use Rattle.std.specs.Prelude.{◌≡◌, ℕ, Some, None, [], IfOk, IfErr, IsSome};
ghost use Rattle.words.specs.Word.{Reads};
ghost use Rattle.dump_text.specs.Dump.{stored_below, tree_below};
ghost use Rattle.dump_text.specs.Steps.{last_behind, is_behind, is_attr, is_record, continues, may_open, with_record, with_tree_line, with_record_line, step};

use crate::dump::{Dump, DumpedTree};
use crate::fault::DumpFault;
use crate::lines::{stored_of_words, tree_of_words};
use crate::room::keys_above;
use byte_format::is_below;
use db_base::attr::MAX_ATTR;
use db_base::blob::Blob;
use db_base::ids::TreeId;
use db_base::key::{MAX_KEY, MAX_PAYLOAD};
use db_base::sequence::Sequence;
use report_types::stored::Stored;
use report_types::stored_list::StoredList;
use std::alloc::Global;
use words::fault::TextFault;
use words::parts::Parts;

/// A tree of which records are missing.
pub(crate) struct PartialTree {
    /// The tree.
    pub(crate) tree: TreeId,
    /// The records that were read.
    pub(crate) records: StoredList,
    /// How many more its line promises.
    pub(crate) left: u64,
}

impl Drop for PartialTree {
    fn drop(self) {
        let PartialTree {
            tree: _,
            records: _,
            left: _,
        } = self;
    }
}

/// What was read of a text.
#[derive(Drop)]
pub(crate) struct Reading {
    /// The trees of which no record is missing.
    pub(crate) trees: Sequence<DumpedTree>,
    /// The tree behind them of which records are missing.
    pub(crate) partial: Option<PartialTree>,
}

/// Whether the length of an attribute is allowed.
fn is_attr(attr: &Option<Blob>) -> bool
    ensures { result ≡ is_attr attr.now }
{
    match attr {
        None => true,
        Some(bytes) => bytes.len() > 0 && bytes.len() <= MAX_ATTR,
    }
}

/// Whether the lengths of a record are allowed.
fn is_record(stored: &Stored) -> bool
    ensures { result ≡ is_record stored.now }
{
    stored.key.len() > 0
        && stored.key.len() <= MAX_KEY
        && stored.payload.len() <= MAX_PAYLOAD
        && is_attr(&stored.attr)
}

/// Whether a record stands behind the others of its tree.
fn is_behind_records(records: &StoredList, stored: &Stored) -> bool
    ensures { result ≡ is_behind stored_below (last_behind None records.now) stored.now }
{
    match records.as_slice().last() {
        None => true,
        Some(last) => is_below(last.key.as_slice(), stored.key.as_slice()),
    }
}

/// Whether a tree stands behind the others.
fn is_behind_trees(trees: &Sequence<DumpedTree>, tree: u64) -> bool
    ensures { result ≡ is_behind tree_below (last_behind None trees.now) (record { tree = tree; records = [] }) }
{
    match trees.as_slice().last() {
        None => true,
        Some(last) => last.tree.get() < tree,
    }
}

/// Whether a tree with so many records may be the next one.
fn may_open(trees: &Sequence<DumpedTree>, tree: u64, count: u64) -> bool
    ensures { result ≡ may_open trees.now tree count }
{
    tree >= 1 && tree <= 16 && count >= 1 && is_behind_trees(trees, tree)
}

/// Whether a record may be the next one of its tree.
fn continues(partial: &PartialTree, stored: &Stored) -> bool
    ensures { result ≡ continues partial.now stored.now }
{
    is_record(stored)
        && is_behind_records(&partial.records, stored)
        && partial.left.saturating_sub(1) <= keys_above(MAX_KEY, stored.key.as_slice())
}

impl PartialTree {
    /// The tree with one record more, which may be its last one. Fails for memory alone.
    fn with_record(self, trees: Sequence<DumpedTree>, stored: Stored) -> Result<Reading, TextFault>
        ensures ok { IfOk result (λ r. r ≡ with_record trees self stored) }
        ensures memory { IfErr result (λ e. e ≡ TextFault.Memory) }
    {
        let PartialTree {
            tree,
            mut records,
            left,
        } = self;
        records.push(stored)?;
        if left > 1 {
            let partial = PartialTree {
                tree,
                records,
                left: left - 1,
            };
            return Ok(Reading {
                trees,
                partial: Some(partial),
            });
        }
        let mut trees = trees;
        trees.push(DumpedTree { tree, records })?;
        Ok(Reading {
            trees,
            partial: None,
        })
    }
}

/// What was read, and the line of a tree.
#[tactic(auto, unfolding(crate::specs::Steps::with_tree_line))]
fn with_tree_line(
    alloc: Global,
    trees: Sequence<DumpedTree>,
    line: &[u8],
) -> Result<Reading, TextFault>
    ensures { Reads result (with_tree_line trees line.now) }
{
    let (number, count) = tree_of_words(Parts::of(b' ', line))?;
    if !may_open(&trees, number, count) {
        return Err(TextFault::NotInGrammar);
    }
    match TreeId::new(number) {
        Ok(tree) => {
            let partial = PartialTree {
                tree,
                records: StoredList::new(alloc),
                left: count,
            };
            Ok(Reading {
                trees,
                partial: Some(partial),
            })
        }
        Err(_) => Err(TextFault::NotInGrammar),
    }
}

/// What was read, and the line of a record.
#[tactic(auto, unfolding(crate::specs::Steps::with_record_line))]
fn with_record_line(
    alloc: Global,
    trees: Sequence<DumpedTree>,
    partial: PartialTree,
    line: &[u8],
) -> Result<Reading, TextFault>
    ensures { Reads result (with_record_line trees partial line.now) }
{
    let stored = stored_of_words(alloc, Parts::of(b' ', line))?;
    if !continues(&partial, &stored) {
        return Err(TextFault::NotInGrammar);
    }
    partial.with_record(trees, stored)
}

impl Reading {
    /// Nothing. Takes no memory.
    pub(crate) fn new(alloc: Global) -> Reading
        ensures { result ≡ record { trees = []; partial = None } }
    {
        Reading {
            trees: Sequence::new(alloc),
            partial: None,
        }
    }

    /// What was read, and one line more; BadLine with the line's number where it can't stand there.
    pub(crate) fn with_line(
        self,
        alloc: Global,
        line: &[u8],
        number: u64,
    ) -> Result<Reading, DumpFault>
        ensures ok { IfOk result (λ r. step self.trees self.partial line.now ≡ Some r) }
        ensures bad { (n : ℕ) → result ≡ Err (DumpFault.BadLine n) → (n ≡ number) × (step self.trees self.partial line.now ≡ None) }
    {
        let Reading { trees, partial } = self;
        let read = match partial {
            None => with_tree_line(alloc, trees, line),
            Some(partial) => with_record_line(alloc, trees, partial, line),
        };
        match read {
            Ok(reading) => Ok(reading),
            Err(TextFault::NotInGrammar) => Err(DumpFault::BadLine(number)),
            Err(TextFault::Memory) => Err(DumpFault::Memory),
        }
    }

    /// The dump that was read; BadLine with the number of the missing line where records are missing. Takes no memory.
    pub(crate) fn whole(self, number: u64) -> Result<Dump, DumpFault>
        ensures ok { IfOk result (λ d. (d.trees ≡ self.trees) × (self.partial ≡ None)) }
        ensures bad { IfErr result (λ e. (e ≡ DumpFault.BadLine number) × IsSome self.partial) }
    {
        let Reading { trees, partial } = self;
        match partial {
            None => Ok(Dump { trees }),
            Some(_) => Err(DumpFault::BadLine(number)),
        }
    }
}
