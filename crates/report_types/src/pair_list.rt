//! Records of a key and a payload.

ghost use Rattle.std.specs.Prelude.{◌≡◌, ◌++◌, [], ◌∷◌, length, IfOk, OnOk, OnErr, MatchOption};

use std::alloc::{AllocError, Global};
use std::marker::Model;

/// How many bytes the key of a record has, and its payload.
#[derive(Clone, Copy)]
pub(crate) struct Lengths {
    pub(crate) key: usize,
    pub(crate) payload: usize,
}

/// Records in the order of their keys, seen as the list of them. The bytes of all lie in one vector, so that no record takes memory of its own.
pub struct PairList {
    bytes: Vec<u8>,
    lengths: Vec<Lengths>,
}

impl Drop for PairList {
    fn drop(self) {
        let PairList {
            bytes: _,
            lengths: _,
        } = self;
    }
}

impl Model for PairList {
    ghost use Rattle.std.specs.Prelude.{List};
    ghost use Rattle.db_base.specs.declared.pair.Pair.{Pair};
    ghost use Rattle.report_types.specs.PairList.{pairs_in, AreLaid};

    ghost Value = { List Pair };

    ghost view = { λ l. pairs_in l.bytes.items l.lengths.items };

    ghost invariant = { λ l. AreLaid l.bytes.items l.lengths.items };
}

/// Adds bytes, and others behind them. Where memory runs out nothing changes.
fn add_both(bytes: &mut Vec<u8>, first: &[u8], second: &[u8]) -> Result<(), AllocError>
    ensures ok { OnOk result (bytes.new.items ≡ bytes.old.items ++ (first.now ++ second.now)) }
    ensures err { OnErr result (bytes.new.items ≡ bytes.old.items) }
{
    let len = bytes.len();
    bytes.extend_from_slice(first)?;
    if bytes.extend_from_slice(second).is_err() {
        bytes.truncate(len);
        return Err(AllocError);
    }
    Ok(())
}

/// Adds the bytes of a record, and how many these are. Where memory runs out nothing changes.
fn add_record(
    bytes: &mut Vec<u8>,
    lengths: &mut Vec<Lengths>,
    key: &[u8],
    payload: &[u8],
) -> Result<(), AllocError>
    ensures bytes { OnOk result (bytes.new.items ≡ bytes.old.items ++ (key.now ++ payload.now)) }
    ensures lengths { OnOk result (lengths.new.items ≡ lengths.old.items ++ record { key = length key.now; payload = length payload.now } ∷ []) }
    ensures err { OnErr result ((bytes.new.items ≡ bytes.old.items) × (lengths.new.items ≡ lengths.old.items)) }
{
    let len = bytes.len();
    add_both(bytes, key, payload)?;
    let added = Lengths {
        key: key.len(),
        payload: payload.len(),
    };
    if lengths.push(added).is_err() {
        bytes.truncate(len);
        return Err(AllocError);
    }
    Ok(())
}

impl PairList {
    /// No record. Takes no memory.
    pub fn new(alloc: Global) -> PairList
        ensures { result ≡ [] }
    {
        PairList {
            bytes: Vec::new(alloc),
            lengths: Vec::new(alloc),
        }
    }

    /// Adds a record at the end. Where memory runs out nothing changes.
    pub fn add(&mut self, key: &[u8], payload: &[u8]) -> Result<(), AllocError>
        ensures ok { OnOk result (self.new ≡ self.old ++ record { key = key.now; payload = payload.now } ∷ []) }
        ensures err { OnErr result (self.new ≡ self.old) }
    {
        add_record(&mut self.bytes, &mut self.lengths, key, payload)
    }

    /// How many records.
    pub fn len(&self) -> usize
        ensures { result ≡ length self.now }
    {
        self.lengths.as_slice().len()
    }

    /// The records where they lie.
    pub fn pairs(&self) -> Pairs<'_>
        ensures { result ≡ self.now }
    {
        Pairs {
            bytes: self.bytes.as_slice(),
            lengths: self.lengths.as_slice(),
        }
    }
}

/// Records of a list, borrowed, in their order.
#[derive(Drop)]
pub struct Pairs<'a> {
    bytes: &'a [u8],
    lengths: &'a [Lengths],
}

impl<'a> Model for Pairs<'a> {
    ghost use Rattle.std.specs.Prelude.{List};
    ghost use Rattle.db_base.specs.declared.pair.Pair.{Pair};
    ghost use Rattle.report_types.specs.PairList.{pairs_in, AreLaid};

    ghost Value = { List Pair };

    ghost view = { λ p. pairs_in p.bytes.now p.lengths.now };

    ghost invariant = { λ p. AreLaid p.bytes.now p.lengths.now };
}

impl<'a> Pairs<'a> {
    /// No record.
    pub fn none() -> Pairs<'a>
        ensures { result ≡ [] }
    {
        Pairs {
            bytes: &[],
            lengths: &[],
        }
    }

    /// A list of these records, copied. Fails for memory alone.
    pub fn to_list(&self, alloc: Global) -> Result<PairList, AllocError>
        ensures { IfOk result (λ list. list ≡ self.now) }
    {
        Ok(PairList {
            bytes: Vec::from_slice(alloc, self.bytes)?,
            lengths: Vec::from_slice(alloc, self.lengths)?,
        })
    }

    /// The key and the payload of the first record, and the records behind it.
    pub fn split(self) -> Option<(&'a [u8], &'a [u8], Pairs<'a>)>
        ensures { MatchOption result (self.entry ≡ []) (λ x. self.entry ≡ record { key = x.0.now; payload = x.1.now } ∷ x.2) }
    {
        let (first, lengths) = self.lengths.split_first()?;
        let (key, rest) = self.bytes.split_at(first.key);
        let (payload, bytes) = rest.split_at(first.payload);
        Some((key, payload, Pairs { bytes, lengths }))
    }
}
