//! Records that stay as they are, passed at once.

ghost use Rattle.std.specs.Prelude.{◌≡◌, ◌++◌, ℕ, List};
ghost use Rattle.leaf_view.specs.Leaf.{Entry};
ghost use Rattle.leaf_edit.specs.Merging.{AreRecords};
ghost use Rattle.leaf_edit.specs.Passing.{Passes};
ghost use Rattle.leaf_edit.specs.Spelled.{run_bytes};

use byte_format::is_below;
use leaf_view::Records;

/// The records from the first on whose key is not below a key.
fn from_key<'a>(records: Records<'a>, key: &[u8]) -> Records<'a>
    requires { AreRecords records }
    ensures { (front : List Entry) × Passes key.now records.entry front result }
{
    let mut left = records;
    while let Some((record, behind)) = left.again().split() {
        if !is_below(record.0, key) {
            return left;
        }
        left = behind;
    }
    left
}

/// The bytes before their last ones.
pub(crate) fn before<'a>(bytes: &'a [u8], last: &[u8]) -> &'a [u8]
    ensures { (front : List ℕ) → bytes.now ≡ front ++ last.now → result.now ≡ front }
{
    let (front, _) = bytes.split_at(bytes.len().saturating_sub(last.len()));
    front
}

/// The bytes of records that stand below a key, and the records behind them: all that do, where the leaf is of format 2, else none.
pub(crate) fn pass<'a>(records: Records<'a>, key: &[u8]) -> (&'a [u8], Records<'a>)
    requires { AreRecords records }
    ensures { (front : List Entry) × Passes key.now records.entry front result.1 × (result.0.now ≡ run_bytes front) }
{
    let Some(bytes) = records.spelling() else {
        return (&[], records);
    };
    let rest = from_key(records.again(), key);
    match rest.spelling() {
        Some(last) => (before(bytes, last), rest),
        None => (&[], records),
    }
}
