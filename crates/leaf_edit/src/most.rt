//! How long a leaf is at most behind changes, so that one walk suffices to write it.

ghost use Rattle.std.specs.Prelude.{◌≡◌, ◌+◌, [], IfSome};
ghost use Rattle.db_base.specs.Change.{IsChange};
ghost use Rattle.leaf_edit.specs.Merging.{AreChanges, AreRecords};
ghost use Rattle.leaf_edit.specs.Sizes.{brought_by, brought_size, IsSize, most_size};

use crate::changes::Changes;
use crate::merging::rest_len;
use crate::spell::{entry_len, fields_len};
use crate::table::{OWN_LEN, all_len};
use db_base::attr::attr_bytes;
use db_base::change::Change;
use leaf_view::LeafView;
use log_codec::record::PuItem;

/// By how many bytes a change lengthens records at most.
fn brought_len(change: &Change) -> usize
    ensures { result ≡ brought_size change.now }
{
    match change {
        Change::Insert { key, payload, attr } => {
            entry_len(key.as_slice(), payload.as_slice(), attr_bytes(attr))
        }
        Change::Update { key, payload } => entry_len(key.as_slice(), payload.as_slice(), None),
        Change::Delete { key } => entry_len(key.as_slice(), &[], None),
        Change::Add { key, .. } => entry_len(key.as_slice(), &[], None),
    }
}

/// So many bytes, and those by which the changes lengthen records at most.
fn changes_len(total: usize, changes: Changes<'_>) -> Option<usize>
    ensures { IsSize result (total + brought_by changes.entry) }
{
    let mut sum = total;
    let mut left = changes;
    while let Some(x) = left.first() {
        sum = sum.checked_add(brought_len(&x.rec.change))?;
        left = left.behind();
    }
    Some(sum)
}

/// How many bytes the leaf has at most behind the changes. Its records are not walked, where it is of format 2.
pub(crate) fn most_len(leaf: &LeafView<'_>, changes: Changes<'_>) -> Option<usize>
    ensures { IsSize result (most_size leaf.now leaf.now.records changes.entry) }
{
    let fields = fields_len(leaf.low(), leaf.high());
    let table = all_len(fields + OWN_LEN + 1, leaf.done_list())?;
    changes_len(rest_len(table, leaf.records())?, changes)
}
