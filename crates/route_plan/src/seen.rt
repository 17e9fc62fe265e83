ghost use Rattle.std.specs.Prelude.{◌≡◌, filter, if◌then◌else◌};
ghost use Rattle.std.specs.Option.{option_copied};
ghost use Rattle.db_base.specs.Change.{act};
ghost use Rattle.route_plan.specs.Seen.{after_buffered, after_pending, is_lacked_by, seen};

use db_base::change::{Change, act};
use db_base::ids::{ClientId, TreeId};
use db_base::value::Value;
use head_codec::entry::Entry;
use head_codec::head::Head;
use leaf_view::LeafView;
use txn_buffer::buffer::TxnBuffer;

/// Whether a pending entry is of the key, and the leaf lacks it.
fn is_lacked_by(
    view: &LeafView<'_>,
    client: ClientId,
    tree: TreeId,
    key: &[u8],
    entry: &Entry,
) -> bool
    ensures { result ≡ is_lacked_by view.now client tree key.now entry.now }
{
    let entry = entry.get();
    entry.tree.get() == tree.get()
        && entry.change.key().as_slice() == key
        && view.done(entry.page, client) < entry.number
}

/// The value after a pending entry, where it is of the key and the leaf lacks it.
fn after_entry<'a>(
    value: Option<Value<'a>>,
    view: &LeafView<'_>,
    client: ClientId,
    tree: TreeId,
    key: &[u8],
    entry: &'a Entry,
) -> Option<Value<'a>>
    ensures { result ≡ (if is_lacked_by view.now client tree key.now entry.now then act value.entry entry.now.change else value.entry) }
{
    if is_lacked_by(view, client, tree, key, entry) {
        act(value, &entry.get().change)
    } else {
        value
    }
}

/// The value after the pending entries of the key that the leaf lacks, in their order.
fn after_pending<'a>(
    value: Option<Value<'a>>,
    view: &LeafView<'_>,
    tree: TreeId,
    key: &[u8],
    client: ClientId,
    pending: &'a [Entry],
) -> Option<Value<'a>>
    ensures { result ≡ after_pending value.entry (filter (is_lacked_by view.now client tree key.now) pending.now) }
{
    let mut value = value;
    let mut left = pending;
    while let Some((entry, rest)) = left.split_first() {
        value = after_entry(value, view, client, tree, key, entry);
        left = rest;
    }
    value
}

/// The value after the buffered change, where there is one.
fn after_buffered<'a>(value: Option<Value<'a>>, change: Option<&'a Change>) -> Option<Value<'a>>
    ensures { result ≡ after_buffered value.entry (option_copied change.entry) }
{
    match change {
        Some(change) => act(value, change),
        None => value,
    }
}

/// The value of a key as its client sees it: that in this version of the leaf, after the client's pending entries of the key that
/// the leaf lacks, and then after the buffered change. Takes no memory.
pub fn seen<'a>(
    view: &LeafView<'a>,
    tree: TreeId,
    key: &[u8],
    client: ClientId,
    head: &'a Head,
    buffer: &'a TxnBuffer,
) -> Option<Value<'a>>
    ensures { result ≡ seen view.now tree key.now client head.now buffer.now }
{
    let pending = head.pending.as_slice();
    let committed = after_pending(view.value(key), view, tree, key, client, pending);
    after_buffered(committed, buffer.find(tree, key))
}
